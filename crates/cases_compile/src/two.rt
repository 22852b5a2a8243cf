//! Two functions, of which the first calls the second in a loop.

ghost use Rattle.std.specs.Prelude.{◌≡◌, IfOk};
ghost use Rattle.code_gen.specs.Views.{piece_of};
ghost use Rattle.cases_compile.specs.Two.{two, behave_body, less_body};

use code_gen::{Head, Key, Piece, Source, build, make};
use feast_base::{Name, NoMemory};
use stack_code::{Answer, Instr, Operand, RawFunction};
use std::alloc::Global;
use std::test::Fail;

// The functions by their numbers: `behave`, and `less` for all others.
struct Two;

/// Takes 1 from a slot by calls of `less`, until it is 0.
fn behave(alloc: Global) -> Result<Piece, NoMemory>
    ensures { IfOk result (λ q. piece_of q ≡ behave_body) }
{
    use Instr::*;
    let first = make::then_instr(alloc, Piece::Plain(PushNum(3)), StoreLocal(0))?;
    let less = Key {
        class: 0,
        function: 1,
        base: 0,
    };
    let call = make::seq(alloc, Piece::Plain(LoadLocal(0)), Piece::Asks(less))?;
    let body = make::then_instr(alloc, call, StoreLocal(0))?;
    let around = make::test_loop(alloc, Piece::Plain(LoadLocal(0)), body, Piece::Nothing)?;
    make::seq(alloc, first, around)
}

/// Gives its argument less 1.
fn less(alloc: Global) -> Result<Piece, NoMemory>
    ensures { IfOk result (λ q. piece_of q ≡ less_body) }
{
    use Instr::*;
    let both = make::then_instr(alloc, Piece::Plain(LoadLocal(0)), PushNum(1))?;
    let difference = make::then_instr(alloc, both, SubI)?;
    make::seq(alloc, difference, Piece::Gives)
}

impl Source for Two {
    ghost drafts = { λ s. two };

    fn head(&self, key: Key) -> Head {
        if key.function == 0 {
            Head {
                params: 0,
                answer: Answer::Nothing,
                blank: 0,
            }
        } else {
            Head {
                params: 1,
                answer: Answer::Number,
                blank: 0,
            }
        }
    }

    fn body(&self, alloc: Global, key: Key) -> Result<Piece, NoMemory> {
        if key.function == 0 {
            behave(alloc)
        } else {
            less(alloc)
        }
    }

    fn function(&self, alloc: Global, key: Key, first: u32) -> Result<RawFunction, NoMemory> {
        let head = self.head(key);
        let name = if key.function == 0 {
            Name::new(alloc, b"behave")?
        } else {
            Name::new(alloc, b"less")?
        };
        let slots = vec![in alloc; Operand::Number]?;
        Ok(RawFunction::new(name, key.base, first, head.params, slots, head.answer))
    }
}

#[test]
fn functions_are_laid_down_by_first_call(rt: HostRuntime) -> Result<(), Fail> {
    use Instr::*;
    let alloc = rt.alloc();
    let main = Key {
        class: 0,
        function: 0,
        base: 0,
    };
    match build(alloc, &Two, 1, main)? {
        None => assert!(rt; false, "the code is too long"),
        Some(code) => {
            let is_as_written = matches!(
                code.instrs(),
                [
                    PushNum(3),
                    StoreLocal(0),
                    LoadLocal(0),
                    JumpFalse(9),
                    LoadLocal(0),
                    Call(1),
                    StoreLocal(0),
                    Turn,
                    Jump(2),
                    ReturnVoid,
                    LoadLocal(0),
                    PushNum(1),
                    SubI,
                    Return,
                    PushNum(0),
                    Return,
                ]
            );
            assert!(rt; is_as_written);
            assert_eq!(rt; (code.kind(), code.functions().len()), (1, 2));
            let less = &code.functions()[1];
            assert_eq!(rt; less.name().bytes(), b"less".as_slice());
            assert_eq!(rt; (less.first(), less.params()), (10, 1));
        }
    }
    Ok(())
}
