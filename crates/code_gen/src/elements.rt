//! The codes of the elements of a program.
ghost use Rattle.std.specs.Prelude.{◌≡◌, ◌<◌, ◌≤◌, ◌-◌, ◌^◌, ◌∷◌, ◌++◌, [], length, OnOk};
ghost use Rattle.ulam_meaning.specs.Events.{behave_key};
ghost use Rattle.code_gen.specs.Compiling.{program_view, IsCompilable, Compiles, AreCompiled};
ghost use Rattle.code_gen.specs.Seen.{program_of};
ghost use Rattle.code_gen.specs.Views.{key_of};

use crate::classes::Classes;
use crate::element::build;
use crate::fault::GenFault;
use crate::lookup::behave_of;
use crate::piece::Key;
use atom_layout::Layout;
use feast_base::NoMemory;
use stack_code::Code;
use std::alloc::Global;
use ulam_tree::typed::Typed;

/// The `behave` of a class, on the bits from 0 on.
fn behave_key(classes: &Classes, class: u32) -> Key
    ensures { key_of result ≡ behave_key (program_of classes.now) class }
{
    Key {
        class,
        function: behave_of(classes, class),
        base: 0,
    }
}

/// One more code.
fn keep(codes: &mut Vec<Code>, code: Code) -> Result<(), NoMemory>
    ensures { OnOk result (codes.new.items ≡ codes.old.items ++ code ∷ []) }
{
    codes.push(code)?;
    Ok(())
}

/// The codes of the elements of a program, in the order of their classes. `CodeTooLong` if an
/// element would have more than 65,536 instructions, or more than 512 operands at some place, at
/// the name of the first such element; `NoMemory` if the codes can't be made.
pub fn compile(alloc: Global, typed: &Typed, layout: &Layout) -> Result<Vec<Code>, GenFault>
    requires few { length typed.now.classes.items ≤ 2 ^ 16 - 1 }
    requires compilable { IsCompilable (program_view typed.now layout.now) }

    // The codes of the scheme, or the first element that is too long.
    ensures codes { Compiles (program_view typed.now layout.now) result }

    // On each window whose centre has the element's type, and each seed, a code leaves the window
    // that the element leaves, and fails if the element fails, with its number.
    ensures means { AreCompiled (program_view typed.now layout.now) result }
{
    let classes = Classes { typed, layout };
    let all = typed.classes.as_slice();
    let mut codes = Vec::new(alloc);
    let mut kind: u16 = 0;
    for c in 0..all.len() {
        if !all[c].quark {
            kind += 1;
            match build(alloc, &classes, kind, behave_key(&classes, c as u32))? {
                None => return Err(GenFault::CodeTooLong(all[c].word.place)),
                Some(code) => keep(&mut codes, code)?,
            }
        }
    }
    Ok(codes)
}
