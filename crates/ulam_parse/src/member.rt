//! Members.
ghost use Rattle.std.specs.Prelude.{option_map};
ghost use Rattle.ulam_tree.specs.RawViews.{word_of, width_of, type_of, param_of, const_of, member_of};
ghost use Rattle.ulam_parse.specs.Files as spec;
ghost use Rattle.ulam_parse.specs.Reading.{behind};
ghost use Rattle.ulam_parse.specs.Views.{Reads, Finds, params_in};

use crate::halt::Halt;
use crate::statement::whole_body;
use crate::symbol::Symbol;
use crate::take::{count_from, expect, past, sees, skip, word};
use crate::tape::Tape;
use crate::types::{type_ref, width_between};
use std::alloc::Global;
use ulam_tree::{Const, Member, Param, TypeRef, Width, Word};

/// A parameter.
#[tactic(auto, unfolding(crate::specs::Files::param))]
fn param(alloc: Global, tape: &Tape, at: usize) -> Result<(Param, usize), Halt>
    ensures { Reads param_of spec.param tape.now at result }
{
    let (of, next) = type_ref(alloc, tape, at)?;
    let (name, next) = expect(Symbol::Name, tape, next)?;
    let word = word(alloc, tape, name)?;
    Ok((Param { of, word }, next))
}

/// Further parameters, appended to `found`, and the closing bracket.
fn more_params(alloc: Global, found: &mut Vec<Param>, tape: &Tape, at: usize) -> Result<usize, Halt>
    ensures { Finds (params_in found.new) (behind (params_in found.old) spec.later_params) tape.now at result }
{
    let mut next = at;
    'turns: for _turn in 0..count_from(tape, at) + 1 {
        let Some(behind) = past(Symbol::Comma, tape, next) else {
            return skip(Symbol::CloseParen, tape, next);
        };
        let (value, behind) = param(alloc, tape, behind)?;
        found.push(value)?;
        next = behind;
    }
    Err(Halt::OutOfSteps)
}

/// Parameters and the closing bracket.
#[tactic(auto, unfolding(crate::specs::Files::params))]
fn params(alloc: Global, tape: &Tape, at: usize) -> Result<(Vec<Param>, usize), Halt>
    ensures { Reads params_in spec.params tape.now at result }
{
    let mut found = Vec::new(alloc);
    if let Some(next) = past(Symbol::CloseParen, tape, at) {
        return Ok((found, next));
    }
    let (first, next) = param(alloc, tape, at)?;
    found.push(first)?;
    let next = more_params(alloc, &mut found, tape, next)?;
    Ok((found, next))
}

/// A number after its sign, if it has one.
#[tactic(auto, unfolding(crate::specs::Files::const_in))]
fn const_in(minus: bool, tape: &Tape, at: usize) -> Result<(Const, usize), Halt>
    ensures { Reads const_of (spec.const_in minus) tape.now at result }
{
    let (mark, next) = expect(Symbol::Number, tape, at)?;
    Ok((
        Const::Number {
            minus,
            value: mark.value,
            unsigned: mark.unsigned,
        },
        next,
    ))
}

/// `true` or `false`.
#[tactic(auto, unfolding(crate::specs::Files::truth_in))]
fn truth_in(symbol: Symbol, value: bool, tape: &Tape, at: usize) -> Result<(Const, usize), Halt>
    ensures { Reads const_of (spec.truth_in symbol value) tape.now at result }
{
    let next = skip(symbol, tape, at)?;
    Ok((Const::Truth { value }, next))
}

/// The value that a constant is declared with.
#[tactic(auto, unfolding(crate::specs::Files::const_value))]
fn const_value(alloc: Global, tape: &Tape, at: usize) -> Result<(Const, usize), Halt>
    ensures { Reads const_of spec.const_value tape.now at result }
{
    if let Some(next) = past(Symbol::Minus, tape, at) {
        const_in(true, tape, next)
    } else if sees(Symbol::Number, tape, at) {
        const_in(false, tape, at)
    } else if sees(Symbol::True, tape, at) {
        truth_in(Symbol::True, true, tape, at)
    } else if sees(Symbol::False, tape, at) {
        truth_in(Symbol::False, false, tape, at)
    } else {
        let (mark, next) = expect(Symbol::Name, tape, at)?;
        let word = word(alloc, tape, mark)?;
        Ok((Const::Named { word }, next))
    }
}

/// A typedef.
#[tactic(auto, unfolding(crate::specs::Files::typedef_in))]
fn typedef_in(alloc: Global, tape: &Tape, at: usize) -> Result<(Member, usize), Halt>
    ensures { Reads member_of spec.typedef_in tape.now at result }
{
    let next = skip(Symbol::Typedef, tape, at)?;
    let (of, next) = type_ref(alloc, tape, next)?;
    let (name, next) = expect(Symbol::TypeName, tape, next)?;
    let next = skip(Symbol::Semi, tape, next)?;
    let word = word(alloc, tape, name)?;
    Ok((Member::Typedef { of, word }, next))
}

/// A constant.
#[tactic(auto, unfolding(crate::specs::Files::constant_in))]
fn constant_in(alloc: Global, tape: &Tape, at: usize) -> Result<(Member, usize), Halt>
    ensures { Reads member_of spec.constant_in tape.now at result }
{
    let next = skip(Symbol::Constant, tape, at)?;
    let (of, next) = type_ref(alloc, tape, next)?;
    let (name, next) = expect(Symbol::Name, tape, next)?;
    let next = skip(Symbol::Set, tape, next)?;
    let (value, next) = const_value(alloc, tape, next)?;
    let next = skip(Symbol::Semi, tape, next)?;
    let word = word(alloc, tape, name)?;
    Ok((Member::Constant { of, word, value }, next))
}

/// The length of an array in square brackets, if there is one.
#[tactic(auto, unfolding(crate::specs::Files::length_in))]
fn length_in(alloc: Global, tape: &Tape, at: usize) -> Result<(Option<Width>, usize), Halt>
    ensures { Reads (option_map width_of) spec.length_in tape.now at result }
{
    if sees(Symbol::OpenBracket, tape, at) {
        width_between(alloc, Symbol::OpenBracket, Symbol::CloseBracket, tape, at)
    } else {
        Ok((None, at))
    }
}

/// The rest of a function, after its name.
#[tactic(auto, unfolding(crate::specs::Files::function_rest))]
fn function_rest(
    alloc: Global,
    of: TypeRef,
    word: Word,
    tape: &Tape,
    at: usize,
) -> Result<(Member, usize), Halt>
    ensures { Reads member_of (spec.function_rest (type_of of) (word_of word)) tape.now at result }
{
    let next = skip(Symbol::OpenParen, tape, at)?;
    let (params, next) = params(alloc, tape, next)?;
    let next = skip(Symbol::OpenBrace, tape, next)?;
    let (body, next) = whole_body(alloc, tape, next)?;
    Ok((
        Member::Function {
            of,
            word,
            params,
            body,
        },
        next,
    ))
}

/// The rest of a data member, after its name.
#[tactic(auto, unfolding(crate::specs::Files::field_rest))]
fn field_rest(
    alloc: Global,
    of: TypeRef,
    word: Word,
    tape: &Tape,
    at: usize,
) -> Result<(Member, usize), Halt>
    ensures { Reads member_of (spec.field_rest (type_of of) (word_of word)) tape.now at result }
{
    let (length, next) = length_in(alloc, tape, at)?;
    let next = skip(Symbol::Semi, tape, next)?;
    Ok((Member::Field { of, word, length }, next))
}

/// A data member or a function.
#[tactic(auto, unfolding(crate::specs::Files::named_member))]
fn named_member(alloc: Global, tape: &Tape, at: usize) -> Result<(Member, usize), Halt>
    ensures { Reads member_of spec.named_member tape.now at result }
{
    let (of, next) = type_ref(alloc, tape, at)?;
    let (name, next) = expect(Symbol::Name, tape, next)?;
    let word = word(alloc, tape, name)?;
    if sees(Symbol::OpenParen, tape, next) {
        function_rest(alloc, of, word, tape, next)
    } else {
        field_rest(alloc, of, word, tape, next)
    }
}

/// A member.
#[tactic(auto, unfolding(crate::specs::Files::member))]
pub fn member(alloc: Global, tape: &Tape, at: usize) -> Result<(Member, usize), Halt>
    ensures { Reads member_of spec.member tape.now at result }
{
    if sees(Symbol::Typedef, tape, at) {
        typedef_in(alloc, tape, at)
    } else if sees(Symbol::Constant, tape, at) {
        constant_in(alloc, tape, at)
    } else {
        named_member(alloc, tape, at)
    }
}
