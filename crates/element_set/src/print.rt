//! The text that shows the classes of a set with their data members.
ghost use Rattle.std.specs.Prelude.{◌≡◌, ◌<◌, ◌≤◌, ◌+◌, ◌++◌, codes, decimal, length, map, OnOk, OnErr};
ghost use Rattle.atom_layout.specs.Layouts.{class_at};
ghost use Rattle.ulam_tree.specs.TypedViews.{typed_class, typed_member};
ghost use Rattle.ulam_names.specs.declared.limits.TheConstants.{MOST_CLASSES, MOST_MEMBERS};
ghost use Rattle.element_set.specs.CheckText as text;
ghost use Rattle.element_set.specs.Kept.{Fits, set_of_lists};
ghost use Rattle.element_set.specs.Names.{element_name, field_count};
ghost use Rattle.element_set.specs.Printing.{Adds, class_with_fields, field_text, fields_text};
ghost use Rattle.element_set.specs.Sets.{check_text, set_value};

use crate::lengths::classes_len;
use crate::set::ElementSet;
use atom_layout::Layout;
use feast_base::NoMemory;
use feast_base::text::{push, push_number};
use sat_math::{Kind, NumType};
use ulam_tree::typed::{Class, Member, Ty};

/// Appends a word and a space.
fn push_spaced(out: &mut Vec<u8>, word: &[u8]) -> Result<(), NoMemory>
    ensures { Adds result out.old out.new (text.word_and_space word.now) }
{
    push(out, word)?;
    push(out, b" ")
}

/// Appends a number and a space.
fn push_number_spaced(out: &mut Vec<u8>, n: u32) -> Result<(), NoMemory>
    ensures { Adds result out.old out.new (text.word_and_space (decimal n)) }
{
    push_number(out, u64::from(n))?;
    push(out, b" ")
}

/// Appends a number and an LF.
fn push_last(out: &mut Vec<u8>, n: u32) -> Result<(), NoMemory>
    ensures { Adds result out.old out.new (decimal n ++ codes "\n") }
{
    push_number(out, u64::from(n))?;
    push(out, b"\n")
}

/// Appends the word of a number type and its width in brackets.
fn push_sized(out: &mut Vec<u8>, word: &[u8], width: u8) -> Result<(), NoMemory>
    ensures { Adds result out.old out.new (word.now ++ text.in_parens width) }
{
    push(out, word)?;
    push(out, b"(")?;
    push_number(out, u64::from(width))?;
    push(out, b")")
}

/// Appends a number type.
fn push_num(out: &mut Vec<u8>, num: NumType) -> Result<(), NoMemory>
    ensures { Adds result out.old out.new (text.number_text num.kind num.width) }
{
    match num.kind {
        Kind::Int => push_sized(out, b"Int", num.width),
        Kind::Unsigned => push_sized(out, b"Unsigned", num.width),
        Kind::Bits => push_sized(out, b"Bits", num.width),
        Kind::Unary => push_sized(out, b"Unary", num.width),
        Kind::Bool => push(out, b"Bool"),
    }
}

/// Appends the name of the class of a number.
fn push_class_name(out: &mut Vec<u8>, classes: &[Class], number: u32) -> Result<(), NoMemory>
    ensures { Adds result out.old out.new (text.class_name (map typed_class classes.now) number) }
{
    match classes.get(number as usize) {
        Some(class) => push(out, class.word.name.bytes()),
        None => Ok(()),
    }
}

/// Appends the type of a data member.
fn push_type(out: &mut Vec<u8>, classes: &[Class], ty: Ty) -> Result<(), NoMemory>
    ensures { Adds result out.old out.new (text.type_text (map typed_class classes.now) ty) }
{
    match ty {
        Ty::Num { num } => push_num(out, num),
        Ty::Class { class } => push_class_name(out, classes, class),
        _ => Ok(()),
    }
}

/// Appends the length of an array in square brackets.
fn push_length(out: &mut Vec<u8>, length: u32) -> Result<(), NoMemory>
    ensures { Adds result out.old out.new (text.length_text length) }
{
    if length == 0 {
        return Ok(());
    }
    push(out, b"[")?;
    push_number(out, u64::from(length))?;
    push(out, b"]")
}

/// Appends the type of a data member and its length, and a space.
fn push_whole_type(
    out: &mut Vec<u8>,
    classes: &[Class],
    ty: Ty,
    length: u32,
) -> Result<(), NoMemory>
    ensures { Adds result out.old out.new (text.word_and_space (text.whole_type (map typed_class classes.now) ty length)) }
{
    push_type(out, classes, ty)?;
    push_length(out, length)?;
    push(out, b" ")
}

/// The bits of a data member.
#[derive(Clone, Copy)]
struct Span {
    first: u32,
    width: u32,
}

/// Appends a data member, if it takes bits.
fn push_field(
    out: &mut Vec<u8>,
    classes: &[Class],
    name: &[u8],
    ty: Ty,
    length: u32,
    span: Span,
) -> Result<(), NoMemory>
    ensures { Adds result out.old out.new (field_text classes.now name.now ty length span) }
{
    if span.width == 0 {
        return Ok(());
    }
    push(out, b"member ")?;
    push_spaced(out, name)?;
    push_whole_type(out, classes, ty, length)?;
    push_number_spaced(out, span.first)?;
    push_last(out, span.width)
}

/// Appends the data members of the class of a number.
fn push_members(
    out: &mut Vec<u8>,
    classes: &[Class],
    layout: &Layout,
    own: u32,
    members: &[Member],
) -> Result<(), NoMemory>
    requires class { own < length layout.now }
    requires fits { field_count (map typed_member members.now) ≤ length (class_at layout.now own) }
    requires few { field_count (map typed_member members.now) ≤ MOST_MEMBERS }
    ensures { Adds result out.old out.new (fields_text classes.now layout.now own members.now) }
{
    let mut at: u32 = 0;
    for member in members {
        if let Member::Field { of, word, length } = member {
            let span = Span {
                first: layout.first(own, at),
                width: layout.width(own, at),
            };
            push_field(out, classes, word.name.bytes(), of.ty, *length, span)?;
            at += 1;
        }
    }
    Ok(())
}

/// Appends the line of a quark.
fn push_quark(out: &mut Vec<u8>, name: &[u8], bits: u32) -> Result<(), NoMemory>
    ensures { Adds result out.old out.new (text.quark_line name.now bits) }
{
    push(out, b"quark ")?;
    push_spaced(out, name)?;
    push_last(out, bits)
}

/// Appends the line of an element.
fn push_element(out: &mut Vec<u8>, name: &[u8], number: u32, bits: u32) -> Result<(), NoMemory>
    ensures { Adds result out.old out.new (text.element_line name.now number bits) }
{
    push(out, b"element ")?;
    push_spaced(out, name)?;
    push_number_spaced(out, number)?;
    push_last(out, bits)
}

/// Appends the line of a class, with this many elements before it.
fn push_head(out: &mut Vec<u8>, class: &Class, before: u32, bits: u32) -> Result<(), NoMemory>
    requires { before ≤ MOST_CLASSES }
    ensures { Adds result out.old out.new (text.class_line (typed_class class.now) before bits) }
{
    let name = class.word.name.bytes();
    if class.quark {
        push_quark(out, name, bits)
    } else {
        push_element(out, name, before + 1, bits)
    }
}

/// Appends the class of a number, with this many elements before it.
pub(crate) fn push_class(
    out: &mut Vec<u8>,
    classes: &[Class],
    layout: &Layout,
    own: u32,
    class: &Class,
    before: u32,
) -> Result<(), NoMemory>
    requires class { own < length layout.now }
    requires fits { field_count (typed_class class.now).members ≤ length (class_at layout.now own) }
    requires few { field_count (typed_class class.now).members ≤ MOST_MEMBERS }
    requires before { before ≤ MOST_CLASSES }
    ensures { Adds result out.old out.new (class_with_fields classes.now layout.now own before class.now) }
{
    push_head(out, class, before, layout.bits(own))?;
    push_members(out, classes, layout, own, class.members.as_slice())
}

/// How many elements there are with one more class.
pub(crate) fn with_class(class: &Class, before: u32) -> u32
    requires { before ≤ MOST_CLASSES }
    ensures { result ≡ before + length (element_name (typed_class class.now)) }
{
    if class.quark { before } else { before + 1 }
}

/// Appends all classes.
fn push_classes(out: &mut Vec<u8>, classes: &[Class], layout: &Layout) -> Result<(), NoMemory>
    requires few { length classes.now ≤ MOST_CLASSES }
    requires fits { Fits (map typed_class classes.now) layout.now }
    ensures { Adds result out.old out.new (check_text (set_of_lists classes.now layout.now)) }
{
    let mut own: u32 = 0;
    let mut before: u32 = 0;
    for class in classes {
        push_class(out, classes, layout, own, class, before)?;
        before = with_class(class, before);
        own += 1;
    }
    Ok(())
}

impl ElementSet {
    /// Appends the text that shows the classes: a line for each class with its bits, and for an
    /// element with its number, and a line for each data member that takes bits. Memory is taken
    /// once, for the counted length of the text; `NoMemory` if there is none for it, or for counting.
    /// `out` then has what it had.
    pub fn print_check(&self, out: &mut Vec<u8>) -> Result<(), NoMemory>
        ensures ok { OnOk result (out.new.items ≡ out.old.items ++ check_text (set_value self.now)) }
        ensures err { OnErr result (out.new.items ≡ out.old.items) }
    {
        let before = out.len();
        let classes = self.typed.classes.as_slice();
        let len = classes_len(*out.allocator(), classes, &self.layout)?;
        out.reserve_exact(len)?;
        let pushed = push_classes(out, classes, &self.layout);
        if pushed.is_err() {
            out.truncate(before);
        }
        pushed
    }
}
