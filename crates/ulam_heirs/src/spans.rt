//! Where in a line of classes the functions of a virtual name stand.
ghost use Rattle.std.specs.Prelude.{◌≡◌, ◌+◌, ◌<◌, ◌&&◌, ◌||◌, ℕ, List, length, take, drop, nat_lt, true, IfOk, OnOk};
ghost use Rattle.ulam_tree.specs.RawViews.{member_of};
ghost use Rattle.ulam_heirs.specs.Flat as flat;
ghost use Rattle.ulam_heirs.specs.Spans as spec;
ghost use Rattle.ulam_heirs.specs.Spans.{AreKnown, AreSpans, span_by, member_span, members_span};
ghost use Rattle.ulam_heirs.specs.Views.{heir_of, heirs_of};

use crate::heir::Heir;
use crate::member::{has_word, is_function, is_left_out, member_word};
use feast_base::NoMemory;
use indexmap::IndexMap;
use std::alloc::Global;
use ulam_tree::Member;

/// The most members in which a name is looked for without an index.
const FEW_MEMBERS: usize = 64;

/// Of a virtual name in a line: the index of the first class that declares it after `virtual`, and
/// that of the last class that declares it.
#[derive(Clone, Copy)]
pub struct Span {
    pub first: usize,
    pub last: usize,
}

/// The span of a name with one more function, which may stand after `virtual`.
fn longer_span(span: Option<Span>, word: bool, index: usize) -> Option<Span>
    ensures { result ≡ spec.longer_span span word index }
{
    match span {
        Some(span) => Some(Span {
            first: span.first,
            last: index,
        }),
        None => {
            if word {
                Some(Span {
                    first: index,
                    last: index,
                })
            } else {
                None
            }
        }
    }
}

/// The span of a name.
fn span_of(spans: &IndexMap<&[u8], Span>, name: &[u8]) -> Option<Span>
    ensures { result ≡ span_by name.now spans.now.entries }
{
    match spans.get(name) {
        Some(span) => Some(*span),
        None => None,
    }
}

/// Adds a member of the class at an index.
fn add_member<'a>(
    spans: &mut IndexMap<&'a [u8], Span>,
    index: usize,
    heir: &Heir<'a>,
    member: &'a Member,
) -> Result<(), NoMemory>
    ensures { OnOk result ((name : List ℕ) → span_by name spans.new.entries ≡ member_span (heir_of heir.now) index name (member_of member.now) (span_by name spans.old.entries)) }
{
    if !is_function(member) {
        return Ok(());
    }
    let name = member_word(member).name.bytes();
    let Some(span) = longer_span(span_of(spans, name), has_word(heir, member), index) else {
        return Ok(());
    };
    spans.insert(name, span)?;
    Ok(())
}

/// Adds the members of the class at an index.
fn add_class<'a>(
    spans: &mut IndexMap<&'a [u8], Span>,
    index: usize,
    heir: &Heir<'a>,
) -> Result<(), NoMemory>
    ensures { OnOk result ((name : List ℕ) → span_by name spans.new.entries ≡ members_span (heir_of heir.now) index name (heir_of heir.now).class.members (span_by name spans.old.entries)) }
{
    for member in &heir.class.members {
        add_member(spans, index, heir, member)?;
    }
    Ok(())
}

/// The spans of all virtual names of a line.
fn all_spans<'a>(alloc: Global, line: &[Heir<'a>]) -> Result<IndexMap<&'a [u8], Span>, NoMemory>
    ensures { IfOk result (λ m. AreSpans m.entries (heirs_of line.now)) }
{
    let mut spans = IndexMap::new(alloc);
    let mut index = 0;
    for heir in line {
        add_class(&mut spans, index, heir)?;
        index += 1;
    }
    Ok(spans)
}

/// How many members the classes of a line have, apart from the first.
fn later_members(line: &[Heir]) -> usize {
    let Some((_, later)) = line.split_first() else {
        return 0;
    };
    let mut count = 0usize;
    for heir in later {
        count = count.saturating_add(heir.class.members.len());
    }
    count
}

/// The spans of the virtual names of a line; of none of them if there are few members after its
/// first class, among which a name is found as soon.
#[tactic(auto, using(crate::proofs::Spanning::known_none, crate::proofs::Spanning::known_all))]
pub fn spans_of<'a>(alloc: Global, line: &[Heir<'a>]) -> Result<IndexMap<&'a [u8], Span>, NoMemory>
    ensures { IfOk result (λ m. AreKnown m.entries (heirs_of line.now)) }
{
    if later_members(line) <= FEW_MEMBERS {
        return Ok(IndexMap::new(alloc));
    }
    let spans = all_spans(alloc, line)?;
    Ok(spans)
}

/// Whether a function of the class at an index, which may stand after `virtual`, is virtual and is
/// declared again, given the span of its name.
fn is_within(span: Span, word: bool, index: usize) -> bool
    ensures { result ≡ ((word || nat_lt span.first index) && nat_lt index span.last) }
{
    (word || span.first < index) && index < span.last
}

/// Whether a member of the class at an index of a line is a virtual function that a later class of
/// it declares again, by looking through all members of the line.
fn is_left_out_of(line: &[Heir], index: usize, heir: &Heir, member: &Member) -> bool
    requires { index < length line.now }
    ensures { result ≡ flat.is_left_out (heirs_of (take index line.now)) (heir_of heir.now) (heirs_of (drop (index + 1) line.now)) (member_of member.now) }
{
    let (before, _) = line.split_at(index);
    let (_, later) = line.split_at(index + 1);
    is_left_out(before, heir, later, member)
}

/// The same of a function, by the span of its name if that is known.
fn is_function_left_out(
    line: &[Heir],
    spans: &IndexMap<&[u8], Span>,
    index: usize,
    heir: &Heir,
    member: &Member,
) -> bool
    requires spans { AreKnown spans.now.entries (heirs_of line.now) }
    requires index { index < length line.now }
    requires function { flat.is_function (member_of member.now) ≡ true }
    ensures { result ≡ flat.is_left_out (heirs_of (take index line.now)) (heir_of heir.now) (heirs_of (drop (index + 1) line.now)) (member_of member.now) }
{
    match span_of(spans, member_word(member).name.bytes()) {
        Some(span) => is_within(span, has_word(heir, member), index),
        None => is_left_out_of(line, index, heir, member),
    }
}

/// Whether a member of the class at an index of a line is a virtual function that a later class of
/// it declares again.
pub fn leaves_out(
    line: &[Heir],
    spans: &IndexMap<&[u8], Span>,
    index: usize,
    heir: &Heir,
    member: &Member,
) -> bool
    requires spans { AreKnown spans.now.entries (heirs_of line.now) }
    requires index { index < length line.now }
    ensures { result ≡ flat.is_left_out (heirs_of (take index line.now)) (heir_of heir.now) (heirs_of (drop (index + 1) line.now)) (member_of member.now) }
{
    is_function(member) && is_function_left_out(line, spans, index, heir, member)
}
