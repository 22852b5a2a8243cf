//! The virtual functions of a line of classes by their names.
ghost use Rattle.std.specs.Prelude.{◌≡◌, ◌-◌, [], length, map, filter, option_map, IfOk, OnOk};
ghost use Rattle.ulam_tree.specs.RawViews.{member_of};
ghost use Rattle.ulam_heirs.specs.Opened as spec;
ghost use Rattle.ulam_heirs.specs.Opened.{Covers, LeadsTo, back, name_of, with_member, with_members, with_class, virtual_in, bad_in, first_bad_in, clash};
ghost use Rattle.ulam_heirs.specs.OpenedViews.{latest_of, table, state_of, pointed_members};
ghost use Rattle.ulam_heirs.specs.Views.{heir_of};

use crate::check::{differs, is_field};
use crate::fault::HeirsFault;
use crate::heir::Heir;
use crate::member::{has_word, is_function, member_word};
use feast_base::NoMemory;
use indexmap::IndexMap;
use std::alloc::Global;
use ulam_tree::Member;

/// The last virtual function of a name in a line, and whether any two of that name differ.
#[derive(Clone, Copy)]
pub struct Latest<'a> {
    pub of: &'a Member,
    pub mixed: bool,
}

/// A name, and what it had before it was given another function.
#[derive(Clone, Copy)]
pub struct Change<'a> {
    pub name: &'a [u8],
    pub before: Option<Latest<'a>>,
}

/// The virtual functions of a line by their names, and all changes on the way there.
pub struct Opened<'a> {
    pub latest: IndexMap<&'a [u8], Option<Latest<'a>>>,
    pub changes: Vec<Change<'a>>,
}

// By hand, so that callers drop by a call.
impl<'a> Drop for Opened<'a> {
    fn drop(self) {
        match self {
            Opened { latest, changes } => {}
        }
    }
}

/// The virtual functions of no class.
pub fn nothing_open<'a>(alloc: Global) -> Opened<'a>
    ensures table { Covers [] (state_of result).table }
    ensures changes { result.changes.items ≡ [] }
{
    Opened {
        latest: IndexMap::new(alloc),
        changes: Vec::new(alloc),
    }
}

/// The last virtual function of a name.
fn latest_of<'a>(opened: &Opened<'a>, name: &[u8]) -> Option<Latest<'a>>
    ensures { option_map latest_of result ≡ (state_of opened.now).table name.now }
{
    match opened.latest.get(name) {
        Some(latest) => *latest,
        None => None,
    }
}

/// What a name has after one more virtual function.
fn next<'a>(before: Option<Latest<'a>>, of: &'a Member) -> Latest<'a>
    ensures { latest_of result ≡ spec.next (option_map latest_of before.entry) (member_of of.now) }
{
    match before {
        Some(latest) => Latest {
            of,
            mixed: latest.mixed || differs(latest.of, of),
        },
        None => Latest { of, mixed: false },
    }
}

/// Adds a virtual function.
fn add<'a>(opened: &mut Opened<'a>, of: &'a Member) -> Result<(), NoMemory>
    ensures table { OnOk result ((state_of opened.new).table ≡ with_member (state_of opened.old).table (member_of of.now)) }
    ensures leads { OnOk result (LeadsTo (state_of opened.old) (state_of opened.new)) }
{
    let name = member_word(of).name.bytes();
    let before = latest_of(opened, name);
    opened.changes.push(Change { name, before })?;
    opened.latest.insert(name, Some(next(before, of)))?;
    Ok(())
}

/// Adds virtual functions in order.
fn add_all<'a>(opened: &mut Opened<'a>, members: &[&'a Member]) -> Result<(), NoMemory>
    ensures table { OnOk result ((state_of opened.new).table ≡ with_members (state_of opened.old).table (pointed_members members.now)) }
    ensures leads { OnOk result (LeadsTo (state_of opened.old) (state_of opened.new)) }
{
    for member in members {
        add(opened, *member)?;
    }
    Ok(())
}

/// Whether a member of a class with these bases is a virtual function.
fn is_virtual(opened: &Opened, heir: &Heir, member: &Member) -> bool
    ensures { result ≡ virtual_in (state_of opened.now).table (heir_of heir.now) (member_of member.now) }
{
    is_function(member)
        && (has_word(heir, member) || latest_of(opened, member_word(member).name.bytes()).is_some())
}

/// The virtual functions of a class with these bases.
fn virtual_members<'a>(
    alloc: Global,
    opened: &Opened<'a>,
    heir: &Heir<'a>,
) -> Result<Vec<&'a Member>, NoMemory>
    ensures { IfOk result (λ v. pointed_members v.items ≡ filter (virtual_in (state_of opened.now).table (heir_of heir.now)) (heir_of heir.now).class.members) }
{
    let mut found = Vec::new(alloc);
    for member in &heir.class.members {
        if is_virtual(opened, heir, member) {
            found.push(member.as_ref())?;
        }
    }
    Ok(found)
}

/// Goes on from the bases of a class to the class.
pub fn open_class<'a>(
    alloc: Global,
    opened: &mut Opened<'a>,
    heir: &Heir<'a>,
) -> Result<(), NoMemory>
    ensures table { OnOk result ((state_of opened.new).table ≡ with_class (state_of opened.old).table (heir_of heir.now)) }
    ensures leads { OnOk result (LeadsTo (state_of opened.old) (state_of opened.new)) }
{
    let members = virtual_members(alloc, opened, heir)?;
    add_all(opened, members.as_slice())
}

/// Takes back the last change.
fn take_back(opened: &mut Opened) -> Result<(), NoMemory>
    ensures { OnOk result (state_of opened.new ≡ back (state_of opened.old) (length opened.old.changes.items - 1)) }
{
    if let Some(change) = opened.changes.pop() {
        opened.latest.insert(change.name, change.before)?;
    }
    Ok(())
}

/// Takes back all changes but the first.
pub fn back_to(opened: &mut Opened, end: usize) -> Result<(), NoMemory>
    ensures { OnOk result (state_of opened.new ≡ back (state_of opened.old) end) }
{
    'turns: for _turn in end..opened.changes.len() {
        take_back(opened)?;
    }
    Ok(())
}

/// Whether a member differs from any virtual function of its name.
fn clashes(opened: &Opened, member: &Member) -> bool
    ensures { result ≡ clash ((state_of opened.now).table (name_of (member_of member.now))) (member_of member.now) }
{
    match latest_of(opened, member_word(member).name.bytes()) {
        Some(latest) => differs(latest.of, member) || (latest.mixed && is_function(member)),
        None => false,
    }
}

/// The fault of a member of a class with these bases.
fn bad_member(opened: &Opened, heir: &Heir, member: &Member) -> Option<HeirsFault>
    ensures { result ≡ bad_in (state_of opened.now).table (heir_of heir.now) (member_of member.now) }
{
    if (is_field(member) && has_word(heir, member)) || clashes(opened, member) {
        Some(HeirsFault::BadOverride(member_word(member).place))
    } else {
        None
    }
}

/// The first fault of the members of a class with these bases.
pub fn first_bad(opened: &Opened, heir: &Heir) -> Option<HeirsFault>
    ensures { result ≡ first_bad_in (state_of opened.now).table (heir_of heir.now) (heir_of heir.now).class.members }
{
    for member in &heir.class.members {
        if let Some(fault) = bad_member(opened, heir, member) {
            return Some(fault);
        }
    }
    None
}
