//! The stages of a setting, which is a world or a chain: its text, its elements, and the names of its atoms.
ghost use Rattle.std.specs.Prelude.{◌≡◌, ◌≤◌, ◌<◌, ◌^◌, IfOk, false, length, true};
ghost use Rattle.cell_grid.specs.Known.{BringsNone};
ghost use Rattle.chain_text.specs.Reading.{is_chain};
ghost use Rattle.code_file.specs.Form.{IsSayable};
ghost use Rattle.call_form.specs.Forms.{texts};
ghost use Rattle.feast_run.specs.CodeFiles.{ready_packed, with_codes};
ghost use Rattle.feast_run.specs.Elements.{code_elements, source_elements};
ghost use Rattle.feast_run.specs.Halting.{decides};
ghost use Rattle.feast_run.specs.Stages.{chain_draft, draft_of, named_by, read_setting, ready, with_sources, world_draft, world_refused};
ghost use Rattle.feast_run.specs.Tellings.{Moves, Tells};
ghost use Rattle.feast_run.specs.Values.{IsReadySetting, draft_value, elements_value, setting_value};
ghost use Rattle.element_set.specs.Sets.{set_value};
ghost use Rattle.call_form.specs.declared.form.TheConstants.{MOST_FILES};

use crate::code_files::load_codes;
use crate::element_files::load_set;
use crate::elements::Elements;
use crate::halt::Halt;
use crate::loading::{WORLD_LIMIT, load_file};
use crate::worlds::{Ready, ReadyChain, chain_with_names, world_halt, world_with_names};
use chain_text::{RawChain, is_chain};
use code_file::CodeSet;
use element_set::ElementSet;
use feast_base::Shelf;
use std::alloc::Global;
use world_text::{RawWorld, read};

/// What a text says, before its atoms have types.
#[derive(Drop)]
pub enum Draft {
    /// It is a world.
    World(RawWorld),
    /// It is a chain.
    Chain(RawChain),
}

/// What a call is about, with its elements.
#[derive(Drop)]
pub enum Setting {
    /// A world.
    World(Ready),
    /// A chain.
    Chain(ReadyChain),
}

/// Reads the bytes of a world.
fn read_world<'a>(alloc: Global, word: &'a str, bytes: &[u8]) -> Result<Draft, Halt<'a>>
    requires plain { is_chain bytes.now ≡ false }
    requires short { length bytes.now < 2 ^ 63 }
    ensures { Tells draft_value (decides (world_refused word.now) (read_setting bytes.now)) result }
{
    match read(alloc, bytes) {
        Ok(draft) => Ok(Draft::World(draft)),
        Err(fault) => Err(world_halt(word, fault)),
    }
}

/// Reads the bytes of a chain.
fn read_chain<'a>(alloc: Global, word: &'a str, bytes: &[u8]) -> Result<Draft, Halt<'a>>
    requires begins { is_chain bytes.now ≡ true }
    requires short { length bytes.now < 2 ^ 63 }
    ensures { Tells draft_value (decides (world_refused word.now) (read_setting bytes.now)) result }
{
    match chain_text::read(alloc, bytes) {
        Ok(draft) => Ok(Draft::Chain(draft)),
        Err(fault) => Err(world_halt(word, fault)),
    }
}

/// Reads the bytes of a setting: its first line tells a chain from a world.
fn read_draft<'a>(alloc: Global, word: &'a str, bytes: &[u8]) -> Result<Draft, Halt<'a>>
    requires { length bytes.now < 2 ^ 63 }
    ensures { Tells draft_value (decides (world_refused word.now) (read_setting bytes.now)) result }
{
    if is_chain(bytes) {
        read_chain(alloc, word, bytes)
    } else {
        read_world(alloc, word, bytes)
    }
}

/// Loads and reads a setting.
fn load_draft<'a, F: Shelf>(alloc: Global, shelf: &mut F, word: &'a str) -> Result<Draft, Halt<'a>>
    ensures files { (F.state shelf.new).files ≡ (F.state shelf.old).files }
    ensures moves { Moves (F.state shelf.old) (F.state shelf.new) result }
    ensures tells { Tells draft_value (draft_of (F.state shelf.old).files word.now) result }
{
    let bytes = load_file(alloc, shelf, word, WORLD_LIMIT)?;
    read_draft(alloc, word, bytes.as_slice())
}

/// A world with its elements.
fn with_world<'a>(
    alloc: Global,
    word: &'a str,
    draft: RawWorld,
    elements: Elements,
) -> Result<Setting, Halt<'a>>
    requires few { length (elements_value elements).names ≤ 65535 }
    requires brings { BringsNone (length (elements_value elements).names) (elements_value elements).meaning }
    ensures tells { Tells setting_value (named_by word.now (world_draft draft) (elements_value elements)) result }
    ensures ready { IfOk result IsReadySetting }
{
    let world = world_with_names(alloc, word, draft, elements.names())?;
    Ok(Setting::World(Ready { world, elements }))
}

/// A chain with its elements.
fn with_chain<'a>(
    alloc: Global,
    word: &'a str,
    draft: RawChain,
    elements: Elements,
) -> Result<Setting, Halt<'a>>
    requires few { length (elements_value elements).names ≤ 65535 }
    requires brings { BringsNone (length (elements_value elements).names) (elements_value elements).meaning }
    ensures tells { Tells setting_value (named_by word.now (chain_draft draft) (elements_value elements)) result }
    ensures ready { IfOk result IsReadySetting }
{
    let chain = chain_with_names(alloc, word, draft, elements.names())?;
    Ok(Setting::Chain(ReadyChain { chain, elements }))
}

/// A setting with its elements.
fn with_elements<'a>(
    alloc: Global,
    word: &'a str,
    draft: Draft,
    elements: Elements,
) -> Result<Setting, Halt<'a>>
    requires few { length (elements_value elements).names ≤ 65535 }
    requires brings { BringsNone (length (elements_value elements).names) (elements_value elements).meaning }
    ensures tells { Tells setting_value (named_by word.now (draft_value draft) (elements_value elements)) result }
    ensures ready { IfOk result IsReadySetting }
{
    match draft {
        Draft::World(draft) => with_world(alloc, word, draft, elements),
        Draft::Chain(draft) => with_chain(alloc, word, draft, elements),
    }
}

/// A setting with the elements of a set.
fn with_set<'a>(
    alloc: Global,
    word: &'a str,
    draft: Draft,
    set: ElementSet,
) -> Result<Setting, Halt<'a>>
    ensures tells { Tells setting_value (named_by word.now (draft_value draft) (source_elements (set_value set))) result }
    ensures ready { IfOk result IsReadySetting }
{
    with_elements(alloc, word, draft, Elements::Sources(set))
}

/// A setting with the elements of a code file.
fn with_codes<'a>(
    alloc: Global,
    word: &'a str,
    draft: Draft,
    set: CodeSet,
) -> Result<Setting, Halt<'a>>
    requires { IsSayable set }
    ensures tells { Tells setting_value (named_by word.now (draft_value draft) (code_elements set)) result }
    ensures ready { IfOk result IsReadySetting }
{
    with_elements(alloc, word, draft, Elements::Codes(set))
}

/// Loads the element files of a setting.
fn with_element_files<'a, F: Shelf>(
    alloc: Global,
    shelf: &mut F,
    word: &'a str,
    words: &'a [String],
    draft: Draft,
) -> Result<Setting, Halt<'a>>
    requires { length words.now ≤ MOST_FILES }
    ensures files { (F.state shelf.new).files ≡ (F.state shelf.old).files }
    ensures moves { Moves (F.state shelf.old) (F.state shelf.new) result }
    ensures tells { Tells setting_value (with_sources (F.state shelf.old).files (texts words.now) word.now (draft_value draft)) result }
    ensures ready { IfOk result IsReadySetting }
{
    let set = load_set(alloc, shelf, words)?;
    with_set(alloc, word, draft, set)
}

/// Loads the code file of a setting.
fn with_code_file<'a, F: Shelf>(
    alloc: Global,
    shelf: &mut F,
    word: &'a str,
    code: &'a str,
    draft: Draft,
) -> Result<Setting, Halt<'a>>
    ensures files { (F.state shelf.new).files ≡ (F.state shelf.old).files }
    ensures moves { Moves (F.state shelf.old) (F.state shelf.new) result }
    ensures tells { Tells setting_value (with_codes (F.state shelf.old).files code.now word.now (draft_value draft)) result }
    ensures ready { IfOk result IsReadySetting }
{
    let set = load_codes(alloc, shelf, code)?;
    with_codes(alloc, word, draft, set)
}

/// Loads a setting and its element files.
pub fn make_ready<'a, F: Shelf>(
    alloc: Global,
    shelf: &mut F,
    word: &'a str,
    words: &'a [String],
) -> Result<Setting, Halt<'a>>
    requires { length words.now ≤ MOST_FILES }
    ensures files { (F.state shelf.new).files ≡ (F.state shelf.old).files }
    ensures moves { Moves (F.state shelf.old) (F.state shelf.new) result }
    ensures tells { Tells setting_value (ready (F.state shelf.old).files word.now (texts words.now)) result }
    ensures ready { IfOk result IsReadySetting }
{
    let draft = load_draft(alloc, shelf, word)?;
    with_element_files(alloc, shelf, word, words, draft)
}

/// Loads a setting and its code file.
pub fn make_packed<'a, F: Shelf>(
    alloc: Global,
    shelf: &mut F,
    word: &'a str,
    code: &'a str,
) -> Result<Setting, Halt<'a>>
    ensures files { (F.state shelf.new).files ≡ (F.state shelf.old).files }
    ensures moves { Moves (F.state shelf.old) (F.state shelf.new) result }
    ensures tells { Tells setting_value (ready_packed (F.state shelf.old).files word.now code.now) result }
    ensures ready { IfOk result IsReadySetting }
{
    let draft = load_draft(alloc, shelf, word)?;
    with_code_file(alloc, shelf, word, code, draft)
}
