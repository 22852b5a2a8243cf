//! Files by themselves: their tokens, and their trees without bases.
ghost use Rattle.std.specs.Prelude.{◌≡◌, ◌<◌, ◌-◌, ◌^◌, length, IfOk, OnOk};
ghost use Rattle.std.specs.List.{All};
ghost use Rattle.ulam_lex.specs.Texts.{AreInOrder};
ghost use Rattle.element_set.specs.Stages as stage;
ghost use Rattle.element_set.specs.Told.{Tells, tree_value, trees_value};

use crate::fault::BuildFault;
use feast_base::{NoMemory, Source};
use std::alloc::Global;
use ulam_heirs::{Heads, heads};
use ulam_lex::{Token, lex};
use ulam_parse::parse;
use ulam_tree::File;

/// A file, and what was taken out of its tokens.
#[derive(Drop)]
struct Tree {
    file: File,
    heads: Heads,
}

/// Files in order, and what was taken out of the tokens of each.
#[derive(Drop)]
pub struct Trees {
    pub files: Vec<File>,
    pub heads: Vec<Heads>,
}

/// The tree of tokens without what they say of bases and virtual functions.
fn parse_tokens(alloc: Global, bytes: &[u8], tokens: Vec<Token>) -> Result<Tree, BuildFault>
    requires { AreInOrder bytes.now 0 tokens.items }
    ensures { Tells tree_value (stage.parse_stage bytes.now tokens.items) result }
{
    let (left, heads) = heads(alloc, bytes, tokens)?.into_parts();
    let file = parse(alloc, bytes, left.as_slice())?;
    Ok(Tree { file, heads })
}

/// The tree of the file of a number.
fn read_tree(alloc: Global, bytes: &[u8], file: u32) -> Result<Tree, BuildFault>
    requires { length bytes.now < 2 ^ 32 - 1 }
    ensures { Tells tree_value (stage.tree_of file bytes.now) result }
{
    let tokens = lex(alloc, bytes, file)?;
    parse_tokens(alloc, bytes, tokens)
}

/// Adds the tree of one more file.
fn add(trees: &mut Trees, tree: Tree) -> Result<(), NoMemory>
    ensures { OnOk result (trees_value trees.new ≡ stage.with_tree (trees_value trees.old) (tree_value tree)) }
{
    trees.files.push(tree.file)?;
    trees.heads.push(tree.heads)?;
    Ok(())
}

/// The trees of files, each lexed and parsed before the next is lexed.
pub fn read_trees(alloc: Global, files: &[Source]) -> Result<Trees, BuildFault>
    requires few { length files.now < 2 ^ 32 }
    requires short { All (λ f. length f.1 < 2 ^ 32 - 1) files.now }
    ensures trees { Tells trees_value (stage.more_trees stage.no_trees files.now) result }
    ensures each { IfOk result (λ t. length t.files.items ≡ length t.heads.items) }
{
    let mut done = Trees {
        files: Vec::new(alloc),
        heads: Vec::new(alloc),
    };
    let mut number: u32 = 0;
    for file in files {
        let tree = read_tree(alloc, file.bytes(), number)?;
        add(&mut done, tree)?;
        number += 1;
    }
    Ok(done)
}
