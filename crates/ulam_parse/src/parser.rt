//! The parser.
ghost use Rattle.std.specs.Prelude.{◌≡◌, ◌⊎◌, List, IfOk, IfErr};
ghost use Rattle.ulam_tree.specs.Raw.{Item};
ghost use Rattle.ulam_tree.specs.RawViews.{file_of};
ghost use Rattle.ulam_lex.specs.Texts.{AreInOrder};
ghost use Rattle.ulam_parse.specs.Laws.{GivesTree, GivesFault};
ghost use Rattle.ulam_parse.specs.Sentences.{IsSentence, IsFaultOf};
ghost use Rattle.ulam_parse.specs.Tokens.{toks};
ghost use Rattle.ulam_parse.specs.declared.fault.ParseFault.{ParseFault};

use crate::fault::ParseFault;
use crate::judge::judge;
use crate::marks::marks_of;
use crate::tape::Tape;
use std::alloc::Global;
use ulam_lex::Token;
use ulam_tree::File;

/// Reads tokens from the first to the last.
fn read(alloc: Global, bytes: &[u8], tokens: &[Token]) -> Result<File, ParseFault>
    requires { AreInOrder bytes.now 0 tokens.now }
    ensures tree { IfOk result (λ f. IsSentence (file_of f) (toks bytes.now tokens.now)) }
    ensures fault { IfErr result (λ e. (e ≡ ParseFault.NoMemory) ⊎ IsFaultOf (toks bytes.now tokens.now) e) }
{
    let Ok(marks) = marks_of(alloc, bytes, tokens) else {
        return Err(ParseFault::NoMemory);
    };
    let tape = Tape {
        bytes,
        marks: &marks,
    };
    let items = judge(alloc, &tape)?;
    Ok(File { items })
}

/// The tree of the tokens of a text, as `lex` gives them.
///
/// # Errors
/// `Syntax` at the first token that no file has after the tokens before it, or `TooDeep` at the
/// first token at which the nesting is deeper than 64, whichever comes first, and `Syntax` if both
/// are the same token. `NoMemory` if the tree could not grow.
pub fn parse(alloc: Global, bytes: &[u8], tokens: &[Token]) -> Result<File, ParseFault>
    // The tokens are in order, each is a text of its kind, and the last one and no other is `End`.
    requires { AreInOrder bytes.now 0 tokens.now }

    // The result is the tokens' tree, and they nest nowhere too deep, or it is their first fault.
    ensures tree { IfOk result (λ f. IsSentence (file_of f) (toks bytes.now tokens.now)) }
    ensures fault { IfErr result (λ e. (e ≡ ParseFault.NoMemory) ⊎ IsFaultOf (toks bytes.now tokens.now) e) }

    // Tokens that are a sentence get its tree, and those that have a first fault get that, unless memory runs out.
    ensures only_tree { (xs : List Item) → IsSentence xs (toks bytes.now tokens.now) → GivesTree result xs }
    ensures only_fault { (fault : ParseFault) → IsFaultOf (toks bytes.now tokens.now) fault → GivesFault result fault }
{
    read(alloc, bytes, tokens)
}
