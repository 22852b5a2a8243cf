//! Copies of names and of paths.
ghost use Rattle.std.specs.Prelude.{◌≡◌, IfOk};
ghost use Rattle.ulam_tree.specs.RawViews.{word_of};
ghost use Rattle.ulam_tree.specs.ResolvedViews.{resolved_path};

use feast_base::{Name, NoMemory};
use std::alloc::{AllocError, Global};
use ulam_tree::Word;
use ulam_tree::resolved::Path;

/// A copy of a name.
pub fn word(alloc: Global, word: &Word) -> Result<Word, NoMemory>
    ensures { IfOk result (λ w. word_of w ≡ word_of word.now) }
{
    Ok(Word {
        name: Name::new(alloc, word.name.bytes())?,
        place: word.place,
    })
}

/// A copy of a path.
pub fn path(alloc: Global, path: &Path) -> Result<Path, AllocError>
    ensures { IfOk result (λ p. resolved_path p ≡ resolved_path path.now) }
{
    let mut steps = Vec::with_capacity(alloc, path.steps.len())?;
    steps.extend_from_slice(path.steps.as_slice())?;
    Ok(Path {
        place: path.place,
        steps,
    })
}
