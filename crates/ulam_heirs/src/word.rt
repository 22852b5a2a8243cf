//! Copies of names.
ghost use Rattle.std.specs.Prelude.{◌≡◌, IfOk};
ghost use Rattle.ulam_tree.specs.RawViews.{word_of};

use feast_base::{Name, NoMemory};
use std::alloc::Global;
use ulam_tree::Word;

/// A copy of a name, with the same place.
pub fn copy_word(alloc: Global, word: &Word) -> Result<Word, NoMemory>
    ensures { IfOk result (λ w. word_of w ≡ word_of word.now) }
{
    Ok(Word {
        name: Name::new(alloc, word.name.bytes())?,
        place: word.place,
    })
}
