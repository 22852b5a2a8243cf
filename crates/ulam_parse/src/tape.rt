//! A text with its tokens.
ghost use Rattle.std.specs.List.{All};
ghost use Rattle.ulam_parse.specs.Marks.{IsMark};

use crate::mark::Mark;

/// A text with its tokens. A position is the index of a token, or the number of tokens at the end.
#[derive(Clone, Copy)]
pub struct Tape<'t> {
    pub bytes: &'t [u8],
    pub marks: &'t [Mark],
    ghost sound: { All (λ m. IsMark bytes.now m) marks.now },
}
