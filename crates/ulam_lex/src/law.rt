//! What holds of the tokens of every text.
ghost use Rattle.std.specs.Prelude.{◌≡◌, ℕ, ◌⊎◌, Bool, List};
ghost use Rattle.ulam_lex.specs.Laws.{AtMostOne, HasFault, HasNoTokens, HasTokens, IsBroken};
ghost use Rattle.ulam_lex.specs.Pieces.{IsNumeral};
ghost use Rattle.ulam_lex.specs.Texts.{IsFaultOf, IsTokensOf};

/// Each text has a list of tokens within the limit or a first fault, and never both. No text has
/// two lists of tokens, or two first faults. A text with a bad byte, an open comment or a number
/// that is too large after some pieces has no list of any length. No numeral has two values.
pub fn one_reading()
    ensures some { (file : ℕ) (text : List ℕ) → HasTokens file text ⊎ HasFault file text }
    ensures list { (file : ℕ) (text : List ℕ) → AtMostOne (IsTokensOf file text) }
    ensures either { (file : ℕ) (text : List ℕ) → HasTokens file text → HasFault file text → ⊥ }
    ensures fault { (file : ℕ) (text : List ℕ) → AtMostOne (IsFaultOf file text) }
    ensures none { (file : ℕ) (text : List ℕ) → IsBroken file text → HasNoTokens file text }
    ensures value { (text : List ℕ) (a b : ℕ) (u v : Bool) → IsNumeral text a u → IsNumeral text b v → (a ≡ b) × (u ≡ v) }
{}
