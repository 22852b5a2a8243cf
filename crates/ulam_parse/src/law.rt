//! What holds of the trees of all lists of tokens.
ghost use Rattle.std.specs.Prelude.{◌≡◌, List};
ghost use Rattle.ulam_tree.specs.Raw.{Item};
ghost use Rattle.ulam_parse.specs.Grammar.{IsFile};
ghost use Rattle.ulam_parse.specs.Laws.{HasFault, HasTree};
ghost use Rattle.ulam_parse.specs.Sentences.{IsFaultOf};
ghost use Rattle.ulam_parse.specs.Tokens.{Tok};
ghost use Rattle.ulam_parse.specs.declared.fault.ParseFault.{ParseFault};

/// No list of tokens has two trees, or two first faults, or both a tree within the limit on nesting
/// and a first fault.
pub fn one_tree()
    ensures tree { (ts : List Tok) (xs ys : List Item) → IsFile xs ts → IsFile ys ts → xs ≡ ys }
    ensures either { (ts : List Tok) → HasTree ts → HasFault ts → ⊥ }
    ensures fault { (ts : List Tok) (a b : ParseFault) → IsFaultOf ts a → IsFaultOf ts b → a ≡ b }
{}
