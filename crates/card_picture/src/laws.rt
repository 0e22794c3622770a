//! Laws of the definitions that the contracts cite. Each stands on a function that does nothing.
ghost use Rattle.std.specs.Prelude.{◌≡◌, ℕ, List, IsTrue, None};
ghost use Rattle.std.specs.List.{list_all};
ghost use Rattle.card_picture.specs.Escapes.{escaped, is_no_markup, read_in};

/// An escaped text has no markup, and a reader takes it for the text.
#[tactic(auto, using(crate::proofs::EscapeLemmas::no_markup, crate::proofs::EscapeLemmas::read_back))]
pub fn escaped_text_is_read_back()
    ensures plain { (text : List ℕ) → IsTrue (list_all is_no_markup (escaped text)) }
    ensures read { (text : List ℕ) → read_in None (escaped text) ≡ text }
{}
