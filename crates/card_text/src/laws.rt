//! Laws of the definitions that the contracts cite. Each stands on a function that does nothing.
ghost use Rattle.std.specs.Prelude.{◌≡◌, ◌<◌, ◌≤◌, ℕ, All, List, Some, length};
ghost use Rattle.text_out.specs.Repeats.{repeats_text};
ghost use Rattle.card_text.specs.Data.{data_of};
ghost use Rattle.card_text.specs.declared.data.TheConstants.{MAX_DATA};

/// Data as it is printed is read again, where one line may give so much.
#[tactic(auto, using(crate::proofs::PrintedLemmas::data_read_again))]
pub fn data_is_read_again()
    ensures { (bs : List ℕ) → 0 < length bs → length bs ≤ MAX_DATA → All (λ b. b < 256) bs → data_of (repeats_text bs) ≡ Some bs }
{}
