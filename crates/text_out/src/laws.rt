//! Laws of the definitions that the contracts cite. Each stands on a function that does nothing.
ghost use Rattle.std.specs.Prelude.{◌≡◌, ℕ, List};
ghost use Rattle.text_out.specs.Repeats.{NeighboursDiffer, repeats, spread};

/// The repeats stand for the bytes, and no repeat goes on in the next: so they are the longest.
#[tactic(auto, using(crate::proofs::RepeatLemmas::spread_repeats, crate::proofs::RepeatLemmas::repeats_apart))]
pub fn longest_repeats()
    ensures bytes { (bs : List ℕ) → spread (repeats bs) ≡ bs }
    ensures longest { (bs : List ℕ) → NeighboursDiffer (repeats bs) }
{}
