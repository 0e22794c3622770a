//! Laws of the definitions that the contracts cite. Each stands on a function that does nothing.
ghost use Rattle.std.specs.Prelude.{ℕ};
ghost use Rattle.mmc_frame.specs.declared.kind.Kind.{Kind};
ghost use Rattle.card_maker.specs.Sizes.{HasSize, IsCount};

/// The sizes that cards have, in numbers: up to 2 GiB a number from 1 to 4,096 times 2^2 to 2^10 sectors; above that the
/// multiples of 1,024 sectors up to 2^32 of an SD card, and each number below 2^32 of an eMMC device.
pub fn sizes_of_cards()
    ensures only { (kind : Kind) (n : ℕ) → HasSize kind n → IsCount kind n }
    ensures all { (kind : Kind) (n : ℕ) → IsCount kind n → HasSize kind n }
{}
