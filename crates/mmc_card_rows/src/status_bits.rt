// Bits of the card status as a number.
ghost use Rattle.std.specs.Prelude.{◌*◌, ◌≡◌, ◌≤◌};
ghost use Rattle.mmc_card.specs.CardAnswer.{bit};
ghost use Rattle.mmc_frame.specs.Status.{bits_in};

use bitflags::Flags;
use mmc_frame::Status;

/// These bits where that is so, and none otherwise.
pub fn bits_if(bits: Status, is_so: bool) -> u32
    ensures bits { result ≡ bits_in bits * bit is_so }
    ensures small { result ≤ bits_in bits }
{
    if is_so { bits.bits() } else { 0 }
}
