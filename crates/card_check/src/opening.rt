// Whether a card is opened that is built.
ghost use Rattle.std.specs.Prelude.{◌≡◌, [], IfOk, false, true};
ghost use Rattle.std.specs.Io.KnownBytes.{Appends};
ghost use Rattle.mmc_card.specs.Profile.{InProfile};
ghost use Rattle.mmc_card_sim.specs.Registers.{made_of};
ghost use Rattle.card_check.specs.declared.unopened.Unopened.{Unopened};
ghost use Rattle.card_check.specs.Unopened.{IsPlain, IsWhy, unopened_line};

use crate::fault::CheckFault;
use crate::unopened::why_unopened;
use crate::unopened_text::put_unopened;
use mmc_card_sim::Registers;
use std::io::Write;

/// Whether a card of these registers is opened where no fault is planned; where it isn't, a line says why.
///
/// # Errors
/// `Write` where a write failed.
pub fn check_opening<W: Write>(registers: &Registers, out: &mut W) -> Result<bool, CheckFault>
    ensures opened { IfOk result (λ opened. opened ≡ true → IsPlain (made_of registers.now) → InProfile (made_of registers.now)) }
    ensures unopened { IfOk result (λ opened. opened ≡ false → InProfile (made_of registers.now) → ⊥) }
    ensures silent { IfOk result (λ opened. opened ≡ true → Appends (W.contents out.old) (W.contents out.new) []) }
    ensures said { IfOk result (λ opened. opened ≡ false → (why : Unopened) × IsWhy (made_of registers.now) why
        × Appends (W.contents out.old) (W.contents out.new) (unopened_line why)) }
{
    match why_unopened(registers) {
        Some(why) => {
            put_unopened(out, why)?;
            Ok(false)
        }
        None => Ok(true),
    }
}
