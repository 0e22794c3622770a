// Selecting a partition: CMD6 of eMMC that writes PARTITION_ACCESS, polls until the device isn't busy, and a clean status
// (JESD84-B51, sections 6.2.5 and 7.4.69).
//
// 1. Nothing is sent where that partition is selected already; an SD card has the user partition alone.
// 2. After a failure it isn't known which partition is selected: a response that was lost may be that of a switch that was
//    carried out.
ghost use Rattle.std.specs.Prelude.{◌≡◌, ◌+◌, ◌*◌, ◌<◌, ◌≤◌, IfErr, IfOk, IsOk, IsSome, None, Some, false, true};
ghost use Rattle.mmc_frame.specs.Field.{field};
ghost use Rattle.mmc_card.specs.RowsSwitch.{access_number, write_byte};
ghost use Rattle.mmc_bus.specs.Heard.{cause_of};
ghost use Rattle.mmc_bus.specs.Learned.{Stays};
ghost use Rattle.mmc_bus.specs.Work.{Narrows};
ghost use Rattle.mmc_switch.specs.Info.{sectors_of};
ghost use Rattle.mmc_switch.specs.Place.{IsBroken, IsReady};
ghost use Rattle.mmc_switch.specs.declared.mmc.TheConstants.{EXCHANGES_OF_A_SWITCH};

use crate::broken::Broken;
use crate::mmc::{switch, write_byte};
use crate::session::Session;
use mmc_bus::{Bus, Part};
use mmc_frame::Kind;

// The argument of CMD6 that selects a partition: PARTITION_CONFIG, of which nothing but bits 2 to 0 changes.
fn access_argument(partition_config: u8, part: Part) -> u32
    ensures { result ≡ write_byte 179 (8 * field 7 3 partition_config + access_number part) }
{
    write_byte(179, partition_config / 8 * 8 + part.access_number())
}

/// Selects a partition that exists: it is selected then, and the card is ready. It makes at most the exchanges of a switch,
/// none where that partition is selected already.
///
/// # Errors
/// What is left, with the cause of the last exchange; which partition is selected isn't known then. No sector has
/// changed.
pub fn select<B: Bus>(bus: &mut B, session: Session, part: Part) -> Result<Session, Broken>
    requires exists { IsSome (sectors_of session.info part) }
    ensures bounded { (B.view bus.new).exchanges ≤ (B.view bus.old).exchanges + EXCHANGES_OF_A_SWITCH }
    ensures nothing { session.selected ≡ Some part → (bus.new ≡ bus.old) × IsOk result }
    ensures ok { IfOk result (λ ready. ready ≡ record session { selected = Some part }) }
    ensures err { IfErr result (λ broken. (broken.session ≡ record session { selected = None }) × (broken.must_reset ≡ false)) }
    ensures cause { IfErr result (λ broken. cause_of (B.view bus.new).last ≡ Some broken.cause) }

    ensures kept { (B.view bus.new).is_kept ≡ true → (B.view bus.old).is_kept ≡ true }
    ensures stays { (B.view bus.new).is_kept ≡ true → IsReady session (B.view bus.old)
        → Stays (B.view bus.old) (B.view bus.new) × Narrows (B.view bus.old) (B.view bus.new) }
    ensures ready { (B.view bus.new).is_kept ≡ true → IsReady session (B.view bus.old)
        → IfOk result (λ ready. IsReady ready (B.view bus.new)) }
    ensures is_broken { (B.view bus.new).is_kept ≡ true → IsReady session (B.view bus.old)
        → IfErr result (λ broken. IsBroken broken (B.view bus.new)
        × ((B.view bus.old).faults < (B.view bus.new).faults)) }
{
    let is_there = session.selected == Some(part);
    let info = session.info;
    let argument = access_argument(session.partition_config, part);
    if is_there || info.kind == Kind::Sd {
        return Ok(Session {
            selected: Some(part),
            ..session
        });
    }
    match switch(bus, info.rca, argument) {
        Ok(()) => Ok(Session {
            selected: Some(part),
            ..session
        }),
        Err(cause) => Err(Session {
            selected: None,
            ..session
        }
        .break_off(cause)),
    }
}
