// How a card stands, noted.
ghost use Rattle.std.specs.Prelude.{◌≡◌};
ghost use Rattle.mmc_card.specs.Made.{HasRegisters, Made};
ghost use Rattle.mmc_card.specs.declared.exchange.Lines.{Lines};
ghost use Rattle.mmc_switch.specs.Info.{IsKnown};
ghost use Rattle.mmc_record.specs.Note.{HasChecks, IsNoteOf, SaysSession, what_is_left};
ghost use Rattle.mmc_record.specs.Numbers.{cause_of};

use crate::numbers::{
    addressing_number, cause_number, flag, kind_number, part_number, timing_number, width_number,
};
use crate::record::CardRecord;
use mmc_bus::Cause;
use mmc_switch::{Broken, Session, Stands};

// A session, with these numbers for how it stands.
fn noted(session: &Session, state: u8, cause: Cause) -> CardRecord
    ensures state { result.state ≡ state }
    ensures cause { cause_of result.cause ≡ cause }
    ensures says { HasChecks session.now.info → SaysSession result session.now }
{
    let info = session.info();
    CardRecord {
        state,
        kind: kind_number(info.kind),
        addressing: addressing_number(info.addressing),
        selected: part_number(session.selected()),
        partition_config: session.partition_config(),
        lines: width_number(info.width),
        high_speed: timing_number(info.timing),
        read_only: flag(info.read_only),
        trims: flag(info.trims),
        cmd23: flag(info.cmd23),
        erased_byte: info.erased_byte,
        cause: cause_number(cause),
        rca: info.rca,
        cid: info.cid.register().to_be_bytes(),
        csd: info.csd.register().to_be_bytes(),
        user: info.sizes.user,
        boot: info.sizes.boot,
        gp1: info.sizes.gp1,
        gp2: info.sizes.gp2,
        gp3: info.sizes.gp3,
        gp4: info.sizes.gp4,
        erase_unit: info.erase_unit,
    }
}

/// Notes a card that is ready.
pub fn note(session: &Session) -> CardRecord
    ensures of_a_card { (limits : Lines) → (made : Made) → HasRegisters made → IsKnown limits made session.now.info
        → IsNoteOf (Stands.Ready session.now) result }
    ensures checked { HasChecks session.now.info → IsNoteOf (Stands.Ready session.now) result }
{
    noted(session, 1, Cause::Answer)
}

/// Notes a broken card. What has to be reset is read back as `Broken::give_up` leaves it.
pub fn note_broken(broken: &Broken) -> CardRecord
    ensures of_a_card { (limits : Lines) → (made : Made) → HasRegisters made → IsKnown limits made broken.now.session.info
        → IsNoteOf (Stands.Broken (what_is_left broken.now)) result }
    ensures checked { HasChecks broken.now.session.info → IsNoteOf (Stands.Broken (what_is_left broken.now)) result }
{
    let state = if broken.must_reset() { 3 } else { 2 };
    noted(broken.session(), state, broken.cause())
}
