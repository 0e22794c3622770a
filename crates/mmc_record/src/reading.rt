// A record that is read, with a check.
ghost use Rattle.std.specs.Prelude.{◌≡◌, ◌≤◌, IfSome, Some, is_some};
ghost use Rattle.mmc_ext_csd.specs.Partition.{addressable_sectors, existing_sectors};
ghost use Rattle.mmc_card.specs.declared.part.Part.{Part};
ghost use Rattle.mmc_switch.specs.Sizes.{size_of};
ghost use Rattle.mmc_switch.specs.declared.stands.Stands.{Stands};
ghost use Rattle.mmc_record.specs.Note.{IsNoteOf, SaysInfo, SaysSession, has_info, is_note, noted_size};

use crate::numbers::{addressing_of, cause_of, is_set, kind_of, part_of, timing_of, width_of};
use crate::record::CardRecord;
use mmc_ext_csd::existing_sectors;
use mmc_frame::Addressing;
use mmc_regs::{read_cid, read_csd};
use mmc_switch::{Info, Session, Sizes, Stands};

// A partition that commands can't address as a whole counts as none.
fn sizes_of(note: &CardRecord, addressing: Addressing) -> Sizes
    ensures fit { (part : Part) → size_of result part ≤ addressable_sectors addressing }
    ensures sizes { (part : Part) → existing_sectors (noted_size note.now part) addressing ≡ size_of result part }
{
    Sizes {
        user: existing_sectors(note.user, addressing),
        boot: existing_sectors(note.boot, addressing),
        gp1: existing_sectors(note.gp1, addressing),
        gp2: existing_sectors(note.gp2, addressing),
        gp3: existing_sectors(note.gp3, addressing),
        gp4: existing_sectors(note.gp4, addressing),
    }
}

// What is known of the card.
fn restored_info(note: &CardRecord) -> Option<Info>
    ensures refused { is_some result ≡ has_info note.now }
    ensures says { IfSome result (λ info. SaysInfo note.now info) }
{
    let kind = kind_of(note.kind);
    let addressing = addressing_of(note.addressing);
    let cid = read_cid(&note.cid).ok()?;
    let csd = read_csd(kind, &note.csd).ok()?;
    let sizes = sizes_of(note, addressing);
    let erase_unit = note.erase_unit;
    if erase_unit == 0 {
        return None;
    }
    Some(Info {
        kind,
        addressing,
        rca: note.rca,
        cid,
        csd,
        sizes,
        read_only: is_set(note.read_only),
        erase_unit,
        erased_byte: note.erased_byte,
        trims: is_set(note.trims),
        cmd23: is_set(note.cmd23),
        width: width_of(note.lines),
        timing: timing_of(note.high_speed),
    })
}

// The session, as if the card were ready.
fn restored_session(note: &CardRecord) -> Option<Session>
    ensures refused { is_some result ≡ has_info note.now }
    ensures says { IfSome result (λ session. SaysSession note.now session) }
{
    let info = restored_info(note)?;
    Some(Session::of(info, note.partition_config, part_of(note.selected)))
}

/// How the card stands: ready, or broken. What `note` and `note_broken` have noted of a card comes back as it
/// was. `None` where these numbers are no note of a card: the state is none of the three, the check of CID or CSD doesn't fit,
/// the CSD is none that a card of this kind may have, or the erase unit is 0.
pub fn restored(note: &CardRecord) -> Option<Stands>
    ensures refused { is_some result ≡ is_note note.now }
    ensures says { IfSome result (λ stands. IsNoteOf stands note.now) }
    ensures as_noted { (stands : Stands) → IsNoteOf stands note.now → result ≡ Some stands }
{
    let session = restored_session(note)?;
    let cause = cause_of(note.cause);
    match note.state {
        1 => Some(Stands::Ready(session)),
        2 => Some(Stands::Broken(session.break_off(cause))),
        3 => Some(Stands::Broken(session.break_off(cause).give_up())),
        _ => None,
    }
}
