// How a card stands, as a record.
ghost use Rattle.std.specs.Prelude.{◌≡◌, Some, is_some};
ghost use Rattle.mmc_record.specs.Note.{IsNoteOf, is_note};
ghost use Rattle.mmc_switch.specs.Stands.{stands_of};
ghost use Rattle.mmc_switch.specs.declared.stands.Stands.{Stands};
ghost use Rattle.mmc_direct.specs.Noted.{Notes};

use mmc_record::{CardRecord, note, note_broken, restored};
use mmc_switch::{Broken, Session, Stands};

/// Notes how a card stands.
pub fn noted(stands: &Stands) -> CardRecord
    ensures { Notes stands.now result }
{
    match stands {
        Stands::Ready(session) => note(session),
        Stands::Broken(broken) => note_broken(broken),
    }
}

/// Notes how attempts left a card.
pub fn noted_after(outcome: &Result<Session, Broken>) -> CardRecord
    ensures { Notes (stands_of outcome.now) result }
{
    match outcome {
        Ok(session) => note(session),
        Err(broken) => note_broken(broken),
    }
}

/// How the card of a record stands; `None` where nothing was noted.
pub fn stands_by(card: &CardRecord) -> Option<Stands>
    ensures refused { is_some result ≡ is_note card.now }
    ensures noted { (stands : Stands) → IsNoteOf stands card.now → result ≡ Some stands }
{
    restored(card)
}
