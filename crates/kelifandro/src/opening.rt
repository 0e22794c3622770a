// Opening a card for C, over the host that C has given, with a diary of what its host did, in earlier calls too. What is promised of the
// card holds for every story that is true of the diary.
ghost use Rattle.std.specs.Prelude.{◌*◌, ◌+◌, ◌≡◌, ◌≤◌, false, pos, true};
ghost use Rattle.mmc_bus.specs.Work.{Anything, Moves};
ghost use Rattle.mmc_card.specs.Profile.{InProfile};
ghost use Rattle.mmc_recovery.specs.Healed.{none_met};
ghost use Rattle.mmc_direct.specs.Opened.{IsReadyAs};
ghost use Rattle.mmc_direct.specs.declared.opening.TheConstants.{ROUNDS_OF_AN_OPENING};
ghost use Rattle.mmc_record.specs.Note.{IsNoteOf, is_note};
ghost use Rattle.mmc_switch.specs.declared.stands.Stands.{Stands};
ghost use Rattle.mmc_sdhci.specs.Driver.{IsNew};
ghost use Rattle.kelifandro.specs.Answers.{is_unready, minus};
ghost use Rattle.kelifandro.specs.Done.{AtRegisters, IsFit, IsTrueOf, IsWired, TellsUnready, done_of, host_after, stories_of};
ghost use Rattle.kelifandro.specs.History.Call.{Opened};
ghost use Rattle.kelifandro.specs.History.{GoesOn, HasStayed, IsOpened};

use crate::answers::{DONE, NO_CARD, UNSUPPORTED, unopened_number};
use crate::did::Did;
use crate::hosts::{begin, end_over, switch_off, switch_on};
use c_host::WayRecord;
use mmc_bus::Bus;
use mmc_direct::{open, stands_by};
use mmc_host::HostBus;
use mmc_record::CardRecord;
use mmc_recovery::Healed;
use mmc_story::HasStory;
use sdhci_story::HasRegisterStory;

// Whether a card is noted; the record of none is that of no card.
fn is_noted(card: &mut CardRecord) -> bool
    ensures noted { result ≡ is_note card.old }
    ensures is { (stands : Stands) → IsNoteOf stands card.old → result ≡ true }
    ensures same { result ≡ true → card.new ≡ card.old }
    ensures none { result ≡ false → card.new ≡ record card.old { state = 0 } }
{
    let is_noted = stands_by(card).is_some();
    if !is_noted {
        card.state = 0;
    }
    is_noted
}

// Opens the card of a bus, and tells the number that C is told.
fn open_over<B: Bus>(bus: &mut B, card: &mut CardRecord, healed: &mut Healed) -> i32
    ensures not_open { (result ≡ pos 0 → ⊥) → card.new.state ≡ 0 }
    ensures noted { result ≡ pos 0 → is_note card.new ≡ true }
    ensures healed { healed.new ≡ none_met }
    ensures no_card { result ≡ minus 20 → card.new ≡ record card.old { state = 0 } }
    ensures ready { is_unready result ≡ false }
    ensures moves { Moves (λ old new. result ≡ pos 0 → IsReadyAs card.new new) Anything (B.view bus.old) (B.view bus.new) }
    ensures refused { (B.view bus.new).is_kept ≡ true → InProfile (B.view bus.old).card.made → (result ≡ pos 0 → ⊥)
        → (B.view bus.old).faults + ROUNDS_OF_AN_OPENING ≤ (B.view bus.new).faults }
{
    match open(bus, card, healed) {
        Ok(()) if is_noted(card) => DONE,
        Ok(()) => UNSUPPORTED,
        Err(fault) => unopened_number(fault),
    }
}

// Opens a card with power.
#[inline(never)]
fn open_once<S: HasStory + HasRegisterStory>(
    way: &WayRecord,
    card: &mut CardRecord,
    healed: &mut Healed,
    did: &mut Did,
) -> i32
    requires wired { IsWired (stories_of S.HasStory.story S.HasRegisterStory.story) way.now }
    requires still { AtRegisters (stories_of S.HasStory.story S.HasRegisterStory.story) way.now (done_of did.old) IsNew }
    ensures not_open { (result ≡ pos 0 → ⊥) → card.new.state ≡ 0 }
    ensures noted { result ≡ pos 0 → is_note card.new ≡ true }
    ensures healed { healed.new ≡ none_met }
    ensures no_host { is_unready result ≡ true → card.new ≡ record card.old { state = 0 } }
    ensures unready { is_unready result ≡ true
        → TellsUnready (stories_of S.HasStory.story S.HasRegisterStory.story) (done_of did.new) result }
    ensures functions { way.now.by ≡ 0 → is_unready result ≡ false }
    ensures no_card { result ≡ minus 20 → card.new ≡ record card.old { state = 0 } }
    ensures stays { IsTrueOf (stories_of S.HasStory.story S.HasRegisterStory.story) way.now (done_of did.new)
        → HasStayed (host_after (stories_of S.HasStory.story S.HasRegisterStory.story) way.now (done_of did.old))
        (host_after (stories_of S.HasStory.story S.HasRegisterStory.story) way.now (done_of did.new)) }
    ensures opened { IsTrueOf (stories_of S.HasStory.story S.HasRegisterStory.story) way.now (done_of did.new) → result ≡ pos 0
        → IsOpened (host_after (stories_of S.HasStory.story S.HasRegisterStory.story) way.now (done_of did.new)) card.new }
    ensures refused { IsTrueOf (stories_of S.HasStory.story S.HasRegisterStory.story) way.now (done_of did.new)
        → InProfile (host_after (stories_of S.HasStory.story S.HasRegisterStory.story) way.now (done_of did.old)).card.made
        → (result ≡ pos 0 → ⊥) → is_unready result ≡ false
        → (host_after (stories_of S.HasStory.story S.HasRegisterStory.story) way.now (done_of did.old)).faults + ROUNDS_OF_AN_OPENING
        ≤ (host_after (stories_of S.HasStory.story S.HasRegisterStory.story) way.now (done_of did.new)).faults }
    ensures fit { IsFit (stories_of S.HasStory.story S.HasRegisterStory.story) way.now (done_of did.new) card.new }
{
    match begin::<S>(way, did) {
        Ok(host) => {
            let mut bus = HostBus::new(host);
            let number = open_over(&mut bus, card, healed);
            end_over::<S>(bus, number != DONE, did);
            number
        }
        Err(number) => {
            card.state = 0;
            *healed = Healed::new();
            number
        }
    }
}

/// Opens a card. Where its power can be switched it is on, and a card that doesn't answer has been without it once: what the host did
/// before that and after it is one diary, in which a story has the loss of power as a fault of the next exchange.
pub fn open_by<S: HasStory + HasRegisterStory>(
    way: &WayRecord,
    card: &mut CardRecord,
    healed: &mut Healed,
    did: &mut Did,
) -> i32
    requires fit { IsFit (stories_of S.HasStory.story S.HasRegisterStory.story) way.now (done_of did.old) card.old }
    ensures not_open { (result ≡ pos 0 → ⊥) → card.new.state ≡ 0 }
    ensures noted { result ≡ pos 0 → is_note card.new ≡ true }
    ensures healed { healed.new ≡ none_met }
    ensures no_host { is_unready result ≡ true → card.new ≡ record card.old { state = 0 } }
    ensures unready { is_unready result ≡ true
        → TellsUnready (stories_of S.HasStory.story S.HasRegisterStory.story) (done_of did.new) result }
    ensures functions { way.now.by ≡ 0 → is_unready result ≡ false }
    ensures stays { IsTrueOf (stories_of S.HasStory.story S.HasRegisterStory.story) way.now (done_of did.new)
        → HasStayed (host_after (stories_of S.HasStory.story S.HasRegisterStory.story) way.now (done_of did.old))
        (host_after (stories_of S.HasStory.story S.HasRegisterStory.story) way.now (done_of did.new)) }
    ensures opened { IsTrueOf (stories_of S.HasStory.story S.HasRegisterStory.story) way.now (done_of did.new) → result ≡ pos 0
        → IsOpened (host_after (stories_of S.HasStory.story S.HasRegisterStory.story) way.now (done_of did.new)) card.new }
    ensures refused { IsTrueOf (stories_of S.HasStory.story S.HasRegisterStory.story) way.now (done_of did.new)
        → InProfile (host_after (stories_of S.HasStory.story S.HasRegisterStory.story) way.now (done_of did.old)).card.made
        → (result ≡ pos 0 → ⊥) → is_unready result ≡ false
        → (host_after (stories_of S.HasStory.story S.HasRegisterStory.story) way.now (done_of did.old)).faults + ROUNDS_OF_AN_OPENING
        ≤ (host_after (stories_of S.HasStory.story S.HasRegisterStory.story) way.now (done_of did.new)).faults }
    ensures again { IsTrueOf (stories_of S.HasStory.story S.HasRegisterStory.story) way.now (done_of did.new)
        → InProfile (host_after (stories_of S.HasStory.story S.HasRegisterStory.story) way.now (done_of did.old)).card.made
        → (way.now.switches_power ≡ 0 → ⊥) → result ≡ minus 20
        → (host_after (stories_of S.HasStory.story S.HasRegisterStory.story) way.now (done_of did.old)).faults + 2 * ROUNDS_OF_AN_OPENING
        ≤ (host_after (stories_of S.HasStory.story S.HasRegisterStory.story) way.now (done_of did.new)).faults }
    ensures fit_again { IsFit (stories_of S.HasStory.story S.HasRegisterStory.story) way.now (done_of did.new) card.new }
    ensures goes_on { IsTrueOf (stories_of S.HasStory.story S.HasRegisterStory.story) way.now (done_of did.new) → GoesOn (Opened result)
        (host_after (stories_of S.HasStory.story S.HasRegisterStory.story) way.now (done_of did.old)) card.old
        (host_after (stories_of S.HasStory.story S.HasRegisterStory.story) way.now (done_of did.new)) card.new }
{
    switch_on(way);
    let first = open_once::<S>(way, card, healed, did);
    if first != NO_CARD || way.switches_power == 0 {
        return first;
    }
    switch_off::<S>(way, did);
    switch_on(way);
    open_once::<S>(way, card, healed, did)
}
