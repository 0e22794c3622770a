// The calls of a card by C, one after the other, with the history of what they came to, which only proofs see. Each makes the call that C's
// export makes, and no other: for auditors.
ghost use Rattle.kelifandro.specs.History.Call.{Closed, Opened, Served};

use crate::asked::Wanted;
use crate::did::Did;
use crate::hosts::switch_off;
use crate::noting::{Called, Closing, Opening, Serving, Shown};
use crate::opening::open_by;
use crate::requests::serve_told;
use c_host::WayRecord;
use ghost_diary::Seen;
use mmc_record::CardRecord;
use mmc_recovery::Healed;
use mmc_story::HasStory;
use sdhci_story::HasRegisterStory;
use std::marker::{Model, PhantomData};

/// A card, what C keeps of it between two calls, and the calls so far.
#[derive(Drop)]
pub struct Card<S: HasStory + HasRegisterStory> {
    pub(crate) way: WayRecord,
    pub(crate) card: CardRecord,
    pub(crate) healed: Healed,
    // what its host did
    pub(crate) did: Did,
    pub(crate) calls: ghost_diary::Diary<Called>,
    pub(crate) of: PhantomData<S>,
}

impl<S: HasStory + HasRegisterStory> Model for Card<S> {
    ghost use Rattle.kelifandro.specs.Done.{IsFit, IsTrueOf, done_of, host_after, stories_of};
    ghost use Rattle.kelifandro.specs.History.{AreServed, CardHistory, IsKept};

    ghost Value = { CardHistory };

    ghost view = { λ c. record { way = c.way; did = done_of c.did; calls = c.calls.past } };

    ghost invariant = { λ c. IsFit (stories_of S.HasStory.story S.HasRegisterStory.story) c.way (done_of c.did) c.card
        × (IsTrueOf (stories_of S.HasStory.story S.HasRegisterStory.story) c.way (done_of c.did)
        → IsKept (host_after (stories_of S.HasStory.story S.HasRegisterStory.story) c.way (done_of c.did)) c.card
        × AreServed (stories_of S.HasStory.story S.HasRegisterStory.story) c.way (done_of c.did) c.calls.past) };
}

impl<S: HasStory + HasRegisterStory> Card<S> {
    ghost use Rattle.std.specs.Prelude.{◌≡◌, []};
    ghost use Rattle.c_host.specs.Given.{most_by};
    ghost use Rattle.kelifandro.specs.Done.{nothing_done, stories_of};
    ghost use Rattle.kelifandro.specs.History.{Continues};

    /// A card that isn't open, by this way, with a record of none, whatever else that holds. By registers, as many data lines are wired to
    /// the slot as the way says.
    pub fn new(way: WayRecord, card: CardRecord) -> Card<S>
        requires closed { card.state ≡ 0 }
        requires wired { (way.by ≡ 0 → ⊥) → S.HasRegisterStory.story.built.wired ≡ most_by way }
        ensures way { result.way ≡ way }
        ensures calls { (result.calls ≡ []) × (result.did ≡ nothing_done) }
    {
        Card {
            way,
            card,
            healed: Healed::new(),
            did: Did::new(),
            calls: ghost_diary::Diary::new(),
            of: PhantomData,
        }
    }

    /// Opens the card.
    pub fn open(&mut self) -> i32
        ensures continues { Continues (stories_of S.HasStory.story S.HasRegisterStory.story) self.old (Opened result) self.new }
    {
        let number = open_by::<S>(&self.way, &mut self.card, &mut self.healed, &mut self.did);
        self.calls = self.calls.then(&Opening { number });
        number
    }

    /// Serves a request with this memory.
    pub fn serve(&mut self, wanted: &Wanted, blocks: &mut [[u8; 512]]) -> i32
        ensures continues { Continues (stories_of S.HasStory.story S.HasRegisterStory.story) self.old
            (Served (record { asked = wanted.now.asked; before = blocks.old; after = blocks.new; number = result })) self.new }
    {
        let before = Seen::of(&Shown { blocks });
        let number = serve_told::<S>(
            &self.way,
            &mut self.card,
            &mut self.healed,
            wanted,
            blocks,
            &mut self.did,
        );
        self.calls = self.calls.then(&Serving {
            asked: &wanted.asked,
            before: &before,
            after: blocks,
            number,
        });
        number
    }

    /// Closes the card.
    pub fn close(&mut self)
        ensures continues { Continues (stories_of S.HasStory.story S.HasRegisterStory.story) self.old Closed self.new }
    {
        self.card.state = 0;
        switch_off::<S>(&self.way, &mut self.did);
        self.calls = self.calls.then(&Closing);
    }
}
