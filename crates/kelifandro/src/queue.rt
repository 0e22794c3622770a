// The calls of a queue at a card of C's, one after the other, with the history of what they came to, which only proofs see. Each makes the
// call that C's export makes, and no other: for auditors. What C does between them stands as what they presume.
use crate::answers::NOT_OPEN;
use crate::asked::{Wanted, asked_by};
use crate::did::Did;
use crate::history::Card;
use crate::noting::{Called, Memory};
use crate::queue_noting::{
    Accepted, Cancellation, Ending, Lending, Lent, NoReply, NothingLent, Replies, ShownSlots,
};
use crate::queues::{WAITING, cancelled_number, is_done, submitted_number};
use crate::requests::{seen, serve_told};
use c_host::WayRecord;
use ghost_diary::{Diary, Seen};
use mmc_block::laws::clients_see_each_step;
use mmc_direct::{Asked, stands_by};
use mmc_record::CardRecord;
use mmc_recovery::Healed;
use mmc_slots::{Slot, cancel, conclude, submit};
use mmc_story::HasStory;
use mmc_turns::laws::{
    a_cancellation_agrees, a_submission_agrees, an_end_agrees, blocks_at_their_places_are_a_groups,
    those_in_service_stay,
};
use mmc_turns::start;
use sdhci_story::HasRegisterStory;
use std::marker::{Model, PhantomData};

/// A queue at a card, and the calls so far.
#[derive(Drop)]
pub struct Queue<'a, S: HasStory + HasRegisterStory> {
    way: WayRecord,
    card: CardRecord,
    healed: Healed,
    // what its host did
    did: Did,
    // what was called before the queue was opened
    calls: Diary<Called>,
    // the card as it was noted then, by which requests are refused
    opened: CardRecord,
    slots: &'a mut [Slot],
    next: u64,
    // what is asked of the card for those in service
    serving: Option<Asked>,
    lent: Seen<Lent>,
    replies: Seen<Replies>,
    of: PhantomData<S>,
}

impl<'a, S: HasStory + HasRegisterStory> Model for Queue<'a, S> {
    ghost use Rattle.kelifandro.specs.Done.{IsFit, IsTrueOf, done_of, host_after, nothing_done, stories_of};
    ghost use Rattle.kelifandro.specs.History.{IsKept};
    ghost use Rattle.kelifandro.specs.QueueState.{KeepsQueue};
    ghost use Rattle.std.specs.Prelude.{◌≡◌, length};
    ghost use Rattle.kelifandro.specs.Queues.{QueueHistory, memory_of};

    ghost Value = { QueueHistory };

    ghost view = { λ q. record {
      way = q.way;
      did = done_of q.did;
      calls = q.calls.past;
      replies = q.replies;
      lent = q.lent;
      slots = q.slots.now;
      next = q.next;
      serving = q.serving;
    } };

    ghost invariant = { λ q. IsFit (stories_of S.HasStory.story S.HasRegisterStory.story) q.way (done_of q.did) q.card
        × (IsTrueOf (stories_of S.HasStory.story S.HasRegisterStory.story) q.way (done_of q.did)
        → IsKept (host_after (stories_of S.HasStory.story S.HasRegisterStory.story) q.way (done_of q.did)) q.card
        × KeepsQueue (host_after (stories_of S.HasStory.story S.HasRegisterStory.story) q.way (done_of q.did)).limits
        (host_after (stories_of S.HasStory.story S.HasRegisterStory.story) q.way nothing_done).card
        (host_after (stories_of S.HasStory.story S.HasRegisterStory.story) q.way (done_of q.did)).card
        q.calls.past q.replies (memory_of q.lent) q.slots.now q.next q.serving q.opened) × (length q.lent ≡ q.next) };
}

impl<'a, S: HasStory + HasRegisterStory> Queue<'a, S> {
    ghost use Rattle.std.specs.Prelude.{◌≡◌, IfOk, []};
    ghost use Rattle.mmc_slots.specs.Slots.{taken};
    ghost use Rattle.kelifandro.specs.Queues.{IsBegunAt};

    /// A queue at a card that is open, at which nothing waits: all slots are free.
    ///
    /// # Errors
    /// The card isn't open. It is handed back.
    pub fn new(card: Card<S>, slots: &'a mut [Slot]) -> Result<Queue<'a, S>, Card<S>>
        requires free { taken slots.old ≡ [] }
        ensures { IfOk result (λ queue. IsBegunAt card slots.old queue) }
    {
        if stands_by(&card.card).is_none() {
            return Err(card);
        }
        let Card {
            way,
            card,
            healed,
            did,
            calls,
            of,
        } = card;
        Ok(Queue {
            way,
            opened: card,
            card,
            healed,
            did,
            calls,
            slots,
            next: 0,
            serving: None,
            lent: Seen::of(&NothingLent),
            replies: Seen::of(&NoReply),
            of,
        })
    }
}

impl<S: HasStory + HasRegisterStory> Queue<'_, S> {
    ghost use Rattle.std.specs.Prelude.{◌<◌, ◌∷◌, ◌≡◌, ◌≤◌, [], Ok, Result, pos, true};
    ghost use Rattle.mmc_slots.specs.Work.{work_left};
    ghost use Rattle.kelifandro.specs.Done.{IsTrueOf, stories_of};
    ghost use Rattle.mmc_block.specs.Clients.Told.{Submitted};
    ghost use Rattle.mmc_slots.specs.Slots.{request_by};
    ghost use Rattle.mmc_slots.specs.declared.cancellation.CancelFault.{CancelFault};
    ghost use Rattle.mmc_slots.specs.declared.slot.Slot.{Slot};
    ghost use Rattle.kelifandro.specs.Answers.{cancelled_number};
    ghost use Rattle.kelifandro.specs.Queues.{Tells, cancelled_so, memory_of};
    ghost use Rattle.mmc_requests.specs.declared.limits.TheConstants.{MAX_COUNT};
    ghost use Rattle.mmc_turns.specs.Agrees.{Fits};
    ghost use Rattle.kelifandro.specs.History.{joined};

    /// Lets a request of a client wait, which lends this memory with it.
    pub fn submit(&mut self, client: u32, asked: &Asked, blocks: &[[u8; 512]], whose: u64) -> i32
        requires fits { Fits asked.now (joined blocks.now) }
        ensures accepted { result ≡ pos 1 → Tells self.old
            (Submitted client (request_by asked.now.kind asked.now.part asked.now.start asked.now.count (joined blocks.now))
            (Ok self.old.next) ∷ []) self.new }
        ensures refused { (result ≡ pos 1 → ⊥) → Tells self.old [] self.new }
    {
        a_submission_agrees();
        those_in_service_stay();
        let Some(stands) = stands_by(&self.opened) else {
            return NOT_OPEN;
        };
        let ticket = self.next;
        let submitted = submit(
            stands.info(),
            self.slots,
            &mut self.next,
            client,
            asked,
            whose,
        );
        if submitted.is_err() {
            return submitted_number(submitted);
        }
        self.replies = Seen::of(&Accepted {
            before: &self.replies,
            client,
            asked,
            blocks,
            ticket,
        });
        self.lent = Seen::of(&Lending {
            before: &self.lent,
            blocks,
        });
        WAITING
    }

    /// Gives back the request with this ticket, where it waits.
    pub fn cancel(&mut self, ticket: u64) -> i32
        ensures { (cancelled : Result Slot CancelFault) × (result ≡ cancelled_number cancelled)
            × Tells self.old
            (cancelled_so (memory_of self.old.lent) ticket cancelled ∷ []) self.new }
    {
        clients_see_each_step();
        a_cancellation_agrees();
        those_in_service_stay();
        let cancelled = cancel(self.slots, ticket);
        self.replies = Seen::of(&Cancellation {
            before: &self.replies,
            lent: &self.lent,
            ticket,
            cancelled: &cancelled,
        });
        cancelled_number(cancelled)
    }

    /// Lets what is served next go into service, of so many sectors together at most, where nothing is; whether there is something.
    pub fn start(&mut self, most: u64) -> bool
        requires limit { most ≤ MAX_COUNT }
        ensures tells { Tells self.old [] self.new }
        ensures less { IsTrueOf (stories_of S.HasStory.story S.HasRegisterStory.story) self.new.way self.new.did
            → result ≡ true → work_left self.new.slots < work_left self.old.slots }
    {
        clients_see_each_step();
        if self.serving.is_some() {
            return false;
        }
        match start(self.slots, most) {
            Some(extent) => {
                self.serving = Some(asked_by(&extent));
                true
            }
            None => false,
        }
    }
}

impl<S: HasStory + HasRegisterStory> Queue<'_, S> {
    ghost use Rattle.kelifandro.specs.Done.{stories_of};
    ghost use Rattle.kelifandro.specs.Queues.{HasQueue};

    /// What its calls have come to. It does nothing.
    pub fn history(&self)
        ensures { HasQueue (stories_of S.HasStory.story S.HasRegisterStory.story) self.now }
    {
        let _replies = &self.replies;
    }
}

/// A queue whose requests in service were served, and have no answer yet.
#[derive(Drop)]
pub struct Served<'a, S: HasStory + HasRegisterStory> {
    way: WayRecord,
    card: CardRecord,
    healed: Healed,
    did: Did,
    calls: Diary<Called>,
    opened: CardRecord,
    slots: &'a mut [Slot],
    next: u64,
    asked: Asked,
    lent: Seen<Lent>,
    replies: Seen<Replies>,
    number: i32,
    // what lay in the memory that was moved
    moved: Seen<Memory>,
    of: PhantomData<S>,
}

impl<'a, S: HasStory + HasRegisterStory> Model for Served<'a, S> {
    ghost use Rattle.kelifandro.specs.Done.{IsFit, IsTrueOf, done_of, host_after, nothing_done, stories_of};
    ghost use Rattle.kelifandro.specs.History.{IsKept};
    ghost use Rattle.kelifandro.specs.QueueState.{KeepsServed};
    ghost use Rattle.std.specs.Prelude.{◌≡◌, length};
    ghost use Rattle.kelifandro.specs.Queues.{ServedHistory, memory_of};

    ghost Value = { ServedHistory };

    ghost view = { λ q. record {
      way = q.way;
      did = done_of q.did;
      calls = q.calls.past;
      replies = q.replies;
      lent = q.lent;
      slots = q.slots.now;
      next = q.next;
      asked = q.asked;
      number = q.number;
      moved = q.moved;
    } };

    ghost invariant = { λ q. IsFit (stories_of S.HasStory.story S.HasRegisterStory.story) q.way (done_of q.did) q.card
        × (IsTrueOf (stories_of S.HasStory.story S.HasRegisterStory.story) q.way (done_of q.did)
        → IsKept (host_after (stories_of S.HasStory.story S.HasRegisterStory.story) q.way (done_of q.did)) q.card
        × KeepsServed (host_after (stories_of S.HasStory.story S.HasRegisterStory.story) q.way (done_of q.did)).limits
        (host_after (stories_of S.HasStory.story S.HasRegisterStory.story) q.way nothing_done).card
        (host_after (stories_of S.HasStory.story S.HasRegisterStory.story) q.way (done_of q.did)).card
        q.calls.past q.replies (memory_of q.lent) q.slots.now q.next q.asked q.opened q.number q.moved) × (length q.lent ≡ q.next) };
}

impl<'a, S: HasStory + HasRegisterStory> Queue<'a, S> {
    ghost use Rattle.std.specs.Prelude.{◌≡◌, IfErr, IfOk, IfSome, Some};
    ghost use Rattle.kelifandro.specs.Queues.{AreEnough, AreGathered, IsServedOf, memory_of};

    /// Makes one request of the card for those in service, in so many attempts (0 is four), by the memory of the one that there is, or by memory to which C has copied what
    /// they write.
    ///
    /// # Errors
    /// Nothing is in service: the queue as it was.
    pub fn carry_out(
        self,
        blocks: &mut [[u8; 512]],
        attempts: u16,
    ) -> Result<Served<'a, S>, Queue<'a, S>>
        requires enough { IfSome self.serving (λ asked. AreEnough asked blocks.old) }
        requires gathered { IfSome self.serving (λ asked. AreGathered (memory_of self.lent) self.slots asked blocks.old) }
        ensures served { IfOk result (λ served. IsServedOf self.entry blocks.new served) }
        ensures idle { IfErr result (λ queue. queue ≡ self.entry) }
    {
        blocks_at_their_places_are_a_groups();
        an_end_agrees();
        let Some(asked) = self.serving else {
            return Err(self);
        };
        let Queue {
            way,
            card,
            healed,
            did,
            calls,
            opened,
            slots,
            next,
            serving: _,
            lent,
            replies,
            of,
        } = self;
        let (mut card, mut healed, mut did) = (card, healed, did);
        let _before = seen(blocks);
        let wanted = Wanted { asked, attempts };
        let number = serve_told::<S>(&way, &mut card, &mut healed, &wanted, blocks, &mut did);
        let moved = seen(blocks);
        Ok(Served {
            way,
            card,
            healed,
            did,
            calls,
            opened,
            slots,
            next,
            asked,
            lent,
            replies,
            number,
            moved,
            of,
        })
    }
}

impl<'a, S: HasStory + HasRegisterStory> Served<'a, S> {
    ghost use Rattle.std.specs.Prelude.{◌<◌};
    ghost use Rattle.mmc_slots.specs.Work.{work_left};
    ghost use Rattle.kelifandro.specs.Done.{IsTrueOf, stories_of};
    ghost use Rattle.kelifandro.specs.Queues.{AreCopied, TellsEnd, answers_by, ended, memory_of};

    /// Ends the service of those in service, in whose memory this lies after C has copied what was read. Whether they have their answers.
    pub fn conclude(self, after: Seen<Lent>) -> (Queue<'a, S>, bool)
        requires copied { AreCopied (memory_of self.lent) (memory_of after) self.slots self.asked self.moved }
        ensures tells { TellsEnd self.entry (ended result.1 (answers_by self.entry.number (memory_of after) self.entry.slots)) result.0 }
        ensures less { IsTrueOf (stories_of S.HasStory.story S.HasRegisterStory.story) result.0.way result.0.did
            → work_left result.0.slots < work_left self.entry.slots }
    {
        clients_see_each_step();
        blocks_at_their_places_are_a_groups();
        an_end_agrees();
        let Served {
            way,
            card,
            healed,
            did,
            calls,
            opened,
            slots,
            next,
            asked: _,
            lent,
            replies,
            number,
            moved: _,
            of,
        } = self;
        let shown = Seen::of(&ShownSlots { slots });
        let is_answered = conclude(slots, is_done(number));
        let replies = Seen::of(&Ending {
            before: &replies,
            is_answered,
            number,
            after: &after,
            slots: &shown,
        });
        let queue = Queue {
            way,
            card,
            healed,
            did,
            calls,
            opened,
            slots,
            next,
            serving: None,
            lent,
            replies,
            of,
        };
        (queue, is_answered)
    }
}
