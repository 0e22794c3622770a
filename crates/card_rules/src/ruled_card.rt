// A card in memory whose faults are planned by rules too.
ghost use Rattle.std.specs.Prelude.{◌%◌, ◌≡◌, ◌⊎◌, Some, [], length, slice_index_or, true};
ghost use Rattle.mmc_card_sim.specs.SimView.{planned_fault};
ghost use Rattle.card_rules.specs.RuledCards.{DoesCommand, DoesPoll, DoesRead, DoesWrite, HasRoom, IsChosen, Notes, Plans, Prepares, planned_between, ruled_view};

use crate::moment::{Moment, Place};
use crate::rules::Rules;
use arrayvec::ArrayVec;
use mmc_bus::{Blocks, BlocksMut, Bus, DataIn, DataOut, Lines, Moved, Reply, Timing, Want, Width};
use mmc_card_sim::{Fault, MAX_PLANNED, Planned, SimCard};
use mmc_frame::Addressing;

/// A card in memory for whose next exchange rules plan a fault as it comes, in the place of one that was planned before, and of
/// which it is noted what fell.
#[derive(Drop)]
pub struct RuledCard {
    /// The card.
    pub card: SimCard,
    /// How many faults the rules have planned.
    pub planned: u64,
    /// The first faults that fell, in order, each with its exchange.
    pub fell: ArrayVec<Planned, MAX_PLANNED>,
    /// What the rules go by.
    pub rules: Rules,
    place: Place,
}

impl RuledCard {
    /// A card with which there was no exchange, and these rules.
    pub fn new(card: SimCard, rules: Rules, addressing: Addressing) -> RuledCard
        ensures card { result.card ≡ card }
        ensures rules { result.rules ≡ rules }
    {
        RuledCard {
            card,
            planned: 0,
            fell: ArrayVec::new(),
            rules,
            place: Place::new(addressing),
        }
    }

    // Plans a fault for the next exchange.
    fn plan(&mut self, fault: Fault)
        ensures plans { Plans self.old self.new }
        ensures planned { HasRoom self.old.card → planned_fault self.new.card ≡ Some fault }
    {
        self.card.forget_past();
        match self.card.plan(self.card.exchanges(), fault) {
            Ok(()) => self.planned = self.planned.saturating_add(1),
            Err(_) => {}
        }
    }

    // Plans what the rules say of the next exchange, and gives what is planned for it.
    fn prepare(&mut self, moment: Moment) -> Option<Fault>
        ensures prepared { Prepares self.old self.new }
        ensures planned { result ≡ planned_fault self.new.card }
        ensures chosen { IsChosen self.old moment (planned_fault self.new.card) }
    {
        if let Some(fault) = self.rules.next(self.card.exchanges(), moment) {
            self.plan(fault);
        }
        self.card.planned()
    }

    // Whether no fault can fall, by rules or as planned, and no busy time takes a poll.
    fn is_smooth(&self) -> bool
        ensures { result ≡ true → (self.now.rules.rules.items ≡ []) × (self.now.card.plan ≡ []) }
    {
        self.rules.rules.is_empty() && self.card.is_smooth()
    }

    // Notes what fell in an exchange, where more faults have fallen after it.
    fn note(&mut self, exchange: u64, faults: u64, fault: Option<Fault>)
        ensures { Notes exchange faults fault self.old self.new }
    {
        if let Some(fault) = fault {
            if self.card.faults() > faults {
                let _ = self.fell.try_push(Planned { exchange, fault });
            }
        }
    }
}

impl Bus for RuledCard {
    ghost use Rattle.mmc_bus.specs.Exchanges.{Commanded, DataRead, DataWritten, Polled, SetsLines};
    ghost use Rattle.mmc_bus.specs.Together.{ReadWith, WrittenWith};
    ghost use Rattle.mmc_bus.specs.declared.moved.Moved.TheVariants.{Good};
    ghost use Rattle.card_rules.specs.declared.moment.Moment.TheVariants.{Command, Poll, Read, Write};
    ghost use Rattle.card_rules.specs.RuledCards.{FallsNone};

    ghost view = { λ ruled. ruled_view ruled };

    fn limits(&self) -> Lines {
        self.card.limits()
    }

    fn command(&mut self, frame: [u8; 6], want: Want) -> Reply
        ensures exchanged { Commanded (ruled_view self.old) frame want result (ruled_view self.new) }
        ensures falls { DoesCommand (planned_between self.old.card self.new.card) self.old.card frame result self.new.card }
        ensures chosen { IsChosen self.old (Command (slice_index_or frame 0 0 % 64)) (planned_between self.old.card self.new.card) }
    {
        let index = frame[0] % 64;
        let argument = u32::from_be_bytes([frame[1], frame[2], frame[3], frame[4]]);
        let fault = self.prepare(Moment::Command(index));
        let (exchange, faults) = (self.card.exchanges(), self.card.faults());
        let reply = self.card.command(frame, want);
        self.note(exchange, faults, fault);
        self.place = self.place.after_command(index, argument);
        reply
    }

    fn read_data(&mut self, buffer: &mut [u8]) -> DataIn
        ensures exchanged { DataRead (ruled_view self.old) (length buffer.old) result buffer.new (ruled_view self.new) }
        ensures falls { DoesRead (planned_between self.old.card self.new.card) self.old.card (length buffer.old) result buffer.new self.new.card }
        ensures chosen { IsChosen self.old (Read self.old.place.next) (planned_between self.old.card self.new.card) }
    {
        let fault = self.prepare(Moment::Read(self.place.next));
        let (exchange, faults) = (self.card.exchanges(), self.card.faults());
        let got = self.card.read_data(buffer);
        self.note(exchange, faults, fault);
        self.place = self.place.after_block();
        got
    }

    fn write_data(&mut self, block: &[u8; 512]) -> DataOut
        ensures exchanged { DataWritten (ruled_view self.old) block.now result (ruled_view self.new) }
        ensures falls { DoesWrite (planned_between self.old.card self.new.card) self.old.card block.now result self.new.card }
        ensures chosen { IsChosen self.old (Write self.old.place.next) (planned_between self.old.card self.new.card) }
    {
        let fault = self.prepare(Moment::Write(self.place.next));
        let (exchange, faults) = (self.card.exchanges(), self.card.faults());
        let got = self.card.write_data(block);
        self.note(exchange, faults, fault);
        self.place = self.place.after_block();
        got
    }

    fn busy(&mut self) -> bool
        ensures exchanged { Polled (ruled_view self.old) result (ruled_view self.new) }
        ensures falls { DoesPoll (planned_between self.old.card self.new.card) self.old.card result self.new.card }
        ensures chosen { IsChosen self.old Poll (planned_between self.old.card self.new.card) }
    {
        let fault = self.prepare(Moment::Poll);
        let (exchange, faults) = (self.card.exchanges(), self.card.faults());
        let yes = self.card.busy();
        self.note(exchange, faults, fault);
        yes
    }

    // Blocks are moved with their command only where no fault can fall, so that there is nothing to choose or to note.
    fn read_with<D: BlocksMut>(
        &mut self,
        frame: [u8; 6],
        want: Want,
        blocks: &mut D,
    ) -> (Reply, Moved<DataIn>)
        ensures read { ReadWith D.blocks D.with (ruled_view self.old) frame want blocks.old result.0 result.1 blocks.new
            (ruled_view self.new) }
        ensures falls { (result.1 ≡ Good 0) ⊎ FallsNone self.old self.new }
    {
        if self.is_smooth() {
            return self.card.read_with(frame, want, blocks);
        }
        (self.command(frame, want), Moved::Good(0))
    }

    fn write_with<D: Blocks>(
        &mut self,
        frame: [u8; 6],
        want: Want,
        blocks: &D,
    ) -> (Reply, Moved<DataOut>)
        ensures written { WrittenWith (ruled_view self.old) frame want (D.blocks blocks.now) result.0 result.1 (ruled_view self.new) }
        ensures falls { (result.1 ≡ Good 0) ⊎ FallsNone self.old self.new }
    {
        if self.is_smooth() {
            return self.card.write_with(frame, want, blocks);
        }
        (self.command(frame, want), Moved::Good(0))
    }

    fn set_lines(&mut self, width: Width, timing: Timing)
        ensures { SetsLines (ruled_view self.old) width timing (ruled_view self.new) }
    {
        self.card.set_lines(width, timing);
    }
}
