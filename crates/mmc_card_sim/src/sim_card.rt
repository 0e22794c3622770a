// A card in memory of any kind, that has the faults that are planned.
ghost use Rattle.std.specs.Prelude.{◌+◌, ◌-◌, ◌<◌, ◌==◌, ◌^◌, ◌≡◌, ◌≤◌, IfErr, IfOk, IsOk, None, OnErr, Some, []};
ghost use Rattle.std.specs.Prelude.{false, if◌then◌else◌, length, slice_get, true, ℕ};
ghost use Rattle.mmc_card_sim.specs.Plan.{fault_at, refusal_of, to_come};
ghost use Rattle.mmc_card_sim.specs.FaultyExchanges.{Commands, Polls, Reads, Writes, fits_command, fits_poll};
ghost use Rattle.mmc_card_sim.specs.FaultyExchanges.{after_time, counted, fits_read, fits_time, fits_write};
ghost use Rattle.mmc_card_rows.specs.Chip.{KeepsWaits, card_of, moved_on};
ghost use Rattle.mmc_card_sim.specs.SimView.{first_delays, met, planned_fault, sim_bus_view};
ghost use Rattle.mmc_card_rows.specs.declared.store.TheConstants.{MAX_LARGE};

use crate::fault::Fault;
use crate::faulty_exchanges::{
    faulty_accept, faulty_command, faulty_poll, faulty_send, faulty_time,
};
use crate::judging::judge;
use crate::moving::is_answered;
use crate::plan::{Plan, PlanFault};
use crate::spec::{BuildFault, CardSpec, MAX_SECTORS};
use mmc_bus::{Blocks, BlocksMut, Bus, Moved, Wire};
use mmc_card::{DataIn, DataOut, Exchange, Lines, Part, Reply, Timing, Want, Width, laws};
use mmc_card_rows::{Chip, Delays, MAX_LARGE, Store};
use mmc_frame::{State, laws as frame_laws};
use std::alloc::Global;
use std::marker::Model;

// What a card that is built by this chooses at first.
fn first_delays(spec: &CardSpec) -> Delays
    ensures { result ≡ first_delays spec.now }
{
    let registers = &spec.registers;
    Delays {
        ready: spec.ready,
        busy: spec.busy,
        last_rca: registers.last_rca(),
        rca_changes: registers.rca_changes(),
        early: spec.early.unwrap_or((registers.ocr / 0x2000_0000) as u8),
        keeps_length: spec.keeps_length,
        refusal: spec.refusal,
        stays_busy: spec.stays_busy,
        lagging: spec.lagging,
        late: spec.late,
        before: State::Idle,
        shows_app_cmd: spec.shows_app_cmd,
        life_time: registers.first_life_time(spec.ages),
        goes_on: spec.goes_on,
        finds: 0,
    }
}

// How many faults have fallen, with one more or none.
fn counted(faults: u64, fell: bool) -> u64
    requires { fell ≡ true → faults < 2 ^ 64 - 1 }
    ensures { result ≡ counted fell faults }
{
    if fell { faults + 1 } else { faults }
}

// What has happened since the last exchange, and whether a fault was among it.
fn pass_time(chip: &mut Chip, delays: &mut Delays, fault: Option<Fault>) -> bool
    ensures fell { result ≡ fits_time fault (card_of chip.old) }
    ensures card { card_of chip.new ≡ after_time fault delays.old (card_of chip.old) }
    ensures delays { delays.new ≡ moved_on delays.old chip.old.state chip.new.state }
    ensures waits { KeepsWaits delays.old delays.new }
{
    let state = chip.state;
    let fell = faulty_time(chip, fault, *delays);
    delays.note_state(state, chip.state);
    fell
}

/// A card of any kind, with the faults that are planned for its exchanges: each falls in its exchange where it fits,
/// and is counted; where it doesn't fit nothing comes of it.
#[derive(Debug, Drop)]
pub struct SimCard {
    chip: Chip,
    delays: Delays,
    wire: Wire,
    plan: Plan,
    faults: u64,
}

impl Model for SimCard {
    ghost use Rattle.mmc_card_rows.specs.Chip.{card_of};
    ghost use Rattle.mmc_card_sim.specs.SimView.{SimOk, SimView};

    ghost Value = { SimView };

    ghost view = { λ sim. record {
      card = card_of sim.chip;
      delays = sim.delays;
      wire = sim.wire;
      plan = sim.plan;
      faults = sim.faults;
    } };

    ghost invariant = { λ sim. SimOk (record {
      card = card_of sim.chip;
      delays = sim.delays;
      wire = sim.wire;
      plan = sim.plan;
      faults = sim.faults;
    }) };
}

impl SimCard {
    ghost use Rattle.mmc_bus.specs.Exchanges.{Commanded, DataRead, DataWritten, Polled};
    ghost use Rattle.mmc_bus.specs.Wires.{IsUnused};
    ghost use Rattle.mmc_frame.specs.Frame.{command_in};
    ghost use Rattle.mmc_card.specs.Card.{HasItsSizes, IsCard, patience, powered_on, stored};
    ghost use Rattle.mmc_card_rows.specs.Chip.{delays_after};
    ghost use Rattle.mmc_card_sim.specs.CardSpec.{IsRefusal, IsRefusalWithin, refusal_of as spec_refusal};
    ghost use Rattle.mmc_card_sim.specs.CardSpec.{refusal_within};
    ghost use Rattle.mmc_card_rows.specs.Registers.{made_of};
    ghost use Rattle.mmc_card_sim.specs.SimView.{first_parts};

    /// This card, before any exchange and without a planned fault.
    pub(crate) fn unused(chip: Chip, delays: Delays) -> SimCard
        requires card { IsCard (card_of chip) }
        requires soon_ready { delays.ready ≤ patience }
        requires soon_rested { delays.busy ≤ patience }
        requires finds_none { delays.finds ≡ 0 }
        ensures card { result.card ≡ card_of chip }
        ensures delays { result.delays ≡ delays }
        ensures unused { IsUnused (sim_bus_view result) }
        ensures plan { result.plan ≡ [] }
    {
        SimCard {
            chip,
            delays,
            wire: Wire::new(),
            plan: Plan::new(),
            faults: 0,
        }
    }

    // The card of this spec, if all its partitions have at most `limit` sectors together.
    fn build_within(alloc: Global, spec: CardSpec, limit: usize) -> Result<SimCard, BuildFault>
        requires { limit ≤ MAX_LARGE }
        ensures refused { IfErr result (λ why. IsRefusalWithin limit spec why) }
        ensures taken { IsOk result → refusal_within limit spec ≡ None }
        ensures card { IfOk result (λ sim. sim.card ≡ powered_on (made_of spec.registers) (first_parts spec)) }
        ensures sizes { IfOk result (λ sim. HasItsSizes sim.card) }
        ensures delays { IfOk result (λ sim. sim.delays ≡ first_delays spec) }
        ensures unused { IfOk result (λ sim. IsUnused (sim_bus_view sim)) }
        ensures plan { IfOk result (λ sim. sim.plan ≡ []) }
    {
        laws::a_card_after_power_on_is_one();
        let judged = judge(&spec, limit)?;
        let delays = first_delays(&spec);
        let CardSpec {
            registers,
            image,
            ..
        } = spec;
        let erased = registers.erased_byte();
        let Ok(store) = Store::new(alloc, judged.sizes, image, erased) else {
            return Err(BuildFault::NoMemory);
        };
        let chip = Chip::powered_on(
            registers,
            judged.erase_unit,
            judged.is_read_only,
            judged.named_length,
            store,
        );
        Ok(SimCard::unused(chip, delays))
    }

    /// The card of this spec, of at most `MAX_SECTORS` sectors, after power on, without a planned fault.
    ///
    /// # Errors
    /// The first that holds: `Register` or `ImageSize`, as said there, and `NoMemory` where the room for the sectors is
    /// refused.
    pub fn build(alloc: Global, spec: CardSpec) -> Result<SimCard, BuildFault>
        ensures refused { IfErr result (λ why. IsRefusal spec why) }
        ensures taken { IsOk result → spec_refusal spec ≡ None }
        ensures card { IfOk result (λ sim. sim.card ≡ powered_on (made_of spec.registers) (first_parts spec)) }
        ensures sizes { IfOk result (λ sim. HasItsSizes sim.card) }
        ensures delays { IfOk result (λ sim. sim.delays ≡ first_delays spec) }
        ensures unused { IfOk result (λ sim. IsUnused (sim_bus_view sim)) }
        ensures plan { IfOk result (λ sim. sim.plan ≡ []) }
    {
        SimCard::build_within(alloc, spec, MAX_SECTORS)
    }

    /// As `build`, for a card of at most `MAX_LARGE` sectors. An image is taken over without a copy, and room for as
    /// many bytes again is taken that is touched only as blocks are written.
    ///
    /// # Errors
    /// Those of `build`, in their order.
    pub fn build_large(alloc: Global, spec: CardSpec) -> Result<SimCard, BuildFault>
        ensures refused { IfErr result (λ why. IsRefusalWithin MAX_LARGE spec why) }
        ensures taken { IsOk result → refusal_within MAX_LARGE spec ≡ None }
        ensures card { IfOk result (λ sim. sim.card ≡ powered_on (made_of spec.registers) (first_parts spec)) }
        ensures sizes { IfOk result (λ sim. HasItsSizes sim.card) }
        ensures delays { IfOk result (λ sim. sim.delays ≡ first_delays spec) }
        ensures unused { IfOk result (λ sim. IsUnused (sim_bus_view sim)) }
        ensures plan { IfOk result (λ sim. sim.plan ≡ []) }
    {
        SimCard::build_within(alloc, spec, MAX_LARGE)
    }

    /// How many exchanges were made; the number stays at 2^64 - 1.
    pub fn exchanges(&self) -> u64
        ensures { result ≡ self.now.wire.exchanges }
    {
        self.wire.exchanges
    }

    /// How many faults have fallen.
    pub fn faults(&self) -> u64
        ensures { result ≡ self.now.faults }
    {
        self.faults
    }

    /// How many sectors a partition has.
    pub fn size(&self, part: Part) -> usize
        ensures { result ≡ length (stored self.now.card part) }
    {
        self.chip.store.size(part)
    }

    /// A sector of a partition, if there is such a sector; of a write, erase or trim that is unfinished the old one.
    pub fn sector(&self, part: Part, sector: usize) -> Option<[u8; 512]>
        ensures { result ≡ slice_get (stored self.now.card part) sector }
    {
        self.chip.store.sector(part, sector)
    }

    /// Plans a fault for an exchange, counted from 0; a second one for the same exchange replaces the first.
    ///
    /// # Errors
    /// `PlanFull`, then `InThePast`; nothing has changed then.
    pub fn plan(&mut self, exchange: u64, fault: Fault) -> Result<(), PlanFault>
        ensures refused { IfErr result (λ why. refusal_of self.old.plan exchange self.old.wire.exchanges ≡ Some why) }
        ensures unchanged { OnErr result (self.new ≡ self.old) }
        ensures planned { IsOk result → refusal_of self.old.plan exchange self.old.wire.exchanges ≡ None }
        ensures replaced { IsOk result → (e : ℕ)
            → fault_at self.new.plan e ≡ (if exchange == e then Some fault else fault_at self.old.plan e) }
        ensures grows { length self.new.plan ≤ length self.old.plan + 1 }
        ensures stays { self.new ≡ record self.old { plan = self.new.plan } }
    {
        self.plan.plan(exchange, fault, self.wire.exchanges)
    }

    /// The fault that is planned for the next exchange.
    pub fn planned(&self) -> Option<Fault>
        ensures { result ≡ planned_fault self.now }
    {
        self.plan.fault(self.wire.exchanges)
    }

    /// Whether no fault is planned, and no busy time takes a poll: no exchange surprises then.
    pub fn is_smooth(&self) -> bool
        ensures { result ≡ true → (self.now.plan ≡ []) × (self.now.delays.busy ≡ 0) }
    {
        self.plan.is_empty() && self.delays.busy == 0
    }

    /// Forgets the faults that were planned for exchanges that are past, so that there is room for others.
    pub fn forget_past(&mut self)
        ensures same { (e : ℕ) → self.old.wire.exchanges ≤ e → fault_at self.new.plan e ≡ fault_at self.old.plan e }
        ensures room { length self.new.plan ≡ to_come self.old.plan self.old.wire.exchanges }
        ensures stays { self.new ≡ record self.old { plan = self.new.plan } }
    {
        self.plan.forget_past(self.wire.exchanges);
    }

    /// Sends a command, and gives what came back, whatever response is wanted.
    pub fn command(&mut self, frame: [u8; 6], want: Want) -> Reply
        ensures exchanged { Commanded (sim_bus_view self.old) frame want result (sim_bus_view self.new) }
        ensures does { let before = met (planned_fault self.old) self.old in
            Commands (planned_fault self.old) before.delays before.card frame result
            (fits_command (planned_fault self.old) before.delays before.card frame) self.new.card }
        ensures counts { let before = met (planned_fault self.old) self.old in
            self.new.faults ≡ counted (fits_command (planned_fault self.old) before.delays before.card frame) before.faults }
        ensures delays { let before = met (planned_fault self.old) self.old in
            self.new.delays ≡ moved_on (delays_after before.delays (command_in frame) self.new.card.rca) before.card.state
            self.new.card.state }
        ensures plan { self.new.plan ≡ self.old.plan }
    {
        frame_laws::flipped_response_is_refused();
        frame_laws::flipped_register_is_refused();
        frame_laws::flipped_beside_the_ocr_is_refused();
        frame_laws::register_comes_back();
        let fault = self.plan.fault(self.wire.exchanges);
        let unseen = pass_time(&mut self.chip, &mut self.delays, fault);
        let state = self.chip.state;
        let (reply, fell) = faulty_command(&mut self.chip, fault, self.delays, &frame);
        self.delays.note_command(&frame, self.chip.rca);
        self.delays.note_state(state, self.chip.state);
        self.faults = counted(self.faults, unseen | fell);
        self.wire.note(Exchange::Command { frame, want, reply });
        reply
    }

    /// Reads a block of the buffer's length.
    pub fn read_data(&mut self, buffer: &mut [u8]) -> DataIn
        ensures exchanged { DataRead (sim_bus_view self.old) (length buffer.old) result buffer.new
            (sim_bus_view self.new) }
        ensures does { Reads (planned_fault self.old) self.old.delays self.old.card self.old.wire.lines (length buffer.old) result
            buffer.new (fits_read (planned_fault self.old) self.old.card self.old.wire.lines (length buffer.old))
            self.new.card }
        ensures counts { self.new.faults
            ≡ (if fits_read (planned_fault self.old) self.old.card self.old.wire.lines (length buffer.old)
            then self.old.faults + 1 else self.old.faults) }
        ensures delays { self.new.delays ≡ moved_on self.old.delays self.old.card.state self.new.card.state }
        ensures plan { self.new.plan ≡ self.old.plan }
    {
        let fault = self.plan.fault(self.wire.exchanges);
        let len = buffer.len();
        let state = self.chip.state;
        let (got, fell) = faulty_send(&mut self.chip, fault, self.delays, self.wire.lines, buffer);
        self.delays.note_state(state, self.chip.state);
        self.faults = counted(self.faults, fell);
        self.wire.note(Exchange::In { len, got });
        got
    }

    /// Writes a block.
    pub fn write_data(&mut self, block: &[u8; 512]) -> DataOut
        ensures exchanged { DataWritten (sim_bus_view self.old) block.now result (sim_bus_view self.new) }
        ensures does { let before = met (planned_fault self.old) self.old in
            Writes (planned_fault self.old) before.delays before.card before.wire.lines block.now result
            (fits_write (planned_fault self.old) before.card before.wire.lines) self.new.card }
        ensures counts { let before = met (planned_fault self.old) self.old in
            self.new.faults ≡ counted (fits_write (planned_fault self.old) before.card before.wire.lines) before.faults }
        ensures delays { let before = met (planned_fault self.old) self.old in
            self.new.delays ≡ moved_on before.delays before.card.state self.new.card.state }
        ensures plan { self.new.plan ≡ self.old.plan }
    {
        let fault = self.plan.fault(self.wire.exchanges);
        let unseen = pass_time(&mut self.chip, &mut self.delays, fault);
        let state = self.chip.state;
        let (got, fell) = faulty_accept(&mut self.chip, fault, self.delays, self.wire.lines, block);
        self.delays.note_state(state, self.chip.state);
        self.faults = counted(self.faults, unseen | fell);
        self.wire.note(Exchange::Out { got });
        got
    }

    /// Polls the card: whether it is busy.
    pub fn busy(&mut self) -> bool
        ensures exchanged { Polled (sim_bus_view self.old) result (sim_bus_view self.new) }
        ensures does { Polls (planned_fault self.old) self.old.delays self.old.card result
            (fits_poll (planned_fault self.old) self.old.card) self.new.card }
        ensures counts { self.new.faults
            ≡ (if fits_poll (planned_fault self.old) self.old.card then self.old.faults + 1 else self.old.faults) }
        ensures delays { self.new.delays ≡ moved_on self.old.delays self.old.card.state self.new.card.state }
        ensures plan { self.new.plan ≡ self.old.plan }
    {
        let fault = self.plan.fault(self.wire.exchanges);
        let state = self.chip.state;
        let (yes, fell) = faulty_poll(&mut self.chip, fault, self.delays);
        self.delays.note_state(state, self.chip.state);
        self.faults = counted(self.faults, fell);
        self.wire.note(Exchange::Busy { yes });
        yes
    }
}

impl Bus for SimCard {
    ghost use Rattle.mmc_bus.specs.Exchanges.{Commanded, DataRead, DataWritten, Polled, SetsLines};
    ghost use Rattle.mmc_bus.specs.Together.{ReadWith, WrittenWith};

    ghost view = { sim_bus_view };

    fn limits(&self) -> Lines {
        self.wire.limits
    }

    fn command(&mut self, frame: [u8; 6], want: Want) -> Reply
        ensures { Commanded (sim_bus_view self.old) frame want result (sim_bus_view self.new) }
    {
        SimCard::command(self, frame, want)
    }

    fn read_data(&mut self, buffer: &mut [u8]) -> DataIn
        ensures { DataRead (sim_bus_view self.old) (length buffer.old) result buffer.new (sim_bus_view self.new) }
    {
        SimCard::read_data(self, buffer)
    }

    fn write_data(&mut self, block: &[u8; 512]) -> DataOut
        ensures { DataWritten (sim_bus_view self.old) block.now result (sim_bus_view self.new) }
    {
        SimCard::write_data(self, block)
    }

    fn busy(&mut self) -> bool
        ensures { Polled (sim_bus_view self.old) result (sim_bus_view self.new) }
    {
        SimCard::busy(self)
    }

    fn read_with<D: BlocksMut>(
        &mut self,
        frame: [u8; 6],
        want: Want,
        blocks: &mut D,
    ) -> (Reply, Moved<DataIn>)
        ensures read { ReadWith D.blocks D.with (sim_bus_view self.old) frame want blocks.old result.0 result.1 blocks.new
            (sim_bus_view self.new) }
        ensures faults { self.old.plan ≡ [] → self.new.faults ≡ self.old.faults }
    {
        let reply = SimCard::command(self, frame, want);
        if !self.is_smooth() || !is_answered(&frame, reply) {
            return (reply, Moved::Good(0));
        }
        (reply, self.read_blocks(blocks))
    }

    fn write_with<D: Blocks>(
        &mut self,
        frame: [u8; 6],
        want: Want,
        blocks: &D,
    ) -> (Reply, Moved<DataOut>)
        ensures written { WrittenWith (sim_bus_view self.old) frame want (D.blocks blocks.now) result.0 result.1 (sim_bus_view self.new) }
        ensures faults { self.old.plan ≡ [] → self.new.faults ≡ self.old.faults }
    {
        let reply = SimCard::command(self, frame, want);
        if !self.is_smooth() || !is_answered(&frame, reply) {
            return (reply, Moved::Good(0));
        }
        (reply, self.write_blocks(blocks))
    }

    fn set_lines(&mut self, width: Width, timing: Timing)
        ensures set { SetsLines (sim_bus_view self.old) width timing (sim_bus_view self.new) }
        ensures plan { self.new.plan ≡ self.old.plan }
        ensures delays { self.new.delays ≡ self.old.delays }
    {
        self.wire.set_lines(width, timing);
    }
}
