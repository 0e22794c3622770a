ghost use Rattle.std.specs.Prelude.{◌<◌, ◌==◌, ◌||◌, ◌≡◌, ◌≤◌, if◌then◌else◌, IfSome, IsNone, None, false, length, not, true};
ghost use Rattle.mmc_bus.specs.Exchanges.{Commanded, DataRead, DataWritten, Polled, SetsLines};
ghost use Rattle.mmc_bus.specs.Together.{ReadWith, WrittenWith};
ghost use Rattle.mmc_card.specs.Faults.{CommandStep, PollStep, ReadStep, WriteStep};
ghost use Rattle.mmc_bus.specs.Wires.{bus_view_with};
ghost use Rattle.mmc_host.specs.Hosts.{Does, GoesOn, IsLined, IsUnused, IsWithin, OnlySets, Replies, Rests};
ghost use Rattle.mmc_frame.specs.Frame.{command_in};
ghost use Rattle.mmc_host.specs.Misuse.{can_send, has_data};
ghost use Rattle.mmc_host.specs.Pace.{IsClocked, IsPaced, IsTimed, pause_after};
ghost use Rattle.mmc_frame.specs.declared.commands.TheConstants.{GO_IDLE_STATE};
ghost use Rattle.mmc_host.specs.Hosts.{Where, bus_over};
ghost use Rattle.mmc_host.specs.Together.{CanRead, CanWrite, IsBegun, IsUnderWay, number_of};
ghost use Rattle.mmc_host.specs.HostStates.{AreMovable, IsBetween, IsCounted, IsFree, IsTold, IsToCome, IsToGo, lines_of, resting};

use crate::host::Host;
use crate::limits::{are_within, limited};
use crate::noting::{MOST_BLOCKS, note_blocks, note_written, number_of};
use crate::replies::{pause_after, spelled};
use crate::response::Response;
use crate::told::{HostCommand, HostState, Ios};
use mmc_bus::{Blocks, BlocksMut, Bus, Moved, Wire};
use mmc_card::{DataIn, DataOut, Exchange, Lines, Reply, Timing, Want, Width};
use mmc_frame::commands::GO_IDLE_STATE;
use mmc_frame::read_command;

/// The bus over a host controller.
///
/// It decodes each command, tells the host of its response and its data, sets the clock of identification, keeps the pace of
/// `docs/STANDARD.md`, and spells responses again with their checks.
#[derive(Drop)]
pub struct HostBus<H: Host> {
    host: H,
    // with what the host can
    wire: Wire,
    // what the host has been told
    state: HostState,
    is_misused: bool,
    ghost told: { Where (H.view host) ((H.view host).state ≡ state) },
    ghost within: { Where (H.view host) ((H.view host).limits ≡ wire.limits) },
}

impl<H: Host> HostBus<H> {
    /// The bus over a host that has been sent no command so far.
    pub fn new(host: H) -> HostBus<H>
        requires { IsUnused (H.view host) }
        ensures view { bus_over (H.view result.host) result.wire result.is_misused
            ≡ bus_view_with (H.view host).card (H.view host).faults (H.view host).may_fall (H.view host).is_kept result.wire }
        ensures limits { Where (H.view host) (result.wire.limits ≡ (H.view host).limits) }
    {
        let limits = host.limits();
        HostBus {
            host,
            wire: Wire::within(limits),
            state: HostState::new(),
            is_misused: false,
        }
    }

    /// The bus over a host that is between two commands to a card that is selected, on these lines: how one goes on that has
    /// kept what it knows elsewhere. The host is told the lines, timing and clock, whatever it was told before, as far as it can.
    pub fn resume(host: H, lines: Lines) -> HostBus<H>
        requires { Where (H.view host) (IsBetween (H.view host).state) }
        ensures told { IsWithin lines result.wire.limits → H.has_told result.host (resting lines).ios }
        ensures goes_on { GoesOn (H.view host) (H.view result.host) }
        ensures lines { result.wire.lines ≡ lines }
        ensures limits { Where (H.view host) (result.wire.limits ≡ (H.view host).limits) }
        ensures fresh { (result.wire.last ≡ None) × (result.wire.exchanges ≡ 0) }
        ensures misused { result.is_misused ≡ false }
    {
        let mut host = host;
        let limits = host.limits();
        let mut wire = Wire::within(limits);
        wire.set_lines(lines.width, lines.timing);
        let state = HostState::resting(limited(lines, limits));
        host.set_ios(state.ios);
        HostBus {
            host,
            wire,
            state,
            is_misused: false,
        }
    }

    /// The host.
    pub fn host(&self) -> &H
        ensures { result.now ≡ self.now.host }
    {
        &self.host
    }

    /// The host again.
    pub fn into_host(self) -> H
        ensures { result ≡ self.host }
    {
        self.host
    }

    /// How many exchanges there were; the number stays at 2^64 - 1.
    pub fn exchanges(&self) -> u64
        ensures { result ≡ self.now.wire.exchanges }
    {
        self.wire.exchanges
    }

    /// Whether something was asked of the bus that no controller can do: to send a frame that is no command, or to move a block
    /// that isn't after the last command, or on other lines than that command was sent on.
    pub fn is_misused(&self) -> bool
        ensures { result ≡ self.now.is_misused }
    {
        self.is_misused
    }

    // Sets lines and clock as they are wanted next, where no data is under way.
    #[inline(always)]
    fn set_ios(&mut self, is_identifying: bool)
        ensures wire { self.new.wire ≡ self.old.wire }
        ensures misused { self.new.is_misused ≡ self.old.is_misused }
        ensures clock { self.new.state.ios.is_identifying
            ≡ (if has_data self.old.state.transfer then self.old.state.ios.is_identifying else is_identifying) }
        ensures lines { has_data self.old.state.transfer ≡ false → IsWithin self.old.wire.lines self.old.wire.limits
            → lines_of self.new.state.ios ≡ self.old.wire.lines }
        ensures state { self.new.state ≡ record self.old.state { ios = self.new.state.ios } }
        ensures only { OnlySets (H.view self.old.host) (H.view self.new.host) }
    {
        let Lines { width, timing } = limited(self.wire.lines, self.wire.limits);
        let ios = Ios {
            width,
            timing,
            is_identifying,
        };
        if ios != self.state.ios && self.state.is_idle() {
            self.host.set_ios(ios);
            self.state.ios = ios;
        }
    }

    // Pauses for so many microseconds after a command, for which it hasn't paused so far.
    fn rest(&mut self, micros: u32)
        requires { self.old.state.paused ≡ 0 }
        ensures wire { self.new.wire ≡ self.old.wire }
        ensures misused { self.new.is_misused ≡ self.old.is_misused }
        ensures state { self.new.state ≡ record self.old.state { paused = micros } }
        ensures rests { Rests (H.view self.old.host) (H.view self.new.host) }
    {
        if micros > 0 {
            self.host.pause(micros);
            self.state.paused = micros;
        }
    }

    // Sends a command, and tells the reply.
    fn send(&mut self, command: HostCommand) -> Reply
        requires index { command.index < 64 }
        requires movable { AreMovable command.transfer }
        requires told { IsTold self.old.state command }
        requires free { IsFree self.old.state.transfer command }
        ensures wire { self.new.wire ≡ self.old.wire }
        ensures misused { self.new.is_misused ≡ self.old.is_misused }
        ensures clock { IsClocked self.old.state command.index self.new.state }
        ensures lines { IsLined self.old.state self.old.wire self.new.state }
        ensures pace { IsPaced self.old.state.is_app command result self.new.state.paused }
        ensures data { IsUnderWay command self.new.state }
        ensures sent { Replies (H.view self.old.host) command.index command.argument result (H.view self.new.host) }
    {
        self.set_ios(self.state.is_identifying || command.index == GO_IDLE_STATE);
        let is_app = self.state.is_app;
        let heard = self.host.send(command);
        self.state = self.state.sent(command, heard.is_ok());
        self.rest(pause_after(is_app, command, heard));
        spelled(command, heard)
    }

    // Sends the command of a frame, after which so many blocks will be moved. A controller can't send a frame that holds none, nor a
    // command with data where data is under way.
    fn carry(&mut self, frame: &[u8; 6], moved: u16) -> Reply
        requires some { 1 ≤ moved }
        ensures wire { self.new.wire ≡ self.old.wire }
        ensures sent { Does (H.view self.old.host) self.old.wire self.old.is_misused
            (λ old new. CommandStep old frame.now result new) (H.view self.new.host) self.new.is_misused }
        ensures misused { self.new.is_misused ≡ (not (can_send self.old.state frame.now) || self.old.is_misused) }
        ensures timed { can_send self.old.state frame.now ≡ true → IsTimed self.old.state frame.now result self.new.state }
        ensures lines { can_send self.old.state frame.now ≡ true → IsLined self.old.state self.old.wire self.new.state }
        ensures counted { can_send self.old.state frame.now ≡ true → IsBegun self.old.state frame.now moved self.new.state }
    {
        let Some((index, argument)) = read_command(frame) else {
            self.is_misused = true;
            return Reply::Silent;
        };
        let command = self.state.command(index, argument, moved);
        if index >= 64 || !self.state.is_free(command) {
            self.is_misused = true;
            return Reply::Silent;
        }
        self.send(command)
    }

    // The command of a frame after which so many blocks of 512 bytes come, where it can be sent now on the lines that were asked for.
    fn reading(&mut self, frame: &[u8; 6], count: usize) -> Option<HostCommand>
        ensures wire { self.new.wire ≡ self.old.wire }
        ensures misused { self.new.is_misused ≡ self.old.is_misused }
        ensures only { OnlySets (H.view self.old.host) (H.view self.new.host) }
        ensures state { self.new.state ≡ record self.old.state { ios = self.new.state.ios } }
        ensures cannot { IsNone result → self.new ≡ self.old }
        ensures clock { IfSome result (λ command. IsClocked self.old.state command.index self.new.state) }
        ensures can { IfSome result (λ command. CanRead self.new.state frame.now command count self.old.wire.lines) }
        ensures counted { IfSome result (λ command. IsCounted self.old.state.count (number_of count) command.index command.transfer) }
    {
        let Some((index, argument)) = read_command(frame) else {
            return None;
        };
        let command = self.state.command(index, argument, number_of(count));
        let lines = self.wire.lines;
        if index >= 64
            || !self.state.is_free(command)
            || !command.transfer.are_after(count)
            || !are_within(lines, self.wire.limits)
        {
            return None;
        }
        self.set_ios(self.state.is_identifying || index == GO_IDLE_STATE);
        Some(command)
    }

    // The command of a frame after which so many blocks go, where it can be sent now on the lines that were asked for.
    fn writing(&mut self, frame: &[u8; 6], count: usize) -> Option<HostCommand>
        ensures wire { self.new.wire ≡ self.old.wire }
        ensures misused { self.new.is_misused ≡ self.old.is_misused }
        ensures only { OnlySets (H.view self.old.host) (H.view self.new.host) }
        ensures state { self.new.state ≡ record self.old.state { ios = self.new.state.ios } }
        ensures cannot { IsNone result → self.new ≡ self.old }
        ensures clock { IfSome result (λ command. IsClocked self.old.state command.index self.new.state) }
        ensures can { IfSome result (λ command. CanWrite self.new.state frame.now command count self.old.wire.lines) }
        ensures counted { IfSome result (λ command. IsCounted self.old.state.count (number_of count) command.index command.transfer) }
    {
        let Some((index, argument)) = read_command(frame) else {
            return None;
        };
        let command = self.state.command(index, argument, number_of(count));
        let lines = self.wire.lines;
        if index >= 64
            || command.response != Response::R1
            || !self.state.is_free(command)
            || !command.transfer.are_ahead(count)
            || !are_within(lines, self.wire.limits)
        {
            return None;
        }
        self.set_ios(self.state.is_identifying || index == GO_IDLE_STATE);
        Some(command)
    }

    // Whether a block of this length is to come, on the lines that the host has: they stay while data is under way.
    fn can_read(&self, len: usize) -> bool
        ensures set { result ≡ true → lines_of self.now.state.ios ≡ self.now.wire.lines }
        ensures to_come { result ≡ true → IsToCome self.now.state len }
        ensures can { lines_of self.now.state.ios ≡ self.now.wire.lines → IsToCome self.now.state len → result ≡ true }
    {
        self.state.ios.lines() == self.wire.lines && self.state.is_to_come(len)
    }

    // Whether a block is to go, on the lines that the host has.
    fn can_write(&self) -> bool
        ensures set { result ≡ true → lines_of self.now.state.ios ≡ self.now.wire.lines }
        ensures to_go { result ≡ true → IsToGo self.now.state }
        ensures can { lines_of self.now.state.ios ≡ self.now.wire.lines → IsToGo self.now.state → result ≡ true }
    {
        self.state.ios.lines() == self.wire.lines && self.state.is_to_go()
    }

    // Reads the next block of the data that is to come.
    fn read_next(&mut self, block: &mut [u8]) -> DataIn
        ensures wire { self.new.wire ≡ self.old.wire }
        ensures read { Does (H.view self.old.host) self.old.wire self.old.is_misused
            (λ old new. ReadStep old (length block.old) result block.new new) (H.view self.new.host) self.new.is_misused }
        ensures lines { self.new.state.ios ≡ self.old.state.ios }
        ensures fits { lines_of self.old.state.ios ≡ self.old.wire.lines → IsToCome self.old.state (length block.old)
            → self.new.is_misused ≡ self.old.is_misused }
        ensures only { self.new.is_misused ≡ false
            → (lines_of self.old.state.ios ≡ self.old.wire.lines) × IsToCome self.old.state (length block.old) }
    {
        if !self.can_read(block.len()) {
            self.is_misused = true;
            return DataIn::Nothing;
        }
        let got = self.host.read_block(block);
        self.state = self.state.block_passed(got == DataIn::Good);
        got
    }

    // Writes the next block of the data that is to go.
    fn write_next(&mut self, block: &[u8; 512]) -> DataOut
        ensures wire { self.new.wire ≡ self.old.wire }
        ensures written { Does (H.view self.old.host) self.old.wire self.old.is_misused
            (λ old new. WriteStep old block.now result new) (H.view self.new.host) self.new.is_misused }
        ensures lines { self.new.state.ios ≡ self.old.state.ios }
        ensures fits { lines_of self.old.state.ios ≡ self.old.wire.lines → IsToGo self.old.state
            → self.new.is_misused ≡ self.old.is_misused }
        ensures only { self.new.is_misused ≡ false
            → (lines_of self.old.state.ios ≡ self.old.wire.lines) × IsToGo self.old.state }
    {
        if !self.can_write() {
            self.is_misused = true;
            return DataOut::Nothing;
        }
        let got = self.host.write_block(block);
        self.state = self.state.block_passed(got == DataOut::Accepted);
        got
    }

    // Whether the card is still busy.
    fn look(&mut self) -> bool
        ensures wire { self.new.wire ≡ self.old.wire }
        ensures misused { self.new.is_misused ≡ self.old.is_misused }
        ensures state { self.new.state ≡ self.old.state }
        ensures looked { Does (H.view self.old.host) self.old.wire self.old.is_misused
            (λ old new. PollStep old result new) (H.view self.new.host) self.new.is_misused }
    {
        self.host.is_busy(self.state.work)
    }
}

impl<H: Host> Bus for HostBus<H> {
    ghost view = { λ s. bus_over (H.view s.host) s.wire s.is_misused };

    fn limits(&self) -> Lines {
        self.wire.limits
    }

    fn command(&mut self, frame: [u8; 6], want: Want) -> Reply
        ensures commanded { Commanded (bus_over (H.view self.old.host) self.old.wire self.old.is_misused) frame want result
            (bus_over (H.view self.new.host) self.new.wire self.new.is_misused) }
        ensures misused { self.new.is_misused ≡ (not (can_send self.old.state frame) || self.old.is_misused) }
        ensures timed { can_send self.old.state frame ≡ true → IsTimed self.old.state frame result self.new.state }
        ensures lines { can_send self.old.state frame ≡ true → IsLined self.old.state self.old.wire self.new.state }
    {
        self.begin(frame, want, MOST_BLOCKS)
    }

    fn begin(&mut self, frame: [u8; 6], want: Want, blocks: u16) -> Reply
        ensures commanded { Commanded (bus_over (H.view self.old.host) self.old.wire self.old.is_misused) frame want result
            (bus_over (H.view self.new.host) self.new.wire self.new.is_misused) }
        ensures misused { self.new.is_misused ≡ (not (can_send self.old.state frame) || self.old.is_misused) }
        ensures timed { can_send self.old.state frame ≡ true → IsTimed self.old.state frame result self.new.state }
        ensures lines { can_send self.old.state frame ≡ true → IsLined self.old.state self.old.wire self.new.state }
        ensures counted { can_send self.old.state frame ≡ true
            → IsBegun self.old.state frame (number_of blocks) self.new.state }
    {
        let reply = self.carry(&frame, number_of(blocks as usize));
        self.wire.note(Exchange::Command { frame, want, reply });
        reply
    }

    fn read_with<D: BlocksMut>(
        &mut self,
        frame: [u8; 6],
        want: Want,
        blocks: &mut D,
    ) -> (Reply, Moved<DataIn>)
        ensures read { ReadWith D.blocks D.with (bus_over (H.view self.old.host) self.old.wire self.old.is_misused)
            frame want blocks.old result.0 result.1 blocks.new (bus_over (H.view self.new.host) self.new.wire self.new.is_misused) }
        ensures misused { self.new.is_misused ≡ (not (can_send self.old.state frame) || self.old.is_misused) }
        ensures clock { can_send self.old.state frame ≡ true
            → IfSome (command_in frame) (λ command. IsClocked self.old.state command.0 self.new.state) }
        ensures lines { can_send self.old.state frame ≡ true → IsLined self.old.state self.old.wire self.new.state }
    {
        match self.reading(&frame, blocks.len()) {
            Some(command) => {
                let (heard, moved) = self.host.read_with(command, blocks);
                self.state = self.state.sent(command, heard.is_ok()).blocks_passed(moved);
                let reply = spelled(command, heard);
                self.wire.note(Exchange::Command { frame, want, reply });
                note_blocks(&mut self.wire, moved);
                (reply, moved)
            }
            None => {
                let blocks = number_of(blocks.len());
                (self.begin(frame, want, blocks), Moved::Good(0))
            }
        }
    }

    fn write_with<D: Blocks>(
        &mut self,
        frame: [u8; 6],
        want: Want,
        blocks: &D,
    ) -> (Reply, Moved<DataOut>)
        ensures written { WrittenWith (bus_over (H.view self.old.host) self.old.wire self.old.is_misused) frame want
            (D.blocks blocks.now) result.0 result.1 (bus_over (H.view self.new.host) self.new.wire self.new.is_misused) }
        ensures misused { self.new.is_misused ≡ (not (can_send self.old.state frame) || self.old.is_misused) }
        ensures clock { can_send self.old.state frame ≡ true
            → IfSome (command_in frame) (λ command. IsClocked self.old.state command.0 self.new.state) }
        ensures lines { can_send self.old.state frame ≡ true → IsLined self.old.state self.old.wire self.new.state }
    {
        match self.writing(&frame, blocks.len()) {
            Some(command) => {
                let (heard, moved) = self.host.write_with(command, blocks);
                self.state = self.state.sent(command, heard.is_ok()).blocks_passed(moved);
                let reply = spelled(command, heard);
                self.wire.note(Exchange::Command { frame, want, reply });
                note_written(&mut self.wire, moved);
                (reply, moved)
            }
            None => {
                let blocks = number_of(blocks.len());
                (self.begin(frame, want, blocks), Moved::Good(0))
            }
        }
    }

    fn read_data(&mut self, buffer: &mut [u8]) -> DataIn
        ensures read { DataRead (bus_over (H.view self.old.host) self.old.wire self.old.is_misused) (length buffer.old) result
            buffer.new (bus_over (H.view self.new.host) self.new.wire self.new.is_misused) }
        ensures lines { self.new.state.ios ≡ self.old.state.ios }
        ensures fits { lines_of self.old.state.ios ≡ self.old.wire.lines → IsToCome self.old.state (length buffer.old)
            → self.new.is_misused ≡ self.old.is_misused }
        ensures only { self.new.is_misused ≡ false
            → (lines_of self.old.state.ios ≡ self.old.wire.lines) × IsToCome self.old.state (length buffer.old) }
    {
        let len = buffer.len();
        let got = self.read_next(buffer);
        self.wire.note(Exchange::In { len, got });
        got
    }

    fn write_data(&mut self, block: &[u8; 512]) -> DataOut
        ensures written { DataWritten (bus_over (H.view self.old.host) self.old.wire self.old.is_misused) block.now result
            (bus_over (H.view self.new.host) self.new.wire self.new.is_misused) }
        ensures lines { self.new.state.ios ≡ self.old.state.ios }
        ensures fits { lines_of self.old.state.ios ≡ self.old.wire.lines → IsToGo self.old.state
            → self.new.is_misused ≡ self.old.is_misused }
        ensures only { self.new.is_misused ≡ false
            → (lines_of self.old.state.ios ≡ self.old.wire.lines) × IsToGo self.old.state }
    {
        let got = self.write_next(block);
        self.wire.note(Exchange::Out { got });
        got
    }

    fn busy(&mut self) -> bool
        ensures polled { Polled (bus_over (H.view self.old.host) self.old.wire self.old.is_misused) result
            (bus_over (H.view self.new.host) self.new.wire self.new.is_misused) }
        ensures misused { self.new.is_misused ≡ self.old.is_misused }
        ensures state { self.new.state ≡ self.old.state }
    {
        let yes = self.look();
        self.wire.note(Exchange::Busy { yes });
        yes
    }

    fn set_lines(&mut self, width: Width, timing: Timing)
        ensures sets { SetsLines (bus_over (H.view self.old.host) self.old.wire self.old.is_misused) width timing
            (bus_over (H.view self.new.host) self.new.wire self.new.is_misused) }
        ensures misused { self.new.is_misused ≡ self.old.is_misused }
        ensures state { self.new.state ≡ self.old.state }
    {
        self.wire.set_lines(width, timing);
    }
}
