ghost use Rattle.std.specs.Prelude.{◌<◌, ◌≡◌, IfErr, IfOk, true};
ghost use Rattle.mmc_host.specs.HostStates.{IsBetween, lines_of};
ghost use Rattle.mmc_host.specs.Hosts.{IsUnused, Rests};
ghost use Rattle.mmc_sdhci.specs.Controller.{IsAtMost, Settled, has_data, limits_of, lines_in};
ghost use Rattle.mmc_sdhci.specs.Accesses.{IsAtRest, Stays, of_the_slot};
ghost use Rattle.mmc_sdhci.specs.Beside.{is_inserted, is_protected};
ghost use Rattle.mmc_sdhci.specs.Commands.{IsSet};
ghost use Rattle.mmc_sdhci.specs.Driver.{IsBaseClock, IsLost, IsNew, IsReady, IsSameCard, IsUnready, are_words, clock_limit, host_over, told_so};
ghost use Rattle.mmc_host.specs.declared.data.Data.TheVariants.{Nothing};
ghost use Rattle.mmc_sdhci.specs.declared.start.StartFault.TheVariants.{NoBaseClock};
ghost use Rattle.mmc_sdhci.specs.Finishing.{AreCapabilities};
ghost use Rattle.mmc_sdhci.specs.Moving.{WhereKept};

use crate::busy::is_busy;
use crate::clock::{base_clock, set_clock};
use crate::command::{has_data, send};
use crate::data::{read_block, write_block};
use crate::ending::lose_rest;
use crate::ios::set_lines;
use crate::mover::Mover;
use crate::offsets::{CAPABILITIES, CONTROL, POWER, PRESENT, VERSION};
use crate::registers::Registers;
use crate::settling::pause;
use crate::start::{StartFault, control_of, has_card, limits_of, power_up, start_anew};
use ghost_diary::{Noted, Seen};
use mmc_bus::{Blocks, BlocksMut, Moved};
use mmc_card::{DataIn, DataOut, Lines, Width};
use mmc_host::{Data, Heard, Host, HostCommand, HostState, Ios, ResponseFault, Work};

// Lines and clock as they are set, of which only proofs know.
#[derive(Drop)]
struct AsSet<'a, R> {
    registers: &'a R,
}

impl<R: Registers> Noted<Ios> for AsSet<'_, R> {
    ghost use Rattle.mmc_sdhci.specs.Driver.{ios_in};

    ghost says = { λ set. ios_in (R.view set.registers.now) };
}

/// A driver of an SD host controller.
#[derive(Drop)]
pub struct Sdhci<R: Registers> {
    pub(crate) registers: R,
    // what it was told so far; its lines and clock only once this driver has set them
    pub(crate) state: HostState,
    pub(crate) is_set: bool,
    // and what these are, which only proofs see
    pub(crate) told: Seen<Ios>,
    limits: Lines,
    // in MHz
    base: u32,
    version: u8,
    pub(crate) capabilities: u32,
    ghost rest: { IsAtRest (R.view registers) },
    ghost transfer: { WhereKept (R.view registers) ((R.view registers).transfer ≡ state.transfer) },
    ghost words: { are_words state.transfer ≡ true },
    ghost lines: { WhereKept (R.view registers) (lines_in (R.view registers).settings.control ≡ lines_of told) },
    ghost most: { WhereKept (R.view registers) (limits_of (R.view registers).built ≡ limits) },
    ghost clock: { WhereKept (R.view registers) (is_set ≡ true → IsAtMost (clock_limit told) (R.view registers)) },
    ghost known: { is_set ≡ true → state.ios ≡ told },
    ghost set: { IsSet (R.view registers) },
    ghost base_clock: { IsBaseClock base version (R.view registers) },
    ghost small: { base < 256 },
    ghost built: { AreCapabilities (R.view registers) capabilities },
}

// 3.3 V, on.
const POWER_ON: u8 = 0x0f;

const IDENTIFICATION: u32 = 400_000;

impl<R: Registers> Sdhci<R> {
    /// Begins with a controller, whatever it was used for before: takes the card's power and waits until the card has been without it for
    /// long enough, resets the controller, gives the card power and the clock of identification, and waits until it has started. So many
    /// data lines are wired to its slot; `Eight` where the controller's own are.
    ///
    /// # Errors
    /// `NoVoltage` where the controller has no 3.3 V, `NoBaseClock` where it doesn't say how fast its clock is, or, before
    /// version 3.00, says more than 63 MHz, and then `NoCard` where its slot is empty. The registers are given back, and the card has no
    /// power then.
    pub fn new(registers: R, wired: Width) -> Result<Sdhci<R>, (R, StartFault)>
        requires new { IsNew (R.view registers) }
        requires wired { WhereKept (R.view registers) ((R.view registers).built.wired ≡ wired) }
        ensures same { IfOk result (λ host. Settled (R.view registers)
            (IsSameCard (R.view registers) (R.view host.registers)) (R.view host.registers)) }
        ensures limits { IfOk result (λ host. WhereKept (R.view host.registers)
            (host.limits ≡ limits_of (R.view host.registers).built)) }
        ensures unused { IfOk result (λ host. IsUnused (host_over (R.view host.registers) (told_so host.state host.told) host.limits)) }
        ensures kept { IfOk result (λ host. WhereKept (R.view host.registers)
            (of_the_slot (R.view host.registers).settings.shown ≡ of_the_slot (R.kept registers))) }
        ensures unready { IfErr result (λ failed. IsUnready failed.1 (R.view failed.0) (R.beside failed.0)) }
        ensures unused_again { IfErr result (λ failed. IsNew (R.view failed.0)) }
        ensures left { IfErr result (λ failed. Settled (R.view registers)
            (IsSameCard (R.view registers) (R.view failed.0)) (R.view failed.0)) }
    {
        let mut registers = registers;
        start_anew(&mut registers);
        let capabilities = registers.read32(CAPABILITIES);
        let version = registers.read8(VERSION);
        let base = base_clock(capabilities, version);
        if capabilities / 0x100_0000 % 2 == 0 {
            return Err((registers, StartFault::NoVoltage));
        }
        if base == 0 {
            return Err((registers, StartFault::NoBaseClock));
        }
        if !has_card(&mut registers) {
            return Err((registers, StartFault::NoCard));
        }
        registers.write8(POWER, POWER_ON);
        registers.write8(CONTROL, 0);
        set_clock(&mut registers, base, version, IDENTIFICATION);
        power_up(&mut registers, base, version);
        let state = HostState::new();
        Ok(Sdhci {
            registers,
            told: Seen::of(&state.ios),
            state,
            is_set: true,
            limits: limits_of(capabilities, wired),
            base,
            version,
            capabilities,
        })
    }

    /// Goes on with a controller that is between two commands to a card that is selected, on these lines, as a driver left it that is
    /// there no more. Nothing is set: whoever goes on sets lines and clock first.
    ///
    /// # Errors
    /// `NoBaseClock` as of `new`. The registers are given back.
    pub fn resume(registers: R, wired: Width, lines: Lines) -> Result<Sdhci<R>, (R, StartFault)>
        requires ready { IsReady (R.view registers) }
        requires wired { WhereKept (R.view registers) ((R.view registers).built.wired ≡ wired) }
        ensures same { IfOk result (λ host. Settled (R.view registers)
            (IsSameCard (R.view registers) (R.view host.registers)) (R.view host.registers)) }
        ensures limits { IfOk result (λ host. WhereKept (R.view host.registers)
            (host.limits ≡ limits_of (R.view host.registers).built)) }
        ensures between { IfOk result (λ host. IsBetween (told_so host.state host.told)) }
        ensures fault { IfErr result (λ failed. failed.1 ≡ NoBaseClock) }
        ensures unready { IfErr result (λ failed. IsUnready failed.1 (R.view failed.0) (R.beside failed.0)) }
        ensures stays { IfErr result (λ failed. Stays (R.view registers) (R.view failed.0)) }
    {
        let mut registers = registers;
        let capabilities = registers.read32(CAPABILITIES);
        let version = registers.read8(VERSION);
        let base = base_clock(capabilities, version);
        if base == 0 {
            return Err((registers, StartFault::NoBaseClock));
        }
        Ok(Sdhci {
            told: Seen::of(&AsSet {
                registers: &registers,
            }),
            registers,
            state: HostState::resting(lines),
            is_set: false,
            limits: limits_of(capabilities, wired),
            base,
            version,
            capabilities,
        })
    }

    /// Ends the use of a controller for now, so that `resume` can go on with it: nothing is under way, and nothing is lent. Where
    /// something has failed, or data is under way, command line and data line are reset (section 2.2.16), and what was left is lost.
    /// Lines and clock stay.
    pub fn end(&mut self, has_failed: bool)
        ensures ready { IsReady (R.view self.new.registers) }
        ensures lost { Settled (R.view self.old.registers) (IsLost (R.view self.old.registers) (R.view self.new.registers))
            (R.view self.new.registers) }
        ensures same { Settled (R.view self.old.registers)
            (self.old.state.transfer ≡ Nothing → IsSameCard (R.view self.old.registers) (R.view self.new.registers))
            (R.view self.new.registers) }
        ensures state { self.new.state ≡ record self.old.state { transfer = Nothing } }
        ensures limits { self.new.limits ≡ self.old.limits }
    {
        let is_left = has_failed || has_data(self.state.transfer);
        lose_rest(&mut self.registers, is_left);
        self.state.transfer = Data::Nothing;
        self.registers.take_back();
    }

    /// Whether data is under way.
    pub fn is_moving(&self) -> bool
        ensures { result ≡ has_data self.now.state.transfer }
    {
        has_data(self.state.transfer)
    }

    /// The registers again.
    pub fn into_registers(self) -> R
        ensures { result ≡ self.registers }
    {
        self.registers
    }

    /// Whether a card is inserted now, by Present State. The card isn't asked.
    pub fn has_card(&mut self) -> bool
        ensures card { WhereKept (R.view self.new.registers) (result ≡ is_inserted (R.beside self.new.registers).present) }
        ensures rests { Rests (host_over (R.view self.old.registers) (told_so self.old.state self.old.told) self.old.limits)
            (host_over (R.view self.new.registers) (told_so self.new.state self.new.told) self.new.limits) }
    {
        has_card(&mut self.registers)
    }

    /// Whether the switch of the slot protects the card against writes. This is the slot's, not the card's: the device doesn't know
    /// it.
    pub fn is_write_protected(&mut self) -> bool
        ensures protected { WhereKept (R.view self.new.registers) (result ≡ is_protected (R.beside self.new.registers).present) }
        ensures rests { Rests (host_over (R.view self.old.registers) (told_so self.old.state self.old.told) self.old.limits)
            (host_over (R.view self.new.registers) (told_so self.new.state self.new.told) self.new.limits) }
    {
        self.registers.read32(PRESENT) / 0x8_0000 % 2 == 0
    }

    /// The registers.
    pub fn registers(&self) -> &R
        ensures { result.now ≡ self.now.registers }
    {
        &self.registers
    }
}

impl<R: Registers> Host for Sdhci<R> {
    ghost view = { λ s. host_over (R.view s.registers) (told_so s.state s.told) s.limits };

    // What the registers were told binds where they are kept.
    ghost has_told = { λ _ _. Unit {0} };

    fn limits(&self) -> Lines {
        self.limits
    }

    fn set_ios(&mut self, ios: Ios) {
        set_lines(&mut self.registers, self.base, self.version, ios);
        self.state.ios = ios;
        self.told = Seen::of(&ios);
        self.is_set = true;
    }

    fn send(&mut self, command: HostCommand) -> Result<Heard, ResponseFault> {
        let heard = send(
            &mut self.registers,
            self.state.transfer,
            command,
            Mover::Driver,
        );
        self.state = self.state.sent(command, heard.is_ok());
        heard
    }

    // By DMA where that can be had, and otherwise one block after the other.
    fn read_with<D: BlocksMut>(
        &mut self,
        command: HostCommand,
        blocks: &mut D,
    ) -> (Result<Heard, ResponseFault>, Moved<DataIn>) {
        match self.read_by_dma(command, blocks) {
            Some(done) => done,
            None => self.read_by_port(command, blocks),
        }
    }

    fn write_with<D: Blocks>(
        &mut self,
        command: HostCommand,
        blocks: &D,
    ) -> (Result<Heard, ResponseFault>, Moved<DataOut>) {
        match self.write_by_dma(command, blocks) {
            Some(done) => done,
            None => self.write_by_port(command, blocks),
        }
    }

    fn read_block(&mut self, block: &mut [u8]) -> DataIn {
        let got = read_block(&mut self.registers, self.state.transfer, block);
        self.state = self.state.block_passed(got == DataIn::Good);
        got
    }

    fn write_block(&mut self, block: &[u8; 512]) -> DataOut {
        let got = write_block(&mut self.registers, self.state.transfer, block);
        self.state = self.state.block_passed(got == DataOut::Accepted);
        got
    }

    fn is_busy(&mut self, work: Work) -> bool {
        is_busy(&mut self.registers, work.micros())
    }

    fn pause(&mut self, micros: u32) {
        pause(&mut self.registers, micros);
        self.state.paused = micros;
    }
}
