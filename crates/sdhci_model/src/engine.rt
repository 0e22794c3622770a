ghost use Rattle.std.specs.Prelude.{[], Err, IfOk, ◌==◌, ◌≡◌, ◌∷◌, false, true};
ghost use Rattle.mmc_host.specs.declared.data.Data.TheVariants as Data;
ghost use Rattle.mmc_frame.specs.Field.{field};
ghost use Rattle.mmc_sdhci.specs.Driver.{IsNew};
ghost use Rattle.mmc_host.specs.HostStates.{is_good};
ghost use Rattle.mmc_card.specs.declared.response.Response.TheVariants.{Nothing};
ghost use Rattle.mmc_host.specs.declared.told.ResponseFault.TheVariants.{Timeout};
ghost use Rattle.mmc_sdhci.specs.Accesses.{DataLookedBy, Looked, Passes, Polls, Reads, Reads8, Writes, Writes8, may_write, may_write8};
ghost use Rattle.mmc_sdhci.specs.DataLooks.{DataLooked, ReadLook, WriteLook};
ghost use Rattle.mmc_story.specs.Noted.{event_of};
ghost use Rattle.mmc_sdhci.specs.Controller.{Settled};
ghost use Rattle.mmc_sdhci.specs.CommandLooks.{Look};
ghost use Rattle.mmc_story.specs.Entry.Event.{Read, Sent};
ghost use Rattle.sdhci_model.specs.Moves.{SeesBuffer};
ghost use Rattle.sdhci_model.specs.Shown.{IsTold, command_of, controller, entry_for, running_in, running_of, shown};
ghost use Rattle.mmc_story.specs.Story.{Outcome};

use crate::commands::{Run, Told, bits_of, is_movable, response_in, words_in};
use crate::manner::Manner;
use crate::reading::{bits_of_read, is_good};
use crate::settings::told_on;
use crate::state::State;
use crate::writing::is_accepted;
use mmc_card::{DataIn, DataOut};
use mmc_host::{Data, Heard, Host, Response, ResponseFault, Work};
use mmc_sdhci::limits_in;
use mmc_story::{Call, Diary, HasStory, Note, SeenState};
use std::marker::PhantomData;

/// What a controller does at each access, over a host of which nothing is proved, whose answers are noted.
#[derive(Drop)]
pub struct Engine<D: Host, S: HasStory> {
    pub host: D,
    pub diary: Diary,
    pub state: State,
    pub manner: Manner,
    // how many exchanges were noted, and how many of them were lost by a reset
    pub exchanges: u64,
    pub lost: u64,
    // how many blocks were moved by DMA
    pub moved: u64,
    // what became of the block that is shown
    came: DataIn,
    // a block was rejected, which the driver learns with the next one
    pub has_rejected: bool,
    of: PhantomData<S>,
    ghost unkept: { (D.view host).is_kept ≡ true → ⊥ },
}

// A diary with one call more.
fn noted(diary: &Diary, state: &State, call: Call<'_>) -> Diary
    ensures { result.past ≡ entry_for state.now (event_of call.entry) ∷ diary.now.past }
{
    let told = SeenState::of(&told_on(state.control));
    diary.then(&Note {
        told: &told,
        limits: limits_in(state.capabilities),
        call,
    })
}

impl<D: Host, S: HasStory> Engine<D, S> {
    /// Notes a call with its answer.
    pub fn note(&mut self, call: Call<'_>)
        ensures past { self.new.diary.past ≡ entry_for self.old.state (event_of call.entry) ∷ self.old.diary.past }
        ensures state { self.new.state ≡ self.old.state }
    {
        self.diary = noted(&self.diary, &self.state, call);
        self.exchanges = self.exchanges.saturating_add(1);
    }

    /// Sends the command that runs, and tells what was heard. Where no host sends it, or the response is of another kind, it is lost.
    pub fn send(&mut self, run: Run) -> Result<Told, ResponseFault>
        ensures told { IfOk result (λ told. IsTold run told) }
        ensures past { self.new.diary.past ≡ self.old.diary.past }
        ensures state { self.new.state ≡ self.old.state }
    {
        let Some(response) = response_in(run.flags) else {
            return Err(ResponseFault::Timeout);
        };
        if run.index >= 64 || !is_movable(run.transfer) {
            return Err(ResponseFault::Timeout);
        }
        self.host.set_ios(self.state.ios());
        let heard = self.host.send(run.command(response))?;
        let Some(words) = words_in(response, heard) else {
            return Err(ResponseFault::Timeout);
        };
        Ok(Told {
            response,
            heard,
            words,
        })
    }

    /// Notes the command that runs, with what was heard.
    pub fn note_command(
        &mut self,
        run: Run,
        response: Response,
        heard: Result<Heard, ResponseFault>,
    )
        ensures past { self.new.diary.past ≡ entry_for self.old.state (Sent (command_of run response) heard) ∷ self.old.diary.past }
        ensures state { self.new.state ≡ self.old.state }
    {
        self.note(Call::Send {
            command: run.command(response),
            heard,
        });
    }

    /// The driver did what the rules forbid, or reads a register that this model hasn't. From now on the controller isn't kept.
    pub fn break_off(&mut self)
        ensures { self.new.state.is_sound ≡ false }
    {
        self.state.is_sound = false;
    }

    // A look at the interrupts while this command runs.
    fn see_command(&mut self, run: Run) -> u32
        ensures { Settled (controller S.story self.old.diary.past self.old.state)
            (Look (controller S.story self.old.diary.past self.old.state) (running_of run) result
            (controller S.story self.new.diary.past self.new.state)) (controller S.story self.new.diary.past self.new.state) }
    {
        if self.manner.is_silent(self.exchanges, true) {
            self.state.see_nothing();
            return 0;
        }
        match self.send(run) {
            Err(fault) => {
                self.note_command(run, Response::Nothing, Err(fault));
                let bits = bits_of(fault);
                self.state.fail_command(bits);
                bits
            }
            Ok(told) => {
                self.note_command(run, told.response, Ok(told.heard));
                self.state.complete(told.words, run.transfer);
                1
            }
        }
    }

    // A look while blocks of this length are read.
    fn see_read(&mut self, length: u16, blocks: u16) -> u32
        requires { self.old.state.transfer ≡ Data.Read length blocks }
        ensures { Settled (controller S.story self.old.diary.past self.old.state)
            (ReadLook (controller S.story self.old.diary.past self.old.state) length result
            (controller S.story self.new.diary.past self.new.state)) (controller S.story self.new.diary.past self.new.state) }
    {
        if self.state.is_unjudged {
            return self.see_shown(length);
        }
        if !self.state.is_ready {
            self.state.see_nothing();
            return 0;
        }
        self.fetch(length)
    }

    // A look where a block is shown that isn't judged yet.
    fn see_shown(&mut self, length: u16) -> u32
        requires { self.old.state.is_unjudged ≡ true }
        ensures { Settled (controller S.story self.old.diary.past self.old.state)
            (ReadLook (controller S.story self.old.diary.past self.old.state) length result
            (controller S.story self.new.diary.past self.new.state)) (controller S.story self.new.diary.past self.new.state) }
    {
        if !is_good(self.came) {
            return self.fail_read(length, self.came);
        }
        let is_silent = self.manner.is_silent(self.exchanges, true);
        if self.state.is_held_back(is_silent) {
            self.state.see_nothing();
            return 0;
        }
        let Some(bits) = self.state.good_bits() else {
            self.state.see_nothing();
            return 0;
        };
        let block = self.state.copied();
        self.note(Call::ReadBlock {
            length: length as usize,
            got: DataIn::Good,
            block: block.as_slice(),
        });
        self.state.judge(bits);
        bits
    }

    // A block comes over the lines, or not.
    fn fetch(&mut self, length: u16) -> u32
        requires none { self.old.state.is_unjudged ≡ false }
        requires ready { self.old.state.is_ready ≡ true }
        ensures { Settled (controller S.story self.old.diary.past self.old.state)
            (ReadLook (controller S.story self.old.diary.past self.old.state) length result
            (controller S.story self.new.diary.past self.new.state)) (controller S.story self.new.diary.past self.new.state) }
    {
        if length > 512 {
            return self.fail_read(length, DataIn::Nothing);
        }
        self.host.set_ios(self.state.ios());
        let mut buffer = [0; 512];
        let block = &mut buffer[..length as usize];
        let got = self.host.read_block(block);
        let is_late = self.manner.has_late_errors && got == DataIn::Bad;
        if !is_good(got) && !is_late {
            return self.fail_read(length, got);
        }
        if block.len() != length as usize {
            return self.fail_read(length, DataIn::Nothing);
        }
        self.came = got;
        self.state.come(block);
        0x20
    }

    // No good block has come.
    fn fail_read(&mut self, length: u16, got: DataIn) -> u32
        requires { is_good got ≡ false }
        ensures { Settled (controller S.story self.old.diary.past self.old.state)
            (ReadLook (controller S.story self.old.diary.past self.old.state) length result
            (controller S.story self.new.diary.past self.new.state)) (controller S.story self.new.diary.past self.new.state) }
    {
        let bits = bits_of_read(got);
        self.note(Call::ReadBlock {
            length: length as usize,
            got,
            block: &[],
        });
        self.state.break_data(bits);
        bits
    }

    // A look while blocks are written.
    fn see_write(&mut self) -> u32
        ensures { Settled (controller S.story self.old.diary.past self.old.state)
            (WriteLook (controller S.story self.old.diary.past self.old.state) result
            (controller S.story self.new.diary.past self.new.state)) (controller S.story self.new.diary.past self.new.state) }
    {
        let is_silent = self.manner.is_silent(self.exchanges, true);
        if self.state.is_held_back(is_silent) {
            self.state.see_nothing();
            return 0;
        }
        let Some(bits) = self.state.gone_bits() else {
            self.state.see_nothing();
            return 0;
        };
        let Some(block) = self.state.whole() else {
            self.state.see_nothing();
            return 0;
        };
        let got = self.offer(&block);
        self.note(Call::WriteBlock { block: &block, got });
        if is_accepted(got) {
            self.state.go(bits);
            return bits;
        }
        self.state.break_data(0x0020_8000);
        0x0020_8000
    }

    /// Offers a block to the card. Where errors come late, one that isn't the last and is rejected is taken for accepted, and the next
    /// one isn't sent: the card ignores all after it.
    pub fn offer(&mut self, block: &[u8; 512]) -> DataOut
        ensures past { self.new.diary.past ≡ self.old.diary.past }
        ensures state { self.new.state ≡ self.old.state }
    {
        if self.has_rejected {
            self.has_rejected = false;
            return DataOut::Nothing;
        }
        self.host.set_ios(self.state.ios());
        let got = self.host.write_block(block);
        let is_late = self.manner.has_late_errors && !self.state.is_last();
        if is_late && got == DataOut::Rejected {
            self.has_rejected = true;
            return DataOut::Accepted;
        }
        got
    }

    // A look while no command runs.
    fn see_data(&mut self) -> u32
        ensures { Settled (controller S.story self.old.diary.past self.old.state)
            (DataLooked (controller S.story self.old.diary.past self.old.state) self.old.state.transfer result
            (controller S.story self.new.diary.past self.new.state)) (controller S.story self.new.diary.past self.new.state) }
    {
        match self.state.transfer {
            Data::Nothing => self.state.status,
            Data::Read { length, blocks } => self.see_read(length, blocks),
            Data::Write { .. } => self.see_write(),
        }
    }

    // A look while no command runs: where data is moved by DMA, or not.
    fn see_any_data(&mut self) -> u32
        ensures { Settled (controller S.story self.old.diary.past self.old.state)
            (DataLookedBy self.old.state.is_moving (controller S.story self.old.diary.past self.old.state) result
            (controller S.story self.new.diary.past self.new.state)) (controller S.story self.new.diary.past self.new.state) }
    {
        if self.state.is_moving {
            self.see_moving()
        } else {
            self.see_data()
        }
    }

    // A look at the interrupts.
    fn look(&mut self) -> u32
        ensures { Settled (controller S.story self.old.diary.past self.old.state)
            (Looked (controller S.story self.old.diary.past self.old.state) (running_in self.old.state.running) result
            (controller S.story self.new.diary.past self.new.state)) (controller S.story self.new.diary.past self.new.state) }
    {
        match self.state.running {
            Some(run) => self.see_command(run),
            None => self.see_any_data(),
        }
    }

    // A look at the buffer.
    fn see_buffer(&mut self) -> u8
        ensures past { self.new.diary.past ≡ self.old.diary.past }
        ensures buffer { SeesBuffer self.old.state result self.new.state }
    {
        let has_begun = self.state.has_begun();
        if self.manner.is_silent(self.exchanges, has_begun) {
            return self.state.see_no_buffer();
        }
        self.state.see_buffer()
    }

    // A poll of the card.
    fn poll(&mut self) -> u8
        ensures { Settled (controller S.story self.old.diary.past self.old.state)
            (Polls (controller S.story self.old.diary.past self.old.state) (field 4 4 result == 0)
            (controller S.story self.new.diary.past self.new.state)) (controller S.story self.new.diary.past self.new.state) }
    {
        self.host.set_ios(self.state.ios());
        let is_busy = self.host.is_busy(Work::Settling);
        self.note(Call::Look { is_busy });
        if is_busy { 0xe0 } else { 0xf0 }
    }

    /// A controller with these Capabilities over a host, before any access. Memory is lent at this bus address.
    pub fn new(host: D, capabilities: u32, version: u8, memory: u64, manner: Manner) -> Engine<D, S>
        requires { (D.view host).is_kept ≡ false }
        ensures past { result.diary.past ≡ [] }
        ensures capabilities { result.state.capabilities ≡ capabilities }
        ensures version { result.state.version ≡ version }
        ensures new { IsNew (controller S.story result.diary.past result.state) }
        ensures sound { result.state.is_sound ≡ true }
    {
        Engine {
            host,
            diary: Diary::new(),
            state: State::new(capabilities, version, memory),
            manner,
            exchanges: 0,
            lost: 0,
            moved: 0,
            came: DataIn::Nothing,
            has_rejected: false,
            of: PhantomData,
        }
    }

    /// A read of 32 bits.
    pub fn read32(&mut self, offset: u8) -> u32
        ensures { Reads (controller S.story self.old.diary.past self.old.state) offset result
            (controller S.story self.new.diary.past self.new.state) }
    {
        match offset {
            0x10 => self.state.response[0],
            0x14 => self.state.response[1],
            0x18 => self.state.response[2],
            0x1c => self.state.response[3],
            0x20 => self.state.pop(),
            0x24 => 0x00ff_0000,
            0x30 => self.look(),
            0x34 => self.state.shown,
            0x40 => self.state.capabilities,
            _ => {
                self.break_off();
                0
            }
        }
    }

    /// A write of 32 bits, which is judged.
    pub fn write32(&mut self, offset: u8, value: u32)
        ensures writes { Writes (controller S.story self.old.diary.past self.old.state) offset value
            (controller S.story self.new.diary.past self.new.state) }
        ensures judged { (outcome : Outcome) → self.new.state.is_sound ≡ true
            → may_write (shown outcome self.old.state) offset value ≡ true }
    {
        if !self.state.may_write(offset, value) {
            self.break_off();
            return;
        }
        if !self.state.write(offset, value) {
            self.break_off();
        }
    }

    /// A read of 8 bits.
    pub fn read8(&mut self, offset: u8) -> u8
        ensures { Reads8 (controller S.story self.old.diary.past self.old.state) offset result
            (controller S.story self.new.diary.past self.new.state) }
    {
        match offset {
            0x25 => self.see_buffer(),
            0x26 => self.poll(),
            0x2c => self.state.see_clock(),
            0x2f => self.state.see_reset(),
            0xfe => self.state.version,
            _ => {
                self.break_off();
                0
            }
        }
    }

    /// A write of 8 bits, which is judged.
    pub fn write8(&mut self, offset: u8, value: u8)
        ensures writes { Writes8 (controller S.story self.old.diary.past self.old.state) offset value
            (controller S.story self.new.diary.past self.new.state) }
        ensures judged { (outcome : Outcome) → self.new.state.is_sound ≡ true
            → may_write8 (shown outcome self.old.state) offset value ≡ true }
    {
        if !self.state.may_write8(offset, value) {
            self.break_off();
            return;
        }
        match offset {
            0x28 => self.state.set_control(value),
            0x29 => self.state.set_power(value),
            _ => self.reset(value),
        }
    }

    /// So many microseconds pass.
    pub fn pause(&mut self, micros: u32)
        ensures { Passes (controller S.story self.old.diary.past self.old.state) micros
            (controller S.story self.new.diary.past self.new.state) }
    {
        if !self.state.pass(micros) {
            self.break_off();
        }
    }
}
