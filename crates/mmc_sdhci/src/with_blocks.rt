// A command with the blocks after it, by DMA or through the Buffer Data Port.
ghost use Rattle.std.specs.Prelude.{◌*◌, ◌+◌, ◌<◌, ◌≡◌, ◌^◌, IfOk, IfSome, IsNone, is_ok, length, true};
ghost use Rattle.mmc_host.specs.HostStates.{AreMovable, IsFree, IsTold, sent};
ghost use Rattle.mmc_host.specs.Hosts.{IsSlowEnough, Where};
ghost use Rattle.mmc_host.specs.Together.{AreAhead, AreAfter, ReadsWith, WritesWith};
ghost use Rattle.mmc_host.specs.declared.data.Data.TheVariants as After;
ghost use Rattle.mmc_card.specs.declared.response.Response.TheVariants.{R1};
ghost use Rattle.mmc_sdhci.specs.Accesses.{Stays};
ghost use Rattle.mmc_sdhci.specs.Commands.{IsWord};
ghost use Rattle.mmc_sdhci.specs.Driver.{StaysHost, host_over, told_so};
ghost use Rattle.mmc_sdhci.specs.Finishing.{IsLent, IsLentFor, MovesWith, ended};
ghost use Rattle.mmc_sdhci.specs.Moving.{WhereKept};

use crate::command::{is_ok, is_word, send};
use crate::data::{is_accepted, is_good};
use crate::dma::has_dma;
use crate::mover::Mover;
use crate::moving::{finish, prepare, take_places};
use crate::registers::Registers;
use crate::sdhci::Sdhci;
use mmc_bus::{Blocks, BlocksMut, Moved};
use mmc_card::{DataIn, DataOut};
use mmc_host::{Data, Heard, Host, HostCommand, ResponseFault};

// Whether just so many blocks of 512 bytes are read.
fn reads_whole(transfer: Data, count: usize) -> bool
    ensures { result ≡ true → transfer ≡ After.Read 512 count }
{
    match transfer {
        Data::Read { length, blocks } => length == 512 && usize::from(blocks) == count,
        Data::Nothing | Data::Write { .. } => false,
    }
}

// Whether just so many blocks are written.
fn writes_whole(transfer: Data, count: usize) -> bool
    ensures { result ≡ true → transfer ≡ After.Write count }
{
    match transfer {
        Data::Write { blocks } => usize::from(blocks) == count,
        Data::Nothing | Data::Read { .. } => false,
    }
}

impl<R: Registers> Sdhci<R> {
    // Sends a command and lets the controller move its blocks, in memory that is lent from this bus address on. All data is over then.
    // `None` where it can't, and then nothing has happened.
    fn move_blocks(
        &mut self,
        command: HostCommand,
        start: u64,
        count: usize,
    ) -> Option<(Result<Heard, ResponseFault>, Moved<DataIn>)>
        requires index { command.index < 64 }
        requires movable { AreMovable command.transfer }
        requires free { WhereKept (R.view self.old.registers) (IsFree self.old.state.transfer command) }
        requires lent { IsLent (R.view self.old.registers) start (512 * count) }
        requires serves { IsLentFor (R.view self.old.registers) command.transfer }
        requires few { count < 0x10000 }
        requires inside { start + 512 * count < 2 ^ 64 }
        ensures moves { IfSome result (λ done. MovesWith (R.view self.old.registers) command done.0 count done.1
            (R.view self.new.registers)) }
        ensures word { IfSome result (λ done. command.response ≡ R1 → IfOk done.0 IsWord) }
        ensures state { IfSome result (λ done. self.new.state ≡ ended (sent self.old.state command (is_ok done.0))) }
        ensures same { IsNone result → Stays (R.view self.old.registers) (R.view self.new.registers)
            × (self.new.state ≡ self.old.state) }
        ensures told { self.new.told ≡ self.old.told }
        ensures limits { self.new.limits ≡ self.old.limits }
    {
        let size = 512 * count as u32;
        if !self.is_set {
            return None;
        }
        if !prepare(
            &mut self.registers,
            self.state.ios.lines(),
            self.capabilities,
            start,
            size,
        ) {
            return None;
        }
        let heard = send(
            &mut self.registers,
            self.state.transfer,
            command,
            Mover::Controller,
        );
        self.state = self.state.sent(command, is_ok(heard));
        if !is_ok(heard) {
            return Some((heard, Moved::Good(0)));
        }
        let failed = finish(&mut self.registers);
        self.state.transfer = Data::Nothing;
        match failed {
            None => Some((heard, Moved::Good(count))),
            Some(got) => Some((heard, Moved::Failed(got))),
        }
    }

    /// Reads by DMA; `None` where the controller or its port can't, and then nothing has happened.
    pub fn read_by_dma<D: BlocksMut>(
        &mut self,
        command: HostCommand,
        blocks: &mut D,
    ) -> Option<(Result<Heard, ResponseFault>, Moved<DataIn>)>
        requires index { command.index < 64 }
        requires movable { AreMovable command.transfer }
        requires free { Where (host_over (R.view self.old.registers) (told_so self.old.state self.old.told) self.old.limits)
            (IsFree self.old.state.transfer command) }
        ensures same { IsNone result → (blocks.new ≡ blocks.old)
            × StaysHost (host_over (R.view self.old.registers) (told_so self.old.state self.old.told) self.old.limits)
            (host_over (R.view self.new.registers) (told_so self.new.state self.new.told) self.new.limits) }
        ensures reads { IfSome result (λ done. ReadsWith D.blocks D.with
            (host_over (R.view self.old.registers) (told_so self.old.state self.old.told) self.old.limits) command blocks.old done.0 done.1
            blocks.new (host_over (R.view self.new.registers) (told_so self.new.state self.new.told) self.new.limits)) }
    {
        let count = blocks.len();
        if !has_dma(self.capabilities) || !reads_whole(command.transfer, count) {
            return None;
        }
        let start = self.registers.lend_room(count)?;
        let Some(done) = self.move_blocks(command, start, count) else {
            self.registers.take_back();
            return None;
        };
        take_places(&mut self.registers, blocks);
        Some(done)
    }

    /// Writes by DMA; `None` where the controller or its port can't, and then nothing has happened. The controller waits by itself until
    /// the card is no longer busy after a block.
    pub fn write_by_dma<D: Blocks>(
        &mut self,
        command: HostCommand,
        blocks: &D,
    ) -> Option<(Result<Heard, ResponseFault>, Moved<DataOut>)>
        requires index { command.index < 64 }
        requires movable { AreMovable command.transfer }
        requires free { Where (host_over (R.view self.old.registers) (told_so self.old.state self.old.told) self.old.limits)
            (IsFree self.old.state.transfer command) }
        requires response { command.response ≡ R1 }
        ensures same { IsNone result → StaysHost (host_over (R.view self.old.registers) (told_so self.old.state self.old.told) self.old.limits)
            (host_over (R.view self.new.registers) (told_so self.new.state self.new.told) self.new.limits) }
        ensures writes { IfSome result (λ done. WritesWith (host_over (R.view self.old.registers) (told_so self.old.state self.old.told) self.old.limits)
            command (D.blocks blocks.now) done.0 done.1 (host_over (R.view self.new.registers) (told_so self.new.state self.new.told) self.new.limits)) }
    {
        let count = blocks.len();
        if !has_dma(self.capabilities) || !writes_whole(command.transfer, count) {
            return None;
        }
        let start = self.registers.lend_blocks(blocks)?;
        let done = self.move_blocks(command, start, count);
        self.registers.take_back();
        let (heard, moved) = done?;
        match moved {
            Moved::Good(done) => Some((heard, Moved::Good(done))),
            Moved::Failed(_) => Some((heard, Moved::Failed(DataOut::Nothing))),
        }
    }

    /// Reads through the Buffer Data Port: all blocks come with the command, one after the other.
    pub fn read_by_port<D: BlocksMut>(
        &mut self,
        command: HostCommand,
        blocks: &mut D,
    ) -> (Result<Heard, ResponseFault>, Moved<DataIn>)
        requires index { command.index < 64 }
        requires movable { AreMovable command.transfer }
        requires free { Where (host_over (R.view self.old.registers) (told_so self.old.state self.old.told) self.old.limits)
            (IsFree self.old.state.transfer command) }
        requires told { Where (host_over (R.view self.old.registers) (told_so self.old.state self.old.told) self.old.limits)
            (IsTold self.old.state command) }
        requires clock { Where (host_over (R.view self.old.registers) (told_so self.old.state self.old.told) self.old.limits)
            (IsSlowEnough (told_so self.old.state self.old.told) command) }
        requires to_come { AreAfter command.transfer (length (D.blocks blocks.old)) }
        ensures { ReadsWith D.blocks D.with (host_over (R.view self.old.registers) (told_so self.old.state self.old.told) self.old.limits) command
            blocks.old result.0 result.1 blocks.new (host_over (R.view self.new.registers) (told_so self.new.state self.new.told) self.new.limits) }
    {
        let heard = self.send(command);
        if !is_ok(heard) {
            return (heard, Moved::Good(0));
        }
        let count = blocks.len();
        for done in 0..count {
            let got = self.read_block(blocks.block_mut(done));
            if !is_good(got) {
                return (heard, Moved::Failed(got));
            }
        }
        (heard, Moved::Good(count))
    }

    /// Writes the first block through the Buffer Data Port: before each other one the card is polled, which is an exchange of its own.
    pub fn write_by_port<D: Blocks>(
        &mut self,
        command: HostCommand,
        blocks: &D,
    ) -> (Result<Heard, ResponseFault>, Moved<DataOut>)
        requires index { command.index < 64 }
        requires movable { AreMovable command.transfer }
        requires free { Where (host_over (R.view self.old.registers) (told_so self.old.state self.old.told) self.old.limits)
            (IsFree self.old.state.transfer command) }
        requires told { Where (host_over (R.view self.old.registers) (told_so self.old.state self.old.told) self.old.limits)
            (IsTold self.old.state command) }
        requires clock { Where (host_over (R.view self.old.registers) (told_so self.old.state self.old.told) self.old.limits)
            (IsSlowEnough (told_so self.old.state self.old.told) command) }
        requires ahead { AreAhead command.transfer (length (D.blocks blocks.now)) }
        requires response { command.response ≡ R1 }
        ensures { WritesWith (host_over (R.view self.old.registers) (told_so self.old.state self.old.told) self.old.limits) command (D.blocks blocks.now)
            result.0 result.1 (host_over (R.view self.new.registers) (told_so self.new.state self.new.told) self.new.limits) }
    {
        let heard = self.send(command);
        if !is_word(heard) || blocks.len() == 0 {
            return (heard, Moved::Good(0));
        }
        let got = self.write_block(blocks.block(0));
        if !is_accepted(got) {
            return (heard, Moved::Failed(got));
        }
        (heard, Moved::Good(1))
    }
}
