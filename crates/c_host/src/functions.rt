// A host that C implements by functions, which are told of decoded commands.
ghost use Rattle.std.specs.Prelude.{◌≡◌, length};
ghost use Rattle.mmc_host.specs.HostStates.{micros_of};
ghost use Rattle.mmc_host.specs.Hosts.{Looks, ReadsBlock, Sends, SetsIos, Waits, WritesBlock, unkept_host};
ghost use Rattle.mmc_host.specs.Together.{ReadsWith, WritesWith};
ghost use Rattle.mmc_card.specs.declared.response.Response.TheVariants.{R1};
ghost use Rattle.c_host.specs.Kinds.{TellsWithin};
ghost use Rattle.c_host.specs.Powers.{TellsPower};
ghost use Rattle.c_host.specs.Told.{EndsWithIos, TellsIos, TellsLook, TellsPause, TellsRead, TellsReadWith, TellsWrite, TellsWriteWith};

use crate::kinds::Kinds;
use crate::stream::Stream;
use mmc_bus::{Blocks, BlocksMut, Moved};
use mmc_card::{DataIn, DataOut, Lines};
use mmc_host::{Heard, Host, HostCommand, Ios, ResponseFault, Work};

/// Functions of C that are told of decoded commands.
#[derive(Drop)]
pub struct CFunctions {
    /// Where they are told.
    pub stream: Stream,
    /// The most lines and the fastest timing.
    pub limits: Lines,
    /// Whether they switch the card's power.
    pub has_power: bool,
    /// The kinds of card that are served.
    pub kinds: Kinds,
}

impl CFunctions {
    /// Switches the card's power, where they can.
    pub fn set_power(&mut self, is_on: bool)
        ensures told { TellsPower self.old.has_power is_on self.old.stream.diary.past self.new.stream.diary.past }
        ensures same { self.new ≡ record self.old { stream = self.new.stream } }
    {
        if self.has_power {
            self.stream.set_power(is_on);
        }
    }
}

impl Host for CFunctions {
    // The proofs know no card behind C.
    ghost view = { λ _. unkept_host };

    // C was told so last.
    ghost has_told = { λ functions ios. EndsWithIos ios functions.stream.diary.past };

    fn limits(&self) -> Lines
        ensures { result ≡ self.now.limits }
    {
        self.limits
    }

    fn set_ios(&mut self, ios: Ios)
        ensures sets { SetsIos unkept_host ios unkept_host }
        ensures told { EndsWithIos ios self.new.stream.diary.past }
        ensures speaks { TellsIos ios self.old.stream.diary.past self.new.stream.diary.past }
        ensures same { self.new ≡ record self.old { stream = self.new.stream } }
    {
        self.stream.set_ios(ios);
    }

    // A command that asks in vain isn't told.
    fn send(&mut self, command: HostCommand) -> Result<Heard, ResponseFault>
        ensures sends { Sends unkept_host command result unkept_host }
        ensures speaks { TellsWithin self.old.kinds command result self.old.stream.diary.past self.new.stream.diary.past }
        ensures same { self.new ≡ record self.old { stream = self.new.stream } }
    {
        if self.kinds.ask_in_vain(command.index) {
            return Err(ResponseFault::Timeout);
        }
        self.stream.send(command)
    }

    fn read_with<D: BlocksMut>(
        &mut self,
        command: HostCommand,
        blocks: &mut D,
    ) -> (Result<Heard, ResponseFault>, Moved<DataIn>)
        ensures reads { ReadsWith D.blocks D.with unkept_host command blocks.old result.0 result.1 blocks.new unkept_host }
        ensures speaks { TellsReadWith command (D.blocks blocks.new) result.0 result.1 self.old.stream.diary.past
            self.new.stream.diary.past }
        ensures same { self.new ≡ record self.old { stream = self.new.stream } }
    {
        self.stream.read_with(command, blocks)
    }

    fn write_with<D: Blocks>(
        &mut self,
        command: HostCommand,
        blocks: &D,
    ) -> (Result<Heard, ResponseFault>, Moved<DataOut>)
        requires response { command.response ≡ R1 }
        ensures writes { WritesWith unkept_host command (D.blocks blocks.now) result.0 result.1 unkept_host }
        ensures speaks { TellsWriteWith command (length (D.blocks blocks.now)) result.0 result.1 self.old.stream.diary.past
            self.new.stream.diary.past }
        ensures same { self.new ≡ record self.old { stream = self.new.stream } }
    {
        self.stream.write_with(command, blocks)
    }

    fn read_block(&mut self, block: &mut [u8]) -> DataIn
        ensures reads { ReadsBlock unkept_host (length block.old) result block.new unkept_host }
        ensures speaks { TellsRead (length block.old) result block.new self.old.stream.diary.past self.new.stream.diary.past }
        ensures same { self.new ≡ record self.old { stream = self.new.stream } }
    {
        self.stream.read_block(block)
    }

    fn write_block(&mut self, block: &[u8; 512]) -> DataOut
        ensures writes { WritesBlock unkept_host block.now result unkept_host }
        ensures speaks { TellsWrite block.now result self.old.stream.diary.past self.new.stream.diary.past }
        ensures same { self.new ≡ record self.old { stream = self.new.stream } }
    {
        self.stream.write_block(block)
    }

    fn is_busy(&mut self, work: Work) -> bool
        ensures looks { Looks unkept_host result unkept_host }
        ensures speaks { TellsLook (micros_of work) result self.old.stream.diary.past self.new.stream.diary.past }
        ensures same { self.new ≡ record self.old { stream = self.new.stream } }
    {
        self.stream.is_busy(work.micros())
    }

    fn pause(&mut self, micros: u32)
        ensures waits { Waits unkept_host micros unkept_host }
        ensures speaks { TellsPause micros self.old.stream.diary.past self.new.stream.diary.past }
        ensures same { self.new ≡ record self.old { stream = self.new.stream } }
    {
        self.stream.pause(micros);
    }
}
