// The trait that a driver of a host controller implements.
ghost use Rattle.std.specs.Prelude.{◌<◌, ◌≡◌, length};
ghost use Rattle.mmc_host.specs.Hosts.{CanBeSet, HostView, IsSlowEnough, IsWithin, Looks, ReadsBlock, Sends};
ghost use Rattle.mmc_host.specs.Hosts.{SetsIos, Waits, Where, WritesBlock};
ghost use Rattle.mmc_host.specs.Together.{AreAhead, AreAfter, ReadsWith, WritesWith};
ghost use Rattle.mmc_card.specs.declared.response.Response.TheVariants.{R1};
ghost use Rattle.mmc_host.specs.HostStates.{AreMovable, IsFree, IsTold, IsToCome, IsToGo, lines_of};
ghost use Rattle.mmc_host.specs.declared.told.Ios.{Ios};

use crate::told::{Heard, HostCommand, Ios, ResponseFault};
use crate::work::Work;
use mmc_bus::{Blocks, BlocksMut, Moved};
use mmc_card::{DataIn, DataOut, Lines};

/// A host controller with one card.
///
/// It is told of each command with its response and its data, as controllers want it, and answers without checks, which it
/// has judged itself. `HostBus` makes a bus of it.
///
/// Contracts see its view: a card, what it was told so far, its limits, how many faults there were, and whether it has been kept
/// so far. While it is kept, each call but `set_ios`, `pause` and `limits` is a step of the card. A driver without a proof has
/// the view `unkept_host`, of which nothing is said and nothing has to be shown.
pub trait Host {
    // What contracts see of a host.
    ghost view: { Self → HostView };

    // Its controller was told these lines, timing and clock last. It is said of any host, kept or not; one that keeps no account of
    // what it has told its controller says `Unit`.
    ghost has_told: { Self → Ios → Type 0 };

    /// The most data lines that are wired, and the fastest timing.
    fn limits(&self) -> Lines
        ensures { Where (view self.now) (result ≡ (view self.now).limits) };

    /// Sets how many data lines are in use, the timing, and the clock, which `Ios::max_clock` tells in hertz. No data is under way.
    fn set_ios(&mut self, ios: Ios)
        requires within { Where (view self.old) (IsWithin (lines_of ios) (view self.old).limits) }
        requires idle { CanBeSet (view self.old) }
        ensures sets { SetsIos (view self.old) ios (view self.new) }
        ensures told { has_told self.new ios };

    /// Sends a command and waits for its response, for 64 clocks at least. Where data is after it, blocks of that length will
    /// be asked for or offered, or the next command ends them. It doesn't wait until the card is no longer busy.
    fn send(&mut self, command: HostCommand) -> Result<Heard, ResponseFault>
        requires index { command.index < 64 }
        requires movable { AreMovable command.transfer }
        requires free { Where (view self.old) (IsFree (view self.old).state.transfer command) }
        requires told { Where (view self.old) (IsTold (view self.old).state command) }
        requires clock { Where (view self.old) (IsSlowEnough (view self.old).state command) }
        ensures { Sends (view self.old) command result (view self.new) };

    /// Sends a command after which blocks of 512 bytes come, as many as there are here at least, and waits for its response as `send`
    /// does. It reads the first of the blocks into their places, from the first on, until one isn't good: as many as the host
    /// moves by the same call, which are none where it says nothing of it. What the places hold is open where a block wasn't good,
    /// which ends the data, and where none was moved. Otherwise the others are read by `read_block`, or the next command ends them.
    fn read_with<D: BlocksMut>(
        &mut self,
        command: HostCommand,
        blocks: &mut D,
    ) -> (Result<Heard, ResponseFault>, Moved<DataIn>)
        requires index { command.index < 64 }
        requires movable { AreMovable command.transfer }
        requires free { Where (view self.old) (IsFree (view self.old).state.transfer command) }
        requires told { Where (view self.old) (IsTold (view self.old).state command) }
        requires clock { Where (view self.old) (IsSlowEnough (view self.old).state command) }
        requires to_come { AreAfter command.transfer (length (D.blocks blocks.old)) }
        ensures { ReadsWith D.blocks D.with (view self.old) command blocks.old result.0 result.1 blocks.new (view self.new) }
    {
        let _ = blocks;
        (self.send(command), Moved::Good(0))
    }

    /// Sends a command after which these blocks go, or more, and waits for its response as `send` does. It writes the first of
    /// them, from the first on, until one isn't accepted: as many as the host moves by the same call, and none where it heard no
    /// response. Before each but the first it waits until the card is no longer busy; where that takes too long it writes no
    /// more. A block that isn't accepted ends the data; otherwise the others are written by `write_block`, or the next command
    /// ends them.
    fn write_with<D: Blocks>(
        &mut self,
        command: HostCommand,
        blocks: &D,
    ) -> (Result<Heard, ResponseFault>, Moved<DataOut>)
        requires index { command.index < 64 }
        requires movable { AreMovable command.transfer }
        requires free { Where (view self.old) (IsFree (view self.old).state.transfer command) }
        requires told { Where (view self.old) (IsTold (view self.old).state command) }
        requires clock { Where (view self.old) (IsSlowEnough (view self.old).state command) }
        requires ahead { AreAhead command.transfer (length (D.blocks blocks.now)) }
        requires response { command.response ≡ R1 }
        ensures { WritesWith (view self.old) command (D.blocks blocks.now) result.0 result.1 (view self.new) }
    {
        let _ = blocks;
        (self.send(command), Moved::Good(0))
    }

    /// Reads the next block of the data after the last command. It waits for 100 ms at least before it answers `Nothing`. A block
    /// that isn't good ends the data.
    fn read_block(&mut self, block: &mut [u8]) -> DataIn
        requires { Where (view self.old) (IsToCome (view self.old).state (length block.old)) }
        ensures { ReadsBlock (view self.old) (length block.old) result block.new (view self.new) };

    /// Writes the next block of the data after the last command, once the card takes one. A block that isn't accepted ends
    /// the data.
    fn write_block(&mut self, block: &[u8; 512]) -> DataOut
        requires { Where (view self.old) (IsToGo (view self.old).state) }
        ensures { WritesBlock (view self.old) block.now result (view self.new) };

    /// Whether the card is still busy after `work.micros()` microseconds, at what it was set to last. The answer comes at once where
    /// it isn't.
    fn is_busy(&mut self, work: Work) -> bool
        requires { Where (view self.old) (work ≡ (view self.old).state.work) }
        ensures { Looks (view self.old) result (view self.new) };

    /// Waits for so many microseconds.
    fn pause(&mut self, micros: u32)
        ensures { Waits (view self.old) micros (view self.new) };
}
