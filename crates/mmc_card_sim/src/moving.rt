// The blocks of a command, moved with it by one call: as exchanges of their own, one after the other, where no fault is planned.
ghost use Rattle.std.specs.Prelude.{◌≡◌, IsErr, Some, [], false, length, true, ℕ};
ghost use Rattle.mmc_bus.specs.Heard.{response_heard};
ghost use Rattle.mmc_bus.specs.Together.{BlockRead, BlockWritten, NotBusy, ReadOn, RestsAfter, WrittenOn};
ghost use Rattle.mmc_card.specs.declared.exchange.DataIn.TheVariants.{Good};
ghost use Rattle.mmc_card.specs.declared.exchange.DataOut.TheVariants.{Accepted};
ghost use Rattle.mmc_frame.specs.Frame.{command_in};
ghost use Rattle.mmc_card_sim.specs.SimView.{sim_bus_view};

use crate::sim_card::SimCard;
use bitflags::Flags;
use mmc_bus::{Blocks, BlocksMut, Moved};
use mmc_card::{DataIn, DataOut, Reply};
use mmc_frame::{Kind, errors, read_command, read_r1};

// Whether a status shows no error of either kind of card.
fn shows_no_error(status: u32) -> bool {
    errors(Kind::Sd, status).is_empty() && errors(Kind::Mmc, status).is_empty()
}

/// Whether the response to a command was heard, and shows no error: only then are its blocks moved.
pub fn is_answered(frame: &[u8; 6], reply: Reply) -> bool
    ensures { result ≡ true → (command : ℕ × ℕ) → command_in frame.now ≡ Some command → IsErr (response_heard command.0 reply) → ⊥ }
{
    match (read_command(frame), reply) {
        (Some((index, _)), Reply::Short(response)) => match read_r1(&response, index) {
            Ok(status) => shows_no_error(status),
            Err(_) => false,
        },
        _ => false,
    }
}

fn is_good(got: DataIn) -> bool
    ensures yes { result ≡ true → got ≡ Good }
    ensures no { result ≡ false → got ≡ Good → ⊥ }
{
    match got {
        DataIn::Good => true,
        DataIn::Bad | DataIn::Nothing => false,
    }
}

fn is_accepted(got: DataOut) -> bool
    ensures yes { result ≡ true → got ≡ Accepted }
    ensures no { result ≡ false → got ≡ Accepted → ⊥ }
{
    match got {
        DataOut::Accepted => true,
        DataOut::Rejected | DataOut::Nothing => false,
    }
}

impl SimCard {
    // Before the next block that is written after so many, but the first, polls the card where it is sure to say no.
    fn is_ready_after(&mut self, done: usize) -> bool
        ensures rested { result ≡ true → RestsAfter NotBusy done (sim_bus_view self.old) (sim_bus_view self.new) }
        ensures none { result ≡ false → self.new ≡ self.old }
        ensures plan { self.new.plan ≡ self.old.plan }
        ensures faults { self.old.plan ≡ [] → self.new.faults ≡ self.old.faults }
    {
        if done == 0 {
            return true;
        }
        if !self.is_smooth() {
            return false;
        }
        !self.busy()
    }

    /// Reads blocks into their places until one isn't good.
    pub fn read_blocks<D: BlocksMut>(&mut self, blocks: &mut D) -> Moved<DataIn>
        ensures read { ReadOn BlockRead D.blocks D.with (sim_bus_view self.old) blocks.old result (sim_bus_view self.new) blocks.new }
        ensures plan { self.new.plan ≡ self.old.plan }
        ensures faults { self.old.plan ≡ [] → self.new.faults ≡ self.old.faults }
    {
        let count = blocks.len();
        for done in 0..count {
            let got = self.read_data(blocks.block_mut(done));
            if !is_good(got) {
                return Moved::Failed(got);
            }
        }
        Moved::Good(count)
    }

    /// Writes blocks until one isn't accepted, or the card may be busy after one.
    pub fn write_blocks<D: Blocks>(&mut self, blocks: &D) -> Moved<DataOut>
        ensures written { WrittenOn BlockWritten NotBusy (D.blocks blocks.now) (sim_bus_view self.old) result (sim_bus_view self.new) }
        ensures plan { self.new.plan ≡ self.old.plan }
        ensures faults { self.old.plan ≡ [] → self.new.faults ≡ self.old.faults }
    {
        let count = blocks.len();
        for done in 0..count {
            if !self.is_ready_after(done) {
                return Moved::Good(done);
            }
            let got = self.write_data(blocks.block(done));
            if !is_accepted(got) {
                return Moved::Failed(got);
            }
        }
        Moved::Good(count)
    }
}
