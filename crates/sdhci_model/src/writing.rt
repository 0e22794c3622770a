// Blocks that are written.
ghost use Rattle.std.specs.Prelude.{◌≡◌, IfNone, IfSome, length, true};
ghost use Rattle.mmc_frame.specs.Field.{field};
ghost use Rattle.mmc_host.specs.HostStates.{is_accepted};
ghost use Rattle.sdhci_model.specs.Moves.{AwaitsGone, Goes, TellsGone, WritesTo};

use crate::state::State;
use arrayvec::ArrayVec;
use mmc_card::DataOut;
use mmc_sdhci::{Following, following_of};

/// Whether the block was accepted.
pub fn is_accepted(got: DataOut) -> bool
    ensures { result ≡ is_accepted got }
{
    match got {
        DataOut::Accepted => true,
        DataOut::Rejected | DataOut::Nothing => false,
    }
}

/// The interrupts that tell that a block was lost: Data CRC Error, also of the card's status, or Data Timeout Error, and Error Interrupt.
pub fn bits_of_write(got: DataOut) -> u32
    ensures { field 15 15 result ≡ 1 }
{
    match got {
        DataOut::Rejected => 0x0020_8000,
        DataOut::Accepted | DataOut::Nothing => 0x0010_8000,
    }
}

impl State {
    /// A write to Buffer Data Port: four bytes more. It tells whether there was room for them.
    pub fn put(&mut self, value: u32) -> bool
        ensures { result ≡ true → WritesTo self.old 0x20 value self.new }
    {
        if self.outgoing.len() + 4 > 512 {
            return false;
        }
        let [a, b, c, d] = value.to_le_bytes();
        self.outgoing.push(a);
        self.outgoing.push(b);
        self.outgoing.push(c);
        self.outgoing.push(d);
        self.is_ready = false;
        true
    }

    /// The block in the buffer, if all of it is there.
    pub fn whole(&self) -> Option<[u8; 512]>
        ensures whole { IfSome result (λ block. (block ≡ self.now.outgoing.items) × (length self.now.outgoing.items ≡ 512)) }
        ensures none { IfNone result (AwaitsGone self.now) }
    {
        if self.outgoing.len() != 512 {
            return None;
        }
        let mut block = [0; 512];
        block.copy_from_slice(self.outgoing.as_slice());
        Some(block)
    }

    /// The interrupts that tell that the block in the buffer has gone: Transfer Complete after the last one, and Buffer Write Ready
    /// after another; `None` where it isn't time.
    pub fn gone_bits(&self) -> Option<u32>
        ensures gone { IfSome result (λ bits. TellsGone self.now bits) }
        ensures none { IfNone result (AwaitsGone self.now) }
    {
        if self.outgoing.len() != 512 {
            return None;
        }
        match following_of(self.transfer) {
            Following::End => Some(2),
            Following::Another if !self.is_ready => None,
            Following::Another => Some(0x10),
        }
    }

    /// The block in the buffer has gone.
    pub fn go(&mut self, bits: u32)
        ensures { Goes self.old bits self.new }
    {
        self.status = bits;
        self.transfer = self.transfer.less_one();
        self.is_ready = false;
        self.outgoing = ArrayVec::new();
    }
}
