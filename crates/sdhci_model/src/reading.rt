// Blocks that are read.
ghost use Rattle.std.specs.Prelude.{◌≡◌, ◌≤◌, IfNone, IfSome, drop, false, length};
ghost use Rattle.mmc_frame.specs.Field.{field};
ghost use Rattle.mmc_host.specs.HostStates.{is_good, less_one};
ghost use Rattle.mmc_sdhci.specs.DataLooks.{came, is_empty};
ghost use Rattle.sdhci_model.specs.Moves.{AwaitsGood, Comes, PopsFrom, TellsGood};

use crate::state::State;
use arrayvec::ArrayVec;
use mmc_card::DataIn;
use mmc_sdhci::{Following, following_of};

/// Whether it is a good block.
pub fn is_good(got: DataIn) -> bool
    ensures { result ≡ is_good got }
{
    match got {
        DataIn::Good => true,
        DataIn::Bad | DataIn::Nothing => false,
    }
}

/// The interrupts that tell that no good block came: Data CRC Error or Data Timeout Error, and Error Interrupt.
pub fn bits_of_read(got: DataIn) -> u32
    ensures error { field 15 15 result ≡ 1 }
    ensures came { is_good got ≡ false → came result ≡ got }
{
    match got {
        DataIn::Bad => 0x0020_8000,
        DataIn::Good | DataIn::Nothing => 0x0010_8000,
    }
}

// A block of these bytes.
fn block_of(bytes: &[u8]) -> ArrayVec<u8, 512>
    requires { length bytes.now ≤ 512 }
    ensures { result.items ≡ bytes.now }
{
    let mut block = ArrayVec::new();
    let _ = block.try_extend_from_slice(bytes);
    block
}

impl State {
    // The block in the buffer was taken out of it.
    fn is_taken(&self) -> bool
        ensures { result ≡ is_empty (drop self.now.taken self.now.block.items) }
    {
        self.taken >= self.block.len()
    }

    /// The interrupts that tell that the block that was taken is good: Transfer Complete after the last one, and Buffer Read Ready
    /// after another; `None` where it isn't time.
    pub fn good_bits(&self) -> Option<u32>
        ensures good { IfSome result (λ bits. TellsGood self.now bits) }
        ensures none { IfNone result (AwaitsGood self.now) }
    {
        if !self.is_taken() {
            return None;
        }
        match following_of(self.transfer) {
            Following::End => Some(2),
            Following::Another if !self.is_ready => None,
            Following::Another => Some(0x20),
        }
    }

    /// A copy of the block that came.
    pub fn copied(&self) -> ArrayVec<u8, 512>
        ensures { result.items ≡ self.now.block.items }
    {
        block_of(self.block.as_slice())
    }

    /// A block has come, with Buffer Read Ready.
    pub fn come(&mut self, bytes: &[u8])
        requires { length bytes.now ≤ 512 }
        ensures { Comes self.old bytes.now self.new }
    {
        self.block = block_of(bytes);
        self.taken = 0;
        self.is_unjudged = true;
        self.is_ready = false;
        self.status = 0x20;
    }

    /// The block that was taken is good.
    pub fn judge(&mut self, bits: u32)
        ensures { self.new ≡ record self.old {
          status = bits;
          transfer = less_one self.old.transfer;
          is_ready = false;
          is_unjudged = false;
        } }
    {
        self.status = bits;
        self.transfer = self.transfer.less_one();
        self.is_ready = false;
        self.is_unjudged = false;
    }

    // How many bytes of the block that came are left.
    fn left(&self) -> usize
        ensures { result ≡ length (drop self.now.taken self.now.block.items) }
    {
        self.block.len().saturating_sub(self.taken)
    }

    /// A read of Buffer Data Port: the next four bytes of the block that came.
    pub fn pop(&mut self) -> u32
        ensures pops { PopsFrom self.old result self.new }
        ensures sound { self.new.is_sound ≡ self.old.is_sound }
    {
        if self.left() < 4 {
            return 0;
        }
        let at = self.taken;
        let bytes = self.block.as_slice();
        let word = [bytes[at], bytes[at + 1], bytes[at + 2], bytes[at + 3]];
        self.taken = at + 4;
        u32::from_le_bytes(word)
    }
}
