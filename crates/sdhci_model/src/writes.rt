// Writes of 32 bits, by their offsets.
ghost use Rattle.std.specs.Prelude.{◌≡◌, true};
ghost use Rattle.sdhci_model.specs.Moves.{WritesTo};

use crate::state::State;

impl State {
    // Bits of Normal and Error Interrupt Status are cleared.
    fn clear(&mut self, value: u32)
        ensures { WritesTo self.old 0x30 value self.new }
    {
        self.status &= 0xffff_ffff - value;
    }

    /// A write of 32 bits. It tells whether there is such a register, with room for it.
    pub fn write(&mut self, offset: u8, value: u32) -> bool
        ensures { result ≡ true → WritesTo self.old offset value self.new }
    {
        match offset {
            0x00 => self.set_sdma_address(value),
            0x04 => self.set_sizes(value),
            0x08 => self.set_argument(value),
            0x0c => self.begin(value),
            0x20 => return self.put(value),
            0x2c => self.set_clock(value),
            0x30 => self.clear(value),
            0x34 => self.show(value),
            0x38 => (),
            0x58 => self.set_address(value),
            0x5c => self.set_upper(value),
            _ => return false,
        }
        true
    }
}
