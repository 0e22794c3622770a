// The switch status.
ghost use Rattle.std.specs.Prelude.{List, ℕ};

use std::marker::Model;

/// The switch status of an SD card, its answer to CMD6 (SD Physical Layer 6.00, section 4.3.10.4). Contracts see it as
/// its 64 bytes.
#[derive(Clone, Copy, Debug, PartialEq, Eq)]
pub struct SwitchStatus {
    block: [u8; 64],
}

impl Model for SwitchStatus {
    ghost Value = { List ℕ };

    ghost view = { λ status. status.block };

    ghost inverse = { λ bytes. record { block = bytes } };
}

impl SwitchStatus {
    ghost use Rattle.std.specs.Prelude.{◌≡◌, ◌↔◌, IsTrue};
    ghost use Rattle.mmc_regs.specs.SwitchStatus.{access_mode_selected, high_speed_support};

    /// The switch status in these 64 bytes.
    pub fn new(block: &[u8; 64]) -> Self
        ensures { result ≡ block.now }
    {
        SwitchStatus { block: *block }
    }

    /// Whether the card supports high speed, bit 1 of byte 13.
    pub fn supports_high_speed(&self) -> bool
        ensures { IsTrue result ↔ (high_speed_support self.now ≡ 1) }
    {
        self.block[13] / 2 % 2 == 1
    }

    /// Whether high speed is selected: the low four bits of byte 16 are 1.
    pub fn is_high_speed(&self) -> bool
        ensures { IsTrue result ↔ (access_mode_selected self.now ≡ 1) }
    {
        self.block[16] % 16 == 1
    }
}
