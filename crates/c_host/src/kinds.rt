// The kinds of card that a library serves: a small one is built without one of them.
ghost use Rattle.std.specs.Prelude.{◌≡◌};
ghost use Rattle.c_host.specs.Kinds.{is_in_vain, serves};

use mmc_frame::Kind;

/// The kinds of card that are served.
#[derive(Clone, Copy, Debug, PartialEq, Eq)]
pub struct Kinds {
    /// SD cards.
    pub sd: bool,
    /// eMMC devices.
    pub mmc: bool,
}

impl Kinds {
    /// Whether cards of this kind are served.
    pub fn serve(self, kind: Kind) -> bool
        ensures { result ≡ serves self kind }
    {
        match kind {
            Kind::Sd => self.sd,
            Kind::Mmc => self.mmc,
        }
    }

    /// Whether a command with this index asks in vain: CMD1 asks an eMMC device whether it is ready, ACMD41 an SD card (JESD84-B51,
    /// section 6.4.2; SD Physical Layer 6.00, section 4.2.3). Whoever isn't asked never gets ready.
    pub fn ask_in_vain(self, index: u8) -> bool
        ensures { result ≡ is_in_vain self index }
    {
        match index {
            1 => !self.mmc,
            41 => !self.sd,
            _ => false,
        }
    }
}
