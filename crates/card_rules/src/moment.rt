// What an exchange is, before it is made.
ghost use Rattle.std.specs.Prelude.{◌≡◌};
ghost use Rattle.card_rules.specs.Moments.{place_after, sector_of};

use mmc_card_sim::CardSpec;
use mmc_frame::Addressing;

/// An exchange that is about to be made.
#[derive(Clone, Copy, Debug, PartialEq, Eq)]
pub enum Moment {
    /// A command with this index, 0 to 63.
    Command(u8),
    /// A block is read: of this sector, where it is a sector's.
    Read(Option<u32>),
    /// A block is written: of this sector, where it is a sector's.
    Write(Option<u32>),
    /// The host asks whether the card is busy.
    Poll,
}

/// Which sector the next block is, by the commands that went to a card.
#[derive(Clone, Copy, Debug, PartialEq, Eq)]
pub struct Place {
    /// How its commands count.
    pub addressing: Addressing,
    /// The sector of the next block, after CMD17, CMD18, CMD24 or CMD25 until another command.
    pub next: Option<u32>,
}

/// How the commands of a card count.
pub fn addressing_of(spec: &CardSpec) -> Addressing {
    if spec.registers.has_sector_addresses() {
        Addressing::Sectors
    } else {
        Addressing::Bytes
    }
}

// The sector that an argument names.
fn sector_of(addressing: Addressing, argument: u32) -> u32
    ensures { result ≡ sector_of addressing argument }
{
    match addressing {
        Addressing::Sectors => argument,
        Addressing::Bytes => argument / 512,
    }
}

impl Place {
    /// No block is to come.
    pub fn new(addressing: Addressing) -> Place {
        Place {
            addressing,
            next: None,
        }
    }

    /// After a command with this index and argument.
    pub fn after_command(self, index: u8, argument: u32) -> Place
        ensures { result ≡ place_after self index argument }
    {
        let next = match index {
            17 | 18 | 24 | 25 => Some(sector_of(self.addressing, argument)),
            _ => None,
        };
        Place { next, ..self }
    }

    /// After a block.
    pub fn after_block(self) -> Place {
        Place {
            next: self.next.and_then(|sector| sector.checked_add(1)),
            ..self
        }
    }
}
