// The data after commands.
ghost use Rattle.std.specs.Prelude.{◌≡◌, ◌↔◌, IsTrue};
ghost use Rattle.mmc_host.specs.Together.{AreAhead, AreAfter};
ghost use Rattle.mmc_host.specs.HostStates.{less_by, less_one};
ghost use Rattle.mmc_host.specs.Table.{blocks_of, data_of};

use mmc_card::Command;

/// The data after a command, over the data lines.
#[derive(Clone, Copy, Debug, PartialEq, Eq)]
pub enum Data {
    /// None.
    Nothing,
    /// The card sends blocks of this many bytes.
    Read {
        /// The length of each block in bytes: 8, 64 or 512.
        length: u16,
        /// How many are read: a card that wasn't told sends more until it is stopped.
        blocks: u16,
    },
    /// The host sends blocks of 512 bytes.
    Write {
        /// How many it sends.
        blocks: u16,
    },
}

impl Data {
    /// Whether so many blocks of 512 bytes are to come, or more.
    pub fn are_after(self, count: usize) -> bool
        ensures { IsTrue result ↔ AreAfter self count }
    {
        match self {
            Data::Read { length, blocks } => length == 512 && count <= blocks as usize,
            Data::Nothing | Data::Write { .. } => false,
        }
    }

    /// Whether so many blocks are to go, or more.
    pub fn are_ahead(self, count: usize) -> bool
        ensures { IsTrue result ↔ AreAhead self count }
    {
        match self {
            Data::Write { blocks } => count <= blocks as usize,
            Data::Nothing | Data::Read { .. } => false,
        }
    }

    /// What is left of it after one block.
    pub fn less_one(self) -> Data
        ensures { result ≡ less_one self }
    {
        match self {
            Data::Read { length, blocks } if blocks > 1 => Data::Read {
                length,
                blocks: blocks - 1,
            },
            Data::Write { blocks } if blocks > 1 => Data::Write { blocks: blocks - 1 },
            Data::Nothing | Data::Read { .. } | Data::Write { .. } => Data::Nothing,
        }
    }

    /// What is left of it after so many blocks.
    pub fn less_by(self, count: usize) -> Data
        ensures { result ≡ less_by count self }
    {
        if count == 0 {
            return self;
        }
        match self {
            Data::Nothing => self,
            Data::Read { length, blocks } if count < blocks as usize => Data::Read {
                length,
                blocks: blocks - count as u16,
            },
            Data::Read { .. } => Data::Nothing,
            Data::Write { blocks } if count < blocks as usize => Data::Write {
                blocks: blocks - count as u16,
            },
            Data::Write { .. } => Data::Nothing,
        }
    }
}

// How many blocks a transfer of several has: as many as CMD23 has preset, or where it has preset none, as many as will be moved.
fn blocks_of(count: u16, moved: u16) -> u16
    ensures { result ≡ blocks_of count moved }
{
    match count {
        0 => moved,
        count => count,
    }
}

/// The data after each command, with the count that CMD23 has preset for it, 0 where none is, and how many blocks will be moved
/// where the card isn't told (SD Physical Layer 6.00, sections 4.3.3, 4.3.4, 4.3.10 and 4.7.4; JESD84-B51, sections 6.6.7, 6.6.8
/// and 6.10.4).
pub fn data_of(command: Command, count: u16, moved: u16) -> Data
    ensures { result ≡ data_of command count moved }
{
    match command {
        Command::SendScr => Data::Read {
            length: 8,
            blocks: 1,
        },
        Command::SwitchFunc => Data::Read {
            length: 64,
            blocks: 1,
        },
        Command::SendExtCsd | Command::ReadSingleBlock => Data::Read {
            length: 512,
            blocks: 1,
        },
        Command::ReadMultipleBlock => Data::Read {
            length: 512,
            blocks: blocks_of(count, moved),
        },
        Command::WriteBlock => Data::Write { blocks: 1 },
        Command::WriteMultipleBlock => Data::Write {
            blocks: blocks_of(count, moved),
        },
        _ => Data::Nothing,
    }
}
