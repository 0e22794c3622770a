ghost use Rattle.std.specs.Prelude.{◌≡◌};
ghost use Rattle.nbd_messages.specs.Options.{option_in, option_by};

use crate::greetings::OPTION_MAGIC;
use byteorder::{BigEndian, ByteOrder};

/// An option of the negotiation that is served.
#[derive(Clone, Copy, Debug, PartialEq, Eq)]
pub enum OptionKind {
    /// An export by its name, without a reply where it isn't known; then requests follow.
    ExportName,
    /// The end of the session.
    Abort,
    /// The names of all exports.
    List,
    /// What an export is like.
    Info,
    /// The same, and then requests follow.
    Go,
}

impl OptionKind {
    /// The option with this number, if there is one that is served.
    pub fn by(number: u32) -> Option<OptionKind>
        ensures { result ≡ option_by number }
    {
        match number {
            1 => Some(OptionKind::ExportName),
            2 => Some(OptionKind::Abort),
            3 => Some(OptionKind::List),
            6 => Some(OptionKind::Info),
            7 => Some(OptionKind::Go),
            _ => None,
        }
    }
}

/// The header of an option. Its data stand after it.
#[derive(Clone, Copy, Debug, PartialEq, Eq)]
pub struct OptionHeader {
    /// Its number, which its replies repeat.
    pub number: u32,
    /// How many bytes of data it has.
    pub length: u32,
}

/// The header in these bytes, or `None` where they don't begin as one.
pub fn option_in(bytes: &[u8; 16]) -> Option<OptionHeader>
    ensures { result ≡ option_in bytes.now }
{
    if BigEndian::read_u64(bytes) != OPTION_MAGIC {
        return None;
    }
    Some(OptionHeader {
        number: BigEndian::read_u32(&bytes[8..]),
        length: BigEndian::read_u32(&bytes[12..]),
    })
}
