ghost use Rattle.std.specs.Prelude.{◌≡◌};
ghost use Rattle.nbd_messages.specs.Requests.{request_in};

use crate::command::Command;
use byteorder::{BigEndian, ByteOrder};

// The first four bytes of a request.
const REQUEST_MAGIC: u32 = 0x2560_9513;

/// The header of a request. The data of a write stand after it.
#[derive(Clone, Copy, Debug, PartialEq, Eq)]
pub struct RequestHeader {
    /// Flags of the command.
    pub flags: u16,
    /// What is asked for, or `None` where that isn't known.
    pub command: Option<Command>,
    /// Under which the reply goes out.
    pub cookie: u64,
    /// The first byte in the export.
    pub offset: u64,
    /// How many bytes.
    pub length: u32,
}

/// The header in these bytes, or `None` where they don't begin as one.
pub fn request_in(bytes: &[u8; 28]) -> Option<RequestHeader>
    ensures { result ≡ request_in bytes.now }
{
    if BigEndian::read_u32(bytes) != REQUEST_MAGIC {
        return None;
    }
    Some(RequestHeader {
        flags: BigEndian::read_u16(&bytes[4..]),
        command: Command::by(BigEndian::read_u16(&bytes[6..])),
        cookie: BigEndian::read_u64(&bytes[8..]),
        offset: BigEndian::read_u64(&bytes[16..]),
        length: BigEndian::read_u32(&bytes[24..]),
    })
}
