ghost use Rattle.std.specs.Prelude.{◌≡◌};
ghost use Rattle.byteorder.specs.Endian.{big_bytes};
ghost use Rattle.nbd_messages.specs.Options.{option_reply_header, reply_number};

use byteorder::{BigEndian, ByteOrder};

// The first eight bytes of a reply to an option.
const OPTION_REPLY_MAGIC: u64 = 0x0003_e889_0455_65a9;

/// What a reply to an option says.
#[derive(Clone, Copy, Debug, PartialEq, Eq)]
pub enum OptionReply {
    /// It is done.
    Acknowledged,
    /// The name of an export.
    Server,
    /// What an export is like.
    Info,
    /// The option isn't served.
    Unsupported,
    /// The data of the option are none.
    Invalid,
    /// There is no such export.
    Unknown,
}

impl OptionReply {
    /// Its number; that of an error has bit 31.
    pub fn number(self) -> u32
        ensures { result ≡ reply_number self }
    {
        match self {
            OptionReply::Acknowledged => 1,
            OptionReply::Server => 2,
            OptionReply::Info => 3,
            OptionReply::Unsupported => 0x8000_0001,
            OptionReply::Invalid => 0x8000_0003,
            OptionReply::Unknown => 0x8000_0006,
        }
    }
}

/// A reply to the option with this number, with so many bytes of data after it.
pub fn option_reply(option: u32, reply: OptionReply, length: u32) -> [u8; 20]
    ensures { result ≡ option_reply_header option reply length }
{
    let mut bytes = [0; 20];
    BigEndian::write_u64(&mut bytes, OPTION_REPLY_MAGIC);
    BigEndian::write_u32(&mut bytes[8..], option);
    BigEndian::write_u32(&mut bytes[12..], reply.number());
    BigEndian::write_u32(&mut bytes[16..], length);
    bytes
}

/// The length of a name, which stands before it.
pub fn name_length(length: u32) -> [u8; 4]
    ensures { result ≡ big_bytes 4 length }
{
    let mut bytes = [0; 4];
    BigEndian::write_u32(&mut bytes, length);
    bytes
}
