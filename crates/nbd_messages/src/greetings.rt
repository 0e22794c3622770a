ghost use Rattle.std.specs.Prelude.{◌≡◌};
ghost use Rattle.nbd_messages.specs.Options.{client_flags_in, greeting};

use byteorder::{BigEndian, ByteOrder};

// `NBDMAGIC`.
const FIRST_MAGIC: u64 = 0x4e42_444d_4147_4943;
// `IHAVEOPT`.
pub(crate) const OPTION_MAGIC: u64 = 0x4948_4156_454f_5054;
// Fixed newstyle, and no zeroes after the answer to `ExportName`.
const SERVER_FLAGS: u16 = 3;

/// What a client says of itself after the greeting.
#[derive(Clone, Copy, Debug, PartialEq, Eq)]
pub struct ClientFlags {
    /// It wants no zeroes after the answer to `ExportName`.
    pub no_zeroes: bool,
}

/// The flags in these bytes, or `None` where the client isn't of fixed newstyle or wants what isn't known.
pub fn client_flags_in(bytes: &[u8; 4]) -> Option<ClientFlags>
    ensures { result ≡ client_flags_in bytes.now }
{
    match BigEndian::read_u32(bytes) {
        1 => Some(ClientFlags { no_zeroes: false }),
        3 => Some(ClientFlags { no_zeroes: true }),
        _ => None,
    }
}

/// The first bytes of a server.
pub fn greeting() -> [u8; 18]
    ensures { result ≡ greeting }
{
    let mut bytes = [0; 18];
    BigEndian::write_u64(&mut bytes, FIRST_MAGIC);
    BigEndian::write_u64(&mut bytes[8..], OPTION_MAGIC);
    BigEndian::write_u16(&mut bytes[16..], SERVER_FLAGS);
    bytes
}
