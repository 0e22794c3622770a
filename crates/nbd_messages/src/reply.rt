ghost use Rattle.std.specs.Prelude.{◌≡◌};
ghost use Rattle.nbd_messages.specs.Replies.{reply_header};

use crate::error::ReplyError;
use byteorder::{BigEndian, ByteOrder};

// The first four bytes of a simple reply.
const REPLY_MAGIC: u32 = 0x6744_6698;

// The number of an error, 0 where there is none.
fn number_of(error: Option<ReplyError>) -> u32
    ensures { result ≡ Rattle.nbd_messages.specs.Replies.number_of error }
{
    match error {
        None => 0,
        Some(error) => error.number(),
    }
}

/// A simple reply under this cookie. The data of a read without an error stand after it.
pub fn simple_reply(error: Option<ReplyError>, cookie: u64) -> [u8; 16]
    ensures { result ≡ reply_header error cookie }
{
    let mut bytes = [0; 16];
    BigEndian::write_u32(&mut bytes, REPLY_MAGIC);
    BigEndian::write_u32(&mut bytes[4..], number_of(error));
    BigEndian::write_u64(&mut bytes[8..], cookie);
    bytes
}
