ghost use Rattle.std.specs.Prelude.{◌≡◌};
ghost use Rattle.nbd_messages.specs.Replies.{error_number};

/// Why a request isn't carried out. The numbers are those of Linux.
#[derive(Clone, Copy, Debug, PartialEq, Eq)]
pub enum ReplyError {
    /// EPERM: the card is write protected.
    NotPermitted,
    /// EIO: the card failed.
    Failed,
    /// ENOMEM: memory was refused.
    NoMemory,
    /// EINVAL: the request isn't one, or not for whole sectors of the export.
    Invalid,
    /// ENOTSUP: the export doesn't do this.
    NotSupported,
}

impl ReplyError {
    /// Its number in a reply.
    pub fn number(self) -> u32
        ensures { result ≡ error_number self }
    {
        match self {
            ReplyError::NotPermitted => 1,
            ReplyError::Failed => 5,
            ReplyError::NoMemory => 12,
            ReplyError::Invalid => 22,
            ReplyError::NotSupported => 95,
        }
    }
}
