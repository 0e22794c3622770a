/// Which of an entry's bytes are lent as blocks.
#[derive(Clone, Copy, Debug, PartialEq, Eq)]
pub(crate) enum Held {
    /// The room for what it reads.
    Room,
    /// What it writes.
    Bytes,
}
