// The faults that a card in memory can be told to have.
use mmc_card_rows::{CommandError, Outcome};

/// Which bits of a frame are flipped, by their positions in order of sending: 0 to 47 in a frame of six bytes, 0 to 135
/// in one of seventeen. Two equal positions, or one past the frame, fit no exchange.
#[derive(Clone, Copy, Debug, PartialEq, Eq)]
pub struct Flips {
    /// The first one.
    pub first: u8,
    /// The other one, where two are flipped.
    pub second: Option<u8>,
}

/// A fault that a card in memory can be told to have. Each is a fault of the card relation, and falls only where it
/// fits its exchange.
#[derive(Clone, Copy, Debug, PartialEq, Eq)]
pub enum Fault {
    /// The card doesn't see the command.
    LoseCommand,
    /// The card sees the command with flipped bits, so that its check is bad.
    FlipCommand(Flips),
    /// The card answers, and nothing comes.
    LoseReply,
    /// The card answers, and the answer comes with flipped bits, none of them the OCR's of an R3.
    FlipReply(Flips),
    /// A switch of an eMMC device fails, and its response says so.
    FailSwitch,
    /// So it does, and the first status after its busy time says so.
    FailSwitchLate,
    /// So it does, and its response, which says so, doesn't come.
    LoseFailedSwitch,
    /// CMD24 or CMD25 finds its sectors protected: the write doesn't begin, and its response shows WP_VIOLATION.
    FindProtection,
    /// The card has this error of an earlier command left over, which the command's response shows if it has a status.
    LeaveOver(CommandError),
    /// A command with an R1, but CMD7, CMD12 and CMD13, is carried out, and its response shows these error bits besides, by
    /// their places in a status. Bits that no execution raises fit no exchange.
    ShowError(u32),
    /// A command with an R1, but CMD7, CMD12 and CMD13, isn't carried out, and its response shows these error bits, by their
    /// places in a status. Bits that no execution raises fit no exchange.
    FindError(u32),
    /// A block that is read comes with a bad check.
    BadBlock,
    /// A block that is read doesn't come.
    NoBlock,
    /// The card can't correct a block that is read: none comes, and CARD_ECC_FAILED shows.
    ReadError,
    /// The card doesn't see a block that is written.
    LoseBlock,
    /// A block that is written is rejected.
    Reject,
    /// So it is, and after CMD24 the card is busy in prg.
    RejectBusy,
    /// So it is, and all further blocks of a write of several are ignored until CMD12.
    RejectAll,
    /// The status of a block that is written doesn't come: the card has rejected it, or accepted it.
    LoseStatus(Outcome),
    /// Programming of a write, erase or trim fails at a poll.
    Fail(Outcome),
    /// So it does, or that of an earlier block of a write, with these error bits, as a status has them. Bits that no
    /// programming raises fit no exchange.
    FailWith(Outcome, u32),
    /// Programming fails with these error bits, and so early that the card is busy still, as it answers.
    FailEarly(Outcome, u32),
    /// Programming fails with these error bits in the time before a command or before a block that is written, so that nobody
    /// has seen it when the card meets that: of a write, erase or trim, or of an earlier block of a write that goes on.
    FailUnseen(Outcome, u32),
    /// A poll of a busy card is answered yes. It counts as a fault from the sixteenth yes of one busy time on.
    Busy,
    /// The power fails: no answer, and then the card is as after CMD0.
    Brownout(Outcome),
}
