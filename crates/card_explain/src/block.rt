// What became of a block, and of a poll.
ghost use Rattle.std.specs.Prelude.{◌≡◌};
ghost use Rattle.card_explain.specs.Exchanges.{poll_words, received_words, sent_words};

use mmc_bus::{DataIn, DataOut};

/// What became of a block that was read.
pub(crate) fn received_words(got: DataIn) -> &'static [u8]
    ensures { result.now ≡ received_words got }
{
    match got {
        DataIn::Good => b"the block came",
        DataIn::Bad => b"a block came whose check doesn't fit",
        DataIn::Nothing => b"no block came",
    }
}

/// What became of a block that was written.
pub(crate) fn sent_words(got: DataOut) -> &'static [u8]
    ensures { result.now ≡ sent_words got }
{
    match got {
        DataOut::Accepted => b"the card has accepted the block",
        DataOut::Rejected => b"the card has rejected the block: its check didn't fit",
        DataOut::Nothing => b"the card didn't say whether it accepts the block",
    }
}

/// What a poll was answered.
pub(crate) fn poll_words(yes: bool) -> &'static [u8]
    ensures { result.now ≡ poll_words yes }
{
    if yes {
        b"the card is busy"
    } else {
        b"the card isn't busy"
    }
}
