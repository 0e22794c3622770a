// Flipping bits of what the host hears.
ghost use Rattle.std.specs.Prelude.{◌*◌, ◌<◌, ◌≡◌, length, true};
ghost use Rattle.mmc_frame.specs.Check.{bits_of};
ghost use Rattle.mmc_frame.specs.Flips.{AreBytes, flip_at};
ghost use Rattle.mmc_card_rows.specs.Answer.{HasIndex, answer_of};
ghost use Rattle.mmc_card_sim.specs.FlippedReplies.{IsHeardFlipped, are_beside_ocr, can_flip, flip_both};
ghost use Rattle.mmc_card_sim.specs.FlippedReplies.{is_flip};

use crate::fault::Flips;
use mmc_card::Reply;
use mmc_card_rows::Answer;

/// Whether these are one or two positions in a frame of so many bits.
pub fn is_flip(flips: Flips, bits: u8) -> bool
    ensures { result ≡ is_flip flips bits }
{
    match flips.second {
        Some(second) => flips.first < bits && second < bits && flips.first != second,
        None => flips.first < bits,
    }
}

// Whether none of these bits of an R3 is one of the OCR's.
fn are_beside_ocr(flips: Flips) -> bool
    ensures { result ≡ are_beside_ocr flips.first flips.second }
{
    let is_beside = |position: u8| position < 8 || 39 < position;
    match flips.second {
        Some(second) => is_beside(flips.first) && is_beside(second),
        None => is_beside(flips.first),
    }
}

/// Whether these bits of the answer can be flipped.
pub fn can_flip(flips: Flips, answer: Answer) -> bool
    ensures { result ≡ can_flip flips (answer_of answer) }
{
    match answer {
        Answer::Silent => false,
        Answer::Checked { .. } => is_flip(flips, 48),
        Answer::R3(_) => is_flip(flips, 48) && are_beside_ocr(flips),
        Answer::R2(_) => is_flip(flips, 136),
    }
}

// Flips the bit at this position, counted in order of sending.
fn flip(frame: &mut [u8], position: u8)
    requires { position < 8 * length frame.old }
    ensures bits { bits_of frame.new ≡ flip_at position (bits_of frame.old) }
    ensures len { length frame.new ≡ length frame.old }
{
    frame[usize::from(position / 8)] ^= 0x80 >> (position % 8);
}

// Flips the bits at these positions. The card relation speaks of lists of numbers, so a clause says that the frames are
// bytes.
fn flip_both(frame: &mut [u8], flips: Flips)
    requires { is_flip flips (8 * length frame.old) ≡ true }
    ensures bits { bits_of frame.new ≡ flip_both flips (bits_of frame.old) }
    ensures len { length frame.new ≡ length frame.old }
    ensures bytes { AreBytes frame.old × AreBytes frame.new }
{
    flip(frame, flips.first);
    if let Some(second) = flips.second {
        flip(frame, second);
    }
}

/// The answer as the host hears it with these bits flipped.
pub fn heard_flipped(answer: Answer, flips: Flips) -> Reply
    requires index { HasIndex answer }
    requires fits { can_flip flips (answer_of answer) ≡ true }
    ensures { IsHeardFlipped flips (answer_of answer) result }
{
    match answer.spelled() {
        Reply::Silent => Reply::Silent,
        Reply::Short(mut frame) => {
            flip_both(&mut frame, flips);
            Reply::Short(frame)
        }
        Reply::Long(mut frame) => {
            flip_both(&mut frame, flips);
            Reply::Long(frame)
        }
    }
}
