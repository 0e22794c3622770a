// The answers to the parts of a long request, by the numbers of the parts.
ghost use Rattle.std.specs.Prelude.{[], ◌*◌, ◌+◌, ◌++◌, ◌<◌, ◌≡◌, ◌≢◌, ◌≤◌, IfErr, IfOk, IsPermutation, List, MatchOption, false, length, min, true, ℕ};
ghost use Rattle.mmc_block.specs.declared.completion.Answer.TheVariants.{Data, Done};
ghost use Rattle.mmc_queue.specs.declared.queue.TheConstants.{MAX_WAITING};
ghost use Rattle.nbd_server.specs.Parts.{AreAnswered, Has, IsData, Lacks, sectors_of};
ghost use Rattle.mmc_block.specs.declared.completion.Answer.{Answer};
ghost use Rattle.nbd_messages.specs.declared.error.ReplyError.TheVariants.{Failed};

use crate::long::PART;
use arrayvec::ArrayVec;
use mmc_block::{Answer, Completion, Completions, MAX_WAITING};
use mmc_bus::Blocks;
use nbd_messages::ReplyError;

/// Answers to parts, as many as can be waited for.
pub type Gathered = ArrayVec<Completion, MAX_WAITING>;

/// Takes over these answers.
pub fn keep_all(all: &mut Gathered, given: &mut Completions)
    requires room { length all.old.items + length given.old.items ≤ MAX_WAITING }
    ensures emptied { given.new.items ≡ [] }
    ensures longer { length all.new.items ≡ length all.old.items + length given.old.items }
    ensures kept { IsPermutation (all.old.items ++ given.old.items) all.new.items }
{
    while let Some(last) = given.len().checked_sub(1) {
        all.push(given.remove(last));
    }
}

// The answer to the part with this number.
fn answer_to(given: &[Completion], number: u32) -> Option<&Answer>
    ensures { MatchOption result ((answer : Answer) → Has given.now number answer → ⊥) (λ answer. Has given.now number answer.now) }
{
    for completion in given {
        if completion.client == number {
            return Some(&completion.answer);
        }
    }
    None
}

// Whether a request was carried out.
fn is_done(answer: &Answer) -> bool
    ensures done { result ≡ true → answer.now ≡ Done }
    ensures undone { result ≡ false → answer.now ≢ Done }
{
    match answer {
        Answer::Done => true,
        Answer::Data(_) => false,
        Answer::Failed(_) => false,
    }
}

// The bytes of an answer, where they are those of so many sectors.
fn data_of(answer: &Answer, sectors: u64) -> Option<&[u8]>
    requires { sectors ≤ 16 }
    ensures { MatchOption result (IsData sectors answer.now → ⊥) (λ bytes. (answer.now ≡ Data bytes.now) × (length bytes.now ≡ 512 * sectors)) }
{
    let Answer::Data(bytes) = answer else {
        return None;
    };
    let bytes = bytes.as_slice();
    if bytes.len() as u64 != 512 * sectors {
        return None;
    }
    Some(bytes)
}

/// Whether so many parts were carried out.
pub fn are_done(given: &[Completion], parts: u32) -> bool
    ensures done { result ≡ true → (n : ℕ) → n < parts → Has given.now n Done }
    ensures undone { result ≡ false → (n : ℕ) × (n < parts) × Lacks (λ answer. answer ≡ Done) given.now n }
{
    for number in 0..parts {
        let Some(answer) = answer_to(given, number) else {
            return false;
        };
        if !is_done(answer) {
            return false;
        }
    }
    true
}

/// Puts the bytes that so many parts were answered with, of a read of so many sectors, one after the other, after others.
///
/// # Errors
/// `Failed` where one of them wasn't answered with the bytes of its sectors, `NoMemory`.
pub fn join(
    given: &[Completion],
    parts: u32,
    count: u64,
    bytes: &mut Vec<u8>,
) -> Result<(), ReplyError>
    requires { 16 * parts < count + 16 }
    ensures joined { IfOk result (λ done. (more : List ℕ) × (bytes.new.items ≡ bytes.old.items ++ more)
        × (length more ≡ 512 * min count (16 * parts)) × AreAnswered given.now count parts more) }
    ensures failed { IfErr result (λ error. error ≡ Failed → (n : ℕ) × (n < parts) × Lacks (IsData (sectors_of count n)) given.now n) }
{
    for number in 0..parts {
        let sectors = PART.min(count - PART * number as u64);
        let Some(answer) = answer_to(given, number) else {
            return Err(ReplyError::Failed);
        };
        let Some(piece) = data_of(answer, sectors) else {
            return Err(ReplyError::Failed);
        };
        if bytes.extend_from_slice(piece).is_err() {
            return Err(ReplyError::NoMemory);
        }
    }
    Ok(())
}
