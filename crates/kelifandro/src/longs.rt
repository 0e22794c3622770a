// Long requests: in parts, each a request of its own that names no more than the caller's table for DMA has lines for.
ghost use Rattle.std.specs.Prelude.{◌<◌, ◌≡◌, ◌≤◌, Err, IfErr, IfSome, false, length, pos, true};
ghost use Rattle.mmc_requests.specs.Kinds.{is_read};
ghost use Rattle.mmc_switch.specs.Stands.{info_of};
ghost use Rattle.kelifandro.specs.Answers.{minus, refused_number};
ghost use Rattle.kelifandro.specs.Calls.{IfOpen, is_attempted, is_open};
ghost use Rattle.kelifandro.specs.Done.{IsFit, done_of, stories_of};
ghost use Rattle.kelifandro.specs.Longs.{begins_by, long_refusal, longest, whole_of};

use crate::answers::{DONE, NOT_OPEN, refused_number};
use crate::asked::Wanted;
use crate::calls::open_card;
use crate::did::Did;
use crate::requests::serve_told;
use c_host::{Stream, WayRecord};
use mmc_direct::Asked;
use mmc_record::CardRecord;
use mmc_recovery::Healed;
use mmc_requests::sectors_refusal;
use mmc_story::HasStory;
use sdhci_story::HasRegisterStory;

// The most sectors that a part names: as many as a table has lines for, of 12 bytes and 64 sectors each.
fn longest(way: &WayRecord) -> u32
    ensures longest { result ≡ longest way.now }
    ensures some { 0 < result }
{
    let lines = u32::from(way.table_size / 12);
    if way.lends == 0 || lines == 0 || lines > 1023 {
        65_535
    } else {
        64 * lines
    }
}

// Serves the parts, one after the other, until one isn't done. Tells how many sectors are done before that one.
fn serve_parts<S: HasStory + HasRegisterStory>(
    way: &WayRecord,
    card: &mut CardRecord,
    healed: &mut Healed,
    wanted: &Wanted,
    blocks: &mut [[u8; 512]],
    done: &mut u64,
    did: &mut Did,
) -> i32
    requires none { done.old ≡ 0 }
    requires fit { IsFit (stories_of S.HasStory.story S.HasRegisterStory.story) way.now (done_of did.old) card.old }
    ensures within { done.new ≤ length blocks.old }
    ensures whole { result ≡ pos 0 → done.new ≡ length blocks.old }
    ensures less { (result ≡ pos 0 → ⊥) → done.new < length blocks.old }
    ensures kept { is_read wanted.now.asked.kind ≡ false → blocks.new ≡ blocks.old }
    ensures fit_again { IsFit (stories_of S.HasStory.story S.HasRegisterStory.story) way.now (done_of did.new) card.new }
{
    let count = blocks.len() as u64;
    let most = longest(way);
    while *done < count {
        let first = *done as usize;
        let some = (count - *done).min(u64::from(most)) as u32;
        let part = Wanted {
            asked: Asked {
                start: wanted.asked.start.saturating_add(*done),
                count: u64::from(some),
                ..wanted.asked
            },
            attempts: wanted.attempts,
        };
        let memory = &mut blocks[first..first + some as usize];
        let number = serve_told::<S>(way, card, healed, &part, memory, did);
        if number != DONE {
            return number;
        }
        *done += u64::from(some);
        Stream::new(way.stream).go_on_after(some);
    }
    DONE
}

// Whether a long request may begin: its sectors all lie in the partition of a card that is open.
//
// # Errors
// The number of why it mayn't.
#[inline(never)]
fn may_begin(way: &WayRecord, card: &CardRecord, asked: &Asked) -> Result<(), i32>
    ensures not_open { is_open way.now card.now ≡ false → result ≡ Err (minus 1) }
    ensures unmade { IfErr result (λ number. is_attempted number ≡ false) }
    ensures refused { IfOpen way.now card.now (λ stands. result ≡ begins_by (long_refusal (info_of stands) asked.now)) }
{
    let Some(stands) = open_card(way, card) else {
        return Err(NOT_OPEN);
    };
    match sectors_refusal(
        u64::MAX,
        asked.kind,
        stands.info(),
        asked.part,
        asked.start,
        asked.count,
    ) {
        Some(refused) => Err(refused_number(refused)),
        None => Ok(()),
    }
}

/// Serves a long request, of which nothing is done where its sectors don't all lie in the partition. How many they are the memory tells,
/// and `done` how many are done.
pub fn serve_long<S: HasStory + HasRegisterStory>(
    way: &WayRecord,
    card: &mut CardRecord,
    healed: &mut Healed,
    wanted: &Wanted,
    blocks: &mut [[u8; 512]],
    done: &mut u64,
    did: &mut Did,
) -> i32
    requires fit { IsFit (stories_of S.HasStory.story S.HasRegisterStory.story) way.now (done_of did.old) card.old }
    ensures not_open { is_open way.now card.old ≡ false → (result ≡ minus 1) × (done.new ≡ 0) }
    ensures refused { IfOpen way.now card.old (λ stands. IfSome (long_refusal (info_of stands) (whole_of wanted.now.asked blocks.old)) (λ why.
        (result ≡ refused_number why) × (done.new ≡ 0) × (blocks.new ≡ blocks.old) × (healed.new ≡ healed.old))) }
    ensures within { done.new ≤ length blocks.old }
    ensures whole { result ≡ pos 0 → done.new ≡ length blocks.old }
    ensures less { is_attempted result ≡ true → (result ≡ pos 0 → ⊥) → done.new < length blocks.old }
    ensures kept { is_read wanted.now.asked.kind ≡ false → blocks.new ≡ blocks.old }
    ensures fit_again { IsFit (stories_of S.HasStory.story S.HasRegisterStory.story) way.now (done_of did.new) card.new }
{
    *done = 0;
    let whole = Asked {
        count: blocks.len() as u64,
        ..wanted.asked
    };
    match may_begin(way, card, &whole) {
        Err(number) => number,
        Ok(()) => serve_parts::<S>(way, card, healed, wanted, blocks, done, did),
    }
}
