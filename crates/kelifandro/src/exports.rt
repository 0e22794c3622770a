// What C calls, over a stream of its own choice: calls over different streams may be made at the same time. Nothing is required of the
// numbers and bytes that it passes; what it passes pointers to has to be there. Each is one call of `opening` or `requests`, whose promises
// of the card hold for every story: `Brand` picks none. What C can see of it stands here again.
ghost use Rattle.std.specs.Prelude.{◌<◌, ◌≡◌, ◌≤◌, IfSome, IsSome, None, false, length, pos, true};
ghost use Rattle.mmc_direct.specs.Refusal.{refusal_of};
ghost use Rattle.mmc_requests.specs.Kinds.{is_read};
ghost use Rattle.mmc_switch.specs.Sizes.{size_of};
ghost use Rattle.mmc_switch.specs.Stands.{info_of};
ghost use Rattle.mmc_recovery.specs.Healed.{none_met};
ghost use Rattle.mmc_record.specs.Note.{is_note};
ghost use Rattle.mmc_record.specs.Numbers.{part_of};
ghost use Rattle.kelifandro.specs.Answers.{minus, refused_number};
ghost use Rattle.kelifandro.specs.Asked.{asked_with, attempts_by, kind_with, named_by};
ghost use Rattle.kelifandro.specs.Calls.{IfMeant, IfNoted, IfOpen, TellsCounts, TellsWhy, is_attempted, is_open};
ghost use Rattle.kelifandro.specs.Longs.{long_refusal, whole_of};

use crate::answers::NO_PARTITION;
use crate::asked::{AskedRecord, part_with};
use crate::calls::open_card;
use crate::did::Did;
use crate::longs::serve_long;
use crate::opening::open_by;
use crate::requests::serve_told;
use c_host::WayRecord;
use mmc_record::CardRecord;
use mmc_recovery::Healed;
use std::marker::Brand;

/// Opens a card.
#[unsafe(no_mangle)]
pub extern "C" fn kelifandro_open_by(
    way: &WayRecord,
    card: &mut CardRecord,
    healed: &mut Healed,
) -> i32
    ensures healed { healed.new ≡ none_met }
    ensures not_open { (result ≡ pos 0 → ⊥) → card.new.state ≡ 0 }
    ensures opened { result ≡ pos 0 → is_note card.new ≡ true }
{
    open_by::<Brand>(way, card, healed, &mut Did::new())
}

/// Serves a request: a read, a write, an erase or a trim.
#[unsafe(no_mangle)]
pub extern "C" fn kelifandro_serve_by(
    way: &WayRecord,
    card: &mut CardRecord,
    healed: &mut Healed,
    request: &AskedRecord,
    blocks: &mut [[u8; 512]],
) -> i32
    ensures no_partition { part_of request.now.part ≡ None → result ≡ minus 2 }
    ensures not_open { IsSome (part_of request.now.part) → is_open way.now card.old ≡ false → result ≡ minus 1 }
    ensures judged { IfOpen way.now card.old (λ stands. IfMeant request.now.part (λ part.
        TellsWhy way.now.by (refusal_of (info_of stands) (asked_with (named_by request.now part) blocks.old)) result)) }
    ensures uncounted { is_attempted result ≡ false → healed.new ≡ healed.old }
    ensures counted { IfNoted card.old (λ stands. TellsCounts (attempts_by request.now.attempts) stands healed.old result card.new healed.new) }
    ensures unread { is_attempted result ≡ false → blocks.new ≡ blocks.old }
    ensures kept { is_read (kind_with request.now.kind) ≡ false → blocks.new ≡ blocks.old }
{
    match request.wanted() {
        Some(wanted) => serve_told::<Brand>(way, card, healed, &wanted, blocks, &mut Did::new()),
        None => NO_PARTITION,
    }
}

/// Reads or writes any number of sectors, in parts. How many they are the memory tells.
#[unsafe(no_mangle)]
pub extern "C" fn kelifandro_serve_long_by(
    way: &WayRecord,
    card: &mut CardRecord,
    healed: &mut Healed,
    request: &AskedRecord,
    blocks: &mut [[u8; 512]],
    done: &mut u64,
) -> i32
    ensures no_partition { part_of request.now.part ≡ None → (result ≡ minus 2) × (done.new ≡ 0) }
    ensures not_open { IsSome (part_of request.now.part) → is_open way.now card.old ≡ false → (result ≡ minus 1) × (done.new ≡ 0) }
    ensures refused { IfOpen way.now card.old (λ stands. IfMeant request.now.part (λ part.
        IfSome (long_refusal (info_of stands) (whole_of (named_by request.now part) blocks.old)) (λ why.
        (result ≡ refused_number why) × (done.new ≡ 0) × (blocks.new ≡ blocks.old) × (healed.new ≡ healed.old)))) }
    ensures within { done.new ≤ length blocks.old }
    ensures whole { result ≡ pos 0 → done.new ≡ length blocks.old }
    ensures less { is_attempted result ≡ true → (result ≡ pos 0 → ⊥) → done.new < length blocks.old }
    ensures kept { is_read (kind_with request.now.kind) ≡ false → blocks.new ≡ blocks.old }
{
    match request.wanted() {
        Some(wanted) => serve_long::<Brand>(
            way,
            card,
            healed,
            &wanted,
            blocks,
            done,
            &mut Did::new(),
        ),
        None => {
            *done = 0;
            NO_PARTITION
        }
    }
}

/// The size of a partition in sectors of 512 bytes, 0 where no card is open or it has no such partition.
#[unsafe(no_mangle)]
pub extern "C" fn kelifandro_sectors_by(way: &WayRecord, card: &CardRecord, part: u32) -> u64
    ensures no_partition { part_of part ≡ None → result ≡ 0 }
    ensures not_open { is_open way.now card.now ≡ false → result ≡ 0 }
    ensures size { IfOpen way.now card.now (λ stands. IfMeant part (λ part. result ≡ size_of (info_of stands).sizes part)) }
{
    match (part_with(part), open_card(way, card)) {
        (Some(part), Some(stands)) => stands.info().sizes.of(part),
        _ => 0,
    }
}
