// README's example by the calls of C, for auditors: what it reads back is what it has written.
ghost use Rattle.std.specs.Prelude.{◌≡◌, length, pos};
ghost use Rattle.kelifandro.specs.Done.{IsTrueOf, stories_of};

use crate::asked::Wanted;
use crate::history::Card;
use crate::laws::what_was_written_is_read_back;
use crate::requests::seen;
use mmc_card::Part;
use mmc_direct::Asked;
use mmc_requests::Kind;
use mmc_story::HasStory;
use sdhci_story::HasRegisterStory;

/// Opens a card, writes these sectors, closes it, opens it again, and reads them into other memory. The numbers of the write and of the read.
pub fn write_and_read_back<S: HasStory + HasRegisterStory>(
    card: &mut Card<S>,
    part: Part,
    start: u64,
    written: &mut [[u8; 512]],
    back: &mut [[u8; 512]],
) -> (i32, i32)
    ensures read_back { result.0 ≡ pos 0 → result.1 ≡ pos 0 → length back.old ≡ length written.old
        → IsTrueOf (stories_of S.HasStory.story S.HasRegisterStory.story) card.new.way card.new.did → back.new ≡ written.old }
{
    what_was_written_is_read_back();
    let writes = Wanted {
        asked: Asked {
            kind: Kind::Write,
            part,
            start,
            count: 0,
        },
        attempts: 0,
    };
    let reads = Wanted {
        asked: Asked {
            kind: Kind::Read,
            ..writes.asked
        },
        ..writes
    };
    let _before = seen(written);
    card.open();
    let wrote = card.serve(&writes, written);
    card.close();
    card.open();
    let read = card.serve(&reads, back);
    let _after = seen(back);
    (wrote, read)
}
