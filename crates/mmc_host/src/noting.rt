// What a bus notes of blocks that its host moved together with their command.
ghost use Rattle.std.specs.Prelude.{◌≡◌, ◌+◌, ◌-◌, ◌^◌, ◌≤◌, min};
ghost use Rattle.mmc_host.specs.Together.{all_noted, all_writes_noted, number_of};

use mmc_bus::{Moved, Wire};
use mmc_card::{DataIn, DataOut, Exchange};

/// The most blocks that a controller counts.
pub const MOST_BLOCKS: u16 = 0xffff;

/// How many blocks a controller is told to count.
pub fn number_of(count: usize) -> u16
    ensures number { result ≡ number_of count }
    ensures some { 1 ≤ result }
{
    count.clamp(1, MOST_BLOCKS as usize) as u16
}

// Counts so many more.
fn count_more(wire: &mut Wire, more: usize)
    ensures { wire.new ≡ record wire.old { exchanges = min (wire.old.exchanges + more) (2 ^ 64 - 1) } }
{
    wire.exchanges = wire.exchanges.saturating_add(more as u64);
}

/// Keeps the exchanges of these blocks; where one failed, of it alone, since nobody tells how many came before it.
pub fn note_blocks(wire: &mut Wire, moved: Moved<DataIn>)
    ensures { wire.new ≡ all_noted moved wire.old }
{
    let (got, count) = match moved {
        Moved::Failed(got) => (got, 1),
        Moved::Good(good) => (DataIn::Good, good),
    };
    if count > 0 {
        count_more(wire, count - 1);
        wire.note(Exchange::In { len: 512, got });
    }
}

/// The same of blocks that are written, with the poll before each but the first.
pub fn note_written(wire: &mut Wire, moved: Moved<DataOut>)
    ensures { wire.new ≡ all_writes_noted moved wire.old }
{
    let (got, count) = match moved {
        Moved::Failed(got) => (got, 1),
        Moved::Good(good) => (DataOut::Accepted, good),
    };
    if count > 0 {
        count_more(wire, count - 1);
        count_more(wire, count - 1);
        wire.note(Exchange::Out { got });
    }
}
