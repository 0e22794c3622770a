// Commands and the blocks after them, by one call of the bus.
ghost use Rattle.std.specs.Prelude.{◌≡◌, ◌<◌, false, length};
ghost use Rattle.mmc_bus.specs.Heard.{is_inquiry_index};
ghost use Rattle.mmc_bus.specs.Lending.{IsRewritten};
ghost use Rattle.mmc_bus.specs.Together.{AskedReading, AskedWriting, MovesAtMost};

use crate::blocks::{Blocks, BlocksMut};
use crate::bus::Bus;
use crate::host::{Unheard, response_in};
use crate::moved::Moved;
use mmc_card::{DataIn, DataOut, wanted};
use mmc_frame::encode;

/// Sends the command with this index, 0 to 63, after which the card sends blocks, and reads its response as `ask` does. The first
/// blocks are read into their places, as many as the bus moves with the command.
///
/// # Errors
/// As `ask`.
pub fn ask_reading<B: Bus, D: BlocksMut>(
    bus: &mut B,
    index: u8,
    argument: u32,
    blocks: &mut D,
) -> (Result<u32, Unheard>, Moved<DataIn>)
    requires command { index < 64 }
    requires checked { is_inquiry_index index ≡ false }
    ensures asked { AskedReading D.blocks D.with (B.view bus.old) index argument blocks.old result.0 result.1 blocks.new
        (B.view bus.new) }
    ensures few { MovesAtMost result.1 (length (D.blocks blocks.old)) }
    ensures count { length (D.blocks blocks.new) ≡ length (D.blocks blocks.old) }
    ensures lent { IsRewritten D.blocks D.with blocks.old blocks.new }
{
    let (reply, moved) = bus.read_with(encode(index, argument), wanted(index), blocks);
    (response_in(&reply, index), moved)
}

/// The same of a command after which the card accepts blocks, of which the first are written, as many as the bus moves with the
/// command.
///
/// # Errors
/// As `ask`.
pub fn ask_writing<B: Bus, D: Blocks>(
    bus: &mut B,
    index: u8,
    argument: u32,
    blocks: &D,
) -> (Result<u32, Unheard>, Moved<DataOut>)
    requires command { index < 64 }
    requires checked { is_inquiry_index index ≡ false }
    ensures asked { AskedWriting (B.view bus.old) index argument (D.blocks blocks.now) result.0 result.1 (B.view bus.new) }
    ensures few { MovesAtMost result.1 (length (D.blocks blocks.now)) }
{
    let (reply, moved) = bus.write_with(encode(index, argument), wanted(index), blocks);
    (response_in(&reply, index), moved)
}
