// Commands, from the host to the card.
ghost use Rattle.std.specs.Prelude.{◌≡◌, ◌<◌, Some};
ghost use Rattle.mmc_frame.specs.Frame.{command_in};

use crate::frame::{argument_of, framed, is_sound_frame};

/// The frame of the command with this index (0 to 63) and argument: the one that `read_command` takes as that command.
pub fn encode(index: u8, arg: u32) -> [u8; 6]
    requires { index < 64 }
    ensures { command_in result ≡ Some (index, arg) }
{
    framed(64 + index, arg)
}

/// The index and the argument of a command, or `None` where the frame isn't a sound command.
pub fn read_command(frame: &[u8; 6]) -> Option<(u8, u32)>
    ensures { result ≡ command_in frame.now }
{
    if frame[0] / 64 != 1 || frame[5] % 2 != 1 {
        return None;
    }
    if !is_sound_frame(frame) {
        return None;
    }
    Some((frame[0] % 64, argument_of(frame)))
}
