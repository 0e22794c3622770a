// Draws commands and their responses.
ghost use Rattle.std.specs.Prelude.{◌≡◌};
ghost use Rattle.card_wave.specs.CommandSamples.{byte_on_cmd, command_samples, frame_samples, reply_samples};
ghost use Rattle.card_wave.specs.WaveText.{Draws};

use crate::sample::{Sample, bits};
use crate::wave_writer::{WaveWriter, Written};
use mmc_bus::{Reply, Want};
use std::io::Write;

// A byte on CMD.
#[tactic(auto, unfolding(crate::specs::CommandSamples::byte_on_cmd))]
fn on_cmd(byte: u8) -> [Sample; 8]
    ensures { result ≡ byte_on_cmd byte }
{
    let [bit7, bit6, bit5, bit4, bit3, bit2, bit1, bit0] = bits(byte);
    [
        Sample::on_cmd(bit7),
        Sample::on_cmd(bit6),
        Sample::on_cmd(bit5),
        Sample::on_cmd(bit4),
        Sample::on_cmd(bit3),
        Sample::on_cmd(bit2),
        Sample::on_cmd(bit1),
        Sample::on_cmd(bit0),
    ]
}

impl<W: Write> WaveWriter<W> {
    // Draws a frame on CMD.
    fn draw_frame(&mut self, bytes: &[u8]) -> Written
        ensures { Draws W.contents self.old self.new result (frame_samples bytes.now) }
    {
        for byte in bytes {
            self.draw_all(&on_cmd(*byte))?;
        }
        Ok(())
    }

    // Draws the response, or the wait for one that didn't come.
    #[tactic(auto, unfolding(crate::specs::CommandSamples::reply_samples))]
    fn draw_reply(&mut self, want: Want, reply: Reply) -> Written
        ensures { Draws W.contents self.old self.new result (reply_samples want reply) }
    {
        match (want, reply) {
            (_, Reply::Short(frame)) => self.draw_frame(&frame),
            (_, Reply::Long(frame)) => self.draw_frame(&frame),
            (Want::Nothing, Reply::Silent) => Ok(()),
            (Want::Short | Want::Long, Reply::Silent) => self.draw_idle(64),
        }
    }

    /// Draws a command and its response.
    pub(crate) fn draw_command(&mut self, frame: &[u8; 6], want: Want, reply: Reply) -> Written
        ensures { Draws W.contents self.old self.new result (command_samples frame.now want reply) }
    {
        self.draw_frame(frame)?;
        self.draw_idle(5)?;
        self.draw_reply(want, reply)?;
        self.draw_idle(8)
    }
}
