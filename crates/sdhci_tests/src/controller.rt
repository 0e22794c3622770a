// A host over a card in memory, as the model controller drives it.
use mmc_bus::Bus;
use mmc_card::{DataIn, DataOut, Lines, Reply, Want};
use mmc_card_sim::SimCard;
use mmc_frame::commands::SEND_RELATIVE_ADDR;
use mmc_frame::{encode, read_r1, read_r2, read_r3};
use mmc_host::{Heard, Host, HostCommand, Ios, Response, ResponseFault, Work};

/// It notes whether a command of identification came at more than 400 kHz.
#[derive(Drop)]
pub struct Controller {
    pub card: SimCard,
    pub is_slow: bool,
    pub was_too_fast: bool,
}

// What came, without its check.
fn heard_in(reply: Reply, command: HostCommand) -> Option<Heard> {
    match reply {
        Reply::Silent => None,
        Reply::Short(frame) => {
            let word = match command.response {
                Response::R3 => read_r3(&frame).ok()?,
                _ => read_r1(&frame, command.index).ok()?,
            };
            Some(Heard::Word(word))
        }
        Reply::Long(frame) => {
            let register = read_r2(&frame).ok()?;
            let mut bytes = [0; 15];
            bytes.copy_from_slice(&register[..15]);
            Some(Heard::Register(bytes))
        }
    }
}

impl Host for Controller {
    ghost use Rattle.mmc_host.specs.Hosts.{unkept_host};

    ghost view = { λ _. unkept_host };

    ghost has_told = { λ _ _. Unit {0} };

    fn limits(&self) -> Lines {
        Lines::all()
    }

    fn set_ios(&mut self, ios: Ios) {
        self.card.set_lines(ios.width, ios.timing);
        self.is_slow = ios.is_identifying;
    }

    fn send(&mut self, command: HostCommand) -> Result<Heard, ResponseFault> {
        self.was_too_fast |= command.index <= SEND_RELATIVE_ADDR && !self.is_slow;
        let want = match command.response {
            Response::Nothing => Want::Nothing,
            Response::R2 => Want::Long,
            _ => Want::Short,
        };
        let reply = self
            .card
            .command(encode(command.index, command.argument), want);
        let heard = match command.response {
            Response::Nothing => Some(Heard::Nothing),
            _ => heard_in(reply, command),
        };
        heard.ok_or(ResponseFault::Timeout)
    }

    fn read_block(&mut self, block: &mut [u8]) -> DataIn {
        self.card.read_data(block)
    }

    fn write_block(&mut self, block: &[u8; 512]) -> DataOut {
        self.card.write_data(block)
    }

    fn is_busy(&mut self, _work: Work) -> bool {
        self.card.busy()
    }

    fn pause(&mut self, micros: u32) {
        let _ = micros;
    }
}
