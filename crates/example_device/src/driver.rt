// A driver of the controller.

use crate::controller::Controller;
use mmc_bus::{DataIn, DataOut, Lines, Timing, Width};
use mmc_host::{Heard, Host, HostCommand, Ios, Response, ResponseFault, Work};

/// The driver.
#[derive(Drop)]
pub struct Driver {
    pub controller: Controller,
}

impl Host for Driver {
    ghost use Rattle.mmc_host.specs.Hosts.{unkept_host};

    // The proofs know no card behind a real controller.
    ghost view = { λ _. unkept_host };

    // No account is kept of what the controller was told.
    ghost has_told = { λ _ _. Unit {0} };

    fn limits(&self) -> Lines {
        Lines {
            width: Width::Four,
            timing: Timing::High,
        }
    }

    fn set_ios(&mut self, ios: Ios) {
        self.controller.set_lines(ios.width, ios.timing);
        self.controller.set_clock(ios.max_clock());
    }

    fn send(&mut self, command: HostCommand) -> Result<Heard, ResponseFault> {
        let HostCommand {
            index,
            argument,
            response,
            transfer: _,
        } = command;
        let heard = match response {
            Response::Nothing => {
                self.controller.send(index, argument);
                Some(Heard::Nothing)
            }
            Response::R2 => self
                .controller
                .send_long(index, argument)
                .map(|bytes| Heard::Register(bytes)),
            Response::R3 => self
                .controller
                .send_unchecked(index, argument)
                .map(|ocr| Heard::Word(ocr)),
            _ => self
                .controller
                .send_checked(index, argument)
                .map(|word| Heard::Word(word)),
        };
        heard.ok_or(ResponseFault::Timeout)
    }

    fn read_block(&mut self, block: &mut [u8]) -> DataIn {
        self.controller.receive(block)
    }

    fn write_block(&mut self, block: &[u8; 512]) -> DataOut {
        self.controller.transmit(block)
    }

    fn is_busy(&mut self, work: Work) -> bool {
        // a real one looks for work.micros() microseconds before it answers yes
        let _ = work;
        self.controller.is_busy()
    }

    fn pause(&mut self, micros: u32) {
        self.controller.wait(micros);
    }
}
