// The two ways in for C: whoever has the one or the other is one host.
ghost use Rattle.c_host.specs.Ways.{has_told_by, view_by};

use mmc_bus::{Blocks, BlocksMut, Moved};
use mmc_card::{DataIn, DataOut, Lines};
use mmc_host::{Heard, Host, HostCommand, Ios, ResponseFault, Work};

/// A host by functions of C, or by registers of C.
#[derive(Drop)]
pub enum Way<F, H> {
    /// By functions that are told of decoded commands.
    Host(F),
    /// By its registers, which this driver has.
    Registers(H),
}

impl<F: Host, H: Host> Host for Way<F, H> {
    ghost view = { view_by F.view H.view };

    ghost has_told = { has_told_by F.has_told H.has_told };

    fn limits(&self) -> Lines {
        match self {
            Way::Host(functions) => functions.limits(),
            Way::Registers(driver) => driver.limits(),
        }
    }

    fn set_ios(&mut self, ios: Ios) {
        match self {
            Way::Host(functions) => functions.set_ios(ios),
            Way::Registers(driver) => driver.set_ios(ios),
        }
    }

    fn send(&mut self, command: HostCommand) -> Result<Heard, ResponseFault> {
        match self {
            Way::Host(functions) => functions.send(command),
            Way::Registers(driver) => driver.send(command),
        }
    }

    fn read_with<D: BlocksMut>(
        &mut self,
        command: HostCommand,
        blocks: &mut D,
    ) -> (Result<Heard, ResponseFault>, Moved<DataIn>) {
        match self {
            Way::Host(functions) => functions.read_with(command, blocks),
            Way::Registers(driver) => driver.read_with(command, blocks),
        }
    }

    fn write_with<D: Blocks>(
        &mut self,
        command: HostCommand,
        blocks: &D,
    ) -> (Result<Heard, ResponseFault>, Moved<DataOut>) {
        match self {
            Way::Host(functions) => functions.write_with(command, blocks),
            Way::Registers(driver) => driver.write_with(command, blocks),
        }
    }

    fn read_block(&mut self, block: &mut [u8]) -> DataIn {
        match self {
            Way::Host(functions) => functions.read_block(block),
            Way::Registers(driver) => driver.read_block(block),
        }
    }

    fn write_block(&mut self, block: &[u8; 512]) -> DataOut {
        match self {
            Way::Host(functions) => functions.write_block(block),
            Way::Registers(driver) => driver.write_block(block),
        }
    }

    fn is_busy(&mut self, work: Work) -> bool {
        match self {
            Way::Host(functions) => functions.is_busy(work),
            Way::Registers(driver) => driver.is_busy(work),
        }
    }

    fn pause(&mut self, micros: u32) {
        match self {
            Way::Host(functions) => functions.pause(micros),
            Way::Registers(driver) => driver.pause(micros),
        }
    }
}
