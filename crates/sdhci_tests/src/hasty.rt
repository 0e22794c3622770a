// The registers of the strict controller, for a driver that waits too short.
use crate::controller::Controller;
use mmc_sdhci::{Registers, Table};
use sdhci_model::Model;
use std::marker::Brand;

/// No pause takes longer than so many microseconds.
#[derive(Drop)]
pub struct Hasty {
    pub model: Model<Controller, Brand>,
    pub longest: u32,
}

impl Registers for Hasty {
    ghost use Rattle.mmc_sdhci.specs.Beside.{untold};
    ghost use Rattle.mmc_sdhci.specs.Driver.{unkept_controller};

    ghost view = { λ _. unkept_controller };

    ghost beside = { λ _. untold };

    ghost kept = { λ _. 0 };

    fn read32(&mut self, offset: u8) -> u32 {
        self.model.read32(offset)
    }

    fn write32(&mut self, offset: u8, value: u32) {
        self.model.write32(offset, value);
    }

    fn read8(&mut self, offset: u8) -> u8 {
        self.model.read8(offset)
    }

    fn write8(&mut self, offset: u8, value: u8) {
        self.model.write8(offset, value);
    }

    fn lend_room(&mut self, count: usize) -> Option<u64> {
        self.model.lend_room(count)
    }

    fn lend_table(&mut self, table: &Table) -> Option<u64> {
        self.model.lend_table(table)
    }

    fn take_place(&mut self, index: usize, block: &mut [u8; 512]) {
        self.model.take_place(index, block);
    }

    fn take_back(&mut self) {
        self.model.take_back();
    }

    fn pause(&mut self, micros: u32) {
        self.model.pause(micros.min(self.longest));
    }

    fn kept_interrupts(&self) -> u32 {
        0
    }
}
