// Who moves the data of a command.
ghost use Rattle.std.specs.Prelude.{◌≡◌};
ghost use Rattle.mmc_sdhci.specs.Commands.{dma_bit};

/// Who moves the data of a command.
#[derive(Clone, Copy, Debug, PartialEq, Eq)]
pub enum Mover {
    /// The driver, through the Buffer Data Port.
    Driver,
    /// The controller, to or from memory that is lent to it (DMA).
    Controller,
}

impl Mover {
    /// Bit 0 of Transfer Mode.
    pub fn dma_bit(self) -> u32
        ensures { result ≡ dma_bit self }
    {
        match self {
            Mover::Driver => 0,
            Mover::Controller => 1,
        }
    }
}
