// How a controller moves blocks by itself.
ghost use Rattle.std.specs.Prelude.{◌+◌, ◌<◌, ◌≡◌, ◌^◌, IfSome, IsNone, false, ℕ};
ghost use Rattle.mmc_sdhci.specs.Finishing.{Reaches};
ghost use Rattle.mmc_sdhci.specs.Lent.{crosses_none};
ghost use Rattle.mmc_sdhci.specs.declared.dma.Dma.{Dma};

/// How a controller moves blocks by itself (SD Host Controller Simplified Specification 3.00, sections 1.4 and 1.13; bits 4 and 3 of
/// Host Control 1).
#[derive(Clone, Copy, Debug, PartialEq, Eq)]
pub enum Dma {
    /// SDMA: memory in one piece, within 32 bits, that crosses no multiple of 512 KiB.
    Sdma,
    /// ADMA2 by a table of addresses of 32 bits.
    Adma32,
    /// ADMA2 by a table of addresses of 64 bits.
    Adma64,
}

/// Whether there is any, by Capabilities: bit 19 ADMA2, bit 22 SDMA.
pub fn has_dma(capabilities: u32) -> bool
    ensures { result ≡ false → (dma : Dma) (start size : ℕ) → Reaches capabilities dma start size → ⊥ }
{
    capabilities / 0x8_0000 % 2 == 1 || capabilities / 0x40_0000 % 2 == 1
}

/// Whether memory crosses no multiple of 512 KiB, at which SDMA would stop.
pub fn crosses_none(start: u64, size: u32) -> bool
    ensures { result ≡ crosses_none start size }
{
    start % 0x8_0000 + u64::from(size) <= 0x8_0000
}

/// How a controller with these Capabilities can move so many bytes from this bus address on; `None` where it can't: then they go through
/// the Buffer Data Port. ADMA2 where there is any, and its wide tables only for memory beyond 32 bits.
pub fn dma_for(capabilities: u32, start: u64, size: u32) -> Option<Dma>
    requires { start + size < 2 ^ 64 }
    ensures reaches { IfSome result (λ dma. Reaches capabilities dma start size) }
    ensures none { IsNone result → (dma : Dma) → Reaches capabilities dma start size → ⊥ }
{
    let is_low = start + u64::from(size) <= 0x1_0000_0000;
    if capabilities / 0x8_0000 % 2 == 1 {
        if is_low {
            Some(Dma::Adma32)
        } else if capabilities / 0x1000_0000 % 2 == 1 && start % 8 == 0 {
            Some(Dma::Adma64)
        } else {
            None
        }
    } else if capabilities / 0x40_0000 % 2 == 1
        && start < 0x1_0000_0000
        && crosses_none(start, size)
    {
        Some(Dma::Sdma)
    } else {
        None
    }
}
