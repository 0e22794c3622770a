//! The cards of `examples/sdsc.card`, `sdsc-cmd23.card`, `sdhc.card` and `emmc.card`, for tests and examples. Each is
//! ready at once and never busy, and has no image.
ghost use Rattle.std.specs.Prelude.{◌≡◌, false, true};
ghost use Rattle.mmc_card_sim.specs.ExampleCards.{card_with, emmc_ext_csd, sd_registers};

use crate::spec::CardSpec;
use mmc_card_rows::{KindRegisters, MmcRegisters, Registers, SdRegisters};

// The CID of each card. As a CSD it says nothing, as `emmc` has it.
const CID: u128 = 0x0000_0000_0000_0000_0000_0000_0000_0001;

fn card_with(kind: KindRegisters, ocr: u32, csd: u128, sectors: u64) -> CardSpec
    ensures { result ≡ card_with kind ocr csd sectors }
{
    CardSpec {
        registers: Registers {
            kind,
            ocr,
            cid: CID.to_be_bytes(),
            csd: csd.to_be_bytes(),
            is_locked: false,
        },
        sectors,
        ready: 0,
        busy: 0,
        early: None,
        keeps_length: true,
        refusal: None,
        stays_busy: false,
        goes_on: false,
        lagging: 0,
        late: 0,
        shows_app_cmd: false,
        ages: false,
        image: None,
    }
}

fn sd_registers(scr: u64, is_new: bool) -> KindRegisters
    ensures { result ≡ sd_registers scr is_new }
{
    KindRegisters::Sd(SdRegisters {
        scr: scr.to_be_bytes(),
        rca: 1,
        rca_changes: false,
        answers_cmd8: is_new,
        has_high_speed: is_new,
    })
}

/// Card `sdsc` with another SCR.
pub fn sdsc_with_scr(scr: u64) -> CardSpec
    ensures { result ≡ card_with (sd_registers scr false) 0x00ff8000 0x0000000000090000000040000240009b 4 }
{
    let csd = 0x0000_0000_0009_0000_0000_4000_0240_009b;
    card_with(sd_registers(scr, false), 0x00ff_8000, csd, 4)
}

/// Card `sdsc`: an SD card of standard capacity, with four sectors, byte addresses and no CMD23.
pub fn sdsc() -> CardSpec
    ensures { result
        ≡ card_with (sd_registers 0x0005000000000000 false) 0x00ff8000 0x0000000000090000000040000240009b 4 }
{
    sdsc_with_scr(0x0005_0000_0000_0000)
}

/// Card `sdsc-cmd23`: card `sdsc` with CMD23, which presets how many blocks a transfer has.
pub fn sdsc_cmd23() -> CardSpec
    ensures { result
        ≡ card_with (sd_registers 0x0005000200000000 false) 0x00ff8000 0x0000000000090000000040000240009b 4 }
{
    sdsc_with_scr(0x0005_0002_0000_0000)
}

/// Card `sdhc`: an SD card of high capacity, with 1,024 sectors, sector addresses, high speed and CMD23.
pub fn sdhc() -> CardSpec
    ensures { result
        ≡ card_with (sd_registers 0x0205000200000000 true) 0x40ff8000 0x400000000009000000004000024000df 1024 }
{
    let csd = 0x4000_0000_0009_0000_0000_4000_0240_00df;
    card_with(
        sd_registers(0x0205_0002_0000_0000, true),
        0x40ff_8000,
        csd,
        1024,
    )
}

/// The EXT_CSD of card `emmc`.
pub fn ext_csd_of_emmc() -> [u8; 512]
    ensures { result ≡ emmc_ext_csd }
{
    let mut block = [0; 512];
    block[181] = 0x01;
    block[192] = 0x08;
    block[196] = 0x03;
    block[213] = 0x08;
    block[221] = 0x01;
    block[224] = 0x01;
    block[226] = 0x01;
    block[231] = 0x10;
    block
}

/// Card `emmc` with another EXT_CSD, and so many sectors by it.
pub fn emmc_with(ext_csd: [u8; 512], sectors: u64) -> CardSpec
    ensures { result ≡ card_with (KindRegisters.Mmc (record { ext_csd = ext_csd })) 0x40ff8080 1 sectors }
{
    card_with(
        KindRegisters::Mmc(MmcRegisters { ext_csd }),
        0x40ff_8080,
        CID,
        sectors,
    )
}

/// Card `emmc`: an eMMC device with 2,048 sectors and two boot partitions of 256, sector addresses, high speed and
/// trim. Its erased bytes are FFh.
pub fn emmc() -> CardSpec
    ensures { result ≡ card_with (KindRegisters.Mmc (record { ext_csd = emmc_ext_csd })) 0x40ff8080 1 2048 }
{
    emmc_with(ext_csd_of_emmc(), 2048)
}
