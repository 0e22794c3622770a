// Registers of four cards and of the standard's limits, whose fields were read by hand.
use crate::*;
use mmc_frame::Kind;
use std::process::Abort;
use std::test::Fail;

// An SD card of 4 sectors, one of 1024 sectors, and an eMMC device.
const SDSC: u128 = 0x0000_0000_0009_0000_0000_4000_0240_009b;

const SDHC: u128 = 0x4000_0000_0009_0000_0000_4000_0240_00df;

const EMMC: u128 = 0x0000_0000_0000_0000_0000_0000_0000_0001;

// Its manufacturer is 3.
const CID: u128 = 0x0353_4453_5534_3847_8012_3456_7801_6229;

fn erase_unit(rt: &impl Abort, csd: &Csd) -> u64 {
    match csd {
        Csd::V1(_) => csd.erase_unit(),
        Csd::V2(_) => csd.erase_unit(),
        Csd::Mmc(_) => panic!(rt; "the CSD of an eMMC device"),
    }
}

#[test]
fn operation_conditions(rt: HostRuntime) {
    for (register, ready, sector_addresses, access_mode) in [
        (0x00ff_8000, false, false, 0),
        (0x80ff_8000, true, false, 0),
        (0x40ff_8000, false, true, 2),
        (0x40ff_8080, false, true, 2),
        (0xc0ff_8080, true, true, 2),
        (0x20ff_8080, false, false, 1),
    ] {
        let ocr = Ocr::new(register);
        assert_eq!(rt; ocr.is_ready(), ready, "{register}");
        assert_eq!(rt; ocr.has_sector_addresses(), sector_addresses, "{register}");
        assert_eq!(rt; ocr.access_mode(), access_mode, "{register}");
        assert!(rt; ocr.accepts_3_3_volts(), "{register}");
    }
    assert!(rt; !Ocr::new(0x80df_8000).accepts_3_3_volts());
    assert!(rt; !Ocr::new(0x80ef_8000).accepts_3_3_volts());
}

#[test]
fn identifications(rt: HostRuntime) -> Result<(), Fail> {
    let example = read_cid(&EMMC.to_be_bytes())?;
    assert_eq!(rt; example.register(), 1);
    assert_eq!(rt; example.manufacturer(), 0);
    let other = read_cid(&CID.to_be_bytes())?;
    assert_eq!(rt; other.manufacturer(), 3);
    let fault = Err(RegFault::Check);
    assert_eq!(rt; read_cid(&(CID - 2).to_be_bytes()), fault);
    assert_eq!(rt; read_cid(&(CID - 1).to_be_bytes()), fault);
    Ok(())
}

#[test]
fn sdsc_csd(rt: HostRuntime) -> Result<(), Fail> {
    let csd = read_csd(Kind::Sd, &SDSC.to_be_bytes())?;
    assert_eq!(rt; csd.register(), SDSC);
    assert_eq!(rt; csd.sectors(), 4);
    assert_eq!(rt; erase_unit(&rt, &csd), 1);
    assert!(rt; !csd.read_only());
    let Csd::V1(fields) = csd else {
        panic!(rt; "another version");
    };
    assert_eq!(rt; fields.read_bl_len(), 9);
    assert_eq!(rt; fields.c_size(), 0);
    assert_eq!(rt; fields.c_size_mult(), 0);
    assert!(rt; fields.erase_blk_en());
    assert_eq!(rt; fields.sector_size(), 0);
    assert_eq!(rt; fields.write_bl_len(), 9);
    Ok(())
}

#[test]
fn largest_v1(rt: HostRuntime) -> Result<(), Fail> {
    let register: u128 = 0x0000_0000_000b_03ff_c003_c000_02c0_0013;
    let csd = read_csd(Kind::Sd, &register.to_be_bytes())?;
    assert_eq!(rt; csd.sectors(), 8_388_608);
    let Csd::V1(fields) = csd else {
        panic!(rt; "another version");
    };
    assert_eq!(rt; fields.read_bl_len(), 11);
    assert_eq!(rt; fields.c_size(), 4095);
    assert_eq!(rt; fields.c_size_mult(), 7);
    assert_eq!(rt; fields.write_bl_len(), 11);
    let other_check = (register - 2).to_be_bytes();
    assert_eq!(rt; read_csd(Kind::Sd, &other_check), Err(RegFault::Check));
    Ok(())
}

#[test]
fn sdhc_csd(rt: HostRuntime) -> Result<(), Fail> {
    for (register, c_size, sectors) in [
        (SDHC, 0, 1024),
        (
            0x4000_0000_0009_003f_ffff_4000_0240_00c5,
            0x3f_ffff,
            4_294_967_296,
        ),
    ] {
        let csd = read_csd(Kind::Sd, &register.to_be_bytes())?;
        assert_eq!(rt; csd.sectors(), sectors);
        assert_eq!(rt; erase_unit(&rt, &csd), 1);
        assert!(rt; !csd.read_only());
        let Csd::V2(fields) = csd else {
            panic!(rt; "another version");
        };
        assert_eq!(rt; fields.c_size(), c_size);
    }
    Ok(())
}

#[test]
fn emmc_csd(rt: HostRuntime) -> Result<(), Fail> {
    let csd = read_csd(Kind::Mmc, &EMMC.to_be_bytes())?;
    assert_eq!(rt; csd.sectors(), 0, "four bytes");
    assert!(rt; !csd.read_only());
    let Csd::Mmc(fields) = csd else {
        panic!(rt; "an SD card");
    };
    assert_eq!(rt; fields.read_bl_len(), 0);
    assert_eq!(rt; fields.c_size(), 0);
    assert_eq!(rt; fields.c_size_mult(), 0);
    let as_sd = read_csd(Kind::Mmc, &SDSC.to_be_bytes())?;
    assert_eq!(rt; as_sd.sectors(), 4);
    Ok(())
}

#[test]
fn refused_csds(rt: HostRuntime) {
    let unknown: u128 = 0x8000_0000_0000_0000_0000_0000_0000_0089;
    let reserved: u128 = 0xc000_0000_0000_0000_0000_0000_0000_00cd;
    for (register, fault) in [
        (EMMC, RegFault::Range),
        (EMMC - 1, RegFault::Check),
        (unknown, RegFault::Structure),
        (reserved, RegFault::Structure),
    ] {
        assert_eq!(rt; read_csd(Kind::Sd, &register.to_be_bytes()), Err(fault));
    }
    assert!(rt; read_csd(Kind::Mmc, &EMMC.to_be_bytes()).is_ok());
    assert!(rt; read_csd(Kind::Mmc, &unknown.to_be_bytes()).is_ok());
    let short_read_blocks: u128 = 0x0000_0000_0008_0000_0000_4000_0240_00b1;
    let long_write_blocks: u128 = 0x0000_0000_0009_0000_0000_4000_0300_001f;
    for register in [short_read_blocks, long_write_blocks] {
        assert_eq!(rt;
            read_csd(Kind::Sd, &register.to_be_bytes()),
            Err(RegFault::Range)
        );
    }
    let no_end_bit = (EMMC - 1).to_be_bytes();
    assert_eq!(rt; read_csd(Kind::Mmc, &no_end_bit), Err(RegFault::Check));
}

#[test]
fn erase_units_and_protection(rt: HostRuntime) -> Result<(), Fail> {
    let units_of_32: u128 = 0x0000_0000_0009_0000_0000_0f80_0240_0079;
    let csd = read_csd(Kind::Sd, &units_of_32.to_be_bytes())?;
    assert_eq!(rt; csd.sectors(), 4);
    assert_eq!(rt; erase_unit(&rt, &csd), 32);
    let protected_for_now: u128 = 0x0000_0000_0009_0000_0000_4000_0240_10a9;
    let csd = read_csd(Kind::Sd, &protected_for_now.to_be_bytes())?;
    assert!(rt; csd.read_only());
    assert!(rt; csd.tmp_write_protect());
    assert!(rt; !csd.perm_write_protect());
    let protected_for_good: u128 = 0x0000_0000_0009_0000_0000_4000_0240_20ff;
    let csd = read_csd(Kind::Sd, &protected_for_good.to_be_bytes())?;
    assert!(rt; csd.read_only());
    assert!(rt; !csd.tmp_write_protect());
    assert!(rt; csd.perm_write_protect());
    Ok(())
}

#[test]
fn configurations(rt: HostRuntime) {
    for (block, sd_spec, erased, cmd23) in [
        ([0x00, 0x05, 0x00, 0x00, 0, 0, 0, 0], 0, 0x00, false),
        ([0x00, 0x05, 0x00, 0x02, 0, 0, 0, 0], 0, 0x00, true),
        ([0x02, 0x05, 0x00, 0x02, 0, 0, 0, 0], 2, 0x00, true),
        ([0x00, 0x85, 0x00, 0x00, 0, 0, 0, 0], 0, 0xff, false),
    ] {
        let scr = Scr::new(&block);
        assert_eq!(rt; scr.sd_spec(), sd_spec, "{block:?}");
        assert_eq!(rt; scr.erased_byte(), erased, "{block:?}");
        assert_eq!(rt; scr.has_set_block_count(), cmd23, "{block:?}");
        assert!(rt; scr.has_four_lines(), "{block:?}");
    }
    assert!(rt; !Scr::new(&[0x02, 0x01, 0, 0, 0, 0, 0, 0]).has_four_lines());
}

#[test]
fn switches(rt: HostRuntime) {
    let mut block = [0; 64];
    block[13] = 0x03;
    block[16] = 0x01;
    let switched = SwitchStatus::new(&block);
    assert!(rt; switched.supports_high_speed());
    assert!(rt; switched.is_high_speed());
    block[13] = 0x01;
    block[16] = 0x0f;
    let refused = SwitchStatus::new(&block);
    assert!(rt; !refused.supports_high_speed());
    assert!(rt; !refused.is_high_speed());
}
