// The EXT_CSD of an eMMC device of 2048 sectors, and changes of it, whose sizes were worked by hand.
use crate::*;
use std::test::Fail;

fn device() -> [u8; 512] {
    let mut block = [0; 512];
    block[181] = 0x01;
    block[192] = 0x08;
    block[196] = 0x03;
    block[213] = 0x08;
    block[221] = 0x01;
    block[224] = 0x01;
    block[226] = 0x01;
    block[231] = 0x10;
    block
}

#[test]
fn fields(rt: HostRuntime) -> Result<(), Fail> {
    let ext_csd = ExtCsd::read(&device())?;
    assert_eq!(rt; ext_csd.sectors(), 2048);
    assert_eq!(rt; ext_csd.boot_sectors(), 256);
    assert_eq!(rt; ext_csd.erase_unit(), 1024);
    assert!(rt; ext_csd.trims());
    assert_eq!(rt; ext_csd.erased_byte(), 0xff);
    assert!(rt; ext_csd.high_speed());
    assert_eq!(rt; ext_csd.partition_config(), 0);
    assert_eq!(rt; ext_csd.erase_group_def(), 0);
    assert_eq!(rt; ext_csd.bus_width(), 0);
    assert_eq!(rt; ext_csd.hs_timing(), 0);
    for i in 1..5 {
        assert_eq!(rt; ext_csd.gp_sectors(i), 0, "partition {i}");
    }
    Ok(())
}

#[test]
fn other_fields(rt: HostRuntime) -> Result<(), Fail> {
    let mut block = device();
    block[175] = 0x01;
    block[179] = 0x49;
    block[181] = 0x00;
    block[183] = 0x02;
    block[185] = 0x01;
    block[192] = 0x05;
    block[196] = 0x01;
    block[212] = 0x04;
    block[215] = 0x80;
    block[231] = 0x6f;
    let ext_csd = ExtCsd::read(&block)?;
    assert_eq!(rt; ext_csd.sectors(), 0x8000_0804);
    assert!(rt; !ext_csd.trims());
    assert_eq!(rt; ext_csd.erased_byte(), 0x00);
    assert!(rt; !ext_csd.high_speed());
    assert_eq!(rt; ext_csd.partition_config(), 0x49);
    assert_eq!(rt; ext_csd.erase_group_def(), 1);
    assert_eq!(rt; ext_csd.bus_width(), 2);
    assert_eq!(rt; ext_csd.hs_timing(), 1);
    Ok(())
}

#[test]
fn refused(rt: HostRuntime) {
    let mut block = device();
    block[192] = 0x04;
    block[224] = 0x00;
    assert_eq!(rt; ExtCsd::read(&block), Err(ExtFault::Revision));
    block[192] = 0x08;
    assert_eq!(rt; ExtCsd::read(&block), Err(ExtFault::ZeroSize));
}

#[test]
fn general_purpose_partitions(rt: HostRuntime) -> Result<(), Fail> {
    let mut block = device();
    block[155] = 0x01;
    block[143] = 0x01;
    block[154] = 0x01;
    let ext_csd = ExtCsd::read(&block)?;
    assert_eq!(rt; ext_csd.gp_sectors(1), 1024);
    assert_eq!(rt; ext_csd.gp_sectors(2), 0);
    assert_eq!(rt; ext_csd.gp_sectors(3), 0);
    assert_eq!(rt; ext_csd.gp_sectors(4), 67_108_864);
    block[144] = 0xff;
    block[145] = 0xff;
    block[143] = 0xff;
    let too_large = ExtCsd::read(&block)?.gp_sectors(1);
    assert_eq!(rt; too_large, 17_179_868_160);
    assert_eq!(rt; existing_sectors(too_large, Addressing::Bytes), 0);
    assert_eq!(rt; existing_sectors(too_large, Addressing::Sectors), 0);
    Ok(())
}

#[test]
fn sizes_by_addressing(rt: HostRuntime) {
    assert_eq!(rt; existing_sectors(8_388_608, Addressing::Bytes), 8_388_608);
    assert_eq!(rt; existing_sectors(8_388_609, Addressing::Bytes), 0);
    assert_eq!(rt; existing_sectors(8_388_609, Addressing::Sectors), 8_388_609);
    assert_eq!(rt;
        existing_sectors(4_294_967_296, Addressing::Sectors),
        4_294_967_296
    );
    assert_eq!(rt; existing_sectors(4_294_967_297, Addressing::Sectors), 0);
}
