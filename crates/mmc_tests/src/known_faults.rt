// Cards that are known to do wrong what their registers say they can: by MID and PNM of their CID, with the CRC7 of
// SD Physical Layer 6.00, section 4.5.
use crate::cards::*;
use mmc_recovery::settle;
use mmc_switch::Cause;
use std::alloc::Global;
use std::test::Fail;

// Whether trims and CMD23 are used of a card with this CID, and whether they still are once it was reset.
fn used(alloc: Global, which: Which, cid: u128) -> Result<((bool, bool), (bool, bool)), Fail> {
    let mut spec = spec_of(which);
    spec.registers.cid = cid.to_be_bytes();
    let mut bus = built(alloc, spec)?;
    let session = opened(&mut bus).ok_or("not opened")?.heeding_known_faults();
    let first = (session.info().trims, session.info().cmd23);
    let session = settle(&mut bus, session.break_off(Cause::Answer).give_up())
        .ok()
        .ok_or("not settled")?;
    Ok((first, (session.info().trims, session.info().cmd23)))
}

// ATP "AF SD" and Apacer "APUSD", which lock up at CMD23
const LOCKING_UP: [u128; 2] = [
    0x0941_5041_4620_5344_1000_0000_0101_61a5,
    0x2750_4841_5055_5344_1000_0000_0101_6113,
];

// Apacer "APUSE", and "APUSD" of another maker
const OTHER_SD: [u128; 2] = [
    0x2750_4841_5055_5345_1000_0000_0101_6107,
    0x0350_4841_5055_5344_1000_0000_0101_6117,
];

// SanDisk "SEM02G" to "SEM32G", Kingston "V10008", "V10016" and "M62704", Micron "Q2J54A", which lose data by trims
const LOSING: [u128; 9] = [
    0x0201_0053_454d_3032_4710_0000_0001_4fb9,
    0x0201_0053_454d_3034_4710_0000_0001_4fc1,
    0x0201_0053_454d_3038_4710_0000_0001_4f31,
    0x0201_0053_454d_3136_4710_0000_0001_4f93,
    0x0201_0053_454d_3332_4710_0000_0001_4f37,
    0x7001_0056_3130_3030_3810_0000_0001_4f8b,
    0x7001_0056_3130_3031_3610_0000_0001_4f93,
    0x7001_004d_3632_3730_3410_0000_0001_4f8d,
    0x1301_4e51_324a_3534_4110_0000_0001_4f4f,
];

// SanDisk "SEM64G", and "SEM04G" of another maker
const OTHER_MMC: [u128; 2] = [
    0x0201_0053_454d_3634_4710_0000_0001_4fcf,
    0x7001_0053_454d_3034_4710_0000_0001_4fa5,
];

// Whether of each of these cards trims and CMD23 are used as wanted, before a reset and after it.
fn are_used(
    alloc: Global,
    which: Which,
    cids: &[u128],
    wanted: (bool, bool),
) -> Result<bool, Fail> {
    for cid in cids.iter() {
        if used(alloc, which, *cid)? != (wanted, wanted) {
            return Ok(false);
        }
    }
    Ok(true)
}

#[test]
fn leaves_unused_what_a_card_does_wrong(rt: HostRuntime) -> Result<(), Fail> {
    let alloc = rt.alloc();
    assert!(rt; are_used(alloc, Which::SdscCmd23, &LOCKING_UP, (false, false))?);
    assert!(rt; are_used(alloc, Which::SdscCmd23, &OTHER_SD, (false, true))?);
    assert!(rt; are_used(alloc, Which::Emmc, &LOSING, (false, true))?);
    assert!(rt; are_used(alloc, Which::Emmc, &OTHER_MMC, (true, true))?);
    Ok(())
}
