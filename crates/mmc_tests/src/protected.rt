// A device whose TMP_WRITE_PROTECT has come on by itself, as it does of some at the end of their life.
use crate::cards::*;
use crate::transfer::{filled, is_all};
use mmc_bus::{BusAnswer, DataIn, Part, Reply, ScriptedBus};
use mmc_direct::{Healed, Stands, read};
use std::alloc::Global;
use std::test::Fail;

// Whether sector 0 of card `emmc` is read. No answer comes to CMD17, and none to CMD13, which settling sends twice; so the device is
// reset, and tells this CSD.
fn is_read_over_a_reset(alloc: Global, csd: u128) -> Result<bool, Fail> {
    let mut answers = answers_of_emmc(alloc, ext_csd_of_emmc())?;
    for _ in 0..3 {
        pushed(&mut answers, BusAnswer::Command(Reply::Silent))?;
    }
    answer_opening(alloc, &mut answers, csd, ext_csd_of_emmc())?;
    pushed(&mut answers, r1(17, 0x900))?;
    let block = BusAnswer::In(DataIn::Good, filled(alloc, 0x5a, 1)?);
    pushed(&mut answers, block)?;
    let mut bus = ScriptedBus::new(answers);
    let session = opened(&mut bus).ok_or("not opened")?;
    let mut healed = Healed::new();
    let mut room = filled(alloc, 0, 1)?;
    let ready = Stands::Ready(session);
    let served = read(&mut bus, &mut healed, ready, Part::User, 0, &mut room);
    Ok(served.answer.is_ok() && is_all(room.as_slice(), 0x5a))
}

// Bit 12 of the CSD is TMP_WRITE_PROTECT. With PERM_WRITE_PROTECT, bit 13, it is another card. Each ends with its check.
#[test]
fn reads_a_device_that_has_become_protected(rt: HostRuntime) -> Result<(), Fail> {
    for (csd, is_read) in [(0x1, true), (0x1033, true), (0x2065, false)] {
        assert_eq!(rt; is_read_over_a_reset(rt.alloc(), csd)?, is_read);
    }
    Ok(())
}
