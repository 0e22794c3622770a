// Identification over buses that lie.
use mmc_bus::{Bus, BusAnswer, Reply, ScriptedBus};
use mmc_frame::{encode_r2, encode_r3, encode_response};
use mmc_identify::{IdentFault, identify};
use std::alloc::Global;
use std::collections::VecDeque;
use std::test::Fail;

// Why a card isn't found, if it isn't.
fn refusal<B: Bus>(bus: &mut B) -> Option<IdentFault> {
    match identify(bus) {
        Ok(_) => None,
        Err(why) => Some(why),
    }
}

// A bus with these replies to commands.
fn replying(alloc: Global, replies: &[Reply]) -> Result<ScriptedBus, Fail> {
    let mut answers = VecDeque::new(alloc);
    for reply in replies.iter() {
        answers
            .push_back(BusAnswer::Command(*reply))
            .ok()
            .ok_or("no room")?;
    }
    Ok(ScriptedBus::new(answers))
}

// Which refusal is named: nothing answers; another pattern than that of CMD8; and RCA 0, to CMD3 after CMD0, CMD8, CMD55,
// ACMD41 and CMD2.
#[test]
fn names_what_is_wrong(rt: HostRuntime) -> Result<(), Fail> {
    let mut cid = [0; 16];
    cid[15] = 1;
    let rca_0 = [
        Reply::Silent,
        Reply::Short([0x08, 0x00, 0x00, 0x01, 0xaa, 0x13]),
        Reply::Short(encode_response(55, 0x120)),
        Reply::Short(encode_r3(0x80ff_8000)),
        Reply::Long(encode_r2(&cid)),
        Reply::Short(encode_response(3, 0x0000_0500)),
    ];
    let other_pattern = [
        Reply::Silent,
        Reply::Short([0x08, 0x00, 0x00, 0x01, 0x55, 0xe1]),
    ];
    for (replies, why) in [
        (&[][..], IdentFault::NoAnswer),
        (&other_pattern[..], IdentFault::Voltage),
        (&rca_0[..], IdentFault::Register),
    ] {
        let mut bus = replying(rt.alloc(), replies)?;
        assert_eq!(rt; refusal(&mut bus), Some(why));
    }
    Ok(())
}
