// The lines of the exchanges that a bus has kept.
use mmc_bus::*;
use std::collections::VecDeque;
use std::test::Fail;

#[test]
fn writes_its_lines(rt: HostRuntime) -> Result<(), Fail> {
    let long = [0x3f, 0, 0, 0, 0, 0, 0, 0, 0, 0, 0, 0, 0, 0, 0, 0, 0x01];
    let mut answers = VecDeque::new(rt.alloc());
    for answer in [
        BusAnswer::Command(Reply::Silent),
        BusAnswer::Command(Reply::Long(long)),
        BusAnswer::Out(DataOut::Rejected),
        BusAnswer::Busy(true),
    ] {
        answers.push_back(answer).ok().ok_or("no room")?;
    }
    let mut bus = TraceBus::new(rt.alloc(), ScriptedBus::new(answers), 3)
        .ok()
        .ok_or("no trace")?;
    tell(&mut bus, 0, 0);
    bus.command([0x42, 0, 0, 0, 0, 0x4d], Want::Long);
    bus.write_data(&[0; 512]);
    assert!(rt; bus.busy());
    let mut text = Vec::new(rt.alloc());
    assert!(rt; bus.write_lines(&mut text).is_ok());
    let lines = "cmd 42000000004d rsp 3f00000000000000000000000000000001\nout rejected\nbusy yes\n";
    assert!(rt; text.as_slice() == lines.as_bytes());
    Ok(())
}
