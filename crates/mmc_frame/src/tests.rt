// Frames and statuses that were worked by hand from the standard.
ghost use Rattle.std.specs.Prelude.{◌*◌, ◌<◌};

use crate::*;
use bitflags::Flags;
use std::process::Abort;
use std::test::Fail;

#[test]
fn commands(rt: HostRuntime) {
    for (index, arg, frame) in [
        (0, 0, [0x40, 0x00, 0x00, 0x00, 0x00, 0x95]),
        (8, 0x1aa, [0x48, 0x00, 0x00, 0x01, 0xaa, 0x87]),
        (16, 0x200, [0x50, 0x00, 0x00, 0x02, 0x00, 0x15]),
        (17, 0, [0x51, 0x00, 0x00, 0x00, 0x00, 0x55]),
        (55, 0, [0x77, 0x00, 0x00, 0x00, 0x00, 0x65]),
    ] {
        assert_eq!(rt; encode(index, arg), frame, "CMD{index}");
        assert_eq!(rt; read_command(&frame), Some((index, arg)), "CMD{index}");
    }
    let flipped = [0x51, 0x00, 0x00, 0x00, 0x00, 0x57];
    assert_eq!(rt; read_command(&flipped), None);
}

#[test]
fn responses(rt: HostRuntime) {
    let frame = [0x11, 0x00, 0x00, 0x09, 0x00, 0x67];
    assert_eq!(rt; read_r1(&frame, 17), Ok(0x900));
    assert_eq!(rt; read_r1(&frame, 24), Err(FrameFault::Index));
    assert_eq!(rt; encode_response(17, 0x900), frame);
    let no_end_bit = [0x11, 0x00, 0x00, 0x09, 0x00, 0x66];
    assert_eq!(rt; read_r1(&no_end_bit, 24), Err(FrameFault::FixedBits));
    let other_state = [0x11, 0x00, 0x00, 0x0b, 0x00, 0x67];
    assert_eq!(rt; read_r1(&other_state, 24), Err(FrameFault::Check));
}

// The frame with the bit at this position flipped; the bit at 0 is sent first.
fn flipped<const N: usize>(mut frame: [u8; N], position: usize) -> [u8; N]
    requires { position < 8 * N }
{
    frame[position / 8] ^= 0x80 >> (position % 8);
    frame
}

// One R1 that is sound: each of its bits that is flipped, and after it each second one.
fn refuses_response_pairs(rt: &impl Abort, frame: [u8; 6], first: usize)
    requires { first < 48 }
{
    let one = flipped(frame, first);
    assert!(rt; read_r1(&one, 17).is_err(), "bit {first}");
    for second in first + 1..48 {
        let two = flipped(one, second);
        assert!(rt; read_r1(&two, 17).is_err(), "bits {first} and {second}");
    }
}

#[test]
fn flipped_responses(rt: HostRuntime) {
    for first in 0..48 {
        refuses_response_pairs(&rt, [0x11, 0x00, 0x00, 0x09, 0x00, 0x67], first);
    }
}

// The R2 of the CSD of an SD card with 4 sectors.
const CSD_FRAME: [u8; 17] = [
    0x3f, 0x00, 0x00, 0x00, 0x00, 0x00, 0x09, 0x00, 0x00, 0x00, 0x00, 0x40, 0x00, 0x02, 0x40, 0x00,
    0x9b,
];

fn refuses_register_pairs(rt: &impl Abort, frame: [u8; 17], first: usize)
    requires { first < 136 }
{
    let one = flipped(frame, first);
    assert!(rt; read_r2(&one).is_err(), "bit {first}");
    for second in first + 1..136 {
        let two = flipped(one, second);
        assert!(rt; read_r2(&two).is_err(), "bits {first} and {second}");
    }
}

#[test]
fn flipped_registers(rt: HostRuntime) {
    for first in 0..136 {
        refuses_register_pairs(&rt, CSD_FRAME, first);
    }
}

#[test]
fn registers(rt: HostRuntime) {
    let csd = [
        0x00, 0x00, 0x00, 0x00, 0x00, 0x09, 0x00, 0x00, 0x00, 0x00, 0x40, 0x00, 0x02, 0x40, 0x00,
        0x9b,
    ];
    assert_eq!(rt; read_r2(&CSD_FRAME), Ok(csd));
    assert_eq!(rt; encode_r2(&csd), CSD_FRAME);
    assert!(rt; check_fits(&csd));
    let mut other_check = CSD_FRAME;
    other_check[16] = 0x9d;
    assert_eq!(rt; read_r2(&other_check), Err(FrameFault::Check));
    other_check[0] = 0x3e;
    assert_eq!(rt; read_r2(&other_check), Err(FrameFault::FixedBits));
}

#[test]
fn operating_conditions(rt: HostRuntime) {
    let ocr = [0x3f, 0x80, 0xff, 0x80, 0x00, 0xff];
    assert_eq!(rt; read_r3(&ocr), Ok(0x80ff_8000));
    assert_eq!(rt; encode_r3(0x80ff_8000), ocr);
    let broken = [0x3f, 0x80, 0xff, 0x80, 0x00, 0xfd];
    assert_eq!(rt; read_r3(&broken), Err(FrameFault::FixedBits));
}

#[test]
fn addresses_and_voltages(rt: HostRuntime) {
    let published = [0x03, 0x00, 0x01, 0x05, 0x00, 0xa5];
    assert_eq!(rt;
        read_r6(&published),
        Ok(R6 {
            rca: 1,
            status: 0x500
        })
    );
    let complaining = encode_response(3, 0xb368_e500);
    assert_eq!(rt;
        read_r6(&complaining),
        Ok(R6 {
            rca: 0xb368,
            status: 0x00c8_0500
        })
    );
    assert_eq!(rt; read_r6(&encode_response(8, 0)), Err(FrameFault::Index));
    let other_pattern = [0x08, 0x00, 0x00, 0x01, 0x55, 0xe1];
    assert_eq!(rt;
        read_r7(&other_pattern),
        Ok(R7 {
            voltage: 1,
            pattern: 0x55
        })
    );
    assert_eq!(rt; read_r7(&published), Err(FrameFault::Index));
}

#[test]
fn statuses(rt: HostRuntime) -> Result<(), Fail> {
    assert_eq!(rt; state(0x900), Some(State::Tran));
    assert_eq!(rt; state(0x0e00), Some(State::Prg));
    assert_eq!(rt; state(0x1200), None);
    assert!(rt; is_clean(Kind::Sd, 0x900));
    assert!(rt; !is_clean(Kind::Sd, 0xe00), "programming");
    assert!(rt; !is_clean(Kind::Sd, 0x800), "not ready for data");
    assert!(rt; !is_clean(Kind::Sd, 0x8000_0900), "out of range");
    assert!(rt; errors(Kind::Sd, 0x8000_0900) == Status::OUT_OF_RANGE);
    assert!(rt;
        errors(Kind::Sd, 0x0200_0920).is_empty(),
        "locked, and an application command"
    );
    assert!(rt; errors(Kind::Sd, 0x980).is_empty());
    assert!(rt; errors(Kind::Mmc, 0x980) == Status::SWITCH_ERROR);
    Ok(())
}
