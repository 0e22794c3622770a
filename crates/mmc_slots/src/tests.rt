// Four slots, and what goes into service of them.
use crate::*;

const READ: u8 = 0;

const WRITE: u8 = 1;

const EMPTY: Slot = Slot {
    ticket: 0,
    memory: 0,
    start: 0,
    count: 0,
    client: 0,
    state: FREE,
    kind: 0,
    part: 0,
    answer: 0,
};

// A request for eight sectors of the user's partition.
fn request(ticket: u32, kind: u8, start: u32) -> Slot {
    Slot {
        ticket: u64::from(ticket),
        memory: 1000 + u64::from(ticket),
        start,
        count: 8,
        kind,
        ..EMPTY
    }
}

// The sectors that go into service, and of how many requests they are.
fn started(slots: &mut [Slot], most: u64) -> Option<(u64, u64, usize)> {
    let extent = start(slots, most)?;
    Some((extent.start, extent.end, extent.members))
}

#[test]
fn neighbours_are_served_together(rt: HostRuntime) {
    for (most, first) in [(16, (8, 24, 2)), (1024, (8, 32, 3)), (8, (16, 24, 1))] {
        let mut slots = [EMPTY; 4];
        for (ticket, start) in [(0, 16), (1, 8), (2, 40), (3, 24)] {
            assert_eq!(rt; push(&mut slots, request(ticket, WRITE, start)), Ok(()));
        }
        assert_eq!(rt; push(&mut slots, request(4, WRITE, 32)), Err(Full));
        assert_eq!(rt; started(&mut slots, most), Some(first), "{most}");
        assert!(rt; conclude(&mut slots, true));
        assert_eq!(rt; push(&mut slots, request(4, WRITE, 100)), Ok(()));
    }
}

#[test]
fn none_passes_an_earlier_one(rt: HostRuntime) {
    let mut slots = [EMPTY; 4];
    for (ticket, kind, start) in [(0, READ, 0), (1, WRITE, 12), (2, READ, 8)] {
        assert_eq!(rt; push(&mut slots, request(ticket, kind, start)), Ok(()));
    }
    for extent in [(0, 8, 1), (12, 20, 1), (8, 16, 1)] {
        assert_eq!(rt; started(&mut slots, 1024), Some(extent));
        assert!(rt; conclude(&mut slots, true));
    }
    assert_eq!(rt; started(&mut slots, 1024), None);
}

#[test]
fn several_that_failed_are_served_alone(rt: HostRuntime) {
    let mut slots = [EMPTY; 4];
    for (ticket, start) in [(0, 0), (1, 8), (2, 100)] {
        assert_eq!(rt; push(&mut slots, request(ticket, READ, start)), Ok(()));
    }
    assert_eq!(rt; started(&mut slots, 1024), Some((0, 16, 2)));
    assert!(rt; !conclude(&mut slots, false));
    for extent in [(0, 8, 1), (8, 16, 1), (100, 108, 1)] {
        assert_eq!(rt; started(&mut slots, 1024), Some(extent));
        assert!(rt; conclude(&mut slots, false));
    }
    assert_eq!(rt; started(&mut slots, 1024), None);
}

#[test]
fn one_that_waits_is_given_back(rt: HostRuntime) {
    let mut slots = [EMPTY; 4];
    for (ticket, start) in [(0, 0), (1, 50), (2, 100), (3, 150)] {
        assert_eq!(rt; push(&mut slots, request(ticket, WRITE, start)), Ok(()));
    }
    assert_eq!(rt; started(&mut slots, 1024), Some((0, 8, 1)));
    assert_eq!(rt; cancel(&mut slots, 0), Err(CancelFault::InService));
    let given = cancel(&mut slots, 1).ok();
    assert_eq!(rt; given.map(|slot| slot.memory), Some(1001));
    assert_eq!(rt; cancel(&mut slots, 1), Err(CancelFault::Unknown));

    // The gap is closed, and the new one is behind all others.
    assert_eq!(rt; push(&mut slots, request(4, WRITE, 50)), Ok(()));
    assert_eq!(rt; slots.map(|slot| slot.ticket), [0, 2, 3, 4]);
}
