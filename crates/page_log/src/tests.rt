//! The worked log: an insert of one node into an empty index, as one batch.

use crate::batches::Run;
use crate::events::{Piece, read_events};
use crate::log_reading::read_batches;
use std::alloc::{AllocError, Global};
use std::test::*;
use vec_event::Event;
use vec_outside::{Area, MemDisks, Outage};

/// The events of the worked log's batch, a Put of 52 bytes and an Entry of 8. They stand from 8,241 on.
const EVENTS: [u8; 60] = [
    0x01, 0, 0, 1, 0, 1, 0, 0, 0, 1, 0, 2, 0, 1, 0, 0, 0, 1, 0, 1, 0, 4, 0, 0, 0, 0, 4, 0, 0xFF,
    0xFF, 0xFF, 0xFF, 0, 0, 0xFF, 0xFF, 0xFF, 0xFF, 0, 0, 0xFF, 0xFF, 0xFF, 0xFF, 0, 0, 0xFF, 0xFF,
    0xFF, 0xFF, 0, 0, 0x07, 0, 0, 1, 0, 1, 0, 0,
];

/// How many events are read of these bytes, the place of the last of them, and how many bytes they have.
fn told(alloc: Global, bytes: &[u8]) -> Result<(usize, u64, Piece), AllocError> {
    let mut events: Vec<(u64, Event)> = Vec::new(alloc);
    let piece = read_events(alloc, 8_241, bytes, &mut events)?;
    let last = match events.last() {
        Some((place, _)) => *place,
        None => 0,
    };
    Ok((events.len(), last, piece))
}

/// So many bytes of whole events, behind which no event begins, or may begin.
fn whole(len: usize, bad: bool) -> Piece {
    Piece { len, bad }
}

#[test]
fn events_with_their_places(rt: HostRuntime) -> Result<(), AllocError> {
    assert_eq!(rt; told(rt.alloc(), &EVENTS)?, (2, 8_293, whole(60, false)));
    // Without the last byte, and without the second event.
    assert_eq!(rt;
        told(rt.alloc(), &EVENTS[..59])?,
        (1, 8_241, whole(52, false))
    );
    assert_eq!(rt;
        told(rt.alloc(), &EVENTS[..52])?,
        (1, 8_241, whole(52, false))
    );
    assert_eq!(rt; told(rt.alloc(), &EVENTS[..51])?, (0, 0, whole(0, false)));
    // From the second byte on no event begins, whatever follows.
    assert_eq!(rt; told(rt.alloc(), &EVENTS[1..])?, (0, 0, whole(0, true)));
    assert_eq!(rt; told(rt.alloc(), &[])?, (0, 0, whole(0, false)));
    Ok(())
}

/// A log area of that batch alone: its seal, its length, its events and a closed seal; with a byte changed, and of a length.
pub fn area(alloc: Global, place: usize, byte: u8, len: usize) -> Result<Vec<u8>, AllocError> {
    let mut log = Vec::new(alloc);
    log.extend_from_slice(&[0xA5, 60, 0, 0, 0])?;
    log.extend_from_slice(&EVENTS)?;
    log.push(0)?;
    if let Some(old) = log.get_mut(place) {
        *old = byte;
    }
    log.truncate(len);
    Ok(log)
}

/// A log with so many calls of its disk that fail.
fn read_log(alloc: Global, log: Vec<u8>, fail: &[u64]) -> Result<Run, Outage> {
    let fail = fail.to_vec(alloc)?;
    let mut disks = MemDisks::over(alloc, Vec::new(alloc), log, Vec::new(alloc), fail);
    read_batches(alloc, &mut disks, Area::Log0, 0)
}

#[derive(Clone, Copy)]
struct Row {
    place: usize,
    byte: u8,
    len: usize,
    events: usize,
    end: u64,
    used: u64,
    bad: Option<u64>,
}

const ROWS: [Row; 9] = [
    Row {
        place: 65,
        byte: 0,
        len: 66,
        events: 2,
        end: 65,
        used: 70,
        bad: None,
    },
    // The log's end is the area's.
    Row {
        place: 65,
        byte: 0,
        len: 65,
        events: 2,
        end: 65,
        used: 70,
        bad: None,
    },
    // A closed seal.
    Row {
        place: 0,
        byte: 0xA4,
        len: 66,
        events: 0,
        end: 0,
        used: 0,
        bad: None,
    },
    // The next seal is open, and nothing follows it.
    Row {
        place: 65,
        byte: 0xA5,
        len: 66,
        events: 2,
        end: 65,
        used: 70,
        bad: Some(65),
    },
    // A byte more than the events have, which is no event's; one more, which the area has not; and none.
    Row {
        place: 1,
        byte: 61,
        len: 66,
        events: 2,
        end: 0,
        used: 70,
        bad: Some(65),
    },
    Row {
        place: 1,
        byte: 62,
        len: 66,
        events: 0,
        end: 0,
        used: 0,
        bad: Some(0),
    },
    Row {
        place: 1,
        byte: 0,
        len: 66,
        events: 0,
        end: 0,
        used: 0,
        bad: Some(0),
    },
    // The second event is of no kind.
    Row {
        place: 57,
        byte: 13,
        len: 66,
        events: 1,
        end: 0,
        used: 57,
        bad: Some(57),
    },
    // The area ends within the length.
    Row {
        place: 65,
        byte: 0,
        len: 4,
        events: 0,
        end: 0,
        used: 0,
        bad: Some(0),
    },
];

#[test]
fn batches(rt: HostRuntime) -> Result<(), Outage> {
    for row in ROWS {
        let log = area(rt.alloc(), row.place, row.byte, row.len)?;
        let run = read_log(rt.alloc(), log, &[])?;
        assert_eq!(rt; run.events.len(), row.events);
        assert!(rt; run.end == row.end && run.used == row.used);
        assert_eq!(rt; run.bad, row.bad);
    }
    Ok(())
}

/// A batch of so many bytes of events, each a Hint of five bytes.
fn many_hints(alloc: Global, events: u32) -> Result<Vec<u8>, AllocError> {
    let mut log = Vec::new(alloc);
    log.push(0xA5)?;
    log.extend_from_slice(&events.wrapping_mul(5).to_le_bytes())?;
    for _ in 0..events {
        log.extend_from_slice(&[8, 1, 0, 0, 0])?;
    }
    Ok(log)
}

/// A batch of one event that drops the offsets from 1 to so many.
fn long_drop(alloc: Global, offsets: u16) -> Result<Vec<u8>, AllocError> {
    let mut log = Vec::new(alloc);
    log.push(0xA5)?;
    log.extend_from_slice(&(7 + 2 * u32::from(offsets)).to_le_bytes())?;
    log.extend_from_slice(&[11, 1, 0, 0, 0])?;
    log.extend_from_slice(&offsets.to_le_bytes())?;
    for offset in 0..offsets {
        log.extend_from_slice(&offset.wrapping_add(1).to_le_bytes())?;
    }
    Ok(log)
}

/// A batch of 65,536 bytes or more is read in pieces. An event across two of them is read with the second, and one that is
/// longer than a piece in a longer piece.
#[test]
fn batches_of_more_than_a_piece(rt: HostRuntime) -> Result<(), Outage> {
    let run = read_log(rt.alloc(), many_hints(rt.alloc(), 13_108)?, &[])?;
    assert_eq!(rt; run.events.len(), 13_108);
    assert!(rt; run.end == 65_545 && run.used == 131_080 && run.bad.is_none());
    let run = read_log(rt.alloc(), long_drop(rt.alloc(), 40_000)?, &[])?;
    assert_eq!(rt; run.events.len(), 1);
    assert!(rt; run.end == 80_012 && run.used == 80_012 && run.bad.is_none());
    Ok(())
}

/// The length of the area, the front of the batch, its events, and the seal behind it: four calls.
#[test]
fn each_read_fails(rt: HostRuntime) -> Result<(), Outage> {
    for call in 1..5u64 {
        let log = area(rt.alloc(), 65, 0, 66)?;
        assert!(rt; matches!(read_log(rt.alloc(), log, &[call]), Err(Outage::Failed)));
    }
    let log = area(rt.alloc(), 65, 0, 66)?;
    assert!(rt; read_log(rt.alloc(), log, &[5]).is_ok());
    Ok(())
}
