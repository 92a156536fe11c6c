//! The writing side of the log: what a crash leaves after each flush, where each call of the disks fails in turn.

ghost use Rattle.std.specs.Prelude.{◌≤◌, length};
ghost use Rattle.page_log.specs.Parts.{unsettled, ReachesTo};
ghost use Rattle.vec_event.specs.Spelling.{IsWritable};
ghost use Rattle.vec_outside.specs.MemDisks.{mem_disk};

use crate::log::Log;
use crate::log_fault::LogFault;
use crate::log_reading::read_batches;
use std::alloc::{AllocError, Global};
use std::test::*;
use vec_event::Event;
use vec_outside::{Area, Choice, MemDisks, Outage};

/// A log area of zeros, and the number of a call that fails, 0 for none.
fn zeros(alloc: Global, len: usize, fail: u64) -> Result<MemDisks, AllocError> {
    let log = vec![in alloc; 0u8; len]?;
    let mut calls = Vec::new(alloc);
    calls.push(fail)?;
    Ok(MemDisks::over(alloc, Vec::new(alloc), log, Vec::new(alloc), calls))
}

/// Of five bytes: 8, and the block in four.
#[tactic(auto, unfolding(vec_event::specs::Spelling::IsWritable))]
fn hint(block: u32) -> Event
    requires { block ≤ 32768 }
    ensures { IsWritable result }
{
    Event::Hint { block }
}

/// Whether the log takes one more.
fn add(log: &mut Log, disks: &MemDisks, block: u32) -> bool
    requires block { block ≤ 32768 }
    requires reach { ReachesTo (unsettled log.old) (length ((mem_disk disks.now).seen (unsettled log.old).area)) }
    ensures reach { ReachesTo (unsettled log.new) (length ((mem_disk disks.now).seen (unsettled log.new).area)) }
{
    match log.append(&hint(block)) {
        Ok(()) => true,
        Err(_) => false,
    }
}

/// Whether all is settled.
fn settle(log: &mut Log, disks: &mut MemDisks) -> bool
    requires reach { ReachesTo (unsettled log.old) (length ((mem_disk disks.old).seen (unsettled log.old).area)) }
    ensures reach { ReachesTo (unsettled log.new) (length ((mem_disk disks.new).seen (unsettled log.new).area)) }
{
    log.flush(disks).is_ok()
}

/// How many events a crash leaves, and where the log ends then.
fn left(alloc: Global, disks: &MemDisks, choice: Choice) -> Result<(usize, u64), Outage> {
    let mut left = disks.crash(choice)?;
    let run = read_batches(alloc, &mut left, Area::Log0, 40)?;
    if run.bad.is_some() {
        return Err(Outage::Failed);
    }
    Ok((run.events.len(), run.end))
}

/// Whether of two events some crash leaves one alone.
fn parts(alloc: Global, disks: &MemDisks) -> Result<bool, Outage> {
    for seed in 0..4u64 {
        if left(alloc, disks, Choice::Mixed(seed))?.0 == 1 {
            return Ok(true);
        }
    }
    Ok(left(alloc, disks, Choice::Kept)?.0 == 1)
}

/// Two events, a flush, one event more and two flushes: which flushes settle all, what a crash leaves after the first, and what
/// after the last.
#[derive(Clone, Copy, Debug, PartialEq, Eq)]
struct Course {
    settled: [bool; 3],
    first: usize,
    last: (usize, u64),
}

fn flush_thrice(alloc: Global, len: usize, fail: u64) -> Result<Course, Outage> {
    let mut disks = zeros(alloc, len, fail)?;
    if disks.bytes(Area::Log0).len() < 40 {
        return Err(Outage::Failed);
    }
    let mut log = Log::over(alloc, 1, Area::Log0, 40, 0);
    let _one = add(&mut log, &disks, 1);
    let _two = add(&mut log, &disks, 2);
    let first = settle(&mut log, &mut disks);
    let after = left(alloc, &disks, Choice::Lost)?.0;
    if len > 40 && parts(alloc, &disks)? {
        return Err(Outage::Failed);
    }
    let _three = add(&mut log, &disks, 3);
    let second = settle(&mut log, &mut disks);
    let third = settle(&mut log, &mut disks);
    Ok(Course {
        settled: [first, second, third],
        first: after,
        last: left(alloc, &disks, Choice::Lost)?,
    })
}

/// The length of the area, the call that fails, whether the first and the second flush settle all, how many events are left
/// after the first, and where the log ends after the last.
type Row = (usize, u64, bool, bool, usize, u64);

/// A flush asks for the area's length, writes the events and syncs, and writes the seal and syncs. Where it fails before the
/// seal, the third event joins the two; after that it stands in a batch of its own, five bytes further on. Where the area ends
/// at the seal's place, a byte is written there and synced first.
const ROWS: [Row; 13] = [
    (41, 0, true, true, 2, 65),
    (41, 1, false, true, 0, 60),
    (41, 2, false, true, 0, 60),
    (41, 3, false, true, 0, 60),
    (41, 4, false, true, 0, 65),
    (41, 5, false, true, 0, 65),
    (41, 7, true, false, 2, 65),
    (41, 9, true, false, 2, 65),
    (40, 0, true, true, 2, 65),
    (40, 2, false, true, 0, 60),
    (40, 3, false, true, 0, 60),
    (40, 5, false, true, 0, 60),
    (40, 7, false, true, 0, 65),
];

#[test]
fn each_call_fails_in_turn(rt: HostRuntime) -> Result<(), Outage> {
    for (len, fail, first, second, after, end) in ROWS {
        let want = Course {
            settled: [first, second, true],
            first: after,
            last: (3, end),
        };
        assert_eq!(rt; flush_thrice(rt.alloc(), len, fail)?, want);
    }
    Ok(())
}

/// The bytes of a batch: an open seal, 10, the two events, and a closed seal.
#[test]
fn bytes_of_a_batch(rt: HostRuntime) -> Result<(), Outage> {
    let mut disks = zeros(rt.alloc(), 41, 0)?;
    if disks.bytes(Area::Log0).len() < 40 {
        return Err(Outage::Failed);
    }
    let mut log = Log::over(rt.alloc(), 1, Area::Log0, 40, 0);
    assert_eq!(rt; log.reserve(2), Ok(()));
    assert!(rt; add(&mut log, &disks, 1));
    assert!(rt; add(&mut log, &disks, 2));
    assert!(rt; log.epoch() == 1 && log.used() == 20);
    assert!(rt; settle(&mut log, &mut disks));
    assert_eq!(rt; disks.bytes(Area::Log0).get(40..), Some(BATCH.as_slice()));
    Ok(())
}

const BATCH: [u8; 16] = [0xA5, 10, 0, 0, 0, 8, 1, 0, 0, 0, 8, 2, 0, 0, 0, 0];

/// An event of five bytes takes ten of the room.
#[test]
fn a_log_is_full(rt: HostRuntime) -> Result<(), Outage> {
    let mut log = Log::over(rt.alloc(), 2, Area::Log1, 40, 268_435_447);
    let full = LogFault::Full {
        used: 268_435_447,
        size: 5,
    };
    assert_eq!(rt; log.append(&hint(1)), Err(full));
    let mut log = Log::over(rt.alloc(), 2, Area::Log1, 40, 268_435_446);
    assert_eq!(rt; log.append(&hint(1)), Ok(()));
    Ok(())
}
