//! A new epoch: its bytes, and what a crash leaves where each call of the disks fails.

use crate::limits::{HEAD, IMAGE};
use crate::log_fault::LogFault;
use crate::opening_tests::{meta_page, worked};
use crate::{open_epoch, read_all, write_epoch};
use page_bytes::{Page, PageKind};
use std::alloc::{AllocError, Global};
use std::test::*;
use vec_outside::{Area, Choice, MemDisks, Outage};

/// A header of form 2: epoch 2, seven events before it, three blocks, two images, a closed seal.
const SECOND: [u8; 40] = [
    0x56, 0x45, 0x43, 0x42, 0x49, 0x54, 0x53, 0x32, 2, 0, 0, 0, 0, 0, 0, 0, 7, 0, 0, 0, 0, 0, 0, 0,
    3, 0, 0, 0, 2, 0, 0, 0, 0, 0, 0, 0, 0, 0, 0, 0,
];

/// So many bytes from a place on.
fn part(bytes: &[u8], at: usize, len: usize) -> &[u8] {
    let Some((_, rest)) = bytes.split_at_checked(at) else {
        return &[];
    };
    match rest.split_at_checked(len) {
        Some((part, _)) => part,
        None => &[],
    }
}

/// Epoch 2 with images of the blocks 0 and 2 of three.
fn write_second(disks: &mut MemDisks) -> Result<(), LogFault> {
    let pages = [Page::fresh(PageKind::Hnsw), meta_page()];
    write_epoch(disks, 2, 7, 3, &pages, &[(0, 1), (2, 0)])
}

#[test]
fn bytes_of_an_epoch(rt: HostRuntime) -> Result<(), Outage> {
    let mut disks = MemDisks::empty(rt.alloc())?;
    assert_eq!(rt; write_second(&mut disks), Ok(()));
    let log = disks.bytes(Area::Log1);
    assert_eq!(rt; log.len(), 16_433);
    assert_eq!(rt; part(log, 0, 40), SECOND.as_slice());
    assert_eq!(rt; part(log, 40, 4), [0u8, 0, 0, 0].as_slice());
    assert!(rt; part(log, 44, 8_192) == meta_page().bytes());
    assert_eq!(rt; part(log, 8_236, 4), [2u8, 0, 0, 0].as_slice());
    assert!(rt; part(log, 8_240, 8_192) == Page::fresh(PageKind::Hnsw).bytes());
    assert_eq!(rt; part(log, 16_432, 1), [0u8].as_slice());
    assert_eq!(rt; read_left(rt.alloc(), &disks, Choice::Kept)?, 0);
    if disks.bytes(Area::Log1).len() < HEAD {
        return Err(Outage::Failed);
    }
    assert_eq!(rt; open_epoch(&mut disks, 2), Ok(()));
    assert_eq!(rt; part(disks.bytes(Area::Log1), 39, 1), [0xA5u8].as_slice());
    assert_eq!(rt; read_left(rt.alloc(), &disks, Choice::Lost)?, 2);
    Ok(())
}

/// The epoch that is read after a crash, 0 where none is or something is wrong with it.
fn read_left(alloc: Global, disks: &MemDisks, choice: Choice) -> Result<u64, Outage> {
    let mut left = disks.crash(choice)?;
    match read_all(alloc, &mut left) {
        Ok(Some(log)) => Ok(if log.bad.is_none() { log.epoch } else { 0 }),
        _ => Ok(0),
    }
}

/// Whether every crash leaves an epoch from a least one to a greatest one.
fn is_left(alloc: Global, disks: &MemDisks, least: u64, most: u64) -> Result<bool, Outage> {
    for seed in 0..6u64 {
        let epoch = read_left(alloc, disks, Choice::Mixed(seed))?;
        if epoch < least || epoch > most {
            return Ok(false);
        }
    }
    let kept = read_left(alloc, disks, Choice::Kept)?;
    let lost = read_left(alloc, disks, Choice::Lost)?;
    Ok(kept >= least && kept <= most && lost >= least && lost <= most)
}

/// The epochs 1 and 2, both open, and the number of a call that fails, 0 for none.
fn two_epochs(alloc: Global, fail: u64) -> Result<MemDisks, AllocError> {
    let log0 = worked(alloc, 0, 0x56, 8_302)?;
    let log1 = worked(alloc, 8, 2, 8_236)?;
    let mut calls = Vec::new(alloc);
    calls.push(fail)?;
    Ok(MemDisks::over(alloc, Vec::new(alloc), log0, log1, calls))
}

/// Whether epoch 3 is written, with an image of block 0.
fn write_third(disks: &mut MemDisks) -> bool {
    write_epoch(disks, 3, 0, 1, &[meta_page()], &[(0, 0)]).is_ok()
}

/// Whether its seal is opened.
fn open_third(disks: &mut MemDisks) -> bool {
    disks.bytes(Area::Log0).len() >= HEAD && open_epoch(disks, 3).is_ok()
}

/// Which of four calls are done: epoch 3 is written, once more where that failed, and opened, once more where that failed; and
/// whether each crash leaves what it may, which is epoch 2 until the seal is written, and epoch 3 once it is done.
fn course(alloc: Global, fail: u64) -> Result<([bool; 4], bool), Outage> {
    let mut disks = two_epochs(alloc, fail)?;
    let first = write_third(&mut disks);
    let begun = is_left(alloc, &disks, 2, 2)?;
    let again = first || write_third(&mut disks);
    let written = is_left(alloc, &disks, 2, 2)?;
    let opened = open_third(&mut disks);
    let between = is_left(alloc, &disks, 2, 3)?;
    let done = opened || open_third(&mut disks);
    let last = is_left(alloc, &disks, 3, 3)?;
    Ok((
        [first, again, opened, done],
        begun && written && between && last,
    ))
}

/// The old seal there is closed by five calls, the last of which syncs it; five more write the header, an image's block, its page
/// and a closed seal, and sync; and two the open seal.
#[test]
fn each_call_fails_in_turn(rt: HostRuntime) -> Result<(), Outage> {
    for fail in 0..13u64 {
        let wrote = fail == 0 || fail > 10;
        let opened = fail < 11;
        assert_eq!(rt;
            course(rt.alloc(), fail)?,
            ([wrote, true, opened, true], true)
        );
    }
    Ok(())
}

/// Epoch 3 is written and opened on disks that stop after so many calls: whether each crash leaves what it may.
fn stopped(alloc: Global, calls: u64) -> Result<bool, Outage> {
    let mut disks = two_epochs(alloc, 0)?;
    disks.stop_after(calls);
    let done = write_third(&mut disks) && open_third(&mut disks);
    if done {
        return is_left(alloc, &disks, 3, 3);
    }
    is_left(alloc, &disks, 2, if calls < 10 { 2 } else { 3 })
}

#[test]
fn disks_stop_after_each_call(rt: HostRuntime) -> Result<(), Outage> {
    for calls in 0..13u64 {
        assert!(rt; stopped(rt.alloc(), calls)?);
    }
    Ok(())
}

/// An area that is too short for a header is filled with zeros first, and epoch 2 is then read.
#[test]
fn a_short_area_is_filled(rt: HostRuntime) -> Result<(), Outage> {
    let alloc = rt.alloc();
    let mut disks = MemDisks::over(
        alloc,
        Vec::new(alloc),
        Vec::new(alloc),
        Vec::new(alloc),
        Vec::new(alloc),
    );
    assert_eq!(rt; write_second(&mut disks), Ok(()));
    assert_eq!(rt; disks.bytes(Area::Log1).len(), HEAD + 2 * IMAGE + 1);
    if disks.bytes(Area::Log1).len() < HEAD {
        return Err(Outage::Failed);
    }
    assert_eq!(rt; open_epoch(&mut disks, 2), Ok(()));
    assert_eq!(rt; read_left(alloc, &disks, Choice::Lost)?, 2);
    Ok(())
}
