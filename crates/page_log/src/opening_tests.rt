//! The worked log: an index that is made of no rows, into which one row is inserted and settled; whole, cut and damaged.

use crate::tests::area;
use crate::{OpenFault, ReadLog, read_all};
use page_bytes::{Page, PageKind};
use std::alloc::{AllocError, Global};
use std::test::*;
use vec_outside::{Area, MemDisks, Outage};

/// A header of form 2: epoch 1, no events before it, one block, one image, an open seal.
const HEAD: [u8; 40] = [
    0x56, 0x45, 0x43, 0x42, 0x49, 0x54, 0x53, 0x32, 1, 0, 0, 0, 0, 0, 0, 0, 0, 0, 0, 0, 0, 0, 0, 0,
    1, 0, 0, 0, 1, 0, 0, 0, 0, 0, 0, 0, 0, 0, 0, 0xA5,
];

/// The meta tuple of a graph of four places without an entry point.
const META: &[u8] = &[
    0x56, 0x54, 0x49, 0x42, 2, 0, 1, 1, 4, 0, 0, 0, 2, 0, 4, 0, 0, 0, 0, 0, 255, 255, 255, 255, 0,
    0, 0, 0, 1, 0, 0, 0,
];

/// A page with that tuple alone.
pub fn meta_page() -> Page {
    let mut page = Page::fresh(PageKind::Meta);
    let _off = page.add_item(META);
    page
}

/// A header, images of these blocks, and a batch, with a byte changed and of a length.
fn log_of(
    alloc: Global,
    blocks: &[u8],
    batch: &[u8],
    place: usize,
    byte: u8,
    len: usize,
) -> Result<Vec<u8>, AllocError> {
    let page = meta_page();
    let mut log = Vec::new(alloc);
    log.extend_from_slice(&HEAD)?;
    for block in blocks {
        log.extend_from_slice(&[*block, 0, 0, 0])?;
        log.extend_from_slice(page.bytes())?;
    }
    log.extend_from_slice(batch)?;
    if let Some(old) = log.get_mut(place) {
        *old = byte;
    }
    log.truncate(len);
    Ok(log)
}

/// The worked log with a byte changed and of a length; it has 8,302 bytes.
pub fn worked(alloc: Global, place: usize, byte: u8, len: usize) -> Result<Vec<u8>, AllocError> {
    let batch = area(alloc, 65, 0, 66)?;
    log_of(alloc, &[0], &batch, place, byte, len)
}

/// What an opening told: nothing, what is wrong, or the epoch, how many images and events it has, where they end, their room and
/// the place of what is bad.
#[derive(Clone, Copy, Debug, PartialEq, Eq)]
enum Told {
    Nothing,
    Wrong(Area, u64),
    Log(u64, usize, usize, u64, u64, Option<u64>),
    Fault,
}

fn told_of(read: Result<Option<ReadLog>, OpenFault>) -> Told {
    match read {
        Ok(None) => Told::Nothing,
        Ok(Some(log)) => Told::Log(
            log.epoch,
            log.images.len(),
            log.events.len(),
            log.end,
            log.used,
            log.bad,
        ),
        Err(fault) => match fault {
            OpenFault::NotIndex { area, at } => Told::Wrong(area, at),
            _ => Told::Fault,
        },
    }
}

/// What two log areas tell.
fn tell(alloc: Global, log0: Vec<u8>, log1: Vec<u8>) -> Told {
    let mut disks = MemDisks::over(alloc, Vec::new(alloc), log0, log1, Vec::new(alloc));
    told_of(read_all(alloc, &mut disks))
}

/// What the worked log tells with a byte changed.
fn tell_changed(alloc: Global, place: usize, byte: u8) -> Result<Told, AllocError> {
    Ok(tell(alloc, worked(alloc, place, byte, 8_302)?, Vec::new(alloc)))
}

/// What so many of its bytes tell.
fn tell_cut(alloc: Global, len: usize) -> Result<Told, AllocError> {
    Ok(tell(alloc, worked(alloc, 0, 0x56, len)?, Vec::new(alloc)))
}

/// Byte by byte and each place of the log: 8,236 the batch's seal, 8,241 the Put, 8,293 the Entry, 8,301 the next seal.
#[test]
fn the_worked_log(rt: HostRuntime) -> Result<(), OpenFault> {
    let alloc = rt.alloc();
    let Ok(log0) = worked(alloc, 0, 0x56, 8_302) else {
        return Err(OpenFault::Memory);
    };
    assert_eq!(rt; log0.len(), 8_302);
    let mut disks = MemDisks::over(
        alloc,
        Vec::new(alloc),
        log0,
        Vec::new(alloc),
        Vec::new(alloc),
    );
    let Some(log) = read_all(alloc, &mut disks)? else {
        return Err(OpenFault::Memory);
    };
    assert!(rt; log.form == 2 && log.epoch == 1 && log.before == 0 && log.blocks == 1);
    assert!(rt; log.area == Area::Log0 && log.end == 8_301 && log.used == 70 && log.bad.is_none());
    assert_eq!(rt; log.images.len(), 1);
    if let Some((block, page)) = log.images.first() {
        assert_eq!(rt; *block, 0);
        assert_eq!(rt; page.item(1), Some(META));
    }
    assert_eq!(rt; log.events.len(), 2);
    if let Some((place, _)) = log.events.first() {
        assert_eq!(rt; *place, 8_241);
    }
    if let Some((place, _)) = log.events.last() {
        assert_eq!(rt; *place, 8_293);
    }
    Ok(())
}

const WHOLE: Told = Told::Log(1, 1, 2, 8_301, 70, None);

const EMPTY: Told = Told::Log(1, 1, 0, 8_236, 0, None);

/// A byte of the worked log, what it becomes, and what is then told.
const CHANGES: [(usize, u8, Told); 24] = [
    (0, 0x56, WHOLE),
    (0, 0x57, Told::Wrong(Area::Log0, 0)),
    (6, 0x73, Told::Wrong(Area::Log0, 0)),
    // Form 1; and a form 3.
    (7, 0x31, WHOLE),
    (7, 0x33, Told::Wrong(Area::Log0, 0)),
    // Epochs 0, 2, 3 and 513.
    (8, 0, Told::Wrong(Area::Log0, 8)),
    (8, 2, Told::Wrong(Area::Log0, 8)),
    (8, 3, Told::Log(3, 1, 2, 8_301, 70, None)),
    (9, 2, Told::Log(513, 1, 2, 8_301, 70, None)),
    (23, 1, WHOLE),
    // No blocks, 32,769 and 65,537 of them.
    (24, 0, Told::Wrong(Area::Log0, 24)),
    (25, 0x80, Told::Wrong(Area::Log0, 24)),
    (26, 1, Told::Wrong(Area::Log0, 24)),
    // Two images for one block; and none, so that the first byte of the image is a closed seal.
    (28, 2, Told::Wrong(Area::Log0, 28)),
    (28, 0, Told::Log(1, 0, 0, 40, 0, None)),
    (32, 1, Told::Wrong(Area::Log0, 32)),
    (38, 1, Told::Wrong(Area::Log0, 32)),
    (39, 0xA4, Told::Nothing),
    // The image of a block that is not there, and an image that is no page.
    (40, 1, Told::Wrong(Area::Log0, 40)),
    (56, 25, Told::Wrong(Area::Log0, 40)),
    // The batch's seal, its length, its second event, and the seal behind it.
    (8_236, 0, EMPTY),
    (8_237, 62, Told::Log(1, 1, 0, 8_236, 0, Some(8_236))),
    (8_293, 13, Told::Log(1, 1, 1, 8_236, 57, Some(8_293))),
    (8_301, 0xA5, Told::Log(1, 1, 2, 8_301, 70, Some(8_301))),
];

#[test]
fn a_changed_byte(rt: HostRuntime) -> Result<(), AllocError> {
    for (place, byte, told) in CHANGES {
        assert_eq!(rt; tell_changed(rt.alloc(), place, byte)?, told);
    }
    Ok(())
}

/// How many bytes are left of the worked log, and what is then told.
const CUTS: [(usize, Told); 8] = [
    (39, Told::Nothing),
    (40, Told::Wrong(Area::Log0, 40)),
    (8_235, Told::Wrong(Area::Log0, 40)),
    (8_236, EMPTY),
    (8_237, Told::Log(1, 1, 0, 8_236, 0, Some(8_236))),
    (8_300, Told::Log(1, 1, 0, 8_236, 0, Some(8_236))),
    (8_301, WHOLE),
    (0, Told::Nothing),
];

#[test]
fn a_cut(rt: HostRuntime) -> Result<(), AllocError> {
    for (len, told) in CUTS {
        assert_eq!(rt; tell_cut(rt.alloc(), len)?, told);
    }
    Ok(())
}

/// What two images of one of two blocks tell, the second of this block: its block must rise, and be there.
fn tell_two_images(alloc: Global, block: u8) -> Result<Told, AllocError> {
    let mut log = log_of(alloc, &[0, block], &[], 24, 2, 16_432)?;
    if let Some(old) = log.get_mut(28) {
        *old = 2;
    }
    Ok(tell(alloc, log, Vec::new(alloc)))
}

#[test]
fn blocks_of_images_rise(rt: HostRuntime) -> Result<(), AllocError> {
    let alloc = rt.alloc();
    assert_eq!(rt; tell_two_images(alloc, 0)?, Told::Wrong(Area::Log0, 8_236));
    assert_eq!(rt;
        tell_two_images(alloc, 1)?,
        Told::Log(1, 2, 0, 16_432, 0, None)
    );
    assert_eq!(rt; tell_two_images(alloc, 2)?, Told::Wrong(Area::Log0, 8_236));
    Ok(())
}

/// What the worked log tells beside an epoch without a batch in the second area, each with a byte changed.
fn tell_both(alloc: Global, first: (usize, u8), second: (usize, u8)) -> Result<Told, AllocError> {
    let log0 = worked(alloc, first.0, first.1, 8_302)?;
    let mut log1 = worked(alloc, second.0, second.1, 8_236)?;
    if second.0 != 8 && log1.len() > 8 {
        log1[8] = 2;
    }
    Ok(tell(alloc, log0, log1))
}

#[test]
fn both_areas_are_open(rt: HostRuntime) -> Result<(), AllocError> {
    let alloc = rt.alloc();
    let same = (0, 0x56);
    // Epochs 1 and 2, and 3 and 2.
    assert_eq!(rt;
        tell_both(alloc, same, same)?,
        Told::Log(2, 1, 0, 8_236, 0, None)
    );
    assert_eq!(rt;
        tell_both(alloc, (8, 3), same)?,
        Told::Log(3, 1, 2, 8_301, 70, None)
    );
    // What is wrong with a magic or an epoch counts in either area, and what is wrong with sizes in the one that is read.
    assert_eq!(rt; tell_both(alloc, (0, 0), same)?, Told::Wrong(Area::Log0, 0));
    assert_eq!(rt; tell_both(alloc, same, (8, 5))?, Told::Wrong(Area::Log1, 8));
    assert_eq!(rt;
        tell_both(alloc, (32, 1), same)?,
        Told::Log(2, 1, 0, 8_236, 0, None)
    );
    assert_eq!(rt;
        tell_both(alloc, same, (32, 1))?,
        Told::Wrong(Area::Log1, 32)
    );
    assert_eq!(rt; tell_both(alloc, same, (39, 0))?, WHOLE);
    assert_eq!(rt; tell_both(alloc, (39, 0), (39, 0))?, Told::Nothing);
    Ok(())
}

/// Of a new disk nothing is told.
#[test]
fn a_new_disk(rt: HostRuntime) -> Result<(), Outage> {
    let mut disks = MemDisks::empty(rt.alloc())?;
    assert_eq!(rt; told_of(read_all(rt.alloc(), &mut disks)), Told::Nothing);
    Ok(())
}

/// Whether a call of the disks that fails is a fault that is told.
fn is_told(alloc: Global, call: u64) -> Result<bool, AllocError> {
    let log0 = worked(alloc, 0, 0x56, 8_302)?;
    let mut fail = Vec::new(alloc);
    fail.push(call)?;
    let mut disks = MemDisks::over(alloc, Vec::new(alloc), log0, Vec::new(alloc), fail);
    Ok(matches!(
        read_all(alloc, &mut disks),
        Err(OpenFault::Disk { count: 1 })
    ))
}

/// Three calls find the area, two read its image, and four its batch and the seal behind it.
#[test]
fn each_call_fails(rt: HostRuntime) -> Result<(), AllocError> {
    for call in 1..10u64 {
        assert!(rt; is_told(rt.alloc(), call)?);
    }
    assert!(rt; !is_told(rt.alloc(), 10)?);
    Ok(())
}
