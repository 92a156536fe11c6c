ghost use Rattle.std.specs.Prelude.{◌≡◌, IfOk, length};

use crate::*;
use page_bytes::{Page, PageKind};
use page_log::OpenFault;
use std::alloc::{AllocError, Global};
use std::test::*;
use vec_outside::{Area, Choice, Disks, MemDisks, Outage};

/// A header: epoch 1, no events before it, one block, one image, an open seal.
const HEAD: [u8; 40] = [
    0x56, 0x45, 0x43, 0x42, 0x49, 0x54, 0x53, 0x32, 1, 0, 0, 0, 0, 0, 0, 0, 0, 0, 0, 0, 0, 0, 0, 0,
    1, 0, 0, 0, 1, 0, 0, 0, 0, 0, 0, 0, 0, 0, 0, 0xA5,
];

/// The meta tuple of a graph of four places without an entry point.
const META: [u8; 32] = [
    0x56, 0x54, 0x49, 0x42, 2, 0, 1, 1, 4, 0, 0, 0, 2, 0, 4, 0, 0, 0, 0, 0, 255, 255, 255, 255, 0,
    0, 0, 0, 1, 0, 0, 0,
];

/// A batch of a Put of the first node and the Entry that names it, behind its seal and its length, and a closed seal.
const BATCH: [u8; 66] = [
    0xA5, 60, 0, 0, 0, 0x01, 0, 0, 1, 0, 1, 0, 0, 0, 1, 0, 2, 0, 1, 0, 0, 0, 1, 0, 1, 0, 4, 0, 0,
    0, 0, 4, 0, 0xFF, 0xFF, 0xFF, 0xFF, 0, 0, 0xFF, 0xFF, 0xFF, 0xFF, 0, 0, 0xFF, 0xFF, 0xFF, 0xFF,
    0, 0, 0xFF, 0xFF, 0xFF, 0xFF, 0, 0, 0x07, 0, 0, 1, 0, 1, 0, 0, 0,
];

/// What an opening told: nothing, what is wrong or bad and where, or the form, how many pages and events there were, what they take
/// of the log's room and how many blocks are unwritten.
#[derive(Clone, Copy, Debug, PartialEq, Eq)]
enum Told {
    Nothing,
    Wrong(Area, u64),
    Bad(Area, u64),
    Index(u8, usize, u64, u64, usize),
    Fault,
}

fn told_of(read: Result<Option<ReadIndex>, OpenFault>) -> Told {
    match read {
        Ok(None) => Told::Nothing,
        Ok(Some(read)) => Told::Index(
            read.form,
            read.loaded.pages.len(),
            read.loaded.before,
            read.loaded.used,
            read.loaded.unwritten.len(),
        ),
        Err(OpenFault::NotIndex { area, at }) => Told::Wrong(area, at),
        Err(OpenFault::BadEvent { area, at }) => Told::Bad(area, at),
        Err(_) => Told::Fault,
    }
}

/// The log of an index with one node, which has 8,302 bytes, with a byte changed and of a length.
fn worked(alloc: Global, place: usize, byte: u8, len: usize) -> Result<Vec<u8>, AllocError> {
    let mut page = Page::fresh(PageKind::Meta);
    page.add_item(&META);
    let mut log = Vec::new(alloc);
    log.extend_from_slice(&HEAD)?;
    log.extend_from_slice(&[0, 0, 0, 0])?;
    log.extend_from_slice(page.bytes())?;
    log.extend_from_slice(&BATCH)?;
    if let Some(old) = log.get_mut(place) {
        *old = byte;
    }
    log.truncate(len);
    Ok(log)
}

/// What an opening tells of that log with a byte changed and of a length.
fn tell(alloc: Global, place: usize, byte: u8, len: usize) -> Result<Told, AllocError> {
    let log = worked(alloc, place, byte, len)?;
    let mut disks = MemDisks::over(
        alloc,
        Vec::new(alloc),
        log,
        Vec::new(alloc),
        Vec::new(alloc),
    );
    Ok(told_of(read_index(alloc, &mut disks)))
}

/// A length to which the log is cut, and what an opening of it tells.
const CUTS: [(usize, Told); 9] = [
    (0, Told::Nothing),
    (39, Told::Nothing),
    (40, Told::Wrong(Area::Log0, 40)),
    (8_235, Told::Wrong(Area::Log0, 40)),
    (8_236, Told::Index(2, 1, 0, 0, 1)),
    (8_237, Told::Bad(Area::Log0, 8_236)),
    (8_300, Told::Bad(Area::Log0, 8_236)),
    (8_301, Told::Index(2, 2, 2, 70, 2)),
    (8_302, Told::Index(2, 2, 2, 70, 2)),
];

#[test]
fn cut_logs(rt: HostRuntime) -> Result<(), AllocError> {
    for (len, wanted) in CUTS {
        assert_eq!(rt; tell(rt.alloc(), 0, 0x56, len)?, wanted);
    }
    Ok(())
}

/// A byte, the place where it stands, and what an opening tells.
const CHANGES: [(usize, u8, Told); 8] = [
    // No batch, one whose first event has no kind, and another kind of index.
    (8_236, 0, Told::Index(2, 1, 0, 0, 1)),
    (8_241, 0, Told::Bad(Area::Log0, 8_241)),
    (8_241, 9, Told::Bad(Area::Log0, 8_241)),
    // The header's magic, and its count of blocks.
    (0, 0, Told::Wrong(Area::Log0, 0)),
    (24, 2, Told::Wrong(Area::Pages, 8_192)),
    // The meta tuple's format, which is not that of the log.
    (8_200, 1, Told::Wrong(Area::Pages, 0)),
    // A Put that names a block behind the next, and an Entry at which no node stands.
    (8_244, 3, Told::Bad(Area::Log0, 8_241)),
    (8_298, 3, Told::Bad(Area::Log0, 8_293)),
];

#[test]
fn changed_bytes(rt: HostRuntime) -> Result<(), AllocError> {
    for (place, byte, wanted) in CHANGES {
        assert_eq!(rt; tell(rt.alloc(), place, byte, 8_302)?, wanted);
    }
    Ok(())
}

/// The pages as the events leave them: a node and its neighbours stand on block 1.
#[test]
fn the_pages(rt: HostRuntime) -> Result<(), AllocError> {
    let alloc = rt.alloc();
    let log = worked(alloc, 0, 0x56, 8_302)?;
    let mut disks = MemDisks::over(
        alloc,
        Vec::new(alloc),
        log,
        Vec::new(alloc),
        Vec::new(alloc),
    );
    let Ok(Some(read)) = read_index(alloc, &mut disks) else {
        return Err(AllocError);
    };
    let counts = match read.loaded.pages.as_slice() {
        [meta, nodes] => (meta.count(), nodes.count(), nodes.number()),
        _ => (0, 0, 0),
    };
    assert_eq!(rt; counts, (1, 2, 1));
    assert_eq!(rt; (read.loaded.epoch, read.loaded.end), (1, 8_301));
    Ok(())
}

/// The pages of an index without nodes.
fn empty(alloc: Global) -> Result<Vec<Page>, AllocError>
    ensures { IfOk result (λ pages. length pages.items ≡ 1) }
{
    let mut page = Page::fresh(PageKind::Meta);
    page.add_item(&META);
    let mut pages = Vec::new(alloc);
    pages.push(page)?;
    Ok(pages)
}

/// What is created is read: one page, which has an image, and no event.
#[test]
fn created_and_read(rt: HostRuntime) -> Result<(), AllocError> {
    let alloc = rt.alloc();
    let log0 = vec![in alloc; 0; 40]?;
    let log1 = vec![in alloc; 0; 40]?;
    let mut disks = MemDisks::over(alloc, Vec::new(alloc), log0, log1, Vec::new(alloc));
    let Ok(loaded) = create(alloc, &mut disks, empty(alloc)?) else {
        return Err(AllocError);
    };
    assert_eq!(rt;
        (loaded.epoch, loaded.end, loaded.unwritten.len()),
        (1, 8_236, 1)
    );
    assert_eq!(rt;
        told_of(read_index(alloc, &mut disks)),
        Told::Index(2, 1, 0, 0, 1)
    );
    Ok(())
}

/// What a reading tells of a log that was written and not made durable, and what one tells of the areas that a crash then leaves.
fn before_and_after(alloc: Global, durable: bool) -> Result<(Told, Told), Outage> {
    let log = worked(alloc, 0, 0x56, 8_302)?;
    let mut disks = MemDisks::empty(alloc)?;
    disks.write_at(Area::Log0, 0, log.as_slice())?;
    let read = if durable {
        read_durable(alloc, &mut disks)
    } else {
        read_index(alloc, &mut disks)
    };
    let before = told_of(read);
    let mut left = disks.crash(Choice::Lost)?;
    Ok((before, told_of(read_index(alloc, &mut left))))
}

/// What was read from areas that were made durable is there after any crash; else it may be lost.
#[test]
fn what_was_read_is_durable(rt: HostRuntime) -> Result<(), Outage> {
    let index = Told::Index(2, 2, 2, 70, 2);
    assert_eq!(rt; before_and_after(rt.alloc(), true)?, (index, index));
    assert_eq!(rt;
        before_and_after(rt.alloc(), false)?,
        (index, Told::Nothing)
    );
    Ok(())
}
