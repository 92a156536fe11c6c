//! Pages that are written, read, refused and left by a crash.

use crate::{PageFileFault, read_one, write_pages};
use page_bytes::{Page, PageKind};
use std::alloc::{AllocError, Global};
use std::test::*;
use vec_outside::{Area, Choice, Disks, MemDisks, Outage};

/// A page that is told by a number.
fn numbered(number: u64) -> Page {
    let mut page = Page::fresh(PageKind::Hnsw);
    page.set_number(number);
    page
}

/// Writes blocks 0 and 1.
fn write_two(disks: &mut MemDisks, pages: &[Page]) -> Result<(), PageFileFault> {
    if pages.len() < 2 {
        return Err(PageFileFault::Memory);
    }
    write_pages(disks, pages, &[(0, 0), (1, 1)])
}

/// Writes one block that lies in the area or right behind it.
fn write_one(disks: &mut MemDisks, page: Page, block: u32) -> Result<(), PageFileFault> {
    if block > 32_767 || 8_192 * u64::from(block) > disks.bytes(Area::Pages).len() as u64 {
        return Err(PageFileFault::Memory);
    }
    write_pages(disks, &[page], &[(block, 0)])
}

/// Changes a byte of the pages for good.
fn damage(disks: &mut MemDisks, at: u64, byte: u8) -> Result<(), Outage> {
    if at > disks.bytes(Area::Pages).len() as u64 {
        return Err(Outage::Memory);
    }
    disks.write_at(Area::Pages, at, &[byte])?;
    disks.sync(Area::Pages)
}

/// The number of the page of a block, after the worst crash.
fn number_left(disks: &MemDisks, block: u32) -> Result<u64, PageFileFault> {
    match disks.crash(Choice::Lost) {
        Ok(mut left) => Ok(read_one(&mut left, block)?.number()),
        Err(_) => Err(PageFileFault::Memory),
    }
}

#[test]
fn pages_are_durable(rt: HostRuntime) -> Result<(), Outage> {
    let mut disks = MemDisks::empty(rt.alloc())?;
    assert_eq!(rt; write_two(&mut disks, &[numbered(5), numbered(6)]), Ok(()));
    assert_eq!(rt; disks.bytes(Area::Pages).len(), 16_384);
    assert_eq!(rt; number_left(&disks, 0), Ok(5));
    assert_eq!(rt; number_left(&disks, 1), Ok(6));
    assert_eq!(rt; write_one(&mut disks, numbered(7), 1), Ok(()));
    assert_eq!(rt; write_one(&mut disks, numbered(8), 2), Ok(()));
    assert_eq!(rt; number_left(&disks, 0), Ok(5));
    assert_eq!(rt; number_left(&disks, 1), Ok(7));
    assert_eq!(rt; number_left(&disks, 2), Ok(8));
    Ok(())
}

#[test]
fn no_page(rt: HostRuntime) -> Result<(), Outage> {
    let mut disks = MemDisks::empty(rt.alloc())?;
    assert_eq!(rt; write_two(&mut disks, &[numbered(5), numbered(6)]), Ok(()));
    // Past the end; and where the line pointers end at no multiple of 4.
    assert_eq!(rt;
        number_left(&disks, 2),
        Err(PageFileFault::NotPage { at: 16_384 })
    );
    damage(&mut disks, 8_192 + 12, 25)?;
    assert_eq!(rt; number_left(&disks, 0), Ok(5));
    assert_eq!(rt;
        number_left(&disks, 1),
        Err(PageFileFault::NotPage { at: 8_192 })
    );
    Ok(())
}

/// Two writes and a sync: each of the three fails once, and the next call makes up for it.
#[test]
fn each_call_fails(rt: HostRuntime) -> Result<(), AllocError> {
    for n in 1..4u64 {
        let mut disks = failing(rt.alloc(), n)?;
        let pages = [numbered(5), numbered(6)];
        assert_eq!(rt;
            write_two(&mut disks, &pages),
            Err(PageFileFault::Disk { count: 1 })
        );
        assert!(rt;
            matches!(
                number_left(&disks, 1),
                Err(PageFileFault::NotPage { at: 8_192 })
            )
        );
        assert_eq!(rt; write_two(&mut disks, &pages), Ok(()));
        assert_eq!(rt; number_left(&disks, 1), Ok(6));
    }
    let mut disks = failing(rt.alloc(), 1)?;
    assert!(rt;
        matches!(
            read_one(&mut disks, 0),
            Err(PageFileFault::Disk { count: 1 })
        )
    );
    Ok(())
}

/// No pages, and a call that fails.
fn failing(alloc: Global, call: u64) -> Result<MemDisks, AllocError> {
    let mut fail = Vec::new(alloc);
    fail.push(call)?;
    let none = Vec::new(alloc);
    Ok(MemDisks::over(alloc, none, Vec::new(alloc), Vec::new(alloc), fail))
}
