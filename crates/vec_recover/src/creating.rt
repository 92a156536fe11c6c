//! A new index is put on disks.

ghost use Rattle.std.specs.Prelude.{◌≡◌, ◌≢◌, ◌≤◌, ◌+◌, ◌*◌, ℕ, List, All, IfOk, IfErr, OnOk, length};
ghost use Rattle.index_sizes.specs.declared.limits.TheConstants.{MOST_BLOCKS};
ghost use Rattle.vec_outside.specs.Disk.{LeavesOnly};
ghost use Rattle.vec_outside.specs.declared.disks.Area.TheVariants.{Log0};
ghost use Rattle.page_log.specs.BothLogs.{IsStanding, alone, begun, begun_log};
ghost use Rattle.page_log.specs.NewEpochs.{IsNewEpoch};
ghost use Rattle.page_log.specs.declared.limits.TheConstants.{HEAD, IMAGE};
ghost use Rattle.loaded_index.specs.Loading.{CanGoOn};
ghost use Rattle.page_log.specs.OpenCauses.{IsDiskFault};
ghost use Rattle.vec_recover.specs.Creating.{AreAllBlocks, AreShut, IsNew, IsNoneOrNew, IsSameLogFault, each_block, first_epoch};

use index_sizes::PAGE_SIZE;
use loaded_index::Loaded;
use page_bytes::Page;
use page_log::{LogFault, OpenFault, open_epoch, write_epoch};
use std::alloc::{AllocError, Global};
use vec_outside::{Area, Disks};

// So many blocks, each with the place of its page.
fn each_block(alloc: Global, blocks: u32) -> Result<Vec<(u32, u32)>, AllocError>
    ensures { IfOk result (λ pairs. pairs.items ≡ each_block blocks 0) }
{
    let mut pairs = Vec::with_capacity(alloc, blocks as usize)?;
    for block in 0..blocks {
        pairs.push((block, block))?;
    }
    Ok(pairs)
}

// A fault of the log, where no event is written.
fn open_fault(fault: LogFault) -> OpenFault
    ensures { IsSameLogFault fault result }
{
    match fault {
        LogFault::Disk { count } => OpenFault::Disk { count },
        _ => OpenFault::Memory,
    }
}

// Writes the pages as the first epoch, each block with an image, and opens its seal.
fn write_first<D: Disks>(
    disks: &mut D,
    pages: &[Page],
    which: &[(u32, u32)],
) -> Result<(), OpenFault>
    requires some { 1 ≤ length pages.now }
    requires few { length pages.now ≤ MOST_BLOCKS }
    requires each { which.now ≡ each_block (length pages.now) 0 }
    ensures good { OnOk result (IsNewEpoch (first_epoch pages.now)) }
    ensures moments { AreShut (D.disk disks.old) → LeavesOnly (D.disk disks.old) (D.disk disks.new) (IsNoneOrNew pages.now) }
    ensures stands { AreShut (D.disk disks.old) → OnOk result (IsStanding (alone (begun_log (first_epoch pages.now)))
        (D.disk disks.new) (begun (first_epoch pages.now))) }
    ensures later { D.count disks.old ≤ D.count disks.new }
    ensures fault { IfErr result (IsDiskFault (D.count disks.old) (D.count disks.new)) }
{
    match write_epoch(disks, 1, 0, pages.len() as u32, pages, which) {
        Ok(()) => {}
        Err(fault) => return Err(open_fault(fault)),
    }
    match open_epoch(disks, 1) {
        Ok(()) => Ok(()),
        Err(fault) => Err(open_fault(fault)),
    }
}

// The place where the first batch of a first epoch with so many images stands.
fn first_end(blocks: u32) -> u64
    ensures { result ≡ HEAD + IMAGE * blocks }
{
    // A header has 40 bytes, and an image those of its block's number and of a page.
    40 + (4 + PAGE_SIZE as u64) * u64::from(blocks)
}

// All blocks.
fn all_blocks(alloc: Global, blocks: u32) -> Result<Vec<u32>, AllocError>
    ensures { IfOk result (λ list. AreAllBlocks blocks list.items) }
{
    let mut list = Vec::with_capacity(alloc, blocks as usize)?;
    for block in 0..blocks {
        list.push(block)?;
    }
    Ok(list)
}

/// Puts a new index on disks on which no log area is open: its pages as the first epoch, each block with an image. The page area
/// gets them at the next checkpoint. There is at least one page, and there are at most 32,768.
///
/// Whatever ends it, every image of every moment reads as no index or as the whole new one, and a log goes on with the new one once
/// it has answered Ok. `Disk` comes only where the disks' count of faults rose, and tells it; after it, as after want of memory, a
/// later opening finds the whole index or none.
pub fn create<D: Disks>(alloc: Global, disks: &mut D, pages: Vec<Page>) -> Result<Loaded, OpenFault>
    requires some { 1 ≤ length pages.items }
    requires few { length pages.items ≤ MOST_BLOCKS }
    ensures moments { AreShut (D.disk disks.old) → LeavesOnly (D.disk disks.old) (D.disk disks.new) (IsNoneOrNew pages.items) }
    ensures stands { AreShut (D.disk disks.old) → OnOk result (IsStanding (alone (begun_log (first_epoch pages.items)))
        (D.disk disks.new) (begun (first_epoch pages.items))) }
    ensures new { IfOk result (IsNew pages.items) }
    ensures goes { IfOk result CanGoOn }
    ensures later { D.count disks.old ≤ D.count disks.new }
    ensures fault { IfErr result (IsDiskFault (D.count disks.old) (D.count disks.new)) }
{
    let blocks = pages.len() as u32;
    let Ok(which) = each_block(alloc, blocks) else {
        return Err(OpenFault::Memory);
    };
    let Ok(unwritten) = all_blocks(alloc, blocks) else {
        return Err(OpenFault::Memory);
    };
    match write_first(disks, pages.as_slice(), which.as_slice()) {
        Ok(()) => Ok(Loaded {
            pages,
            epoch: 1,
            area: Area::Log0,
            before: 0,
            end: first_end(blocks),
            used: 0,
            unwritten,
        }),
        Err(fault) => Err(fault),
    }
}
