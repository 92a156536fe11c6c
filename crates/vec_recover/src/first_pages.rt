//! The pages of an epoch before its events.

ghost use Rattle.std.specs.Prelude.{◌≡◌, ◌≢◌, ◌≤◌, ◌<◌, ◌+◌, ℕ, List, length, OnOk, IfOk, IfErr};
ghost use Rattle.index_sizes.specs.declared.limits.TheConstants.{MOST_BLOCKS};
ghost use Rattle.page_log.specs.OpenCauses.{IsReadFault};
ghost use Rattle.page_log.specs.Opening.{RisesBelow};
ghost use Rattle.page_log.specs.Steps.{OnlyReads};
ghost use Rattle.vec_outside.specs.declared.disks.Area.TheVariants.{Pages};
ghost use Rattle.vec_recover.specs.Recovering.{AreFirst, IsMissing};
ghost use Rattle.page_bytes.specs.Decoding.{Spells};
ghost use Rattle.page_file.specs.Area.{block_of};
ghost use Rattle.vec_recover.specs.Parts.{IsFilled, IsGap, IsOfBlock, IsSameFault};

use page_bytes::Page;
use page_file::{PageFileFault, read_one};
use page_log::OpenFault;
use std::alloc::Global;
use vec_outside::{Area, Disks};

// A page that the page area lacks makes the index unreadable.
fn open_fault(fault: PageFileFault) -> OpenFault
    ensures { IsSameFault fault result }
{
    match fault {
        PageFileFault::Memory => OpenFault::Memory,
        PageFileFault::Disk { count } => OpenFault::Disk { count },
        PageFileFault::NotPage { at } => OpenFault::NotIndex {
            area: Area::Pages,
            at,
        },
    }
}

// The page that the page area has for the block.
fn read_page<D: Disks>(disks: &mut D, block: u32) -> Result<Page, OpenFault>
    ensures ok { D.told → IfOk result (λ page. Spells (block_of ((D.disk disks.old).seen Pages) block) page) }
    ensures gap { D.told → IfErr result (IsOfBlock (IsGap ((D.disk disks.old).seen Pages) block (block + 1))) }
    ensures only { OnlyReads (D.disk disks.old) (D.disk disks.new) }
    ensures later { D.count disks.old ≤ D.count disks.new }
    ensures fault { IfErr result (IsReadFault (D.count disks.old) (D.count disks.new)) }
{
    match read_one(disks, block) {
        Ok(page) => Ok(page),
        Err(fault) => Err(open_fault(fault)),
    }
}

// Reads the pages of the blocks up to this one that follow on those before.
fn fill_to<D: Disks>(disks: &mut D, upto: u32, pages: &mut Vec<Page>) -> Result<(), OpenFault>
    requires { length pages.old.items ≤ upto }
    ensures count { OnOk result (length pages.new.items ≡ upto) }
    ensures ok { D.told → OnOk result (IsFilled ((D.disk disks.old).seen Pages) upto pages.old.items pages.new.items) }
    ensures gap { D.told → IfErr result (IsOfBlock (IsGap ((D.disk disks.old).seen Pages) (length pages.old.items) upto)) }
    ensures only { OnlyReads (D.disk disks.old) (D.disk disks.new) }
    ensures later { D.count disks.old ≤ D.count disks.new }
    ensures fault { IfErr result (IsReadFault (D.count disks.old) (D.count disks.new)) }
{
    let from = pages.len() as u32;
    for block in from..upto {
        let page = match read_page(disks, block) {
            Ok(page) => page,
            Err(fault) => return Err(fault),
        };
        let Ok(()) = pages.push(page) else {
            return Err(OpenFault::Memory);
        };
    }
    Ok(())
}

/// The pages of an epoch before its events: of each block the image, or else what the page area has there.
pub(crate) fn first_pages<D: Disks>(
    alloc: Global,
    disks: &mut D,
    images: Vec<(u32, Page)>,
    blocks: u32,
) -> Result<Vec<Page>, OpenFault>
    requires { RisesBelow 0 blocks images.items }
    ensures count { IfOk result (λ pages. length pages.items ≡ blocks) }
    ensures ok { D.told → IfOk result (λ pages. AreFirst images.items ((D.disk disks.old).seen Pages) blocks pages.items) }
    ensures missing { D.told → IfErr result (IsOfBlock (IsMissing images.items ((D.disk disks.old).seen Pages) blocks)) }
    ensures only { OnlyReads (D.disk disks.old) (D.disk disks.new) }
    ensures later { D.count disks.old ≤ D.count disks.new }
    ensures fault { IfErr result (IsReadFault (D.count disks.old) (D.count disks.new)) }
{
    let Ok(mut pages) = Vec::with_capacity(alloc, blocks as usize) else {
        return Err(OpenFault::Memory);
    };
    for image in images {
        match fill_to(disks, image.0, &mut pages) {
            Ok(()) => {}
            Err(fault) => return Err(fault),
        }
        let Ok(()) = pages.push(image.1) else {
            return Err(OpenFault::Memory);
        };
    }
    match fill_to(disks, blocks, &mut pages) {
        Ok(()) => Ok(pages),
        Err(fault) => Err(fault),
    }
}
