//! Reading a page.

ghost use Rattle.std.specs.Prelude.{◌≡◌, ◌*◌, ◌+◌, ◌≤◌, ℕ, length, take, drop, OnOk, IfErr};
ghost use Rattle.page_file.specs.Area.{IsPageAt};
ghost use Rattle.page_file.specs.Causes.{IsReadFault};
ghost use Rattle.vec_outside.specs.Disk.{IsImage, IsKept, LeavesOnly};
ghost use Rattle.vec_outside.specs.declared.disks.Area.TheVariants.{Pages};

use crate::fault::{PageFileFault, fault_of};
use index_sizes::PAGE_SIZE;
use page_bytes::{Page, read_page};
use vec_outside::{Area, Disks, Outage};

const SIZE: usize = PAGE_SIZE;

/// The page of a block. `NotPage` comes, where the disks tell their bytes, exactly where the page area ends before the page
/// does or the bytes there are no page; `at` is their place, 8,192 times the block. `Disk` comes only where the disks' count of
/// faults rose, and tells it. Nothing changes.
pub fn read_one<D: Disks>(disks: &mut D, block: u32) -> Result<Page, PageFileFault>
    ensures page { D.told → IsPageAt ((D.disk disks.old).seen Pages) block result }
    ensures kept { IsKept (D.disk disks.old) (D.disk disks.new) }
    ensures moments { LeavesOnly (D.disk disks.old) (D.disk disks.new) (IsImage (D.disk disks.old)) }
    ensures later { D.count disks.old ≤ D.count disks.new }
    ensures fault { IfErr result (IsReadFault (D.count disks.old) (D.count disks.new)) }
{
    let at = PAGE_SIZE as u64 * u64::from(block);
    let len = match disks.len(Area::Pages) {
        Ok(len) => len,
        Err(outage) => return Err(fault_of(disks, outage)),
    };
    if len < at + PAGE_SIZE as u64 {
        return Err(PageFileFault::NotPage { at });
    }
    let mut bytes = [0; SIZE];
    if let Err(outage) = disks.read(Area::Pages, at, &mut bytes) {
        return Err(fault_of(disks, outage));
    }
    match read_page(&bytes) {
        Ok(page) => Ok(page),
        Err(_) => Err(PageFileFault::NotPage { at }),
    }
}
