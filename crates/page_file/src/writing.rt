//! Writing pages.

ghost use Rattle.std.specs.Prelude.{◌≡◌, ◌*◌, ◌<◌, ◌≤◌, [], ℕ, length, All, OnOk, IfErr};
ghost use Rattle.page_bytes.specs.Spelling.{spelling};
ghost use Rattle.page_file.specs.Area.{IsRising, LeavesNoGap, with_pages, IsWritten as IsWrittenIn, IsTornImage as IsTornImageIn};
ghost use Rattle.page_file.specs.Causes.{IsDiskFault};
ghost use Rattle.page_log.specs.BothLogs.{Logs, LogsComeFrom};
ghost use Rattle.vec_outside.specs.Causes.{HasCause};
ghost use Rattle.vec_outside.specs.Disk.{IsDurable, Elapses, IsWritten, LeavesOnly, spliced};
ghost use Rattle.vec_outside.specs.declared.disks.Area.TheVariants.{Pages};

use crate::fault::{PageFileFault, fault_of};
use index_sizes::{LAST_BLOCK, PAGE_SIZE};
use page_bytes::Page;
use vec_outside::{Area, Disks, Outage};

/// Writes pages to the page area, each at 8,192 times its block, and syncs the area. A pair of `which` is a block, at most
/// 32,767, and the place of its page in `pages`; the blocks rise, and leave no gap behind the area's end. With no pair the
/// area is synced alone.
///
/// At `Ok` a crash leaves these pages there. At every moment until then, and after an error, a crash leaves in these blocks any
/// bytes, and elsewhere what it might have left before. `Disk` comes only where the disks' count of faults rose, and tells it.
pub fn write_pages<D: Disks>(
    disks: &mut D,
    pages: &[Page],
    which: &[(u32, u32)],
) -> Result<(), PageFileFault>
    requires rising { IsRising which.now }
    requires blocks { All (λ pair. pair.0 ≤ LAST_BLOCK) which.now }
    requires places { All (λ pair. pair.1 < length pages.now) which.now }
    requires no_gap { D.told → LeavesNoGap which.now (length ((D.disk disks.old).seen Pages)) }

    ensures bytes { D.told → OnOk result ((D.disk disks.new).seen Pages
        ≡ with_pages pages.now which.now ((D.disk disks.old).seen Pages)) }
    ensures durable { OnOk result (IsDurable Pages (D.disk disks.new)) }

    // However it ends: nothing else is written, and no moment left anything else.
    ensures written { IsWrittenIn which.now (D.disk disks.old) (D.disk disks.new) }
    ensures moments { LeavesOnly (D.disk disks.old) (D.disk disks.new) (IsTornImageIn which.now (D.disk disks.old)) }

    // Both logs go on as they stood.
    ensures logs { (logs : Logs) → LogsComeFrom logs (D.disk disks.old) logs (D.disk disks.new) [] }

    ensures later { D.count disks.old ≤ D.count disks.new }
    ensures fault { IfErr result (IsDiskFault (D.count disks.old) (D.count disks.new)) }
{
    match write_synced(disks, pages, which) {
        Ok(()) => Ok(()),
        Err(outage) => Err(fault_of(disks, outage)),
    }
}

fn write_synced<D: Disks>(disks: &mut D, pages: &[Page], which: &[(u32, u32)]) -> Result<(), Outage>
    requires rising { IsRising which.now }
    requires places { All (λ pair. pair.1 < length pages.now) which.now }
    requires no_gap { D.told → LeavesNoGap which.now (length ((D.disk disks.old).seen Pages)) }
    ensures bytes { D.told → OnOk result ((D.disk disks.new).seen Pages
        ≡ with_pages pages.now which.now ((D.disk disks.old).seen Pages)) }
    ensures durable { OnOk result (IsDurable Pages (D.disk disks.new)) }
    ensures written { IsWrittenIn which.now (D.disk disks.old) (D.disk disks.new) }
    ensures moments { LeavesOnly (D.disk disks.old) (D.disk disks.new) (IsTornImageIn which.now (D.disk disks.old)) }
    ensures cause { HasCause (D.count disks.old) (D.count disks.new) result }
{
    write_each(disks, pages, which)?;
    disks.sync(Area::Pages)
}

fn write_each<D: Disks>(disks: &mut D, pages: &[Page], which: &[(u32, u32)]) -> Result<(), Outage>
    requires rising { IsRising which.now }
    requires places { All (λ pair. pair.1 < length pages.now) which.now }
    requires no_gap { D.told → LeavesNoGap which.now (length ((D.disk disks.old).seen Pages)) }
    ensures bytes { D.told → OnOk result ((D.disk disks.new).seen Pages
        ≡ with_pages pages.now which.now ((D.disk disks.old).seen Pages)) }
    ensures written { IsWrittenIn which.now (D.disk disks.old) (D.disk disks.new) }
    ensures moments { LeavesOnly (D.disk disks.old) (D.disk disks.new) (IsTornImageIn which.now (D.disk disks.old)) }
    ensures cause { HasCause (D.count disks.old) (D.count disks.new) result }
{
    for pair in which {
        write_page(disks, pair.0, &pages[pair.1 as usize])?;
    }
    Ok(())
}

fn write_page<D: Disks>(disks: &mut D, block: u32, page: &Page) -> Result<(), Outage>
    requires { D.told → PAGE_SIZE * block ≤ length ((D.disk disks.old).seen Pages) }
    ensures bytes { D.told → OnOk result ((D.disk disks.new).seen Pages
        ≡ spliced ((D.disk disks.old).seen Pages) (PAGE_SIZE * block) (spelling page.now)) }
    ensures written { IsWritten Pages (PAGE_SIZE * block) PAGE_SIZE (D.disk disks.old) (D.disk disks.new) }
    ensures size { length (spelling page.now) ≡ PAGE_SIZE }
    ensures time { Elapses (D.disk disks.old) (D.disk disks.new) }
    ensures cause { HasCause (D.count disks.old) (D.count disks.new) result }
{
    disks.write_at(
        Area::Pages,
        PAGE_SIZE as u64 * u64::from(block),
        page.bytes(),
    )
}
