//! Why a call on the page area gave up.

ghost use Rattle.std.specs.Prelude.{◌≡◌, ℕ};
ghost use Rattle.page_file.specs.Causes.{IsDiskFault};
ghost use Rattle.vec_outside.specs.Causes.{Rose};
ghost use Rattle.vec_outside.specs.declared.outage.Outage.TheVariants.{Failed};

use thiserror::Error;
use vec_outside::{Disks, Outage};

/// Why a call on the page area gave up.
#[derive(Clone, Copy, Debug, PartialEq, Eq, Error)]
pub enum PageFileFault {
    /// No memory was found.
    #[error("out of memory")]
    Memory,
    /// A disk refused a call. `count` is how many calls of it have failed by now.
    #[error("a disk failed, {count} times by now")]
    Disk { count: u64 },
    /// There is no page at this byte of the area.
    #[error("no page at byte {at} of the pages")]
    NotPage { at: u64 },
}

/// The fault of a call that the disks answered so, with their count as it stands.
pub fn fault_of<D: Disks>(disks: &D, outage: Outage) -> PageFileFault
    ensures { (before : ℕ) → ((outage ≡ Failed) → Rose before (D.count disks.now))
        → IsDiskFault before (D.count disks.now) result }
{
    match outage {
        Outage::Memory => PageFileFault::Memory,
        Outage::Failed => PageFileFault::Disk {
            count: disks.faults(),
        },
    }
}
