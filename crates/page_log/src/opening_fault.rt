//! Why an index could not be opened.

ghost use Rattle.std.specs.Prelude.{◌≡◌, ℕ};
ghost use Rattle.page_log.specs.OpenCauses.{IsDiskFault};
ghost use Rattle.vec_outside.specs.Causes.{Rose};
ghost use Rattle.vec_outside.specs.declared.outage.Outage.TheVariants.{Failed};

use thiserror::Error;
use vec_outside::{Area, Disks, Outage};

/// Why an index could not be opened.
#[derive(Clone, Copy, Debug, PartialEq, Eq, Error)]
pub enum OpenFault {
    /// No memory was found.
    #[error("out of memory")]
    Memory,
    /// A disk refused a call. `count` is how many calls of it have failed by now.
    #[error("a disk failed, {count} times by now")]
    Disk { count: u64 },
    /// What stands at this byte of an area is not what an index has there.
    #[error("no index, by byte {at} of {area:?}")]
    NotIndex { area: Area, at: u64 },
    /// The batch or the event at this byte of a log area can't be taken.
    #[error("a bad event at byte {at} of {area:?}")]
    BadEvent { area: Area, at: u64 },
}

/// The fault of a call that the disks answered so, with their count as it stands.
pub fn fault_of<D: Disks>(disks: &D, outage: Outage) -> OpenFault
    ensures { (before : ℕ) → ((outage ≡ Failed) → Rose before (D.count disks.now))
        → IsDiskFault before (D.count disks.now) result }
{
    match outage {
        Outage::Memory => OpenFault::Memory,
        Outage::Failed => OpenFault::Disk {
            count: disks.faults(),
        },
    }
}
