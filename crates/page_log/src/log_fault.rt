//! Why a call on the log gave up.

ghost use Rattle.std.specs.Prelude.{◌≡◌, ℕ};
ghost use Rattle.page_log.specs.LogCauses.{IsDiskFault};
ghost use Rattle.vec_outside.specs.Causes.{Rose};
ghost use Rattle.vec_outside.specs.declared.outage.Outage.TheVariants.{Failed};

use std::alloc::AllocError;
use thiserror::Error;
use vec_outside::{Disks, Outage};

/// Why a call on the log gave up.
#[derive(Clone, Copy, Debug, PartialEq, Eq, Error)]
pub enum LogFault {
    /// No memory was found.
    #[error("out of memory")]
    Memory,
    /// An epoch has room for 268,435,456 bytes, each event taking five beside its own. `used` of them are taken, and an event
    /// of `size` bytes has no room.
    #[error("the log is full: {used} bytes are used, and an event has {size}")]
    Full { used: u64, size: u64 },
    /// A disk refused a call. `count` is how many calls of it have failed by now.
    #[error("a disk failed, {count} times by now")]
    Disk { count: u64 },
}

impl From<AllocError> for LogFault {
    ghost use Rattle.page_log.specs.declared.log_fault.LogFault.TheVariants.{Memory};

    ghost from_gives = { λ _ e. e ≡ Memory };

    fn from(_: AllocError) -> Self {
        LogFault::Memory
    }
}

/// The fault of a call that the disks answered so, with their count as it stands.
pub fn log_fault_of<D: Disks>(disks: &D, outage: Outage) -> LogFault
    ensures { (before : ℕ) → ((outage ≡ Failed) → Rose before (D.count disks.now))
        → IsDiskFault before (D.count disks.now) result }
{
    match outage {
        Outage::Memory => LogFault::Memory,
        Outage::Failed => LogFault::Disk {
            count: disks.faults(),
        },
    }
}
