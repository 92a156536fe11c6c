//! Why an event could not be written or read.

ghost use Rattle.std.specs.Prelude.{◌≡◌};
ghost use Rattle.vec_event.specs.declared.fault.EventFault.TheVariants.{Memory};

use std::alloc::{AllocError, AllocFailed};
use thiserror::Error;

/// Why an event could not be written or read. Writing meets want of memory alone.
#[derive(Clone, Copy, Debug, PartialEq, Eq, Error)]
pub enum EventFault {
    /// No memory was found.
    #[error("out of memory")]
    Memory,
    /// The bytes end before the event does.
    #[error("the bytes end before the event does")]
    Short,
    /// The field that begins at this byte, from 0, is the first whose value is not allowed.
    #[error("a value that is not allowed at byte {at}")]
    Bad { at: u32 },
}

impl From<AllocError> for EventFault {
    ghost from_gives = { λ _ e. e ≡ Memory };

    fn from(_: AllocError) -> Self {
        EventFault::Memory
    }
}

impl<T: Drop> From<AllocFailed<T>> for EventFault {
    ghost from_gives = { λ _ e. e ≡ Memory };

    fn from(_: AllocFailed<T>) -> Self {
        EventFault::Memory
    }
}
