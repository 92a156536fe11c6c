//! Why a tuple could not be written or read.

ghost use Rattle.std.specs.Prelude.{◌≡◌};
ghost use Rattle.vec_tuples.specs.declared.fault.TupleFault.TheVariants.{Memory};

use std::alloc::{AllocError, AllocFailed};
use thiserror::Error;

/// Why a tuple could not be written or read. Writing meets want of memory alone.
#[derive(Clone, Copy, Debug, PartialEq, Eq, Error)]
pub enum TupleFault {
    /// No memory was found.
    #[error("out of memory")]
    Memory,
    /// The field that begins at this byte, from 0, is the first whose value is not allowed beside the
    /// fields before it, or the bytes end in it; or the tuple ends here, and bytes are left over.
    #[error("a value that is not allowed at byte {at}")]
    Bad { at: u16 },
}

impl From<AllocError> for TupleFault {
    ghost from_gives = { λ _ e. e ≡ Memory };

    fn from(_: AllocError) -> Self {
        TupleFault::Memory
    }
}

impl<T: Drop> From<AllocFailed<T>> for TupleFault {
    ghost from_gives = { λ _ e. e ≡ Memory };

    fn from(_: AllocFailed<T>) -> Self {
        TupleFault::Memory
    }
}
