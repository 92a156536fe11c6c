// Why a call of the outside gave up.
ghost use Rattle.std.specs.Prelude.{◌≡◌};
ghost use Rattle.vec_outside.specs.declared.outage.Outage.TheVariants.{Memory};

use std::alloc::{AllocError, AllocFailed};
use thiserror::Error;

/// Why a call of the outside gave up. What stands after it is said at the call.
#[derive(Clone, Copy, Debug, PartialEq, Eq, Error)]
pub enum Outage {
    /// There was no memory for the call.
    #[error("out of memory")]
    Memory,
    /// The outside refused the call, or was told to. Its count of faults has risen.
    #[error("a stream or a disk failed")]
    Failed,
}

impl From<AllocError> for Outage {
    ghost from_gives = { λ _ e. e ≡ Memory };

    fn from(_: AllocError) -> Self {
        Outage::Memory
    }
}

impl<T: Drop> From<AllocFailed<T>> for Outage {
    ghost from_gives = { λ _ e. e ≡ Memory };

    fn from(_: AllocFailed<T>) -> Self {
        Outage::Memory
    }
}
