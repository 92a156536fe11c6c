//! Why no neighbours were picked.

ghost use Rattle.std.specs.Prelude.{◌≡◌};
ghost use Rattle.neighbour_pick.specs.declared.fault.PickFault.TheVariants.{Memory};

use std::alloc::{AllocError, AllocFailed};
use thiserror::Error;

/// Why no neighbours were picked.
#[derive(Clone, Copy, Debug, PartialEq, Eq, Error)]
pub enum PickFault {
    /// No memory was found.
    #[error("out of memory")]
    Memory,
}

impl From<AllocError> for PickFault {
    ghost from_gives = { λ _ e. e ≡ Memory };

    fn from(_: AllocError) -> Self {
        PickFault::Memory
    }
}

impl<T: Drop> From<AllocFailed<T>> for PickFault {
    ghost from_gives = { λ _ e. e ≡ Memory };

    fn from(_: AllocFailed<T>) -> Self {
        PickFault::Memory
    }
}
