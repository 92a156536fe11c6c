//! Why a history was not judged legal.

ghost use Rattle.std.specs.Prelude.{◌≡◌};
ghost use Rattle.vec_history.specs.declared.fault.AuditFault.TheVariants.{Memory};

use std::alloc::{AllocError, AllocFailed};
use thiserror::Error;

/// Why a history was not judged legal.
#[derive(Clone, Copy, Debug, PartialEq, Eq, Error)]
pub enum AuditFault {
    /// No memory was found: the history may be legal or not.
    #[error("out of memory")]
    Memory,
    /// The act of this number, from 0, is the first that the rules do not allow.
    #[error("act {at} is not allowed")]
    Illegal { at: u64 },
}

impl From<AllocError> for AuditFault {
    ghost from_gives = { λ _ e. e ≡ Memory };

    fn from(_: AllocError) -> Self {
        AuditFault::Memory
    }
}

impl<T: Drop> From<AllocFailed<T>> for AuditFault {
    ghost from_gives = { λ _ e. e ≡ Memory };

    fn from(_: AllocFailed<T>) -> Self {
        AuditFault::Memory
    }
}
