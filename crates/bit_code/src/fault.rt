// What keeps a text from being read as a bit value.
ghost use Rattle.std.specs.Prelude.{◌≡◌};
ghost use Rattle.bit_code.specs.declared.fault.BitsFault.TheVariants.{Memory};

use std::alloc::{AllocError, AllocFailed};
use thiserror::Error;

/// Why a bit value could not be made. A text is read in this order: no byte, its first 64,000 bytes, its length.
#[derive(Clone, Copy, Debug, PartialEq, Eq, Error)]
pub enum BitsFault {
    /// No memory was found.
    #[error("out of memory")]
    Memory,
    /// The text has no byte.
    #[error("no place is given")]
    Empty,
    /// The byte at this place, from 0, is the first that is neither `0` nor `1`; it is one of the first 64,000.
    #[error("byte {0} is neither 0 nor 1")]
    BadPlace(u32),
    /// The first 64,000 bytes are good, and there are more.
    #[error("more than 64,000 places")]
    TooLong,
}

impl From<AllocError> for BitsFault {
    ghost from_gives = { λ _ e. e ≡ Memory };

    fn from(_: AllocError) -> Self {
        BitsFault::Memory
    }
}

impl<T: Drop> From<AllocFailed<T>> for BitsFault {
    ghost from_gives = { λ _ e. e ≡ Memory };

    fn from(_: AllocFailed<T>) -> Self {
        BitsFault::Memory
    }
}
