//! Why reading stopped.

ghost use Rattle.std.specs.Prelude.{◌≡◌, length};
ghost use Rattle.byte_fields.specs.declared.stop.Halt.TheVariants.{Memory, Stopped};

use std::alloc::{AllocError, AllocFailed};

/// What a field lacks.
#[derive(Clone, Copy, Debug, PartialEq, Eq)]
pub enum Cause {
    /// Its value is not allowed.
    Bad,
    /// The bytes end in it.
    Short,
}

/// Where reading stopped.
#[derive(Clone, Copy, Debug, PartialEq, Eq)]
pub struct Stop {
    /// What the field lacks.
    pub cause: Cause,
    /// The number of bytes from the field on that could not be read.
    pub left: usize,
}

impl Stop {
    /// The field at the front of these bytes has a value that is not allowed.
    pub fn bad(bytes: &[u8]) -> Stop
        ensures cause { result.cause ≡ Cause.Bad }
        ensures left { result.left ≡ length bytes.now }
    {
        Stop {
            cause: Cause::Bad,
            left: bytes.len(),
        }
    }

    /// The bytes end in the field at their front.
    pub fn short(bytes: &[u8]) -> Stop
        ensures cause { result.cause ≡ Cause.Short }
        ensures left { result.left ≡ length bytes.now }
    {
        Stop {
            cause: Cause::Short,
            left: bytes.len(),
        }
    }
}

/// Why reading stopped where it takes memory.
#[derive(Clone, Copy, Debug, PartialEq, Eq)]
pub enum Halt {
    /// No memory was found.
    Memory,
    /// A field could not be read.
    Stopped(Stop),
}

impl From<Stop> for Halt {
    ghost from_gives = { λ stop e. e ≡ Stopped stop };

    fn from(stop: Stop) -> Self {
        Halt::Stopped(stop)
    }
}

impl From<AllocError> for Halt {
    ghost from_gives = { λ _ e. e ≡ Memory };

    fn from(_: AllocError) -> Self {
        Halt::Memory
    }
}

impl<T: Drop> From<AllocFailed<T>> for Halt {
    ghost from_gives = { λ _ e. e ≡ Memory };

    fn from(_: AllocFailed<T>) -> Self {
        Halt::Memory
    }
}
