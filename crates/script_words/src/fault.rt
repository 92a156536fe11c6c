//! Why bytes give no script.

ghost use Rattle.std.specs.Prelude.{◌≡◌};
ghost use Rattle.script_words.specs.declared.fault.ScriptFault.TheVariants.{Memory};

use std::alloc::{AllocError, AllocFailed};
use thiserror::Error;

/// Why bytes give no script.
#[derive(Clone, Copy, Debug, PartialEq, Eq, Error)]
pub enum ScriptFault {
    /// No memory was found.
    #[error("out of memory")]
    Memory,
    /// The line of this number, from 1, is the first that is outside the form.
    #[error("line {0} refused")]
    Line(u64),
}

/// No memory was found for a value.
#[derive(Clone, Copy, Debug, PartialEq, Eq)]
pub struct NoMemory;

impl From<NoMemory> for ScriptFault {
    ghost from_gives = { λ _ e. e ≡ Memory };

    fn from(_: NoMemory) -> Self {
        ScriptFault::Memory
    }
}

impl<T: Drop> From<AllocFailed<T>> for ScriptFault {
    ghost from_gives = { λ _ e. e ≡ Memory };

    fn from(_: AllocFailed<T>) -> Self {
        ScriptFault::Memory
    }
}

impl From<AllocError> for ScriptFault {
    ghost from_gives = { λ _ e. e ≡ Memory };

    fn from(_: AllocError) -> Self {
        ScriptFault::Memory
    }
}
