//! Why pages give no graph.

ghost use Rattle.std.specs.Prelude.{◌≡◌};
ghost use Rattle.page_redo.specs.declared.graph_fault.GraphFault.TheVariants.{Memory};

use std::alloc::{AllocError, AllocFailed};
use thiserror::Error;

/// Why pages give no graph.
#[derive(Clone, Copy, Debug, PartialEq, Eq, Error)]
pub enum GraphFault {
    /// No memory was found: the pages may stand for a graph or not.
    #[error("out of memory")]
    Memory,
    /// The block of this number, from 0, breaks a rule, and no lower one does.
    #[error("block {block} breaks a rule of the index")]
    Bad { block: u32 },
}

impl From<AllocError> for GraphFault {
    ghost from_gives = { λ _ e. e ≡ Memory };

    fn from(_: AllocError) -> Self {
        GraphFault::Memory
    }
}

impl<T: Drop> From<AllocFailed<T>> for GraphFault {
    ghost from_gives = { λ _ e. e ≡ Memory };

    fn from(_: AllocFailed<T>) -> Self {
        GraphFault::Memory
    }
}
