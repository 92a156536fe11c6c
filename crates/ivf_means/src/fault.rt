//! Why nothing was built.

ghost use Rattle.std.specs.Prelude.{◌≡◌};
ghost use Rattle.ivf_means.specs.declared.fault.BuildFault.TheVariants.{Memory};

use bit_code::BitsFault;
use std::alloc::{AllocError, AllocFailed};
use thiserror::Error;

/// Why nothing was built.
#[derive(Clone, Copy, Debug, PartialEq, Eq, Error)]
pub enum BuildFault {
    /// No memory was found.
    #[error("out of memory")]
    Memory,
    /// The pages needed are more than an index may have. `centres` never answers it.
    #[error("the index would need more pages than there may be")]
    Full {
        /// The blocks that there are.
        blocks: u32,
        /// The blocks that are needed besides.
        need: u32,
    },
}

impl From<AllocError> for BuildFault {
    ghost from_gives = { λ _ e. e ≡ Memory };

    fn from(_: AllocError) -> Self {
        BuildFault::Memory
    }
}

impl<T: Drop> From<AllocFailed<T>> for BuildFault {
    ghost from_gives = { λ _ e. e ≡ Memory };

    fn from(_: AllocFailed<T>) -> Self {
        BuildFault::Memory
    }
}
