//! Why a step, or an operation over steps, was not made.

ghost use Rattle.std.specs.Prelude.{◌≡◌};
ghost use Rattle.vec_steps.specs.declared.fault.StepFault.{StepFault as StepFaults};
ghost use Rattle.vec_steps.specs.declared.fault.StepFault.TheVariants as step;
ghost use Rattle.vec_steps.specs.declared.fault.OpFault.{OpFault as OpFaults};
ghost use Rattle.vec_steps.specs.declared.fault.OpFault.TheVariants as op;
ghost use Rattle.vec_steps.specs.Faults.{op_fault};

use std::alloc::{AllocError, AllocFailed};
use thiserror::Error;

/// Why a step was not made.
#[derive(Clone, Copy, Debug, PartialEq, Eq, Error)]
pub enum StepFault {
    /// No memory was found.
    #[error("out of memory")]
    Memory,
    /// The log has no room for an event of `size` bytes beside the `used`.
    #[error("the log has no room for {size} bytes beside {used}")]
    LogFull { used: u64, size: u64 },
    /// The disks failed, so many times until now.
    #[error("disk fault {count}")]
    Disk { count: u64 },
}

impl From<AllocError> for StepFault {
    ghost from_gives = { λ _ e. e ≡ step.Memory };

    fn from(_: AllocError) -> Self {
        StepFault::Memory
    }
}

impl<T: Drop> From<AllocFailed<T>> for StepFault {
    ghost from_gives = { λ _ e. e ≡ step.Memory };

    fn from(_: AllocFailed<T>) -> Self {
        StepFault::Memory
    }
}

/// Why an operation over steps was not done to its end.
#[derive(Clone, Copy, Debug, PartialEq, Eq, Error)]
pub enum OpFault {
    /// No memory was found.
    #[error("out of memory")]
    Memory,
    /// The index has so many blocks, and no room for `need` more.
    #[error("the index has {blocks} blocks, and no room for {need} more")]
    Full { blocks: u32, need: u32 },
    /// The log has no room for an event of `size` bytes beside the `used`.
    #[error("the log has no room for {size} bytes beside {used}")]
    LogFull { used: u64, size: u64 },
    /// The disks failed, so many times until now.
    #[error("disk fault {count}")]
    Disk { count: u64 },
    /// The value has `got` places, and the index's have `want`.
    #[error("{got} places where the index has {want}")]
    Dimensions { got: u32, want: u32 },
}

impl From<AllocError> for OpFault {
    ghost from_gives = { λ _ e. e ≡ op.Memory };

    fn from(_: AllocError) -> Self {
        OpFault::Memory
    }
}

impl<T: Drop> From<AllocFailed<T>> for OpFault {
    ghost from_gives = { λ _ e. e ≡ op.Memory };

    fn from(_: AllocFailed<T>) -> Self {
        OpFault::Memory
    }
}

/// A step's fault ends the operation by the fault of the same name.
impl From<StepFault> for OpFault {
    ghost from_gives = { λ fault e. e ≡ op_fault fault };

    fn from(fault: StepFault) -> Self {
        match fault {
            StepFault::Memory => OpFault::Memory,
            StepFault::LogFull { used, size } => OpFault::LogFull { used, size },
            StepFault::Disk { count } => OpFault::Disk { count },
        }
    }
}
