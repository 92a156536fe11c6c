//! What an activity asks of an index, what it is told, and what a step means.
#![tactic(auto)]

mod ask;
mod fault;
mod gate_desk;
mod granting;
mod law;
mod seen;
mod slots;
mod split;
mod steps;
mod still_desk;
mod told;

pub use ask::{Ask, NewNode};
pub use fault::{OpFault, StepFault};
pub use gate_desk::{GateDesk, Turn};
pub use granting::law_granted;
pub use law::{law_calls, law_deeds, law_lasting, law_step};
pub use seen::{Centre, RowSeen, Seen, Trace, Vacuumed};
pub use slots::Slots;
pub use split::Split;
pub use steps::Steps;
pub use still_desk::StillDesk;
pub use told::{Told, Word};

#[cfg(test)]
mod tests;
