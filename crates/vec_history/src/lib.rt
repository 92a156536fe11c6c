//! What any history's acts say of themselves, whatever kind of index they change: who holds which gate,
//! how far a vacuum is, what is settled.
//!
//! The definitions stand in specs/: `Acts` (acts by their numbers), `Gates` (holds, and when a gate may be
//! taken), `Phases` (the phase of a vacuum, its barriers, and when it may go on), `Settling` (what is settled, and
//! the faults of the disks), `Legal` and `Judging` (legal histories by any rule, and the first act that a
//! rule refuses). `Deciding` has helper words of the functions' parts and is no definition. The functions decide
//! the words of those definitions by going over the acts, and take no memory. `Rules` is what a kind of index
//! brings: which act may come after which acts. The functions of `law` are laws of the definitions, and do no work.
#![tactic(auto)]

mod event;
mod fault;
mod gate;
mod gates;
mod law;
mod phases;
mod rules;
mod settling;
mod stage;

pub use event::{Act, Event};
pub use fault::AuditFault;
pub use gate::{Gate, Hold};
pub use gates::{hold_of, holds, holds_alone, may_take};
pub use law::{law_alone, law_cut, law_kept, law_one_at_a_time, law_one_more};
pub use phases::{is_in_phase, last_barrier, may_begin_remove, may_give_back, phase, removal_end};
pub use rules::Rules;
pub use settling::{count_lasting, is_lasting, may_fault, may_settle};
pub use stage::Stage;

#[cfg(test)]
mod tests;
