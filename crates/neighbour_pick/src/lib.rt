//! Which elements become neighbours: the choice among those that a search found, and the slot that a new neighbour takes
//! in a list.
//!
//! `pick` makes the first choice and `slot_for` the second. Their definitions stand in specs/: `Order` (by distance, and
//! then by place), `Selection` and `Slots`; `Sifting` and `Standing` have the words of the functions below them. The
//! functions of `law` are laws of those definitions, and do no work.
#![tactic(auto)]

mod farther;
mod fault;
mod found;
mod law;
mod picking;
mod slotting;

pub use fault::PickFault;
pub use found::{Found, SlotSeen};
pub use law::{law_equal_members, law_selection, law_slots};
pub use picking::pick;
pub use slotting::slot_for;

#[cfg(test)]
mod tests;
