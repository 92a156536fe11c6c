//! Events: what changes an index and what desks do beside it, and the one spelling of each lasting
//! event as bytes.
#![tactic(auto)]

mod counted;
mod fault;
mod law;
mod pieces;
mod reading;
mod reading_kinds;
mod sizes;
mod writing;

pub use fault::EventFault;
pub use law::law_one_reading;
pub use reading::read_event;
pub use sizes::event_size;
pub use vec_history::{Act, Event, Gate, Hold, Stage};
pub use writing::write_event;

#[cfg(test)]
mod tests;
