//! What the pages of an index say to a change that is asked for, and the event that it makes.
#![tactic(auto)]

mod deciding;
mod elements;
mod event;
mod links;
mod making;
mod places;
mod puts;
mod rows;

pub use deciding::decide;
pub use event::event_of;
pub use making::Making;
