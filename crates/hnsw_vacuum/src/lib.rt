//! Passes of a vacuum of a graph, over any steps: rows that a test calls dead are taken out of the nodes, the nodes without rows are
//! found, and such nodes are deleted.
#![tactic(auto)]

mod asking;
mod dropping;
mod judging;
mod looking;
mod marking;
mod removing;
mod seeking;
mod tally;

pub use dropping::{drop_all, drop_dead};
pub use marking::{Doomed, mark};
pub use removing::remove;
pub use seeking::{find_doomed, look_for_doomed};
pub use tally::Tally;
