//! The sets under a search: elements that wait, elements that were found, places that were named, and the frontier that they make.
#![tactic(auto)]

mod candidates;
mod copying;
mod frontier;
mod keeping;
mod key;
mod key_order;
mod nearest;
mod places;
mod seeking;
mod slots;
mod spot;

pub use candidates::Candidates;
pub use copying::{copy_of, found_of};
pub use frontier::Frontier;
pub use key::Key;
pub use nearest::Nearest;
pub use places::Places;
pub use spot::Spot;

#[cfg(test)]
mod tests;
