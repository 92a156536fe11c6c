//! The search of a layer, written once over any steps: Algorithm 2 of the HNSW paper.
#![tactic(auto)]

mod aim;
mod back;
mod batching;
mod choosing;
mod descending;
mod expanding;
mod found_lists;
mod law;
mod linking;
mod listing;
mod looking;
mod plan;
mod resuming;
mod searching;
mod seeing;

pub use descending::{Descent, descend};
pub use found_lists::FoundLists;
pub use law::law_elements_stay;
pub use linking::link_back;
pub use listing::find_lists;
pub use resuming::Search;
pub use searching::search_layer;
