//! The names that every other part speaks in: places of items, rows of the indexed table, and an
//! index's parameters; with the level of a new node, the six bytes that spell a place, and maps as values.
#![tactic(auto)]

mod heap_id;
mod level;
mod mapped;
mod order;
mod params;
mod pointer;
mod tid;

pub use heap_id::HeapId;
pub use level::{level_of, most_level};
pub use list_values::Listed;
pub use mapped::Mapped;
pub use order::law_ordered_by_block;
pub use params::{Kind, Ops, Params};
pub use tid::Tid;

#[cfg(test)]
mod tests;
