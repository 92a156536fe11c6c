//! Limits and sizes of an index, each once: the most bits of a value, the blocks, the room of the log and of a page, how long each tuple is,
//! how many slots a node has, and the version after a version.
//!
//! The constants are for code and for definitions; the functions compute what specs/Sizes.antt defines. None takes memory.
#![tactic(auto)]

mod limits;
mod sizes;

pub use limits::{
    LAST_BLOCK, LOG_ROOM, MOST_BITS, MOST_BLOCKS, MOST_IDS, MOST_ITEM, MOST_SLOTS, PAGE_END,
    PAGE_ROOM, PAGE_SIZE,
};
pub use sizes::{
    centre_size, centres_on_page, element_size, entry_size, item_need, links_size, next_version,
    slots_of_level,
};

#[cfg(test)]
mod tests;
