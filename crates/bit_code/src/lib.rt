//! Bit values of 1 to 64,000 places: their texts, their packed bytes, and counts over them.
#![tactic(auto)]

mod bits;
mod counts;
mod fault;
mod packing;
mod texts;

pub use bits::Bits;
pub use counts::{count_both, count_ones, count_unequal};
pub use fault::BitsFault;
pub use packing::{is_packed, law_packing};
pub use texts::read_bits;

#[cfg(test)]
mod tests;
