//! The page area: the page of a block stands at 8,192 times the block.
//!
//! `write_pages` makes pages durable and `read_one` reads one. The words of their contracts stand in specs/Area.antt; what
//! disks are and what a crash may leave of them is said in `vec_outside`.
#![tactic(auto)]

mod fault;
mod reading;
mod writing;

pub use fault::PageFileFault;
pub use reading::read_one;
pub use writing::write_pages;

#[cfg(test)]
mod tests;
