//! An index on its disks: what the bytes of its three areas recover to, and how a new one is put there.
//!
//! The definitions stand in specs/: `Recovering` (the pages before the events, the events redone, and what is wrong where) and
//! `Creating` (the first epoch, and what an image reads as meanwhile).
#![tactic(auto)]

mod creating;
mod first_pages;
mod judging;
mod law;
mod reading;
mod redoing;
mod replaying;
mod syncing;
mod unwritten;

pub use creating::create;
pub use law::law_created;
pub use reading::{ReadIndex, read_index};
pub use syncing::read_durable;

#[cfg(test)]
mod tests;
