//! What the program meets outside itself: a source and a sink of bytes, three areas of a disk, and
//! the pace of its workers. Each has a version in memory, whose bytes and faults contracts name,
//! and a thin one over the system.
#![tactic(auto)]

mod areas;
mod crash;
mod disks;
mod draws;
mod file_disks;
mod file_streams;
mod files;
mod marks;
mod mem_disks;
mod mem_streams;
mod outage;
mod pace;
mod plan;
mod streams;
mod synced;
mod system;
#[cfg(test)]
mod tests;
mod timeline;

pub use crash::Choice;
pub use disks::{Area, Disks};
pub use file_disks::FileDisks;
pub use file_streams::{FileSink, FileSource};
pub use mem_disks::MemDisks;
pub use mem_streams::{MemSink, MemSource};
pub use outage::Outage;
pub use pace::{NoPace, Pace};
pub use streams::{Sink, Source};
pub use synced::write_synced;
