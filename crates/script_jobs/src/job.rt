//! What was done for one command.

use vec_names::Listed;

/// A command that was completed: which line it was, which desk did it, the desk's front before and after it, and where it looked.
#[derive(Drop)]
pub struct Job {
    /// The number of the command's line, from 1.
    pub line: u64,
    /// The number by which the desk's acts are known.
    pub desk: u32,
    /// How many acts the desk had seen before.
    pub before: u64,
    /// How many it had seen after.
    pub after: u64,
    /// The positions of the looks of an insert or a search, in their order: each is the number of acts before it.
    pub reads: Listed<u64>,
}
