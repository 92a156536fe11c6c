//! Limits of a board.

/// How many acts a history may have, with those that it keeps room for.
pub const MOST_ACTS: u64 = 4_611_686_018_427_387_904;
