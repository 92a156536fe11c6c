//! What desks hold.

/// The three gates of an index, each held by a desk for a time.
#[derive(Clone, Copy, Debug, PartialEq, Eq)]
pub enum Gate {
    /// Held by what changes the graph.
    Update,
    /// Held by what reads the graph over several steps.
    Scan,
    /// Held by a vacuum, so that no two run at once.
    Vacuum,
}

/// How a gate is held.
#[derive(Clone, Copy, Debug, PartialEq, Eq)]
pub enum Hold {
    /// Beside others that hold it Shared.
    Shared,
    /// With no other holder.
    Alone,
}
