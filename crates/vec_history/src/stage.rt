//! How far a vacuum is.

/// The three passes of a vacuum, in their order.
#[derive(Clone, Copy, Debug, PartialEq, Eq)]
pub enum Stage {
    /// It takes away the heap ids that are dead.
    Remove,
    /// It puts other neighbours in the place of nodes without ids.
    Repair,
    /// It marks those nodes as deleted.
    Mark,
}
