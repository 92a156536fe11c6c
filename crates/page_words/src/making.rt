//! What becomes of a change that is asked for.

use vec_graph::Place;

/// What becomes of a change that is asked for, beside the word that is told.
#[derive(Clone, Copy, Debug, PartialEq, Eq)]
pub enum Making {
    /// Nothing: the word says why.
    Nothing,
    /// The event that was asked for is made.
    Asked,
    /// The slot of this number among all slots of the node is changed.
    Slot(u16),
    /// A new node is put at these places.
    At(Place),
    /// A list grows by this block.
    Behind(u32),
}
