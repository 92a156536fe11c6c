// The slots of a table of places.

use vec_names::Tid;

/// A slot: a place, and the round that put it there. A slot of an earlier round is free.
#[derive(Clone, Copy)]
pub struct Slot {
    pub at: Tid,
    pub round: u32,
}
