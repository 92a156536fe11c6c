//! What the lists of a new node are.

ghost use Rattle.std.specs.Prelude.{◌≡◌, [], None};

use neighbour_pick::Found;
use std::alloc::Global;
use vec_names::{Listed, Tid};

/// The lists of a new node, and the elements that they came from.
#[derive(Drop)]
pub struct FoundLists {
    /// All slots of the node, the highest layer first; None is a slot without a neighbour.
    pub lists: Listed<Option<Tid>>,
    /// Each neighbour with its layer, from the highest layer to 0, in the order of the slots.
    pub picks: Listed<(u8, Found)>,
    /// What the search of layer 0 found, in order, without the element that was to be left out.
    pub near: Listed<Found>,
    /// The level of the entry point; None where there is none, or it is gone by the time that it is looked at.
    pub top: Option<u8>,
}

impl FoundLists {
    // Nothing was found yet.
    pub(crate) fn none(alloc: Global) -> FoundLists
        ensures lists { result.lists ≡ [] }
        ensures picks { result.picks ≡ [] }
        ensures near { result.near ≡ [] }
        ensures top { result.top ≡ None }
    {
        FoundLists {
            lists: Listed::new(alloc),
            picks: Listed::new(alloc),
            near: Listed::new(alloc),
            top: None,
        }
    }
}
