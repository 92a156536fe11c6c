//! The slots that a step tells.

ghost use Rattle.std.specs.Prelude.{◌≡◌, ◌<◌, ◌≤◌, [], ◌∷◌, ◌++◌, length, IfOk};
ghost use Rattle.index_sizes.specs.declared.limits.TheConstants.{MOST_SLOTS as MostSlots};

use index_sizes::MOST_SLOTS;
use std::alloc::{AllocError, Global};
use std::marker::Model;
use vec_names::Tid;

/// Optional places, with room for as many as a list of neighbours may have, so that filling it anew takes no memory. Contracts
/// see it as the list of the places.
#[derive(Drop)]
pub struct Slots {
    places: Vec<Option<Tid>>,
}

impl Model for Slots {
    ghost use Rattle.std.specs.Prelude.{List, Option, ◌≤◌, vec_capacity};
    ghost use Rattle.vec_names.specs.declared.tid.Tid.{Tid};
    ghost use Rattle.index_sizes.specs.declared.limits.TheConstants.{MOST_SLOTS};

    ghost Value = { List (Option Tid) };

    ghost view = { λ s. s.places.items };

    ghost invariant = { λ s. MOST_SLOTS ≤ vec_capacity s.places };
}

impl Slots {
    /// Room for as many slots as there may be, with none in it.
    pub fn make(alloc: Global) -> Result<Slots, AllocError>
        ensures { IfOk result (λ slots. slots ≡ []) }
    {
        let places = Vec::with_capacity(alloc, MOST_SLOTS)?;
        Ok(Slots { places })
    }

    pub fn as_slice(&self) -> &[Option<Tid>]
        ensures { result.now ≡ self.now }
    {
        self.places.as_slice()
    }

    /// Takes these places in place of those that it has. It needs no memory.
    pub fn refill(&mut self, places: &[Option<Tid>])
        requires { length places.now ≤ MostSlots }
        ensures { self.new ≡ places.now }
    {
        self.places.clear();
        let _ = self.places.extend_from_slice(places);
    }

    /// Takes all places out.
    pub fn clear(&mut self)
        ensures { self.new ≡ [] }
    {
        self.places.clear();
    }

    /// Puts one more place last. It needs no memory.
    pub fn add(&mut self, place: Option<Tid>)
        requires { length self.old < MostSlots }
        ensures { self.new ≡ self.old ++ place ∷ [] }
    {
        let _ = self.places.push(place);
    }
}
