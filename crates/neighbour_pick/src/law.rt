//! What the definitions of selection and slots mean: laws, and no work.

ghost use Rattle.std.specs.Prelude.{◌≡◌, ◌<◌, ◌≤◌, ℕ, min, Bool, true, false, List, [], ◌∷◌, length, slice_get, Option, Some, None, is_none};
ghost use Rattle.std.specs.List.{list_any};
ghost use Rattle.vec_names.specs.declared.tid.Tid.{Tid as Tids};
ghost use Rattle.vec_names.specs.declared.params.Ops.{Ops as Operators};
ghost use Rattle.vec_names.specs.declared.params.Ops.TheVariants.{Hamming};
ghost use Rattle.bit_dist.specs.Distances.{hamming_of};
ghost use Rattle.neighbour_pick.specs.declared.found.SlotSeen.{SlotSeen};
ghost use Rattle.neighbour_pick.specs.Order.{Candidate};
ghost use Rattle.neighbour_pick.specs.Selection.{picked};
ghost use Rattle.neighbour_pick.specs.Slots.{is_named, slot_of};

/// A law, and no work. Selection gives as many as there are, at most `count`; each is one of the candidates, and
/// none comes twice.
pub fn law_selection()
    ensures many { (ops : Operators) (cs : List Candidate) (count : ℕ) → length (picked ops cs count) ≡ min count (length cs) }
    ensures there { (ops : Operators) (cs : List Candidate) (count i k : ℕ) → slice_get (picked ops cs count) i ≡ Some k → k < length cs }
    ensures once { (ops : Operators) (cs : List Candidate) (count i j k : ℕ) → slice_get (picked ops cs count) i ≡ Some k
        → slice_get (picked ops cs count) j ≡ Some k
        → i ≡ j }
{}

/// A law, and no work. An entrant that a slot names gets no other. Else, where a slot is empty, it gets one that
/// is, and none behind that. What it gets is one of the slots.
pub fn law_slots()
    ensures named { (ops : Operators) (slots : List SlotSeen) (entrant : Candidate)
        → list_any (λ s. is_named entrant.at s.at) slots ≡ true
        → slot_of ops slots entrant ≡ None }
    ensures empty { (ops : Operators) (slots : List SlotSeen) (entrant : Candidate) (k : ℕ) (seen : SlotSeen)
        → list_any (λ s. is_named entrant.at s.at) slots ≡ false
        → slice_get slots k ≡ Some seen → seen.at ≡ None
        → (j : ℕ) × (other : SlotSeen) × (slot_of ops slots entrant ≡ Some j) × (j ≤ k) × (slice_get slots j ≡ Some other)
        × (other.at ≡ None) }
    ensures there { (ops : Operators) (slots : List SlotSeen) (entrant : Candidate) (k : ℕ) → slot_of ops slots entrant ≡ Some k
        → k < length slots }
{}

/// A law, and no work. A worked example: the owner's value is 0000, both slots name one live element of value 0011, and
/// the entrant has the value 0001. Of the two equal members the later one gives way.
pub fn law_equal_members()
    ensures { (member entrant : Tids) → is_named entrant (Some member) ≡ false
        → slot_of Hamming
        (record {
          at = Some member;
          live = true;
          dist = hamming_of (false ∷ false ∷ false ∷ false ∷ []) (false ∷ false ∷ true ∷ true ∷ []);
          bits = false ∷ false ∷ true ∷ true ∷ [];
        }
        ∷ record {
          at = Some member;
          live = true;
          dist = hamming_of (false ∷ false ∷ false ∷ false ∷ []) (false ∷ false ∷ true ∷ true ∷ []);
          bits = false ∷ false ∷ true ∷ true ∷ [];
        }
        ∷ [])
        (record {
          at = entrant;
          dist = hamming_of (false ∷ false ∷ false ∷ false ∷ []) (false ∷ false ∷ false ∷ true ∷ []);
          bits = false ∷ false ∷ false ∷ true ∷ [];
        })
        ≡ Some 1 }
{}
