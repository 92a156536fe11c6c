//! What holds of the spellings of all events.

ghost use Rattle.std.specs.Prelude.{◌≡◌, ◌++◌, ℕ, List, All};
ghost use Rattle.std.specs.List.{flat_map};
ghost use Rattle.vec_history.specs.declared.event.Event.{Event};
ghost use Rattle.vec_event.specs.Spelling.{spelling, IsTyped, IsWritable};

/// A law, and no work. No spelling begins another one, and equal spellings are those of one event; so
/// events written one after the other are read in one way alone.
pub fn law_one_reading()
    ensures event { (a b : Event) (x y : List ℕ) → IsTyped a → IsWritable a → IsTyped b → IsWritable b
        → spelling a ++ x ≡ spelling b ++ y → (a ≡ b) × (x ≡ y) }
    ensures events { (these others : List Event) → All (λ e. IsTyped e × IsWritable e) these → All (λ e. IsTyped e × IsWritable e) others
        → flat_map spelling these ≡ flat_map spelling others → these ≡ others }
{}
