//! What was told of elements lasts: a law, and no work.

ghost use Rattle.std.specs.Prelude.{◌++◌, ℕ, List};
ghost use Rattle.vec_history.specs.declared.event.Act.{Act};
ghost use Rattle.search_sets.specs.declared.spot.Spot.{Spot};
ghost use Rattle.vec_steps.specs.Index.{Index, IsLegal, IsShaped};
ghost use Rattle.layer_search.specs.Telling.{StandThere};

/// A law, and no work. Elements that stand where they were told to stand still do so after any further acts that are legal,
/// whoever makes them. So a search may go on later.
pub fn law_elements_stay()
    ensures { (acts more : List Act) (layer : ℕ) (spots : List Spot) (base : Index) → IsShaped base → IsLegal base (acts ++ more)
        → StandThere acts layer spots base → StandThere (acts ++ more) layer spots base }
{}
