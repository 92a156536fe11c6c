//! What holds of the rows and of the reads of a batch: laws, and no work.

ghost use Rattle.std.specs.Prelude.{ℕ, Bool, List, [], Option};
ghost use Rattle.vec_names.specs.declared.params.Ops.{Ops};
ghost use Rattle.bit_dist.specs.declared.dist.Dist.{Dist};
ghost use Rattle.vec_history.specs.declared.event.Act.{Act};
ghost use Rattle.vec_graph.specs.declared.graph.Graph.{Graph};
ghost use Rattle.vec_graph.specs.Legal.{IsLegal};
ghost use Rattle.vec_graph.specs.Sound.{IsSound};
ghost use Rattle.graph_search.specs.Reads.{AreReadAt, Answer as Telling, Look};
ghost use Rattle.graph_search.specs.Scan.{Given, Held, Mode as Modes, Standing};
ghost use Rattle.search_sets.specs.declared.spot.Spot.{Spot};
ghost use Rattle.vec_steps.specs.Index.{OfNodes};
ghost use Rattle.layer_search.specs.Telling.{OverSpots};
ghost use Rattle.hnsw_scan.specs.Gathering.{GivesFirst, GivesNext};
ghost use Rattle.hnsw_scan.specs.Gated.{MadeGated};
ghost use Rattle.hnsw_scan.specs.Present.{AreAnswered};
ghost use Rattle.hnsw_scan.specs.Unharmed.{AreUnharmed};

use vec_steps::Steps;

/// A law, and no work. Over a graph on which a call stood, the looks that it made under its gate
/// are reads of the history, at the positions that it told. So each row of a first batch, and of a
/// next one, was present when it was read in this call: at the position of one of its looks a node
/// stood at the element's place that was not deleted, with this version, this row among its rows,
/// and a value from which the distance is.
pub fn law_rows<S: Steps>(steps: &S)
    ensures read { (spots : List Spot) (new : List Act) (positions : List ℕ) (reads : List (Look × Telling))
        → MadeGated (OverSpots (S.stands steps.now) (S.seen steps.now) 0 spots) (S.desk steps.now) (S.seen steps.now) new [] positions
        reads → (base : Graph) → OverSpots (S.stands steps.now) (S.seen steps.now) 0 spots (OfNodes base)
        → AreReadAt base new positions reads }
    ensures first { (spots : List Spot) (new : List Act) (positions : List ℕ) (ops : Ops) (query : List Bool) (ef : ℕ)
        (given : List Given) (h : Held) (last : Option Dist)
        → GivesFirst (MadeGated (OverSpots (S.stands steps.now) (S.seen steps.now) 0 spots) (S.desk steps.now) (S.seen steps.now) new []
        positions) ops query ef given h last → (base : Graph)
        → OverSpots (S.stands steps.now) (S.seen steps.now) 0 spots (OfNodes base) → AreAnswered base new positions ops query given }
    ensures next { (spots : List Spot) (new : List Act) (positions : List ℕ) (ops : Ops) (query : List Bool) (ef max : ℕ)
        (mode : Modes) (stood : Standing) (given : List Given) (end : Bool) (h : Held) (last : Option Dist)
        → GivesNext (MadeGated (OverSpots (S.stands steps.now) (S.seen steps.now) 0 spots) (S.desk steps.now) (S.seen steps.now) new []
        positions) ops query ef max mode stood given end h last → (base : Graph)
        → OverSpots (S.stands steps.now) (S.seen steps.now) 0 spots (OfNodes base) → AreAnswered base new positions ops query given }
{}

/// A law, and no work. Over a sound graph on which the call stood, in a legal history, no read of a
/// first batch is Gone, and no act marks a place from the read that first named it up to any later
/// read of the call: so it meets no tuple that is deleted or used anew. What a first batch says of
/// itself is enough: that it made these looks under the gate Scan. Its desk gives the legality, by
/// the bases on which it stands after the call.
pub fn law_first_reads<S: Steps>(steps: &S)
    ensures { (spots : List Spot) (new : List Act) (positions : List ℕ) (ops : Ops) (query : List Bool) (ef : ℕ)
        (given : List Given) (h : Held) (last : Option Dist)
        → (batch : GivesFirst (MadeGated (OverSpots (S.stands steps.now) (S.seen steps.now) 0 spots) (S.desk steps.now)
        (S.seen steps.now) new [] positions) ops query ef given h last) → (base : Graph)
        → OverSpots (S.stands steps.now) (S.seen steps.now) 0 spots (OfNodes base) → IsSound base → IsLegal base new
        → AreUnharmed new positions batch.reads }
{}
