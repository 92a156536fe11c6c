//! A layer's search that goes on.

use crate::aim::{Aim, Room};
use crate::batching::{begin_batch, room_for};
use crate::searching::go_on;
use bit_code::Bits;
use neighbour_pick::Found;
use search_sets::Frontier;
use std::alloc::Global;
use vec_names::Listed;
use vec_steps::{OpFault, Steps, Trace};

/// The search of one layer, Algorithm 2 of the HNSW paper, that can be gone on with: it keeps what it knows, what waits, and what
/// was found and not taken. Contracts tell it by `holding`, in the words of what a search is.
///
/// All its calls have one query and one index. After an error it is not used again.
#[derive(Drop)]
pub struct Search {
    alloc: Global,
    layer: u8,
    frontier: Frontier,
    // What steps tell, and places to be looked at: made for the index that is searched.
    room: Option<Room>,
}

impl Search {
    ghost use Rattle.std.specs.Prelude.{◌≡◌, ◌≤◌, ◌<◌, ◌^◌, ℕ, List, Bool, Some, IfOk, IfErr, OnOk, length, map, true};
    ghost use Rattle.vec_names.specs.declared.params.Ops.{Ops as Distances};
    ghost use Rattle.vec_names.specs.Params.{IsInRange};
    ghost use Rattle.vec_history.specs.declared.event.Act.{Act};
    ghost use Rattle.neighbour_pick.specs.declared.found.Found.{Found as Element};
    ghost use Rattle.graph_search.specs.Search.{AreExact};
    ghost use Rattle.graph_search.specs.Descent.{start_at};
    ghost use Rattle.graph_search.specs.Scan.{after_batch, is_over};
    ghost use Rattle.graph_search.specs.ByHolding.{HoldTheSame, batch_of, elements_in};
    ghost use Rattle.search_sets.specs.Standing.{begun_from, known_earlier, spot_of, without_batch};
    ghost use Rattle.vec_steps.specs.Index.{Index};
    ghost use Rattle.vec_steps.specs.Calls.{Goes};
    ghost use Rattle.vec_steps.specs.declared.fault.OpFault.TheVariants.{Memory};
    ghost use Rattle.layer_search.specs.Waiting.{AreApart, AreLong};
    ghost use Rattle.layer_search.specs.Telling.{OverSpots, StandThere, spots_held};
    ghost use Rattle.layer_search.specs.Looking.{EndedBy};
    ghost use Rattle.layer_search.specs.Running.{GoesOnSo};
    ghost use Rattle.layer_search.specs.Resuming.{AreExactHeld, CanGoOn, CanTake, FirstTurns, holding, layer_of};

    /// A search of a layer from these elements on, which has made no turn yet. `from` has each place once, and its elements reach
    /// the layer.
    ///
    /// Its one error is `Memory`.
    pub fn make(alloc: Global, from: &[Found], layer: u8) -> Result<Search, OpFault>
        requires apart { AreApart from.now }
        ensures begun { IfOk result (λ search. HoldTheSame (holding search) (begun_from from.now)) }
        ensures layer { IfOk result (λ search. layer_of search ≡ layer) }
        ensures ready { IfOk result (λ search. (bits : ℕ) → AreLong bits from.now → CanGoOn bits search) }
        ensures told { IfOk result (λ search. (acts : List Act) (base : Index) → StandThere acts layer (map spot_of from.now) base
            → StandThere acts layer (spots_held (holding search)) base) }
        ensures exact { IfOk result (λ search. (ops : Distances) (query : List Bool) → AreExact ops query from.now
            → AreExactHeld ops query (holding search)) }
        ensures memory { IfErr result (λ e. e ≡ Memory) }
    {
        let mut frontier = Frontier::new(alloc, 1)?;
        frontier.begin(from)?;
        Ok(Search {
            alloc,
            layer,
            frontier,
            room: None,
        })
    }

    /// Goes on until the search is over: nothing waits, or `ef` are found that were not taken and the least that waits comes after
    /// the last of these, or `max` are known, those counted from which the search began. A `max` above 2^32 bounds nothing.
    ///
    /// Over each index on which the desk stands, the elements that the search holds stand as looks told them, and reach its layer.
    /// `ef` is at least 1. The looks that it made come to the end of `trace`, each by its position. What was known when the call
    /// began is marked as known earlier.
    ///
    /// It makes no act of its own. Its errors are `Memory`, and `Disk` where a look met a fault of the disks, which leaves an act.
    pub fn go_on<S: Steps>(
        &mut self,
        steps: &mut S,
        query: &Bits,
        ef: u32,
        max: u64,
        trace: &mut Trace,
    ) -> Result<(), OpFault>
        requires params { IsInRange (S.desk steps.old).params }
        requires query { length query.now ≡ (S.desk steps.old).params.bits }
        requires ef { 1 ≤ ef }
        requires ready { CanGoOn (S.desk steps.old).params.bits self.old }
        ensures goes { Goes S.desk S.stands S.comes_from (OverSpots (S.stands steps.old) (S.seen steps.old) (layer_of self.old)
            (spots_held (holding self.old))) steps.old steps.new }
        ensures ready { OnOk result (CanGoOn (S.desk steps.old).params.bits self.new) }
        ensures layer { OnOk result (layer_of self.new ≡ layer_of self.old) }
        ensures told { OnOk result ((base : Index) → OverSpots (S.stands steps.old) (S.seen steps.old) (layer_of self.old)
            (spots_held (holding self.old)) base
            → OverSpots (S.stands steps.new) (S.seen steps.new) (layer_of self.old) (spots_held (holding self.new)) base) }
        ensures exact { OnOk result (AreExactHeld (S.desk steps.old).params.ops query.now (holding self.old)
            → AreExactHeld (S.desk steps.old).params.ops query.now (holding self.new)) }
        ensures over { OnOk result (is_over ef (Some max) (holding self.new) ≡ true) }
        ensures ok { OnOk result ((from : List Element) → GoesOnSo (OverSpots (S.stands steps.old) (S.seen steps.old) (layer_of self.old)
            (spots_held (holding self.old))) (S.desk steps.old) (S.seen steps.old) (S.seen steps.new) trace.old.reads trace.new.reads
            (start_at (S.desk steps.old).params.ops query.now from (layer_of self.old)) ef (Some max)
            (known_earlier (holding self.old)) (holding self.new)) }
        ensures first { OnOk result ((from : List Element) → HoldTheSame (holding self.old) (begun_from from) → 2 ^ 32 < max
            → FirstTurns (OverSpots (S.stands steps.old) (S.seen steps.old) (layer_of self.old) (spots_held (holding self.old)))
            (S.desk steps.old) (S.seen steps.old) (S.seen steps.new) trace.old.reads trace.new.reads
            (start_at (S.desk steps.old).params.ops query.now from (layer_of self.old)) ef (holding self.new)) }
        ensures err { IfErr result (EndedBy (OverSpots (S.stands steps.old) (S.seen steps.old) (layer_of self.old)
            (spots_held (holding self.old))) (S.desk steps.old) (S.seen steps.old) (S.seen steps.new)) }
    {
        let params = steps.params();
        let kept = std::mem::replace(&mut self.room, None);
        let mut room = room_for(self.alloc, kept, params)?;
        begin_batch(&mut self.frontier, ef)?;
        let aim = Aim {
            ops: params.ops,
            layer: self.layer,
            ef,
            most: Some(max),
        };
        go_on(steps, query, aim, &mut self.frontier, &mut room, trace)?;
        self.room = Some(room);
        Ok(())
    }

    /// Takes the first `ef` of those that were found and not taken, in order, each with whether it was known before the last
    /// `go_on` began. `ef` is at least 1.
    ///
    /// Its one error is `Memory`.
    pub fn take(&mut self, ef: u32) -> Result<Listed<(Found, bool)>, OpFault>
        requires ef { 1 ≤ ef }
        requires ready { CanTake self.old }
        ensures batch { IfOk result (λ batch. batch ≡ batch_of ef (holding self.old)) }
        ensures left { OnOk result (HoldTheSame (holding self.new) (without_batch ef (holding self.old))) }
        ensures after { OnOk result (HoldTheSame (known_earlier (holding self.new)) (after_batch ef (holding self.old))) }
        ensures layer { OnOk result (layer_of self.new ≡ layer_of self.old) }
        ensures ready { OnOk result ((bits : ℕ) → CanGoOn bits self.old → CanGoOn bits self.new) }
        ensures told { OnOk result ((acts : List Act) (base : Index)
            → StandThere acts (layer_of self.old) (spots_held (holding self.old)) base
            → StandThere acts (layer_of self.old) (spots_held (holding self.new)) base) }
        ensures exact { IfOk result (λ batch. (ops : Distances) (query : List Bool) → AreExactHeld ops query (holding self.old)
            → AreExact ops query (elements_in batch)) }
        ensures still_exact { OnOk result ((ops : Distances) (query : List Bool) → AreExactHeld ops query (holding self.old)
            → AreExactHeld ops query (holding self.new)) }
        ensures memory { IfErr result (λ e. e ≡ Memory) }
    {
        self.frontier.want(ef as usize)?;
        let batch = self.frontier.take_batch(self.alloc)?;
        Ok(batch)
    }
}
