//! The search of one layer.

ghost use Rattle.std.specs.Prelude.{◌≡◌, ◌≤◌, [], IfOk, IfErr, OnOk, None, length, map, true};
ghost use Rattle.vec_names.specs.Params.{IsInRange};
ghost use Rattle.graph_search.specs.Search.{AreExact};
ghost use Rattle.graph_search.specs.Scan.{is_over};
ghost use Rattle.graph_search.specs.Descent.{start_at};
ghost use Rattle.search_sets.specs.Standing.{held, spot_of, wanted};
ghost use Rattle.vec_steps.specs.Index.{Index};
ghost use Rattle.vec_steps.specs.Calls.{Goes};
ghost use Rattle.layer_search.specs.Waiting.{AreApart, AreLong, IsReady};
ghost use Rattle.layer_search.specs.Telling.{OverSpots, spots_held};
ghost use Rattle.layer_search.specs.Looking.{EndedBy};
ghost use Rattle.layer_search.specs.Running.{GoesOnSo, SearchesLayer};

use crate::aim::{Aim, Room, Work};
use crate::expanding::expand;
use bit_code::Bits;
use neighbour_pick::Found;
use search_sets::Frontier;
use std::alloc::Global;
use vec_names::Listed;
use vec_steps::{OpFault, Steps, Trace};

/// Searches one layer for the `ef` elements nearest to the query, from those of `from` on: Algorithm 2 of the HNSW paper, with
/// ties by place, and with elements that lost all their rows walked through and not kept.
///
/// `from` has each place once, with values of the index's length and their distances to the query; over each index on which the
/// desk stands these elements stand as a look told them, and reach the layer. `ef` is at least 1. The looks that it made come
/// to the end of `trace`, each by its position.
///
/// It makes no act of its own. Its errors are `Memory`, and `Disk` where a look met a fault of the disks, which leaves an act.
pub fn search_layer<S: Steps>(
    alloc: Global,
    steps: &mut S,
    query: &Bits,
    from: &[Found],
    ef: u32,
    layer: u8,
    trace: &mut Trace,
) -> Result<Listed<Found>, OpFault>
    requires params { IsInRange (S.desk steps.old).params }
    requires query { length query.now ≡ (S.desk steps.old).params.bits }
    requires ef { 1 ≤ ef }
    requires apart { AreApart from.now }
    requires long { AreLong (S.desk steps.old).params.bits from.now }
    ensures goes { Goes S.desk S.stands S.comes_from (OverSpots (S.stands steps.old) (S.seen steps.old) layer (map spot_of from.now))
        steps.old steps.new }
    ensures ok { IfOk result (SearchesLayer (OverSpots (S.stands steps.old) (S.seen steps.old) layer (map spot_of from.now))
        (S.desk steps.old) (S.seen steps.old) (S.seen steps.new) trace.old.reads trace.new.reads
        (start_at (S.desk steps.old).params.ops query.now from.now layer) ef) }
    ensures exact { IfOk result (λ found. AreExact (S.desk steps.old).params.ops query.now from.now
        → AreExact (S.desk steps.old).params.ops query.now found) }
    ensures apart { IfOk result AreApart }
    ensures long { IfOk result (AreLong (S.desk steps.old).params.bits) }
    ensures told { IfOk result (λ found. (base : Index)
        → OverSpots (S.stands steps.old) (S.seen steps.old) layer (map spot_of from.now) base
        → OverSpots (S.stands steps.new) (S.seen steps.new) layer (map spot_of found) base) }
    ensures err { IfErr result (EndedBy (OverSpots (S.stands steps.old) (S.seen steps.old) layer (map spot_of from.now))
        (S.desk steps.old) (S.seen steps.old) (S.seen steps.new)) }
{
    let params = steps.params();
    let mut work = Work::make(alloc, params)?;
    let aim = Aim {
        ops: params.ops,
        layer,
        ef,
        most: None,
    };
    let found = search_in(steps, query, aim, from, &mut work, trace)?;
    Ok(found)
}

/// Searches one layer in room that serves layer after layer.
pub(crate) fn search_in<S: Steps>(
    steps: &mut S,
    query: &Bits,
    aim: Aim,
    from: &[Found],
    work: &mut Work,
    trace: &mut Trace,
) -> Result<Listed<Found>, OpFault>
    requires query { length query.now ≡ (S.desk steps.old).params.bits }
    requires bits { length work.old.room.told.bits ≡ (S.desk steps.old).params.bits }
    requires ef { 1 ≤ aim.ef }
    requires most { aim.most ≡ None }
    requires apart { AreApart from.now }
    requires long { AreLong (S.desk steps.old).params.bits from.now }
    ensures goes { Goes S.desk S.stands S.comes_from (OverSpots (S.stands steps.old) (S.seen steps.old) aim.layer (map spot_of from.now))
        steps.old steps.new }
    ensures bits { length work.new.room.told.bits ≡ (S.desk steps.old).params.bits }
    ensures ok { IfOk result (SearchesLayer (OverSpots (S.stands steps.old) (S.seen steps.old) aim.layer (map spot_of from.now))
        (S.desk steps.old) (S.seen steps.old) (S.seen steps.new) trace.old.reads trace.new.reads
        (start_at aim.ops query.now from.now aim.layer) aim.ef) }
    ensures apart { IfOk result AreApart }
    ensures long { IfOk result (AreLong (S.desk steps.old).params.bits) }
    ensures told { IfOk result (λ found. (base : Index)
        → OverSpots (S.stands steps.old) (S.seen steps.old) aim.layer (map spot_of from.now) base
        → OverSpots (S.stands steps.new) (S.seen steps.new) aim.layer (map spot_of found) base) }
    ensures err { IfErr result (EndedBy (OverSpots (S.stands steps.old) (S.seen steps.old) aim.layer (map spot_of from.now))
        (S.desk steps.old) (S.seen steps.old) (S.seen steps.new)) }
{
    work.frontier.clear(aim.ef as usize);
    work.frontier.begin(from)?;
    go_on(steps, query, aim, &mut work.frontier, &mut work.room, trace)?;
    let found = work.frontier.found(work.alloc)?;
    Ok(found)
}

/// Makes turns until the search is over.
pub(crate) fn go_on<S: Steps>(
    steps: &mut S,
    query: &Bits,
    aim: Aim,
    frontier: &mut Frontier,
    room: &mut Room,
    trace: &mut Trace,
) -> Result<(), OpFault>
    requires query { length query.now ≡ (S.desk steps.old).params.bits }
    requires bits { length room.old.told.bits ≡ (S.desk steps.old).params.bits }
    requires ready { IsReady (S.desk steps.old).params.bits frontier.old }
    ensures goes { Goes S.desk S.stands S.comes_from (OverSpots (S.stands steps.old) (S.seen steps.old) aim.layer
        (spots_held (held frontier.old))) steps.old steps.new }
    ensures bits { length room.new.told.bits ≡ (S.desk steps.old).params.bits }
    ensures ready { OnOk result (IsReady (S.desk steps.old).params.bits frontier.new) }
    ensures wanted { OnOk result (wanted frontier.new ≡ wanted frontier.old) }
    ensures told { OnOk result ((base : Index) → OverSpots (S.stands steps.old) (S.seen steps.old) aim.layer
        (spots_held (held frontier.old)) base
        → OverSpots (S.stands steps.new) (S.seen steps.new) aim.layer (spots_held (held frontier.new)) base) }
    ensures over { OnOk result (is_over (wanted frontier.new) aim.most (held frontier.new) ≡ true) }
    ensures ok { OnOk result (GoesOnSo (OverSpots (S.stands steps.old) (S.seen steps.old) aim.layer (spots_held (held frontier.old)))
        (S.desk steps.old) (S.seen steps.old) (S.seen steps.new) trace.old.reads trace.new.reads
        (start_at aim.ops query.now [] aim.layer) (wanted frontier.old) aim.most (held frontier.old) (held frontier.new)) }
    ensures err { IfErr result (EndedBy (OverSpots (S.stands steps.old) (S.seen steps.old) aim.layer (spots_held (held frontier.old)))
        (S.desk steps.old) (S.seen steps.old) (S.seen steps.new)) }
{
    'turns: while !frontier.is_over(aim.most) {
        expand(steps, query, aim, frontier, room, trace)?;
    }
    Ok(())
}
