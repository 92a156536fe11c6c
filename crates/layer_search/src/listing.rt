//! The lists of a new node.

ghost use Rattle.std.specs.Prelude.{◌≡◌, ◌≤◌, ◌+◌, [], IfOk, IfErr, OnOk, length, map, min, Some, None};
ghost use Rattle.vec_names.specs.Params.{IsInRange};
ghost use Rattle.vec_names.specs.declared.params.Kind.TheVariants.{Hnsw};
ghost use Rattle.search_sets.specs.Standing.{spot_of};
ghost use Rattle.vec_history.specs.declared.gate.Gate.TheVariants.{Update};
ghost use Rattle.vec_history.specs.Gates.{Holds};
ghost use Rattle.index_sizes.specs.Sizes.{slots_of_level};
ghost use Rattle.vec_graph.specs.declared.graph.Graph.{Graph};
ghost use Rattle.vec_graph.specs.Rules.{KnowsMembers};
ghost use Rattle.vec_steps.specs.Index.{Index, OfNodes};
ghost use Rattle.vec_steps.specs.Calls.{Goes};
ghost use Rattle.layer_search.specs.Waiting.{AreApart, AreLong};
ghost use Rattle.layer_search.specs.Telling.{OverSpots};
ghost use Rattle.layer_search.specs.Looking.{EndedBy};
ghost use Rattle.layer_search.specs.Listing.{ArePicksKnown, ArePicksLong, AreThere, FindsDown, FindsLayer, FindsLists, lists_of, newcomer_in, newcomer_of};

use crate::aim::{Aim, Work};
use crate::choosing::{add_all_slots, add_layer, add_layers_above};
use crate::descending::descend_in;
use crate::found_lists::FoundLists;
use crate::plan::Plan;
use crate::searching::search_in;
use bit_code::Bits;
use std::alloc::Global;
use vec_names::{Params, Tid};
use vec_steps::{OpFault, Steps, Trace};

/// Finds the lists of a new node with this value and level: the part of Algorithm 1 of the HNSW paper that only looks. It descends
/// to the node's level, or to the entry point's if that is lower, and searches each layer from there down, from what the one above
/// found; in each it chooses twice m neighbours in layer 0, and m in each above, by Algorithm 4. Without an entry point, or where
/// it is gone by the time that it is looked at, all lists are without a neighbour.
///
/// Each search wants as many elements as the index's ef. Where `except` is given, as for a node that gets its lists anew, the
/// element at that place is no neighbour, and one more is wanted. The index is a graph.
///
/// All elements that it found stand as it tells, and where the desk holds Update it knows each neighbour in its layer, as a new node
/// asks.
///
/// The looks that it made come to the end of `trace`, each by its position. It makes no act of its own. Its errors are `Memory`,
/// and `Disk` where a look met a fault of the disks, which leaves an act.
pub fn find_lists<S: Steps>(
    alloc: Global,
    steps: &mut S,
    bits: &Bits,
    level: u8,
    except: Option<Tid>,
    trace: &mut Trace,
) -> Result<FoundLists, OpFault>
    requires params { IsInRange (S.desk steps.old).params }
    requires nodes { (S.desk steps.old).params.kind ≡ Hnsw }
    requires bits { length bits.now ≡ (S.desk steps.old).params.bits }
    ensures goes { Goes S.desk S.stands S.comes_from (OverSpots (S.stands steps.old) (S.seen steps.old) 0 []) steps.old steps.new }
    ensures ok { IfOk result (λ f. FindsLists (OverSpots (S.stands steps.old) (S.seen steps.old) 0 []) (S.desk steps.old)
        (S.seen steps.old) (S.seen steps.new) trace.old.reads trace.new.reads
        (newcomer_in (S.desk steps.old).params bits.now level except) f.top (lists_of f)) }
    ensures there { IfOk result (λ f. (base : Index) → OverSpots (S.stands steps.old) (S.seen steps.old) 0 [] base
        → AreThere (S.seen steps.new) (lists_of f) base) }
    ensures known { IfOk result (λ f. (g : Graph) → OverSpots (S.stands steps.old) (S.seen steps.old) 0 [] (OfNodes g)
        → Holds (S.seen steps.old) (S.desk steps.old).number Update
        → ArePicksKnown g (S.seen steps.new) (S.desk steps.old).number f.picks) }
    ensures members { IfOk result (λ f. (g : Graph) → OverSpots (S.stands steps.old) (S.seen steps.old) 0 [] (OfNodes g)
        → Holds (S.seen steps.old) (S.desk steps.old).number Update
        → KnowsMembers g (S.seen steps.new) (S.desk steps.old).number (S.desk steps.old).params.m level f.lists) }
    ensures many { IfOk result (λ f. length f.lists ≡ slots_of_level (S.desk steps.old).params.m level) }
    ensures picks_long { IfOk result (λ f. ArePicksLong (S.desk steps.old).params.bits f.picks) }
    ensures near_long { IfOk result (λ f. AreLong (S.desk steps.old).params.bits f.near) }
    ensures err { IfErr result (EndedBy (OverSpots (S.stands steps.old) (S.seen steps.old) 0 []) (S.desk steps.old)
        (S.seen steps.old) (S.seen steps.new)) }
{
    let params = steps.params();
    let plan = plan_for(params, level, except);
    let mut work = Work::make(alloc, params)?;
    let mut lists = FoundLists::none(alloc);
    let top = find_in(steps, bits, plan, &mut work, &mut lists, trace)?;
    lists.top = top;
    Ok(lists)
}

// One element more is wanted where one is left out.
fn plan_for(params: Params, level: u8, except: Option<Tid>) -> Plan
    ensures plan { newcomer_of result [] ≡ newcomer_in params [] level except }
    ensures ef { params.ef ≤ result.ef }
{
    let beside = if except.is_some() { 1 } else { 0 };
    Plan {
        ops: params.ops,
        m: params.m,
        level,
        ef: u32::from(params.ef) + beside,
        except,
        layer: 0,
    }
}

// Finds the lists in room that is lent, and tells the level of the entry point. Nothing was found before.
fn find_in<S: Steps>(
    steps: &mut S,
    query: &Bits,
    plan: Plan,
    work: &mut Work,
    lists: &mut FoundLists,
    trace: &mut Trace,
) -> Result<Option<u8>, OpFault>
    requires query { length query.now ≡ (S.desk steps.old).params.bits }
    requires bits { length work.old.room.told.bits ≡ (S.desk steps.old).params.bits }
    requires ef { 1 ≤ plan.ef }
    requires no_lists { lists.old.lists ≡ [] }
    requires no_picks { lists.old.picks ≡ [] }
    requires no_near { lists.old.near ≡ [] }
    ensures goes { Goes S.desk S.stands S.comes_from (OverSpots (S.stands steps.old) (S.seen steps.old) 0 []) steps.old steps.new }
    ensures ok { IfOk result (λ top. FindsLists (OverSpots (S.stands steps.old) (S.seen steps.old) 0 []) (S.desk steps.old)
        (S.seen steps.old) (S.seen steps.new) trace.old.reads trace.new.reads
        (newcomer_of plan query.now) top (lists_of lists.new)) }
    ensures picks_long { OnOk result (ArePicksLong (S.desk steps.old).params.bits lists.new.picks) }
    ensures near_long { OnOk result (AreLong (S.desk steps.old).params.bits lists.new.near) }
    ensures err { IfErr result (EndedBy (OverSpots (S.stands steps.old) (S.seen steps.old) 0 []) (S.desk steps.old)
        (S.seen steps.old) (S.seen steps.new)) }
{
    let descent = descend_in(steps, query, (plan.ops, plan.level), work, trace)?;
    let Some(top) = descent.top else {
        add_all_slots(&mut lists.lists, plan.level, plan.m)?;
        return Ok(None);
    };
    lists.near = descent.from;
    add_layers_above(&mut lists.lists, plan.level, top, plan.m)?;
    let layer = top.min(plan.level);
    find_down(steps, query, Plan { layer, ..plan }, work, lists, trace)?;
    Ok(Some(top))
}

// Searches each layer from the plan's down to the lowest, from what stands near.
fn find_down<S: Steps>(
    steps: &mut S,
    query: &Bits,
    plan: Plan,
    work: &mut Work,
    lists: &mut FoundLists,
    trace: &mut Trace,
) -> Result<(), OpFault>
    requires query { length query.now ≡ (S.desk steps.old).params.bits }
    requires bits { length work.old.room.told.bits ≡ (S.desk steps.old).params.bits }
    requires ef { 1 ≤ plan.ef }
    requires apart { AreApart lists.old.near }
    requires long { AreLong (S.desk steps.old).params.bits lists.old.near }
    requires picks_long { ArePicksLong (S.desk steps.old).params.bits lists.old.picks }
    ensures goes { Goes S.desk S.stands S.comes_from
        (OverSpots (S.stands steps.old) (S.seen steps.old) plan.layer (map spot_of lists.old.near)) steps.old steps.new }
    ensures ok { OnOk result (FindsDown (OverSpots (S.stands steps.old) (S.seen steps.old) plan.layer (map spot_of lists.old.near))
        (S.desk steps.old) (S.seen steps.old) (S.seen steps.new) trace.old.reads trace.new.reads
        (newcomer_of plan query.now) (plan.layer + 1) lists.old lists.new) }
    ensures picks_long { OnOk result (ArePicksLong (S.desk steps.old).params.bits lists.new.picks) }
    ensures near_long { OnOk result (AreLong (S.desk steps.old).params.bits lists.new.near) }
    ensures err { IfErr result (EndedBy
        (OverSpots (S.stands steps.old) (S.seen steps.old) plan.layer (map spot_of lists.old.near))
        (S.desk steps.old) (S.seen steps.old) (S.seen steps.new)) }
{
    let mut layer = plan.layer;
    'layers: while layer > 0 {
        find_layer(steps, query, Plan { layer, ..plan }, work, lists, trace)?;
        layer -= 1;
    }
    find_layer(steps, query, Plan { layer: 0, ..plan }, work, lists, trace)?;
    Ok(())
}

// Searches the plan's layer from what stands near, and chooses the neighbours in it.
fn find_layer<S: Steps>(
    steps: &mut S,
    query: &Bits,
    plan: Plan,
    work: &mut Work,
    lists: &mut FoundLists,
    trace: &mut Trace,
) -> Result<(), OpFault>
    requires query { length query.now ≡ (S.desk steps.old).params.bits }
    requires bits { length work.old.room.told.bits ≡ (S.desk steps.old).params.bits }
    requires ef { 1 ≤ plan.ef }
    requires apart { AreApart lists.old.near }
    requires long { AreLong (S.desk steps.old).params.bits lists.old.near }
    requires picks_long { ArePicksLong (S.desk steps.old).params.bits lists.old.picks }
    ensures goes { Goes S.desk S.stands S.comes_from
        (OverSpots (S.stands steps.old) (S.seen steps.old) plan.layer (map spot_of lists.old.near)) steps.old steps.new }
    ensures bits { OnOk result (length work.new.room.told.bits ≡ (S.desk steps.old).params.bits) }
    ensures apart { OnOk result (AreApart lists.new.near) }
    ensures long { OnOk result (AreLong (S.desk steps.old).params.bits lists.new.near) }
    ensures picks_long { OnOk result (ArePicksLong (S.desk steps.old).params.bits lists.new.picks) }
    ensures told { OnOk result ((base : Index)
        → OverSpots (S.stands steps.old) (S.seen steps.old) plan.layer (map spot_of lists.old.near) base
        → OverSpots (S.stands steps.new) (S.seen steps.new) plan.layer (map spot_of lists.new.near) base) }
    ensures ok { OnOk result (FindsLayer (OverSpots (S.stands steps.old) (S.seen steps.old) plan.layer (map spot_of lists.old.near))
        (S.desk steps.old) (S.seen steps.old) (S.seen steps.new) trace.old.reads trace.new.reads
        (newcomer_of plan query.now) plan.layer lists.old lists.new) }
    ensures err { IfErr result (EndedBy
        (OverSpots (S.stands steps.old) (S.seen steps.old) plan.layer (map spot_of lists.old.near))
        (S.desk steps.old) (S.seen steps.old) (S.seen steps.new)) }
{
    let aim = Aim {
        ops: plan.ops,
        layer: plan.layer,
        ef: plan.ef,
        most: None,
    };
    let found = search_in(steps, query, aim, lists.near.as_slice(), work, trace)?;
    add_layer(work.alloc, plan, found, lists)?;
    Ok(())
}
