// One turn of a search.
#![tactic(auto)]

ghost use Rattle.std.specs.Prelude.{◌≡◌, [], ◌∷◌, OnOk, IfErr, length};
ghost use Rattle.graph_search.specs.Descent.{start_at};
ghost use Rattle.search_sets.specs.Standing.{IsWhole, held, wanted};
ghost use Rattle.vec_steps.specs.Index.{Index};
ghost use Rattle.vec_steps.specs.Calls.{Goes};
ghost use Rattle.layer_search.specs.Waiting.{IsReady};
ghost use Rattle.layer_search.specs.Telling.{OverSpots, spots_held};
ghost use Rattle.layer_search.specs.Looking.{EndedBy};
ghost use Rattle.layer_search.specs.Running.{Expands, LooksAll};

use crate::aim::{Aim, Room};
use crate::looking::{add_told, look_at_list, look_at_node, slots_told};
use bit_code::Bits;
use search_sets::Frontier;
use vec_names::Tid;
use vec_steps::{OpFault, Steps, Told, Trace};

/// Expands the least element that waits: looks at its list, and at the nodes that this names for the first time.
pub fn expand<S: Steps>(
    steps: &mut S,
    query: &Bits,
    aim: Aim,
    frontier: &mut Frontier,
    room: &mut Room,
    trace: &mut Trace,
) -> Result<(), OpFault>
    requires query { length query.now ≡ (S.desk steps.old).params.bits }
    requires bits { length room.old.told.bits ≡ (S.desk steps.old).params.bits }
    requires ready { IsReady (S.desk steps.old).params.bits frontier.old }
    requires waits { (held frontier.old).unexpanded ≡ [] → ⊥ }
    ensures goes { Goes S.desk S.stands S.comes_from (OverSpots (S.stands steps.old) (S.seen steps.old) aim.layer
        (spots_held (held frontier.old))) steps.old steps.new }
    ensures bits { length room.new.told.bits ≡ (S.desk steps.old).params.bits }
    ensures ready { OnOk result (IsReady (S.desk steps.old).params.bits frontier.new) }
    ensures wanted { OnOk result (wanted frontier.new ≡ wanted frontier.old) }
    ensures told { OnOk result ((base : Index) → OverSpots (S.stands steps.old) (S.seen steps.old) aim.layer
        (spots_held (held frontier.old)) base
        → OverSpots (S.stands steps.new) (S.seen steps.new) aim.layer (spots_held (held frontier.new)) base) }
    ensures ok { OnOk result (Expands (OverSpots (S.stands steps.old) (S.seen steps.old) aim.layer (spots_held (held frontier.old)))
        (S.desk steps.old) (S.seen steps.old) (S.seen steps.new) trace.old.reads trace.new.reads
        (start_at aim.ops query.now [] aim.layer) (held frontier.old) (held frontier.new)) }
    ensures err { IfErr result (EndedBy (OverSpots (S.stands steps.old) (S.seen steps.old) aim.layer (spots_held (held frontier.old)))
        (S.desk steps.old) (S.seen steps.old) (S.seen steps.new)) }
{
    let Some(spot) = frontier.take_least()? else {
        return Ok(());
    };
    look_at_list(steps, spot, aim.layer, &mut room.told, trace)?;
    room.fresh.clear();
    frontier.name(slots_told(&room.told), &mut room.fresh)?;
    look_at_all(steps, query, aim, frontier, room, trace)?;
    Ok(())
}

// Looks at the nodes of the fresh places, and adds the elements that this tells.
fn look_at_all<S: Steps>(
    steps: &mut S,
    query: &Bits,
    aim: Aim,
    frontier: &mut Frontier,
    room: &mut Room,
    trace: &mut Trace,
) -> Result<(), OpFault>
    requires query { length query.now ≡ (S.desk steps.old).params.bits }
    requires bits { length room.old.told.bits ≡ (S.desk steps.old).params.bits }
    requires whole { IsWhole frontier.old }
    ensures goes { Goes S.desk S.stands S.comes_from (OverSpots (S.stands steps.old) (S.seen steps.old) aim.layer []) steps.old steps.new }
    ensures bits { length room.new.told.bits ≡ (S.desk steps.old).params.bits }
    ensures whole { OnOk result (IsWhole frontier.new) }
    ensures wanted { OnOk result (wanted frontier.new ≡ wanted frontier.old) }
    ensures ok { OnOk result (LooksAll (OverSpots (S.stands steps.old) (S.seen steps.old) aim.layer []) (S.desk steps.old)
        (S.seen steps.old) (S.seen steps.new) trace.old.reads trace.new.reads (start_at aim.ops query.now [] aim.layer)
        (S.desk steps.old).params.bits (held frontier.old) (held frontier.new) room.old.fresh) }
    ensures err { IfErr result (EndedBy (OverSpots (S.stands steps.old) (S.seen steps.old) aim.layer []) (S.desk steps.old)
        (S.seen steps.old) (S.seen steps.new)) }
{
    for k in 0..room.fresh.len() {
        let at = room.fresh.as_slice()[k];
        look_at_one(steps, query, aim, at, frontier, &mut room.told, trace)?;
    }
    Ok(())
}

// Looks at the node of a place, and adds the element that stands there, if one does.
fn look_at_one<S: Steps>(
    steps: &mut S,
    query: &Bits,
    aim: Aim,
    at: Tid,
    frontier: &mut Frontier,
    told: &mut Told,
    trace: &mut Trace,
) -> Result<(), OpFault>
    requires query { length query.now ≡ (S.desk steps.old).params.bits }
    requires bits { length told.old.bits ≡ (S.desk steps.old).params.bits }
    requires whole { IsWhole frontier.old }
    ensures goes { Goes S.desk S.stands S.comes_from (OverSpots (S.stands steps.old) (S.seen steps.old) aim.layer []) steps.old steps.new }
    ensures bits { length told.new.bits ≡ (S.desk steps.old).params.bits }
    ensures whole { OnOk result (IsWhole frontier.new) }
    ensures wanted { OnOk result (wanted frontier.new ≡ wanted frontier.old) }
    ensures ok { OnOk result (LooksAll (OverSpots (S.stands steps.old) (S.seen steps.old) aim.layer []) (S.desk steps.old)
        (S.seen steps.old) (S.seen steps.new) trace.old.reads trace.new.reads (start_at aim.ops query.now [] aim.layer)
        (S.desk steps.old).params.bits (held frontier.old) (held frontier.new) (at ∷ [])) }
    ensures err { IfErr result (EndedBy (OverSpots (S.stands steps.old) (S.seen steps.old) aim.layer []) (S.desk steps.old)
        (S.seen steps.old) (S.seen steps.new)) }
{
    look_at_node(steps, at, aim.layer, None, told, trace)?;
    add_told(frontier, query, aim.ops, at, told)?;
    Ok(())
}
