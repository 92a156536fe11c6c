// One look, and what it told.
#![tactic(auto)]

ghost use Rattle.std.specs.Prelude.{◌≡◌, [], ◌∷◌, OnOk, IfErr, IfOk, length, true, false};
ghost use Rattle.neighbour_pick.specs.declared.found.Found.{Found as Element};
ghost use Rattle.graph_search.specs.Reads.{AtMeta, AtNode, OfMeta};
ghost use Rattle.graph_search.specs.Search.{element_of, filled, named_in};
ghost use Rattle.graph_search.specs.ByHolding.{HoldTheSame};
ghost use Rattle.search_sets.specs.Standing.{IsWhole, held, wanted, with_elements};
ghost use Rattle.vec_steps.specs.Telling.{list_told, node_told};
ghost use Rattle.vec_steps.specs.Calls.{Goes};
ghost use Rattle.layer_search.specs.Waiting.{AreLong};
ghost use Rattle.layer_search.specs.Telling.{OverSpots};
ghost use Rattle.layer_search.specs.Looking.{EndedBy, MadeLooks};
ghost use Rattle.layer_search.specs.Running.{list_look};

use bit_code::Bits;
use bit_dist::distance;
use neighbour_pick::Found;
use search_sets::{Frontier, Spot, found_of};
use std::alloc::AllocError;
use vec_names::{Listed, Ops, Tid};
use vec_steps::{Ask, OpFault, Steps, Told, Trace, Word};

/// Looks at the meta tuple.
pub fn look_at_meta<S: Steps>(
    steps: &mut S,
    layer: u8,
    told: &mut Told,
    trace: &mut Trace,
) -> Result<(), OpFault>
    requires { length told.old.bits ≡ (S.desk steps.old).params.bits }
    ensures goes { Goes S.desk S.stands S.comes_from (OverSpots (S.stands steps.old) (S.seen steps.old) layer []) steps.old steps.new }
    ensures bits { length told.new.bits ≡ (S.desk steps.old).params.bits }
    ensures ok { OnOk result (MadeLooks (OverSpots (S.stands steps.old) (S.seen steps.old) layer []) (S.desk steps.old)
        (S.seen steps.old) (S.seen steps.new) trace.old.reads trace.new.reads
        ((AtMeta, OfMeta told.new.tid told.new.level told.new.hint told.new.blocks) ∷ [])) }
    ensures err { IfErr result (EndedBy (OverSpots (S.stands steps.old) (S.seen steps.old) layer []) (S.desk steps.old)
        (S.seen steps.old) (S.seen steps.new)) }
{
    let mut ask = Ask::Meta;
    steps.step(&mut ask, told)?;
    trace.reads.push(told.at)?;
    let _ = layer;
    Ok(())
}

/// Looks at one layer of an element's list.
pub fn look_at_list<S: Steps>(
    steps: &mut S,
    spot: Spot,
    layer: u8,
    told: &mut Told,
    trace: &mut Trace,
) -> Result<(), OpFault>
    requires { length told.old.bits ≡ (S.desk steps.old).params.bits }
    ensures goes { Goes S.desk S.stands S.comes_from (OverSpots (S.stands steps.old) (S.seen steps.old) layer (spot ∷ []))
        steps.old steps.new }
    ensures bits { length told.new.bits ≡ (S.desk steps.old).params.bits }
    ensures ok { OnOk result (MadeLooks (OverSpots (S.stands steps.old) (S.seen steps.old) layer (spot ∷ [])) (S.desk steps.old)
        (S.seen steps.old) (S.seen steps.new) trace.old.reads trace.new.reads
        ((list_look spot layer, list_told told.new.word told.new) ∷ [])) }
    ensures err { IfErr result (EndedBy (OverSpots (S.stands steps.old) (S.seen steps.old) layer (spot ∷ [])) (S.desk steps.old)
        (S.seen steps.old) (S.seen steps.new)) }
{
    let mut ask = Ask::List {
        at: spot.at,
        list_at: spot.list_at,
        level: spot.level,
        version: spot.version,
        layer,
    };
    steps.step(&mut ask, told)?;
    trace.reads.push(told.at)?;
    Ok(())
}

/// Looks at a node that reaches a layer, of any version or of one.
pub fn look_at_node<S: Steps>(
    steps: &mut S,
    at: Tid,
    layer: u8,
    version: Option<u8>,
    told: &mut Told,
    trace: &mut Trace,
) -> Result<(), OpFault>
    requires { length told.old.bits ≡ (S.desk steps.old).params.bits }
    ensures goes { Goes S.desk S.stands S.comes_from (OverSpots (S.stands steps.old) (S.seen steps.old) layer []) steps.old steps.new }
    ensures bits { length told.new.bits ≡ (S.desk steps.old).params.bits }
    ensures ok { OnOk result (MadeLooks (OverSpots (S.stands steps.old) (S.seen steps.old) layer []) (S.desk steps.old)
        (S.seen steps.old) (S.seen steps.new) trace.old.reads trace.new.reads
        ((AtNode at layer version, node_told told.new.word told.new.list_at told.new) ∷ [])) }
    ensures err { IfErr result (EndedBy (OverSpots (S.stands steps.old) (S.seen steps.old) layer []) (S.desk steps.old)
        (S.seen steps.old) (S.seen steps.new)) }
{
    let mut ask = Ask::Node { at, layer, version };
    steps.step(&mut ask, told)?;
    trace.reads.push(told.at)?;
    Ok(())
}

/// The slots that a look at a list told; none where it was gone.
pub fn slots_told(told: &Told) -> &[Option<Tid>]
    ensures { filled result.now ≡ named_in (list_told told.now.word told.now) }
{
    match told.word {
        Word::List => told.tids.as_slice(),
        _ => &[],
    }
}

/// Adds the element that a look at a node told, with its distance to the query; none where it was gone.
pub fn add_told(
    frontier: &mut Frontier,
    query: &Bits,
    ops: Ops,
    at: Tid,
    told: &Told,
) -> Result<(), AllocError>
    requires whole { IsWhole frontier.old }
    requires long { length query.now ≡ length told.now.bits }
    ensures whole { OnOk result (IsWhole frontier.new) }
    ensures wanted { OnOk result (wanted frontier.new ≡ wanted frontier.old) }
    ensures added { OnOk result (HoldTheSame (held frontier.new)
        (with_elements (element_of ops query.now at (node_told told.now.word told.now.list_at told.now)) (held frontier.old))) }
{
    let Word::Node = told.word else {
        return Ok(());
    };
    let Some(list_at) = told.list_at else {
        return Ok(());
    };
    let spot = Spot {
        at,
        list_at,
        level: told.level,
        version: told.version,
    };
    let dist = distance(ops, query, &told.bits);
    frontier.add(spot, dist, &told.ids, &told.bits)?;
    Ok(())
}

/// Puts the element that a look at a node told, with its distance to the query, into a list that is empty, and says whether there is
/// one.
pub fn put_told(
    query: &Bits,
    ops: Ops,
    at: Tid,
    told: &Told,
    into: &mut Listed<Found>,
) -> Result<bool, AllocError>
    requires long { length query.now ≡ length told.now.bits }
    requires none { into.old ≡ [] }
    ensures put { OnOk result (into.new ≡ element_of ops query.now at (node_told told.now.word told.now.list_at told.now)) }
    ensures long { OnOk result (AreLong (length told.now.bits) into.new) }
    ensures some { IfOk result (λ some. (some ≡ false → into.new ≡ []) × (some ≡ true → (e : Element) × (into.new ≡ e ∷ []))) }
{
    let Word::Node = told.word else {
        return Ok(false);
    };
    let Some(list_at) = told.list_at else {
        return Ok(false);
    };
    let spot = Spot {
        at,
        list_at,
        level: told.level,
        version: told.version,
    };
    let dist = distance(ops, query, &told.bits);
    into.push(found_of(spot, dist, &told.ids, &told.bits)?)?;
    Ok(true)
}
