//! A place for a new node.

ghost use Rattle.std.specs.Prelude.{◌≡◌, ◌-◌, [], ℕ, List, length, IfOk, IfErr, OnOk, OnErr};
ghost use Rattle.vec_history.specs.declared.gate.Gate.TheVariants.{Update};
ghost use Rattle.vec_history.specs.Gates.{Holds};
ghost use Rattle.vec_steps.specs.declared.fault.OpFault.TheVariants.{Memory};
ghost use Rattle.vec_steps.specs.Telling.{node_of, place_told};
ghost use Rattle.vec_steps.specs.Calls.{Goes};
ghost use Rattle.hnsw_insert.specs.Over.{MayPlace, OverGraphs, OverNodes};
ghost use Rattle.hnsw_insert.specs.Courses.{Did, IsUnderGate, NeverFull, StopsBy};
ghost use Rattle.hnsw_insert.specs.Parts.{IsFullFor, PlacesNode, aimed, anew};

use crate::blocks::Blocks;
use vec_graph::Place;
use vec_steps::{Ask, NewNode, OpFault, Steps, Told, Word};

/// Reserves room in the log, so that the Put is not refused for want of memory.
pub fn reserve<S: Steps>(steps: &mut S, told: &mut Told) -> Result<(), OpFault>
    requires told { length told.old.bits ≡ (S.desk steps.old).params.bits }
    ensures goes { Goes S.desk S.stands S.comes_from (OverNodes (S.stands steps.old)) steps.old steps.new }
    ensures told { length told.new.bits ≡ (S.desk steps.old).params.bits }
    ensures ok { OnOk result ((trace : List ℕ) → Did (OverNodes (S.stands steps.old)) (S.desk steps.old) (S.seen steps.old)
        (S.seen steps.new) trace trace []) }
    ensures err { IfErr result (StopsBy IsUnderGate NeverFull (OverNodes (S.stands steps.old)) (S.desk steps.old) (S.seen steps.old)
        (S.seen steps.new)) }
{
    let mut ask = Ask::Reserve { events: 1 };
    steps.step(&mut ask, told)?;
    Ok(())
}

// Asks for a place on another block.
fn aim(ask: &mut Ask, to: u32)
    ensures { ask.new ≡ aimed to ask.old }
{
    if let Ask::Put { block, .. } = ask {
        *block = to;
    }
}

// Asks for a place on new blocks.
fn anew(ask: Ask) -> Ask
    ensures { result ≡ anew ask }
{
    match ask {
        Ask::Put { node, .. } => Ask::PutNew { node },
        other => other,
    }
}

// The place that was told, if one was.
fn place_of(told: &Told) -> Option<Place>
    ensures { result ≡ place_told told.now.word told.now.tid told.now.list_at told.now.version }
{
    let Word::Done = told.word else {
        return None;
    };
    let (Some(at), Some(list_at)) = (told.tid, told.list_at) else {
        return None;
    };
    Some(Place {
        at,
        list_at,
        version: told.version,
    })
}

// A place on this block. Over a base a Put on a block gives no other: of a desk that stands on none nothing is known.
fn on_block(place: Place, block: u32) -> Result<Place, OpFault>
    ensures same { IfOk result (λ p. p ≡ place) }
    ensures on { OnOk result (place.at.block ≡ block) }
    ensures memory { IfErr result (λ e. e ≡ Memory) }
{
    if place.at.block != block {
        return Err(OpFault::Memory);
    }
    Ok(place)
}

/// Puts a node on the first of these blocks that has room, or else on new ones.
pub fn put_node<S: Steps>(
    steps: &mut S,
    node: NewNode,
    blocks: Blocks,
    told: &mut Told,
) -> Result<Place, OpFault>
    requires told { length told.old.bits ≡ (S.desk steps.old).params.bits }
    ensures goes { Goes S.desk S.stands S.comes_from (OverGraphs (S.stands steps.old) (λ g. MayPlace g (S.seen steps.old)
        (S.desk steps.old).number blocks.hint blocks.count node.level node.bits node.lists)) steps.old steps.new }
    ensures told { length told.new.bits ≡ (S.desk steps.old).params.bits }
    ensures ok { IfOk result (PlacesNode (OverGraphs (S.stands steps.old) (λ g. MayPlace g (S.seen steps.old)
        (S.desk steps.old).number blocks.hint blocks.count node.level node.bits node.lists)) (S.desk steps.old)
        (S.seen steps.old) (S.seen steps.new) (node_of node) blocks.hint blocks.count) }
    ensures err { IfErr result (StopsBy IsUnderGate (IsFullFor node.level (blocks.count - blocks.hint) blocks.hint)
        (OverGraphs (S.stands steps.old) (λ g. MayPlace g (S.seen steps.old)
        (S.desk steps.old).number blocks.hint blocks.count node.level node.bits node.lists)) (S.desk steps.old)
        (S.seen steps.old) (S.seen steps.new)) }
{
    let mut ask = Ask::Put {
        block: blocks.hint,
        node,
    };
    'asking: for block in blocks.hint..blocks.count {
        aim(&mut ask, block);
        steps.step(&mut ask, told)?;
        if let Some(place) = place_of(told) {
            let place = on_block(place, block)?;
            return Ok(place);
        }
    }
    let mut ask = anew(ask);
    steps.step(&mut ask, told)?;
    match place_of(told) {
        Some(place) => Ok(place),
        None => Err(OpFault::Full {
            blocks: told.blocks,
            need: told.need,
        }),
    }
}
