//! A new node is added.

ghost use Rattle.std.specs.Prelude.{◌≡◌, ◌-◌, [], ℕ, List, length, IfOk, IfErr, None};
ghost use Rattle.vec_names.specs.Params.{IsInRange};
ghost use Rattle.vec_names.specs.declared.params.Kind.TheVariants.{Hnsw};
ghost use Rattle.vec_history.specs.declared.gate.Gate.TheVariants.{Update};
ghost use Rattle.vec_history.specs.Gates.{Holds};
ghost use Rattle.vec_steps.specs.declared.fault.OpFault.TheVariants.{Memory};
ghost use Rattle.vec_steps.specs.Calls.{Goes};
ghost use Rattle.layer_search.specs.Listing.{ArePicksLong, lists_of, newcomer_in};
ghost use Rattle.hnsw_insert.specs.Over.{MayAdd, OverGraphs};
ghost use Rattle.hnsw_insert.specs.Courses.{IsUnderGate, StopsBy};
ghost use Rattle.hnsw_insert.specs.Parts.{AddsNode, IsFullFor};

use crate::blocks::Blocks;
use crate::landing::Coming;
use crate::linking::finish;
use crate::placing::{put_node, reserve};
use bit_code::Bits;
use layer_search::FoundLists;
use std::alloc::Global;
use vec_graph::Place;
use vec_names::Listed;
use vec_steps::{NewNode, OpFault, Steps, Told, Trace};

// The node that is to be put, with the lists that were found.
fn node_for(
    alloc: Global,
    bits: &Bits,
    coming: Coming,
    found: &FoundLists,
) -> Result<NewNode, OpFault>
    ensures node { IfOk result (λ node. node ≡ record { level = coming.level; id = coming.id; bits = bits.now; lists = found.now.lists }) }
    ensures memory { IfErr result (λ e. e ≡ Memory) }
{
    let bits = bits.copied()?;
    let mut lists = Listed::new(alloc);
    lists.extend_from_slice(found.lists.as_slice())?;
    Ok(NewNode {
        level: coming.level,
        id: coming.id,
        bits,
        lists,
    })
}

/// Puts a new node with the lists that were found for it, and links it. The desk holds the gate.
pub fn add_node<S: Steps>(
    alloc: Global,
    steps: &mut S,
    bits: &Bits,
    coming: Coming,
    blocks: Blocks,
    found: &FoundLists,
    told: &mut Told,
    trace: &mut Trace,
) -> Result<Place, OpFault>
    requires params { IsInRange (S.desk steps.old).params }
    requires nodes { (S.desk steps.old).params.kind ≡ Hnsw }
    requires bits { length bits.now ≡ (S.desk steps.old).params.bits }
    requires told { length told.old.bits ≡ (S.desk steps.old).params.bits }
    requires long { ArePicksLong (S.desk steps.old).params.bits found.now.picks }
    requires held { Holds (S.seen steps.old) (S.desk steps.old).number Update }
    ensures goes { Goes S.desk S.stands S.comes_from (OverGraphs (S.stands steps.old) (λ g. MayAdd g (S.seen steps.old)
        (S.desk steps.old).number blocks.hint blocks.count coming.level bits.now found.now.lists found.now.picks)) steps.old steps.new }
    ensures told { length told.new.bits ≡ (S.desk steps.old).params.bits }
    ensures ok { IfOk result (AddsNode (OverGraphs (S.stands steps.old) (λ g. MayAdd g (S.seen steps.old)
        (S.desk steps.old).number blocks.hint blocks.count coming.level bits.now found.now.lists found.now.picks)) (S.desk steps.old)
        (S.seen steps.old) (S.seen steps.new) trace.old.reads trace.new.reads
        (newcomer_in (S.desk steps.old).params bits.now coming.level None) coming.id blocks.hint blocks.count found.now.top
        (lists_of found.now)) }
    ensures err { IfErr result (StopsBy IsUnderGate (IsFullFor coming.level (blocks.count - blocks.hint) blocks.hint)
        (OverGraphs (S.stands steps.old) (λ g. MayAdd g (S.seen steps.old)
        (S.desk steps.old).number blocks.hint blocks.count coming.level bits.now found.now.lists found.now.picks)) (S.desk steps.old)
        (S.seen steps.old) (S.seen steps.new)) }
{
    let node = node_for(alloc, bits, coming, found)?;
    reserve(steps, told)?;
    let place = put_node(steps, node, blocks, told)?;
    finish(
        alloc,
        steps,
        bits,
        place,
        coming.level,
        blocks.hint,
        found,
        told,
        trace,
    )?;
    Ok(place)
}
