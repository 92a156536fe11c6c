//! A new node is linked, and may become the entry point and move the hint.

ghost use Rattle.std.specs.Prelude.{◌≡◌, [], ℕ, List, length, IfErr, OnOk};
ghost use Rattle.vec_names.specs.Params.{IsInRange};
ghost use Rattle.vec_names.specs.declared.params.Kind.TheVariants.{Hnsw};
ghost use Rattle.vec_history.specs.declared.gate.Gate.TheVariants.{Update};
ghost use Rattle.vec_history.specs.Gates.{Holds};
ghost use Rattle.graph_search.specs.Insert.{entering, hinting};
ghost use Rattle.vec_steps.specs.Calls.{Goes};
ghost use Rattle.layer_search.specs.Listing.{ArePicksLong};
ghost use Rattle.hnsw_insert.specs.Over.{IsNew, MayFinish, OverGraphs};
ghost use Rattle.hnsw_insert.specs.Courses.{Did, IsUnderGate, NeverFull, StopsBy};
ghost use Rattle.hnsw_insert.specs.Parts.{FinishesSo, is_higher, moves_hint};

use bit_code::Bits;
use layer_search::{FoundLists, link_back};
use std::alloc::Global;
use vec_graph::Place;
use vec_steps::{Ask, OpFault, Steps, Told, Trace};

// Whether a node's level is above that of the entry point, if there is one.
fn is_higher(top: Option<u8>, level: u8) -> bool
    ensures { result ≡ is_higher top level }
{
    match top {
        Some(high) => high < level,
        None => true,
    }
}

// Whether a node of the level moves the hint.
fn moves_hint(level: u8, hint: u32, place: Place) -> bool
    ensures { result ≡ moves_hint level hint place.at }
{
    level == 0 && place.at.block != hint
}

// Makes a new node the entry point where there is none, or the one there is has a lower level.
fn enter<S: Steps>(
    steps: &mut S,
    top: Option<u8>,
    place: Place,
    level: u8,
    told: &mut Told,
) -> Result<(), OpFault>
    requires told { length told.old.bits ≡ (S.desk steps.old).params.bits }
    requires held { Holds (S.seen steps.old) (S.desk steps.old).number Update }
    ensures goes { Goes S.desk S.stands S.comes_from (OverGraphs (S.stands steps.old) (λ g. IsNew g (S.seen steps.old)
        (S.desk steps.old).number level place)) steps.old steps.new }
    ensures told { length told.new.bits ≡ (S.desk steps.old).params.bits }
    ensures ok { OnOk result ((trace : List ℕ) → Did (OverGraphs (S.stands steps.old) (λ g. IsNew g (S.seen steps.old)
        (S.desk steps.old).number level place)) (S.desk steps.old) (S.seen steps.old) (S.seen steps.new) trace trace
        (entering top place.at level)) }
    ensures err { IfErr result (StopsBy IsUnderGate NeverFull (OverGraphs (S.stands steps.old) (λ g. IsNew g (S.seen steps.old)
        (S.desk steps.old).number level place)) (S.desk steps.old) (S.seen steps.old) (S.seen steps.new)) }
{
    if !is_higher(top, level) {
        return Ok(());
    }
    let mut ask = Ask::Entry {
        to: Some(place.at),
        level,
    };
    steps.step(&mut ask, told)?;
    Ok(())
}

// Moves the hint to the block of a new node of the lowest level.
fn move_hint<S: Steps>(
    steps: &mut S,
    hint: u32,
    place: Place,
    level: u8,
    told: &mut Told,
) -> Result<(), OpFault>
    requires told { length told.old.bits ≡ (S.desk steps.old).params.bits }
    requires held { Holds (S.seen steps.old) (S.desk steps.old).number Update }
    ensures goes { Goes S.desk S.stands S.comes_from (OverGraphs (S.stands steps.old) (λ g. IsNew g (S.seen steps.old)
        (S.desk steps.old).number level place)) steps.old steps.new }
    ensures told { length told.new.bits ≡ (S.desk steps.old).params.bits }
    ensures ok { OnOk result ((trace : List ℕ) → Did (OverGraphs (S.stands steps.old) (λ g. IsNew g (S.seen steps.old)
        (S.desk steps.old).number level place)) (S.desk steps.old) (S.seen steps.old) (S.seen steps.new) trace trace
        (hinting level hint place.at)) }
    ensures err { IfErr result (StopsBy IsUnderGate NeverFull (OverGraphs (S.stands steps.old) (λ g. IsNew g (S.seen steps.old)
        (S.desk steps.old).number level place)) (S.desk steps.old) (S.seen steps.old) (S.seen steps.new)) }
{
    if !moves_hint(level, hint, place) {
        return Ok(());
    }
    let mut ask = Ask::Hint {
        block: place.at.block,
    };
    steps.step(&mut ask, told)?;
    Ok(())
}

/// What follows the Put of a new node: the links back to it, the entry point where its level is above, and the hint where it is of the
/// lowest level. The desk holds the gate.
pub fn finish<S: Steps>(
    alloc: Global,
    steps: &mut S,
    bits: &Bits,
    place: Place,
    level: u8,
    hint: u32,
    found: &FoundLists,
    told: &mut Told,
    trace: &mut Trace,
) -> Result<(), OpFault>
    requires params { IsInRange (S.desk steps.old).params }
    requires nodes { (S.desk steps.old).params.kind ≡ Hnsw }
    requires bits { length bits.now ≡ (S.desk steps.old).params.bits }
    requires told { length told.old.bits ≡ (S.desk steps.old).params.bits }
    requires long { ArePicksLong (S.desk steps.old).params.bits found.now.picks }
    requires held { Holds (S.seen steps.old) (S.desk steps.old).number Update }
    ensures goes { Goes S.desk S.stands S.comes_from (OverGraphs (S.stands steps.old) (λ g. MayFinish g (S.seen steps.old)
        (S.desk steps.old).number level place found.now.picks)) steps.old steps.new }
    ensures told { length told.new.bits ≡ (S.desk steps.old).params.bits }
    ensures ok { OnOk result (FinishesSo (OverGraphs (S.stands steps.old) (λ g. MayFinish g (S.seen steps.old)
        (S.desk steps.old).number level place found.now.picks)) (S.desk steps.old) (S.seen steps.old) (S.seen steps.new)
        trace.old.reads trace.new.reads (record { ops = (S.desk steps.old).params.ops; at = place.at; bits = bits.now })
        found.now.picks found.now.top level hint) }
    ensures err { IfErr result (StopsBy IsUnderGate NeverFull (OverGraphs (S.stands steps.old) (λ g. MayFinish g (S.seen steps.old)
        (S.desk steps.old).number level place found.now.picks)) (S.desk steps.old) (S.seen steps.old) (S.seen steps.new)) }
{
    link_back(alloc, steps, place.at, bits, found, trace)?;
    enter(steps, found.top, place, level, told)?;
    move_hint(steps, hint, place, level, told)?;
    Ok(())
}
