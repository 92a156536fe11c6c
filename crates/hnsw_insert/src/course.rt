//! What an insert does under its gate.

ghost use Rattle.std.specs.Prelude.{◌≡◌, ◌≤◌, ◌-◌, [], ◌∷◌, ℕ, List, length, IfOk, IfErr, OnOk, None, true, false};
ghost use Rattle.vec_names.specs.Params.{IsInRange};
ghost use Rattle.vec_names.specs.Levels.{most_level};
ghost use Rattle.vec_names.specs.declared.params.Kind.TheVariants.{Hnsw};
ghost use Rattle.vec_history.specs.declared.gate.Gate.TheVariants.{Update};
ghost use Rattle.vec_history.specs.declared.gate.Hold.TheVariants.{Shared};
ghost use Rattle.vec_history.specs.Gates.{Holds};
ghost use Rattle.graph_search.specs.Insert.{is_above, meta_look};
ghost use Rattle.vec_steps.specs.Index.{Index};
ghost use Rattle.vec_steps.specs.Calls.{Goes};
ghost use Rattle.layer_search.specs.Listing.{newcomer_in};
ghost use Rattle.hnsw_insert.specs.Over.{AreBlocks, OverGraphs, OverNodes};
ghost use Rattle.hnsw_insert.specs.Courses.{Did, IsUnderGate, NeverFull, StopsBy};
ghost use Rattle.hnsw_insert.specs.Parts.{IsFullFor, IsFullUnder, RunsCourse, RunsUnder, meta_told};

use crate::adding::add_node;
use crate::blocks::Blocks;
use crate::joining::join_first;
use crate::landing::{Coming, Landing};
use bit_code::Bits;
use layer_search::find_lists;
use std::alloc::Global;
use vec_history::Hold;
use vec_names::Tid;
use vec_steps::{Ask, OpFault, Steps, Told, Trace};

// Looks at the meta tuple.
fn look_at_meta<S: Steps>(steps: &mut S, told: &mut Told, trace: &mut Trace) -> Result<(), OpFault>
    requires told { length told.old.bits ≡ (S.desk steps.old).params.bits }
    ensures goes { Goes S.desk S.stands S.comes_from (OverNodes (S.stands steps.old)) steps.old steps.new }
    ensures told { length told.new.bits ≡ (S.desk steps.old).params.bits }
    ensures ok { OnOk result (Did (OverNodes (S.stands steps.old)) (S.desk steps.old) (S.seen steps.old) (S.seen steps.new)
        trace.old.reads trace.new.reads (meta_look (meta_told told.new) ∷ [])) }
    ensures blocks { OnOk result ((base : Index) → OverNodes (S.stands steps.old) base
        → OverGraphs (S.stands steps.new) (λ g. AreBlocks g (S.seen steps.new) told.new.hint told.new.blocks) base) }
    ensures err { IfErr result (StopsBy IsUnderGate NeverFull (OverNodes (S.stands steps.old)) (S.desk steps.old) (S.seen steps.old)
        (S.seen steps.new)) }
{
    let mut ask = Ask::Meta;
    steps.step(&mut ask, told)?;
    trace.reads.push(told.at)?;
    Ok(())
}

// Finds the lists of the row's node; an element near that has the value takes the id, or a new node is added.
fn run_course<S: Steps>(
    alloc: Global,
    steps: &mut S,
    bits: &Bits,
    coming: Coming,
    blocks: Blocks,
    told: &mut Told,
    trace: &mut Trace,
) -> Result<Landing, OpFault>
    requires params { IsInRange (S.desk steps.old).params }
    requires nodes { (S.desk steps.old).params.kind ≡ Hnsw }
    requires level { coming.level ≤ most_level (S.desk steps.old).params.m }
    requires bits { length bits.now ≡ (S.desk steps.old).params.bits }
    requires told { length told.old.bits ≡ (S.desk steps.old).params.bits }
    requires held { Holds (S.seen steps.old) (S.desk steps.old).number Update }
    ensures goes { Goes S.desk S.stands S.comes_from (OverGraphs (S.stands steps.old) (λ g. AreBlocks g (S.seen steps.old)
        blocks.hint blocks.count)) steps.old steps.new }
    ensures told { length told.new.bits ≡ (S.desk steps.old).params.bits }
    ensures ok { IfOk result (RunsCourse (OverGraphs (S.stands steps.old) (λ g. AreBlocks g (S.seen steps.old) blocks.hint blocks.count))
        (S.desk steps.old) (S.seen steps.old) (S.seen steps.new) trace.old.reads trace.new.reads
        (newcomer_in (S.desk steps.old).params bits.now coming.level None) coming.id blocks.hint blocks.count) }
    ensures err { IfErr result (StopsBy IsUnderGate (IsFullFor coming.level (blocks.count - blocks.hint) blocks.hint)
        (OverGraphs (S.stands steps.old) (λ g. AreBlocks g (S.seen steps.old) blocks.hint blocks.count)) (S.desk steps.old)
        (S.seen steps.old) (S.seen steps.new)) }
{
    let found = find_lists(alloc, steps, bits, coming.level, None, trace)?;
    let joined = join_first(steps, bits, coming.id, found.near.as_slice(), told)?;
    if let Some(spot) = joined {
        return Ok(Landing {
            at: spot.at,
            version: spot.version,
            level: spot.level,
            joined: true,
        });
    }
    let place = add_node(alloc, steps, bits, coming, blocks, &found, told, trace)?;
    Ok(Landing {
        at: place.at,
        version: place.version,
        level: coming.level,
        joined: false,
    })
}

// Whether a node of the level may become the entry point, of which this was told.
fn is_above(level: u8, entry: Option<Tid>, top: u8) -> bool
    ensures { result ≡ is_above level entry top }
{
    match entry {
        Some(_) => top < level,
        None => true,
    }
}

// Whether the gate is to be taken alone: it is held beside others, and a node of the level may become the entry point.
fn leaves(hold: Hold, level: u8, entry: Option<Tid>, top: u8) -> bool
    ensures shared { result ≡ true → hold ≡ Shared }
    ensures above { result ≡ true → is_above level entry top ≡ true }
    ensures kept { result ≡ false → hold ≡ Shared → is_above level entry top ≡ false }
{
    match hold {
        Hold::Shared => is_above(level, entry, top),
        Hold::Alone => false,
    }
}

/// Looks at the meta tuple and runs the course. Where the gate is held beside others and the node may become the entry point, it leaves
/// that and answers None: the gate is to be taken alone.
pub fn run_under<S: Steps>(
    alloc: Global,
    steps: &mut S,
    hold: Hold,
    bits: &Bits,
    coming: Coming,
    told: &mut Told,
    trace: &mut Trace,
) -> Result<Option<Landing>, OpFault>
    requires params { IsInRange (S.desk steps.old).params }
    requires nodes { (S.desk steps.old).params.kind ≡ Hnsw }
    requires level { coming.level ≤ most_level (S.desk steps.old).params.m }
    requires bits { length bits.now ≡ (S.desk steps.old).params.bits }
    requires told { length told.old.bits ≡ (S.desk steps.old).params.bits }
    requires held { Holds (S.seen steps.old) (S.desk steps.old).number Update }
    ensures goes { Goes S.desk S.stands S.comes_from (OverNodes (S.stands steps.old)) steps.old steps.new }
    ensures told { length told.new.bits ≡ (S.desk steps.old).params.bits }
    ensures ok { IfOk result (RunsUnder (OverNodes (S.stands steps.old)) (S.desk steps.old) (S.seen steps.old) (S.seen steps.new)
        trace.old.reads trace.new.reads hold (newcomer_in (S.desk steps.old).params bits.now coming.level None) coming.id) }
    ensures err { IfErr result (StopsBy IsUnderGate (IsFullUnder hold coming.level) (OverNodes (S.stands steps.old)) (S.desk steps.old)
        (S.seen steps.old) (S.seen steps.new)) }
{
    look_at_meta(steps, told, trace)?;
    if leaves(hold, coming.level, told.tid, told.level) {
        return Ok(None);
    }
    let blocks = Blocks {
        hint: told.hint,
        count: told.blocks,
    };
    let landing = run_course(alloc, steps, bits, coming, blocks, told, trace)?;
    Ok(Some(landing))
}
