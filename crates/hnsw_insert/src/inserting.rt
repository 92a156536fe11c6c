//! The insert of a row.

ghost use Rattle.std.specs.Prelude.{◌≡◌, ◌≢◌, ◌≤◌, [], ℕ, List, length, IfOk, IfErr, OnOk, OnErr, None, Err};
ghost use Rattle.vec_names.specs.Params.{IsInRange};
ghost use Rattle.vec_names.specs.Levels.{level_of, most_level};
ghost use Rattle.vec_names.specs.declared.params.Kind.TheVariants.{Hnsw};
ghost use Rattle.vec_history.specs.declared.gate.Gate.TheVariants.{Update};
ghost use Rattle.vec_history.specs.Gates.{Holds};
ghost use Rattle.vec_steps.specs.declared.fault.OpFault.TheVariants.{Dimensions};
ghost use Rattle.vec_steps.specs.Calls.{Goes};
ghost use Rattle.layer_search.specs.Listing.{newcomer_in};
ghost use Rattle.hnsw_insert.specs.Over.{OverNodes};
ghost use Rattle.hnsw_insert.specs.Courses.{IsOfInsert, StopsBy};
ghost use Rattle.hnsw_insert.specs.Parts.{IsFullHeld, RunsHeld};
ghost use Rattle.hnsw_insert.specs.Whole.{FailsSo, GivesGate, Inserts, InsertsOnce, IsFull, KeepsOtherGates};

use crate::course::run_under;
use crate::landing::{Coming, Inserted, Landing};
use bit_code::Bits;
use std::alloc::Global;
use step_gates::{give_back, take_gate};
use vec_history::{Gate, Hold};
use vec_names::{HeapId, Listed, level_of};
use vec_steps::{OpFault, Steps, Told, Trace};

// The fault of what was done under the gate, or else that of the gate's release.
fn fault_of<T: Drop>(done: Result<T, OpFault>, fault: OpFault) -> OpFault
    ensures first { IfErr done (λ e. result ≡ e) }
    ensures second { OnOk done (result ≡ fault) }
{
    match done {
        Ok(_) => fault,
        Err(first) => first,
    }
}

// Takes the gate in this way, does what is done under it, and gives it back, whatever comes.
fn insert_held<S: Steps>(
    alloc: Global,
    steps: &mut S,
    hold: Hold,
    bits: &Bits,
    coming: Coming,
    told: &mut Told,
    trace: &mut Trace,
) -> Result<Option<Landing>, OpFault>
    requires params { IsInRange (S.desk steps.old).params }
    requires nodes { (S.desk steps.old).params.kind ≡ Hnsw }
    requires level { coming.level ≤ most_level (S.desk steps.old).params.m }
    requires bits { length bits.now ≡ (S.desk steps.old).params.bits }
    requires told { length told.old.bits ≡ (S.desk steps.old).params.bits }
    requires free { Holds (S.seen steps.old) (S.desk steps.old).number Update → ⊥ }
    ensures goes { Goes S.desk S.stands S.comes_from (OverNodes (S.stands steps.old)) steps.old steps.new }
    ensures told { length told.new.bits ≡ (S.desk steps.old).params.bits }
    ensures ok { IfOk result (RunsHeld (OverNodes (S.stands steps.old)) (S.desk steps.old) (S.seen steps.old) (S.seen steps.new)
        trace.old.reads trace.new.reads hold (newcomer_in (S.desk steps.old).params bits.now coming.level None) coming.id) }
    ensures free { OnOk result (Holds (S.seen steps.new) (S.desk steps.old).number Update → ⊥) }
    ensures err { IfErr result (StopsBy IsOfInsert (IsFullHeld hold coming.level) (OverNodes (S.stands steps.old)) (S.desk steps.old)
        (S.seen steps.old) (S.seen steps.new)) }
    ensures given { OnErr result (GivesGate (OverNodes (S.stands steps.old)) (S.desk steps.old) (S.seen steps.new)) }
{
    take_gate(steps, Gate::Update, hold, told)?;
    let done = run_under(alloc, steps, hold, bits, coming, told, trace);
    match give_back(steps, Gate::Update, told) {
        Ok(()) => done,
        Err(fault) => Err(fault_of(done, fault)),
    }
}

// Takes the gate beside others, and where the node may become the entry point releases it and takes it alone.
fn insert_once<S: Steps>(
    alloc: Global,
    steps: &mut S,
    bits: &Bits,
    coming: Coming,
    told: &mut Told,
    trace: &mut Trace,
) -> Result<Landing, OpFault>
    requires params { IsInRange (S.desk steps.old).params }
    requires nodes { (S.desk steps.old).params.kind ≡ Hnsw }
    requires level { coming.level ≤ most_level (S.desk steps.old).params.m }
    requires bits { length bits.now ≡ (S.desk steps.old).params.bits }
    requires told { length told.old.bits ≡ (S.desk steps.old).params.bits }
    requires free { Holds (S.seen steps.old) (S.desk steps.old).number Update → ⊥ }
    ensures goes { Goes S.desk S.stands S.comes_from (OverNodes (S.stands steps.old)) steps.old steps.new }
    ensures ok { IfOk result (InsertsOnce (OverNodes (S.stands steps.old)) (S.desk steps.old) (S.seen steps.old) (S.seen steps.new)
        trace.old.reads trace.new.reads (newcomer_in (S.desk steps.old).params bits.now coming.level None) coming.id) }
    ensures free { OnOk result (Holds (S.seen steps.new) (S.desk steps.old).number Update → ⊥) }
    ensures err { IfErr result (StopsBy IsOfInsert (IsFull coming.level) (OverNodes (S.stands steps.old)) (S.desk steps.old)
        (S.seen steps.old) (S.seen steps.new)) }
    ensures given { OnErr result (GivesGate (OverNodes (S.stands steps.old)) (S.desk steps.old) (S.seen steps.new)) }
{
    if let Some(landing) = insert_held(alloc, steps, Hold::Shared, bits, coming, told, trace)? {
        return Ok(landing);
    }
    match insert_held(alloc, steps, Hold::Alone, bits, coming, told, trace)? {
        Some(landing) => Ok(landing),
        // Never: who holds the gate alone does not leave it so.
        None => Err(OpFault::Memory),
    }
}

/// Inserts a row with this id and value into the graph: Algorithm 1 of the HNSW paper, as pgvector makes it. `word` is a random word,
/// which gives the level. The desk does not hold the gate Update, and the index is a graph.
///
/// The gate is taken, beside others or, where the node may become the entry point, alone. The lists of a new node are found; of the
/// elements that the search of the lowest layer found, each that has the value and from 1 to 9 ids is asked to take the id, the nearest
/// first, until one does. Else a new node is put on the first block from the hint on that has room, or on new ones, with
/// just these lists. Its neighbours are asked to name it, each at most three times; it becomes the entry point where there is none
/// or its level is above; and the hint moves to its block where its level is 0. The gate is given back at every end.
///
/// Its own acts are those of these deeds, each at its own position. It tells the node that the row has now, and where it looked.
///
/// Its errors: `Dimensions`, just where the value has another length than those of the index, and then nothing was done; `Full`, where
/// each block from the hint on had no room and the index has as many blocks as it may; `LogFull`, where the log had no room for an
/// event; `Disk`, which leaves an act; and `Memory`. At each the own acts show which deeds were made, and the gate is given back,
/// unless that step itself failed. Of other gates the desk holds at every end just what it held.
pub fn insert<S: Steps>(
    alloc: Global,
    steps: &mut S,
    id: HeapId,
    bits: &Bits,
    word: u64,
) -> Result<Inserted, OpFault>
    requires params { IsInRange (S.desk steps.old).params }
    requires nodes { (S.desk steps.old).params.kind ≡ Hnsw }
    requires free { Holds (S.seen steps.old) (S.desk steps.old).number Update → ⊥ }
    ensures goes { Goes S.desk S.stands S.comes_from (S.stands steps.old) steps.old steps.new }
    ensures ok { IfOk result (Inserts (S.stands steps.old) (S.desk steps.old) (S.seen steps.old) (S.seen steps.new) id bits.now word) }
    ensures fits { OnOk result (length bits.now ≡ (S.desk steps.old).params.bits) }
    ensures free { OnOk result (Holds (S.seen steps.new) (S.desk steps.old).number Update → ⊥) }
    ensures others { KeepsOtherGates (S.desk steps.old).number (S.seen steps.old) (S.seen steps.new) }
    ensures err { IfErr result (FailsSo (S.stands steps.old) (S.desk steps.old) (S.seen steps.old) (S.seen steps.new)
        (length bits.now) (level_of word (S.desk steps.old).params.m)) }
{
    let params = steps.params();
    if bits.count() != params.bits {
        return Err(OpFault::Dimensions {
            got: bits.count(),
            want: params.bits,
        });
    }
    let mut told = Told::make(alloc, params)?;
    let mut trace = Trace {
        reads: Listed::new(alloc),
    };
    let coming = Coming {
        id,
        level: level_of(word, params.m),
    };
    let landing = insert_once(alloc, steps, bits, coming, &mut told, &mut trace)?;
    Ok(Inserted {
        at: landing.at,
        version: landing.version,
        level: landing.level,
        joined: landing.joined,
        trace,
    })
}
