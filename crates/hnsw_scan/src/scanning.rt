//! The calls of a scan on its state.
#![tactic(auto)]

ghost use Rattle.std.specs.Prelude.{◌≡◌, ◌≤◌, [], None, IfOk, OnOk, IfErr, OnErr, length, true};
ghost use Rattle.vec_names.specs.Params.{IsInRange};
ghost use Rattle.graph_search.specs.Scan.{GoesOn, Standing, is_nothing};
ghost use Rattle.vec_steps.specs.declared.fault.OpFault.TheVariants.{Dimensions};
ghost use Rattle.vec_steps.specs.Index.{Index};
ghost use Rattle.vec_steps.specs.Calls.{Goes, HoldsNone};
ghost use Rattle.layer_search.specs.Telling.{OverSpots, spots_held};
ghost use Rattle.layer_search.specs.Resuming.{holding};
ghost use Rattle.hnsw_scan.specs.Answering.{given_in, mode_of};
ghost use Rattle.hnsw_scan.specs.Gathering.{GivesFirst, GivesNext, ScanStands};
ghost use Rattle.hnsw_scan.specs.Gated.{GatedEnd, IsFreed, MadeGated};
ghost use Rattle.hnsw_scan.specs.Scanning.{BatchFails, CanGive, IsUnder, IsUnderAt, IsUnused, OverScan, held_at, held_in, is_spent, is_spent_at};
ghost use Rattle.hnsw_scan.specs.Scanning.{last_at, last_in, wanted_of};

use crate::answer::Answer;
use crate::batches::{Gathered, Wish};
use crate::gated::{first_gated, next_gated};
use crate::rows::last_dist;
use crate::state::{Going, Progress, ScanState};
use bit_code::Bits;
use bit_dist::Dist;
use std::alloc::Global;
use vec_names::{Listed, Params};
use vec_steps::{OpFault, Steps, Told, Trace};

/// The rows of one batch, nearest first but for what mode Relaxed lets through; whether the scan is
/// at its end; and the positions of the looks from which they came.
#[derive(Drop)]
pub struct Batch {
    pub answers: Listed<Answer>,
    pub end: bool,
    pub trace: Trace,
}

// Refuses a query of another length than the index's values have.
fn fits(query: &Bits, params: Params) -> Result<(), OpFault>
    ensures ok { OnOk result (length query.now ≡ params.bits) }
    ensures err { IfErr result (λ fault. (fault ≡ Dimensions (length query.now) params.bits) × (length query.now ≡ params.bits → ⊥)) }
{
    let got = query.count();
    if got != params.bits {
        return Err(OpFault::Dimensions {
            got,
            want: params.bits,
        });
    }
    Ok(())
}

// No call is made any more.
fn spend(progress: &mut Progress)
    ensures { is_spent_at progress.new ≡ true }
{
    *progress = Progress::Spent;
}

// The first batch of a state whose query fits, with what a step tells and a trace of the caller's.
fn begin<S: Steps>(
    alloc: Global,
    steps: &mut S,
    state: &mut ScanState,
    told: &mut Told,
    trace: &mut Trace,
) -> Result<Listed<Answer>, OpFault>
    requires params { IsInRange (S.desk steps.old).params }
    requires gates { HoldsNone (S.seen steps.old) (S.desk steps.old).number }
    requires query { length state.old.query ≡ (S.desk steps.old).params.bits }
    requires ef { 1 ≤ state.old.ef }
    requires bits { length told.old.bits ≡ (S.desk steps.old).params.bits }
    ensures goes { Goes S.desk S.stands S.comes_from (OverSpots (S.stands steps.old) (S.seen steps.old) 0 []) steps.old steps.new }
    ensures wanted { wanted_of state.new ≡ wanted_of state.old }
    ensures under { OnOk result (IsUnder state.new) }
    ensures kept { OnErr result (state.new.progress ≡ state.old.progress) }
    ensures told { OnOk result ((base : Index) → OverSpots (S.stands steps.old) (S.seen steps.old) 0 [] base
        → OverScan (S.stands steps.new) (S.seen steps.new) state.new base) }
    ensures ok { IfOk result (λ answers. GivesFirst (MadeGated (OverSpots (S.stands steps.old) (S.seen steps.old) 0 [])
        (S.desk steps.old) (S.seen steps.old) (S.seen steps.new) trace.old.reads trace.new.reads) (S.desk steps.old).params.ops
        (wanted_of state.old).query (wanted_of state.old).ef (given_in answers) (held_in state.new) (last_in state.new)) }
    ensures free { OnOk result (HoldsNone (S.seen steps.new) (S.desk steps.old).number) }
    ensures err { IfErr result (GatedEnd (OverSpots (S.stands steps.old) (S.seen steps.old) 0 []) (S.desk steps.old)
        (S.seen steps.old) (S.seen steps.new)) }
    ensures freed { IfErr result (IsFreed (OverSpots (S.stands steps.old) (S.seen steps.old) 0 []) (S.desk steps.old)
        (S.seen steps.new)) }
{
    let begun = first_gated(alloc, steps, &state.query, state.ef, told, trace)?;
    let last = last_dist(None, begun.answers.as_slice());
    state.progress = Progress::Under(Going {
        search: begun.search,
        last,
    });
    Ok(begun.answers)
}

// The first batch, on a state that is not yet spent by a fault.
fn try_first<S: Steps>(
    alloc: Global,
    steps: &mut S,
    state: &mut ScanState,
) -> Result<Batch, OpFault>
    requires params { IsInRange (S.desk steps.old).params }
    requires gates { HoldsNone (S.seen steps.old) (S.desk steps.old).number }
    requires ef { 1 ≤ state.old.ef }
    ensures goes { Goes S.desk S.stands S.comes_from (OverSpots (S.stands steps.old) (S.seen steps.old) 0 []) steps.old steps.new }
    ensures wanted { wanted_of state.new ≡ wanted_of state.old }
    ensures fits { OnOk result (length (wanted_of state.old).query ≡ (S.desk steps.old).params.bits) }
    ensures under { OnOk result (IsUnder state.new) }
    ensures told { OnOk result ((base : Index) → OverSpots (S.stands steps.old) (S.seen steps.old) 0 [] base
        → OverScan (S.stands steps.new) (S.seen steps.new) state.new base) }
    ensures ok { IfOk result (λ batch. GivesFirst (MadeGated (OverSpots (S.stands steps.old) (S.seen steps.old) 0 [])
        (S.desk steps.old) (S.seen steps.old) (S.seen steps.new) [] batch.trace.reads) (S.desk steps.old).params.ops
        (wanted_of state.old).query (wanted_of state.old).ef (given_in batch.answers) (held_in state.new) (last_in state.new)) }
    ensures end { IfOk result (λ batch. batch.end ≡ is_nothing (given_in batch.answers)) }
    ensures free { OnOk result (HoldsNone (S.seen steps.new) (S.desk steps.old).number) }
    ensures err { IfErr result (BatchFails (OverSpots (S.stands steps.old) (S.seen steps.old) 0 []) (S.desk steps.old)
        (S.seen steps.old) (S.seen steps.new) (length (wanted_of state.old).query)) }
{
    let params = steps.params();
    fits(&state.query, params)?;
    let mut told = Told::make(alloc, params)?;
    let mut trace = Trace {
        reads: Listed::new(alloc),
    };
    let answers = begin(alloc, steps, state, &mut told, &mut trace)?;
    let end = answers.is_empty();
    Ok(Batch {
        answers,
        end,
        trace,
    })
}

/// The first batch of a scan, on a state that has had none: Algorithm 5 of the HNSW paper, over any
/// steps. While the desk holds Scan Shared it descends from the entry point to the lowest layer and
/// searches that for `ef` elements. Each gives its rows in their order, with the distance of its
/// value to the query. `end` is set just where there is no row.
///
/// The desk holds no gate. It makes no act but its Gate and its Ungate. Its errors: `Dimensions`,
/// just where the query's length is not that of the index's values, and then no step was made;
/// `Memory`; and `Disk` where a step met a fault of the disks, which leaves an act. After an error
/// the state is spent, and the gate was given back, but where that step itself met the fault of the
/// disks.
pub fn first<S: Steps>(
    alloc: Global,
    steps: &mut S,
    state: &mut ScanState,
) -> Result<Batch, OpFault>
    requires params { IsInRange (S.desk steps.old).params }
    requires gates { HoldsNone (S.seen steps.old) (S.desk steps.old).number }
    requires unused { IsUnused state.old }
    ensures goes { Goes S.desk S.stands S.comes_from (OverSpots (S.stands steps.old) (S.seen steps.old) 0 []) steps.old steps.new }
    ensures wanted { wanted_of state.new ≡ wanted_of state.old }
    ensures fits { OnOk result (length (wanted_of state.old).query ≡ (S.desk steps.old).params.bits) }
    ensures under { OnOk result (IsUnder state.new) }
    ensures told { OnOk result ((base : Index) → OverSpots (S.stands steps.old) (S.seen steps.old) 0 [] base
        → OverScan (S.stands steps.new) (S.seen steps.new) state.new base) }
    ensures ok { IfOk result (λ batch. GivesFirst (MadeGated (OverSpots (S.stands steps.old) (S.seen steps.old) 0 [])
        (S.desk steps.old) (S.seen steps.old) (S.seen steps.new) [] batch.trace.reads) (S.desk steps.old).params.ops
        (wanted_of state.old).query (wanted_of state.old).ef (given_in batch.answers) (held_in state.new) (last_in state.new)) }
    ensures end { IfOk result (λ batch. batch.end ≡ is_nothing (given_in batch.answers)) }
    ensures free { OnOk result (HoldsNone (S.seen steps.new) (S.desk steps.old).number) }
    ensures spent { OnErr result (is_spent state.new ≡ true) }
    ensures err { IfErr result (BatchFails (OverSpots (S.stands steps.old) (S.seen steps.old) 0 []) (S.desk steps.old)
        (S.seen steps.old) (S.seen steps.new) (length (wanted_of state.old).query)) }
{
    match try_first(alloc, steps, state) {
        Ok(batch) => Ok(batch),
        Err(fault) => {
            spend(&mut state.progress);
            Err(fault)
        }
    }
}

// What a next batch is to be, but for what was answered last.
fn wish_of(state: &ScanState) -> Wish
    ensures { result ≡ record { ef = state.now.ef; max = state.now.max; mode = state.now.mode; last = None } }
{
    Wish {
        ef: state.ef,
        max: state.max,
        mode: state.mode,
        last: None,
    }
}

// The next batch of a scan that goes on, with what a step tells and a trace of the caller's.
fn go_further<S: Steps>(
    alloc: Global,
    steps: &mut S,
    going: &mut Going,
    query: &Bits,
    wish: Wish,
    told: &mut Told,
    trace: &mut Trace,
) -> Result<Gathered, OpFault>
    requires params { IsInRange (S.desk steps.old).params }
    requires gates { HoldsNone (S.seen steps.old) (S.desk steps.old).number }
    requires query { length query.now ≡ (S.desk steps.old).params.bits }
    requires ef { 1 ≤ wish.ef }
    requires mode { GoesOn (mode_of wish.mode) }
    requires can_give { CanGive query.now going.old }
    requires bits { length told.old.bits ≡ (S.desk steps.old).params.bits }
    ensures goes { Goes S.desk S.stands S.comes_from (OverSpots (S.stands steps.old) (S.seen steps.old) 0
        (spots_held (holding going.old.search))) steps.old steps.new }
    ensures can_give { OnOk result (CanGive query.now going.new) }
    ensures told { OnOk result ((base : Index)
        → OverSpots (S.stands steps.old) (S.seen steps.old) 0 (spots_held (holding going.old.search)) base
        → OverSpots (S.stands steps.new) (S.seen steps.new) 0 (spots_held (holding going.new.search)) base) }
    ensures ok { IfOk result (λ given. (stood : Standing)
        → ScanStands (S.desk steps.old).params.ops query.now (holding going.old.search) going.old.last stood
        → GivesNext (MadeGated (OverSpots (S.stands steps.old) (S.seen steps.old) 0 (spots_held (holding going.old.search)))
        (S.desk steps.old) (S.seen steps.old) (S.seen steps.new) trace.old.reads trace.new.reads) (S.desk steps.old).params.ops
        query.now wish.ef wish.max (mode_of wish.mode) stood (given_in given.answers) given.end (holding going.new.search)
        going.new.last) }
    ensures free { OnOk result (HoldsNone (S.seen steps.new) (S.desk steps.old).number) }
    ensures err { IfErr result (GatedEnd (OverSpots (S.stands steps.old) (S.seen steps.old) 0 (spots_held (holding going.old.search)))
        (S.desk steps.old) (S.seen steps.old) (S.seen steps.new)) }
    ensures freed { IfErr result (IsFreed (OverSpots (S.stands steps.old) (S.seen steps.old) 0 (spots_held (holding going.old.search)))
        (S.desk steps.old) (S.seen steps.new)) }
{
    let wish = Wish {
        ef: wish.ef,
        max: wish.max,
        mode: wish.mode,
        last: going.last,
    };
    let given = next_gated(alloc, steps, &mut going.search, query, wish, told, trace)?;
    going.last = last_dist(wish.last, given.answers.as_slice());
    Ok(given)
}

// The next batch of a scan that is so far.
fn go_under<S: Steps>(
    alloc: Global,
    steps: &mut S,
    progress: &mut Progress,
    query: &Bits,
    wish: Wish,
    told: &mut Told,
    trace: &mut Trace,
) -> Result<Gathered, OpFault>
    requires params { IsInRange (S.desk steps.old).params }
    requires gates { HoldsNone (S.seen steps.old) (S.desk steps.old).number }
    requires query { length query.now ≡ (S.desk steps.old).params.bits }
    requires ef { 1 ≤ wish.ef }
    requires mode { GoesOn (mode_of wish.mode) }
    requires under { IsUnderAt query.now progress.old }
    requires bits { length told.old.bits ≡ (S.desk steps.old).params.bits }
    ensures goes { Goes S.desk S.stands S.comes_from (OverSpots (S.stands steps.old) (S.seen steps.old) 0
        (spots_held (held_at progress.old))) steps.old steps.new }
    ensures under { OnOk result (IsUnderAt query.now progress.new) }
    ensures told { OnOk result ((base : Index)
        → OverSpots (S.stands steps.old) (S.seen steps.old) 0 (spots_held (held_at progress.old)) base
        → OverSpots (S.stands steps.new) (S.seen steps.new) 0 (spots_held (held_at progress.new)) base) }
    ensures ok { IfOk result (λ given. (stood : Standing)
        → ScanStands (S.desk steps.old).params.ops query.now (held_at progress.old) (last_at progress.old) stood
        → GivesNext (MadeGated (OverSpots (S.stands steps.old) (S.seen steps.old) 0 (spots_held (held_at progress.old)))
        (S.desk steps.old) (S.seen steps.old) (S.seen steps.new) trace.old.reads trace.new.reads) (S.desk steps.old).params.ops
        query.now wish.ef wish.max (mode_of wish.mode) stood (given_in given.answers) given.end (held_at progress.new)
        (last_at progress.new)) }
    ensures free { OnOk result (HoldsNone (S.seen steps.new) (S.desk steps.old).number) }
    ensures err { IfErr result (GatedEnd (OverSpots (S.stands steps.old) (S.seen steps.old) 0 (spots_held (held_at progress.old)))
        (S.desk steps.old) (S.seen steps.old) (S.seen steps.new)) }
    ensures freed { IfErr result (IsFreed (OverSpots (S.stands steps.old) (S.seen steps.old) 0 (spots_held (held_at progress.old)))
        (S.desk steps.old) (S.seen steps.new)) }
{
    match progress {
        Progress::Under(going) => go_further(alloc, steps, going, query, wish, told, trace),
        _ => Err(OpFault::Memory),
    }
}

// The next batch, on a state that is not spent by its faults.
fn try_next<S: Steps>(alloc: Global, steps: &mut S, state: &mut ScanState) -> Result<Batch, OpFault>
    requires params { IsInRange (S.desk steps.old).params }
    requires gates { HoldsNone (S.seen steps.old) (S.desk steps.old).number }
    requires under { IsUnder state.old }
    requires mode { GoesOn (wanted_of state.old).mode }
    ensures goes { Goes S.desk S.stands S.comes_from (OverScan (S.stands steps.old) (S.seen steps.old) state.old) steps.old steps.new }
    ensures wanted { wanted_of state.new ≡ wanted_of state.old }
    ensures fits { OnOk result (length (wanted_of state.old).query ≡ (S.desk steps.old).params.bits) }
    ensures under { OnOk result (IsUnder state.new) }
    ensures told { OnOk result ((base : Index) → OverScan (S.stands steps.old) (S.seen steps.old) state.old base
        → OverScan (S.stands steps.new) (S.seen steps.new) state.new base) }
    ensures ok { IfOk result (λ batch. (stood : Standing)
        → ScanStands (S.desk steps.old).params.ops (wanted_of state.old).query (held_in state.old) (last_in state.old) stood
        → GivesNext (MadeGated (OverScan (S.stands steps.old) (S.seen steps.old) state.old) (S.desk steps.old) (S.seen steps.old)
        (S.seen steps.new) [] batch.trace.reads) (S.desk steps.old).params.ops (wanted_of state.old).query (wanted_of state.old).ef
        (wanted_of state.old).max (wanted_of state.old).mode stood (given_in batch.answers) batch.end (held_in state.new)
        (last_in state.new)) }
    ensures free { OnOk result (HoldsNone (S.seen steps.new) (S.desk steps.old).number) }
    ensures err { IfErr result (BatchFails (OverScan (S.stands steps.old) (S.seen steps.old) state.old) (S.desk steps.old)
        (S.seen steps.old) (S.seen steps.new) (length (wanted_of state.old).query)) }
{
    let params = steps.params();
    fits(&state.query, params)?;
    let wish = wish_of(state);
    let mut told = Told::make(alloc, params)?;
    let mut trace = Trace {
        reads: Listed::new(alloc),
    };
    let given = go_under(
        alloc,
        steps,
        &mut state.progress,
        &state.query,
        wish,
        &mut told,
        &mut trace,
    )?;
    Ok(Batch {
        answers: given.answers,
        end: given.end,
        trace,
    })
}

/// The next batch of a scan, on a state that has had its first one and is not spent, in a mode that
/// goes on. While the desk holds Scan Shared the search of the lowest layer goes on from where it
/// stood, but not once `max` elements are known, and the first `ef` of those found and not taken
/// before are taken. An element that an earlier batch knew is looked at again, with its version:
/// where it is gone, or has no row any more, it gives none, else its rows and distance are those
/// now read. In mode Strict a row that is nearer than the last one answered is left out. `end` is
/// set just where no element was taken.
///
/// The elements that the state holds stand as they were told, over each index on which the desk
/// stands: so they do after the call before, and, by the law `law_elements_stay`, after whatever
/// acts come then. So a later desk may ask for the batch, which has seen all that the one before
/// had. That the versions of a place come round after 255 deletions is not told apart.
///
/// Gates, acts and errors are those of `first`.
pub fn next<S: Steps>(alloc: Global, steps: &mut S, state: &mut ScanState) -> Result<Batch, OpFault>
    requires params { IsInRange (S.desk steps.old).params }
    requires gates { HoldsNone (S.seen steps.old) (S.desk steps.old).number }
    requires under { IsUnder state.old }
    requires mode { GoesOn (wanted_of state.old).mode }
    ensures goes { Goes S.desk S.stands S.comes_from (OverScan (S.stands steps.old) (S.seen steps.old) state.old) steps.old steps.new }
    ensures wanted { wanted_of state.new ≡ wanted_of state.old }
    ensures fits { OnOk result (length (wanted_of state.old).query ≡ (S.desk steps.old).params.bits) }
    ensures under { OnOk result (IsUnder state.new) }
    ensures told { OnOk result ((base : Index) → OverScan (S.stands steps.old) (S.seen steps.old) state.old base
        → OverScan (S.stands steps.new) (S.seen steps.new) state.new base) }
    ensures ok { IfOk result (λ batch. (stood : Standing)
        → ScanStands (S.desk steps.old).params.ops (wanted_of state.old).query (held_in state.old) (last_in state.old) stood
        → GivesNext (MadeGated (OverScan (S.stands steps.old) (S.seen steps.old) state.old) (S.desk steps.old) (S.seen steps.old)
        (S.seen steps.new) [] batch.trace.reads) (S.desk steps.old).params.ops (wanted_of state.old).query (wanted_of state.old).ef
        (wanted_of state.old).max (wanted_of state.old).mode stood (given_in batch.answers) batch.end (held_in state.new)
        (last_in state.new)) }
    ensures free { OnOk result (HoldsNone (S.seen steps.new) (S.desk steps.old).number) }
    ensures spent { OnErr result (is_spent state.new ≡ true) }
    ensures err { IfErr result (BatchFails (OverScan (S.stands steps.old) (S.seen steps.old) state.old) (S.desk steps.old)
        (S.seen steps.old) (S.seen steps.new) (length (wanted_of state.old).query)) }
{
    match try_next(alloc, steps, state) {
        Ok(batch) => Ok(batch),
        Err(fault) => {
            spend(&mut state.progress);
            Err(fault)
        }
    }
}
