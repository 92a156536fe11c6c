//! The batches of a scan, each under the gate Scan.
#![tactic(auto)]

ghost use Rattle.std.specs.Prelude.{◌≡◌, ◌≤◌, [], None, IfOk, OnOk, IfErr, length};
ghost use Rattle.vec_names.specs.Params.{IsInRange};
ghost use Rattle.graph_search.specs.Scan.{GoesOn, Standing, last_dist};
ghost use Rattle.vec_steps.specs.Index.{Index};
ghost use Rattle.vec_steps.specs.Calls.{Goes, HoldsNone};
ghost use Rattle.layer_search.specs.Telling.{OverSpots, spots_held};
ghost use Rattle.layer_search.specs.Resuming.{CanGoOn, holding, layer_of};
ghost use Rattle.hnsw_scan.specs.Answering.{given_in, mode_of};
ghost use Rattle.hnsw_scan.specs.Gathering.{GivesFirst, GivesNext, ScanStands};
ghost use Rattle.hnsw_scan.specs.Gated.{GatedEnd, IsFreed, MadeGated};

use crate::batches::{Begun, Gathered, Wish, first_batch, next_batch};
use bit_code::Bits;
use layer_search::Search;
use std::alloc::Global;
use step_gates::{give_back, take_gate};
use vec_history::{Gate, Hold};
use vec_steps::{OpFault, Steps, Told, Trace};

/// The first batch of a scan: Algorithm 5 of the HNSW paper, over any steps. It takes Scan Shared, descends from the entry point to
/// the lowest layer, searches that for `ef` elements, and gives the gate back. Each element that is found gives its rows in their
/// order, with the distance of its value to the query. Where there is no row, the scan is at its end.
///
/// `ef` is at least 1, `told` was made for the index, and the desk holds no gate. The looks come to the end of `trace`, each by its
/// position. It makes no act but its Gate and its Ungate. Its errors are `Memory`, and `Disk` where a step met a fault of the disks,
/// which leaves an act; the gate was given back then, but where that step itself met the fault.
pub fn first_gated<S: Steps>(
    alloc: Global,
    steps: &mut S,
    query: &Bits,
    ef: u32,
    told: &mut Told,
    trace: &mut Trace,
) -> Result<Begun, OpFault>
    requires params { IsInRange (S.desk steps.old).params }
    requires gates { HoldsNone (S.seen steps.old) (S.desk steps.old).number }
    requires query { length query.now ≡ (S.desk steps.old).params.bits }
    requires ef { 1 ≤ ef }
    requires bits { length told.old.bits ≡ (S.desk steps.old).params.bits }
    ensures goes { Goes S.desk S.stands S.comes_from (OverSpots (S.stands steps.old) (S.seen steps.old) 0 []) steps.old steps.new }
    ensures ready { IfOk result (λ begun. CanGoOn (S.desk steps.old).params.bits begun.search) }
    ensures layer { IfOk result (λ begun. layer_of begun.search ≡ 0) }
    ensures told { IfOk result (λ begun. (base : Index) → OverSpots (S.stands steps.old) (S.seen steps.old) 0 [] base
        → OverSpots (S.stands steps.new) (S.seen steps.new) 0 (spots_held (holding begun.search)) base) }
    ensures ok { IfOk result (λ begun. GivesFirst (MadeGated (OverSpots (S.stands steps.old) (S.seen steps.old) 0 []) (S.desk steps.old)
        (S.seen steps.old) (S.seen steps.new) trace.old.reads trace.new.reads) (S.desk steps.old).params.ops query.now ef
        (given_in begun.answers) (holding begun.search) (last_dist None (given_in begun.answers))) }
    ensures free { OnOk result (HoldsNone (S.seen steps.new) (S.desk steps.old).number) }
    ensures err { IfErr result (GatedEnd (OverSpots (S.stands steps.old) (S.seen steps.old) 0 []) (S.desk steps.old)
        (S.seen steps.old) (S.seen steps.new)) }
    ensures freed { IfErr result (IsFreed (OverSpots (S.stands steps.old) (S.seen steps.old) 0 []) (S.desk steps.old)
        (S.seen steps.new)) }
{
    take_gate(steps, Gate::Scan, Hold::Shared, told)?;
    let made = first_batch(alloc, steps, query, ef, trace);
    give_back(steps, Gate::Scan, told)?;
    made
}

/// A next batch of a scan, after pgvector's iterative scans. Under Scan Shared the search of the lowest layer goes on from what it
/// holds, but not once `wish.max` elements are known, and the first `wish.ef` of those found and not taken are taken. An element that
/// an earlier batch knew is looked at again, with its version: where it is gone it gives no row, else its rows and distance are those
/// now read. In mode Strict a row that is nearer than the last one answered is left out. In mode Off there is no next batch.
///
/// The elements that the search holds stand as they were told, over each index on which the desk stands: so they do after the batch
/// before (`told`), and then whatever acts come, by the law `law_elements_stay`. So a later desk may ask for it, which has seen all
/// that the one before had. Gates, acts and errors are those of `first_gated`; after an error the search is not used again.
pub fn next_gated<S: Steps>(
    alloc: Global,
    steps: &mut S,
    search: &mut Search,
    query: &Bits,
    wish: Wish,
    told: &mut Told,
    trace: &mut Trace,
) -> Result<Gathered, OpFault>
    requires params { IsInRange (S.desk steps.old).params }
    requires gates { HoldsNone (S.seen steps.old) (S.desk steps.old).number }
    requires query { length query.now ≡ (S.desk steps.old).params.bits }
    requires ef { 1 ≤ wish.ef }
    requires mode { GoesOn (mode_of wish.mode) }
    requires ready { CanGoOn (S.desk steps.old).params.bits search.old }
    requires layer { layer_of search.old ≡ 0 }
    requires bits { length told.old.bits ≡ (S.desk steps.old).params.bits }
    ensures goes { Goes S.desk S.stands S.comes_from (OverSpots (S.stands steps.old) (S.seen steps.old) 0
        (spots_held (holding search.old))) steps.old steps.new }
    ensures ready { OnOk result (CanGoOn (S.desk steps.old).params.bits search.new) }
    ensures layer { OnOk result (layer_of search.new ≡ 0) }
    ensures told { OnOk result ((base : Index)
        → OverSpots (S.stands steps.old) (S.seen steps.old) 0 (spots_held (holding search.old)) base
        → OverSpots (S.stands steps.new) (S.seen steps.new) 0 (spots_held (holding search.new)) base) }
    ensures ok { IfOk result (λ given. (stood : Standing)
        → ScanStands (S.desk steps.old).params.ops query.now (holding search.old) wish.last stood
        → GivesNext (MadeGated (OverSpots (S.stands steps.old) (S.seen steps.old) 0 (spots_held (holding search.old)))
        (S.desk steps.old) (S.seen steps.old) (S.seen steps.new) trace.old.reads trace.new.reads) (S.desk steps.old).params.ops
        query.now wish.ef wish.max (mode_of wish.mode) stood (given_in given.answers) given.end (holding search.new)
        (last_dist wish.last (given_in given.answers))) }
    ensures free { OnOk result (HoldsNone (S.seen steps.new) (S.desk steps.old).number) }
    ensures err { IfErr result (GatedEnd (OverSpots (S.stands steps.old) (S.seen steps.old) 0 (spots_held (holding search.old)))
        (S.desk steps.old) (S.seen steps.old) (S.seen steps.new)) }
    ensures freed { IfErr result (IsFreed (OverSpots (S.stands steps.old) (S.seen steps.old) 0 (spots_held (holding search.old)))
        (S.desk steps.old) (S.seen steps.new)) }
{
    take_gate(steps, Gate::Scan, Hold::Shared, told)?;
    let made = next_batch(alloc, steps, search, query, wish, trace);
    give_back(steps, Gate::Scan, told)?;
    made
}
