// The batches of a scan, as looks alone: the gate is held by the caller.
#![tactic(auto)]

ghost use Rattle.std.specs.Prelude.{◌≡◌, ◌≤◌, [], None, IfOk, OnOk, IfErr, length};
ghost use Rattle.vec_names.specs.Params.{IsInRange};
ghost use Rattle.graph_search.specs.Scan.{GoesOn, Standing, last_dist};
ghost use Rattle.vec_steps.specs.Index.{Index};
ghost use Rattle.vec_steps.specs.Calls.{DoesSo, Goes, Looks};
ghost use Rattle.layer_search.specs.Telling.{OverSpots, spots_held};
ghost use Rattle.layer_search.specs.Looking.{EndedBy, MadeLooks};
ghost use Rattle.layer_search.specs.Resuming.{CanGoOn, holding, layer_of};
ghost use Rattle.hnsw_scan.specs.Answering.{given_in, mode_of};
ghost use Rattle.hnsw_scan.specs.Gathering.{GivesFirst, GivesNext, ScanStands};

use crate::answer::{Answer, Mode};
use crate::rows::{let_through, rows_in};
use crate::taking::take_rows;
use bit_code::Bits;
use bit_dist::Dist;
use layer_search::{Search, descend};
use std::alloc::Global;
use vec_names::Listed;
use vec_steps::{OpFault, Steps, Trace};

/// The rows of a first batch, nearest first, and the search that goes on from there.
#[derive(Drop)]
pub struct Begun {
    pub search: Search,
    pub answers: Listed<Answer>,
}

/// How far a next batch goes, and what it lets through: so many elements are wanted, at least 1; no list is looked at once `max`
/// are known, those counted from which the search began; and the last row answered had this distance, if one was.
#[derive(Clone, Copy)]
pub struct Wish {
    pub ef: u32,
    pub max: u64,
    pub mode: Mode,
    pub last: Option<Dist>,
}

/// The rows of a next batch, and whether nothing was found to take.
#[derive(Drop)]
pub struct Gathered {
    pub answers: Listed<Answer>,
    pub end: bool,
}

/// Descends to the lowest layer, searches it, and gives the rows of the first `ef` found.
pub fn first_batch<S: Steps>(
    alloc: Global,
    steps: &mut S,
    query: &Bits,
    ef: u32,
    trace: &mut Trace,
) -> Result<Begun, OpFault>
    requires params { IsInRange (S.desk steps.old).params }
    requires query { length query.now ≡ (S.desk steps.old).params.bits }
    requires ef { 1 ≤ ef }
    ensures goes { Goes S.desk S.stands S.comes_from (OverSpots (S.stands steps.old) (S.seen steps.old) 0 []) steps.old steps.new }
    ensures ready { IfOk result (λ begun. CanGoOn (S.desk steps.old).params.bits begun.search) }
    ensures layer { IfOk result (λ begun. layer_of begun.search ≡ 0) }
    ensures told { IfOk result (λ begun. (base : Index) → OverSpots (S.stands steps.old) (S.seen steps.old) 0 [] base
        → OverSpots (S.stands steps.new) (S.seen steps.new) 0 (spots_held (holding begun.search)) base) }
    ensures ok { IfOk result (λ begun. GivesFirst (MadeLooks (OverSpots (S.stands steps.old) (S.seen steps.old) 0 []) (S.desk steps.old)
        (S.seen steps.old) (S.seen steps.new) trace.old.reads trace.new.reads) (S.desk steps.old).params.ops query.now ef
        (given_in begun.answers) (holding begun.search) (last_dist None (given_in begun.answers))) }
    ensures err { IfErr result (EndedBy (OverSpots (S.stands steps.old) (S.seen steps.old) 0 []) (S.desk steps.old)
        (S.seen steps.old) (S.seen steps.new)) }
{
    let descent = descend(alloc, steps, query, 0, trace)?;
    let mut search = Search::make(alloc, descent.from.as_slice(), 0)?;
    search.go_on(steps, query, ef, u64::MAX, trace)?;
    let batch = search.take(ef)?;
    let answers = rows_in(alloc, batch.as_slice())?;
    Ok(Begun { search, answers })
}

/// Goes on with a search, takes the first of those found, reads again what an earlier batch knew, and lets rows through.
pub fn next_batch<S: Steps>(
    alloc: Global,
    steps: &mut S,
    search: &mut Search,
    query: &Bits,
    wish: Wish,
    trace: &mut Trace,
) -> Result<Gathered, OpFault>
    requires params { IsInRange (S.desk steps.old).params }
    requires query { length query.now ≡ (S.desk steps.old).params.bits }
    requires ef { 1 ≤ wish.ef }
    requires mode { GoesOn (mode_of wish.mode) }
    requires ready { CanGoOn (S.desk steps.old).params.bits search.old }
    requires layer { layer_of search.old ≡ 0 }
    ensures goes { Goes S.desk S.stands S.comes_from (OverSpots (S.stands steps.old) (S.seen steps.old) 0
        (spots_held (holding search.old))) steps.old steps.new }
    ensures ready { OnOk result (CanGoOn (S.desk steps.old).params.bits search.new) }
    ensures layer { OnOk result (layer_of search.new ≡ 0) }
    ensures told { OnOk result ((base : Index)
        → OverSpots (S.stands steps.old) (S.seen steps.old) 0 (spots_held (holding search.old)) base
        → OverSpots (S.stands steps.new) (S.seen steps.new) 0 (spots_held (holding search.new)) base) }
    ensures looked { IfOk result (λ given. DoesSo Looks (OverSpots (S.stands steps.old) (S.seen steps.old) 0
        (spots_held (holding search.old))) (S.desk steps.old) (S.seen steps.old) (S.seen steps.new)) }
    ensures ok { IfOk result (λ given. (stood : Standing)
        → ScanStands (S.desk steps.old).params.ops query.now (holding search.old) wish.last stood
        → GivesNext (MadeLooks (OverSpots (S.stands steps.old) (S.seen steps.old) 0 (spots_held (holding search.old)))
        (S.desk steps.old) (S.seen steps.old) (S.seen steps.new) trace.old.reads trace.new.reads) (S.desk steps.old).params.ops
        query.now wish.ef wish.max (mode_of wish.mode) stood (given_in given.answers) given.end (holding search.new)
        (last_dist wish.last (given_in given.answers))) }
    ensures err { IfErr result (EndedBy (OverSpots (S.stands steps.old) (S.seen steps.old) 0 (spots_held (holding search.old)))
        (S.desk steps.old) (S.seen steps.old) (S.seen steps.new)) }
{
    search.go_on(steps, query, wish.ef, wish.max, trace)?;
    let batch = search.take(wish.ef)?;
    let end = batch.is_empty();
    let rows = take_rows(alloc, steps, query, batch.as_slice(), trace)?;
    let answers = let_through(alloc, wish.mode, wish.last, rows)?;
    Ok(Gathered { answers, end })
}
