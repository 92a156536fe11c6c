// A new index in memory, and the desk that is alone there.
ghost use Rattle.std.specs.Prelude.{◌≡◌, [], All, length, IfOk, OnOk, IfErr};
ghost use Rattle.vec_names.specs.Params.{IsInRange};
ghost use Rattle.vec_names.specs.declared.params.Kind.TheVariants.{Hnsw};
ghost use Rattle.vec_steps.specs.Index.{OfNodes, IsLegal};
ghost use Rattle.loaded_index.specs.Loading.{CanGoOn};
ghost use Rattle.graph_pages.specs.Standing.{Stands};
ghost use Rattle.empty_index.specs.Empty.{empty_graph};
ghost use Rattle.vec_outside.specs.declared.disks.Area.TheVariants.{Log0};
ghost use Rattle.vec_outside.specs.MemDisks.{disks_plan};
ghost use Rattle.vec_board.specs.Standing.{acts_of};
ghost use Rattle.vec_board.specs.Looking.{desk_of};
ghost use Rattle.vec_board.specs.Boards.{StandsWhole};
ghost use Rattle.script_jobs.specs.Jobs.{CanBeDone};
ghost use Rattle.vec_run.specs.Alone.{IsNew, lone};
ghost use Rattle.vec_run.specs.Runs.{RunsAll, StopsIn};

use crate::done::Done;
use crate::indexed::{Stop, run_all};
use empty_index::empty_index;
use loaded_index::Loaded;
use script_words::Command;
use std::alloc::{AllocError, Global};
use vec_board::{Board, LoneDesk};
use vec_history::Act;
use vec_names::Params;
use vec_outside::{Area, MemDisks};

// An index without nodes, as it stands when it was made: in its first epoch, which has no event yet.
fn new_index(alloc: Global, params: Params) -> Result<Loaded, AllocError>
    requires params { IsInRange params }
    requires nodes { params.kind ≡ Hnsw }
    ensures stand { IfOk result (λ loaded. Stands loaded.pages.items (empty_graph params)) }
    ensures goes { IfOk result CanGoOn }
    ensures end { IfOk result (λ loaded. loaded.end ≡ 40) }
    ensures used { IfOk result (λ loaded. loaded.used ≡ 0) }
    ensures area { IfOk result (λ loaded. loaded.area ≡ Log0) }
{
    Ok(Loaded {
        pages: empty_index(alloc, params)?,
        epoch: 1,
        area: Area::Log0,
        before: 0,
        end: 40,
        used: 0,
        unwritten: Vec::new(alloc),
    })
}

/// The desk that is alone at a new index with these parameters, which stands in memory. Its only error is want of memory.
pub fn lone_desk(alloc: Global, params: Params) -> Result<LoneDesk<MemDisks>, AllocError>
    requires params { IsInRange params }
    requires nodes { params.kind ≡ Hnsw }
    ensures stands { IfOk result (λ desk. StandsWhole desk.board.core desk.board.pages.pages.items (disks_plan desk.board.disks).faults
        (OfNodes (empty_graph params))) }
    ensures desk { IfOk result (λ desk. desk_of desk.board.core 0 ≡ lone params) }
    ensures no_act { IfOk result (λ desk. acts_of desk.board.core ≡ []) }
{
    let disks = match MemDisks::empty(alloc) {
        Ok(disks) => disks,
        Err(_) => return Err(AllocError),
    };
    let loaded = new_index(alloc, params)?;
    Ok(LoneDesk::over(Board::from_loaded(alloc, disks, loaded)))
}

/// Does the commands of these lines at a desk that is alone at a new index, and tells what happened to that; the index is given up then.
pub fn run_lone(
    alloc: Global,
    mut desk: LoneDesk<MemDisks>,
    params: Params,
    lines: &[u64],
    commands: &[Command],
    done: &mut Done,
) -> (Result<(), Stop>, Vec<Act>)
    requires params { IsInRange params }
    requires nodes { params.kind ≡ Hnsw }
    requires stands { StandsWhole desk.board.core desk.board.pages.pages.items (disks_plan desk.board.disks).faults
        (OfNodes (empty_graph params)) }
    requires desk { desk_of desk.board.core 0 ≡ lone params }
    requires no_act { acts_of desk.board.core ≡ [] }
    requires long { length lines.now ≡ length commands.now }
    requires can { All CanBeDone commands.now }
    ensures legal { IsLegal (OfNodes (empty_graph params)) result.1.items }
    ensures ok { OnOk result.0 (RunsAll (IsNew params) (lone params) [] result.1.items lines.now commands.now done.old done.new) }
    ensures err { IfErr result.0 (StopsIn (IsNew params) (lone params) [] result.1.items lines.now commands.now done.old done.new) }
{
    let ended = run_all(alloc, &mut desk, lines, commands, done);
    let (_, acts) = desk.into_board().into_parts();
    (ended, acts)
}
