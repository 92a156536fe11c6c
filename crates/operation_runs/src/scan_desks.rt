//! A desk that is alone at the board of an index without nodes.

ghost use Rattle.std.specs.Prelude.{◌≡◌, IfOk};
ghost use Rattle.vec_names.specs.Params.{IsInRange};
ghost use Rattle.vec_names.specs.declared.params.Kind.TheVariants.{Hnsw};
ghost use Rattle.vec_steps.specs.Calls.{HoldsNone};
ghost use Rattle.loaded_index.specs.Loading.{CanGoOn};
ghost use Rattle.vec_board.specs.Standing.{acts_of};

use empty_index::empty_index;
use loaded_index::Loaded;
use std::alloc::Global;
use std::test::Fail;
use vec_board::{Board, LoneDesk};
use vec_names::{Kind, Ops, Params};
use vec_outside::{Area, Disks, MemDisks};

/// The parameters of a graph of values of four places, with m 2 and ef 4.
pub fn small(ops: Ops) -> Params
    ensures range { IsInRange result }
    ensures nodes { result.kind ≡ Hnsw }
{
    Params {
        kind: Kind::Hnsw,
        ops,
        bits: 4,
        m: 2,
        ef: 4,
        lists: 0,
    }
}

// Such an index without nodes, at the begin of its first epoch.
fn loaded(alloc: Global, params: Params) -> Result<Loaded, Fail>
    requires range { IsInRange params }
    requires nodes { params.kind ≡ Hnsw }
    ensures { IfOk result CanGoOn }
{
    Ok(Loaded {
        pages: empty_index(alloc, params)?,
        epoch: 1,
        area: Area::Log0,
        before: 0,
        end: 40,
        used: 0,
        unwritten: Vec::new(alloc),
    })
}

// Disks whose log areas have their heads alone.
fn disks(alloc: Global) -> Result<MemDisks, Fail> {
    let log = vec![in alloc; 0; 40]?;
    let other = vec![in alloc; 0; 40]?;
    Ok(MemDisks::over(alloc, Vec::new(alloc), log, other, Vec::new(alloc)))
}

/// A desk that is alone at the board of a graph without nodes. It holds no gate.
pub fn desk(alloc: Global, params: Params) -> Result<LoneDesk<MemDisks>, Fail>
    requires range { IsInRange params }
    requires nodes { params.kind ≡ Hnsw }
    ensures gates { IfOk result (λ desk. HoldsNone (acts_of desk.board.core) 0) }
{
    let disks = disks(alloc)?;
    let loaded = loaded(alloc, params)?;
    if (disks.bytes(loaded.area).len() as u64) < loaded.end {
        return Err(Fail::new("an area to the log's end"));
    }
    Ok(LoneDesk::over(Board::from_loaded(alloc, disks, loaded)))
}
