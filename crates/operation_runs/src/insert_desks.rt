//! A desk that is alone at the board of a graph.

ghost use Rattle.std.specs.Prelude.{◌≡◌, ◌≤◌, IfOk, length};
ghost use Rattle.vec_names.specs.Params.{IsInRange};
ghost use Rattle.vec_names.specs.declared.params.Kind.TheVariants.{Hnsw};
ghost use Rattle.vec_history.specs.declared.gate.Gate.TheVariants.{Update};
ghost use Rattle.vec_history.specs.Gates.{Holds};
ghost use Rattle.index_sizes.specs.declared.limits.TheConstants.{MOST_BLOCKS};
ghost use Rattle.loaded_index.specs.Loading.{CanGoOn};
ghost use Rattle.vec_board.specs.Standing.{acts_of};

use index_sizes::MOST_BLOCKS;
use loaded_index::Loaded;
use page_bytes::Page;
use std::alloc::Global;
use std::test::Fail;
use vec_board::{Board, LoneDesk};
use vec_names::{Kind, Ops, Params};
use vec_outside::{Area, Disks, MemDisks};

/// The parameters of a graph of values of 16 places, with m 4 and ef 16.
pub fn params() -> Params
    ensures range { IsInRange result }
    ensures nodes { result.kind ≡ Hnsw }
{
    Params {
        kind: Kind::Hnsw,
        ops: Ops::Hamming,
        bits: 16,
        m: 4,
        ef: 16,
        lists: 0,
    }
}

// An index of these pages, at the begin of its first epoch.
fn loaded(alloc: Global, pages: Vec<Page>) -> Result<Loaded, Fail>
    ensures { IfOk result CanGoOn }
{
    if pages.len() > MOST_BLOCKS as usize {
        return Err(Fail::new("few pages"));
    }
    Ok(Loaded {
        pages,
        epoch: 1,
        area: Area::Log0,
        before: 0,
        end: 40,
        used: 0,
        unwritten: Vec::new(alloc),
    })
}

// Disks whose log areas have their heads alone.
fn disks(alloc: Global) -> Result<MemDisks, Fail> {
    let log = vec![in alloc; 0; 40]?;
    let other = vec![in alloc; 0; 40]?;
    Ok(MemDisks::over(alloc, Vec::new(alloc), log, other, Vec::new(alloc)))
}

/// A desk that is alone at the board of an index of these pages. It holds no gate.
pub fn desk(alloc: Global, pages: Vec<Page>) -> Result<LoneDesk<MemDisks>, Fail>
    ensures free { IfOk result (λ desk. Holds (acts_of desk.board.core) 0 Update → ⊥) }
{
    let disks = disks(alloc)?;
    let loaded = loaded(alloc, pages)?;
    if (disks.bytes(loaded.area).len() as u64) < loaded.end {
        return Err(Fail::new("an area to the log's end"));
    }
    Ok(LoneDesk::over(Board::from_loaded(alloc, disks, loaded)))
}
