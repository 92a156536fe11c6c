ghost use Rattle.std.specs.Prelude.{◌≡◌, ◌≤◌, IfOk, OnOk, length};
ghost use Rattle.vec_history.specs.declared.gate.Gate.TheVariants.{Update};
ghost use Rattle.vec_history.specs.Gates.{Holds};
ghost use Rattle.loaded_index.specs.Loading.{CanGoOn};
ghost use Rattle.vec_board.specs.Standing.{acts_of};

use bit_code::read_bits;
use hnsw_insert::{Inserted, insert};
use loaded_index::Loaded;
use page_bytes::{Page, PageKind};
use std::alloc::Global;
use std::test::*;
use vec_board::{Board, LoneDesk};
use vec_history::{Act, Event};
use vec_names::{HeapId, Kind, Tid};
use vec_outside::{Area, Disks, MemDisks};
use vec_steps::Steps;

/// The meta tuple of a graph of four places with m 2 and ef 4: no entry point, the hint 1.
const META: [u8; 32] = [
    0x56, 0x54, 0x49, 0x42, 2, 0, 1, 1, 4, 0, 0, 0, 2, 0, 4, 0, 0, 0, 0, 0, 0xff, 0xff, 0xff, 0xff,
    0, 0, 0, 0, 1, 0, 0, 0,
];

/// An index of the meta page and an empty page.
fn loaded(alloc: Global) -> Result<Loaded, Fail>
    ensures { IfOk result CanGoOn }
{
    let mut pages = Vec::with_capacity(alloc, 3)?;
    let mut meta = Page::fresh(PageKind::Meta);
    meta.add_item(&META);
    pages.push(meta)?;
    pages.push(Page::fresh(PageKind::Hnsw))?;
    Ok(Loaded {
        pages,
        epoch: 1,
        area: Area::Log0,
        before: 0,
        end: 40,
        used: 0,
        unwritten: Vec::new(alloc),
    })
}

/// A desk that is alone at the board of that index.
fn desk(alloc: Global) -> Result<LoneDesk<MemDisks>, Fail>
    ensures free { IfOk result (λ desk. Holds (acts_of desk.board.core) 0 Update → ⊥) }
{
    let log = vec![in alloc; 0; 40]?;
    let none = Vec::new(alloc);
    let other = vec![in alloc; 0; 40]?;
    let fail = Vec::new(alloc);
    let disks = MemDisks::over(alloc, none, log, other, fail);
    let loaded = loaded(alloc)?;
    if (disks.bytes(loaded.area).len() as u64) < loaded.end {
        return Err(Fail::new("an area to the log's end"));
    }
    Ok(LoneDesk::over(Board::from_loaded(alloc, disks, loaded)))
}

/// Inserts a row with this value, whose id has this offset, by a word.
fn row_of<S: Steps>(
    alloc: Global,
    steps: &mut S,
    text: &str,
    off: u16,
    word: u64,
) -> Result<Inserted, Fail>
    requires free { Holds (S.seen steps.old) (S.desk steps.old).number Update → ⊥ }
    ensures free { OnOk result (Holds (S.seen steps.new) (S.desk steps.new).number Update → ⊥) }
{
    let params = steps.params();
    if !params.check() {
        return Err(Fail::new("parameters in range"));
    }
    let Kind::Hnsw = params.kind else {
        return Err(Fail::new("a graph"));
    };
    let bits = read_bits(alloc, text)?;
    let id = HeapId {
        block: 5,
        off: off.max(1),
    };
    Ok(insert(alloc, steps, id, &bits, word)?)
}

/// The same at level 0.
fn row<S: Steps>(alloc: Global, steps: &mut S, text: &str, off: u16) -> Result<Inserted, Fail>
    requires free { Holds (S.seen steps.old) (S.desk steps.old).number Update → ⊥ }
    ensures free { OnOk result (Holds (S.seen steps.new) (S.desk steps.new).number Update → ⊥) }
{
    row_of(alloc, steps, text, off, u64::MAX)
}

/// Inserts three rows of one value, whose ids have the offsets from this one on, and tells whether each joined a node.
fn do_three_join<S: Steps>(alloc: Global, steps: &mut S, off: u16) -> Result<bool, Fail>
    requires free { Holds (S.seen steps.old) (S.desk steps.old).number Update → ⊥ }
    requires few { off ≤ 100 }
    ensures free { OnOk result (Holds (S.seen steps.new) (S.desk steps.new).number Update → ⊥) }
{
    let first = row(alloc, steps, "0101", off)?;
    let second = row(alloc, steps, "0101", off + 1)?;
    let third = row(alloc, steps, "0101", off + 2)?;
    Ok(first.joined && second.joined && third.joined)
}

fn tid(off: u16) -> Tid {
    Tid {
        block: 1,
        off: off.max(1),
    }
}

fn is_link(act: &Act, at: u16, to: u16) -> bool {
    match act.event {
        Event::Link {
            at: of,
            to: other,
            ..
        } => of == tid(at) && other == tid(to),
        _ => false,
    }
}

fn is_entry(act: &Act, to: u16, high: u8) -> bool {
    match act.event {
        Event::Entry { to: of, level } => of == Some(tid(to)) && level == high,
        _ => false,
    }
}

fn is_hint(act: &Act) -> bool {
    match act.event {
        Event::Hint { .. } => true,
        _ => false,
    }
}

/// The first row comes to 1/1, under the gate taken alone, and is the entry point. Its acts are the gate and its release, the gate,
/// the Put, the entry point, and the release; the meta tuple is looked at three times.
#[test]
fn the_first_row_is_the_entry_point(rt: HostRuntime) -> Result<(), Fail> {
    let alloc = rt.alloc();
    let mut desk = desk(alloc)?;
    let first = row(alloc, &mut desk, "0101", 1)?;
    assert!(rt; first.at == tid(1) && first.version == 1 && first.level == 0 && !first.joined);
    assert!(rt; first.trace.reads.as_slice() == [1, 3, 3].as_slice());
    assert!(rt; desk.front() == 6);
    Ok(())
}

/// A second row of that value joins the node; its acts are the gate, the Join and the release.
#[test]
fn an_equal_value_joins(rt: HostRuntime) -> Result<(), Fail> {
    let alloc = rt.alloc();
    let mut desk = desk(alloc)?;
    row(alloc, &mut desk, "0101", 1)?;
    let second = row(alloc, &mut desk, "0101", 2)?;
    assert!(rt; second.at == tid(1) && second.version == 1 && second.level == 0 && second.joined);
    assert!(rt; desk.front() == 9);
    Ok(())
}

/// The eleventh row of one value opens a second node, at the next two offsets.
#[test]
fn the_eleventh_equal_value_opens_a_second_node(rt: HostRuntime) -> Result<(), Fail> {
    let alloc = rt.alloc();
    let mut desk = desk(alloc)?;
    row(alloc, &mut desk, "0101", 1)?;
    assert!(rt; do_three_join(alloc, &mut desk, 2)?);
    assert!(rt; do_three_join(alloc, &mut desk, 5)?);
    assert!(rt; do_three_join(alloc, &mut desk, 8)?);
    let last = row(alloc, &mut desk, "0101", 11)?;
    assert!(rt; last.at == tid(3) && last.version == 1 && !last.joined);
    Ok(())
}

/// 0111 comes to 1/5 as the third row, where 0000 at 1/1 and 0011 at 1/3 name each other: its slots name 1/3 and then 1/1, each of
/// which comes to name it.
#[test]
fn the_third_row_is_named_by_both_others(rt: HostRuntime) -> Result<(), Fail> {
    let alloc = rt.alloc();
    let mut desk = desk(alloc)?;
    row(alloc, &mut desk, "0000", 1)?;
    row(alloc, &mut desk, "0011", 2)?;
    let third = row(alloc, &mut desk, "0111", 3)?;
    assert!(rt; third.at == tid(5) && !third.joined);
    let board = desk.into_board();
    let links = board
        .acts()
        .iter()
        .filter(|act| is_link(act, 3, 5) || is_link(act, 1, 5))
        .count();
    assert!(rt; links == 2);
    Ok(())
}

/// A row of level 1, above the entry point's, takes the gate alone, is linked in layer 0, and becomes the entry point. Its acts are
/// the gate and its release, the gate, the Put, the link, the entry point, and the release. It moves no hint.
#[test]
fn a_taller_row_becomes_the_entry_point(rt: HostRuntime) -> Result<(), Fail> {
    let alloc = rt.alloc();
    let mut desk = desk(alloc)?;
    row(alloc, &mut desk, "0000", 1)?;
    let tall = row_of(alloc, &mut desk, "0011", 2, 1 << 62)?;
    assert!(rt; tall.at == tid(3) && tall.level == 1 && !tall.joined);
    assert!(rt; desk.front() == 13);
    let board = desk.into_board();
    let entered = board
        .acts()
        .iter()
        .filter(|act| is_entry(act, 3, 1))
        .count();
    let hinted = board.acts().iter().filter(|act| is_hint(act)).count();
    assert!(rt; entered == 1 && hinted == 0);
    Ok(())
}
