//! Changes that desks ask for, on the pages of small indexes.

ghost use Rattle.std.specs.Prelude.{◌≡◌, ◌≤◌, IfOk, OnOk, length, vec_len};
ghost use Rattle.vec_names.specs.Params.{IsInRange};

use crate::core_tests::{META, core, core_of, graph, number_on, two_pages};
use bit_code::{Bits, read_bits};
use index_sizes::{LOG_ROOM, MOST_BLOCKS};
use page_bytes::{Page, PageKind};
use page_log::Log;
use page_sets::PageList;
use std::alloc::Global;
use std::test::*;
use vec_board::{Core, Summary};
use vec_names::{HeapId, Kind, Listed, Ops, Params, Tid};
use vec_outside::Area;
use vec_steps::{Ask, NewNode, StepFault, Told, Word};

/// A list tuple of the centre 0000: its first block is 2, and so is its aim.
const CENTRE: [u8; 21] = [
    2, 0, 0, 0, 2, 0, 0, 0, 0, 0, 0, 0, 0x24, 0, 0, 0, 4, 0, 0, 0, 0,
];

fn one_list() -> Params
    ensures range { IsInRange result }
    ensures bits { result.bits ≡ 4 }
{
    Params {
        kind: Kind::Ivf,
        ops: Ops::Hamming,
        bits: 4,
        m: 0,
        ef: 0,
        lists: 1,
    }
}

/// The page of one list, and an empty one for its rows.
pub fn list_pages(alloc: Global) -> Result<PageList, Fail>
    ensures { IfOk result (λ pages. vec_len pages.pages ≡ 3) }
{
    let mut pages = Vec::with_capacity(alloc, 4)?;
    pages.push(Page::fresh(PageKind::Meta))?;
    let mut centres = Page::fresh(PageKind::IvfLists);
    centres.add_item(&CENTRE);
    pages.push(centres)?;
    pages.push(Page::fresh(PageKind::IvfEntries))?;
    Ok(PageList { pages })
}

/// The core of an index of one list with three blocks, whose next event has the number 5.
pub fn list_core(alloc: Global) -> Core
    ensures blocks { result.summary.blocks ≡ 3 }
    ensures bits { result.params.bits ≡ 4 }
{
    list_core_of(alloc, 3)
}

/// The same, of an index with so many blocks.
fn list_core_of(alloc: Global, blocks: u32) -> Core
    ensures blocks { result.summary.blocks ≡ blocks }
    ensures bits { result.params.bits ≡ 4 }
{
    let summary = Summary {
        blocks,
        entry: None,
        level: 0,
        hint: 0,
        doomed: 0,
    };
    let log = Log::over(alloc, 1, Area::Log0, 40, 0);
    Core::over(alloc, one_list(), summary, log, 5)
}

pub fn tid(block: u32, off: u16) -> Tid {
    Tid {
        block: block.min(9),
        off: off.max(1),
    }
}

fn row(off: u16) -> HeapId {
    HeapId {
        block: 5,
        off: off.max(1),
    }
}

/// A node of level 0 with four empty slots.
pub fn new_node(alloc: Global) -> Result<NewNode, Fail> {
    let mut lists = Listed::new(alloc);
    lists.extend_from_slice(&[None, None, None, None])?;
    Ok(NewNode {
        level: 0,
        id: row(6),
        bits: read_bits(alloc, "0110")?,
        lists,
    })
}

/// What desk 7 is told.
pub fn told_by(
    alloc: Global,
    core: &mut Core,
    pages: &mut PageList,
    ask: &mut Ask,
) -> Result<Told, Fail>
    requires { core.old.summary.blocks ≡ vec_len pages.old.pages }
    ensures { OnOk result (core.new.summary.blocks ≡ vec_len pages.new.pages) }
{
    let mut told = Told::make(alloc, graph())?;
    core.change(7, ask, &mut told, pages)?;
    Ok(told)
}

/// The word alone.
fn word(alloc: Global, core: &mut Core, pages: &mut PageList, mut ask: Ask) -> Result<Word, Fail>
    requires { core.old.summary.blocks ≡ vec_len pages.old.pages }
    ensures { OnOk result (core.new.summary.blocks ≡ vec_len pages.new.pages) }
{
    let told = told_by(alloc, core, pages, &mut ask)?;
    Ok(told.word)
}

/// Beside two blocks a new node comes to stand on block 2, by the event of number 5; the next one
/// beside it, by that of number 6.
#[test]
fn new_nodes(rt: HostRuntime) -> Result<(), Fail> {
    let alloc = rt.alloc();
    let mut pages = two_pages(alloc)?;
    let mut core = core(alloc, 0);
    let mut ask = Ask::PutNew {
        node: new_node(alloc)?,
    };
    let told = told_by(alloc, &mut core, &mut pages, &mut ask)?;
    assert!(rt; told.word == Word::Done && told.at == 0 && told.tid == Some(tid(2, 1)));
    assert!(rt; told.list_at == Some(tid(2, 2)) && told.version == 1 && matches!(ask, Ask::Spent));
    assert!(rt; core.acts().len() == 1 && core.summary().blocks == 3 && number_on(&pages, 2) == 5);
    let mut beside = Ask::Put {
        block: 2,
        node: new_node(alloc)?,
    };
    let told = told_by(alloc, &mut core, &mut pages, &mut beside)?;
    assert!(rt; told.word == Word::Done && told.at == 1 && told.tid == Some(tid(2, 3)));
    assert!(rt; core.acts().len() == 2 && core.summary().blocks == 3 && number_on(&pages, 2) == 6);
    Ok(())
}

/// An index with one node, at 2/1 with its list at 2/2.
fn one_node(alloc: Global, core: &mut Core, pages: &mut PageList) -> Result<(), Fail>
    requires { core.old.summary.blocks ≡ vec_len pages.old.pages }
    ensures { OnOk result (core.new.summary.blocks ≡ vec_len pages.new.pages) }
{
    let put = Ask::PutNew {
        node: new_node(alloc)?,
    };
    word(alloc, core, pages, put)?;
    Ok(())
}

fn join(version: u8) -> Ask {
    Ask::Join {
        at: tid(2, 1),
        version,
        id: row(8),
    }
}

/// A row joins the node that was read; one of another version is stale, and the ask stays.
#[test]
fn a_row_joins(rt: HostRuntime) -> Result<(), Fail> {
    let alloc = rt.alloc();
    let mut pages = two_pages(alloc)?;
    let mut core = core(alloc, 0);
    one_node(alloc, &mut core, &mut pages)?;
    assert!(rt; word(alloc, &mut core, &mut pages, join(1))? == Word::Done);
    let mut stale = join(2);
    let told = told_by(alloc, &mut core, &mut pages, &mut stale)?;
    assert!(rt; told.word == Word::Stale && told.at == 2 && core.acts().len() == 2);
    assert!(rt; matches!(stale, Ask::Join { version: 2, .. }) && number_on(&pages, 2) == 6);
    Ok(())
}

/// The row of a node goes: it is doomed, and takes no row. Once it is deleted a new node gets its
/// places, with the next version.
#[test]
fn a_node_goes(rt: HostRuntime) -> Result<(), Fail> {
    let alloc = rt.alloc();
    let mut pages = two_pages(alloc)?;
    let mut core = core(alloc, 0);
    one_node(alloc, &mut core, &mut pages)?;
    let mut gone = Ask::Drop {
        at: tid(2, 1),
        version: 1,
        gone: 1,
    };
    let told = told_by(alloc, &mut core, &mut pages, &mut gone)?;
    assert!(rt; told.word == Word::Done && told.left == 0 && core.summary().doomed == 1);
    assert!(rt; word(alloc, &mut core, &mut pages, join(1))? == Word::NotJoined);
    let mark = Ask::Mark {
        at: tid(2, 1),
        list_at: tid(2, 2),
        version: 1,
    };
    assert!(rt; word(alloc, &mut core, &mut pages, mark)? == Word::Done);
    let mut again = Ask::Put {
        block: 2,
        node: new_node(alloc)?,
    };
    let told = told_by(alloc, &mut core, &mut pages, &mut again)?;
    assert!(rt; told.tid == Some(tid(2, 1)) && told.version == 2 && core.summary().doomed == 0);
    Ok(())
}

fn link(version: u8) -> Ask {
    Ask::Link {
        at: tid(2, 1),
        list_at: tid(2, 2),
        level: 0,
        version,
        layer: 0,
        slot: 3,
        held: None,
        to: tid(2, 1),
    }
}

/// A slot that was read empty is linked once; then it holds another place than was read.
#[test]
fn slots_of_a_node(rt: HostRuntime) -> Result<(), Fail> {
    let alloc = rt.alloc();
    let mut pages = two_pages(alloc)?;
    let mut core = core(alloc, 0);
    one_node(alloc, &mut core, &mut pages)?;
    assert!(rt; word(alloc, &mut core, &mut pages, link(1))? == Word::Done);
    assert!(rt; word(alloc, &mut core, &mut pages, link(1))? == Word::Changed);
    assert!(rt; word(alloc, &mut core, &mut pages, link(2))? == Word::Stale);
    let NewNode { lists, .. } = new_node(alloc)?;
    let relist = Ask::Relist {
        at: tid(2, 1),
        list_at: tid(2, 2),
        version: 1,
        lists,
    };
    assert!(rt;
        word(alloc, &mut core, &mut pages, relist)? == Word::Done && core.acts().len() == 3
    );
    Ok(())
}

/// A change of a node that was read with another version is stale, and makes no act.
#[test]
fn each_change_is_stale(rt: HostRuntime) -> Result<(), Fail> {
    let alloc = rt.alloc();
    let mut pages = two_pages(alloc)?;
    let mut core = core(alloc, 0);
    one_node(alloc, &mut core, &mut pages)?;
    let gone = Ask::Drop {
        at: tid(2, 1),
        version: 2,
        gone: 1,
    };
    assert!(rt; word(alloc, &mut core, &mut pages, gone)? == Word::Stale);
    let mark = Ask::Mark {
        at: tid(2, 1),
        list_at: tid(2, 2),
        version: 2,
    };
    assert!(rt; word(alloc, &mut core, &mut pages, mark)? == Word::Stale);
    let NewNode { lists, .. } = new_node(alloc)?;
    let relist = Ask::Relist {
        at: tid(2, 1),
        list_at: tid(2, 2),
        version: 2,
        lists,
    };
    assert!(rt;
        word(alloc, &mut core, &mut pages, relist)? == Word::Stale && core.acts().len() == 1
    );
    Ok(())
}

/// A node takes nine rows beside its first, and no eleventh.
#[test]
fn the_eleventh_row_joins_no_node(rt: HostRuntime) -> Result<(), Fail> {
    let alloc = rt.alloc();
    let mut pages = two_pages(alloc)?;
    let mut core = core(alloc, 0);
    one_node(alloc, &mut core, &mut pages)?;
    let mut told = Told::make(alloc, graph())?;
    for _ in 0..9u8 {
        if core.summary().blocks as usize != pages.pages.len() {
            return Err(Fail::new("a page for each block"));
        }
        core.change(7, &mut join(1), &mut told, &mut pages)?;
    }
    assert!(rt; told.word == Word::Done && core.acts().len() == 10);
    if core.summary().blocks as usize != pages.pages.len() {
        return Err(Fail::new("a page for each block"));
    }
    core.change(7, &mut join(1), &mut told, &mut pages)?;
    assert!(rt; told.word == Word::NotJoined && core.acts().len() == 10);
    Ok(())
}

#[test]
fn the_entry_point_and_the_hint(rt: HostRuntime) -> Result<(), Fail> {
    let alloc = rt.alloc();
    let mut pages = two_pages(alloc)?;
    let mut core = core(alloc, 0);
    one_node(alloc, &mut core, &mut pages)?;
    let entry = Ask::Entry {
        to: Some(tid(2, 1)),
        level: 0,
    };
    assert!(rt; word(alloc, &mut core, &mut pages, entry)? == Word::Done);
    assert!(rt; word(alloc, &mut core, &mut pages, Ask::Hint { block: 2 })? == Word::Done);
    assert!(rt; core.summary().entry == Some(tid(2, 1)) && core.summary().hint == 2);
    assert!(rt;
        number_on(&pages, 0) == 7 && number_on(&pages, 1) == 0 && number_on(&pages, 2) == 5
    );
    Ok(())
}

fn value(alloc: Global) -> Result<Bits, Fail> {
    Ok(read_bits(alloc, "0110")?)
}

fn extend(alloc: Global) -> Result<Ask, Fail> {
    Ok(Ask::Extend {
        list: 0,
        last: 2,
        id: row(7),
        bits: value(alloc)?,
    })
}

/// A row comes on block 2, and one on block 3 behind it, once.
#[test]
fn rows_of_a_list(rt: HostRuntime) -> Result<(), Fail> {
    let alloc = rt.alloc();
    let mut pages = list_pages(alloc)?;
    let mut core = list_core(alloc);
    let add = Ask::Add {
        block: 2,
        id: row(6),
        bits: value(alloc)?,
    };
    assert!(rt;
        word(alloc, &mut core, &mut pages, add)? == Word::Done && number_on(&pages, 2) == 5
    );
    let mut behind = extend(alloc)?;
    let told = told_by(alloc, &mut core, &mut pages, &mut behind)?;
    assert!(rt;
        told.word == Word::Done && told.tid == Some(tid(3, 1)) && core.summary().blocks == 4
    );
    assert!(rt; number_on(&pages, 2) == 6 && number_on(&pages, 3) == 6);
    let mut changed = extend(alloc)?;
    let told = told_by(alloc, &mut core, &mut pages, &mut changed)?;
    assert!(rt; told.word == Word::Changed && told.next == Some(3) && core.acts().len() == 2);
    Ok(())
}

#[test]
fn a_cut_and_an_aim(rt: HostRuntime) -> Result<(), Fail> {
    let alloc = rt.alloc();
    let mut pages = list_pages(alloc)?;
    let mut core = list_core(alloc);
    let add = Ask::Add {
        block: 2,
        id: row(6),
        bits: value(alloc)?,
    };
    assert!(rt; word(alloc, &mut core, &mut pages, add)? == Word::Done);
    let mut gone = Listed::new(alloc);
    gone.extend_from_slice(&[1])?;
    let cut = Ask::Cut { block: 2, gone };
    assert!(rt;
        word(alloc, &mut core, &mut pages, cut)? == Word::Done && number_on(&pages, 2) == 6
    );
    let aim = Ask::Aim { list: 0, block: 2 };
    assert!(rt;
        word(alloc, &mut core, &mut pages, aim)? == Word::Done && number_on(&pages, 1) == 7
    );
    Ok(())
}

/// Whether a node of four places and four slots is to be put on new blocks.
fn is_new_node(ask: &Ask) -> bool {
    match ask {
        Ask::PutNew { node } => node.bits.count() == 4 && node.lists.len() == 4,
        _ => false,
    }
}

/// The node takes 52 bytes and 5 more of the log. With 56 left it is refused, and stays in the ask.
#[test]
fn a_full_log(rt: HostRuntime) -> Result<(), Fail> {
    let alloc = rt.alloc();
    let mut pages = two_pages(alloc)?;
    let mut core = core(alloc, LOG_ROOM - 56);
    let mut ask = Ask::PutNew {
        node: new_node(alloc)?,
    };
    let mut told = Told::make(alloc, graph())?;
    let refused = core.change(7, &mut ask, &mut told, &mut pages);
    let used = LOG_ROOM - 56;
    assert!(rt; refused == Err(StepFault::LogFull { used, size: 52 }));
    assert!(rt; core.acts().is_empty() && core.number() == 5 && pages.pages.len() == 2);
    assert!(rt; is_new_node(&ask));
    Ok(())
}

/// The pages of an index with so many blocks and no node.
fn many_pages(alloc: Global, count: u32) -> Result<PageList, Fail>
    ensures { IfOk result (λ pages. vec_len pages.pages ≡ count) }
{
    let mut pages = Vec::with_capacity(alloc, count as usize + 1)?;
    let mut meta = Page::fresh(PageKind::Meta);
    meta.add_item(&META);
    pages.push(meta)?;
    for _ in 1..count {
        pages.push(Page::fresh(PageKind::Hnsw))?;
    }
    if pages.len() != count as usize {
        return Err(Fail::new("a page for each block"));
    }
    Ok(PageList { pages })
}

/// The board has room for one block more, and then for none.
#[test]
fn a_full_board(rt: HostRuntime) -> Result<(), Fail> {
    let alloc = rt.alloc();
    let mut pages = many_pages(alloc, MOST_BLOCKS - 1)?;
    let mut core = core_of(alloc, MOST_BLOCKS - 1, 0);
    let put = Ask::PutNew {
        node: new_node(alloc)?,
    };
    assert!(rt; word(alloc, &mut core, &mut pages, put)? == Word::Done);
    let mut more = Ask::PutNew {
        node: new_node(alloc)?,
    };
    let told = told_by(alloc, &mut core, &mut pages, &mut more)?;
    assert!(rt; told.word == Word::Full && told.blocks == MOST_BLOCKS && told.need == 1);
    assert!(rt; is_new_node(&more) && core.acts().len() == 1 && pages.pages.len() == 32768);
    Ok(())
}

/// So many pages: that of one list, and empty ones.
fn many_list_pages(alloc: Global, count: u32) -> Result<PageList, Fail>
    ensures { IfOk result (λ pages. vec_len pages.pages ≡ count) }
{
    let PageList { mut pages } = list_pages(alloc)?;
    for _ in 3..count {
        pages.push(Page::fresh(PageKind::IvfEntries))?;
    }
    if pages.len() != count as usize {
        return Err(Fail::new("a page for each block"));
    }
    Ok(PageList { pages })
}

/// A list does not grow where an index has as many blocks as it may.
#[test]
fn a_list_on_a_full_board(rt: HostRuntime) -> Result<(), Fail> {
    let alloc = rt.alloc();
    let mut pages = many_list_pages(alloc, MOST_BLOCKS)?;
    let mut core = list_core_of(alloc, MOST_BLOCKS);
    let mut more = extend(alloc)?;
    let told = told_by(alloc, &mut core, &mut pages, &mut more)?;
    assert!(rt; told.word == Word::Full && told.next.is_none());
    assert!(rt; matches!(more, Ask::Extend { .. }));
    assert!(rt; core.acts().is_empty() && core.number() == 5 && pages.pages.len() == 32768);
    Ok(())
}

/// The word to the last of so many nodes that are put on block 1.
fn put_on(alloc: Global, core: &mut Core, pages: &mut PageList, count: u32) -> Result<Word, Fail>
    requires { core.old.summary.blocks ≡ vec_len pages.old.pages }
    ensures { OnOk result (core.new.summary.blocks ≡ vec_len pages.new.pages) }
{
    let mut last = Word::Done;
    'more: for _ in 0..count {
        let node = new_node(alloc)?;
        last = word(alloc, core, pages, Ask::Put { block: 1, node })?;
    }
    Ok(last)
}

/// A node takes 92 bytes of its page, and its list 36: of the 8,160 bytes 63 nodes leave 96.
#[test]
fn a_page_without_room(rt: HostRuntime) -> Result<(), Fail> {
    let alloc = rt.alloc();
    let mut pages = two_pages(alloc)?;
    let mut core = core(alloc, 0);
    assert!(rt; put_on(alloc, &mut core, &mut pages, 63)? == Word::Done);
    assert!(rt; put_on(alloc, &mut core, &mut pages, 1)? == Word::NoRoom);
    assert!(rt; core.acts().len() == 63 && core.number() == 68 && number_on(&pages, 1) == 67);
    Ok(())
}
