use crate::counting::{is_whole, joins, puts, stand_once};
use crate::drawing::insert_drawn;
use crate::insert_desks::{desk, params};
use empty_index::empty_index;
use graph_judge::audit_hnsw;
use graph_pages::graph_of;
use page_bytes::Page;
use rand_core::SeedableRng;
use rand_pcg::Pcg64;
use std::alloc::Global;
use std::test::*;
use vec_board::Core;
use vec_graph::Graph;
use vec_history::Act;

// The graph of these pages.
fn graph(alloc: Global, pages: &[Page]) -> Result<Graph, Fail> {
    if pages.len() > 32_768 {
        return Err(Fail::new("few pages"));
    }
    Ok(graph_of(alloc, pages)?)
}

// The pages that an index has after the inserts of rows from this number up to the next, and the core with their acts.
fn inserted(
    alloc: Global,
    pages: Vec<Page>,
    seed: u64,
    from: u32,
    to: u32,
) -> Result<(Core, Vec<Page>), Fail> {
    let mut desk = desk(alloc, pages)?;
    let mut words = Pcg64::seed_from_u64(seed);
    insert_drawn(alloc, &mut desk, &mut words, from, to)?;
    let (core, pages, _) = desk.into_board().into_core();
    Ok((core, pages))
}

/// By the judge all acts of three hundred inserts are legal.
#[test]
fn the_first_inserts_are_legal(rt: HostRuntime) -> Result<(), Fail> {
    let alloc = rt.alloc();
    let pages = empty_index(alloc, params())?;
    let base = graph(alloc, pages.as_slice())?;
    let (core, _) = inserted(alloc, pages, 1, 0, 300)?;
    Ok(audit_hnsw(alloc, &base, core.acts())?)
}

// The pages after so many inserts show the rows, and a node for each that was put.
fn show(alloc: Global, graph: &Graph, acts: &[Act], count: u32) -> Result<(), Fail> {
    let puts = puts(acts);
    if puts != graph.nodes.len() || joins(acts) != (count as usize).saturating_sub(puts) {
        return Err(Fail::new("a Put or a Join for each row"));
    }
    if !stand_once(alloc, graph, count)? {
        return Err(Fail::new("each row in one node"));
    }
    if !is_whole(graph) {
        return Err(Fail::new("an entry point of the highest level, and slots that name nodes"));
    }
    Ok(())
}

// The acts of two inserts more are legal over the graph of these pages.
fn go_on(alloc: Global, pages: Vec<Page>, base: &Graph, from: u32) -> Result<(), Fail> {
    let (core, _) = inserted(alloc, pages, 2, from, from.saturating_add(2))?;
    Ok(audit_hnsw(alloc, base, core.acts())?)
}

fn ten_thousand(alloc: Global) -> Result<(), Fail> {
    let pages = empty_index(alloc, params())?;
    let (core, pages) = inserted(alloc, pages, 1, 0, 10_000)?;
    let graph = graph(alloc, pages.as_slice())?;
    show(alloc, &graph, core.acts(), 10_000)?;
    go_on(alloc, pages, &graph, 10_000)
}

/// Ten thousand rows come to a board. The pages stand for a graph that has each row in one node and a node for each Put, whose entry
/// point has the highest level, and whose slots name nodes; and over it the acts of two inserts more are legal by the judge.
#[test]
fn ten_thousand_rows_stand_on_pages(rt: HostRuntime) -> Result<(), Fail> {
    ten_thousand(rt.alloc())
}
