//! The nodes that pages hold.

ghost use Rattle.std.specs.Prelude.{◌≡◌, ◌<◌, ◌≤◌, ◌+◌, ◌^◌, OnOk, IfOk, length, slice_get, Some};
ghost use Rattle.std.specs.FinMap.{get};
ghost use Rattle.vec_names.specs.declared.tid.Tid.{Tid as Place};
ghost use Rattle.vec_names.specs.Params.{IsInRange};
ghost use Rattle.vec_tuples.specs.Reading.{element, links};
ghost use Rattle.page_redo.specs.PageTuples.{in_whole};
ghost use Rattle.graph_pages.specs.Standing.{element_in, links_in, node_in, node_with};
ghost use Rattle.graph_pages.specs.Filling.{IsFilledTo, with_node};

use crate::page_places::{item_in, place_on};
use index_sizes::{LAST_BLOCK, MOST_BLOCKS};
use page_bytes::Page;
use std::alloc::{AllocError, Global};
use vec_graph::Node;
use vec_names::{Listed, Mapped, Params, Tid};
use vec_tuples::{Element, Links, TupleFault, read_element, read_list};

/// The nodes of the elements on all pages, by their places.
pub fn nodes_of(alloc: Global, pages: &[Page], params: &Params) -> Result<Mapped<Node>, AllocError>
    requires few { length pages.now ≤ MOST_BLOCKS }
    requires in_range { IsInRange params.now }
    ensures { IfOk result (λ nodes. (at : Place) → get nodes at ≡ node_in params.now pages.now at) }
{
    let mut nodes = Mapped::new(alloc);
    for block in 0..pages.len() {
        add_nodes(
            alloc,
            pages,
            params,
            block as u32,
            &pages[block],
            &mut nodes,
        )?;
    }
    Ok(nodes)
}

fn add_nodes(
    alloc: Global,
    pages: &[Page],
    params: &Params,
    block: u32,
    page: &Page,
    nodes: &mut Mapped<Node>,
) -> Result<(), AllocError>
    requires low { block ≤ LAST_BLOCK }
    requires in_range { IsInRange params.now }
    requires there { slice_get pages.now block ≡ Some page.now }
    requires before { IsFilledTo params.now pages.now block 0 nodes.old }
    ensures { OnOk result (IsFilledTo params.now pages.now (block + 1) 0 nodes.new) }
{
    for i in 0..page.count() {
        add_node(alloc, pages, params, place_on(block, i), nodes)?;
    }
    Ok(())
}

fn add_node(
    alloc: Global,
    pages: &[Page],
    params: &Params,
    at: Tid,
    nodes: &mut Mapped<Node>,
) -> Result<(), AllocError>
    requires { IsInRange params.now }
    ensures { OnOk result (nodes.new ≡ with_node nodes.old at (node_in params.now pages.now at)) }
{
    match node_in(alloc, pages, params, at)? {
        Some(node) => nodes.insert(at, node),
        None => Ok(()),
    }
}

/// The node of the element at a place, if one stands there and its list is there.
fn node_in(
    alloc: Global,
    pages: &[Page],
    params: &Params,
    at: Tid,
) -> Result<Option<Node>, AllocError>
    requires { IsInRange params.now }
    ensures { IfOk result (λ node. node ≡ node_in params.now pages.now at) }
{
    let Some(element) = element_in(alloc, pages, params, at)? else {
        return Ok(None);
    };
    let Some(links) = links_in(alloc, pages, params, element.list_at)? else {
        return Ok(None);
    };
    Ok(Some(node_with(alloc, element, links)?))
}

fn node_with(alloc: Global, element: Element, links: Links) -> Result<Node, AllocError>
    ensures { IfOk result (λ node. node ≡ node_with element links) }
{
    let ids = Listed::from_vec(Vec::from_slice(alloc, element.ids.as_slice())?);
    Ok(Node {
        level: element.level,
        version: element.version,
        deleted: element.deleted,
        bits: element.bits,
        ids,
        list_at: element.list_at,
        slots: links.tids,
    })
}

fn element_in(
    alloc: Global,
    pages: &[Page],
    params: &Params,
    at: Tid,
) -> Result<Option<Element>, AllocError>
    requires { IsInRange params.now }
    ensures { IfOk result (λ e. e ≡ element_in params.now pages.now at) }
{
    match item_in(pages, at) {
        Some(item) => element_of(alloc, item, params),
        None => Ok(None),
    }
}

/// The element that an item is as a whole, if it is one.
fn element_of(alloc: Global, item: &[u8], params: &Params) -> Result<Option<Element>, AllocError>
    requires { IsInRange params.now }
    ensures { IfOk result (λ e. e ≡ in_whole (element params.now item.now)) }
{
    match read_element(alloc, item, params) {
        Ok(element) => Ok(Some(element)),
        Err(TupleFault::Memory) => Err(AllocError),
        Err(TupleFault::Bad { .. }) => Ok(None),
    }
}

fn links_in(
    alloc: Global,
    pages: &[Page],
    params: &Params,
    at: Tid,
) -> Result<Option<Links>, AllocError>
    requires { IsInRange params.now }
    ensures { IfOk result (λ l. l ≡ links_in params.now pages.now at) }
{
    match item_in(pages, at) {
        Some(item) => links_of(alloc, item, params),
        None => Ok(None),
    }
}

/// The neighbour tuple that an item is as a whole, if it is one.
fn links_of(alloc: Global, item: &[u8], params: &Params) -> Result<Option<Links>, AllocError>
    requires { IsInRange params.now }
    ensures { IfOk result (λ l. l ≡ in_whole (links params.now item.now)) }
{
    match read_list(alloc, item, params) {
        Ok(links) => Ok(Some(links)),
        Err(TupleFault::Memory) => Err(AllocError),
        Err(TupleFault::Bad { .. }) => Ok(None),
    }
}
