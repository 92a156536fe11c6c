//! The items of pages, each decoded once: what the rules of the blocks ask of them.

ghost use Rattle.std.specs.Prelude.{◌≡◌, ℕ, ◌&&◌, ◌+◌, ◌-◌, List, None, Some, IfOk, length, map, slice_get};
ghost use Rattle.std.specs.List.{list_all};
ghost use Rattle.vec_names.specs.Params.{IsInRange};
ghost use Rattle.page_bytes.specs.Content.{item_at};
ghost use Rattle.vec_tuples.specs.declared.links.Links.{Links};
ghost use Rattle.vec_tuples.specs.Spelling.{links_bytes};
ghost use Rattle.vec_tuples.specs.Reading.{links};
ghost use Rattle.page_redo.specs.PageTuples.{in_whole};
ghost use Rattle.graph_pages.specs.Standing.{is_slot_below};
ghost use Rattle.graph_pages.specs.Decoding.{decoded, item_of, items_on, items_of, found};

use page_bytes::Page;
use page_redo::{head_of, links_head_of};
use std::alloc::{AllocError, Global};
use vec_names::{Listed, Params, Tid};
use vec_tuples::slot;

/// What stands at a place of the pages.
#[derive(Clone, Copy)]
pub enum Item {
    Element(ElementItem),
    List(ListItem),
    Neither,
}

/// An element, but for its rows and its value.
#[derive(Clone, Copy)]
pub struct ElementItem {
    pub level: u8,
    pub version: u8,
    pub deleted: bool,
    pub list_at: Tid,
}

/// A neighbour tuple, and whether each of its slots names a place on the blocks that there are, or none.
#[derive(Clone, Copy)]
pub struct ListItem {
    pub version: u8,
    pub deleted: bool,
    pub count: u16,
    pub below: bool,
}

/// The items of all pages, block by block and offset by offset.
pub fn decoded(
    alloc: Global,
    pages: &[Page],
    params: &Params,
) -> Result<Listed<Listed<Item>>, AllocError>
    requires { IsInRange params.now }
    ensures { IfOk result (λ items. items ≡ items_of params.now pages.now) }
{
    let mut items = Listed::new(alloc);
    for page in pages {
        items.push(items_on(alloc, page, params, pages.len())?)?;
    }
    Ok(items)
}

fn items_on(
    alloc: Global,
    page: &Page,
    params: &Params,
    blocks: usize,
) -> Result<Listed<Item>, AllocError>
    requires { IsInRange params.now }
    ensures { IfOk result (λ items. items ≡ items_on params.now blocks page.now) }
{
    let mut items = Listed::new(alloc);
    for i in 0..page.count() {
        items.push(item_on(page, i + 1, params, blocks))?;
    }
    Ok(items)
}

fn item_on(page: &Page, off: u16, params: &Params, blocks: usize) -> Item
    requires { IsInRange params.now }
    ensures { (x : List ℕ) → item_at page.now.items off ≡ Some x → result ≡ item_of params.now blocks x }
{
    match page.item(off) {
        Some(item) => item_of(item, params, blocks),
        None => Item::Neither,
    }
}

fn item_of(item: &[u8], params: &Params, blocks: usize) -> Item
    requires { IsInRange params.now }
    ensures { result ≡ item_of params.now blocks item.now }
{
    match head_of(item, params) {
        Some(head) => Item::Element(ElementItem {
            level: head.level,
            version: head.version,
            deleted: head.deleted,
            list_at: head.list_at,
        }),
        None => list_of(item, params, blocks),
    }
}

fn list_of(item: &[u8], params: &Params, blocks: usize) -> Item
    requires { IsInRange params.now }
    ensures { result ≡ decoded blocks None (in_whole (links params.now item.now)) }
{
    match links_head_of(item, params) {
        Some(head) => Item::List(ListItem {
            version: head.version,
            deleted: head.deleted,
            count: head.count,
            below: are_slots_below(item, head.count, blocks),
        }),
        None => Item::Neither,
    }
}

/// Whether each of the slots of the neighbour tuple that the bytes spell names a place below so many blocks, or none.
fn are_slots_below(item: &[u8], count: u16, blocks: usize) -> bool
    requires { (l : Links) × (item.now ≡ links_bytes l) × (count ≡ length l.tids) }
    ensures { (l : Links) → item.now ≡ links_bytes l → result ≡ list_all (is_slot_below blocks) l.tids }
{
    for i in 0..count {
        if !is_slot_below(blocks, slot(item, i)) {
            return false;
        }
    }
    true
}

pub fn is_slot_below(blocks: usize, slot: Option<Tid>) -> bool
    ensures { result ≡ is_slot_below blocks slot }
{
    match slot {
        Some(to) => (to.block as usize) < blocks,
        None => true,
    }
}

/// The item at a place, if there is one.
pub fn found(items: &Listed<Listed<Item>>, at: Tid) -> Option<Item>
    ensures { result ≡ found items.now at }
{
    match items.get(at.block as usize) {
        Some(on_block) => on_block.get(at.off as usize - 1).copied(),
        None => None,
    }
}
