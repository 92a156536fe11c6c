//! A new node: its element and its neighbour tuple, at new places or over those of a deleted node.

ghost use Rattle.std.specs.Prelude.{◌≡◌, ◌<◌, ◌≤◌, ◌+◌, ◌*◌, ◌/◌, ◌&&◌, ◌==◌, ◌∷◌, [], false, nat_le, length, List, Bool, ℕ};
ghost use Rattle.std.specs.Option.{option_map};
ghost use Rattle.index_sizes.specs.Sizes.{element_size, links_size};
ghost use Rattle.vec_names.specs.Params.{IsInRange};
ghost use Rattle.page_bytes.specs.Content.{item_at};
ghost use Rattle.vec_tuples.specs.declared.element.ElementHead.{ElementHead as ElementHeads};
ghost use Rattle.vec_tuples.specs.Spelling.{element_bytes, element_with, head_with, links_bytes, links_with};
ghost use Rattle.page_redo.specs.PageTuples.{added, element_at, links_at};
ghost use Rattle.page_redo.specs.PageChanges.{if_so, put, put_element, put_links, is_node, is_old_element, are_old_links};
ghost use Rattle.page_redo.specs.OfParts.{IsMade, node_of};

use crate::items::{head_at, links_head_at};
use crate::page_kinds::is_on_graph;
use crate::tuple_changes::{put_element_over, put_links_over};
use arrayvec::ArrayVec;
use bit_code::Bits;
use index_sizes::{MOST_ITEM, MOST_SLOTS, element_size, links_size, slots_of_level};
use page_bytes::Page;
use vec_names::{HeapId, Params, Tid};
use vec_tuples::{ElementHead, fill_element, fill_links};

/// Adds an item of 1 to 8,156 bytes behind the last one.
pub fn append(page: &mut Page, x: &[u8]) -> Option<()>
    requires some { 0 < length x.now }
    requires small { length x.now ≤ MOST_ITEM }
    ensures { IsMade (added x.now page.old) page.old page.new result }
{
    match page.add_item(x) {
        Some(_) => Some(()),
        None => None,
    }
}

/// How many bytes the item at an offset has, if there is one.
pub fn item_long(page: &Page, off: u16) -> Option<usize>
    ensures { result ≡ option_map (λ x. length x) (item_at page.now.items off) }
{
    match page.item(off) {
        Some(item) => Some(item.len()),
        None => None,
    }
}

/// Adds an item of 1 to 8,156 bytes behind the last one, where the offset is the next.
fn put_behind(page: &mut Page, off: u16, x: &[u8]) -> Option<()>
    requires some { 0 < length x.now }
    requires small { length x.now ≤ MOST_ITEM }
    ensures { IsMade (if_so (off == length page.old.items + 1) (added x.now page.old)) page.old page.new result }
{
    if off == 0 || off - 1 != page.count() {
        return None;
    }
    append(page, x)
}

/// What a Put brings: a node of one row, with its slots, as `lists` of the event has them.
#[derive(Clone, Copy)]
pub struct NewNode<'a> {
    pub at: Tid,
    pub list_at: Tid,
    pub version: u8,
    pub level: u8,
    pub id: HeapId,
    pub bits: &'a Bits,
    pub slots: &'a [Option<Tid>],
}

/// Whether a node of this version and level, with so many places and slots, has tuples.
pub fn is_node(params: &Params, node: NewNode) -> bool
    requires { IsInRange params.now }
    ensures { result ≡ is_node params.now (node_of node.entry) }
{
    node.version >= 1
        && node.bits.count() == params.bits
        && node.slots.len() as u64 == slots_of_level(params.m, node.level)
        && node.slots.len() <= MOST_SLOTS
}

/// Whether the element of a deleted node of this version stands at an offset.
pub fn is_old_element(page: &Page, params: &Params, off: u16, version: u8) -> bool
    requires { IsInRange params.now }
    ensures { result ≡ is_old_element version (element_at params.now page.now off) }
{
    match head_at(page, params, off) {
        Some(head) => head.deleted && head.version == version,
        None => false,
    }
}

/// Whether the neighbour tuple of a deleted node of this version stands at an offset.
pub fn are_old_links(page: &Page, params: &Params, off: u16, version: u8) -> bool
    requires { IsInRange params.now }
    ensures { result ≡ are_old_links version (links_at params.now page.now off) }
{
    match links_head_at(page, params, off) {
        Some(head) => head.deleted && head.version == version,
        None => false,
    }
}

/// The head of a new element, which has one id.
pub fn new_head(node: NewNode) -> ElementHead
    ensures { let n = node.entry in result ≡ head_with n.level false n.version (n.id ∷ []) n.list_at }
{
    let mut ids = ArrayVec::new();
    ids.push(node.id);
    ElementHead {
        level: node.level,
        deleted: false,
        version: node.version,
        ids,
        list_at: node.list_at,
    }
}

/// How many bytes the element of a value has.
pub fn element_long(bits: &Bits) -> usize
    ensures told { result ≡ element_size (length bits.now) }
    ensures small { result ≤ MOST_ITEM }

    // Whatever its head.
    ensures spelled { (h : ElementHeads) → length (element_bytes (element_with h bits.now)) ≡ result }
{
    element_size(bits.count()) as usize
}

/// How many bytes a list of so many slots has.
pub fn links_long(slots: &[Option<Tid>]) -> usize
    requires { length slots.now ≤ MOST_SLOTS }
    ensures told { result ≡ links_size (length slots.now) }
    ensures small { result ≤ MOST_ITEM }
    ensures spelled { (version : ℕ) → length (links_bytes (links_with false version slots.now)) ≡ result }
{
    links_size(slots.len() as u64) as usize
}

/// Puts an element over one that may go and is as long, where it stands; or behind the last item, where the offset is
/// the next.
pub fn place_element(
    page: &mut Page,
    off: u16,
    may_go: bool,
    head: &ElementHead,
    bits: &Bits,
) -> Option<()>
    ensures { IsMade (put off may_go (element_bytes (element_with head.now bits.now)) page.old) page.old page.new result }
{
    let Some(long) = item_long(page, off) else {
        return element_behind(page, off, head, bits);
    };
    if !may_go || long != element_long(bits) {
        return None;
    }
    put_element_over(page, off, head, bits);
    Some(())
}

fn element_behind(page: &mut Page, off: u16, head: &ElementHead, bits: &Bits) -> Option<()>
    ensures { IsMade (if_so (off == length page.old.items + 1) (added (element_bytes (element_with head.now bits.now)) page.old))
        page.old page.new result }
{
    let mut buffer = [0; MOST_ITEM];
    let item = &mut buffer[..element_long(bits)];
    fill_element(head, bits, item);
    put_behind(page, off, item)
}

/// Puts a list over one that may go and is as long, where it stands; or behind the last item, where the offset is the
/// next.
pub fn place_links(
    page: &mut Page,
    off: u16,
    may_go: bool,
    version: u8,
    slots: &[Option<Tid>],
) -> Option<()>
    requires { length slots.now ≤ MOST_SLOTS }
    ensures { IsMade (put off may_go (links_bytes (links_with false version slots.now)) page.old) page.old page.new result }
{
    let Some(long) = item_long(page, off) else {
        return links_behind(page, off, version, slots);
    };
    if !may_go || long != links_long(slots) {
        return None;
    }
    put_links_over(page, off, version, slots);
    Some(())
}

fn links_behind(page: &mut Page, off: u16, version: u8, slots: &[Option<Tid>]) -> Option<()>
    requires { length slots.now ≤ MOST_SLOTS }
    ensures { IsMade (if_so (off == length page.old.items + 1) (added (links_bytes (links_with false version slots.now)) page.old))
        page.old page.new result }
{
    let mut buffer = [0; MOST_ITEM];
    let item = &mut buffer[..links_long(slots)];
    fill_links(false, version, slots, item);
    put_behind(page, off, item)
}

/// The element of a new node, with one id.
pub fn put_element(page: &mut Page, params: &Params, node: NewNode) -> Option<()>
    requires { IsInRange params.now }
    ensures { IsMade (put_element params.now (node_of node.entry) page.old) page.old page.new result }
{
    if !is_on_graph(page, params) || !is_node(params, node) {
        return None;
    }
    let may_go = is_old_element(page, params, node.at.off, node.version);
    let head = new_head(node);
    place_element(page, node.at.off, may_go, &head, node.bits)
}

/// The neighbour tuple of a new node.
pub fn put_links(page: &mut Page, params: &Params, node: NewNode) -> Option<()>
    requires { IsInRange params.now }
    ensures { IsMade (put_links params.now (node_of node.entry) page.old) page.old page.new result }
{
    if !is_on_graph(page, params) || !is_node(params, node) {
        return None;
    }
    let may_go = are_old_links(page, params, node.list_at.off, node.version);
    place_links(page, node.list_at.off, may_go, node.version, node.slots)
}
