//! Where a new node can be put.
#![tactic(auto, using(crate::proofs::PutWords::apart_out))]

ghost use Rattle.std.specs.Prelude.{◌≡◌, ◌≤◌, ◌<◌, ◌+◌, ◌^◌, ℕ, List, nat_le, length, Option, Some, None, if◌then◌else◌};
ghost use Rattle.std.specs.Option.{option_copied, option_and_then};
ghost use Rattle.index_sizes.specs.declared.limits.TheConstants.{MOST_BLOCKS as MostBlocks};
ghost use Rattle.vec_names.specs.Params.{IsInRange};
ghost use Rattle.page_bytes.specs.Content.{item_at};
ghost use Rattle.vec_graph.specs.declared.graph.Graph.{Graph};
ghost use Rattle.vec_graph.specs.Places.{fresh_at, new_blocks, new_place};
ghost use Rattle.page_words.specs.Placing.{need_of_element, need_of_list, reused_head, reused_item, reused_from, fresh_together, fresh_apart, place_with};

use index_sizes::{MOST_BLOCKS, PAGE_ROOM, element_size, item_need, links_size, slots_of_level};
use page_bytes::Page;
use page_redo::head_of;
use vec_graph::Place;
use vec_names::{Params, Tid};
use vec_tuples::ElementHead;

/// A node that is to be put: the block where room for it is looked for, and its level.
#[derive(Clone, Copy)]
pub struct PlaceAsk {
    pub block: u32,
    pub level: u8,
}

/// The places for a node of a level on the page of a block, of which the page behind it is given too, if there is one: those of
/// the deleted element of this level at the lowest offset; else the next two offsets; or, where the two tuples do not fit one
/// page, the next offset of each of both pages.
pub fn place_on(page: &Page, behind: Option<&Page>, params: &Params, ask: PlaceAsk) -> Option<Place>
    requires { IsInRange params.now }
    ensures { result ≡ place_with params.now ask.block ask.level page.now (option_copied behind.entry) }
{
    if let Some(place) = reused(page, params, ask) {
        return Some(place);
    }
    if element_need(params) + list_need(params, ask.level) <= PAGE_ROOM as u64 {
        return together(page, params, ask);
    }
    apart(page, behind, params, ask)
}

/// The places of the deleted element of this level at the lowest offset.
fn reused(page: &Page, params: &Params, ask: PlaceAsk) -> Option<Place>
    requires { IsInRange params.now }
    ensures { result ≡ reused_from params.now ask.block ask.level 1 page.now.items }
{
    'items: for before in 0..page.count() {
        if let Some(place) = reused_at(page, params, ask, before + 1) {
            return Some(place);
        }
    }
    None
}

fn reused_at(page: &Page, params: &Params, ask: PlaceAsk, off: u16) -> Option<Place>
    requires { IsInRange params.now }
    ensures { (x : List ℕ) → item_at page.now.items off ≡ Some x
        → result ≡ reused_item params.now ask.block ask.level off x }
{
    match page.item(off) {
        Some(item) => reused_by(head_of(item, params), Tid::new(ask.block, off), ask.level),
        None => None,
    }
}

fn reused_by(head: Option<ElementHead>, at: Option<Tid>, level: u8) -> Option<Place>
    ensures { result ≡ option_and_then (reused_head level at) head }
{
    let head = head?;
    if !head.deleted || head.level != level {
        return None;
    }
    Some(Place {
        at: at?,
        list_at: head.list_at,
        version: head.version,
    })
}

fn together(page: &Page, params: &Params, ask: PlaceAsk) -> Option<Place>
    requires { IsInRange params.now }
    ensures { result ≡ fresh_together params.now ask.block ask.level page.now }
{
    if element_need(params) + list_need(params, ask.level) > u64::from(page.free()) {
        return None;
    }
    let next = next_off(page);
    fresh(ask.block, next, ask.block, next + 1)
}

fn apart(page: &Page, behind: Option<&Page>, params: &Params, ask: PlaceAsk) -> Option<Place>
    requires { IsInRange params.now }
    ensures { result ≡ fresh_apart params.now ask.block ask.level page.now (option_copied behind.entry) }
{
    let Some(behind) = behind else {
        return None;
    };
    if element_need(params) > u64::from(page.free())
        || list_need(params, ask.level) > u64::from(behind.free())
    {
        return None;
    }
    if ask.block >= MOST_BLOCKS {
        return None;
    }
    fresh(ask.block, next_off(page), ask.block + 1, next_off(behind))
}

/// The offset behind the last item of a page.
fn next_off(page: &Page) -> u16
    ensures told { result ≡ length page.now.items + 1 }
    ensures low { result ≤ 2041 }
{
    let _bytes = page.bytes();
    page.count() + 1
}

/// A fresh place, of version 1; None where a block or an offset is out of range.
fn fresh(block: u32, off: u16, list_block: u32, list_off: u16) -> Option<Place>
    ensures { result ≡ fresh_at block off list_block list_off }
{
    Some(Place {
        at: Tid::new(block, off)?,
        list_at: Tid::new(list_block, list_off)?,
        version: 1,
    })
}

/// How many new blocks a node of this level takes.
pub fn new_blocks(params: &Params, level: u8) -> u32
    requires { IsInRange params.now }
    ensures told { (g : Graph) → g.params ≡ params.now → result ≡ new_blocks g level }
    ensures few { result ≤ 2 }
{
    if element_need(params) + list_need(params, level) <= PAGE_ROOM as u64 {
        1
    } else {
        2
    }
}

/// The place for a node of this level on new blocks behind so many, where the index may have these.
pub fn new_place(params: &Params, blocks: u32, level: u8) -> Option<Place>
    requires params { IsInRange params.now }
    requires few { blocks ≤ MostBlocks }
    ensures { (g : Graph) → g.params ≡ params.now → g.blocks ≡ blocks → result ≡ new_place g level }
{
    if element_need(params) + list_need(params, level) <= PAGE_ROOM as u64 {
        return fresh(blocks, 1, blocks, 2);
    }
    fresh(blocks, 1, blocks + 1, 1)
}

/// What the element of a node takes of a page, in bytes.
fn element_need(params: &Params) -> u64
    requires { IsInRange params.now }
    ensures told { result ≡ need_of_element params.now }
    ensures small { result < 2 ^ 31 }
{
    item_need(element_size(params.bits))
}

/// What the neighbour tuple of a node of this level takes of a page, in bytes.
fn list_need(params: &Params, level: u8) -> u64
    ensures told { result ≡ need_of_list params.now level }
    ensures small { result < 2 ^ 31 }
{
    item_need(links_size(slots_of_level(params.m, level)))
}
