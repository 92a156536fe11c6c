//! The first block that breaks a rule.

ghost use Rattle.std.specs.Prelude.{◌≡◌, ℕ, ◌<◌, ◌≤◌, ◌+◌, ◌^◌, true, List, MatchOption, length, slice_get, Some};
ghost use Rattle.std.specs.Bool.{MatchBool};
ghost use Rattle.vec_names.specs.declared.tid.Tid.{Tid as Place};
ghost use Rattle.graph_pages.specs.Standing.{item_in, pointers, is_node_item, IsNodePage};
ghost use Rattle.graph_pages.specs.Decoding.{items_of, Tells};

use crate::block_rules::is_node_item;
use crate::decoded::Item;
use crate::list_pointers::Named;
use crate::page_places::{page_at, place_on};
use index_sizes::{LAST_BLOCK, MOST_BLOCKS};
use page_bytes::Page;
use page_redo::holds_nodes;
use vec_names::{Listed, Mapped, Params};

/// The first block from 1 on that breaks a rule.
pub fn first_broken(
    pages: &[Page],
    params: &Params,
    items: &Listed<Listed<Item>>,
    named: &Mapped<Named>,
) -> Option<u32>
    requires few { length pages.now ≤ MOST_BLOCKS }
    requires items { items.now ≡ items_of params.now pages.now }
    requires named { Tells named.now (pointers params.now pages.now) }
    ensures { MatchOption result
        ((block : ℕ) → 1 ≤ block → IsNodePage params.now pages.now block)
        (λ broken. (1 ≤ broken) × (¬ IsNodePage params.now pages.now broken)
        × ((lower : ℕ) → 1 ≤ lower → lower < broken → IsNodePage params.now pages.now lower)) }
{
    for block in 1..pages.len() as u32 {
        if !is_node_page(pages, params, items, named, block) {
            return Some(block);
        }
    }
    None
}

fn is_node_page(
    pages: &[Page],
    params: &Params,
    items: &Listed<Listed<Item>>,
    named: &Mapped<Named>,
    block: u32,
) -> bool
    requires low { block ≤ LAST_BLOCK }
    requires items { items.now ≡ items_of params.now pages.now }
    requires named { Tells named.now (pointers params.now pages.now) }
    ensures { MatchBool result (IsNodePage params.now pages.now block) (¬ IsNodePage params.now pages.now block) }
{
    match page_at(pages, block) {
        Some(page) => holds_nodes(page) && are_node_items(pages, params, items, named, block, page),
        None => true,
    }
}

fn are_node_items(
    pages: &[Page],
    params: &Params,
    items: &Listed<Listed<Item>>,
    named: &Mapped<Named>,
    block: u32,
    page: &Page,
) -> bool
    requires low { block ≤ LAST_BLOCK }
    requires items { items.now ≡ items_of params.now pages.now }
    requires named { Tells named.now (pointers params.now pages.now) }
    requires there { slice_get pages.now block ≡ Some page.now }
    ensures { MatchBool result
        ((at : Place) (x : List ℕ) → at.block ≡ block → item_in pages.now at ≡ Some x → is_node_item params.now pages.now at ≡ true)
        (¬ ((at : Place) (x : List ℕ) → at.block ≡ block → item_in pages.now at ≡ Some x → is_node_item params.now pages.now at ≡ true)) }
{
    for i in 0..page.count() {
        if !is_node_item(items, named, params, place_on(block, i)) {
            return false;
        }
    }
    true
}
