//! Events whose two places stand on one page. The second change is judged before the first one is made, so that the page
//! stays where either does not fit.

ghost use Rattle.std.specs.Prelude.{◌≡◌, ◌≤◌, ◌+◌, ◌-◌, length, List, ℕ, Bool, Some, is_some};
ghost use Rattle.std.specs.Option.{option_and_then};
ghost use Rattle.vec_names.specs.Params.{IsInRange};
ghost use Rattle.page_bytes.specs.Content.{Content, item_at, free_of, round8};
ghost use Rattle.page_redo.specs.PageChanges.{put, put_element, put_links, grown, chained};
ghost use Rattle.page_redo.specs.OfParts.{IsMade, node_of, may_put, delete_element, delete_links};

use crate::head_changes::is_current;
use crate::in_place::{Deletion, mark};
use crate::items::links_head_at;
use crate::list_pages::{Growth, chain, grow};
use crate::new_node::{
    NewNode, are_old_links, element_long, is_node, is_old_element, item_long, links_long, new_head,
    place_element, place_links,
};
use crate::page_kinds::is_on_graph;
use crate::tuple_changes::put_no_slots;
use index_sizes::{MOST_ITEM, item_need, next_version};
use page_bytes::Page;
use vec_names::Params;

/// A new node: its element, and then its list, which is not at the same offset.
pub fn put_both(page: &mut Page, params: &Params, node: NewNode) -> Option<()>
    requires { IsInRange params.now }
    ensures { let n = node_of node.entry in
        IsMade (option_and_then (put_links params.now n) (put_element params.now n page.old)) page.old page.new result }
{
    let off = node.at.off;
    let list_off = node.list_at.off;
    if off == list_off {
        return None;
    }
    if !is_on_graph(page, params) || !is_node(params, node) {
        return None;
    }
    let may_go = is_old_element(page, params, off, node.version);
    let list_may_go = are_old_links(page, params, list_off, node.version);
    let long = element_long(node.bits);
    let list_long = links_long(node.slots);
    if !may_put_after(page, off, long, list_off, list_may_go, list_long) {
        return None;
    }
    let head = new_head(node);
    place_element(page, off, may_go, &head, node.bits)?;
    place_links(page, list_off, list_may_go, node.version, node.slots)
}

/// Whether an item of so many bytes can be put at an offset, once another one is put at another offset.
fn may_put_after(
    page: &Page,
    off: u16,
    long: usize,
    list_off: u16,
    list_may_go: bool,
    list_long: usize,
) -> bool
    requires apart { off ≡ list_off → ⊥ }
    requires small { long ≤ MOST_ITEM }
    requires list_small { list_long ≤ MOST_ITEM }
    ensures { (may_go : Bool) (x y : List ℕ) (after : Content) → length x ≡ long → length y ≡ list_long
        → put off may_go x page.now ≡ Some after → result ≡ is_some (put list_off list_may_go y after) }
{
    match item_long(page, off) {
        Some(_) => may_put(page, list_off, list_may_go, list_long, 0, 0),
        None => may_put(page, list_off, list_may_go, list_long, 1, room(long)),
    }
}

/// Whether an item of so many bytes can be put at an offset, once the page has `more` items more, one or none, which
/// took `taken` bytes of its room.
fn may_put(page: &Page, off: u16, may_go: bool, long: usize, more: usize, taken: usize) -> bool
    requires small { long ≤ MOST_ITEM }
    requires more { more ≤ 1 }
    requires taken { taken ≤ 8164 }
    ensures { result ≡ may_put (item_at page.now.items off) off may_go long (length page.now.items + more + 1) (free_of page.now - taken) }
{
    match item_long(page, off) {
        Some(old) => may_go && old == long,
        None => {
            usize::from(off) == usize::from(page.count()) + more + 1
                && room(long) + taken <= usize::from(page.free())
        }
    }
}

/// How many bytes an item takes with its line pointer.
#[tactic(auto, unfolding(page_bytes::specs::Content::round8))]
fn room(long: usize) -> usize
    requires { long ≤ MOST_ITEM }
    ensures told { result ≡ round8 long + 4 }
    ensures small { result ≤ 8164 }
{
    item_need(long as u64) as usize
}

/// A node is deleted: its element, and then its list, which is not at the same offset.
pub fn mark_both(page: &mut Page, params: &Params, node: Deletion) -> Option<()>
    requires { IsInRange params.now }
    ensures { IsMade (option_and_then (delete_links params.now node) (delete_element params.now node page.old)) page.old page.new result }
{
    let list_off = node.list_at.off;
    if node.at.off == list_off {
        return None;
    }
    if !is_on_graph(page, params) {
        return None;
    }
    let Some(head) = links_head_at(page, params, list_off) else {
        return None;
    };
    if !is_current(head.deleted, head.version, node.version) {
        return None;
    }
    mark(page, params, node)?;
    put_no_slots(
        page,
        list_off,
        next_version(node.wrap, head.version),
        head.count,
    );
    Some(())
}

/// A chain that goes on at its own last page, which has no items and is made fresh.
pub fn grow_both(page: &mut Page, params: &Params, growth: Growth) -> Option<()>
    ensures { let g = growth.entry in
        IsMade (option_and_then (chained params.now g.new g.bits.now) (grown params.now g.id g.bits.now page.old))
        page.old page.new result }
{
    if growth.new == u32::MAX {
        return None;
    }
    grow(page, params, growth.id, growth.bits)?;
    chain(page, params, growth.new, growth.bits)
}
