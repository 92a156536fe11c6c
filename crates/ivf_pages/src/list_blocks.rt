//! The blocks of list tuples: the first that breaks a rule.

ghost use Rattle.std.specs.Prelude.{◌≡◌, ℕ, ◌<◌, ◌≤◌, ◌+◌, MatchOption, slice_get};
ghost use Rattle.vec_names.specs.Params.{IsInRange};
ghost use Rattle.ivf_pages.specs.Standing.{lists_end, lists_on, IsListPage};
ghost use Rattle.ivf_pages.specs.Walking.{has_count, broken_from, IsFirstAimless};
ghost use Rattle.page_redo.specs.PageChanges.{list_block};

use index_sizes::centres_on_page;
use page_bytes::Page;
use page_redo::{holds_lists, list_block};
use vec_names::Params;

/// The first block of list tuples that breaks a rule, where this is the first list that has no tuple or whose aim is not in its chain.
pub fn first_broken_list(pages: &[Page], params: &Params, aimless: Option<u32>) -> Option<u32>
    requires in_range { IsInRange params.now }
    requires aimless { IsFirstAimless params.now pages.now aimless }
    ensures { MatchOption result
        ((block : ℕ) → 1 ≤ block → block ≤ lists_end params.now → IsListPage params.now pages.now block)
        (λ broken. (1 ≤ broken) × (broken ≤ lists_end params.now) × (¬ IsListPage params.now pages.now broken)
        × ((lower : ℕ) → 1 ≤ lower → lower < broken → IsListPage params.now pages.now lower)) }
{
    for block in 1..broken_from(params, aimless) {
        if !has_count(pages, params, block) {
            return Some(block);
        }
    }
    match aimless {
        Some(list) => Some(block_of(params, list)),
        None => None,
    }
}

/// The block of the first such list, or the first behind all blocks of list tuples.
fn broken_from(params: &Params, aimless: Option<u32>) -> u32
    requires in_range { IsInRange params.now }
    requires low { (list : ℕ) → aimless ≡ Some list → list < params.now.lists }
    ensures { result ≡ broken_from params.now aimless }
{
    match aimless {
        Some(list) => block_of(params, list),
        None => (lists_end(params) + 1) as u32,
    }
}

fn block_of(params: &Params, list: u32) -> u32
    requires in_range { IsInRange params.now }
    requires low { list < params.now.lists }
    ensures { result ≡ list_block params.now list }
{
    list_block(params, list) as u32
}

/// How many blocks the list tuples take.
pub fn lists_end(params: &Params) -> u64
    requires { IsInRange params.now }
    ensures { result ≡ lists_end params.now }
{
    u64::from(params.lists).div_ceil(centres_on_page(params.bits))
}

/// Whether the block has a page of list tuples, as many as are to stand there.
fn has_count(pages: &[Page], params: &Params, block: u32) -> bool
    requires in_range { IsInRange params.now }
    requires from { 1 ≤ block }
    ensures { result ≡ has_count params.now block (slice_get pages.now block) }
{
    match pages.get(block as usize) {
        Some(page) => holds_lists(page) && u64::from(page.count()) == lists_on(params, block),
        None => false,
    }
}

/// How many list tuples stand on a block of them.
fn lists_on(params: &Params, block: u32) -> u64
    requires in_range { IsInRange params.now }
    requires from { 1 ≤ block }
    ensures { result ≡ lists_on params.now block }
{
    let on_page = centres_on_page(params.bits);
    let before = (u64::from(block) - 1) * on_page;
    on_page.min(u64::from(params.lists).saturating_sub(before))
}
