//! What stands at a place of the pages of an index: looked at without memory.

ghost use Rattle.std.specs.Prelude.{◌≡◌, ℕ, ◌<◌, ◌≤◌, ◌+◌, length, slice_get, IfSome, Some};
ghost use Rattle.std.specs.Option.{option_copied};
ghost use Rattle.vec_names.specs.Params.{IsInRange};
ghost use Rattle.vec_tuples.specs.declared.links.Links.{Links};
ghost use Rattle.vec_tuples.specs.Spelling.{IsMeta};
ghost use Rattle.page_redo.specs.PageTuples.{is_graph};
ghost use Rattle.graph_pages.specs.Standing.{item_in, head_in, root, root_on, of_graph};

use index_sizes::LAST_BLOCK;
use page_bytes::Page;
use page_redo::{head_of, is_graph, is_on_meta, meta_at};
use vec_names::{Params, Tid};
use vec_tuples::{ElementHead, Meta};

/// The page of a block, if there is one.
pub fn page_at(pages: &[Page], block: u32) -> Option<&Page>
    ensures { option_copied result ≡ slice_get pages.now block }
{
    pages.get(block as usize)
}

/// The place on a block of the item that so many items stand before.
pub fn place_on(block: u32, before: u16) -> Tid
    requires low { block ≤ LAST_BLOCK }
    requires few { before < 65535 }
    ensures block { result.block ≡ block }
    ensures off { result.off ≡ before + 1 }
{
    Tid {
        block,
        off: before + 1,
    }
}

/// The item at a place, if there is one.
pub fn item_in(pages: &[Page], at: Tid) -> Option<&[u8]>
    ensures { option_copied result ≡ item_in pages.now at }
{
    match page_at(pages, at.block) {
        Some(page) => page.item(at.off),
        None => None,
    }
}

/// The head of the element at a place, if one stands there.
pub fn head_in(pages: &[Page], params: &Params, at: Tid) -> Option<ElementHead>
    requires { IsInRange params.now }
    ensures { result ≡ head_in params.now pages.now at }
{
    match item_in(pages, at) {
        Some(item) => head_of(item, params),
        None => None,
    }
}

/// The meta tuple of block 0, where that page holds the meta tuple of a graph and nothing else.
pub fn root(pages: &[Page]) -> Option<Meta>
    ensures told { result ≡ root pages.now }
    ensures in_range { IfSome result (λ m. IsInRange m.params) }
{
    match page_at(pages, 0) {
        Some(page) => root_on(page),
        None => None,
    }
}

fn root_on(page: &Page) -> Option<Meta>
    ensures told { result ≡ root_on page.now }
    ensures in_range { IfSome result (λ m. IsInRange m.params) }
{
    if !is_on_meta(page) || page.count() != 1 {
        return None;
    }
    match meta_at(page) {
        Some(meta) => of_graph(meta),
        None => None,
    }
}

fn of_graph(meta: Meta) -> Option<Meta>
    ensures told { result ≡ of_graph meta }
    ensures same { IfSome result (λ m. m ≡ meta) }
{
    if is_graph(meta.params.kind) {
        Some(meta)
    } else {
        None
    }
}
