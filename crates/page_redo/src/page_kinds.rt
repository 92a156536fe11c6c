//! Which pages an event needs, in an index of which kind.

ghost use Rattle.std.specs.Prelude.{◌≡◌, ◌&&◌, not};
ghost use Rattle.page_redo.specs.PageTuples.{is_graph, is_meta_page, is_graph_page, is_lists_page, is_entries_page};

use page_bytes::{Page, PageKind};
use vec_names::{Kind, Params};

pub fn is_graph(kind: Kind) -> bool
    ensures { result ≡ is_graph kind }
{
    match kind {
        Kind::Hnsw => true,
        Kind::Ivf => false,
    }
}

/// Whether the page holds the meta tuple.
pub fn is_on_meta(page: &Page) -> bool
    ensures { result ≡ is_meta_page page.now.kind }
{
    match page.kind() {
        PageKind::Meta => true,
        PageKind::Hnsw => false,
        PageKind::IvfLists => false,
        PageKind::IvfEntries => false,
    }
}

/// Whether the page holds nodes, in an index that is a graph.
pub fn is_on_graph(page: &Page, params: &Params) -> bool
    ensures { result ≡ (is_graph params.now.kind && is_graph_page page.now.kind) }
{
    is_graph(params.kind) && holds_nodes(page)
}

/// Whether the page holds nodes.
pub fn holds_nodes(page: &Page) -> bool
    ensures { result ≡ is_graph_page page.now.kind }
{
    match page.kind() {
        PageKind::Meta => false,
        PageKind::Hnsw => true,
        PageKind::IvfLists => false,
        PageKind::IvfEntries => false,
    }
}

/// Whether the page holds list tuples, in an index of lists.
pub fn is_on_lists(page: &Page, params: &Params) -> bool
    ensures { result ≡ (not (is_graph params.now.kind) && is_lists_page page.now.kind) }
{
    !is_graph(params.kind) && holds_lists(page)
}

/// Whether the page holds list tuples.
pub fn holds_lists(page: &Page) -> bool
    ensures { result ≡ is_lists_page page.now.kind }
{
    match page.kind() {
        PageKind::Meta => false,
        PageKind::Hnsw => false,
        PageKind::IvfLists => true,
        PageKind::IvfEntries => false,
    }
}

/// Whether the page holds entries, in an index of lists.
pub fn is_on_entries(page: &Page, params: &Params) -> bool
    ensures { result ≡ (not (is_graph params.now.kind) && is_entries_page page.now.kind) }
{
    !is_graph(params.kind) && holds_entries(page)
}

/// Whether the page holds entries.
pub fn holds_entries(page: &Page) -> bool
    ensures { result ≡ is_entries_page page.now.kind }
{
    match page.kind() {
        PageKind::Meta => false,
        PageKind::Hnsw => false,
        PageKind::IvfLists => false,
        PageKind::IvfEntries => true,
    }
}
