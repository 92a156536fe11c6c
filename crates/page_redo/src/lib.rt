//! Redo: what an event does to a page that it touches, and, in specs/, to all pages of an index.
//!
//! An event makes one change at each place that it names: it changes one tuple of a page, adds one, drops some or links
//! the page to another, and it needs a page that allows this. Live changes, recovery and standbys change pages through
//! this one call, so that all of them make the same pages. It takes no memory.
#![tactic(auto)]

mod events;
mod fault;
mod graph_fault;
mod head_changes;
mod in_place;
mod items;
mod law;
mod list_pages;
mod new_node;
mod page_kinds;
mod tuple_changes;
mod two_places;

pub use events::redo;
pub use fault::RedoFault;
pub use graph_fault::GraphFault;
pub use items::{LinksHead, centre_head_at, head_of, links_head_of, meta_at};
pub use law::{law_elsewhere, law_others};
pub use list_pages::{list_block, list_offset};
pub use page_kinds::{holds_entries, holds_lists, holds_nodes, is_graph, is_on_meta};

#[cfg(test)]
mod tests;
