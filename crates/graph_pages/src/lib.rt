//! Pages that stand for a graph, and that redo on them is the effect on the graph.
//!
//! `graph_of` reads a graph from pages, or names the first block that breaks a rule of the format; `specs/Standing.antt` says
//! which pages stand for which graph. It takes memory for the graph. The laws of `effects` tie pages and graphs: redo of an
//! event that changes tuples which stand there is the event's effect on the graph. Those of `fitting` say when such an event
//! fits the pages.
#![tactic(auto)]

mod block_rules;
mod broken_blocks;
mod decoded;
mod effects;
mod fitting;
mod following;
mod law;
mod list_pointers;
mod nodes;
mod page_places;
mod room;
mod standing;

pub use effects::{
    law_blocks, law_drop, law_entry, law_format, law_fresh, law_hint, law_join, law_link, law_mark,
    law_once, law_one_block, law_other_format, law_pages, law_put_again, law_put_new, law_redo,
    law_relist,
};
pub use fitting::{
    law_drop_fits, law_entry_fits, law_hint_fits, law_join_fits, law_link_fits, law_mark_fits,
    law_put_again_fits, law_put_fresh_fits, law_put_new_fits, law_relist_fits,
};
pub use following::follows;
pub use law::law_standing;
pub use page_redo::GraphFault;
pub use room::{law_reuse, law_room};
pub use standing::graph_of;

#[cfg(test)]
mod tests;
