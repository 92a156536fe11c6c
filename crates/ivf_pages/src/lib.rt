//! Pages that stand for an index of lists, and that redo on them is the effect on the index.
//!
//! `ivf_of` reads an index of lists from pages, or names the first block that breaks a rule of the format; `specs/Standing.antt` says
//! which pages stand for which index. The laws of `effects` tie the two: redo of an event that follows is the event's effect on the
//! index.
#![tactic(auto)]

mod effects;
mod entry_rows;
mod examples;
mod fitting;
mod following;
mod law;
mod links;
mod list_blocks;
mod list_chains;
mod list_tuples;
mod marks;
mod replaying;
mod room;
mod standing;
mod walking;

pub use effects::{
    law_add, law_blocks, law_drop, law_grow, law_hint, law_pages, law_redo, law_root,
};
pub use examples::law_examples;
pub use fitting::law_allowed;
pub use following::follows;
pub use law::law_standing;
pub use page_redo::GraphFault;
pub use replaying::{law_legal_replay, law_replay};
pub use room::law_room;
pub use standing::ivf_of;

#[cfg(test)]
mod tests;
