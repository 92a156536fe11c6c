//! The state of an IVFFlat index, an index of lists: what each event makes of it, which acts a history of it
//! allows, and what it answers.
//!
//! The definitions stand in specs/: `Graph` (chains of blocks, the rows of a block, the room of a page), `Effect`
//! (what an event changes), `Rules` (one word for each kind of event), `Legal`, `Looks` (what a look at a page tells),
//! `Answer` (what a search answers) and `Reads` (what it answers where each read is of a state of its own), `Asking`
//! (what the rules ask besides what a step's words say) and `Courses` (of an insert and of a vacuum). `Examples` has worked
//! ones. The functions of `law` are laws of those definitions, and do no work. `audit` judges whole histories.
#![tactic(auto)]

mod applying;
mod audit;
mod blocks;
mod copies;
mod graph;
mod law;
mod list;
mod rules;

pub use audit::audit_ivf;
pub use graph::IvfGraph;
pub use law::{
    law_answer, law_answered_once, law_asked, law_blocks, law_chains, law_examples, law_insert,
    law_later, law_looks, law_reads, law_rows, law_stands, law_still,
};
pub use list::IvfList;
pub use vec_history::AuditFault;

#[cfg(test)]
mod tests;
