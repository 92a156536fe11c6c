//! What a search of the graph is, and what an insert does: the definitions that the operations meet.
//!
//! They stand in specs/: `Reads` (what a look tells, and the reads of a history), `Search` (one layer), `Descent` (from
//! the entry point down), `Scan` (batches), `Deeds` (looks and changes in order, and in a history) and `Insert` (a whole
//! insert). The functions here are laws of those definitions, and do no work.
#![tactic(auto)]

mod law;

pub use law::{
    law_batches, law_batches_by_holding, law_deeds, law_going_on, law_insert, law_insert_rules,
    law_no_entry, law_search, law_words, law_worked_batches, law_worked_insert, law_worked_reuse,
    law_worked_search, law_worked_search_of_one, law_worked_search_through,
    law_worked_third_insert,
};

#[cfg(test)]
mod tests;
