//! The judge of a history of an HNSW index: whether each act is one that the rules allow after those before it.
//!
//! It is the plain program beside the definitions of `vec_graph`. `node_rules`, `linking_rules` and `vacuum_rules` decide the
//! rules, over what `knowing` and `cleaning` find in the graphs that a history goes through (`course`); `audit` judges a whole history.
//! It stores one graph for each act, so it is for tests and for short histories. specs/ has the words of its parts; none
//! states a rule.
#![tactic(auto)]

mod audit;
mod cleaning;
mod course;
mod knowing;
mod linking_rules;
mod node_rules;
mod vacuum_rules;

pub use audit::{audit_hnsw, is_event_allowed, states_of};
pub use course::Course;
pub use knowing::{knows, knows_members};
pub use vec_history::AuditFault;

#[cfg(test)]
mod tests;
