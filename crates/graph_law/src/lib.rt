//! The law of the graph: from a shaped and sound base every state of a legal history is shaped and sound, what a desk
//! knows stays while it holds Update, and what a scan has touched is not deleted while it holds Scan.
//!
//! The definitions stand in specs/: `Touching` (what a scan may have touched), `Standing` (what is in hand, from where
//! all was cleaned, and the law itself, which each act keeps), `Reaching` (sound also from further places). What the laws
//! rest on stands lower: one act as a few facts (`IsStep`), shape and what lasts in `vec_graph`, acts in `vec_history`.
#![tactic(auto)]

mod counting;
mod law;
mod may_mark;

pub use counting::{law_doomed_count, law_place_kept};
pub use law::{law_behind_drops, law_cleaned, law_examples, law_known, law_scan, law_sound};
pub use may_mark::law_marks;

#[cfg(test)]
mod tests;
