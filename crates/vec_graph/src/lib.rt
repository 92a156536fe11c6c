//! The state of an HNSW index, what each event makes of it, and which acts a history of it allows.
//!
//! The definitions stand in specs/: `Graph` (nodes, live and doomed ones, members of layers), `Places`
//! (where a new node may stand), `Effect` (what an event changes), `Knowing` (what a desk knows),
//! `Cleaning` (what a vacuum has to have cleaned), `Rules` (one word for each kind of event), `Legal`, `Shaped`
//! (graphs that pages can hold), `Sound` (what a search may rest on), `Lasting` (what lasts of a node), and `Asking` (what
//! the rules ask of a desk's next event). The functions of `law` are laws of
//! those definitions, and do no work. `applying` makes what an event makes of a graph, `places` finds where a new
//! node stands, `liveness` tells live nodes from doomed ones. The judge of histories is the crate `graph_judge`.
#![tactic(auto)]

mod applying;
mod graph;
mod law;
mod liveness;
mod node;
mod place;
mod places;

pub use graph::Graph;
pub use law::{
    law_asked, law_entries, law_examples, law_first_insert, law_idle_vacuum, law_lasting,
    law_later, law_layers, law_levels, law_live, law_own, law_places, law_shaped, law_told,
    law_vacuum,
};
pub use liveness::{doomed_at, is_doomed, is_live, live_at};
pub use node::Node;
pub use place::Place;

#[cfg(test)]
mod tests;
