//! The state of the index.

use crate::list::IvfList;
use vec_history::Rules;
use vec_names::Listed;

/// The state of an IVFFlat index, apart from how its pages hold it.
#[derive(Drop)]
pub struct IvfGraph {
    /// The lists, by their numbers from 0.
    pub lists: Listed<IvfList>,
    /// The number of blocks, those of the index's parameters and of the lists' centres counted.
    pub blocks: u32,
}

impl Rules for IvfGraph {
    ghost use Rattle.ivf_graph.specs.Legal.{IsAllowed};

    ghost allows = { λ base acts act. IsAllowed base acts act };

    ghost allows_gates = { λ base acts desk gate hold may. may };
}
