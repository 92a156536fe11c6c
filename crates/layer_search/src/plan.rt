// What the lists of a new node are looked for by.
#![tactic(auto)]

use vec_names::{Ops, Params, Tid};

/// The distance, the number of neighbours, the node's level, how many elements each search wants, who is left out, and the layer
/// that is searched.
#[derive(Clone, Copy)]
pub struct Plan {
    pub ops: Ops,
    pub m: u16,
    pub level: u8,
    pub ef: u32,
    pub except: Option<Tid>,
    pub layer: u8,
}
