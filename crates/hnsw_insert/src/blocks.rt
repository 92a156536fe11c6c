// Where a place is looked for.
#![tactic(auto)]

/// The blocks from the hint on, up to so many, as the last look at the meta tuple told.
#[derive(Clone, Copy)]
pub struct Blocks {
    pub hint: u32,
    pub count: u32,
}
