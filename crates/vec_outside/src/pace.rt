// Where the workers of a group of jobs may be held up.

/// Called by workers at set places, so that a test can hold one up while others go on. It changes
/// nothing that a contract names, so its calls promise nothing.
pub trait Pace: Sync {
    /// A worker is between two of its steps of this job. The jobs of a group are numbered from 1, in
    /// the group's order.
    fn between(&self, job: u32);

    /// A worker looks at the page of this block. It holds the stripe of that block, by which nobody
    /// else changes the page, and holds nothing else.
    fn looking(&self, block: u32);
}

/// The pace of the program: nobody is held up.
#[derive(Clone, Copy, Debug, Default)]
pub struct NoPace;

impl Pace for NoPace {
    fn between(&self, _job: u32) {}

    fn looking(&self, _block: u32) {}
}
