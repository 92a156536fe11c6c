// What a run tells of itself: what was made, done and needed.

use script_jobs::Job;
use std::alloc::Global;
use vec_history::Act;

/// What a run did, for whoever wants to see that its replies are right.
#[derive(Drop)]
pub struct Audit {
    /// The number of the line of the `create` that made the index, from 1; none where no index was made.
    pub created: Option<u64>,
    /// All that happened to the index, in order.
    pub acts: Vec<Act>,
    /// The commands that were completed, in order.
    pub jobs: Vec<Job>,
    /// The epochs of the checkpoints, in order.
    pub epochs: Vec<u64>,
}

impl Audit {
    ghost use Rattle.vec_run.specs.Runs.{IsIdle};

    /// Of a run that made no index and did nothing. It takes no memory.
    pub fn new(alloc: Global) -> Audit
        ensures { IsIdle result }
    {
        Audit {
            created: None,
            acts: Vec::new(alloc),
            jobs: Vec::new(alloc),
            epochs: Vec::new(alloc),
        }
    }
}

/// The room that a command wanted and did not find.
#[derive(Clone, Copy, Debug, PartialEq, Eq)]
pub enum Room {
    /// The index has so many blocks, and a new node takes so many more.
    Blocks { blocks: u32, need: u32 },
    /// So many bytes of the log's epoch are used, and an event has so many bytes.
    Log { used: u64, size: u64 },
}
