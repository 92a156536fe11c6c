// What a verb ended with.
ghost use Rattle.std.specs.Prelude.{◌≡◌, None};
ghost use Rattle.vec_run.specs.Runs.{IsIdle};

use crate::audit::{Audit, Room};
use crate::end::End;
use std::alloc::Global;

/// How a verb ended, and what its run tells of itself.
#[derive(Drop)]
pub struct Finish {
    pub end: End,
    /// At `End::Room` the room that a command wanted; else none.
    pub room: Option<Room>,
    pub audit: Audit,
}

impl Finish {
    /// So it ended where no command was run. It takes no memory.
    pub fn idle(alloc: Global, end: End) -> Finish
        ensures end { result.end ≡ end }
        ensures room { result.room ≡ None }
        ensures audit { IsIdle result.audit }
    {
        Finish {
            end,
            room: None,
            audit: Audit::new(alloc),
        }
    }
}
