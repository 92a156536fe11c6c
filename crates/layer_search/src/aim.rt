// What a search goes by, beside its query, and the room that it works in.
#![tactic(auto)]

ghost use Rattle.std.specs.Prelude.{◌≡◌, [], IfOk, IfErr, length};
ghost use Rattle.vec_names.specs.Params.{IsInRange};
ghost use Rattle.vec_steps.specs.declared.fault.OpFault.TheVariants.{Memory};

use search_sets::Frontier;
use std::alloc::Global;
use vec_names::{Listed, Ops, Params, Tid};
use vec_steps::{OpFault, Told};

/// The distance that counts, the layer, how many elements are wanted, and how many may become known, if that is bounded.
#[derive(Clone, Copy)]
pub struct Aim {
    pub ops: Ops,
    pub layer: u8,
    pub ef: u32,
    pub most: Option<u64>,
}

/// What steps tell, and places to be looked at: one for a whole search, so that an expansion takes no memory for them.
#[derive(Drop)]
pub struct Room {
    pub told: Told,
    pub fresh: Listed<Tid>,
}

impl Room {
    pub fn make(alloc: Global, params: Params) -> Result<Room, OpFault>
        requires { IsInRange params }
        ensures bits { IfOk result (λ room. length room.told.bits ≡ params.bits) }
        ensures memory { IfErr result (λ e. e ≡ Memory) }
    {
        let Ok(told) = Told::make(alloc, params) else {
            return Err(OpFault::Memory);
        };
        Ok(Room {
            told,
            fresh: Listed::new(alloc),
        })
    }
}

/// All that a search works in. One serves layer after layer, and keeps its memory.
#[derive(Drop)]
pub struct Work {
    pub alloc: Global,
    pub frontier: Frontier,
    pub room: Room,
}

impl Work {
    pub fn make(alloc: Global, params: Params) -> Result<Work, OpFault>
        requires { IsInRange params }
        ensures bits { IfOk result (λ work. length work.room.told.bits ≡ params.bits) }
        ensures memory { IfErr result (λ e. e ≡ Memory) }
    {
        let room = Room::make(alloc, params)?;
        let frontier = Frontier::new(alloc, 1)?;
        Ok(Work {
            alloc,
            frontier,
            room,
        })
    }
}
