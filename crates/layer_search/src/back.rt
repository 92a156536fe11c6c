// What the links back to a new node are made by.
#![tactic(auto)]

ghost use Rattle.std.specs.Prelude.{◌≡◌, [], IfOk, IfErr, length};
ghost use Rattle.vec_names.specs.Params.{IsInRange};
ghost use Rattle.vec_steps.specs.declared.fault.OpFault.TheVariants.{Memory};

use arrayvec::ArrayVec;
use bit_code::Bits;
use bit_dist::{Dist, distance};
use neighbour_pick::{Found, SlotSeen};
use std::alloc::{AllocError, Global};
use vec_names::{Listed, Ops, Params, Tid};
use vec_steps::{OpFault, Told};

/// The distance, the number of neighbours, the new node's place, and the layer in which a neighbour is linked.
#[derive(Clone, Copy)]
pub struct Back {
    pub ops: Ops,
    pub m: u16,
    pub at: Tid,
    pub layer: u8,
}

/// How a try at a neighbour ended.
#[derive(Clone, Copy)]
pub enum Tried {
    /// No link is made.
    Over,
    /// The neighbour names the newcomer.
    Linked,
    /// The slot was changed meanwhile, and the neighbour is to be tried again.
    Again,
}

/// All that links are made in: what steps tell, a neighbour's slots, as named and as seen, values that are kept to be filled anew, and
/// the newcomer as an entrant.
#[derive(Drop)]
pub struct LinkRoom {
    pub alloc: Global,
    pub told: Told,
    pub tids: Listed<Option<Tid>>,
    pub seen: Listed<SlotSeen>,
    pub spare: Listed<Bits>,
    pub entrant: Found,
}

impl LinkRoom {
    /// Room for the links to a node of this value, at this place.
    pub fn make(alloc: Global, params: Params, at: Tid, bits: &Bits) -> Result<LinkRoom, OpFault>
        requires { IsInRange params }
        ensures told { IfOk result (λ room. length room.told.bits ≡ params.bits) }
        ensures at { IfOk result (λ room. room.entrant.at ≡ at) }
        ensures bits { IfOk result (λ room. room.entrant.bits ≡ bits.now) }
        ensures memory { IfErr result (λ e. e ≡ Memory) }
    {
        let entrant = entrant_at(at, bits)?;
        let Ok(told) = Told::make(alloc, params) else {
            return Err(OpFault::Memory);
        };
        Ok(LinkRoom {
            alloc,
            told,
            tids: Listed::new(alloc),
            seen: Listed::new(alloc),
            spare: Listed::new(alloc),
            entrant,
        })
    }
}

// The newcomer, whose distance is yet to be told.
fn entrant_at(at: Tid, bits: &Bits) -> Result<Found, AllocError>
    ensures at { IfOk result (λ e. e.at ≡ at) }
    ensures bits { IfOk result (λ e. e.bits ≡ bits.now) }
{
    let bits = bits.copied()?;
    Ok(Found {
        at,
        list_at: at,
        level: 0,
        version: 1,
        dist: Dist { num: 0, den: 1 },
        ids: ArrayVec::new(),
        bits,
    })
}
