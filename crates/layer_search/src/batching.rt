// What a search that goes on does between its turns.
#![tactic(auto)]

ghost use Rattle.std.specs.Prelude.{◌≡◌, ◌≤◌, IfOk, IfErr, OnOk, length};
ghost use Rattle.vec_names.specs.Params.{IsInRange};
ghost use Rattle.graph_search.specs.ByHolding.{HoldTheSame};
ghost use Rattle.search_sets.specs.Standing.{IsWhole, held, known_earlier, wanted};
ghost use Rattle.vec_steps.specs.declared.fault.OpFault.TheVariants.{Memory};

use crate::aim::Room;
use search_sets::Frontier;
use std::alloc::{AllocError, Global};
use vec_names::Params;
use vec_steps::OpFault;

/// The room that was kept, if it was made for values of as many places, or a new one.
pub fn room_for(alloc: Global, kept: Option<Room>, params: Params) -> Result<Room, OpFault>
    requires { IsInRange params }
    ensures bits { IfOk result (λ room. length room.told.bits ≡ params.bits) }
    ensures memory { IfErr result (λ e. e ≡ Memory) }
{
    let Some(room) = kept else {
        return Room::make(alloc, params);
    };
    if room.told.bits.count() == params.bits {
        return Ok(room);
    }
    Room::make(alloc, params)
}

/// Begins another batch, of which so many are wanted: all that is known, an earlier one knew.
pub fn begin_batch(frontier: &mut Frontier, ef: u32) -> Result<(), AllocError>
    requires some { 1 ≤ ef }
    requires whole { IsWhole frontier.old }
    ensures whole { OnOk result (IsWhole frontier.new) }
    ensures wanted { OnOk result (wanted frontier.new ≡ ef) }
    ensures earlier { OnOk result (HoldTheSame (held frontier.new) (known_earlier (held frontier.old))) }
{
    frontier.want(ef as usize)?;
    frontier.begin_batch();
    Ok(())
}
