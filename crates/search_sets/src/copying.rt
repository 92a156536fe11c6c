// Copies of elements.

ghost use Rattle.std.specs.Prelude.{◌≡◌, IfOk};
ghost use Rattle.graph_search.specs.Search.{has_some};
ghost use Rattle.search_sets.specs.Standing.{found_at};

use crate::spot::Spot;
use arrayvec::ArrayVec;
use bit_code::Bits;
use bit_dist::Dist;
use neighbour_pick::Found;
use std::alloc::AllocError;
use vec_names::HeapId;

/// An element with rows and a value of its own, equal to these. The one error is that there is no memory.
pub fn found_of(
    spot: Spot,
    dist: Dist,
    ids: &ArrayVec<HeapId, 10>,
    bits: &Bits,
) -> Result<Found, AllocError>
    ensures { IfOk result (λ e. e ≡ found_at spot dist ids.now.items bits.now) }
{
    let bits = bits.copied()?;
    let mut own = ArrayVec::new();
    let _ = own.try_extend_from_slice(ids.as_slice());
    Ok(Found {
        at: spot.at,
        list_at: spot.list_at,
        level: spot.level,
        version: spot.version,
        dist,
        ids: own,
        bits,
    })
}

/// An equal element. The one error is that there is no memory.
pub fn copy_of(element: &Found) -> Result<Found, AllocError>
    ensures { IfOk result (λ e. e ≡ element.now) }
{
    let spot = Spot {
        at: element.at,
        list_at: element.list_at,
        level: element.level,
        version: element.version,
    };
    let copy = found_of(spot, element.dist, &element.ids, &element.bits)?;
    Ok(copy)
}

/// Whether an element with these rows is live.
#[inline(always)]
pub fn has_rows(ids: &ArrayVec<HeapId, 10>) -> bool
    ensures { result ≡ has_some ids.now.items }
{
    !ids.is_empty()
}
