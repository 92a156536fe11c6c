//! From the entry point down to a layer.

ghost use Rattle.std.specs.Prelude.{◌≡◌, ◌≤◌, ◌-◌, [], IfOk, IfErr, length, map, min};
ghost use Rattle.vec_names.specs.Params.{IsInRange};
ghost use Rattle.graph_search.specs.Descent as down;
ghost use Rattle.search_sets.specs.Standing.{spot_of};
ghost use Rattle.vec_steps.specs.Index.{Index};
ghost use Rattle.vec_steps.specs.Calls.{Goes};
ghost use Rattle.layer_search.specs.Waiting.{AreApart, AreLong};
ghost use Rattle.layer_search.specs.Telling.{OverSpots};
ghost use Rattle.layer_search.specs.Looking.{EndedBy};
ghost use Rattle.layer_search.specs.Running.{Descends, Enters, Lowers, level_of, next_layer};

use crate::aim::{Aim, Work};
use crate::looking::{look_at_meta, look_at_node, put_told};
use crate::searching::search_in;
use bit_code::Bits;
use neighbour_pick::Found;
use std::alloc::Global;
use vec_names::{Listed, Ops};
use vec_steps::{OpFault, Steps, Told, Trace};

/// Where a descent leads: the level of the entry point, if there is one, and the elements from which the search of the next
/// layer begins.
#[derive(Drop)]
pub struct Descent {
    pub top: Option<u8>,
    pub from: Listed<Found>,
}

/// Descends from the entry point to the layer `to`, or to the entry point's level if that is lower: Algorithm 5 of the HNSW paper
/// above its lowest layer. Each layer above is searched for one element. Without an entry point, or where it is gone by the time
/// that it is looked at, there is no level and no element.
///
/// The looks that it made come to the end of `trace`, each by its position. It makes no act of its own. Its errors are `Memory`,
/// and `Disk` where a look met a fault of the disks, which leaves an act.
pub fn descend<S: Steps>(
    alloc: Global,
    steps: &mut S,
    query: &Bits,
    to: u8,
    trace: &mut Trace,
) -> Result<Descent, OpFault>
    requires params { IsInRange (S.desk steps.old).params }
    requires query { length query.now ≡ (S.desk steps.old).params.bits }
    ensures goes { Goes S.desk S.stands S.comes_from (OverSpots (S.stands steps.old) (S.seen steps.old) 0 []) steps.old steps.new }
    ensures ok { IfOk result (λ d. Descends (OverSpots (S.stands steps.old) (S.seen steps.old) 0 []) (S.desk steps.old)
        (S.seen steps.old) (S.seen steps.new) trace.old.reads trace.new.reads (S.desk steps.old).params.ops query.now to d.top d.from) }
    ensures apart { IfOk result (λ d. AreApart d.from) }
    ensures long { IfOk result (λ d. AreLong (S.desk steps.old).params.bits d.from) }
    ensures told { IfOk result (λ d. (base : Index) → OverSpots (S.stands steps.old) (S.seen steps.old) 0 [] base
        → OverSpots (S.stands steps.new) (S.seen steps.new) (next_layer to d.top) (map spot_of d.from) base) }
    ensures err { IfErr result (EndedBy (OverSpots (S.stands steps.old) (S.seen steps.old) 0 []) (S.desk steps.old)
        (S.seen steps.old) (S.seen steps.new)) }
{
    let params = steps.params();
    let mut work = Work::make(alloc, params)?;
    let descent = descend_in(steps, query, (params.ops, to), &mut work, trace)?;
    Ok(descent)
}

// Descends in room that serves layer after layer, by a distance and to a layer.
pub(crate) fn descend_in<S: Steps>(
    steps: &mut S,
    query: &Bits,
    way: (Ops, u8),
    work: &mut Work,
    trace: &mut Trace,
) -> Result<Descent, OpFault>
    requires query { length query.now ≡ (S.desk steps.old).params.bits }
    requires bits { length work.old.room.told.bits ≡ (S.desk steps.old).params.bits }
    ensures goes { Goes S.desk S.stands S.comes_from (OverSpots (S.stands steps.old) (S.seen steps.old) 0 []) steps.old steps.new }
    ensures bits { IfOk result (λ d. length work.new.room.told.bits ≡ (S.desk steps.old).params.bits) }
    ensures ok { IfOk result (λ d. Descends (OverSpots (S.stands steps.old) (S.seen steps.old) 0 []) (S.desk steps.old)
        (S.seen steps.old) (S.seen steps.new) trace.old.reads trace.new.reads way.0 query.now way.1 d.top d.from) }
    ensures apart { IfOk result (λ d. AreApart d.from) }
    ensures long { IfOk result (λ d. AreLong (S.desk steps.old).params.bits d.from) }
    ensures told { IfOk result (λ d. (base : Index) → OverSpots (S.stands steps.old) (S.seen steps.old) 0 [] base
        → OverSpots (S.stands steps.new) (S.seen steps.new) (next_layer way.1 d.top) (map spot_of d.from) base) }
    ensures err { IfErr result (EndedBy (OverSpots (S.stands steps.old) (S.seen steps.old) 0 []) (S.desk steps.old)
        (S.seen steps.old) (S.seen steps.new)) }
{
    let mut first = Listed::new(work.alloc);
    let top = enter(steps, query, way.0, &mut first, &mut work.room.told, trace)?;
    let Some(level) = top else {
        return Ok(Descent {
            top: None,
            from: first,
        });
    };
    let way = Way {
        ops: way.0,
        level,
        to: way.1,
    };
    let from = lower(steps, query, way, first, work, trace)?;
    Ok(Descent {
        top: Some(level),
        from,
    })
}

/// From which level to which layer, by which distance.
#[derive(Clone, Copy)]
pub struct Way {
    pub ops: Ops,
    pub level: u8,
    pub to: u8,
}

// Looks at the meta tuple and at the entry point, which comes into `from`, and tells its level. `from` is empty.
pub(crate) fn enter<S: Steps>(
    steps: &mut S,
    query: &Bits,
    ops: Ops,
    from: &mut Listed<Found>,
    told: &mut Told,
    trace: &mut Trace,
) -> Result<Option<u8>, OpFault>
    requires query { length query.now ≡ (S.desk steps.old).params.bits }
    requires bits { length told.old.bits ≡ (S.desk steps.old).params.bits }
    requires none { from.old ≡ [] }
    ensures goes { Goes S.desk S.stands S.comes_from (OverSpots (S.stands steps.old) (S.seen steps.old) 0 []) steps.old steps.new }
    ensures bits { length told.new.bits ≡ (S.desk steps.old).params.bits }
    ensures ok { IfOk result (λ top. Enters (OverSpots (S.stands steps.old) (S.seen steps.old) 0 []) (S.desk steps.old)
        (S.seen steps.old) (S.seen steps.new) trace.old.reads trace.new.reads ops query.now top from.new) }
    ensures told { IfOk result (λ top. (base : Index) → OverSpots (S.stands steps.old) (S.seen steps.old) 0 [] base
        → OverSpots (S.stands steps.new) (S.seen steps.new) (level_of top) (map spot_of from.new) base) }
    ensures apart { IfOk result (λ top. AreApart from.new) }
    ensures long { IfOk result (λ top. AreLong (S.desk steps.old).params.bits from.new) }
    ensures err { IfErr result (EndedBy (OverSpots (S.stands steps.old) (S.seen steps.old) 0 []) (S.desk steps.old)
        (S.seen steps.old) (S.seen steps.new)) }
{
    look_at_meta(steps, 0, told, trace)?;
    let level = told.level;
    let Some(at) = told.tid else {
        return Ok(None);
    };
    look_at_node(steps, at, level, None, told, trace)?;
    if put_told(query, ops, at, told, from)? {
        Ok(Some(level))
    } else {
        Ok(None)
    }
}

// Searches each layer above the one to descend to, the highest first.
pub(crate) fn lower<S: Steps>(
    steps: &mut S,
    query: &Bits,
    way: Way,
    first: Listed<Found>,
    work: &mut Work,
    trace: &mut Trace,
) -> Result<Listed<Found>, OpFault>
    requires query { length query.now ≡ (S.desk steps.old).params.bits }
    requires bits { length work.old.room.told.bits ≡ (S.desk steps.old).params.bits }
    requires apart { AreApart first }
    requires long { AreLong (S.desk steps.old).params.bits first }
    ensures goes { Goes S.desk S.stands S.comes_from (OverSpots (S.stands steps.old) (S.seen steps.old) way.level (map spot_of first))
        steps.old steps.new }
    ensures bits { length work.new.room.told.bits ≡ (S.desk steps.old).params.bits }
    ensures ok { IfOk result (Lowers (OverSpots (S.stands steps.old) (S.seen steps.old) way.level (map spot_of first)) (S.desk steps.old)
        (S.seen steps.old) (S.seen steps.new) trace.old.reads trace.new.reads way.ops query.now way.to (way.level - way.to) first) }
    ensures apart { IfOk result AreApart }
    ensures long { IfOk result (AreLong (S.desk steps.old).params.bits) }
    ensures told { IfOk result (λ from. (base : Index)
        → OverSpots (S.stands steps.old) (S.seen steps.old) way.level (map spot_of first) base
        → OverSpots (S.stands steps.new) (S.seen steps.new) (min way.to way.level) (map spot_of from) base) }
    ensures err { IfErr result (EndedBy (OverSpots (S.stands steps.old) (S.seen steps.old) way.level (map spot_of first))
        (S.desk steps.old) (S.seen steps.old) (S.seen steps.new)) }
{
    let mut from = first;
    let mut layer = way.level;
    'layers: while layer > way.to {
        let aim = Aim {
            ops: way.ops,
            layer,
            ef: 1,
            most: None,
        };
        let found = search_in(steps, query, aim, from.as_slice(), work, trace)?;
        from = or_from(found, from);
        layer -= 1;
    }
    Ok(from)
}

// What a search found, or where it began if it found nothing.
fn or_from(found: Listed<Found>, from: Listed<Found>) -> Listed<Found>
    ensures { result ≡ down.or_from found from }
{
    if found.is_empty() {
        return from;
    }
    found
}
