//! A row joins an element that has its value.

ghost use Rattle.std.specs.Prelude.{◌≡◌, [], ◌∷◌, ℕ, List, filter, length, IfOk, IfErr};
ghost use Rattle.vec_history.specs.declared.gate.Gate.TheVariants.{Update};
ghost use Rattle.vec_history.specs.Gates.{Holds};
ghost use Rattle.graph_search.specs.Insert.{may_join};
ghost use Rattle.search_sets.specs.Standing.{spot_of};
ghost use Rattle.vec_steps.specs.Telling.{join_told};
ghost use Rattle.vec_steps.specs.Calls.{Goes};
ghost use Rattle.layer_search.specs.Waiting.{AreLong};
ghost use Rattle.hnsw_insert.specs.Over.{OverNodes};
ghost use Rattle.hnsw_insert.specs.Courses.{IsUnderGate, NeverFull, StopsBy};
ghost use Rattle.hnsw_insert.specs.Parts.{AsksAll, AsksAt, AsksOne, IsJoinedBy};

use bit_code::{Bits, count_unequal};
use neighbour_pick::Found;
use search_sets::Spot;
use vec_names::HeapId;
use vec_steps::{Ask, OpFault, Steps, Told, Word};

// Whether an element has the value, and from 1 to 9 ids.
fn may_join(bits: &Bits, element: &Found) -> bool
    requires { length element.now.bits ≡ length bits.now }
    ensures { result ≡ may_join bits.now element.now }
{
    count_unequal(&element.bits, bits) == 0 && !element.ids.is_empty() && element.ids.len() <= 9
}

// Where an element stands.
fn spot_at(element: &Found) -> Spot
    ensures { result ≡ spot_of element.now }
{
    Spot {
        at: element.at,
        list_at: element.list_at,
        level: element.level,
        version: element.version,
    }
}

// Whether an element took the id, by the word.
fn joined_by(word: Word) -> bool
    ensures { IsJoinedBy result (join_told word) }
{
    match word {
        Word::Done => true,
        _ => false,
    }
}

// Asks an element to take the id, and tells whether it did.
fn join_one<S: Steps>(
    steps: &mut S,
    id: HeapId,
    spot: Spot,
    told: &mut Told,
) -> Result<bool, OpFault>
    requires told { length told.old.bits ≡ (S.desk steps.old).params.bits }
    requires held { Holds (S.seen steps.old) (S.desk steps.old).number Update }
    ensures goes { Goes S.desk S.stands S.comes_from (OverNodes (S.stands steps.old)) steps.old steps.new }
    ensures told { length told.new.bits ≡ (S.desk steps.old).params.bits }
    ensures ok { IfOk result (AsksOne (OverNodes (S.stands steps.old)) (S.desk steps.old) (S.seen steps.old) (S.seen steps.new) id spot) }
    ensures err { IfErr result (StopsBy IsUnderGate NeverFull (OverNodes (S.stands steps.old)) (S.desk steps.old) (S.seen steps.old)
        (S.seen steps.new)) }
{
    let mut ask = Ask::Join {
        at: spot.at,
        version: spot.version,
        id,
    };
    steps.step(&mut ask, told)?;
    Ok(joined_by(told.word))
}

// Asks an element to take the id where it has the value and room for it, and tells whether it did.
fn join_at<S: Steps>(
    steps: &mut S,
    bits: &Bits,
    id: HeapId,
    element: &Found,
    told: &mut Told,
) -> Result<bool, OpFault>
    requires told { length told.old.bits ≡ (S.desk steps.old).params.bits }
    requires held { Holds (S.seen steps.old) (S.desk steps.old).number Update }
    requires long { length element.now.bits ≡ length bits.now }
    ensures goes { Goes S.desk S.stands S.comes_from (OverNodes (S.stands steps.old)) steps.old steps.new }
    ensures told { length told.new.bits ≡ (S.desk steps.old).params.bits }
    ensures ok { IfOk result (AsksAt (OverNodes (S.stands steps.old)) (S.desk steps.old) (S.seen steps.old) (S.seen steps.new)
        id bits.now element.now) }
    ensures err { IfErr result (StopsBy IsUnderGate NeverFull (OverNodes (S.stands steps.old)) (S.desk steps.old) (S.seen steps.old)
        (S.seen steps.new)) }
{
    if !may_join(bits, element) {
        return Ok(false);
    }
    let joined = join_one(steps, id, spot_at(element), told)?;
    Ok(joined)
}

/// Asks those of the elements near that have the value and room for an id to take this one, the nearest first, until one does, and
/// tells where it stands. The desk holds the gate.
pub fn join_first<S: Steps>(
    steps: &mut S,
    bits: &Bits,
    id: HeapId,
    near: &[Found],
    told: &mut Told,
) -> Result<Option<Spot>, OpFault>
    requires told { length told.old.bits ≡ (S.desk steps.old).params.bits }
    requires held { Holds (S.seen steps.old) (S.desk steps.old).number Update }
    requires bits { length bits.now ≡ (S.desk steps.old).params.bits }
    requires long { AreLong (S.desk steps.old).params.bits near.now }
    ensures goes { Goes S.desk S.stands S.comes_from (OverNodes (S.stands steps.old)) steps.old steps.new }
    ensures told { length told.new.bits ≡ (S.desk steps.old).params.bits }
    ensures ok { IfOk result (AsksAll (OverNodes (S.stands steps.old)) (S.desk steps.old) (S.seen steps.old) (S.seen steps.new)
        id bits.now near.now) }
    ensures err { IfErr result (StopsBy IsUnderGate NeverFull (OverNodes (S.stands steps.old)) (S.desk steps.old) (S.seen steps.old)
        (S.seen steps.new)) }
{
    for k in 0..near.len() {
        let element = &near[k];
        if join_at(steps, bits, id, element, told)? {
            return Ok(Some(spot_at(element)));
        }
    }
    Ok(None)
}
