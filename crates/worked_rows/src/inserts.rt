//! Rows that come to an index, and where their nodes are to stand.

ghost use Rattle.std.specs.Prelude.{OnOk};
ghost use Rattle.vec_steps.specs.Calls.{HoldsNone};

use bit_code::{Bits, read_bits};
use hnsw_insert::{Inserted, insert};
use std::alloc::Global;
use std::test::Fail;
use vec_names::{HeapId, Kind};
use vec_steps::Steps;

/// Inserts a row whose id is on block 1, by a word. The desk holds no gate before and after it.
pub fn insert_by<S: Steps>(
    alloc: Global,
    steps: &mut S,
    bits: &Bits,
    row: u16,
    word: u64,
) -> Result<Inserted, Fail>
    requires gates { HoldsNone (S.seen steps.old) (S.desk steps.old).number }
    ensures gates { OnOk result (HoldsNone (S.seen steps.new) (S.desk steps.new).number) }
{
    let params = steps.params();
    if !params.check() {
        return Err(Fail::new("parameters in range"));
    }
    let Kind::Hnsw = params.kind else {
        return Err(Fail::new("a graph"));
    };
    let id = HeapId {
        block: 1,
        off: row.max(1),
    };
    Ok(insert(alloc, steps, id, bits, word)?)
}

/// The same of a value that a text spells, at level 0.
pub fn insert_text<S: Steps>(
    alloc: Global,
    steps: &mut S,
    text: &str,
    row: u16,
) -> Result<Inserted, Fail>
    requires gates { HoldsNone (S.seen steps.old) (S.desk steps.old).number }
    ensures gates { OnOk result (HoldsNone (S.seen steps.new) (S.desk steps.new).number) }
{
    let bits = read_bits(alloc, text)?;
    insert_by(alloc, steps, &bits, row, u64::MAX)
}

/// The same, where a new node comes to this offset of block 1, with this version.
pub fn put<S: Steps>(
    alloc: Global,
    steps: &mut S,
    text: &str,
    row: u16,
    place: (u16, u8),
) -> Result<(), Fail>
    requires gates { HoldsNone (S.seen steps.old) (S.desk steps.old).number }
    ensures gates { OnOk result (HoldsNone (S.seen steps.new) (S.desk steps.new).number) }
{
    let new = insert_text(alloc, steps, text, row)?;
    if new.joined
        || new.level != 0
        || (new.at.block, new.at.off, new.version) != (1, place.0, place.1)
    {
        return Err(Fail::new("a node at its place"));
    }
    Ok(())
}

/// Rows 1 to 3 with the values 0000, 0011 and 0111 come to 1/1, 1/3 and 1/5.
pub fn put_three<S: Steps>(alloc: Global, steps: &mut S) -> Result<(), Fail>
    requires gates { HoldsNone (S.seen steps.old) (S.desk steps.old).number }
    ensures gates { OnOk result (HoldsNone (S.seen steps.new) (S.desk steps.new).number) }
{
    put(alloc, steps, "0000", 1, (1, 1))?;
    put(alloc, steps, "0011", 2, (3, 1))?;
    put(alloc, steps, "0111", 3, (5, 1))
}
