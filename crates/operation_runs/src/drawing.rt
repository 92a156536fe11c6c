//! Rows with drawn values and words.

ghost use Rattle.std.specs.Prelude.{◌≡◌, ◌≤◌, IfOk, OnOk, length};
ghost use Rattle.vec_history.specs.declared.gate.Gate.TheVariants.{Update};
ghost use Rattle.vec_history.specs.Gates.{Holds};

use bit_code::{Bits, is_packed};
use hnsw_insert::insert;
use rand_core::utils::NextWord;
use rand_pcg::Pcg64;
use std::alloc::Global;
use std::test::Fail;
use vec_names::{HeapId, Kind};
use vec_steps::Steps;

// The row of a number: a hundred to a block.
fn id_of(number: u32) -> HeapId {
    HeapId {
        block: number / 100,
        off: (number % 100) as u16 + 1,
    }
}

// A value of 16 places that are drawn.
fn drawn(alloc: Global, words: &mut Pcg64) -> Result<Bits, Fail> {
    let word = words.next_word().to_le_bytes();
    let bytes = [word[0], word[1]];
    if !is_packed(16, &bytes) {
        return Err(Fail::new("two bytes"));
    }
    Ok(Bits::from_bytes(alloc, 16, &bytes)?)
}

// Inserts the row of a number.
fn insert_one<S: Steps>(
    alloc: Global,
    steps: &mut S,
    words: &mut Pcg64,
    number: u32,
) -> Result<(), Fail>
    requires free { Holds (S.seen steps.old) (S.desk steps.old).number Update → ⊥ }
    ensures free { OnOk result (Holds (S.seen steps.new) (S.desk steps.new).number Update → ⊥) }
{
    let params = steps.params();
    if !params.check() {
        return Err(Fail::new("parameters in range"));
    }
    let Kind::Hnsw = params.kind else {
        return Err(Fail::new("a graph"));
    };
    let bits = drawn(alloc, words)?;
    insert(alloc, steps, id_of(number), &bits, words.next_word())?;
    Ok(())
}

/// Inserts the rows of the numbers from this one up to the next, each with a drawn value and a drawn word.
pub fn insert_drawn<S: Steps>(
    alloc: Global,
    steps: &mut S,
    words: &mut Pcg64,
    from: u32,
    to: u32,
) -> Result<(), Fail>
    requires free { Holds (S.seen steps.old) (S.desk steps.old).number Update → ⊥ }
    ensures free { OnOk result (Holds (S.seen steps.new) (S.desk steps.new).number Update → ⊥) }
{
    for number in from..to {
        insert_one(alloc, steps, words, number)?;
    }
    Ok(())
}
