// Commands that bring a row or a value.
ghost use Rattle.std.specs.Prelude.{ℕ, ◌≡◌, List, Bool, Option, IfOk, MatchOption};
ghost use Rattle.vec_names.specs.declared.heap_id.HeapId.{HeapId};
ghost use Rattle.script_words.specs.Lines.{words_left};
ghost use Rattle.script_words.specs.Commands.{IsGivenRow, IsValue};

use crate::fault::NoMemory;
use crate::numbers::{next_id, next_value};
use crate::options::last_number;
use crate::words::is_over;
use bit_code::Bits;
use std::alloc::Global;
use vec_names::HeapId;

/// A row: its id, its value, and its own word, if it has one.
#[derive(Drop)]
pub struct GivenRow {
    pub id: HeapId,
    pub bits: Bits,
    pub word: Option<u64>,
}

/// The words of a row: its id, its value, and a number that may be left out.
pub fn read_row(alloc: Global, left: Option<&[u8]>) -> Result<Option<GivenRow>, NoMemory>
    ensures { IfOk result (λ r. MatchOption r ((id : HeapId) (bits : List Bool) (word : Option ℕ)
        → ¬ IsGivenRow (words_left left.entry) id bits word)
        (λ row. IsGivenRow (words_left left.entry) row.id row.bits row.word)) }
{
    let (id, behind) = match next_id(left) {
        Some(next) => next,
        None => return Ok(None),
    };
    let (bits, rest) = match next_value(alloc, behind)? {
        Some(next) => next,
        None => return Ok(None),
    };
    match last_number(rest) {
        Some(word) => Ok(Some(GivenRow { id, bits, word })),
        None => Ok(None),
    }
}

/// A value alone.
pub fn read_value_alone(alloc: Global, left: Option<&[u8]>) -> Result<Option<Bits>, NoMemory>
    ensures { IfOk result (λ r. MatchOption r ((bits : List Bool) → ¬ IsValue (words_left left.entry) bits)
        (λ bits. IsValue (words_left left.entry) bits)) }
{
    let (bits, rest) = match next_value(alloc, left)? {
        Some(next) => next,
        None => return Ok(None),
    };
    if is_over(rest) {
        return Ok(Some(bits));
    }
    Ok(None)
}
