// The words behind `search`.
ghost use Rattle.std.specs.Prelude.{ℕ, ◌≡◌, ◌≢◌, ◌∷◌, ◌++◌, List, Bool, Option, IfOk, MatchOption, codes, decimal};
ghost use Rattle.script_words.specs.declared.command.Further.{Further as AnyFurther};
ghost use Rattle.script_words.specs.Lines.{words_left};
ghost use Rattle.script_words.specs.Commands.{IsFurther, IsNumber, IsSearch, further_words};

use crate::command::Further;
use crate::fault::NoMemory;
use crate::numbers::{next_number, next_value};
use crate::options::{last_number, named_number};
use crate::words::{after_word, is_over};
use bit_code::Bits;
use std::alloc::Global;

/// A search that is asked for.
#[derive(Drop)]
pub struct Asked {
    pub bits: Bits,
    pub limit: u64,
    pub ef: Option<u64>,
    pub further: Option<Further>,
}

/// The words behind `search`: a value, how many rows are wanted, and how the search goes.
pub fn read_search(alloc: Global, left: Option<&[u8]>) -> Result<Option<Asked>, NoMemory>
    ensures { IfOk result (λ r. MatchOption r ((bits : List Bool) (limit : ℕ) (ef : Option ℕ) (further : Option AnyFurther)
        → ¬ IsSearch (words_left left.entry) bits limit ef further)
        (λ asked. IsSearch (words_left left.entry) asked.bits asked.limit asked.ef asked.further)) }
{
    let (bits, behind) = match next_value(alloc, left)? {
        Some(next) => next,
        None => return Ok(None),
    };
    let (limit, rest) = match limit_number(behind) {
        Some(next) => next,
        None => return Ok(None),
    };
    let (ef, last) = match named_number(rest, b"ef") {
        Some(next) => next,
        None => return Ok(None),
    };
    match read_further(last) {
        Some(further) => Ok(Some(Asked {
            bits,
            limit,
            ef,
            further,
        })),
        None => Ok(None),
    }
}

// How many rows are wanted, and what is left behind it.
fn limit_number<'a>(left: Option<&'a [u8]>) -> Option<(u64, Option<&'a [u8]>)>
    ensures { MatchOption result ((n : ℕ) (rest : List (List ℕ)) → IsNumber n → words_left left.entry ≢ codes "limit" ∷ decimal n ∷ rest)
        (λ next. IsNumber next.0 × (words_left left.entry ≡ codes "limit" ∷ decimal next.0 ∷ words_left next.1)) }
{
    match after_word(left, b"limit") {
        Some(behind) => next_number(behind),
        None => None,
    }
}

// How a search goes on, up to the end of the line.
fn read_further(left: Option<&[u8]>) -> Option<Option<Further>>
    ensures { MatchOption result ((further : Option AnyFurther) → IsFurther further → words_left left.entry ≢ further_words further)
        (λ further. IsFurther further × (words_left left.entry ≡ further_words further)) }
{
    if is_over(left) {
        return Some(None);
    }
    if let Some(behind) = after_word(left, b"relaxed") {
        return match last_number(behind) {
            Some(most) => Some(Some(Further::Relaxed { most })),
            None => None,
        };
    }
    let behind = match after_word(left, b"strict") {
        Some(behind) => behind,
        None => return None,
    };
    match last_number(behind) {
        Some(most) => Some(Some(Further::Strict { most })),
        None => None,
    }
}
