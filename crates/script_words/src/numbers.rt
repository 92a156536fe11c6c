// Numbers, ids and values as words, each in its one spelling.
ghost use Rattle.std.specs.Prelude.{ℕ, ◌≡◌, ◌≢◌, ◌^◌, ◌<◌, ◌∷◌, List, Bool, decimal, IfOk, IsTrue, MatchOption, ◌↔◌};
ghost use Rattle.vec_names.specs.declared.heap_id.HeapId.{HeapId};
ghost use Rattle.bit_code.specs.declared.fault.BitsFault.TheVariants.{Memory};
ghost use Rattle.script_words.specs.Lines.{words_left};
ghost use Rattle.script_words.specs.Commands.{IsBits, IsNumber, IsRowId, id_word};

use crate::fault::NoMemory;
use crate::words::{find_byte, next_word};
use bit_code::{Bits, BitsFault, read_bits};
use itoa::Buffer;
use std::alloc::Global;
use std::str;
use vec_names::HeapId;

/// The next word as a number, and what is left behind it.
pub fn next_number<'a>(left: Option<&'a [u8]>) -> Option<(u64, Option<&'a [u8]>)>
    ensures { MatchOption result ((n : ℕ) (rest : List (List ℕ)) → IsNumber n → words_left left.entry ≢ decimal n ∷ rest)
        (λ next. IsNumber next.0 × (words_left left.entry ≡ decimal next.0 ∷ words_left next.1)) }
{
    let (word, rest) = match next_word(left) {
        Some(next) => next,
        None => return None,
    };
    match read_number(word) {
        Some(number) => Some((number, rest)),
        None => None,
    }
}

/// The next word as an id, and what is left behind it.
pub fn next_id<'a>(left: Option<&'a [u8]>) -> Option<(HeapId, Option<&'a [u8]>)>
    ensures { MatchOption result ((id : HeapId) (rest : List (List ℕ)) → IsRowId id → words_left left.entry ≢ id_word id ∷ rest)
        (λ next. IsRowId next.0 × (words_left left.entry ≡ id_word next.0 ∷ words_left next.1)) }
{
    let (word, rest) = match next_word(left) {
        Some(next) => next,
        None => return None,
    };
    match read_id(word) {
        Some(id) => Some((id, rest)),
        None => None,
    }
}

/// The next word as a value, and what is left behind it.
pub fn next_value<'a>(
    alloc: Global,
    left: Option<&'a [u8]>,
) -> Result<Option<(Bits, Option<&'a [u8]>)>, NoMemory>
    ensures { IfOk result (λ r. MatchOption r ((text : List ℕ) (bits : List Bool) (rest : List (List ℕ)) → IsBits text bits
        → words_left left.entry ≢ text ∷ rest)
        (λ next. (text : List ℕ) × IsBits text next.0 × (words_left left.entry ≡ text ∷ words_left next.1))) }
{
    let (word, rest) = match next_word(left) {
        Some(next) => next,
        None => return Ok(None),
    };
    match read_value(alloc, word)? {
        Some(bits) => Ok(Some((bits, rest))),
        None => Ok(None),
    }
}

// A value as 0 and 1.
fn read_value(alloc: Global, word: &[u8]) -> Result<Option<Bits>, NoMemory>
    ensures { IfOk result (λ r. MatchOption r ((bits : List Bool) → ¬ IsBits word.now bits) (λ bits. IsBits word.now bits)) }
{
    let text = match str::from_utf8(word) {
        Ok(text) => text,
        Err(_) => return Ok(None),
    };
    match read_bits(alloc, text) {
        Ok(bits) => Ok(Some(bits)),
        Err(fault) => {
            if is_memory(fault) {
                return Err(NoMemory);
            }
            Ok(None)
        }
    }
}

fn is_memory(fault: BitsFault) -> bool
    ensures { IsTrue result ↔ (fault ≡ Memory) }
{
    match fault {
        BitsFault::Memory => true,
        BitsFault::Empty | BitsFault::BadPlace(_) | BitsFault::TooLong => false,
    }
}

// An id as `B/O`.
fn read_id(word: &[u8]) -> Option<HeapId>
    ensures { MatchOption result ((id : HeapId) → IsRowId id → word.now ≢ id_word id)
        (λ id. IsRowId id × (word.now ≡ id_word id)) }
{
    let at = match find_byte(word, b'/') {
        Some(at) => at,
        None => return None,
    };
    let block = match read_number(&word[..at]) {
        Some(block) => block,
        None => return None,
    };
    let off = match read_number(&word[at + 1..]) {
        Some(off) => off,
        None => return None,
    };
    if block >= 0xFFFF_FFFF {
        return None;
    }
    if off == 0 {
        return None;
    }
    if off > 0xFFFF {
        return None;
    }
    Some(HeapId {
        block: block as u32,
        off: off as u16,
    })
}

// A decimal number below 2^64, with no sign and no leading zero.
fn read_number(word: &[u8]) -> Option<u64>
    ensures { MatchOption result ((n : ℕ) → IsNumber n → word.now ≢ decimal n) (λ n. IsNumber n × (word.now ≡ decimal n)) }
{
    let text = match str::from_utf8(word) {
        Ok(text) => text,
        Err(_) => return None,
    };
    let number: u64 = match text.parse() {
        Ok(number) => number,
        Err(_) => return None,
    };
    // std reads a sign and leading zeros too: only what it would print is the one spelling.
    let mut buffer = Buffer::new();
    if buffer.format(number).as_bytes() == word {
        Some(number)
    } else {
        None
    }
}
