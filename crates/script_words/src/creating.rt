// The words behind `create hnsw`.
ghost use Rattle.std.specs.Prelude.{ℕ, ◌≡◌, ◌≢◌, ◌∷◌, ◌++◌, List, Option, MatchOption, codes};
ghost use Rattle.vec_names.specs.declared.params.Ops.{Ops as AnyOps};
ghost use Rattle.script_words.specs.Lines.{words_left};
ghost use Rattle.script_words.specs.Commands.{IsCreate, IsNumberIf, named, ops_word};
ghost use Rattle.script_words.specs.Parts.{AreNumbers};

use crate::numbers::next_number;
use crate::options::named_number;
use crate::words::{after_word, is_over};
use vec_names::Ops;

/// An index that is to be made.
#[derive(Clone, Copy)]
pub struct Making {
    pub ops: Ops,
    pub bits: u64,
    pub m: Option<u64>,
    pub ef: Option<u64>,
    pub round: Option<u64>,
}

/// The words behind `create hnsw`: the distance, the number of places, and numbers that may be left out.
pub fn read_create(left: Option<&[u8]>) -> Option<Making>
    ensures { MatchOption result ((ops : AnyOps) (bits : ℕ) (m ef round : Option ℕ)
        → ¬ IsCreate (words_left left.entry) ops bits m ef round)
        (λ made. IsCreate (words_left left.entry) made.ops made.bits made.m made.ef made.round) }
{
    let (ops, behind) = match next_ops(left) {
        Some(next) => next,
        None => return None,
    };
    let (bits, rest) = match next_number(behind) {
        Some(next) => next,
        None => return None,
    };
    match read_numbers(rest) {
        Some((m, ef, round)) => Some(Making {
            ops,
            bits,
            m,
            ef,
            round,
        }),
        None => None,
    }
}

// The next word as a distance, and what is left behind it.
fn next_ops<'a>(left: Option<&'a [u8]>) -> Option<(Ops, Option<&'a [u8]>)>
    ensures { MatchOption result ((ops : AnyOps) (rest : List (List ℕ)) → words_left left.entry ≢ ops_word ops ∷ rest)
        (λ next. words_left left.entry ≡ ops_word next.0 ∷ words_left next.1) }
{
    if let Some(rest) = after_word(left, b"hamming") {
        return Some((Ops::Hamming, rest));
    }
    match after_word(left, b"jaccard") {
        Some(rest) => Some((Ops::Jaccard, rest)),
        None => None,
    }
}

// The numbers m, ef and round, each of which may be left out, up to the end of the line.
fn read_numbers(left: Option<&[u8]>) -> Option<(Option<u64>, Option<u64>, Option<u64>)>
    ensures { MatchOption result ((m ef round : Option ℕ) → ¬ AreNumbers (words_left left.entry) m ef round)
        (λ given. AreNumbers (words_left left.entry) given.0 given.1 given.2) }
{
    let (m, behind_m) = match named_number(left, b"m") {
        Some(next) => next,
        None => return None,
    };
    let (ef, behind_ef) = match named_number(behind_m, b"ef") {
        Some(next) => next,
        None => return None,
    };
    let (round, rest) = match named_number(behind_ef, b"round") {
        Some(next) => next,
        None => return None,
    };
    if is_over(rest) {
        return Some((m, ef, round));
    }
    None
}
