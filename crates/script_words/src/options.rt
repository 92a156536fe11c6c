// Numbers that may be left out.
ghost use Rattle.std.specs.Prelude.{ℕ, ◌≡◌, ◌≢◌, ◌∷◌, ◌++◌, List, Option, None, [], MatchOption};
ghost use Rattle.script_words.specs.Lines.{words_left};
ghost use Rattle.script_words.specs.Commands.{IsNumberIf, maybe, named};
ghost use Rattle.script_words.specs.Parts.{BeginsWith, IsNamedNext};

use crate::numbers::next_number;
use crate::words::{after_word, is_over};

/// The last word as a number, which may be missing. None where something else is left.
pub fn last_number(left: Option<&[u8]>) -> Option<Option<u64>>
    ensures { MatchOption result ((n : Option ℕ) → IsNumberIf n → words_left left.entry ≢ maybe n)
        (λ n. IsNumberIf n × (words_left left.entry ≡ maybe n)) }
{
    if is_over(left) {
        return Some(None);
    }
    let (number, rest) = match next_number(left) {
        Some(next) => next,
        None => return None,
    };
    if is_over(rest) {
        return Some(Some(number));
    }
    None
}

/// The number behind this name, where the name is next, and what is left. None where the name has no number.
pub fn named_number<'a>(
    left: Option<&'a [u8]>,
    name: &[u8],
) -> Option<(Option<u64>, Option<&'a [u8]>)>
    ensures { MatchOption result ((n : Option ℕ) (rest : List (List ℕ)) → ¬ IsNamedNext (words_left left.entry) name.now n rest)
        (λ next. IsNamedNext (words_left left.entry) name.now next.0 (words_left next.1)) }
{
    let behind = match after_word(left, name) {
        Some(behind) => behind,
        None => return Some((None, left)),
    };
    match next_number(behind) {
        Some((number, rest)) => Some((Some(number), rest)),
        None => None,
    }
}
