// The words of a line, one after the other. What is left of a line is None behind its last word.
ghost use Rattle.std.specs.Prelude.{◌≡◌, ◌≢◌, ◌∷◌, ◌↔◌, [], List, ℕ, IsTrue, MatchOption};
ghost use Rattle.script_words.specs.Lines.{IsCutAt, Lacks, words_left};

use memchr::memchr;

/// The place of the first such byte, from 0.
pub fn find_byte(text: &[u8], byte: u8) -> Option<usize>
    ensures { MatchOption result (Lacks byte text.now) (IsCutAt byte text.now) }
{
    memchr(byte, text)
}

/// The next word, and what is left behind it.
pub fn next_word<'a>(left: Option<&'a [u8]>) -> Option<(&'a [u8], Option<&'a [u8]>)>
    ensures { MatchOption result (words_left left.entry ≡ []) (λ next. words_left left.entry ≡ next.0.now ∷ words_left next.1) }
{
    let text = match left {
        Some(text) => text,
        None => return None,
    };
    match find_byte(text, b' ') {
        Some(at) => Some((&text[..at], Some(&text[at + 1..]))),
        None => Some((text, None)),
    }
}

/// What is left behind this word, where it is the next one.
pub fn after_word<'a>(left: Option<&'a [u8]>, word: &[u8]) -> Option<Option<&'a [u8]>>
    ensures { MatchOption result ((rest : List (List ℕ)) → words_left left.entry ≢ word.now ∷ rest)
        (λ rest. words_left left.entry ≡ word.now ∷ words_left rest) }
{
    let (next, rest) = match next_word(left) {
        Some(next) => next,
        None => return None,
    };
    if is_word(next, word) {
        return Some(rest);
    }
    None
}

/// Whether a word is this one.
pub fn is_word(word: &[u8], name: &[u8]) -> bool
    ensures { IsTrue result ↔ (word.now ≡ name.now) }
{
    word == name
}

/// Whether no word is left.
pub fn is_over(left: Option<&[u8]>) -> bool
    ensures { IsTrue result ↔ (words_left left.entry ≡ []) }
{
    match left {
        Some(_) => false,
        None => true,
    }
}
