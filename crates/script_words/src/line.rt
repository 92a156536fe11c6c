// One line of a script.
ghost use Rattle.std.specs.Prelude.{ℕ, ◌≡◌, ◌↔◌, List, Option, codes, IfOk, IsTrue, MatchOption, MatchResult};
ghost use Rattle.script_words.specs.declared.command.Command.{Command as AnyCommand};
ghost use Rattle.script_words.specs.Lines.{words_left, words_of};
ghost use Rattle.script_words.specs.Commands.{HasWords};
ghost use Rattle.script_words.specs.Parts.{HasNoValue, IsBehind};
ghost use Rattle.script_words.specs.Grammar.{IsLine, IsSkipped};
ghost use Rattle.script_words.specs.Faults.{IsAtLine};

use crate::command::Command;
use crate::creating::read_create;
use crate::fault::{NoMemory, ScriptFault};
use crate::form::{Form, is_of};
use crate::numbers::next_number;
use crate::rows::{read_row, read_value_alone};
use crate::searching::read_search;
use crate::words::{after_word, is_over, is_word, next_word};
use std::alloc::Global;

/// Reads the line of this number, without its line feed: a command of the form, or none where the line is skipped. A text that
/// is no line of the form is refused by the number.
pub fn read_line(
    alloc: Global,
    form: Form,
    number: u64,
    text: &[u8],
) -> Result<Option<Command>, ScriptFault>
    ensures { MatchResult result (IsLine form text.now) (IsAtLine number ((line : Option AnyCommand) → ¬ IsLine form text.now line)) }
{
    if is_skipped(text) {
        return Ok(None);
    }
    let command = match read_words(alloc, Some(text))? {
        Some(command) => command,
        None => return Err(ScriptFault::Line(number)),
    };
    if is_of(form, &command) {
        return Ok(Some(command));
    }
    Err(ScriptFault::Line(number))
}

fn is_skipped(text: &[u8]) -> bool
    ensures { IsTrue result ↔ IsSkipped text.now }
{
    match text.first() {
        Some(first) => *first == b'#',
        None => true,
    }
}

// The command that has these words, if one has.
fn read_words(alloc: Global, left: Option<&[u8]>) -> Result<Option<Command>, NoMemory>
    ensures { IfOk result (λ r. MatchOption r ((command : AnyCommand) → ¬ HasWords (words_left left.entry) command)
        (λ command. HasWords (words_left left.entry) command)) }
{
    let (verb, rest) = match next_word(left) {
        Some(next) => next,
        None => return Ok(None),
    };
    if is_word(verb, b"row") {
        return row_behind(alloc, rest);
    }
    if is_word(verb, b"query") {
        return query_behind(alloc, rest);
    }
    if is_word(verb, b"insert") {
        return insert_behind(alloc, rest);
    }
    if is_word(verb, b"search") {
        return search_behind(alloc, rest);
    }
    Ok(plain_behind(verb, rest))
}

// The command that has these words, of those without a value.
fn plain_behind(verb: &[u8], rest: Option<&[u8]>) -> Option<Command>
    ensures { MatchOption result ((command : AnyCommand) → HasNoValue command → ¬ IsBehind verb.now (words_left rest.entry) command)
        (λ command. IsBehind verb.now (words_left rest.entry) command) }
{
    if is_word(verb, b"create") {
        return create_behind(rest);
    }
    if is_word(verb, b"draw") {
        return draw_behind(rest);
    }
    if is_word(verb, b"stats") {
        return stats_behind(rest);
    }
    None
}

fn row_behind(alloc: Global, rest: Option<&[u8]>) -> Result<Option<Command>, NoMemory>
    ensures { IfOk result (λ r. MatchOption r ((command : AnyCommand) → ¬ IsBehind (codes "row") (words_left rest.entry) command)
        (λ command. IsBehind (codes "row") (words_left rest.entry) command)) }
{
    match read_row(alloc, rest)? {
        Some(row) => Ok(Some(Command::Row {
            id: row.id,
            bits: row.bits,
            word: row.word,
        })),
        None => Ok(None),
    }
}

fn insert_behind(alloc: Global, rest: Option<&[u8]>) -> Result<Option<Command>, NoMemory>
    ensures { IfOk result (λ r. MatchOption r ((command : AnyCommand) → ¬ IsBehind (codes "insert") (words_left rest.entry) command)
        (λ command. IsBehind (codes "insert") (words_left rest.entry) command)) }
{
    match read_row(alloc, rest)? {
        Some(row) => Ok(Some(Command::Insert {
            id: row.id,
            bits: row.bits,
            word: row.word,
        })),
        None => Ok(None),
    }
}

fn query_behind(alloc: Global, rest: Option<&[u8]>) -> Result<Option<Command>, NoMemory>
    ensures { IfOk result (λ r. MatchOption r ((command : AnyCommand) → ¬ IsBehind (codes "query") (words_left rest.entry) command)
        (λ command. IsBehind (codes "query") (words_left rest.entry) command)) }
{
    match read_value_alone(alloc, rest)? {
        Some(bits) => Ok(Some(Command::Query { bits })),
        None => Ok(None),
    }
}

fn search_behind(alloc: Global, rest: Option<&[u8]>) -> Result<Option<Command>, NoMemory>
    ensures { IfOk result (λ r. MatchOption r ((command : AnyCommand) → ¬ IsBehind (codes "search") (words_left rest.entry) command)
        (λ command. IsBehind (codes "search") (words_left rest.entry) command)) }
{
    match read_search(alloc, rest)? {
        Some(asked) => Ok(Some(Command::Search {
            bits: asked.bits,
            limit: asked.limit,
            ef: asked.ef,
            further: asked.further,
        })),
        None => Ok(None),
    }
}

fn create_behind(rest: Option<&[u8]>) -> Option<Command>
    ensures { MatchOption result ((command : AnyCommand) → ¬ IsBehind (codes "create") (words_left rest.entry) command)
        (λ command. IsBehind (codes "create") (words_left rest.entry) command) }
{
    let behind = match after_word(rest, b"hnsw") {
        Some(behind) => behind,
        None => return None,
    };
    match read_create(behind) {
        Some(made) => Some(Command::Create {
            ops: made.ops,
            bits: made.bits,
            m: made.m,
            ef: made.ef,
            round: made.round,
        }),
        None => None,
    }
}

fn draw_behind(rest: Option<&[u8]>) -> Option<Command>
    ensures { MatchOption result ((command : AnyCommand) → ¬ IsBehind (codes "draw") (words_left rest.entry) command)
        (λ command. IsBehind (codes "draw") (words_left rest.entry) command) }
{
    let (seed, last) = match next_number(rest) {
        Some(next) => next,
        None => return None,
    };
    if is_over(last) {
        return Some(Command::Draw { seed });
    }
    None
}

fn stats_behind(rest: Option<&[u8]>) -> Option<Command>
    ensures { MatchOption result ((command : AnyCommand) → ¬ IsBehind (codes "stats") (words_left rest.entry) command)
        (λ command. IsBehind (codes "stats") (words_left rest.entry) command) }
{
    if is_over(rest) {
        return Some(Command::Stats);
    }
    None
}
