// A script, line by line.
ghost use Rattle.std.specs.Prelude.{ℕ, ◌≡◌, ◌+◌, ◌^◌, ◌≤◌, ◌<◌, ◌∷◌, ◌++◌, List, Option, [], length, take, drop, IsTrue, MatchResult, map, ◌↔◌};
ghost use Rattle.script_words.specs.Lines.{lines_of, closed_part};
ghost use Rattle.script_words.specs.Grammar.{IsForm, IsScript, FitsAfter, Reads, places_in};
ghost use Rattle.script_words.specs.Faults.{IsAtLine, IsFormFault, IsScriptFault};
ghost use Rattle.script_words.specs.declared.command.Command.{Command as AnyCommand};

use crate::command::Command;
use crate::fault::ScriptFault;
use crate::form::Form;
use crate::line::read_line;
use crate::words::find_byte;
use memchr::memrchr;
use std::alloc::Global;

/// The most bytes of a script.
pub const MOST_BYTES: usize = 1 << 28;

/// Reads a script of a form: its commands, without the lines that are skipped. Lines end with a line feed, which the last one
/// may lack; an empty line and one that begins with `#` are skipped and counted.
///
/// `Line` names the first line that is outside the form, from 1; the line that holds the byte behind the first 2^28 is outside.
pub fn read_script(alloc: Global, bytes: &[u8], form: Form) -> Result<Vec<Command>, ScriptFault>
    ensures { MatchResult result (λ commands. IsScript form bytes.now commands.items) (IsScriptFault form bytes.now) }
{
    if bytes.len() <= MOST_BYTES {
        let front = read_lines(alloc, form, bytes)?;
        return Ok(front.commands);
    }
    // The line that holds the byte past the greatest length is outside; the lines before it are looked at first.
    let front = read_lines(alloc, form, closed_front(&bytes[..MOST_BYTES]))?;
    Err(ScriptFault::Line(front.next))
}

// The text up to its last line feed, and with it.
fn closed_front(text: &[u8]) -> &[u8]
    ensures { result.now ≡ closed_part text.now }
{
    match memrchr(b'\n', text) {
        Some(at) => &text[..at + 1],
        None => &text[..0],
    }
}

/// The commands of lines that are all of the form, and the number of the line behind them, from 1.
#[derive(Drop)]
struct Front {
    commands: Vec<Command>,
    next: u64,
}

fn read_lines(alloc: Global, form: Form, bytes: &[u8]) -> Result<Front, ScriptFault>
    requires { length bytes.now ≤ 2 ^ 28 }
    ensures { MatchResult result (λ front. Reads form (lines_of bytes.now) front.commands.items front.next)
        (IsFormFault form (lines_of bytes.now)) }
{
    let mut front = Front {
        commands: Vec::new(alloc),
        next: 1,
    };
    let mut rest = bytes;
    while !rest.is_empty() {
        let (text, after) = first_line(rest);
        take_line(alloc, form, &mut front, text)?;
        rest = after;
    }
    Ok(front)
}

// Goes on with one line.
fn take_line(alloc: Global, form: Form, front: &mut Front, text: &[u8]) -> Result<(), ScriptFault>
    requires { front.old.next ≤ 2 ^ 28 }
    ensures { (texts : List (List ℕ)) → Reads form texts front.old.commands.items front.old.next
        → MatchResult result (λ _. Reads form (texts ++ text.now ∷ []) front.new.commands.items front.new.next)
        (IsAtLine (length texts + 1) ((others : List (Option AnyCommand)) → ¬ IsForm form (texts ++ text.now ∷ []) others)) }
{
    let number = front.next;
    match read_line(alloc, form, number, text)? {
        Some(command) => {
            if !fits(form, &front.commands, &command) {
                return Err(ScriptFault::Line(number));
            }
            front.commands.push(command)?;
        }
        None => {}
    }
    front.next = number + 1;
    Ok(())
}

// Whether a command's value has the length of the first one, where the form asks that.
fn fits(form: Form, commands: &[Command], command: &Command) -> bool
    ensures { IsTrue result ↔ FitsAfter form (map places_in commands.now) (places_in command.now) }
{
    match form {
        Form::Exact => match commands.first() {
            Some(first) => first.places() == command.places(),
            None => true,
        },
        Form::Alone | Form::Rowless => true,
    }
}

/// The first line, without its line feed, and what stands behind it.
pub fn first_line(text: &[u8]) -> (&[u8], &[u8])
    requires { 0 < length text.now }
    ensures lines { lines_of text.now ≡ result.0.now ∷ lines_of result.1.now }
    ensures shorter { length result.1.now < length text.now }
{
    match find_byte(text, b'\n') {
        Some(at) => (&text[..at], &text[at + 1..]),
        None => (text, &text[text.len()..]),
    }
}
