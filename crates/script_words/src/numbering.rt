//! The numbers of the lines that have a command.

ghost use Rattle.std.specs.Prelude.{◌≡◌, ◌^◌, ◌≤◌, length, IfOk};
ghost use Rattle.script_words.specs.Lines.{lines_of};
ghost use Rattle.script_words.specs.Grammar.{command_lines, is_skipped};

use crate::script::first_line;
use std::alloc::{AllocError, Global};

// Whether a line is skipped.
fn is_skipped(text: &[u8]) -> bool
    ensures { result ≡ is_skipped text.now }
{
    match text.first() {
        Some(byte) => *byte == b'#',
        None => true,
    }
}

/// The numbers of the lines of a script that have a command, from 1, in the order of the commands. Its error is want of memory.
pub fn command_lines(alloc: Global, bytes: &[u8]) -> Result<Vec<u64>, AllocError>
    requires { length bytes.now ≤ 2 ^ 28 }
    ensures { IfOk result (λ numbers. numbers.items ≡ command_lines 1 (lines_of bytes.now)) }
{
    let mut numbers = Vec::new(alloc);
    let mut next = 1u64;
    let mut rest = bytes;
    while !rest.is_empty() {
        let (text, after) = first_line(rest);
        if !is_skipped(text) {
            numbers.push(next)?;
        }
        next += 1;
        rest = after;
    }
    Ok(numbers)
}
