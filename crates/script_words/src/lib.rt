//! The script: its lines and words, the commands that they spell, the forms that have them, and the replies.
//!
//! `read_script` reads the commands of a form, or names the first line that is outside it. The grammar stands in
//! `specs/Commands.antt`, as the words of each command, and in `specs/Grammar.antt`, as the lines of a script. `write_reply` writes
//! the text of a reply, by `specs/Replies.antt`.
#![tactic(auto)]

mod command;
mod creating;
mod fault;
mod form;
mod laws;
mod line;
mod numbering;
mod numbers;
mod options;
mod replies;
mod reply;
mod rows;
mod script;
mod searching;
mod words;

pub use command::{Command, Further};
pub use fault::ScriptFault;
pub use form::Form;
pub use laws::{apart, numbered, one_reading, one_refusal};
pub use numbering::command_lines;
pub use replies::{write_hits, write_reply};
pub use reply::{Counts, Refusal, Reply};
pub use script::{MOST_BYTES, read_script};

#[cfg(test)]
mod tests;
