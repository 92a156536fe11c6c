//! The forms of a script.

ghost use Rattle.std.specs.Prelude.{◌↔◌, IsTrue};
ghost use Rattle.script_words.specs.Commands.{IsOf};

use crate::command::Command;

/// Which commands a script may have.
#[derive(Clone, Copy, Debug, PartialEq, Eq)]
pub enum Form {
    /// Rows and queries, all with values of one length.
    Exact,
    /// The commands of one index, without queries.
    Alone,
    /// Those of `Alone` but for rows, of which an index would be built: what the program does today.
    Rowless,
}

/// Whether a form has this command.
pub fn is_of(form: Form, command: &Command) -> bool
    ensures { IsTrue result ↔ IsOf form command.now }
{
    match form {
        Form::Exact => match command {
            Command::Row { word, .. } => word.is_none(),
            Command::Query { .. } => true,
            _ => false,
        },
        Form::Alone => match command {
            Command::Query { .. } => false,
            _ => true,
        },
        Form::Rowless => match command {
            Command::Row { .. } | Command::Query { .. } => false,
            _ => true,
        },
    }
}
