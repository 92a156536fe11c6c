//! Laws of the definitions, and no work.

ghost use Rattle.std.specs.Prelude.{ℕ, ◌≡◌, List, length};
ghost use Rattle.script_words.specs.declared.command.Command.{Command};
ghost use Rattle.script_words.specs.declared.form.Form.{Form};
ghost use Rattle.script_words.specs.Grammar.{IsFirstOutside, IsScript, command_lines};
ghost use Rattle.script_words.specs.Lines.{lines_of};

/// A law, and no work. A script has one reading: the same bytes give the same commands.
pub fn one_reading()
    ensures { (form : Form) (bytes : List ℕ) (a b : List Command) → IsScript form bytes a → IsScript form bytes b → a ≡ b }
{}

/// A law, and no work. A script has no line outside the form.
pub fn apart()
    ensures { (form : Form) (bytes : List ℕ) (commands : List Command) (line : ℕ) → IsScript form bytes commands
        → ¬ IsFirstOutside form bytes line }
{}

/// A law, and no work. At most one line is the first outside the form.
pub fn one_refusal()
    ensures { (form : Form) (bytes : List ℕ) (a b : ℕ) → IsFirstOutside form bytes a → IsFirstOutside form bytes b → a ≡ b }
{}

/// A law, and no work. A script has as many commands as lines that are not skipped, whose numbers `command_lines` tells.
pub fn numbered()
    ensures { (form : Form) (bytes : List ℕ) (commands : List Command) → IsScript form bytes commands
        → length commands ≡ length (command_lines 1 (lines_of bytes)) }
{}
