// How a run ends: its status, and the line that is printed of it.

use std::fmt;

/// How a run ends.
#[derive(Clone, Copy, Debug, PartialEq, Eq)]
pub enum End {
    /// Everything was done.
    Done,
    /// No memory was found.
    Memory,
    /// The words name nothing that the program does.
    Words,
    /// The line of this number, from 1, is the first that is outside the form.
    Line(u64),
    /// A read of the source failed.
    Read,
    /// A write to the sink failed.
    Write,
    /// A command wanted room that the index or its log does not have.
    Room,
}

impl End {
    ghost use Rattle.std.specs.Prelude.{◌≡◌, ◌⊎◌, ◌≤◌};
    ghost use Rattle.vec_run.specs.Ends.{line_of, status_of};

    /// The status that the program ends with.
    pub fn status(self) -> u8
        ensures { result ≡ status_of self }
    {
        match self {
            End::Done => 0,
            End::Memory => 1,
            End::Words => 2,
            End::Line(_) => 3,
            End::Read => 4,
            End::Write => 5,
            End::Room => 7,
        }
    }

    /// The number of the line that was refused, from 1, and 0 where none was.
    pub fn line(self) -> u64
        ensures { result ≡ line_of self }
    {
        match self {
            End::Line(line) => line,
            End::Done | End::Memory | End::Words | End::Read | End::Write | End::Room => 0,
        }
    }

    /// The end with this status, and at status 3 with this line. Each status of a run has its case:
    /// where a run may end with another one, the check refuses the call until that one has its own.
    pub fn from_status(status: u8, line: u64) -> End
        requires { (status ≤ 5) ⊎ (status ≡ 7) }
        ensures status { status_of result ≡ status }
        ensures line { status ≡ 3 → line_of result ≡ line }
    {
        match status {
            0 => End::Done,
            1 => End::Memory,
            2 => End::Words,
            3 => End::Line(line),
            4 => End::Read,
            5 => End::Write,
            7 => End::Room,
            _ => unreachable!(),
        }
    }
}

impl fmt::Display for End {
    ghost use Rattle.std.specs.Prelude.{Some};
    ghost use Rattle.vec_run.specs.Ends.{text_of};

    ghost output = { λ end. Some (text_of end) };

    fn fmt<W: fmt::Write>(&self, f: &mut fmt::Formatter<W>) -> fmt::Result {
        match self {
            End::Done => write!(f, "done"),
            End::Memory => write!(f, "out of memory"),
            End::Words => write!(f, "words refused"),
            End::Line(line) => write!(f, "line {line} refused"),
            End::Read => write!(f, "read fault"),
            End::Write => write!(f, "write fault"),
            End::Room => write!(f, "room used up"),
        }
    }
}
