// Where bytes come from and where they go.
ghost use Rattle.std.specs.Prelude.{◌≡◌, ◌≤◌, ◌<◌, List, ℕ, Option, length, IfOk};
ghost use Rattle.std.specs.Io.{ReadsAtMost, WritesAtMost};
ghost use Rattle.std.specs.Io.KnownBytes.{ReadConsumes, WriteAppends};
ghost use Rattle.vec_outside.specs.Causes.{HasCause};

use crate::Outage;

/// Where bytes come from. It has a count of faults, which never falls.
pub trait Source {
    /// The bytes that are left, where they are told.
    ghost left: { Self → Option (List ℕ) };

    /// How many reads have failed.
    ghost count: { Self → ℕ };

    /// Places the next bytes at the front of `into` and answers how many, at most as many as there
    /// is room for. With room it answers 0 exactly at the end. With none it answers 0 and takes
    /// nothing. What stands behind them in `into` is free. After an error nothing was taken, and
    /// all of `into` is free; `Failed` comes only where the count rose.
    fn read(&mut self, into: &mut [u8]) -> Result<usize, Outage>
        ensures bound { ReadsAtMost result into.new }
        ensures bytes { ReadConsumes (left self.old) (left self.new) result into.new }
        ensures cause { HasCause (count self.old) (count self.new) result };
}

/// Where bytes go. It has a count of faults, which never falls.
pub trait Sink {
    /// The bytes that were taken, where they are told.
    ghost held: { Self → Option (List ℕ) };

    /// How many writes have failed.
    ghost count: { Self → ℕ };

    /// Takes the front of `bytes` and answers how many bytes that is: of a piece that is not empty
    /// at least 1. After an error nothing was taken; `Failed` comes only where the count rose.
    fn write(&mut self, bytes: &[u8]) -> Result<usize, Outage>
        ensures bound { WritesAtMost result bytes.now }
        ensures some { IfOk result (λ n. 0 < length bytes.now → 0 < n) }
        ensures bytes { WriteAppends (held self.old) (held self.new) result bytes.now }
        ensures cause { HasCause (count self.old) (count self.new) result };
}
