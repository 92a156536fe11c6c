// A source and a sink in memory.
ghost use Rattle.std.specs.Prelude.{◌≤◌, length};

use crate::plan::Plan;
use crate::{Outage, Sink, Source};

/// A source over bytes in memory, of which chosen reads fail.
#[derive(Drop)]
pub struct MemSource {
    bytes: Vec<u8>,
    at: usize,
    plan: Plan,
    ghost within: { at ≤ length bytes.items },
}

/// A sink that keeps its bytes in memory, and of which chosen writes fail.
#[derive(Drop)]
pub struct MemSink {
    bytes: Vec<u8>,
    plan: Plan,
}

impl MemSource {
    ghost use Rattle.std.specs.Prelude.{◌≡◌};
    ghost use Rattle.vec_outside.specs.MemStream.{source_left, source_plan};
    ghost use Rattle.vec_outside.specs.Planned.{fresh_plan};

    /// Tells these bytes from the first on. The reads with the numbers in `fail` fail, counted from
    /// 1; a number that is named twice counts once.
    pub fn over(bytes: Vec<u8>, fail: Vec<u64>) -> MemSource
        ensures left { source_left result ≡ bytes.items }
        ensures plan { source_plan result ≡ fresh_plan fail }
    {
        MemSource {
            bytes,
            at: 0,
            plan: Plan::new(fail),
        }
    }
}

impl MemSink {
    ghost use Rattle.std.specs.Prelude.{◌≡◌};
    ghost use Rattle.vec_outside.specs.MemStream.{sink_held, sink_plan};
    ghost use Rattle.vec_outside.specs.Planned.{fresh_plan};

    /// Holds these bytes, and takes others behind them. The writes with the numbers in `fail` fail,
    /// counted from 1; a number that is named twice counts once.
    pub fn over(bytes: Vec<u8>, fail: Vec<u64>) -> MemSink
        ensures held { sink_held result ≡ bytes.items }
        ensures plan { sink_plan result ≡ fresh_plan fail }
    {
        MemSink {
            bytes,
            plan: Plan::new(fail),
        }
    }

    /// The bytes that it holds.
    pub fn bytes(&self) -> &[u8]
        ensures { result.now ≡ sink_held self.now }
    {
        &self.bytes
    }
}

impl Source for MemSource {
    ghost use Rattle.std.specs.Prelude.{◌≡◌, ◌↔◌, Some, min, length, IfOk, IsErr, is_err};
    ghost use Rattle.std.specs.Io.{ReadsAtMost};
    ghost use Rattle.std.specs.Io.KnownBytes.{ReadConsumes};
    ghost use Rattle.vec_outside.specs.Causes.{HasCause};
    ghost use Rattle.vec_outside.specs.MemStream.{source_left, source_plan};
    ghost use Rattle.vec_outside.specs.Planned.{IsDue, counted};

    ghost left = { λ source. Some (source_left source) };

    ghost count = { λ source. (source_plan source).faults };

    /// Fills `into` as far as the bytes go, or fails exactly where the call is to.
    fn read(&mut self, into: &mut [u8]) -> Result<usize, Outage>
        ensures bound { ReadsAtMost result into.new }
        ensures bytes { ReadConsumes (Some (source_left self.old))
            (Some (source_left self.new)) result into.new }
        ensures cause { HasCause (source_plan self.old).faults
            (source_plan self.new).faults result }
        ensures all { IfOk result (λ n. n ≡ min (length into.old) (length (source_left self.old))) }
        ensures due { IsErr result ↔ IsDue (source_plan self.old) }
        ensures plan { source_plan self.new ≡ counted (source_plan self.old) (is_err result) }
    {
        if self.plan.refuses() {
            return Err(Outage::Failed);
        }
        let rest = self.bytes.len() - self.at;
        let n = into.len().min(rest);
        let end = self.at + n;
        into[..n].copy_from_slice(&self.bytes[self.at..end]);
        self.at = end;
        Ok(n)
    }
}

impl Sink for MemSink {
    ghost use Rattle.std.specs.Prelude.{◌≡◌, ◌<◌, ◌↔◌, Some, length, IfOk, IsErrOf};
    ghost use Rattle.std.specs.Io.{WritesAtMost};
    ghost use Rattle.std.specs.Io.KnownBytes.{WriteAppends};
    ghost use Rattle.vec_outside.specs.declared.outage.Outage.TheVariants.{Failed};
    ghost use Rattle.vec_outside.specs.Causes.{HasCause, is_failed};
    ghost use Rattle.vec_outside.specs.MemStream.{sink_held, sink_plan};
    ghost use Rattle.vec_outside.specs.Planned.{IsDue, counted};

    ghost held = { λ sink. Some (sink_held sink) };

    ghost count = { λ sink. (sink_plan sink).faults };

    /// Takes the whole piece, or fails exactly where the call is to.
    fn write(&mut self, bytes: &[u8]) -> Result<usize, Outage>
        ensures bound { WritesAtMost result bytes.now }
        ensures some { IfOk result (λ n. 0 < length bytes.now → 0 < n) }
        ensures bytes { WriteAppends (Some (sink_held self.old))
            (Some (sink_held self.new)) result bytes.now }
        ensures cause { HasCause (sink_plan self.old).faults (sink_plan self.new).faults result }
        ensures all { IfOk result (λ n. n ≡ length bytes.now) }
        ensures due { IsErrOf result Failed ↔ IsDue (sink_plan self.old) }
        ensures plan { sink_plan self.new ≡ counted (sink_plan self.old) (is_failed result) }
    {
        if self.plan.refuses() {
            return Err(Outage::Failed);
        }
        self.bytes.extend_from_slice(bytes)?;
        Ok(bytes.len())
    }
}
