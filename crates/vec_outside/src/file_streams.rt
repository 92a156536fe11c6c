// Standard input and standard output. Of their bytes nothing is told.
ghost use Rattle.std.specs.Prelude.{◌≡◌, ◌≤◌, ◌<◌, None, length, IfOk};
ghost use Rattle.vec_outside.specs.FileStream.{source_faults, sink_faults};

use crate::{Outage, Sink, Source};
use std::io::{Read, Stdin, Stdout, Write};

/// Standard input. Each read is one of the system's, without a buffer of its own.
#[derive(Drop)]
pub struct FileSource {
    stdin: Stdin,
    faults: u64,
}

/// Standard output. Each write is one of the system's, without a buffer of its own.
#[derive(Drop)]
pub struct FileSink {
    stdout: Stdout,
    faults: u64,
}

impl FileSource {
    /// Touches no stream.
    pub fn make(rt: &HostRuntime) -> FileSource
        ensures { source_faults result ≡ 0 }
    {
        FileSource {
            stdin: rt.stdin(),
            faults: 0,
        }
    }
}

impl FileSink {
    /// Touches no stream.
    pub fn make(rt: &HostRuntime) -> FileSink
        ensures { sink_faults result ≡ 0 }
    {
        FileSink {
            stdout: rt.stdout(),
            faults: 0,
        }
    }
}

impl Source for FileSource {
    ghost left = { λ source. None };

    ghost count = { source_faults };

    fn read(&mut self, into: &mut [u8]) -> Result<usize, Outage> {
        if into.is_empty() {
            return Ok(0);
        }
        match self.stdin.read(into) {
            Ok(n) => Ok(n),
            Err(_) => {
                self.faults = self.faults.saturating_add(1);
                Err(Outage::Failed)
            }
        }
    }
}

impl Sink for FileSink {
    ghost held = { λ sink. None };

    ghost count = { sink_faults };

    fn write(&mut self, bytes: &[u8]) -> Result<usize, Outage> {
        if bytes.is_empty() {
            return Ok(0);
        }
        match self.stdout.write(bytes) {
            Ok(n) if n > 0 => Ok(n),
            _ => {
                self.faults = self.faults.saturating_add(1);
                Err(Outage::Failed)
            }
        }
    }
}
