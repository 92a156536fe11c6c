//! A near-neighbour index over bit strings: reads a command script and writes its replies.
#![tactic(auto)]

mod alone;
mod audit;
mod before;
mod commands;
mod creating;
mod done;
mod end;
mod exact;
mod finish;
mod indexed;
mod lone;
mod refusal;
mod replies;
mod streams;
#[cfg(test)]
mod tests;
mod top;

use end::End;
use std::io;
use std::process::ExitCode;
use top::run_alone;
use vec_outside::{FileSink, FileSource, MemDisks};

fn main(rt: HostRuntime) -> ExitCode {
    let words = match words_of(&rt) {
        Ok(words) => words,
        Err(end) => return ended(&rt, end),
    };
    // No verb makes a call of the disks: empty ones in memory stand in for the files.
    let disks = match MemDisks::empty(rt.alloc()) {
        Ok(disks) => disks,
        Err(_) => return ended(&rt, End::Memory),
    };
    let mut source = FileSource::make(&rt);
    let mut sink = FileSink::make(&rt);
    let outcome = run_alone(&rt, rt.alloc(), &words, &mut source, &mut sink, disks);
    ended(&rt, End::from_status(outcome.status, outcome.line))
}

// The words behind the program's name. Words that are no text are refused.
fn words_of(rt: &HostRuntime) -> Result<Vec<String>, End> {
    let all = match std::env::args(rt) {
        Ok(all) => all,
        Err(e) if e.kind() == io::ErrorKind::OutOfMemory => return Err(End::Memory),
        Err(_) => return Err(End::Words),
    };
    let mut words = Vec::new(rt.alloc());
    for word in all.skip(1) {
        if words.push(word).is_err() {
            return Err(End::Memory);
        }
    }
    Ok(words)
}

// Prints what a run ended with, unless all was done, and ends with its status.
fn ended(rt: &HostRuntime, end: End) -> ExitCode {
    if end != End::Done {
        let _ = eprintln!(rt; "vec_run: {end}");
    }
    ExitCode::from(end.status())
}
