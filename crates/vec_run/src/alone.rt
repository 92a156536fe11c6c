// The run of `alone`.
ghost use Rattle.std.specs.Prelude.{ℕ, ◌≡◌, ◌≢◌, ◌+◌, ◌^◌, ◌<◌, ◌≤◌, All, length, None, OnOk, IfOk, IfErr};
ghost use Rattle.vec_outside.specs.Causes.{Rose};
ghost use Rattle.script_words.specs.declared.form.Form.TheVariants as form;
ghost use Rattle.script_jobs.specs.Jobs.{CanBeDone};
ghost use Rattle.vec_run.specs.Exact.{TakesAtMost};
ghost use Rattle.vec_run.specs.Refusals.{IsSourceRefusal, IsTextRefusal};
ghost use Rattle.vec_run.specs.Scripts.{IsDrawn, IsRunEnd, ReadsScript, run_end};
ghost use Rattle.vec_run.specs.Verbs.{IsEndOf};
ghost use Rattle.vec_run.specs.declared.end.End.TheVariants as end;
ghost use Rattle.vec_run.specs.declared.refusal.ReadRefusal.TheVariants as refusal;
ghost use Rattle.vec_run.specs.declared.top.Verb.TheVariants.{Alone};

use crate::audit::Room;
use crate::commands::{Ran, run_commands};
use crate::end::End;
use crate::finish::Finish;
use crate::indexed::Stop;
use crate::refusal::ReadRefusal;
use crate::streams::{read_whole, write_whole};
use drawn_words::draw_words;
use script_words::{Command, Form, command_lines, read_script};
use std::alloc::Global;
use vec_outside::{Outage, Sink, Source};

/// A script that was read: its commands, each with its word drawn, and the number of each one's line.
#[derive(Drop)]
struct Script {
    lines: Vec<u64>,
    commands: Vec<Command>,
}

/// Reads the whole source, runs its commands over an index in memory, and writes the replies.
pub fn run_script<S: Source, K: Sink>(alloc: Global, source: &mut S, sink: &mut K) -> Finish
    ensures end { IsEndOf Alone (S.left source.old) (S.left source.new) (K.held sink.old) (K.held sink.new) result.audit result.room
        result.end }
    ensures no_room { result.end ≢ end.Room → result.room ≡ None }
    ensures refused { (line : ℕ) → result.end ≡ end.Line line → sink.new ≡ sink.old }
    ensures unread { result.end ≡ end.Read → sink.new ≡ sink.old }
    ensures read { result.end ≡ end.Read → Rose (S.count source.old) (S.count source.new) }
    ensures write { result.end ≡ end.Write → Rose (K.count sink.old) (K.count sink.new) }
    ensures taken { TakesAtMost (2 ^ 28 + 1) (S.left source.old) (S.left source.new) }
    ensures source_later { S.count source.old ≤ S.count source.new }
    ensures sink_later { K.count sink.old ≤ K.count sink.new }
{
    match read_drawn(alloc, source) {
        Ok(script) => run_drawn(alloc, &script, sink),
        Err(ReadRefusal::Memory) => Finish::idle(alloc, End::Memory),
        Err(ReadRefusal::Failed) => Finish::idle(alloc, End::Read),
        Err(ReadRefusal::Line(line)) => Finish::idle(alloc, End::Line(line)),
    }
}

// The script of the whole source.
fn read_drawn<S: Source>(alloc: Global, source: &mut S) -> Result<Script, ReadRefusal>
    ensures ok { IfOk result (λ script. ReadsScript (S.left source.old) (S.left source.new) script.lines.items script.commands.items) }
    ensures long { IfOk result (λ script. length script.lines.items ≡ length script.commands.items) }
    ensures can { IfOk result (λ script. All CanBeDone script.commands.items) }
    ensures refused { IfErr result (IsSourceRefusal form.Rowless (S.left source.old)) }
    ensures read { IfErr result (λ why. why ≡ refusal.Failed → Rose (S.count source.old) (S.count source.new)) }
    ensures taken { TakesAtMost (2 ^ 28 + 1) (S.left source.old) (S.left source.new) }
    ensures later { S.count source.old ≤ S.count source.new }
{
    let bytes = read_whole(alloc, source)?;
    match script_of(alloc, &bytes) {
        Ok(script) => Ok(script),
        Err(refusal) => Err(refusal),
    }
}

// The script that a text is.
fn script_of(alloc: Global, bytes: &[u8]) -> Result<Script, ReadRefusal>
    ensures ok { IfOk result (λ script. IsDrawn bytes.now script.lines.items script.commands.items) }
    ensures refused { IfErr result (IsTextRefusal form.Rowless bytes.now) }
{
    let mut commands = read_script(alloc, bytes, Form::Rowless)?;
    let Ok(lines) = command_lines(alloc, bytes) else {
        return Err(ReadRefusal::Memory);
    };
    draw_words(&mut commands);
    Ok(Script { lines, commands })
}

// Runs a script, and writes the replies.
fn run_drawn<K: Sink>(alloc: Global, script: &Script, sink: &mut K) -> Finish
    requires long { length script.now.lines.items ≡ length script.now.commands.items }
    requires can { All CanBeDone script.now.commands.items }
    ensures end { IsRunEnd script.now.lines.items script.now.commands.items (K.held sink.old) (K.held sink.new) result.audit result.room
        result.end }
    ensures no_room { result.end ≢ end.Room → result.room ≡ None }
    ensures write { result.end ≡ end.Write → Rose (K.count sink.old) (K.count sink.new) }
    ensures later { K.count sink.old ≤ K.count sink.new }
{
    let Ran { text, audit, ended } = run_commands(alloc, &script.lines, &script.commands);
    let written = write_whole(sink, &text);
    let (end, room) = end_of(ended, written);
    Finish { end, room, audit }
}

// How a run of commands ended, by whether they were completed and their replies written.
fn end_of(ended: Result<(), Stop>, written: Result<(), Outage>) -> (End, Option<Room>)
    ensures { result ≡ run_end ended written }
{
    match written {
        Err(Outage::Memory) => (End::Memory, None),
        Err(Outage::Failed) => (End::Write, None),
        Ok(()) => match ended {
            Ok(()) => (End::Done, None),
            Err(Stop::Memory) => (End::Memory, None),
            Err(Stop::Room(room)) => (End::Room, Some(room)),
        },
    }
}
