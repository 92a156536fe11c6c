// The run of `exact`.
ghost use Rattle.std.specs.Prelude.{ℕ, Option, ◌≡◌, ◌≢◌, ◌+◌, ◌^◌, ◌<◌, ◌≤◌, [], ◌++◌, length, map, OnOk, OnErr, IfOk, IfErr, IfSome};
ghost use Rattle.std.specs.Io.KnownBytes.{Appends, IsAtEnd};
ghost use Rattle.vec_outside.specs.Causes.{HasCause, Rose};
ghost use Rattle.vec_run.specs.Exact.{AppendsFront, MovesFront, TakesAtMost};
ghost use Rattle.script_words.specs.Grammar.{AreEqual, IsScript, places_in};
ghost use Rattle.vec_run.specs.Refusals.{IsSourceRefusal};
ghost use Rattle.vec_run.specs.Replies.{replies_of, reply_at};
ghost use Rattle.vec_run.specs.Runs.{IsIdle};
ghost use Rattle.vec_run.specs.Verbs.{IsEndOf};
ghost use Rattle.vec_run.specs.declared.audit.Audit.{Audit as AnyAudit};
ghost use Rattle.vec_run.specs.declared.audit.Room.{Room as AnyRoom};
ghost use Rattle.vec_run.specs.declared.end.End.TheVariants as end;
ghost use Rattle.vec_run.specs.declared.refusal.ReadRefusal.TheVariants as refusal;
ghost use Rattle.vec_run.specs.declared.top.Verb.TheVariants.{Exact};
ghost use Rattle.script_words.specs.declared.form.Form.TheVariants as form;

use crate::end::End;
use crate::refusal::ReadRefusal;
use crate::replies::write_answer;
use crate::streams::{read_whole, write_whole};
use script_words::{Command, Form, read_script};
use std::alloc::{AllocError, Global};
use vec_outside::{Outage, Sink, Source};

// Replies are gathered to pieces of this size before they are written.
const PIECE: usize = 1 << 16;

/// Reads the whole source, and writes the replies to its queries.
pub fn run_exact<S: Source, K: Sink>(alloc: Global, source: &mut S, sink: &mut K) -> End
    ensures end { (audit : AnyAudit) (room : Option AnyRoom) → IsIdle audit → IsEndOf Exact (S.left source.old) (S.left source.new)
        (K.held sink.old) (K.held sink.new) audit room result }
    ensures refused { (line : ℕ) → result ≡ end.Line line → sink.new ≡ sink.old }
    ensures no_room { result ≢ end.Room }
    ensures unread { result ≡ end.Read → sink.new ≡ sink.old }
    ensures read { result ≡ end.Read → Rose (S.count source.old) (S.count source.new) }
    ensures write { result ≡ end.Write → Rose (K.count sink.old) (K.count sink.new) }
    ensures taken { TakesAtMost (2 ^ 28 + 1) (S.left source.old) (S.left source.new) }
    ensures source_later { S.count source.old ≤ S.count source.new }
    ensures sink_later { K.count sink.old ≤ K.count sink.new }
{
    let commands = match read_commands(alloc, source) {
        Ok(commands) => commands,
        Err(ReadRefusal::Memory) => return End::Memory,
        Err(ReadRefusal::Failed) => return End::Read,
        Err(ReadRefusal::Line(line)) => return End::Line(line),
    };
    match answer_all(alloc, &commands, sink) {
        Ok(()) => End::Done,
        Err(Outage::Memory) => End::Memory,
        Err(Outage::Failed) => End::Write,
    }
}

// The commands of the whole source.
fn read_commands<S: Source>(alloc: Global, source: &mut S) -> Result<Vec<Command>, ReadRefusal>
    ensures ok { IfOk result (λ commands. IfSome (S.left source.old) (λ input.
        IsAtEnd (S.left source.new) × IsScript form.Exact input commands.items)) }
    ensures one_length { IfOk result (λ commands. AreEqual (map places_in commands.items)) }
    ensures refused { IfErr result (IsSourceRefusal form.Exact (S.left source.old)) }
    ensures read { IfErr result (λ why. why ≡ refusal.Failed → Rose (S.count source.old) (S.count source.new)) }
    ensures taken { TakesAtMost (2 ^ 28 + 1) (S.left source.old) (S.left source.new) }
    ensures later { S.count source.old ≤ S.count source.new }
{
    let bytes = read_whole(alloc, source)?;
    let commands = read_script(alloc, &bytes, Form::Exact)?;
    Ok(commands)
}

// The replies to all commands, gathered to large pieces.
fn answer_all<K: Sink>(alloc: Global, commands: &[Command], sink: &mut K) -> Result<(), Outage>
    requires { AreEqual (map places_in commands.now) }
    ensures ok { OnOk result (Appends (K.held sink.old) (K.held sink.new) (replies_of commands.now)) }
    ensures err { OnErr result (AppendsFront (K.held sink.old) (K.held sink.new) (replies_of commands.now)) }
    ensures cause { HasCause (K.count sink.old) (K.count sink.new) result }
{
    let mut gathered = Vec::new(alloc);
    for i in 0..commands.len() {
        answer(alloc, commands, i, &mut gathered)?;
        flush(sink, &mut gathered, PIECE)?;
    }
    flush(sink, &mut gathered, 0)
}

// The reply to one command, after those above it.
fn answer(
    alloc: Global,
    commands: &[Command],
    at: usize,
    gathered: &mut Vec<u8>,
) -> Result<(), AllocError>
    requires within { at < length commands.now }
    requires one_length { AreEqual (map places_in commands.now) }
    ensures { OnOk result (gathered.new.items ≡ gathered.old.items ++ reply_at commands.now at) }
{
    match &commands[at] {
        Command::Query { bits } => write_answer(alloc, &commands[..at], bits, gathered),
        _ => Ok(()),
    }
}

// Writes what is gathered, where it has so many bytes.
fn flush<K: Sink>(sink: &mut K, gathered: &mut Vec<u8>, least: usize) -> Result<(), Outage>
    ensures ok { OnOk result (MovesFront (K.held sink.old) (K.held sink.new) gathered.old.items gathered.new.items) }
    ensures all { OnOk result (least ≤ length gathered.old.items → gathered.new.items ≡ []) }
    ensures err { OnErr result (AppendsFront (K.held sink.old) (K.held sink.new) gathered.old.items) }
    ensures cause { HasCause (K.count sink.old) (K.count sink.new) result }
{
    if gathered.len() < least {
        return Ok(());
    }
    write_whole(sink, gathered)?;
    gathered.clear();
    Ok(())
}
