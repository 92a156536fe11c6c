// The top call: from the words, a source, a sink and disks to the end of a run.
ghost use Rattle.std.specs.Prelude.{ℕ, ◌≡◌, ◌≢◌, ◌⊎◌, ◌+◌, ◌^◌, ◌≤◌, ◌↔◌, List, IsTrue, MatchOption, Some, None};
ghost use Rattle.vec_outside.specs.Causes.{Rose};
ghost use Rattle.vec_run.specs.Ends.{line_of, status_of};
ghost use Rattle.vec_run.specs.Exact.{TakesAtMost};
ghost use Rattle.script_words.specs.Grammar.{IsFirstOutside, IsScript};
ghost use Rattle.vec_run.specs.Runs.{IsIdle};
ghost use Rattle.vec_run.specs.Verbs.{IsDone, IsEndOf, IsRefusedAt, IsVerb, UsesNoDisk, WantsRoom, WritesFront, form_of};
ghost use Rattle.script_words.specs.declared.command.Command.{Command};
ghost use Rattle.vec_run.specs.declared.end.End.TheVariants as end;
ghost use Rattle.vec_run.specs.declared.top.Verb.{Verb};
ghost use Rattle.vec_run.specs.declared.top.Verb.TheVariants.{Exact, Alone};

use crate::alone::run_script;
use crate::audit::{Audit, Room};
use crate::end::End;
use crate::exact::run_exact;
use crate::finish::Finish;
use std::alloc::Global;
use std::thread::Threads;
use vec_outside::{Disks, Sink, Source};

/// What the words of a run may name.
#[derive(Clone, Copy, Debug, PartialEq, Eq)]
pub enum Verb {
    /// The single word `exact`: queries are answered over the rows above them by exact Hamming
    /// distance. No call of the disks is made.
    Exact,
    /// The single word `alone`: the commands of a script are run over one index, which begins without rows and stands in memory. No
    /// call of the disks is made.
    Alone,
}

/// The end of a run.
#[derive(Drop)]
pub struct Outcome<D> {
    /// 0: done. 1: no memory was found. 2: the words name no verb. 3: a line of the script is
    /// outside the form. 4: a read of the source failed. 5: a write to the sink failed. 7: a command
    /// wanted room that the index or its log does not have.
    pub status: u8,
    /// At status 3 the number of the first line that is outside, from 1; else 0.
    pub line: u64,
    /// At status 7 the room that was wanted; else none.
    pub room: Option<Room>,
    /// What was made and done.
    pub audit: Audit,
    /// The disks.
    pub disks: D,
}

// Whether the words are the single word `exact`.
fn are_exact(words: &[String]) -> bool
    ensures { IsTrue result ↔ IsVerb words.now Exact }
{
    words.len() == 1 && words[0].as_str() == "exact"
}

// Whether the words are the single word `alone`.
fn are_alone(words: &[String]) -> bool
    ensures { IsTrue result ↔ IsVerb words.now Alone }
{
    words.len() == 1 && words[0].as_str() == "alone"
}

// The verb that the words name.
fn verb_of(words: &[String]) -> Option<Verb>
    ensures { MatchOption result ((verb : Verb) → ¬ IsVerb words.now verb) (IsVerb words.now) }
{
    if are_exact(words) {
        return Some(Verb::Exact);
    }
    if are_alone(words) {
        return Some(Verb::Alone);
    }
    None
}

// Runs a verb.
fn run_verb<S: Source, K: Sink>(alloc: Global, verb: Verb, source: &mut S, sink: &mut K) -> Finish
    ensures end { IsEndOf verb (S.left source.old) (S.left source.new) (K.held sink.old) (K.held sink.new) result.audit result.room
        result.end }
    ensures no_room { result.end ≢ end.Room → result.room ≡ None }
    ensures refused { (line : ℕ) → result.end ≡ end.Line line → sink.new ≡ sink.old }
    ensures unread { result.end ≡ end.Read → sink.new ≡ sink.old }
    ensures read { result.end ≡ end.Read → Rose (S.count source.old) (S.count source.new) }
    ensures write { result.end ≡ end.Write → Rose (K.count sink.old) (K.count sink.new) }
    ensures taken { TakesAtMost (2 ^ 28 + 1) (S.left source.old) (S.left source.new) }
    ensures source_later { S.count source.old ≤ S.count source.new }
    ensures sink_later { K.count sink.old ≤ K.count sink.new }
{
    match verb {
        Verb::Exact => {
            let end = run_exact(alloc, source, sink);
            Finish::idle(alloc, end)
        }
        Verb::Alone => run_script(alloc, source, sink),
    }
}

// The outcome of a run that finished so.
fn outcome_of<D: Disks>(finish: Finish, disks: D) -> Outcome<D>
    ensures status { result.status ≡ status_of finish.end }
    ensures line { result.line ≡ line_of finish.end }
    ensures room { result.room ≡ finish.room }
    ensures audit { result.audit ≡ finish.audit }
    ensures disks { result.disks ≡ disks }
{
    let Finish { end, room, audit } = finish;
    Outcome {
        status: end.status(),
        line: end.line(),
        room,
        audit,
        disks,
    }
}

/// Runs the verb that the words name on a script, which it reads from the source, and writes the
/// replies to the sink.
pub fn run_alone<R: Threads + Sync, S: Source, K: Sink, D: Disks>(
    _rt: &R,
    alloc: Global,
    words: &[String],
    source: &mut S,
    sink: &mut K,
    disks: D,
) -> Outcome<D>
    ensures statuses { (result.status ≤ 5) ⊎ (result.status ≡ 7) }

    // 0: the verb has done its work.
    ensures done { (verb : Verb) → IsVerb words.now verb → result.status ≡ 0
        → IsDone verb (S.left source.old) (S.left source.new) (K.held sink.old) (K.held sink.new) result.audit }

    // 1 is want of memory, which is free; a front of what the verb writes is written then, or nothing was done.
    ensures memory { (verb : Verb) → IsVerb words.now verb → result.status ≡ 1
        → ((K.held sink.new ≡ K.held sink.old) × IsIdle result.audit)
        ⊎ WritesFront verb (S.left source.old) (S.left source.new) (K.held sink.old) (K.held sink.new) result.audit }

    // 2 comes exactly where the words name no verb.
    ensures words { (result.status ≡ 2) ↔ ((verb : Verb) → ¬ IsVerb words.now verb) }
    ensures words_read { result.status ≢ 2 → (verb : Verb) × IsVerb words.now verb }

    // 3 comes exactly where a line is outside the form, unless memory is wanting or a read fails, and the line is the first
    // such. No script has one: `apart`.
    ensures line { (verb : Verb) → IsVerb words.now verb → result.status ≡ 3
        → IsRefusedAt verb (S.left source.old) result.line }
    ensures no_line { result.status ≢ 3 → result.line ≡ 0 }
    ensures refused { (verb : Verb) → IsVerb words.now verb → (input : List ℕ) (line : ℕ)
        → S.left source.old ≡ Some input → IsFirstOutside (form_of verb) input line
        → ¬ Rose (S.count source.old) (S.count source.new) → (result.status ≡ 3) ⊎ (result.status ≡ 1) }

    // 4 comes only where a read failed, and 5 only where a write did, after a front of what the verb writes.
    ensures read { result.status ≡ 4 → Rose (S.count source.old) (S.count source.new) }
    ensures write { result.status ≡ 5 → Rose (K.count sink.old) (K.count sink.new) }
    ensures front { (verb : Verb) → IsVerb words.now verb → result.status ≡ 5
        → WritesFront verb (S.left source.old) (S.left source.new) (K.held sink.old) (K.held sink.new) result.audit }

    // 7 comes only where a command wanted room, which is told; the replies to those before it are written.
    ensures room { (verb : Verb) → IsVerb words.now verb → result.status ≡ 7
        → WantsRoom verb (S.left source.old) (S.left source.new) (K.held sink.old) (K.held sink.new) result.audit result.room }
    ensures no_room { result.status ≢ 7 → result.room ≡ None }

    // At 2, 3 and 4 no call of the sink or of the disks was made, and at 2 none of the source either; no index was made.
    ensures unwritten { (result.status ≡ 2) ⊎ (result.status ≡ 3) ⊎ (result.status ≡ 4) → sink.new ≡ sink.old }
    ensures unread { result.status ≡ 2 → source.new ≡ source.old }
    ensures untouched { (result.status ≡ 2) ⊎ (result.status ≡ 3) ⊎ (result.status ≡ 4) → result.disks ≡ disks }
    ensures idle { (result.status ≡ 2) ⊎ (result.status ≡ 3) ⊎ (result.status ≡ 4) → IsIdle result.audit }

    // A verb that uses no disk makes no call of the disks, however it ends.
    ensures disks { (verb : Verb) → IsVerb words.now verb → UsesNoDisk verb → result.disks ≡ disks }

    // Reading ends after 2^28 + 1 bytes. No count falls.
    ensures taken { TakesAtMost (2 ^ 28 + 1) (S.left source.old) (S.left source.new) }
    ensures read_later { S.count source.old ≤ S.count source.new }
    ensures write_later { K.count sink.old ≤ K.count sink.new }

    // A script is done, unless memory or room is wanting or a count rises.
    ensures complete { (verb : Verb) → IsVerb words.now verb → (input : List ℕ) (commands : List Command)
        → S.left source.old ≡ Some input → IsScript (form_of verb) input commands
        → ¬ Rose (S.count source.old) (S.count source.new) → ¬ Rose (K.count sink.old) (K.count sink.new)
        → (result.status ≡ 0) ⊎ ((result.status ≡ 1) ⊎ (result.status ≡ 7)) }
{
    match verb_of(words) {
        Some(verb) => {
            let finish = run_verb(alloc, verb, source, sink);
            outcome_of(finish, disks)
        }
        None => outcome_of(Finish::idle(alloc, End::Words), disks),
    }
}
