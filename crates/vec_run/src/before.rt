// The commands of a script while no index stands.
ghost use Rattle.std.specs.Prelude.{ℕ, ◌≡◌, ◌<◌, ◌∷◌, [], All, length, slice_get, Some, IfOk, IfSome, OnErr, MatchOption};
ghost use Rattle.vec_names.specs.Params.{IsInRange};
ghost use Rattle.vec_names.specs.declared.params.Kind.TheVariants.{Hnsw};
ghost use Rattle.script_words.specs.declared.command.Command.{Command as AnyCommand};
ghost use Rattle.script_jobs.specs.Jobs.{CanBeDone, IsJob};
ghost use Rattle.vec_run.specs.Alone.{IsFirst, IsMaking};
ghost use Rattle.vec_run.specs.Runs.{AnswersTo};

use crate::creating::params_of;
use crate::done::Done;
use script_jobs::Job;
use script_words::{Command, Refusal, Reply};
use std::alloc::{AllocError, Global};
use vec_names::{Listed, Params};

/// What a command comes to while no index stands.
#[derive(Drop)]
pub enum First {
    /// It is answered.
    Told(Reply),
    /// It makes an index with these parameters.
    Makes(Params),
}

// What a command comes to while no index stands.
fn first_of(command: &Command) -> First
    requires { CanBeDone command.now }
    ensures { IsFirst command.now result }
{
    match command {
        Command::Row { .. } | Command::Draw { .. } => First::Told(Reply::Nothing),
        Command::Create {
            ops,
            bits,
            m,
            ef,
            round,
        } => match params_of(*ops, *bits, *m, *ef, *round) {
            Some(params) => First::Makes(params),
            None => First::Told(Reply::Refused {
                why: Refusal::Params,
            }),
        },
        _ => First::Told(Reply::Refused {
            why: Refusal::NoIndex,
        }),
    }
}

/// The job of a command of this line that did nothing, by a desk that has seen no act.
pub fn idle_job(alloc: Global, line: u64) -> Job
    ensures { IsJob result line 0 [] [] [] }
{
    Job {
        line,
        desk: 0,
        before: 0,
        after: 0,
        reads: Listed::new(alloc),
    }
}

/// Answers the commands up to one that makes an index: its number among them, and the parameters. None where no command makes one.
pub fn answer_first(
    alloc: Global,
    lines: &[u64],
    commands: &[Command],
    done: &mut Done,
) -> Result<Option<(usize, Params)>, AllocError>
    requires long { length lines.now ≡ length commands.now }
    requires can { All CanBeDone commands.now }
    requires no_text { done.old.text.items ≡ [] }
    requires no_job { done.old.jobs.items ≡ [] }
    ensures ok { IfOk result (λ found. MatchOption found (AnswersTo lines.now commands.now (length commands.now) done.new)
        (λ f. AnswersTo lines.now commands.now f.0 done.new)) }
    ensures makes { IfOk result (λ found. IfSome found (λ f. (f.0 < length commands.now) × ((c : AnyCommand)
        → slice_get commands.now f.0 ≡ Some c → IsMaking c f.1))) }
    ensures range { IfOk result (λ found. IfSome found (λ f. IsInRange f.1 × (f.1.kind ≡ Hnsw))) }
    ensures err { OnErr result ((count : ℕ) × AnswersTo lines.now commands.now count done.new) }
{
    for i in 0..commands.len() {
        match first_of(&commands[i]) {
            First::Makes(params) => return Ok(Some((i, params))),
            First::Told(reply) => done.complete(alloc, &reply, idle_job(alloc, lines[i]))?,
        }
    }
    Ok(None)
}
