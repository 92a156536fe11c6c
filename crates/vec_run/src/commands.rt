// The commands of a script, one after the other.
ghost use Rattle.std.specs.Prelude.{ℕ, ◌≡◌, ◌<◌, ◌++◌, ◌∷◌, [], All, length, slice_get, Some, None, Err, OnOk, OnErr, IfErr};
ghost use Rattle.vec_names.specs.Params.{IsInRange};
ghost use Rattle.vec_names.specs.declared.params.Kind.TheVariants.{Hnsw};
ghost use Rattle.script_words.specs.declared.command.Command.{Command as AnyCommand};
ghost use Rattle.script_words.specs.declared.reply.Reply.TheVariants.{Created};
ghost use Rattle.script_words.specs.Replies.{reply_text};
ghost use Rattle.script_jobs.specs.declared.job.Job.{Job as AnyJob};
ghost use Rattle.script_jobs.specs.Jobs.{CanBeDone, IsJob};
ghost use Rattle.vec_run.specs.declared.indexed.Stop.TheVariants.{Memory};
ghost use Rattle.vec_run.specs.Alone.{IsMaking};
ghost use Rattle.vec_run.specs.Runs.{AnswersTo, MakesAll, MakesSome, RunsTo, StopsTo};

use crate::audit::Audit;
use crate::before::{answer_first, idle_job};
use crate::done::Done;
use crate::indexed::Stop;
use crate::lone::{lone_desk, run_lone};
use script_words::{Command, Reply};
use std::alloc::{AllocError, Global};
use vec_history::Act;
use vec_names::Params;

/// What was made of a create and of the commands behind it.
#[derive(Drop)]
struct Made {
    // The line of the create, if the index was made.
    created: Option<u64>,
    // What happened to it.
    acts: Vec<Act>,
    ended: Result<(), Stop>,
}

/// What a run came to.
#[derive(Drop)]
pub struct Ran {
    /// The replies.
    pub text: Vec<u8>,
    pub audit: Audit,
    /// Whether all commands were completed.
    pub ended: Result<(), Stop>,
}

// Nothing was made for want of memory.
fn none_made(alloc: Global) -> Made
    ensures created { result.created ≡ None }
    ensures acts { result.acts.items ≡ [] }
    ensures ended { result.ended ≡ Err Memory }
{
    Made {
        created: None,
        acts: Vec::new(alloc),
        ended: Err(Stop::Memory),
    }
}

// A create of this line made an index, of one block and no row.
fn answer_create(alloc: Global, line: u64, done: &mut Done) -> Result<(), AllocError>
    ensures text { OnOk result (done.new.text.items ≡ done.old.text.items ++ reply_text (Created 1 0)) }
    ensures jobs { OnOk result ((j : AnyJob) × IsJob j line 0 [] [] [] × (done.new.jobs.items ≡ done.old.jobs.items ++ j ∷ [])) }
    ensures kept_text { OnErr result (done.new.text.items ≡ done.old.text.items) }
    ensures kept_jobs { OnErr result (done.new.jobs.items ≡ done.old.jobs.items) }
{
    let reply = Reply::Created {
        blocks: 1,
        entries: 0,
    };
    done.complete(alloc, &reply, idle_job(alloc, line))
}

// Makes the index of the command of this number, and does those behind it.
fn run_new(
    alloc: Global,
    lines: &[u64],
    commands: &[Command],
    at: usize,
    params: Params,
    done: &mut Done,
) -> Made
    requires long { length lines.now ≡ length commands.now }
    requires can { All CanBeDone commands.now }
    requires params { IsInRange params }
    requires nodes { params.kind ≡ Hnsw }
    requires within { at < length commands.now }
    requires making { (c : AnyCommand) → slice_get commands.now at ≡ Some c → IsMaking c params }
    requires answered { AnswersTo lines.now commands.now at done.old }
    ensures ok { OnOk result.ended (MakesAll lines.now commands.now result done.new) }
    ensures err { IfErr result.ended (MakesSome lines.now commands.now result done.new) }
{
    let Ok(desk) = lone_desk(alloc, params) else {
        return none_made(alloc);
    };
    let line = lines[at];
    match answer_create(alloc, line, done) {
        Ok(()) => {
            let (ended, acts) = run_lone(
                alloc,
                desk,
                params,
                &lines[at + 1..],
                &commands[at + 1..],
                done,
            );
            Made {
                created: Some(line),
                acts,
                ended,
            }
        }
        Err(_) => none_made(alloc),
    }
}

/// Runs the commands of these lines, one after the other, over an index in memory that one of them makes.
pub fn run_commands(alloc: Global, lines: &[u64], commands: &[Command]) -> Ran
    requires long { length lines.now ≡ length commands.now }
    requires can { All CanBeDone commands.now }
    ensures ok { OnOk result.ended (RunsTo lines.now commands.now result) }
    ensures err { IfErr result.ended (StopsTo lines.now commands.now result) }
{
    let mut done = Done::new(alloc);
    match answer_first(alloc, lines, commands, &mut done) {
        Ok(Some((at, params))) => {
            let made = run_new(alloc, lines, commands, at, params, &mut done);
            into_ran(alloc, made, done)
        }
        Ok(None) => {
            let made = Made {
                created: None,
                acts: Vec::new(alloc),
                ended: Ok(()),
            };
            into_ran(alloc, made, done)
        }
        Err(_) => into_ran(alloc, none_made(alloc), done),
    }
}

fn into_ran(alloc: Global, made: Made, done: Done) -> Ran
    ensures text { result.text ≡ done.text }
    ensures jobs { result.audit.jobs ≡ done.jobs }
    ensures created { result.audit.created ≡ made.created }
    ensures acts { result.audit.acts ≡ made.acts }
    ensures epochs { result.audit.epochs.items ≡ [] }
    ensures ended { result.ended ≡ made.ended }
{
    let Made {
        created,
        acts,
        ended,
    } = made;
    let Done { text, jobs } = done;
    Ran {
        text,
        audit: Audit {
            created,
            acts,
            jobs,
            epochs: Vec::new(alloc),
        },
        ended,
    }
}
