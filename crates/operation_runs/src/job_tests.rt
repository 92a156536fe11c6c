ghost use Rattle.std.specs.Prelude.{◌≡◌, true, IfOk, OnOk};
ghost use Rattle.vec_names.specs.Params.{IsInRange};
ghost use Rattle.vec_names.specs.declared.params.Kind.TheVariants.{Hnsw};
ghost use Rattle.vec_steps.specs.Calls.{HoldsNone};
ghost use Rattle.loaded_index.specs.Loading.{CanGoOn};
ghost use Rattle.vec_board.specs.Standing.{acts_of};
ghost use Rattle.script_jobs.specs.Jobs.{CanBeDone};

use empty_index::empty_index;
use loaded_index::Loaded;
use script_jobs::{Job, one};
use script_words::{Command, Form, Reply, read_script, write_reply};
use std::alloc::Global;
use std::test::*;
use vec_board::{Board, LoneDesk};
use vec_names::{Kind, Ops, Params};
use vec_outside::{Area, Disks, MemDisks};
use vec_steps::Steps;

// An index of values of so many places without rows, as a create leaves it.
fn loaded(alloc: Global, ops: Ops, bits: u32) -> Result<Loaded, Fail>
    ensures { IfOk result CanGoOn }
{
    let params = Params {
        kind: Kind::Hnsw,
        ops,
        bits,
        m: 2,
        ef: 4,
        lists: 0,
    };
    if !params.check() {
        return Err(Fail::new("parameters in range"));
    }
    let pages = empty_index(alloc, params)?;
    Ok(Loaded {
        pages,
        epoch: 1,
        area: Area::Log0,
        before: 0,
        end: 40,
        used: 0,
        unwritten: Vec::new(alloc),
    })
}

// A desk that is alone at the board of that index.
fn desk(alloc: Global, ops: Ops, bits: u32) -> Result<LoneDesk<MemDisks>, Fail>
    ensures { IfOk result (λ desk. HoldsNone (acts_of desk.board.core) 0) }
{
    let log = vec![in alloc; 0; 40]?;
    let none = Vec::new(alloc);
    let other = vec![in alloc; 0; 40]?;
    let fail = Vec::new(alloc);
    let disks = MemDisks::over(alloc, none, log, other, fail);
    let loaded = loaded(alloc, ops, bits)?;
    if (disks.bytes(loaded.area).len() as u64) < loaded.end {
        return Err(Fail::new("an area to the log's end"));
    }
    Ok(LoneDesk::over(Board::from_loaded(alloc, disks, loaded)))
}

// Whether the command can be done.
fn can_be_done(command: &Command) -> bool
    ensures { result ≡ true → CanBeDone command.now }
{
    match command {
        Command::Query { .. } => false,
        Command::Insert { word, .. } => word.is_some(),
        _ => true,
    }
}

// Does a command.
fn done<S: Steps>(
    alloc: Global,
    steps: &mut S,
    line: u64,
    command: &Command,
) -> Result<(Reply, Job), Fail>
    requires gates { HoldsNone (S.seen steps.old) (S.desk steps.old).number }
    ensures gates { OnOk result (HoldsNone (S.seen steps.new) (S.desk steps.new).number) }
{
    let params = steps.params();
    if !params.check() {
        return Err(Fail::new("parameters in range"));
    }
    let Kind::Hnsw = params.kind else {
        return Err(Fail::new("a graph"));
    };
    if !can_be_done(command) {
        return Err(Fail::new("a command that can be done"));
    }
    Ok(one(alloc, steps, line, command)?)
}

// Does a command, and puts what it is answered and its job last.
fn do_next<S: Steps>(
    alloc: Global,
    steps: &mut S,
    line: u64,
    command: &Command,
    text: &mut Vec<u8>,
    jobs: &mut Vec<Job>,
) -> Result<(), Fail>
    requires gates { HoldsNone (S.seen steps.old) (S.desk steps.old).number }
    ensures gates { OnOk result (HoldsNone (S.seen steps.new) (S.desk steps.new).number) }
{
    let (reply, job) = done(alloc, steps, line, command)?;
    write_reply(&reply, text)?;
    jobs.push(job)?;
    Ok(())
}

// Does commands, one after the other, as lines from 1 on.
fn do_all<S: Steps>(
    alloc: Global,
    steps: &mut S,
    commands: &[Command],
    text: &mut Vec<u8>,
    jobs: &mut Vec<Job>,
) -> Result<(), Fail>
    requires gates { HoldsNone (S.seen steps.old) (S.desk steps.old).number }
{
    'line: for i in 0..commands.len() {
        do_next(alloc, steps, i as u64 + 1, &commands[i], text, jobs)?;
    }
    Ok(())
}

// Does a script over an index without rows: what it is answered, and its jobs.
fn run(
    alloc: Global,
    ops: Ops,
    script: &str,
    text: &mut Vec<u8>,
    jobs: &mut Vec<Job>,
) -> Result<(), Fail> {
    let commands = read_script(alloc, script.as_bytes(), Form::Alone)?;
    let mut desk = desk(alloc, ops, 4)?;
    do_all(alloc, &mut desk, commands.as_slice(), text, jobs)
}

// Whether a script over an index of values of four places without rows is answered so.
fn is_answered(alloc: Global, ops: Ops, script: &str, wanted: &str) -> Result<bool, Fail> {
    let mut text = Vec::new(alloc);
    let mut jobs = Vec::new(alloc);
    run(alloc, ops, script, &mut text, &mut jobs)?;
    Ok(text.as_slice() == wanted.as_bytes())
}

/// Two rows come to 1/1 and 1/3. In Jaccard's measure a third of two places is shared, and nothing of no place at all.
#[test]
fn rows_are_put_and_found(rt: HostRuntime) -> Result<(), Fail> {
    let script = "insert 1/1 1100 18446744073709551615
search 1010 limit 5
insert 1/2 0000 18446744073709551615
search 0000 limit 5
";
    let wanted = "put 1/1 level 0 version 1
hit 1/1 2/3
hits 1
put 1/3 level 0 version 1
hit 1/1 1/1
hit 1/2 1/1
hits 2
";
    assert!(rt; is_answered(rt.alloc(), Ops::Jaccard, script, wanted)?);
    Ok(())
}

/// Ten rows of one value share a node, and the eleventh opens a second one; a search tells all of them, in order.
#[test]
fn ten_rows_share_a_node(rt: HostRuntime) -> Result<(), Fail> {
    let script = "insert 1/1 0101 18446744073709551615
insert 1/2 0101 18446744073709551615
insert 1/3 0101 18446744073709551615
insert 1/4 0101 18446744073709551615
insert 1/5 0101 18446744073709551615
insert 1/6 0101 18446744073709551615
insert 1/7 0101 18446744073709551615
insert 1/8 0101 18446744073709551615
insert 1/9 0101 18446744073709551615
insert 1/10 0101 18446744073709551615
insert 1/11 0101 18446744073709551615
search 0101 limit 20
";
    let wanted = "put 1/1 level 0 version 1
joined 1/1
joined 1/1
joined 1/1
joined 1/1
joined 1/1
joined 1/1
joined 1/1
joined 1/1
joined 1/1
put 1/3 level 0 version 1
hit 1/1 0
hit 1/2 0
hit 1/3 0
hit 1/4 0
hit 1/5 0
hit 1/6 0
hit 1/7 0
hit 1/8 0
hit 1/9 0
hit 1/10 0
hit 1/11 0
hits 11
";
    assert!(rt; is_answered(rt.alloc(), Ops::Hamming, script, wanted)?);
    Ok(())
}

/// Without a row nothing is found, and no node is counted.
#[test]
fn nothing_is_found_without_rows(rt: HostRuntime) -> Result<(), Fail> {
    let script = "search 0000 limit 3
search 0000 limit 3 relaxed
stats
";
    let wanted = "hits 0
hits 0
stats blocks 1 nodes 0 live 0 doomed 0 deleted 0 entries 0
";
    assert!(rt; is_answered(rt.alloc(), Ops::Hamming, script, wanted)?);
    Ok(())
}

/// Three rows are found in order of distance and place, as many as were asked for; a row and a draw are answered by nothing.
#[test]
fn as_many_as_were_asked_for(rt: HostRuntime) -> Result<(), Fail> {
    let script = "insert 1/1 0000 18446744073709551615
insert 1/2 0011 18446744073709551615
insert 1/3 0111 18446744073709551615
row 2/1 0000
draw 7
search 0001 limit 10 ef 4
search 0001 limit 2 ef 4
search 0001 limit 0
stats
";
    let wanted = "put 1/1 level 0 version 1
put 1/3 level 0 version 1
put 1/5 level 0 version 1
hit 1/1 1
hit 1/2 1
hit 1/3 2
hits 3
hit 1/1 1
hit 1/2 1
hits 2
hits 0
stats blocks 2 nodes 3 live 3 doomed 0 deleted 0 entries 3
";
    assert!(rt; is_answered(rt.alloc(), Ops::Hamming, script, wanted)?);
    Ok(())
}

/// With one element a batch, a search ends with its first one, or goes on until it has as many rows as were asked for, or all.
#[test]
fn a_search_goes_on(rt: HostRuntime) -> Result<(), Fail> {
    let script = "insert 1/1 0000 18446744073709551615
insert 1/2 0011 18446744073709551615
insert 1/3 0111 18446744073709551615
search 0000 limit 10 ef 1
search 0000 limit 2 ef 1 relaxed
search 0000 limit 10 ef 1 strict 2147483647
";
    let wanted = "put 1/1 level 0 version 1
put 1/3 level 0 version 1
put 1/5 level 0 version 1
hit 1/1 0
hits 1
hit 1/1 0
hit 1/2 2
hits 2
hit 1/1 0
hit 1/2 2
hit 1/3 3
hits 3
";
    assert!(rt; is_answered(rt.alloc(), Ops::Hamming, script, wanted)?);
    Ok(())
}

/// A value of another length is refused, but a number out of its range before it; and a create, where an index stands.
#[test]
fn what_is_refused(rt: HostRuntime) -> Result<(), Fail> {
    let script = "insert 1/9 00000 18446744073709551615
search 00000 limit 1
search 00000 limit 1 ef 0
search 0000 limit 1 ef 1001
search 0000 limit 1 relaxed 2147483648
create hnsw hamming 4 m 2 ef 4
";
    let wanted = "refused dimensions
refused dimensions
refused params
refused params
refused params
refused exists
";
    assert!(rt; is_answered(rt.alloc(), Ops::Hamming, script, wanted)?);
    Ok(())
}

// Whether the job is of this line and desk 0, from one front to another, with looks at these positions.
fn is_job(job: &Job, line: u64, fronts: [u64; 2], reads: &[u64]) -> bool {
    job.line == line
        && job.desk == 0
        && job.before == fronts[0]
        && job.after == fronts[1]
        && job.reads.as_slice() == reads
}

// Whether the jobs of three inserts and a search are as they are to be.
fn are_jobs(jobs: &[Job]) -> bool {
    if jobs.len() != 4 {
        return false;
    }
    let searched = [16, 16, 16, 16, 16, 18, 18];
    is_job(&jobs[0], 1, [0, 6], &[1, 3, 3])
        && jobs[1].before == 6
        && jobs[1].after == 10
        && is_job(&jobs[3], 4, [15, 19], &searched)
}

/// The first insert makes six acts: the gate and its release, the gate, the Put, the entry point and the release; the second one four,
/// with a link, and the third one five, with two. Then a search makes two batches, each between a gate and its release: the first one
/// looks at the meta tuple, the entry point, its slots and the two others, the second one at the slots of 1/3, and at 1/3 again.
#[test]
fn jobs_tell_acts_and_looks(rt: HostRuntime) -> Result<(), Fail> {
    let alloc = rt.alloc();
    let script = "insert 1/1 0000 18446744073709551615
insert 1/2 0011 18446744073709551615
insert 1/3 0111 18446744073709551615
search 0000 limit 2 ef 1 relaxed
";
    let mut text = Vec::new(alloc);
    let mut jobs = Vec::new(alloc);
    run(alloc, Ops::Hamming, script, &mut text, &mut jobs)?;
    assert!(rt; are_jobs(jobs.as_slice()));
    Ok(())
}
