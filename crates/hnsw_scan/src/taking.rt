// The rows of a batch: those of elements that an earlier batch knew are read again.
#![tactic(auto)]

ghost use Rattle.std.specs.Prelude.{◌≡◌, [], ◌∷◌, IfOk, OnOk, IfErr, Some, length};
ghost use Rattle.vec_names.specs.Params.{IsInRange};
ghost use Rattle.graph_search.specs.Reads.{AtNode};
ghost use Rattle.graph_search.specs.Search.{element_of};
ghost use Rattle.graph_search.specs.Scan.{rows_of};
ghost use Rattle.vec_steps.specs.Telling.{node_told};
ghost use Rattle.vec_steps.specs.Calls.{Goes};
ghost use Rattle.layer_search.specs.Telling.{OverSpots};
ghost use Rattle.layer_search.specs.Looking.{EndedBy, MadeLooks};
ghost use Rattle.hnsw_scan.specs.Answering.{given_in};
ghost use Rattle.hnsw_scan.specs.Gathering.{TakesRows, rows_told};

use crate::answer::Answer;
use crate::rows::put_rows;
use bit_code::Bits;
use bit_dist::distance;
use neighbour_pick::Found;
use std::alloc::{AllocError, Global};
use vec_names::{Listed, Ops, Tid};
use vec_steps::{Ask, OpFault, Steps, Told, Trace, Word};

// Looks again at an element of the lowest layer, of one version.
fn look_again<S: Steps>(
    steps: &mut S,
    at: Tid,
    version: u8,
    told: &mut Told,
    trace: &mut Trace,
) -> Result<(), OpFault>
    requires { length told.old.bits ≡ (S.desk steps.old).params.bits }
    ensures goes { Goes S.desk S.stands S.comes_from (OverSpots (S.stands steps.old) (S.seen steps.old) 0 []) steps.old steps.new }
    ensures bits { length told.new.bits ≡ (S.desk steps.old).params.bits }
    ensures ok { OnOk result (MadeLooks (OverSpots (S.stands steps.old) (S.seen steps.old) 0 []) (S.desk steps.old)
        (S.seen steps.old) (S.seen steps.new) trace.old.reads trace.new.reads
        ((AtNode at 0 (Some version), node_told told.new.word told.new.list_at told.new) ∷ [])) }
    ensures err { IfErr result (EndedBy (OverSpots (S.stands steps.old) (S.seen steps.old) 0 []) (S.desk steps.old)
        (S.seen steps.old) (S.seen steps.new)) }
{
    let mut ask = Ask::Node {
        at,
        layer: 0,
        version: Some(version),
    };
    steps.step(&mut ask, told)?;
    trace.reads.push(told.at)?;
    Ok(())
}

// Puts the rows last that a look at a node told, with the distance to the query; none where it was gone.
fn put_told(
    into: &mut Listed<Answer>,
    query: &Bits,
    ops: Ops,
    at: Tid,
    told: &Told,
) -> Result<(), AllocError>
    requires { length query.now ≡ length told.now.bits }
    ensures { OnOk result (given_in into.new ≡ rows_told (given_in into.old)
        (element_of ops query.now at (node_told told.now.word told.now.list_at told.now))) }
{
    let Word::Node = told.word else {
        return Ok(());
    };
    let Some(_) = told.list_at else {
        return Ok(());
    };
    let dist = distance(ops, query, &told.bits);
    put_rows(into, at, told.version, dist, told.ids.as_slice())?;
    Ok(())
}

// Takes the rows of one element, which is looked at again where an earlier batch knew it.
fn take_one<S: Steps>(
    steps: &mut S,
    query: &Bits,
    taken: &(Found, bool),
    told: &mut Told,
    answers: &mut Listed<Answer>,
    trace: &mut Trace,
) -> Result<(), OpFault>
    requires query { length query.now ≡ (S.desk steps.old).params.bits }
    requires bits { length told.old.bits ≡ (S.desk steps.old).params.bits }
    ensures goes { Goes S.desk S.stands S.comes_from (OverSpots (S.stands steps.old) (S.seen steps.old) 0 []) steps.old steps.new }
    ensures bits { length told.new.bits ≡ (S.desk steps.old).params.bits }
    ensures ok { OnOk result (TakesRows (OverSpots (S.stands steps.old) (S.seen steps.old) 0 []) (S.desk steps.old)
        (S.seen steps.old) (S.seen steps.new) trace.old.reads trace.new.reads (S.desk steps.old).params.ops query.now
        (taken.now ∷ []) (given_in answers.old) (given_in answers.new)) }
    ensures err { IfErr result (EndedBy (OverSpots (S.stands steps.old) (S.seen steps.old) 0 []) (S.desk steps.old)
        (S.seen steps.old) (S.seen steps.new)) }
{
    let ops = steps.params().ops;
    let element = &taken.0;
    if taken.1 {
        look_again(steps, element.at, element.version, told, trace)?;
        put_told(answers, query, ops, element.at, told)?;
        return Ok(());
    }
    put_rows(
        answers,
        element.at,
        element.version,
        element.dist,
        element.ids.as_slice(),
    )?;
    Ok(())
}

/// Takes the rows of a batch, in its order.
pub fn take_rows<S: Steps>(
    alloc: Global,
    steps: &mut S,
    query: &Bits,
    batch: &[(Found, bool)],
    trace: &mut Trace,
) -> Result<Listed<Answer>, OpFault>
    requires params { IsInRange (S.desk steps.old).params }
    requires query { length query.now ≡ (S.desk steps.old).params.bits }
    ensures goes { Goes S.desk S.stands S.comes_from (OverSpots (S.stands steps.old) (S.seen steps.old) 0 []) steps.old steps.new }
    ensures ok { IfOk result (λ answers. TakesRows (OverSpots (S.stands steps.old) (S.seen steps.old) 0 []) (S.desk steps.old)
        (S.seen steps.old) (S.seen steps.new) trace.old.reads trace.new.reads (S.desk steps.old).params.ops query.now
        batch.now [] (given_in answers)) }
    ensures err { IfErr result (EndedBy (OverSpots (S.stands steps.old) (S.seen steps.old) 0 []) (S.desk steps.old)
        (S.seen steps.old) (S.seen steps.new)) }
{
    let params = steps.params();
    let mut told = Told::make(alloc, params)?;
    let mut answers = Listed::new(alloc);
    for taken in batch {
        take_one(steps, query, taken, &mut told, &mut answers, trace)?;
    }
    Ok(answers)
}
