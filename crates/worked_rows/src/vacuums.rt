//! Vacuums made step by step, with what each asks written out: they say nothing of an operation that would choose it.

ghost use Rattle.std.specs.Prelude.{◌≡◌, IfOk, OnOk, length};

use std::alloc::Global;
use std::test::Fail;
use vec_history::{Gate, Hold, Stage};
use vec_names::{Listed, Tid};
use vec_steps::{Ask, Steps, Told, Word};

/// What the desk's steps tell.
pub fn told<S: Steps>(alloc: Global, steps: &S) -> Result<Told, Fail>
    ensures { IfOk result (λ told. length told.bits ≡ (S.desk steps.now).params.bits) }
{
    let params = steps.params();
    if !params.check() {
        return Err(Fail::new("parameters in range"));
    }
    Ok(Told::make(alloc, params)?)
}

// A change that is done.
fn does<S: Steps>(steps: &mut S, told: &mut Told, ask: Ask) -> Result<(), Fail>
    requires { length told.old.bits ≡ (S.desk steps.old).params.bits }
    ensures { OnOk result (length told.new.bits ≡ (S.desk steps.new).params.bits) }
{
    let mut ask = ask;
    steps.step(&mut ask, told)?;
    if told.word != Word::Done {
        return Err(Fail::new("a change that is done"));
    }
    Ok(())
}

// A gate is taken alone and given back, and then a pass begins.
fn begins_pass<S: Steps>(
    steps: &mut S,
    told: &mut Told,
    gate: Gate,
    stage: Stage,
) -> Result<(), Fail>
    requires { length told.old.bits ≡ (S.desk steps.old).params.bits }
    ensures { OnOk result (length told.new.bits ≡ (S.desk steps.new).params.bits) }
{
    let hold = Hold::Alone;
    does(steps, told, Ask::Take { gate, hold })?;
    does(steps, told, Ask::Release { gate })?;
    does(steps, told, Ask::Phase { stage })
}

// A change that is done under the gate Update, which is held for it alone.
fn does_under<S: Steps>(steps: &mut S, told: &mut Told, hold: Hold, ask: Ask) -> Result<(), Fail>
    requires { length told.old.bits ≡ (S.desk steps.old).params.bits }
    ensures { OnOk result (length told.new.bits ≡ (S.desk steps.new).params.bits) }
{
    let gate = Gate::Update;
    does(steps, told, Ask::Take { gate, hold })?;
    does(steps, told, ask)?;
    does(steps, told, Ask::Release { gate })
}

/// A vacuum begins: its gate is taken, and the first pass stands.
pub fn opens<S: Steps>(steps: &mut S, told: &mut Told) -> Result<(), Fail>
    requires { length told.old.bits ≡ (S.desk steps.old).params.bits }
    ensures { OnOk result (length told.new.bits ≡ (S.desk steps.new).params.bits) }
{
    let gate = Gate::Vacuum;
    let hold = Hold::Alone;
    let stage = Stage::Remove;
    does(steps, told, Ask::Take { gate, hold })?;
    does(steps, told, Ask::Phase { stage })
}

/// The node of level 0 at this offset of block 1 loses its first row.
pub fn drops<S: Steps>(steps: &mut S, told: &mut Told, off: u16, version: u8) -> Result<(), Fail>
    requires { length told.old.bits ≡ (S.desk steps.old).params.bits }
    ensures { OnOk result (length told.new.bits ≡ (S.desk steps.new).params.bits) }
{
    let at = tid(off);
    let gone = 1;
    does(steps, told, Ask::Drop { at, version, gone })
}

/// The second pass begins.
pub fn repairs<S: Steps>(steps: &mut S, told: &mut Told) -> Result<(), Fail>
    requires { length told.old.bits ≡ (S.desk steps.old).params.bits }
    ensures { OnOk result (length told.new.bits ≡ (S.desk steps.new).params.bits) }
{
    begins_pass(steps, told, Gate::Update, Stage::Repair)
}

/// There is no entry point any more, which is done under Update alone.
pub fn leaves_none<S: Steps>(steps: &mut S, told: &mut Told) -> Result<(), Fail>
    requires { length told.old.bits ≡ (S.desk steps.old).params.bits }
    ensures { OnOk result (length told.new.bits ≡ (S.desk steps.new).params.bits) }
{
    let ask = Ask::Entry { to: None, level: 0 };
    does_under(steps, told, Hold::Alone, ask)
}

/// The node of level 0 and version 1 at this offset of block 1 names one other and no more, which is done under Update.
pub fn names_one<S: Steps>(
    alloc: Global,
    steps: &mut S,
    told: &mut Told,
    off: u16,
    other: u16,
) -> Result<(), Fail>
    requires { length told.old.bits ≡ (S.desk steps.old).params.bits }
    ensures { OnOk result (length told.new.bits ≡ (S.desk steps.new).params.bits) }
{
    let mut lists = Listed::new(alloc);
    lists.extend_from_slice(&[Some(tid(other)), None, None, None])?;
    let at = tid(off);
    let list_at = list_of(off);
    let version = 1;
    let ask = Ask::Relist {
        at,
        list_at,
        version,
        lists,
    };
    does_under(steps, told, Hold::Shared, ask)
}

/// The third pass begins.
pub fn marks<S: Steps>(steps: &mut S, told: &mut Told) -> Result<(), Fail>
    requires { length told.old.bits ≡ (S.desk steps.old).params.bits }
    ensures { OnOk result (length told.new.bits ≡ (S.desk steps.new).params.bits) }
{
    begins_pass(steps, told, Gate::Scan, Stage::Mark)
}

/// The node of level 0 at this offset of block 1 is deleted.
pub fn deletes<S: Steps>(steps: &mut S, told: &mut Told, off: u16, version: u8) -> Result<(), Fail>
    requires { length told.old.bits ≡ (S.desk steps.old).params.bits }
    ensures { OnOk result (length told.new.bits ≡ (S.desk steps.new).params.bits) }
{
    let at = tid(off);
    let list_at = list_of(off);
    let ask = Ask::Mark {
        at,
        list_at,
        version,
    };
    does(steps, told, ask)
}

/// The vacuum ends, and its gate is given back.
pub fn ends<S: Steps>(steps: &mut S, told: &mut Told) -> Result<(), Fail>
    requires { length told.old.bits ≡ (S.desk steps.old).params.bits }
{
    does(steps, told, Ask::EndVacuum)?;
    does(steps, told, Ask::Release { gate: Gate::Vacuum })
}

// A place on block 1.
fn tid(off: u16) -> Tid {
    Tid {
        block: 1,
        off: off.max(1),
    }
}

// The place of the list of a node at this offset of block 1: the one behind it.
fn list_of(off: u16) -> Tid {
    tid(off.saturating_add(1))
}
