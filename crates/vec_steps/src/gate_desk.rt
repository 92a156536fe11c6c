//! A desk for tests: over a graph that nobody changes, with one gate.
#![tactic(auto)]

ghost use Rattle.std.specs.Prelude.{◌≡◌, ℕ, length, OnOk};
ghost use Rattle.vec_steps.specs.declared.gate_desk.Turn.TheVariants.{Before};
ghost use Rattle.vec_steps.specs.Index.{Index};
ghost use Rattle.vec_steps.specs.Still.{still_stands};
ghost use Rattle.vec_steps.specs.Turns.{acts_of, turn_stands};

use crate::ask::Ask;
use crate::fault::StepFault;
use crate::steps::Steps;
use crate::still_desk::StillDesk;
use crate::told::{Told, Word};
use vec_history::{Gate, Hold};
use vec_names::Params;

/// How far a desk is with its one gate.
#[derive(Clone, Copy, Debug, PartialEq, Eq)]
pub enum Turn {
    Before,
    Holding { gate: Gate, hold: Hold },
    After { gate: Gate, hold: Hold },
}

/// A still desk that takes one gate, once, and gives it back. A second gate it has no memory for.
#[derive(Drop)]
pub struct GateDesk {
    pub still: StillDesk,
    pub turn: Turn,
}

impl GateDesk {
    /// A desk that has taken no gate yet. It stands on what the still desk stands on.
    pub fn over(still: StillDesk) -> GateDesk
        ensures stands { (base : Index) → still_stands still base → turn_stands result base }
        ensures still { result.still ≡ still }
        ensures turn { result.turn ≡ Before }
    {
        GateDesk {
            still,
            turn: Turn::Before,
        }
    }

    // How many acts it made.
    fn count(&self) -> u64
        ensures { (n : ℕ) → result ≡ length (acts_of n self.now.turn) }
    {
        match self.turn {
            Turn::Before => 0,
            Turn::Holding { .. } => 1,
            Turn::After { .. } => 2,
        }
    }
}

impl Steps for GateDesk {
    ghost use Rattle.vec_steps.specs.Turns.{turn_desk, turn_seen, turn_stands, turn_comes, turn_shaped, turn_index, turn_legal, turn_counted};
    ghost use Rattle.vec_steps.specs.Turns.{turn_itself, turn_on};

    ghost desk = { turn_desk };

    ghost seen = { turn_seen };

    ghost spare = { λ d. 0 };

    ghost stands = { turn_stands };

    ghost comes_from = { turn_comes };

    fn number(&self) -> u32 {
        self.still.number
    }

    fn params(&self) -> Params {
        self.still.graph.params
    }

    fn front(&self) -> u64 {
        self.count()
    }

    fn step(&mut self, ask: &mut Ask, told: &mut Told) -> Result<(), StepFault> {
        told.at = self.count();
        match ask {
            Ask::Take { gate, hold } => {
                let Turn::Before = self.turn else {
                    return Err(StepFault::Memory);
                };
                self.turn = Turn::Holding {
                    gate: *gate,
                    hold: *hold,
                };
                told.word = Word::Done;
                *ask = Ask::Spent;
                Ok(())
            }
            Ask::Release { gate } => {
                let Turn::Holding { gate: held, hold } = self.turn else {
                    return Err(StepFault::LogFull { used: 0, size: 0 });
                };
                if held != *gate {
                    return Err(StepFault::LogFull { used: 0, size: 0 });
                }
                self.turn = Turn::After { gate: held, hold };
                told.word = Word::Done;
                *ask = Ask::Spent;
                Ok(())
            }
            _ => self.still.answer(ask, told),
        }
    }

    fn settle(&mut self) -> Result<u64, StepFault> {
        Err(StepFault::Memory)
    }

    ghost shaped = { turn_shaped };

    ghost index = { turn_index };

    ghost legal = { turn_legal };

    ghost counted = { turn_counted };

    ghost comes_itself = { turn_itself };

    ghost comes_on = { turn_on };
}
