//! What a step tells.

ghost use Rattle.std.specs.Prelude.{◌≡◌, IfOk, IfErr, length};
ghost use Rattle.vec_names.specs.Params.{IsInRange};
ghost use Rattle.vec_steps.specs.declared.fault.StepFault.TheVariants.{Memory};

use crate::fault::StepFault;
use crate::seen::{Centre, RowSeen, Seen};
use crate::slots::Slots;
use arrayvec::ArrayVec;
use bit_code::Bits;
use std::alloc::Global;
use vec_names::{HeapId, Listed, Params, Tid};

/// What became of an ask.
#[derive(Clone, Copy, Debug, PartialEq, Eq)]
pub enum Word {
    /// It was done.
    Done,
    /// The looks' words: what they tell stands in the fields.
    Meta,
    Node,
    List,
    Page,
    Rows,
    Centres,
    /// No such node stands there any more.
    Gone,
    /// The block has no room.
    NoRoom,
    /// The index has as many blocks as it may.
    Full,
    /// The node is not as it was read.
    Stale,
    /// The slot holds another place than was read, or the list goes on behind the block.
    Changed,
    /// The node takes no further row: it has none, or as many as it may.
    NotJoined,
    /// Another desk holds the gate.
    Busy,
}

/// What a step tells. It is made once, and filled by each step: a step that only looks takes no memory for it.
///
/// `at` is the position: the number of acts before the look or the change. Which other fields count, the word and the ask say.
#[derive(Drop)]
pub struct Told {
    pub at: u64,
    pub word: Word,
    /// The entry point; the place of a new node, or of a new row of a list.
    pub tid: Option<Tid>,
    pub list_at: Option<Tid>,
    pub level: u8,
    pub version: u8,
    /// The number of rows that a node has left.
    pub left: u8,
    pub blocks: u32,
    /// The number of blocks that a new node takes.
    pub need: u32,
    pub hint: u32,
    /// The block behind a block of a list.
    pub next: Option<u32>,
    pub ids: ArrayVec<HeapId, 10>,
    pub bits: Bits,
    /// The slots of one layer.
    pub tids: Slots,
    pub nodes: Listed<Seen>,
    pub rows: Listed<RowSeen>,
    pub centres: Listed<Centre>,
}

impl Told {
    /// One for the desks of an index with these parameters: it has room for a value, and for the slots of one layer.
    pub fn make(alloc: Global, params: Params) -> Result<Told, StepFault>
        requires { IsInRange params }
        ensures bits { IfOk result (λ told. length told.bits ≡ params.bits) }
        ensures memory { IfErr result (λ e. e ≡ Memory) }
    {
        let Ok(bits) = Bits::zeros(alloc, params.bits) else {
            return Err(StepFault::Memory);
        };
        let tids = Slots::make(alloc)?;
        Ok(Told {
            at: 0,
            word: Word::Done,
            tid: None,
            list_at: None,
            level: 0,
            version: 0,
            left: 0,
            blocks: 0,
            need: 0,
            hint: 0,
            next: None,
            ids: ArrayVec::new(),
            bits,
            tids,
            nodes: Listed::new(alloc),
            rows: Listed::new(alloc),
            centres: Listed::new(alloc),
        })
    }
}
