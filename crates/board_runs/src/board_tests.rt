//! Boards of small indexes, alone and beside a second desk.

ghost use Rattle.std.specs.Prelude.{◌≡◌, ◌≤◌, IfOk, OnOk, length};
ghost use Rattle.loaded_index.specs.Loading.{CanGoOn};
ghost use Rattle.vec_board.specs.Standing.{acts_of};
ghost use Rattle.vec_board.specs.Boards.{HoldsAlone};

use crate::core_tests::{told_of, two_pages};
use bit_code::read_bits;
use index_sizes::LOG_ROOM;
use loaded_index::Loaded;
use page_bytes::Page;
use std::alloc::Global;
use std::test::*;
use vec_board::{Board, LoneDesk};
use vec_history::{Act, Event, Gate, Hold};
use vec_names::{HeapId, Listed, Tid};
use vec_outside::{Area, Disks, MemDisks};
use vec_steps::{Ask, NewNode, StepFault, Steps, Told, Word};

/// An index of the meta page and an empty page, before which four events were made, with so much used of the log.
fn loaded(alloc: Global, used: u64) -> Result<Loaded, Fail>
    requires { used ≤ 268435456 }
    ensures { IfOk result CanGoOn }
{
    Ok(Loaded {
        pages: two_pages(alloc)?.pages,
        epoch: 1,
        area: Area::Log0,
        before: 4,
        end: 40,
        used,
        unwritten: Vec::new(alloc),
    })
}

/// The board of that index, over disks of which the calls with these numbers are to fail.
pub fn board(alloc: Global, used: u64, fail: Vec<u64>) -> Result<Board<MemDisks>, Fail>
    requires { used ≤ 268435456 }
    ensures bits { IfOk result (λ board. board.core.params.bits ≡ 4) }
    ensures alone { IfOk result (λ board. HoldsAlone (acts_of board.core) 0) }
{
    let log = vec![in alloc; 0; 40]?;
    let none = Vec::new(alloc);
    let other = vec![in alloc; 0; 40]?;
    let disks = MemDisks::over(alloc, none, log, other, fail);
    let loaded = loaded(alloc, used)?;
    if (disks.bytes(loaded.area).len() as u64) < loaded.end {
        return Err(Fail::new("an area to the log's end"));
    }
    let board = Board::from_loaded(alloc, disks, loaded);
    if board.params().bits != 4 {
        return Err(Fail::new("values of four places"));
    }
    Ok(board)
}

/// What a desk was told, at which position, and whether its ask was spent.
pub fn ask(
    board: &mut Board<MemDisks>,
    desk: u32,
    told: &mut Told,
    mut ask: Ask,
) -> Result<(Word, u64, bool), Fail>
    requires bits { length told.old.bits ≡ 4 }
    requires of_four { board.old.core.params.bits ≡ 4 }
    ensures bits { length told.new.bits ≡ 4 }
    ensures of_four { board.new.core.params.bits ≡ 4 }
{
    board.serve(desk, &mut ask, told)?;
    Ok((told.word, told.at, matches!(ask, Ask::Spent)))
}

fn tid(block: u32, off: u16) -> Tid {
    Tid {
        block: block.min(9),
        off: off.max(1),
    }
}

/// A node of level 0 with four empty slots.
fn new_node(alloc: Global) -> Result<NewNode, Fail> {
    let mut lists = Listed::new(alloc);
    lists.extend_from_slice(&[None, None, None, None])?;
    Ok(NewNode {
        level: 0,
        id: HeapId { block: 5, off: 6 },
        bits: read_bits(alloc, "0110")?,
        lists,
    })
}

fn take(gate: Gate, hold: Hold) -> Ask {
    Ask::Take { gate, hold }
}

/// The number on the page of a block.
fn number_on(pages: &[Page], block: usize) -> u64 {
    match pages.get(block) {
        Some(page) => page.number(),
        None => 0,
    }
}

/// Desk 7 puts a node on a new block, which is the act behind its hold.
pub fn put_by_7(alloc: Global, board: &mut Board<MemDisks>, told: &mut Told) -> Result<(), Fail>
    requires bits { length told.old.bits ≡ 4 }
    requires of_four { board.old.core.params.bits ≡ 4 }
    ensures bits { OnOk result (length told.new.bits ≡ 4) }
    ensures of_four { OnOk result (board.new.core.params.bits ≡ 4) }
{
    ask(board, 7, told, take(Gate::Update, Hold::Shared))?;
    let node = new_node(alloc)?;
    ask(board, 7, told, Ask::PutNew { node })?;
    Ok(())
}

/// An ask that was spent is done, and nothing happens.
#[test]
fn a_spent_ask(rt: HostRuntime) -> Result<(), Fail> {
    let alloc = rt.alloc();
    let mut board = board(alloc, 0, Vec::new(alloc))?;
    let mut told = told_of(alloc)?;
    put_by_7(alloc, &mut board, &mut told)?;
    let (word, at, is_spent) = ask(&mut board, 7, &mut told, Ask::Spent)?;
    assert!(rt; word == Word::Done && at == 2 && is_spent);
    assert!(rt; board.acts().len() == 2);
    Ok(())
}

/// It comes by the event of number 5 on block 2, with its list beside it.
#[test]
fn a_node_on_a_new_block(rt: HostRuntime) -> Result<(), Fail> {
    let alloc = rt.alloc();
    let mut board = board(alloc, 0, Vec::new(alloc))?;
    let mut told = told_of(alloc)?;
    put_by_7(alloc, &mut board, &mut told)?;
    assert!(rt; told.word == Word::Done && told.at == 1 && told.tid == Some(tid(2, 1)));
    assert!(rt; board.acts().len() == 2);
    let (_, pages, _) = board.into_core();
    assert!(rt; number_on(pages.as_slice(), 2) == 5 && number_on(pages.as_slice(), 0) == 0);
    Ok(())
}

/// Desk 8 is told the blocks that there are behind the acts of desk 7.
#[test]
fn a_look_of_a_second_desk(rt: HostRuntime) -> Result<(), Fail> {
    let alloc = rt.alloc();
    let mut board = board(alloc, 0, Vec::new(alloc))?;
    let mut told = told_of(alloc)?;
    put_by_7(alloc, &mut board, &mut told)?;
    let look = ask(&mut board, 8, &mut told, Ask::Meta)?;
    assert!(rt; look == (Word::Meta, 2, false) && told.blocks == 3 && told.hint == 1);
    Ok(())
}

/// While a desk holds Vacuum Alone another one is told Busy, its ask stays and there is no act; then it is Done.
#[test]
fn a_gate_that_another_desk_holds(rt: HostRuntime) -> Result<(), Fail> {
    let alloc = rt.alloc();
    let mut board = board(alloc, 0, Vec::new(alloc))?;
    let mut told = told_of(alloc)?;
    let gate = Gate::Vacuum;
    ask(&mut board, 7, &mut told, take(gate, Hold::Alone))?;
    let busy = ask(&mut board, 8, &mut told, take(gate, Hold::Shared))?;
    assert!(rt; busy == (Word::Busy, 1, false) && board.acts().len() == 1);
    ask(&mut board, 7, &mut told, Ask::Release { gate })?;
    let done = ask(&mut board, 8, &mut told, take(gate, Hold::Shared))?;
    assert!(rt; done == (Word::Done, 2, true) && board.acts().len() == 3);
    Ok(())
}

/// A hint takes 10 bytes of the log's room: with 10 left it is made, and with 9 it is refused and stays.
#[test]
fn the_last_bytes_of_the_log(rt: HostRuntime) -> Result<(), Fail> {
    let alloc = rt.alloc();
    let mut board = board(alloc, LOG_ROOM - 10, Vec::new(alloc))?;
    let mut told = told_of(alloc)?;
    let mut hint = Ask::Hint { block: 2 };
    board.serve(7, &mut hint, &mut told)?;
    assert!(rt; told.word == Word::Done && board.acts().len() == 1);
    Ok(())
}

#[test]
fn one_byte_too_few(rt: HostRuntime) -> Result<(), Fail> {
    let alloc = rt.alloc();
    let used = LOG_ROOM - 9;
    let mut board = board(alloc, used, Vec::new(alloc))?;
    let mut told = told_of(alloc)?;
    let mut hint = Ask::Hint { block: 2 };
    let refused = board.serve(7, &mut hint, &mut told);
    assert!(rt; refused == Err(StepFault::LogFull { used, size: 5 }) && board.acts().is_empty());
    assert!(rt; matches!(hint, Ask::Hint { block: 2 }));
    let (_, pages, _) = board.into_core();
    assert!(rt; number_on(pages.as_slice(), 0) == 0);
    Ok(())
}

/// Whether the last act is a fault of the disks that desk 7 counted as the first.
fn is_first_fault(acts: &[Act]) -> bool {
    match acts.last() {
        Some(
            Act {
                desk: 7,
                event: Event::DiskFaulted { count: 1 },
            },
        ) => true,
        _ => false,
    }
}

/// The first call of the disks fails: the desk counts that, and its next settling brings the one event to the disks. A third one
/// has nothing to write.
#[test]
fn a_fault_and_then_settled(rt: HostRuntime) -> Result<(), Fail> {
    let alloc = rt.alloc();
    let mut fail = Vec::with_capacity(alloc, 1)?;
    fail.push(1)?;
    let mut board = board(alloc, 0, fail)?;
    let mut told = told_of(alloc)?;
    let mut hint = Ask::Hint { block: 2 };
    board.serve(7, &mut hint, &mut told)?;
    assert!(rt;
        board.settle(7) == Err(StepFault::Disk { count: 1 }) && is_first_fault(board.acts())
    );
    assert!(rt; board.settle(7) == Ok(1) && board.settle(8) == Ok(1) && board.epoch() == 1);
    let (disks, acts) = board.into_parts();
    assert!(rt; acts.len() == 4 && disks.faults() == 1 && disks.bytes(Area::Log0).len() > 40);
    Ok(())
}

/// A lone desk has the number 0, and what it saw is what it did.
#[test]
fn a_desk_alone(rt: HostRuntime) -> Result<(), Fail> {
    let alloc = rt.alloc();
    let mut desk = LoneDesk::over(board(alloc, 0, Vec::new(alloc))?);
    assert!(rt; desk.number() == 0 && desk.front() == 0 && desk.params().bits == 4);
    let mut told = told_of(alloc)?;
    let mut hold = take(Gate::Update, Hold::Alone);
    desk.step(&mut hold, &mut told)?;
    assert!(rt; told.word == Word::Done && told.at == 0 && desk.front() == 1);
    assert!(rt; desk.settle() == Ok(0) && desk.front() == 2 && desk.epoch() == 1);
    let board = desk.into_board();
    assert!(rt; board.acts().len() == 2);
    Ok(())
}
