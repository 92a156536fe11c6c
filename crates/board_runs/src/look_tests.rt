//! Looks of a desk: each with each of its words.

ghost use Rattle.std.specs.Prelude.{◌≡◌, OnOk, length};

use crate::board_tests::{ask, board, put_by_7};
use crate::change_tests::{list_core, list_pages, tid};
use crate::core_tests::told_of;
use std::test::*;
use vec_board::Board;
use vec_names::HeapId;
use vec_outside::MemDisks;
use vec_steps::{Ask, Told, Word};

fn node(off: u16, layer: u8, version: Option<u8>) -> Ask {
    Ask::Node {
        at: tid(2, off),
        layer,
        version,
    }
}

fn list(version: u8) -> Ask {
    Ask::List {
        at: tid(2, 1),
        list_at: tid(2, 2),
        level: 0,
        version,
        layer: 0,
    }
}

/// The word that desk 8 is told of a look.
fn word(board: &mut Board<MemDisks>, told: &mut Told, look: Ask) -> Result<Word, Fail>
    requires bits { length told.old.bits ≡ 4 }
    requires of_four { board.old.core.params.bits ≡ 4 }
    ensures bits { OnOk result (length told.new.bits ≡ 4) }
    ensures of_four { OnOk result (board.new.core.params.bits ≡ 4) }
{
    let (word, _, _) = ask(board, 8, told, look)?;
    Ok(word)
}

/// A node stands at 2/1 with version 1 and level 0, behind two acts.
#[test]
fn a_node_is_told(rt: HostRuntime) -> Result<(), Fail> {
    let alloc = rt.alloc();
    let mut board = board(alloc, 0, Vec::new(alloc))?;
    let mut told = told_of(alloc)?;
    put_by_7(alloc, &mut board, &mut told)?;
    assert!(rt; word(&mut board, &mut told, node(1, 0, Some(1)))? == Word::Node);
    assert!(rt; told.at == 2 && told.level == 0 && told.version == 1);
    assert!(rt; told.list_at == Some(tid(2, 2)) && told.bits.bytes() == [0x60].as_slice());
    assert!(rt; told.ids.as_slice() == [HeapId { block: 5, off: 6 }].as_slice());
    Ok(())
}

/// It is gone where another version or a higher layer is asked for; and so is a place that has no node.
#[test]
fn a_node_is_gone(rt: HostRuntime) -> Result<(), Fail> {
    let alloc = rt.alloc();
    let mut board = board(alloc, 0, Vec::new(alloc))?;
    let mut told = told_of(alloc)?;
    put_by_7(alloc, &mut board, &mut told)?;
    assert!(rt; word(&mut board, &mut told, node(1, 0, Some(2)))? == Word::Gone);
    assert!(rt; word(&mut board, &mut told, node(1, 1, None))? == Word::Gone);
    assert!(rt; word(&mut board, &mut told, node(3, 0, None))? == Word::Gone);
    assert!(rt; word(&mut board, &mut told, list(2))? == Word::Gone);
    Ok(())
}

#[test]
fn slots_and_nodes_of_a_page(rt: HostRuntime) -> Result<(), Fail> {
    let alloc = rt.alloc();
    let mut board = board(alloc, 0, Vec::new(alloc))?;
    let mut told = told_of(alloc)?;
    put_by_7(alloc, &mut board, &mut told)?;
    assert!(rt; word(&mut board, &mut told, list(1))? == Word::List);
    assert!(rt; told.at == 2 && told.tids.as_slice() == [None, None, None, None].as_slice());
    assert!(rt; word(&mut board, &mut told, Ask::Page { block: 2 })? == Word::Page);
    assert!(rt; told.nodes.len() == 1);
    let Some(seen) = told.nodes.get(0) else {
        panic!(rt; "a node stands there")
    };
    assert!(rt; seen.at == tid(2, 1) && !seen.deleted);
    Ok(())
}

/// The centre of the list is 0000, and its first block and its aim are 2, where no row stands.
#[test]
fn centres_and_rows_are_told(rt: HostRuntime) -> Result<(), Fail> {
    let alloc = rt.alloc();
    let pages = list_pages(alloc)?;
    let core = list_core(alloc);
    let mut told = told_of(alloc)?;
    core.look(alloc, 3, &pages, &Ask::Rows { block: 2 }, &mut told)?;
    assert!(rt; told.word == Word::Rows && told.at == 0 && told.next.is_none());
    assert!(rt; told.rows.is_empty());
    core.look(alloc, 3, &pages, &Ask::Centres { block: 1 }, &mut told)?;
    assert!(rt; told.word == Word::Centres && told.centres.len() == 1);
    let Some(centre) = told.centres.get(0) else {
        panic!(rt; "a list stands there")
    };
    assert!(rt; centre.first == 2 && centre.aim == 2 && centre.bits.bytes() == [0].as_slice());
    Ok(())
}
