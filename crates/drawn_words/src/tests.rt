use crate::draw_words;
use script_words::{Command, Form, read_script};
use std::alloc::Global;
use std::test::Fail;

// The word of a row or an insert, and 0 of another command.
fn word_of(command: &Command) -> u64 {
    match command {
        Command::Row {
            word: Some(word),
            ..
        } => *word,
        Command::Insert {
            word: Some(word),
            ..
        } => *word,
        _ => 0,
    }
}

fn drawn(alloc: Global, text: &[u8]) -> Result<Vec<Command>, Fail> {
    let mut commands = read_script(alloc, text, Form::Alone)?;
    draw_words(&mut commands);
    Ok(commands)
}

// The generator begins as after `draw 0`; a row with a word of its own draws none.
#[test]
fn words_in_line_order(rt: HostRuntime) -> Result<(), Fail> {
    let text = b"insert 1/1 0\ninsert 1/2 0 5\nrow 1/3 0\ndraw 0\nrow 1/4 0\nstats\ninsert 1/5 0\n";
    let commands = drawn(rt.alloc(), text)?;
    assert_eq!(rt; commands.len(), 7);
    let mut words = [0; 7];
    for i in 0..7 {
        words[i] = word_of(&commands[i]);
    }
    assert_eq!(rt; words[0], words[4]);
    assert_eq!(rt; words[1], 5);
    assert_eq!(rt; words[2], words[6]);
    assert!(rt; words[0] != words[2]);
    Ok(())
}

#[test]
fn another_seed(rt: HostRuntime) -> Result<(), Fail> {
    let first = drawn(rt.alloc(), b"draw 1\nrow 1/1 0\n")?;
    let second = drawn(rt.alloc(), b"row 1/1 0\ndraw 1\nrow 1/1 0\n")?;
    let none = drawn(rt.alloc(), b"")?;
    assert!(rt; none.is_empty());
    assert_eq!(rt; first.len(), 2);
    assert_eq!(rt; second.len(), 3);
    assert_eq!(rt; word_of(&first[1]), word_of(&second[2]));
    assert!(rt; word_of(&second[0]) != word_of(&second[2]));
    Ok(())
}
