// Words, in the order of the commands.
ghost use Rattle.std.specs.Prelude.{ℕ, ◌≡◌, ◌≤◌};
ghost use Rattle.drawn_words.specs.Drawing.{drawn, drawn_all, filled, seeded};

use rand_core::SeedableRng;
use rand_core::utils::NextWord;
use rand_pcg::Pcg64;
use script_words::Command;

/// Gives each row and each insert without a word of its own a drawn one, in the order of the commands. The generator is seeded
/// with 0 first, and anew by each `draw`. It takes no memory.
pub fn draw_words(commands: &mut Vec<Command>)
    ensures { commands.new.items ≡ drawn_all (seeded 0) commands.old.items }
{
    let mut generator = Pcg64::seed_from_u64(0);
    for i in 0..commands.len() {
        draw_one(&mut generator, &mut commands[i]);
    }
}

// Draws for one command.
fn draw_one(generator: &mut Pcg64, command: &mut Command)
    ensures { (command.new, generator.new) ≡ drawn generator.old command.old }
{
    match command {
        Command::Draw { seed } => *generator = Pcg64::seed_from_u64(*seed),
        Command::Row { word, .. } => fill(generator, word),
        Command::Insert { word, .. } => fill(generator, word),
        _ => {}
    }
}

// Draws a word where there is none.
fn fill(generator: &mut Pcg64, word: &mut Option<u64>)
    ensures { (word.new, generator.new) ≡ filled generator.old word.old }
{
    if word.is_none() {
        *word = Some(generator.next_word());
    }
}
