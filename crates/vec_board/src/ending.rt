//! Which events end something.

ghost use Rattle.std.specs.Prelude.{◌≡◌, ◌↔◌, IsTrue};
ghost use Rattle.vec_board.specs.Keeping.{one_if_ends};

use vec_history::Event;

/// Whether an event ends a hold, or a vacuum.
pub fn ends(event: &Event) -> bool
    ensures { IsTrue result ↔ (one_if_ends event.now ≡ 1) }
{
    match event {
        Event::Ungate { .. } => true,
        Event::VacuumEnd => true,
        Event::Cancel { .. } => true,
        _ => false,
    }
}
