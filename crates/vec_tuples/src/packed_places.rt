//! The packed places of a value, where its tuple stands.

ghost use Rattle.std.specs.Prelude.{◌≡◌, ◌≤◌, List, Bool, length};
ghost use Rattle.bit_code.specs.Places.{packed};
ghost use Rattle.vec_tuples.specs.Spelling.{HasValue};
ghost use Rattle.vec_tuples.specs.Reading.{places_at};

/// The packed places of the value in the element, list or entry tuple that the bytes spell, under whatever
/// parameters. It takes no memory, and reads five bytes before the places.
pub fn packed(bytes: &[u8]) -> &[u8]
    requires { (bits : List Bool) × HasValue bytes.now bits }
    ensures { (bits : List Bool) → HasValue bytes.now bits → result.now ≡ packed bits }
{
    &bytes[places_at(bytes)..]
}

#[tactic(auto, unfolding(crate::specs::Reading::places_at))]
fn places_at(bytes: &[u8]) -> usize
    requires { 16 ≤ length bytes.now }
    ensures { result ≡ places_at bytes.now }
{
    if bytes[10] == 0 && (bytes[14] == 0 && bytes[15] == 0) {
        if bytes[8] == 0 && bytes[9] == 0 {
            20
        } else {
            16
        }
    } else {
        80
    }
}
