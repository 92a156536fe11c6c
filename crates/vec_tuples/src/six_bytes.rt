//! The six bytes of a place or a row inside bytes.

ghost use Rattle.std.specs.Prelude.{◌≡◌, ◌≤◌, ◌+◌, ◌++◌, length, take, drop, vec_len, vec_capacity};

/// The six bytes from a place on.
pub fn six_at(bytes: &[u8], from: usize) -> [u8; 6]
    requires { from + 6 ≤ length bytes.now }
    ensures { result ≡ take 6 (drop from bytes.now) }
{
    match bytes[from..].first_chunk::<6>() {
        Some(six) => *six,
        None => unreachable!(),
    }
}

/// Writes six bytes over those from a place on.
pub fn put_six(into: &mut [u8], from: usize, six: [u8; 6])
    requires { from + 6 ≤ length into.old }
    ensures { into.new ≡ take from into.old ++ (six ++ drop (from + 6) into.old) }
{
    into[from..from + 6].copy_from_slice(&six);
}
