//! Pieces of spellings, put at the end of bytes that have room for them.

ghost use Rattle.std.specs.Prelude.{◌≡◌, ◌≤◌, ◌+◌, ◌*◌, ◌++◌, length, vec_len, vec_capacity};
ghost use Rattle.std.specs.List.{flat_map};
ghost use Rattle.vec_names.specs.Pointer.{tid_option_bytes};

use vec_names::Tid;

/// Puts these bytes at the end of others that have room for them. It takes no memory.
#[inline]
pub fn put(into: &mut Vec<u8>, bytes: &[u8])
    requires { vec_len into.old + length bytes.now ≤ vec_capacity into.old }
    ensures items { into.new.items ≡ into.old.items ++ bytes.now }
    ensures len { vec_len into.new ≡ vec_len into.old + length bytes.now }
    ensures capacity { vec_capacity into.old ≤ vec_capacity into.new }
{
    match into.extend_from_slice(bytes) {
        Ok(()) => (),
        Err(_) => unreachable!(),
    }
}

/// Puts slots, six bytes each, at the end of bytes that have room for them. It takes no memory.
pub fn put_slots(into: &mut Vec<u8>, slots: &[Option<Tid>])
    requires { vec_len into.old + 6 * length slots.now ≤ vec_capacity into.old }
    ensures items { into.new.items ≡ into.old.items ++ flat_map tid_option_bytes slots.now }
    ensures len { vec_len into.new ≡ vec_len into.old + 6 * length slots.now }
    ensures capacity { vec_capacity into.old ≤ vec_capacity into.new }
{
    'slots: for slot in slots {
        put(into, &Tid::spelled_option(*slot));
    }
}
