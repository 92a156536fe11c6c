//! The ten places of an element's rows, read from the front of the bytes and written over bytes.
#![tactic(auto, unfolding(crate::specs::Reading::row_of, crate::specs::Reading::optional_row, byte_fields::specs::Reading::field, crate::specs::Reading::no_row, byte_fields::specs::Reading::none_alone))]

ghost use Rattle.std.specs.Prelude.{◌≡◌, ◌≤◌, ◌<◌, ◌++◌, [], IfSome, true, length, slice_get};
ghost use Rattle.std.specs.Option.{option_to_list, is_none};
ghost use Rattle.vec_names.specs.Pointer.{heap_id_option_bytes};
ghost use Rattle.arrayvec.specs.ArrayVec.{array_vec_len};
ghost use Rattle.vec_tuples.specs.Spelling.{rows_bytes};
ghost use Rattle.vec_tuples.specs.Reading.{optional_row, no_row, row_of, rows};
ghost use Rattle.byte_fields.specs.Answers.{Gives};
ghost use Rattle.byte_fields.specs.Reading.{Got};

use crate::six_bytes::put_six;
use arrayvec::ArrayVec;
use byte_fields::Stop;
use vec_names::HeapId;

/// The rows in ten places; where they are closed, and behind a place with none, each must have none.
pub fn rows(closed: bool, bytes: &[u8]) -> Result<(ArrayVec<HeapId, 10>, &[u8]), Stop>
    ensures { Gives (λ x. (x.0.items, x.1.now)) result (rows closed 10 bytes.now) }
{
    let mut ids = ArrayVec::<HeapId, 10>::new();
    let mut shut = closed;
    let mut rest = bytes;
    'places: for at in 0..10usize {
        // Most elements have one row: the places behind it are looked at together.
        if shut && let Some(behind) = behind_none(10 - at, rest) {
            return Ok((ids, behind));
        }
        let (row, after) = row_of(shut, rest)?;
        shut = keep(&mut ids, row);
        rest = after;
    }
    Ok((ids, rest))
}

/// Ten places that have no row.
const NO_ROWS: [u8; 60] = [
    255, 255, 255, 255, 0, 0, 255, 255, 255, 255, 0, 0, 255, 255, 255, 255, 0, 0, 255, 255, 255,
    255, 0, 0, 255, 255, 255, 255, 0, 0, 255, 255, 255, 255, 0, 0, 255, 255, 255, 255, 0, 0, 255,
    255, 255, 255, 0, 0, 255, 255, 255, 255, 0, 0, 255, 255, 255, 255, 0, 0,
];

/// What stands behind so many places, where they are spelled to have no row.
fn behind_none(places: usize, bytes: &[u8]) -> Option<&[u8]>
    requires { places ≤ 10 }
    ensures { IfSome result (λ rest. rows true places bytes.now ≡ Got [] rest.now) }
{
    let (front, rest) = bytes.split_at_checked(6 * places)?;
    if front == &NO_ROWS[..6 * places] {
        return Some(rest);
    }
    None
}

/// Puts a row, where there is one, behind the others, and tells whether there is none.
fn keep(ids: &mut ArrayVec<HeapId, 10>, row: Option<HeapId>) -> bool
    requires { array_vec_len ids.old < 10 }
    ensures items { ids.new.items ≡ ids.old.items ++ option_to_list row }
    ensures none { result ≡ is_none row }
{
    match row {
        Some(id) => {
            ids.push(id);
            false
        }
        None => true,
    }
}

fn row_of(closed: bool, bytes: &[u8]) -> Result<(Option<HeapId>, &[u8]), Stop>
    ensures { Gives (λ x. (x.0, x.1.now)) result (row_of closed bytes.now) }
{
    if closed {
        no_row(bytes)
    } else {
        optional_row(bytes)
    }
}

/// A row, or that there is none.
fn optional_row(bytes: &[u8]) -> Result<(Option<HeapId>, &[u8]), Stop>
    ensures { Gives (λ x. (x.0, x.1.now)) result (optional_row bytes.now) }
{
    let Some((front, rest)) = bytes.split_first_chunk::<6>() else {
        return Err(Stop::short(bytes));
    };
    match HeapId::read_option(*front) {
        Some(row) => Ok((row, rest)),
        None => Err(Stop::bad(bytes)),
    }
}

/// That there is no row.
fn no_row(bytes: &[u8]) -> Result<(Option<HeapId>, &[u8]), Stop>
    ensures { Gives (λ x. (x.0, x.1.now)) result (no_row bytes.now) }
{
    let Some((front, rest)) = bytes.split_first_chunk::<6>() else {
        return Err(Stop::short(bytes));
    };
    match HeapId::read_option(*front) {
        Some(None) => Ok((None, rest)),
        _ => Err(Stop::bad(bytes)),
    }
}

/// Writes the ten places of these rows over 60 bytes.
pub fn fill_rows(ids: &[HeapId], into: &mut [u8])
    requires few { length ids.now ≤ 10 }
    requires long { length into.old ≡ 60 }
    ensures { into.new ≡ rows_bytes 10 ids.now }
{
    'places: for at in 0..10usize {
        put_six(into, 6 * at, spelled_at(ids, at));
    }
}

/// The six bytes of the row of this number, or that there is none.
fn spelled_at(ids: &[HeapId], at: usize) -> [u8; 6]
    ensures { result ≡ heap_id_option_bytes (slice_get ids.now at) }
{
    HeapId::spelled_option(ids.get(at).copied())
}
