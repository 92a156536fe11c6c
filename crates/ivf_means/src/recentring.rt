//! What becomes of the centres in a round.

ghost use Rattle.std.specs.Prelude.{◌≡◌, ◌<◌, ◌≤◌, ◌+◌, ◌*◌, ◌^◌, ℕ, length, map, get_or, false, nat_lt};
ghost use Rattle.std.specs.List.{All};
ghost use Rattle.bit_code.specs.Places.{digit_of};
ghost use Rattle.ivf_means.specs.Centres.{values_of, ones_at, recentred, recentred_from, nearest, after_round};
ghost use Rattle.ivf_means.specs.Working.{HaveLength, RowsHaveLength, assigned_to, IsTally};

use crate::Row;
use bit_code::Bits;
use index_sizes::MOST_BLOCKS;

/// Changes each centre to the majority of its rows. `ones` is room for a count for each place; what stood in it is of no matter.
pub fn recentre(centres: &mut [Bits], rows: &[Row], assigned: &[u32], ones: &mut [u64])
    requires few { length centres.old ≤ MOST_BLOCKS }
    requires same { length assigned.now ≡ length rows.now }
    requires long { HaveLength (length ones.old) centres.old }
    requires rows { RowsHaveLength (length ones.old) rows.now }
    ensures centres { centres.new ≡ recentred_from 0 (λ list. assigned_to list assigned.now (values_of rows.now)) centres.old }
    ensures room { length ones.new ≡ length ones.old }

    // With each row's nearest centre this is a round.
    ensures round { assigned.now ≡ map (nearest centres.old) (values_of rows.now)
        → centres.new ≡ after_round (values_of rows.now) centres.old }
{
    for list in 0..centres.len() as u32 {
        recentre_one(&mut centres[list as usize], list, rows, assigned, ones);
    }
}

fn recentre_one(centre: &mut Bits, list: u32, rows: &[Row], assigned: &[u32], ones: &mut [u64])
    requires same { length assigned.now ≡ length rows.now }
    requires long { length centre.old ≡ length ones.old }
    requires rows { RowsHaveLength (length ones.old) rows.now }
    ensures centre { centre.new ≡ recentred centre.old (assigned_to list assigned.now (values_of rows.now)) }
    ensures room { length ones.new ≡ length ones.old }
{
    let size = tally(list, rows, assigned, ones);
    if size > 0 {
        set_majority(centre, size, ones);
    }
}

// Counts the rows of a list, and at each place those that have a 1.
fn tally(list: u32, rows: &[Row], assigned: &[u32], ones: &mut [u64]) -> u64
    requires same { length assigned.now ≡ length rows.now }
    requires rows { RowsHaveLength (length ones.old) rows.now }
    ensures size { result ≡ length (assigned_to list assigned.now (values_of rows.now)) }
    ensures room { length ones.new ≡ length ones.old }
    ensures ones { IsTally (assigned_to list assigned.now (values_of rows.now)) ones.new }
{
    ones.fill(0);
    let mut size = 0;
    for k in 0..rows.len() {
        size += add_if(assigned[k] == list, &rows[k].bits, ones);
    }
    size
}

// Adds a value to the tally where it is a member, and says how many it added.
fn add_if(is_member: bool, value: &Bits, ones: &mut [u64]) -> u64
    requires long { length value.now ≡ length ones.old }
    requires room { All (λ n. n + 1 < 2 ^ 64) ones.old }
    ensures size { result ≡ digit_of is_member }
    ensures long { length ones.new ≡ length ones.old }
    ensures each { (place : ℕ) → place < length ones.old
        → get_or ones.new place 0 ≡ get_or ones.old place 0 + digit_of is_member * digit_of (get_or value.now place false) }
{
    if is_member {
        add(value, ones);
        1
    } else {
        0
    }
}

fn add(value: &Bits, ones: &mut [u64])
    requires long { length value.now ≡ length ones.old }
    requires room { All (λ n. n + 1 < 2 ^ 64) ones.old }
    ensures long { length ones.new ≡ length ones.old }
    ensures each { (place : ℕ) → place < length ones.old
        → get_or ones.new place 0 ≡ get_or ones.old place 0 + digit_of (get_or value.now place false) }
{
    for place in 0..value.count() {
        ones[place as usize] += digit(value.get(place));
    }
}

#[inline(always)]
fn digit(one: bool) -> u64
    ensures is { result ≡ digit_of one }
    ensures small { result ≤ 1 }
{
    if one { 1 } else { 0 }
}

// Each place becomes 1 where more than half of so many values have a 1.
fn set_majority(centre: &mut Bits, size: u64, ones: &[u64])
    requires long { length centre.old ≡ length ones.now }
    ensures long { length centre.new ≡ length centre.old }
    ensures each { (place : ℕ) → place < length centre.old
        → get_or centre.new place false ≡ nat_lt size (2 * get_or ones.now place 0) }
{
    for place in 0..centre.count() {
        let more = is_more_than_half(ones[place as usize], size);
        centre.set(place, more);
    }
}

#[inline(always)]
fn is_more_than_half(ones: u64, size: u64) -> bool
    ensures { result ≡ nat_lt size (2 * ones) }
{
    ones > size / 2
}
