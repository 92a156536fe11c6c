ghost use Rattle.std.specs.Prelude.{◌≡◌, IfOk, length};

use super::*;
use bit_code::{Bits, read_bits};
use std::alloc::Global;
use std::test::Fail;
use vec_names::{HeapId, Kind, Ops, Params};

// Without rows each list begins with zeros.
#[test]
fn no_rows_give_zeros(rt: HostRuntime) -> Result<(), Fail> {
    let params = Params {
        kind: Kind::Ivf,
        ops: Ops::Hamming,
        bits: 4,
        m: 0,
        ef: 0,
        lists: 1,
    };
    let rows: Vec<Row> = Vec::new(rt.alloc());
    let first = choose_first(rt.alloc(), rows.as_slice(), params, 0)?;
    assert_eq!(rt; first.len(), 1);
    Ok(())
}

// Four rows, and what becomes of three lists from the first row on.
#[test]
fn first_centres_of_four_rows(rt: HostRuntime) -> Result<(), Fail> {
    let alloc = rt.alloc();
    let params = Params {
        kind: Kind::Ivf,
        ops: Ops::Hamming,
        bits: 4,
        m: 0,
        ef: 0,
        lists: 3,
    };
    let rows = [
        row(alloc, "0000")?,
        row(alloc, "0001")?,
        row(alloc, "1111")?,
        row(alloc, "1110")?,
    ];
    let first = choose_first(alloc, &rows, params, 0)?;
    assert_eq!(rt; first.len(), 3);
    assert!(rt; is_text(&first[0], [false, false, false, false]));
    assert!(rt; is_text(&first[1], [true, true, true, true]));
    assert!(rt; is_text(&first[2], [false, false, false, true]));
    Ok(())
}

// The four rows of the worked index, by three lists from the first row on.
#[test]
fn centres_of_four_rows(rt: HostRuntime) -> Result<(), Fail> {
    let alloc = rt.alloc();
    let params = Params {
        kind: Kind::Ivf,
        ops: Ops::Hamming,
        bits: 4,
        m: 0,
        ef: 0,
        lists: 3,
    };
    let rows = [
        row(alloc, "0000")?,
        row(alloc, "0001")?,
        row(alloc, "1111")?,
        row(alloc, "1110")?,
    ];
    let all = centres(&rt, alloc, &rows, params, 0)?;
    assert_eq!(rt; all.len(), 3);
    assert!(rt; is_text(&all[0], [false, false, false, false]));
    assert!(rt; is_text(&all[1], [true, true, true, false]));
    assert!(rt; is_text(&all[2], [false, false, false, true]));
    Ok(())
}

// One centre becomes the majority of its rows; a place where half of them have a 1 becomes 0. A centre without rows stays.
#[test]
fn a_round_of_two_lists(rt: HostRuntime) -> Result<(), Fail> {
    let alloc = rt.alloc();
    let rows = [
        row(alloc, "0111")?,
        row(alloc, "0110")?,
        row(alloc, "0011")?,
        row(alloc, "0010")?,
    ];
    let mut lists = [bits_of(alloc, "0010")?, bits_of(alloc, "1100")?];
    let assigned = assign(&rt, alloc, &rows, &lists, 4)?;
    assert_eq!(rt; assigned.as_slice(), [0, 0, 0, 0].as_slice());
    assert_eq!(rt; nearest_of(&lists, &rows[1].bits), 0);
    let mut ones = [7; 4];
    recentre(&mut lists, &rows, assigned.as_slice(), &mut ones);
    assert!(rt; is_text(&lists[0], [false, false, true, false]));
    assert!(rt; is_text(&lists[1], [true, true, false, false]));
    Ok(())
}

fn bits_of(alloc: Global, text: &str) -> Result<Bits, Fail>
    ensures { IfOk result (λ bits. length bits ≡ 4) }
{
    Ok(row(alloc, text)?.bits)
}

fn row(alloc: Global, text: &str) -> Result<Row, Fail>
    ensures { IfOk result (λ row. length row.bits ≡ 4) }
{
    let mut bits = read_bits(alloc, text)?;
    if bits.count() != 4 {
        bits = Bits::zeros(alloc, 4)?;
    }
    Ok(Row {
        id: HeapId { block: 1, off: 1 },
        bits,
    })
}

fn is_text(bits: &Bits, places: [bool; 4]) -> bool {
    if bits.count() != 4 {
        return false;
    }
    bits.get(0) == places[0]
        && bits.get(1) == places[1]
        && bits.get(2) == places[2]
        && bits.get(3) == places[3]
}
