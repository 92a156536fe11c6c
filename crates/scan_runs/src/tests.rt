ghost use Rattle.std.specs.Prelude.{◌≡◌, ◌≤◌, IfOk, OnOk};
ghost use Rattle.vec_names.specs.Params.{IsInRange};
ghost use Rattle.vec_steps.specs.declared.gate_desk.Turn.TheVariants.{Before};
ghost use Rattle.graph_search.specs.Scan.{GoesOn};
ghost use Rattle.hnsw_scan.specs.Answering.{mode_of};
ghost use Rattle.hnsw_scan.specs.Scanning.{IsUnder, IsUnused, wanted_of};

use bit_code::read_bits;
use hnsw_scan::*;
use std::alloc::Global;
use std::test::*;
use vec_graph::{Graph, Node};
use vec_names::{HeapId, Kind, Listed, Mapped, Ops, Params, Tid};
use vec_steps::{GateDesk, OpFault, Steps, StillDesk};

fn tid(off: u16) -> Tid
    requires { 1 ≤ off }
{
    Tid { block: 1, off }
}

// A desk that has taken no gate yet, over these nodes with values of 4 places, m 2, and an entry
// point at 1/1 or none.
fn desk(nodes: Mapped<Node>, has_entry: bool) -> GateDesk
    ensures turn { result.turn ≡ Before }
    ensures range { IsInRange result.still.graph.params }
{
    let params = Params {
        kind: Kind::Hnsw,
        ops: Ops::Hamming,
        bits: 4,
        m: 2,
        ef: 4,
        lists: 0,
    };
    let entry = if has_entry { Some(tid(1)) } else { None };
    let graph = Graph {
        params,
        nodes,
        entry,
        level: 0,
        hint: 1,
        blocks: 2,
    };
    GateDesk::over(StillDesk { number: 7, graph })
}

// A node of level 0 with one row, its list at 1/9, which names these places.
fn put(
    alloc: Global,
    nodes: &mut Mapped<Node>,
    off: u16,
    version: u8,
    text: &str,
    row: u16,
    names: &[Option<Tid>],
) -> Result<(), Fail>
    requires { 1 ≤ off }
{
    let mut ids = Listed::new(alloc);
    if let Some(id) = HeapId::new(1, row) {
        ids.push(id)?;
    }
    let mut slots = Listed::new(alloc);
    slots.extend_from_slice(names)?;
    let node = Node {
        level: 0,
        version,
        deleted: false,
        bits: read_bits(alloc, text)?,
        ids,
        list_at: tid(9),
        slots,
    };
    nodes.insert(tid(off), node)?;
    Ok(())
}

// A node of level 0 and version 1, which names two others of these places.
fn put_first(
    alloc: Global,
    nodes: &mut Mapped<Node>,
    off: u16,
    text: &str,
    row: u16,
    names: [u16; 2],
) -> Result<(), Fail>
    requires { 1 ≤ off }
{
    let slots = [named(names[0]), named(names[1]), None, None];
    put(alloc, nodes, off, 1, text, row, &slots)
}

// A place at this offset; none at 0.
fn named(off: u16) -> Option<Tid> {
    if off == 0 { None } else { Some(tid(off)) }
}

// 0011 at 1/1 and 0111 at 1/3, which name each other.
fn two_nodes(alloc: Global) -> Result<Mapped<Node>, Fail> {
    let mut nodes = Mapped::new(alloc);
    put_first(alloc, &mut nodes, 1, "0011", 1, [3, 0])?;
    put_first(alloc, &mut nodes, 3, "0111", 2, [1, 0])?;
    Ok(nodes)
}

// And 0001 at 1/5, which came later and names both, as both name it.
fn three_nodes(alloc: Global) -> Result<Mapped<Node>, Fail> {
    let mut nodes = Mapped::new(alloc);
    put_first(alloc, &mut nodes, 1, "0011", 1, [3, 5])?;
    put_first(alloc, &mut nodes, 3, "0111", 2, [1, 5])?;
    put_first(alloc, &mut nodes, 5, "0001", 3, [1, 3])?;
    Ok(nodes)
}

// 0000, 0011 and 0111 at 1/1, 1/3 and 1/5, each of which names the other two.
fn row_of_three(alloc: Global) -> Result<Mapped<Node>, Fail> {
    let mut nodes = Mapped::new(alloc);
    put_first(alloc, &mut nodes, 1, "0000", 1, [3, 5])?;
    put_first(alloc, &mut nodes, 3, "0011", 2, [1, 5])?;
    put_first(alloc, &mut nodes, 5, "0111", 3, [1, 3])?;
    Ok(nodes)
}

// The same, but that 0001 stands at 1/3, with version 2.
fn used_anew(alloc: Global) -> Result<Mapped<Node>, Fail> {
    let mut nodes = Mapped::new(alloc);
    put_first(alloc, &mut nodes, 1, "0000", 1, [3, 5])?;
    let slots = [named(1), named(5), None, None];
    put(alloc, &mut nodes, 3, 2, "0001", 9, &slots)?;
    put_first(alloc, &mut nodes, 5, "0111", 3, [1, 3])?;
    Ok(nodes)
}

// Whether a batch has these rows, by the offset of the row and the distance, and is the last or
// not.
fn is(batch: &Batch, rows: &[(u16, u32)], end: bool) -> bool {
    for (answer, (row, num)) in batch.answers.as_slice().iter().zip(rows) {
        if answer.id.off != *row || answer.dist.num != *num {
            return false;
        }
    }
    batch.answers.len() == rows.len() && batch.end == end
}

// A scan of 0000 with ef 1.
fn scan(alloc: Global, mode: Mode, max: u64) -> Result<ScanState, Fail>
    ensures unused { IfOk result IsUnused }
    ensures mode { IfOk result (λ state. (wanted_of state).mode ≡ mode_of mode) }
{
    let query = read_bits(alloc, "0000")?;
    Ok(ScanState::make(query, 1, mode, max)?)
}

// Whether the first batch over these nodes has these rows, after so many looks, and more may
// follow.
fn begins(
    alloc: Global,
    nodes: Mapped<Node>,
    state: &mut ScanState,
    rows: &[(u16, u32)],
    looks: usize,
) -> Result<bool, Fail>
    requires { IsUnused state.old }
    ensures under { OnOk result (IsUnder state.new) }
    ensures wanted { OnOk result (wanted_of state.new ≡ wanted_of state.old) }
{
    let mut desk = desk(nodes, true);
    let batch = first(alloc, &mut desk, state)?;
    Ok(is(&batch, rows, false) && batch.trace.reads.len() == looks)
}

// Whether the next batch over these nodes has these rows, and is the last or not.
fn goes_on(
    alloc: Global,
    nodes: Mapped<Node>,
    state: &mut ScanState,
    rows: &[(u16, u32)],
    end: bool,
) -> Result<bool, Fail>
    requires under { IsUnder state.old }
    requires mode { GoesOn (wanted_of state.old).mode }
    ensures under { OnOk result (IsUnder state.new) }
    ensures wanted { OnOk result (wanted_of state.new ≡ wanted_of state.old) }
{
    let mut desk = desk(nodes, true);
    let batch = next(alloc, &mut desk, state)?;
    Ok(is(&batch, rows, end))
}

// The first batch over two nodes has the row of 0011, after four looks.
fn begins_on_two(alloc: Global, state: &mut ScanState) -> Result<(), Fail>
    requires { IsUnused state.old }
    ensures under { OnOk result (IsUnder state.new) }
    ensures wanted { OnOk result (wanted_of state.new ≡ wanted_of state.old) }
{
    let nodes = two_nodes(alloc)?;
    if !begins(alloc, nodes, state, &[(1, 2)], 4)? {
        return Err(Fail::new("the row at 2"));
    }
    Ok(())
}

// The first batch over a row of three has that of 0000, after five looks.
fn begins_on_three(alloc: Global, state: &mut ScanState) -> Result<(), Fail>
    requires { IsUnused state.old }
    ensures under { OnOk result (IsUnder state.new) }
    ensures wanted { OnOk result (wanted_of state.new ≡ wanted_of state.old) }
{
    let nodes = row_of_three(alloc)?;
    if !begins(alloc, nodes, state, &[(1, 0)], 5)? {
        return Err(Fail::new("the row at 0"));
    }
    Ok(())
}

// The next batch over three nodes has these rows, and is the last or not.
fn goes_on_over_three(
    alloc: Global,
    state: &mut ScanState,
    rows: &[(u16, u32)],
    end: bool,
) -> Result<(), Fail>
    requires under { IsUnder state.old }
    requires mode { GoesOn (wanted_of state.old).mode }
    ensures under { OnOk result (IsUnder state.new) }
    ensures wanted { OnOk result (wanted_of state.new ≡ wanted_of state.old) }
{
    let nodes = three_nodes(alloc)?;
    if !goes_on(alloc, nodes, state, rows, end)? {
        return Err(Fail::new("other rows of three nodes"));
    }
    Ok(())
}

// The next batch over nodes of which one is at a place used anew has these rows, and is not the
// last.
fn goes_on_anew(alloc: Global, state: &mut ScanState, rows: &[(u16, u32)]) -> Result<(), Fail>
    requires under { IsUnder state.old }
    requires mode { GoesOn (wanted_of state.old).mode }
    ensures under { OnOk result (IsUnder state.new) }
    ensures wanted { OnOk result (wanted_of state.new ≡ wanted_of state.old) }
{
    let nodes = used_anew(alloc)?;
    if !goes_on(alloc, nodes, state, rows, false)? {
        return Err(Fail::new("other rows of a place used anew"));
    }
    Ok(())
}

fn answered_later(alloc: Global, state: &mut ScanState) -> Result<(), Fail>
    requires unused { IsUnused state.old }
    requires mode { GoesOn (wanted_of state.old).mode }
{
    begins_on_two(alloc, state)?;
    goes_on_over_three(alloc, state, &[(3, 1)], false)?;
    goes_on_over_three(alloc, state, &[(2, 3)], false)?;
    goes_on_over_three(alloc, state, &[], true)
}

// A nearer row comes between two batches: it is answered; then the one that was found before; then
// the scan is at its end.
#[test]
fn a_nearer_row_comes_later(rt: HostRuntime) -> Result<(), Fail> {
    let alloc = rt.alloc();
    let mut state = scan(alloc, Mode::Relaxed, 20_000)?;
    answered_later(alloc, &mut state)
}

fn left_out(alloc: Global, state: &mut ScanState) -> Result<(), Fail>
    requires unused { IsUnused state.old }
    requires mode { GoesOn (wanted_of state.old).mode }
{
    begins_on_two(alloc, state)?;
    goes_on_over_three(alloc, state, &[], false)?;
    goes_on_over_three(alloc, state, &[(2, 3)], false)
}

// In mode Strict the nearer row is left out, and the scan is not at its end.
#[test]
fn what_is_nearer_is_left_out(rt: HostRuntime) -> Result<(), Fail> {
    let alloc = rt.alloc();
    let mut state = scan(alloc, Mode::Strict, 20_000)?;
    left_out(alloc, &mut state)
}

fn used_between(alloc: Global, state: &mut ScanState) -> Result<(), Fail>
    requires unused { IsUnused state.old }
    requires mode { GoesOn (wanted_of state.old).mode }
{
    begins_on_three(alloc, state)?;
    goes_on_anew(alloc, state, &[])?;
    goes_on_anew(alloc, state, &[(3, 3)])
}

// The place 1/3 is used anew between two batches: its element is gone, and that batch has no row
// and is not the last.
#[test]
fn a_place_is_used_anew(rt: HostRuntime) -> Result<(), Fail> {
    let alloc = rt.alloc();
    let mut state = scan(alloc, Mode::Relaxed, 20_000)?;
    used_between(alloc, &mut state)
}

fn bounded(alloc: Global, state: &mut ScanState) -> Result<(), Fail>
    requires unused { IsUnused state.old }
    requires mode { GoesOn (wanted_of state.old).mode }
{
    begins_on_three(alloc, state)?;
    let mut desk = desk(row_of_three(alloc)?, true);
    let batch = next(alloc, &mut desk, state)?;
    if !is(&batch, &[(2, 2)], false) || batch.trace.reads.len() != 1 {
        return Err(Fail::new("one look, and the row at 2"));
    }
    Ok(())
}

// Three elements are known after the first batch: with a bound of three no list is looked at any
// more, and one node is.
#[test]
fn no_more_become_known(rt: HostRuntime) -> Result<(), Fail> {
    let alloc = rt.alloc();
    let mut state = scan(alloc, Mode::Relaxed, 3)?;
    bounded(alloc, &mut state)
}

fn empty(alloc: Global, state: &mut ScanState) -> Result<(), Fail>
    requires { IsUnused state.old }
{
    let mut desk = desk(Mapped::new(alloc), false);
    let batch = first(alloc, &mut desk, state)?;
    if !is(&batch, &[], true) || batch.trace.reads.len() != 1 || desk.front() != 2 {
        return Err(Fail::new("one look, two acts, and the end"));
    }
    Ok(())
}

// Without an entry point there is no row: the gate is taken, the meta tuple looked at, and the gate
// given back.
#[test]
fn an_empty_index_has_no_row(rt: HostRuntime) -> Result<(), Fail> {
    let alloc = rt.alloc();
    let mut state = scan(alloc, Mode::Off, 20_000)?;
    empty(alloc, &mut state)
}

fn refused(alloc: Global, state: &mut ScanState) -> Result<(), Fail>
    requires { IsUnused state.old }
{
    let mut desk = desk(Mapped::new(alloc), false);
    let Err(fault) = first(alloc, &mut desk, state) else {
        return Err(Fail::new("a refusal"));
    };
    let is_so = fault == OpFault::Dimensions { got: 5, want: 4 };
    if !is_so || !state.spent() || desk.front() != 0 {
        return Err(Fail::new("both lengths, a spent state, and no act"));
    }
    Ok(())
}

// A query of five places is refused before any step, and the state is spent.
#[test]
fn another_length_is_refused(rt: HostRuntime) -> Result<(), Fail> {
    let alloc = rt.alloc();
    let query = read_bits(alloc, "00000")?;
    let mut state = ScanState::make(query, 1, Mode::Off, 20_000)?;
    refused(alloc, &mut state)
}

// The laws, at this desk.
#[test]
fn the_laws_hold_here(rt: HostRuntime) {
    let desk = desk(Mapped::new(rt.alloc()), false);
    law_rows(&desk);
    law_first_reads(&desk);
}
