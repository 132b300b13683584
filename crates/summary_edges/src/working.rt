//! The work of one worker in a round: it draws functions of the agenda, and takes each, until none is left.
ghost use Rattle.std.specs.Prelude.{◌≡◌, ℕ, true, IfOk, OnOk, Some, length, slice_get, slice_index};
ghost use Rattle.crew.specs.Seats.{view, board_of, id_of};
ghost use Rattle.summary_edges.specs.ExitRows.{HasRoom};
ghost use Rattle.summary_edges.specs.FactIndexes.{IsIndex};
ghost use Rattle.summary_edges.specs.FunctionParts.{AreParts};
ghost use Rattle.summary_edges.specs.Workers.{HasDone, HasKept, IsCopy, IsOpened, IsPartOf, IsReadyTruth};

use crate::exit_rows::ExitRows;
use crate::fact_index::FactIndex;
use crate::fact_truth::FactTruth;
use crate::function_parts::{FunctionPart, FunctionParts};
use crate::worker::take;
use crew::{Board, BoardSeat, Gate};
use std::alloc::{AllocError, Global};

// The functions of an agenda, in its order. Err: no memory was left.
fn agenda_parts<'a>(
    alloc: Global,
    t: &FactTruth<'a>,
    parts: &FunctionParts,
) -> Result<Vec<FunctionPart>, AllocError>
    requires parts { AreParts t.now.graph.now parts.now }
    ensures long { IfOk result (λ ps. length ps.items ≡ length t.now.agenda.now) }
    ensures each { IfOk result (λ ps. (k : ℕ) (p : FunctionPart) → slice_get ps.items k ≡ Some p → IsPartOf t.now.graph.now (slice_index t.now.agenda.now k) p) }
{
    let mut list = Vec::new(alloc);
    for function in t.agenda {
        let noted = parts.of_number[*function as usize];
        let Some(place) = noted else { unreachable!() };
        let part = parts.list[place as usize];
        list.push(part)?;
    }
    Ok(list)
}

// Draws numbers, and takes the function of each, until none is left. Err: no memory was left.
fn draw_all<'a, G: Gate>(
    alloc: Global,
    t: &FactTruth<'a>,
    index: &FactIndex,
    parts: &[FunctionPart],
    board: &Board<FactTruth<'a>>,
    seat: &mut BoardSeat<FactTruth<'a>>,
    table: &mut ExitRows,
    known: &mut [u64],
    worker: u32,
    gate: &G,
) -> Result<(), AllocError>
    requires index { IsIndex t.now.graph.now index.now }
    requires board { board_of seat.old ≡ id_of board.now }
    requires opened { IsOpened t.now (view seat.old) }
    requires long { length parts.now ≡ length t.now.agenda.now }
    requires each { (k : ℕ) (p : FunctionPart) → slice_get parts.now k ≡ Some p → IsPartOf t.now.graph.now (slice_index t.now.agenda.now k) p × HasRoom p table.old }
    requires copy { IsCopy t.now.graph.now known.old (view seat.old) }
    ensures board { board_of seat.new ≡ board_of seat.old }
    ensures kept { HasKept (view seat.old) (view seat.new) }
    ensures done { OnOk result ((view seat.new).done ≡ true) }
    ensures knows { OnOk result (HasDone t.now (view seat.old) (view seat.new)) }
{
    let mut next = 0;
    while let Some(number) = board.draw(seat) {
        next = number + 1;
        gate.pass(worker, number);
        let part = parts[number as usize];
        take(alloc, t, index, board, seat, part, table, known)?;
    }
    Ok(())
}

// The work, with what steps look up. Err: no memory was left.
fn work_with<'a, G: Gate>(
    alloc: Global,
    t: &FactTruth<'a>,
    index: &FactIndex,
    board: &Board<FactTruth<'a>>,
    seat: &mut BoardSeat<FactTruth<'a>>,
    worker: u32,
    gate: &G,
) -> Result<(), AllocError>
    requires index { IsIndex t.now.graph.now index.now }
    requires board { board_of seat.old ≡ id_of board.now }
    requires opened { IsOpened t.now (view seat.old) }
    ensures board { board_of seat.new ≡ board_of seat.old }
    ensures kept { HasKept (view seat.old) (view seat.new) }
    ensures done { OnOk result ((view seat.new).done ≡ true) }
    ensures knows { OnOk result (HasDone t.now (view seat.old) (view seat.new)) }
{
    let parts = agenda_parts(alloc, t, &index.parts)?;
    let mut table = ExitRows::new(alloc, t.graph, parts.as_slice())?;
    let mut known = vec![in alloc; 0u64; t.graph.fact_words as usize]?;
    draw_all(
        alloc,
        t,
        index,
        parts.as_slice(),
        board,
        seat,
        &mut table,
        known.as_mut_slice(),
        worker,
        gate,
    )
}

/// What one worker does in a round, on a board that was opened with a truth of the same graph and agenda, with the fact words and with
/// the agenda's length as its end: it draws functions, passes the gate with each, takes a step of it, and publishes what is new.
///
/// Then the seat is done, and it knows, for each number that it drew in this call, what the step of that function gives from the
/// opening facts. Err: no memory was left; then too it keeps all that it had drawn, seen and newly set.
pub fn work<'a, G: Gate>(
    alloc: Global,
    t: &FactTruth<'a>,
    board: &Board<FactTruth<'a>>,
    seat: &mut BoardSeat<FactTruth<'a>>,
    worker: u32,
    gate: &G,
) -> Result<(), AllocError>
    requires truth { IsReadyTruth t.now }
    requires board { board_of seat.old ≡ id_of board.now }
    requires opened { IsOpened t.now (view seat.old) }
    ensures board { board_of seat.new ≡ board_of seat.old }
    ensures kept { HasKept (view seat.old) (view seat.new) }
    ensures done { OnOk result ((view seat.new).done ≡ true) }
    ensures knows { OnOk result (HasDone t.now (view seat.old) (view seat.new)) }
{
    match t.index {
        Some(index) => work_with(alloc, t, index, board, seat, worker, gate),
        None => {
            let index = FactIndex::find(alloc, t.graph)?;
            work_with(alloc, t, &index, board, seat, worker, gate)
        }
    }
}
