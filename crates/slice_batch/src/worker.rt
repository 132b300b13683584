//! One worker: it draws numbers, and makes the text of the criterion with each.
ghost use Rattle.std.specs.Prelude.{◌≡◌, ◌≤◌, All, IfOk, length};
ghost use Rattle.crew.specs.Seats.{view, id_of};
ghost use Rattle.slice_engine.specs.Slice.{HasStart};
ghost use Rattle.slice_batch.specs.Team.{HasMade, IsFresh, IsSeatOf, IsWorked};

use crew::{Board, BoardSeat, Gate, Numbers};
use slice_engine::{Criterion, Engine, Text};
use std::alloc::{AllocError, Global};

/// The text of a criterion, and the number of that in the list.
#[derive(Drop)]
pub(crate) struct Made {
    pub(crate) number: u32,
    pub(crate) text: Text,
}

/// What a worker hands back: its seat, and what it made, where memory sufficed.
#[derive(Drop)]
pub(crate) struct Worked {
    pub(crate) seat: BoardSeat<Numbers>,
    pub(crate) made: Result<Vec<Made>, AllocError>,
}

/// Makes texts with a seat of its own until no number is left, or no memory.
pub(crate) fn work<G: Gate>(
    alloc: Global,
    e: &Engine,
    list: &[Criterion],
    board: &Board<Numbers>,
    seat: BoardSeat<Numbers>,
    worker: u32,
    gate: &G,
) -> Worked
    requires starts { All (λ c. HasStart e.now c.line) list.now }
    requires seat { IsFresh (id_of board.now) (length list.now) seat }
    ensures worked { IsWorked e.now list.now (id_of board.now) result }
    ensures spare { (view result.seat).spare ≡ (view seat).spare }
{
    let mut seat = seat;
    let made = make_all(alloc, e, list, board, &mut seat, worker, gate);
    Worked { seat, made }
}

// Draws numbers, and makes the text of the criterion with each, until none is left. Err: no memory was left.
fn make_all<G: Gate>(
    alloc: Global,
    e: &Engine,
    list: &[Criterion],
    board: &Board<Numbers>,
    seat: &mut BoardSeat<Numbers>,
    worker: u32,
    gate: &G,
) -> Result<Vec<Made>, AllocError>
    requires starts { All (λ c. HasStart e.now c.line) list.now }
    requires seat { IsFresh (id_of board.now) (length list.now) seat.old }
    ensures seat { IsSeatOf (id_of board.now) (length list.now) seat.new }
    ensures spare { (view seat.new).spare ≡ (view seat.old).spare }
    ensures made { IfOk result (λ made. HasMade e.now list.now seat.new made.items) }
{
    let mut slicing = e.slicing(alloc)?;
    let mut made = Vec::new(alloc);
    let mut next = 0;
    while let Some(number) = board.draw(seat) {
        next = number + 1;
        gate.pass(worker, number);
        let text = slicing.slice_text(alloc, list[number as usize])?;
        made.push(Made { number, text })?;
    }
    Ok(made)
}
