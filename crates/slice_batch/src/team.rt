//! A team on one board: its seats, and what its workers hand back.
ghost use Rattle.std.specs.Prelude.{◌≡◌, ◌≤◌, ℕ, All, IfOk, OnOk, length};
ghost use Rattle.crew.specs.Seats.{view, id_of};
ghost use Rattle.slice_engine.specs.Slice.{HasStart};
ghost use Rattle.slice_batch.specs.Team.{ArePlaced, HasDone, IsFresh, IsSeatOf, IsWorked, parts, worked_parts};

use crate::placing::place;
use crate::worker::{Worked, work};
use crew::{Board, BoardSeat, Gate, Numbers, team_map};
use slice_engine::{Criterion, Engine, Text};
use std::alloc::{AllocError, Global};
use std::thread::Threads;

/// So many seats of a board, of which all but one are split off its first. Err: no memory was left.
pub(crate) fn seats_of(
    alloc: Global,
    board: &Board<Numbers>,
    first: BoardSeat<Numbers>,
    count: usize,
) -> Result<Vec<BoardSeat<Numbers>>, AllocError>
    requires first { IsFresh (id_of board.now) (view first).end first }
    requires spare { (view first).spare ≡ 15 }
    requires count { (1 ≤ count) × (count ≤ 16) }
    ensures count { IfOk result (λ seats. length seats.items ≡ count) }
    ensures parts { IfOk result (λ seats. parts seats.items ≡ 16) }
    ensures each { IfOk result (λ seats. All (IsFresh (id_of board.now) (view first).end) seats.items) }
{
    let mut first = first;
    let mut seats = Vec::new(alloc);
    for _seat in 1..count {
        seats.push(board.split(&mut first))?;
    }
    seats.push(first)?;
    Ok(seats)
}

/// What the workers hand back, each with its seat. Err: no memory was left.
pub(crate) fn run_team<R: Threads + Sync, G: Gate + Sync>(
    rt: &R,
    alloc: Global,
    e: &Engine,
    list: &[Criterion],
    board: &Board<Numbers>,
    seats: Vec<BoardSeat<Numbers>>,
    gate: &G,
) -> Result<Vec<Worked>, AllocError>
    requires few { length seats.items ≤ 16 }
    requires starts { All (λ c. HasStart e.now c.line) list.now }
    requires fresh { All (IsFresh (id_of board.now) (length list.now)) seats.items }
    ensures len { IfOk result (λ all. length all.items ≡ length seats.items) }
    ensures parts { IfOk result (λ all. worked_parts all.items ≡ parts seats.items) }
    ensures each { IfOk result (λ all. All (IsWorked e.now list.now (id_of board.now)) all.items) }
{
    let all = team_map(
        rt,
        alloc,
        seats,
        &|worker: u32, seat: BoardSeat<Numbers>| -> Worked
            requires { All (λ c. HasStart e.now c.line) list.now × IsFresh (id_of board.now) (length list.now) seat }
            ensures { IsWorked e.entry.now list.entry.now (id_of board.entry.now) result × ((view result.seat).spare ≡ (view seat).spare) }
        { work(alloc, e, list, board, seat, worker, gate) },
    )?;
    Ok(all)
}

/// Joins the seats of all workers, and puts each text that they made at its place. Err: some worker found no memory.
pub(crate) fn join_all(
    e: &Engine,
    list: &[Criterion],
    board: &Board<Numbers>,
    all: Vec<Worked>,
    texts: &mut Vec<Text>,
) -> Result<BoardSeat<Numbers>, AllocError>
    requires some { 1 ≤ length all.items }
    requires parts { worked_parts all.items ≡ 16 }
    requires each { All (IsWorked e.now list.now (id_of board.now)) all.items }
    requires places { length texts.old.items ≡ length list.now }
    ensures seat { IfOk result (λ s. HasDone (id_of board.now) (length list.now) s) }
    ensures places { length texts.new.items ≡ length list.now }
    ensures placed { IfOk result (λ s. ArePlaced e.now list.now (view s).drawn texts.new.items) }
{
    let mut all = all;
    let Some(last) = all.pop() else {
        unreachable!()
    };
    let Worked { seat, made } = last;
    let mut seat = seat;
    let made = made?;
    place(e, list, made, texts);
    while let Some(other) = all.pop() {
        let Worked { seat: theirs, made } = other;
        let made = made?;
        board.join(&mut seat, theirs);
        place(e, list, made, texts);
    }
    Ok(seat)
}
