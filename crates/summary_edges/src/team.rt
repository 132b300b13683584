//! A team on one board of facts: its seats, and what its workers hand back.
ghost use Rattle.std.specs.Prelude.{◌≡◌, ◌≤◌, All, [], IfOk, length};
ghost use Rattle.crew.specs.declared.board.BoardSeat.{BoardSeat};
ghost use Rattle.crew.specs.Seats.{view, board_of, id_of};
ghost use Rattle.summary_edges.specs.declared.fact_truth.FactTruth.{FactTruth};
ghost use Rattle.summary_edges.specs.Teams.{HasFinished, HasWorked, IsFresh, IsHandedBack, IsOnBoard, IsTakenUp, parts, parts_back};
ghost use Rattle.summary_edges.specs.Workers.{IsReadyTruth};

use crate::fact_truth::FactTruth;
use crate::working::work;
use crew::{Board, BoardSeat, Gate, Job, run_all};
use std::alloc::{AllocError, Global};
use std::thread::Threads;

/// So many seats of a board, of which all but one are split off its first. Err: no memory was left.
pub(crate) fn seats_of<'a>(
    alloc: Global,
    board: &Board<FactTruth<'a>>,
    first: BoardSeat<FactTruth<'a>>,
    count: usize,
) -> Result<Vec<BoardSeat<FactTruth<'a>>>, AllocError>
    requires board { board_of first ≡ id_of board.now }
    requires none { (view first).drawn ≡ [] }
    requires spare { (view first).spare ≡ 15 }
    requires count { (1 ≤ count) × (count ≤ 16) }
    ensures count { IfOk result (λ seats. length seats.items ≡ count) }
    ensures parts { IfOk result (λ seats. parts seats.items ≡ 16) }
    ensures each { IfOk result (λ seats. All (IsFresh first.entry) seats.items) }
{
    let mut first = first;
    let mut seats = Vec::new(alloc);
    for _seat in 1..count {
        seats.push(board.split(&mut first))?;
    }
    seats.push(first)?;
    Ok(seats)
}

// What each worker of a team does: its part of a round.
#[derive(Clone, Copy)]
struct Share<'a, 'b, G> {
    alloc: Global,
    truth: &'b FactTruth<'a>,
    board: &'b Board<FactTruth<'a>>,
    gate: &'b G,
}

impl<'a, 'b, G: Gate> Job<FactTruth<'a>> for Share<'a, 'b, G> {
    ghost takes = { λ j s. IsTakenUp j.truth.now (id_of j.board.now) s };

    ghost gives = { λ j s after done. HasWorked j.truth.now s after done };

    fn run(&self, worker: u32, seat: BoardSeat<FactTruth<'a>>) -> (BoardSeat<FactTruth<'a>>, bool)
        requires { IsTakenUp self.now.truth.now (id_of self.now.board.now) seat }
        ensures { HasWorked self.now.truth.now seat.entry result.0 result.1 }
    {
        let mut seat = seat;
        match work(
            self.alloc, self.truth, self.board, &mut seat, worker, self.gate,
        ) {
            Ok(()) => (seat, true),
            Err(_) => (seat, false),
        }
    }
}

/// The seats of a team that did the work of a round, each with whether its worker found memory. Err: no memory was left.
pub(crate) fn run_team<'a, R: Threads + Sync, G: Gate + Sync>(
    rt: &R,
    alloc: Global,
    truth: &FactTruth<'a>,
    board: &Board<FactTruth<'a>>,
    seats: Vec<BoardSeat<FactTruth<'a>>>,
    gate: &G,
) -> Result<Vec<(BoardSeat<FactTruth<'a>>, bool)>, AllocError>
    requires few { length seats.items ≤ 16 }
    requires taken { All (IsTakenUp truth.now (id_of board.now)) seats.items }
    ensures len { IfOk result (λ all. length all.items ≡ length seats.entry.items) }
    ensures parts { IfOk result (λ all. parts_back all.items ≡ parts seats.entry.items) }
    ensures each { IfOk result (λ all. (first : BoardSeat FactTruth) → All (IsFresh first) seats.entry.items → All (IsHandedBack truth.now first) all.items) }
{
    let share = Share {
        alloc,
        truth,
        board,
        gate,
    };
    let all = run_all(rt, alloc, seats, &share)?;
    Ok(all)
}

/// One seat that has all that the seats of a team have. Err: some worker found no memory.
pub(crate) fn join_all<'a>(
    board: &Board<FactTruth<'a>>,
    all: Vec<(BoardSeat<FactTruth<'a>>, bool)>,
) -> Result<BoardSeat<FactTruth<'a>>, AllocError>
    requires some { 1 ≤ length all.items }
    requires parts { parts_back all.items ≡ 16 }
    requires board { All (IsOnBoard (id_of board.now)) all.items }
    ensures board { IfOk result (λ s. board_of s ≡ id_of board.now) }
    ensures spare { IfOk result (λ s. (view s).spare ≡ 15) }
    ensures finished { IfOk result (λ s. (truth : FactTruth) (first : BoardSeat FactTruth) → All (IsHandedBack truth first) all.entry.items → HasFinished truth first s) }
{
    let mut all = all;
    let Some(last) = all.pop() else {
        unreachable!()
    };
    let (last_seat, last_finished) = last;
    let mut seat = last_seat;
    let mut finished = last_finished;
    while let Some(other) = all.pop() {
        let (other_seat, other_finished) = other;
        board.join(&mut seat, other_seat);
        finished = finished & other_finished;
    }
    if finished { Ok(seat) } else { Err(AllocError) }
}
