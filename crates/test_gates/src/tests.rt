//! Workers side by side on one board.
ghost use Rattle.std.specs.Prelude.{◌≡◌, ℕ, ◌<◌, length};
ghost use Rattle.crew.specs.Seats.{view, board_of, id_of};

use crate::gates::{CountGate, HoldGate};
use crew::{Board, BoardSeat, Gate, Job, Numbers, Truth, numbers, run_all, team_map};
use std::alloc::{AllocError, Global};
use std::thread::Threads;

/// Every fact is true, and anyone may put it.
#[derive(Clone, Copy)]
struct Anything;

impl Truth for Anything {
    ghost is_true = { λ _ n. Unit {0} };

    ghost may_put = { λ _ drawn known n. Unit {0} };

    ghost sound = { λ t drawn known n all h. tt };
}

/// Draws once, and passes the gate with what was drawn.
fn draw_once<G: Gate>(
    board: &Board<Numbers>,
    seat: BoardSeat<Numbers>,
    worker: u32,
    gate: &G,
) -> BoardSeat<Numbers>
    requires { board_of seat ≡ id_of board.now }
    ensures { board_of result ≡ id_of board.now }
{
    let mut seat = seat;
    if let Some(number) = board.draw(&mut seat) {
        gate.pass(worker, number);
    }
    seat
}

/// Draws four times, so that no number is left.
fn draw_all<G: Gate>(board: &Board<Numbers>, seat: BoardSeat<Numbers>, worker: u32, gate: &G)
    requires { board_of seat ≡ id_of board.now }
{
    let seat = draw_once(board, seat, worker, gate);
    let seat = draw_once(board, seat, worker, gate);
    let seat = draw_once(board, seat, worker, gate);
    let _done = draw_once(board, seat, worker, gate);
}

/// Two workers draw the numbers below `end`.
fn draw_by_two<R: Threads + Sync, G: Gate + Sync>(
    rt: &R,
    alloc: Global,
    end: u32,
    gate: &G,
) -> Result<(), AllocError>
    requires { end < 100 }
{
    let (board, mut first) = Board::open(alloc, numbers(), Vec::new(alloc), end)?;
    let second = board.split(&mut first);
    let mut seats = Vec::new(alloc);
    seats.push(first)?;
    seats.push(second)?;
    let board = &board;
    team_map(
        rt,
        alloc,
        seats,
        &|worker: u32, seat: BoardSeat<Numbers>| -> ()
            requires { board_of seat ≡ id_of board.now }
        { draw_all(board, seat, worker, gate) },
    )?;
    Ok(())
}

#[test]
fn the_other_draws_while_one_is_held(rt: HostRuntime) -> Result<(), AllocError> {
    let gate = HoldGate::new(2);
    draw_by_two(&rt, rt.alloc(), 2, &gate)?;
    assert!(rt; gate.met());
    Ok(())
}

#[test]
fn each_number_passes_once(rt: HostRuntime) -> Result<(), AllocError> {
    for (end, passes) in [(0, 0), (1, 1), (3, 3)] {
        let gate = CountGate::new();
        draw_by_two(&rt, rt.alloc(), end, &gate)?;
        assert_eq!(rt; gate.passes(), passes);
    }
    Ok(())
}

/// Draws, looks at word 0, publishes the bit of its worker there and draws again. It answers what it saw.
fn look_and_publish<G: Gate>(
    board: &Board<Anything>,
    seat: BoardSeat<Anything>,
    worker: u32,
    gate: &G,
) -> u64
    requires board { board_of seat ≡ id_of board.now }
    requires words { 0 < length (view seat).opening }
{
    let mut seat = seat;
    if let Some(number) = board.draw(&mut seat) {
        gate.pass(worker, number);
    }
    let seen = board.look(&mut seat, 0);
    board.publish(&mut seat, 0, 1 << (worker % 64));
    if let Some(number) = board.draw(&mut seat) {
        gate.pass(worker, number);
    }
    seen
}

/// What two workers saw of each other's bits.
fn seen_by_two<R: Threads + Sync, G: Gate + Sync>(
    rt: &R,
    alloc: Global,
    gate: &G,
) -> Result<Vec<u64>, AllocError> {
    let start = Vec::from_elem(alloc, 0u64, 1)?;
    let (board, mut first) = Board::open(alloc, Anything, start, 4)?;
    let second = board.split(&mut first);
    let mut seats = Vec::new(alloc);
    seats.push(first)?;
    seats.push(second)?;
    let board = &board;
    let seen = team_map(
        rt,
        alloc,
        seats,
        &|worker: u32, seat: BoardSeat<Anything>| -> u64
            requires { (board_of seat ≡ id_of board.now) × (0 < length (view seat).opening) }
        { look_and_publish(board, seat, worker, gate) },
    )?;
    Ok(seen)
}

/// The first that draws is held until the other has published and drawn again; then it sees the other's bit, and the other saw none.
#[test]
fn news_comes_across_threads(rt: HostRuntime) -> Result<(), AllocError> {
    let gate = HoldGate::new(3);
    let seen = seen_by_two(&rt, rt.alloc(), &gate)?;
    assert!(rt; gate.met());
    assert!(rt;
        seen.as_slice() == [1 << 2, 0].as_slice() || seen.as_slice() == [0, 1 << 1].as_slice()
    );
    Ok(())
}

/// Each worker answers its own number and what it was given, in the order in which they were given.
#[test]
fn teams_answer_in_order(rt: HostRuntime) -> Result<(), AllocError> {
    for size in [0u32, 1, 16] {
        let mut given = Vec::new(rt.alloc());
        for number in 0..size {
            given.push(100 * number)?;
        }
        if given.len() > 16 {
            panic!(rt; "more than sixteen workers");
        }
        let pairs = team_map(
            &rt,
            rt.alloc(),
            given,
            &|worker: u32, number: u32| -> (u32, u32) { (worker, number) },
        )?;
        assert_eq!(rt; pairs.len(), size as usize);
        for number in 0..size {
            assert_eq!(rt; pairs[number as usize], (number + 1, 100 * number));
        }
    }
    Ok(())
}

/// A truth that borrows: every fact is true.
#[derive(Clone, Copy)]
struct Lent<'a> {
    words: &'a [u64],
}

impl<'a> Truth for Lent<'a> {
    ghost is_true = { λ _ n. Unit {0} };

    ghost may_put = { λ _ drawn known n. Unit {0} };

    ghost sound = { λ t drawn known n all h. tt };
}

/// Publishes the bit of the worker in word 0.
#[derive(Clone, Copy)]
struct PublishOwn<'a, 'b> {
    board: &'b Board<Lent<'a>>,
}

impl<'a, 'b> Job<Lent<'a>> for PublishOwn<'a, 'b> {
    ghost takes = { λ j s. (board_of s ≡ id_of j.board.now) × (0 < length (view s).opening) };

    ghost gives = { λ j s r enough. board_of r ≡ board_of s };

    fn run(&self, worker: u32, seat: BoardSeat<Lent<'a>>) -> (BoardSeat<Lent<'a>>, bool)
        requires { (board_of seat ≡ id_of self.now.board.now) × (0 < length (view seat).opening) }
        ensures { board_of result.0 ≡ board_of seat.entry }
    {
        let mut seat = seat;
        self.board.publish(&mut seat, 0, 1 << (worker % 64));
        (seat, true)
    }
}

/// What word 0 has after two workers published their bits, as a third seat sees it.
fn published_by_two<'a, R: Threads + Sync>(
    rt: &R,
    alloc: Global,
    words: &'a [u64],
) -> Result<u64, AllocError> {
    let start = Vec::from_elem(alloc, 0u64, 1)?;
    let (board, mut first) = Board::open(alloc, Lent { words }, start, 0)?;
    let mut third = board.split(&mut first);
    let second = board.split(&mut first);
    let mut seats = Vec::new(alloc);
    seats.push(first)?;
    seats.push(second)?;
    run_all(rt, alloc, seats, &PublishOwn { board: &board })?;
    Ok(board.look(&mut third, 0))
}

#[test]
fn a_job_runs_where_the_truth_borrows(rt: HostRuntime) -> Result<(), AllocError> {
    let words = Vec::from_elem(rt.alloc(), 7u64, 1)?;
    assert_eq!(rt;
        published_by_two(&rt, rt.alloc(), words.as_slice())?,
        (1 << 1) + (1 << 2)
    );
    Ok(())
}
