//! Work that a team does on a board whose truth borrows.
//!
//! A closure whose seat names a lifetime can't be proved by this compiler, so work on such a board is a struct with a trait, and the
//! one closure over seats stands here.
ghost use Rattle.std.specs.Prelude.{◌≡◌, ℕ, ◌+◌, ◌<◌, ◌≤◌, length, slice_index_or, Bool, IfOk};
ghost use Rattle.crew.specs.declared.board.BoardSeat.{BoardSeat};

use crate::board::BoardSeat;
use crate::team::team_map;
use crate::truth::Truth;
use std::alloc::{AllocError, Global};
use std::thread::Threads;

/// What one worker does with its seat.
pub trait Job<T: Truth> {
    // The job may be done with the seat.
    ghost takes: { Self → BoardSeat T → Type 0 };

    // The seat that it may give back for a seat, and whether memory sufficed.
    ghost gives: { Self → BoardSeat T → BoardSeat T → Bool → Type 0 };

    /// Does the work of the worker, and hands the seat back with whether memory sufficed.
    fn run(&self, worker: u32, seat: BoardSeat<T>) -> (BoardSeat<T>, bool)
        requires { takes self.now seat }
        ensures { gives self.now seat result.0 result.1 };
}

/// The job by the workers 1, 2, .. side by side, each with its seat: what each gives back, in the order of the seats.
///
/// Fails with [`AllocError`] as [`team_map`] does.
pub fn run_all<T: Truth + Send + Sync, J: Job<T> + Sync, R: Threads + Sync>(
    rt: &R,
    alloc: Global,
    seats: Vec<BoardSeat<T>>,
    job: &J,
) -> Result<Vec<(BoardSeat<T>, bool)>, AllocError>
    requires few { length seats.items ≤ 16 }
    requires takes { (i : ℕ) (s : _) → i < length seats.items → s ≡ slice_index_or seats.items i s → J.takes job.now s }
    ensures len { IfOk result (λ v. length v.items ≡ length seats.items) }
    ensures each { IfOk result (λ v. (i : ℕ) (d : _) → i < length seats.items → (s : _) × (s ≡ slice_index_or seats.items i s) × J.gives job.now s (slice_index_or v.items i d).0 (slice_index_or v.items i d).1) }
{
    let done = team_map(
        rt,
        alloc,
        seats,
        &|worker: u32, seat: BoardSeat<T>| -> (BoardSeat<T>, bool)
            requires { J.takes job.now seat }
            ensures { J.gives job.entry.now seat result.0 result.1 }
        { job.run(worker, seat) },
    )?;
    Ok(done)
}
