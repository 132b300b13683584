//! Workers side by side, and the gate that each passes after a draw.
ghost use Rattle.std.specs.Prelude.{◌≡◌, ℕ, ◌+◌, ◌<◌, ◌≤◌, length, slice_index_or, IfOk};
ghost use Rattle.crew.specs.Team.{numbered};

use std::alloc::{AllocError, Global};
use std::thread;
use std::thread::Threads;

/// What a worker calls directly after each number that it drew. It answers nothing: a test's gate may count, or hold for a while.
pub trait Gate {
    fn pass(&self, worker: u32, draw: u32);
}

/// The gate that returns at once.
#[derive(Drop)]
pub struct OpenGate;

impl Gate for OpenGate {
    fn pass(&self, _worker: u32, _draw: u32) {}
}

// Each seat with the number of its worker.
fn number_seats<S: Drop>(alloc: Global, seats: Vec<S>) -> Result<Vec<(u32, S)>, AllocError>
    requires few { length seats.items ≤ 16 }
    ensures each { IfOk result (λ v. v.items ≡ numbered 1 seats.items) }
{
    let mut pairs = Vec::new(alloc);
    let mut worker = 1;
    for seat in seats {
        pairs.push((worker, seat))?;
        worker += 1;
    }
    Ok(pairs)
}

/// Runs `f` for the workers 1, 2, .. side by side, each with its seat, and answers the results in the order of the seats.
///
/// It is the one call that starts threads. Where none can be started, std runs the workers one after another, with the same results.
/// Fails with [`AllocError`] where there is no memory for seats and results; seats and results are dropped then.
pub fn team_map<R: Threads + Sync, S: Send + Drop, X: Send + Drop, F: Fn(u32, S) -> X + Sync>(
    rt: &R,
    alloc: Global,
    seats: Vec<S>,
    f: &F,
) -> Result<Vec<X>, AllocError>
    requires few { length seats.items ≤ 16 }
    requires accepts { (i : ℕ) (s : S) → i < length seats.items → s ≡ slice_index_or seats.items i s → F.pre f.now (i + 1) s }
    ensures len { IfOk result (λ v. length v.items ≡ length seats.items) }
    ensures each { IfOk result (λ v. (i : ℕ) (d : X) → i < length seats.items → (s : S) × (s ≡ slice_index_or seats.items i s) × F.post f.now (i + 1) s (slice_index_or v.items i d)) }
{
    let pairs = number_seats(alloc, seats)?;
    let results = thread::map_vec(
        rt,
        pairs,
        &|pair: (u32, S)| -> X
            requires { F.pre f.now pair.0 pair.1 }
            ensures { F.post f.entry.now pair.0 pair.1 result }
        {
            let (worker, seat) = pair;
            f(worker, seat)
        },
    )?;
    Ok(results)
}
