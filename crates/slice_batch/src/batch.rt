//! The texts of a list of criteria.
ghost use Rattle.std.specs.Prelude.{◌≤◌, All, IfOk, length};
ghost use Rattle.slice_engine.specs.Slice.{HasStart};
ghost use Rattle.slice_batch.specs.Batch.{AreTexts};

use crate::placing::places;
use crate::team::{join_all, run_team, seats_of};
use crew::{Board, Gate, numbers};
use slice_engine::{Criterion, Engine, Text};
use std::alloc::{AllocError, Global};
use std::thread::Threads;

/// The text of the slice at each criterion, in the order of the list; a criterion that stands in it twice has its text
/// twice. The criteria are shared out among so many workers, or as many as there are criteria; each draws their numbers from one
/// board, and passes the gate after each. Where no thread can be started, the workers come one after another.
///
/// Err: no memory was left for a worker, or none for the layout of a slice ([`Engine::slice_text`]).
pub fn slices<R: Threads + Sync, G: Gate + Sync>(
    rt: &R,
    alloc: Global,
    e: &Engine,
    list: &[Criterion],
    workers: u32,
    gate: &G,
) -> Result<Vec<Text>, AllocError>
    requires few { length list.now ≤ 64 }
    requires starts { All (λ c. HasStart e.now c.line) list.now }
    requires workers { (1 ≤ workers) × (workers ≤ 16) }
    ensures { IfOk result (λ texts. AreTexts e.now list.now texts.items) }
{
    let mut texts = places(alloc, list.len())?;
    let size = list.len().min(workers as usize);
    if size == 0 {
        return Ok(texts);
    }
    let (board, first) = Board::open(alloc, numbers(), Vec::new(alloc), list.len() as u32)?;
    let seats = seats_of(alloc, &board, first, size)?;
    let all = run_team(rt, alloc, e, list, &board, seats, gate)?;
    let seat = join_all(e, list, &board, all, &mut texts)?;
    let _words = board.close(alloc, seat)?;
    Ok(texts)
}
