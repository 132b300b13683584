//! The facts of a graph, by rounds over agendas of functions, each of which a team shares out.
ghost use Rattle.std.specs.Prelude.{◌≡◌, ◌≢◌, ℕ, ◌<◌, ◌≤◌, All, IfOk, Contains, length};
ghost use Rattle.std.specs.List.{AllPairs};
ghost use Rattle.crew.specs.SharedWords.{AreWithin};
ghost use Rattle.dep_model.specs.Facts.{AreTrueFacts, HoldsFact};
ghost use Rattle.dep_model.specs.Shapes.{IsShaped};
ghost use Rattle.matched_paths.specs.Laws.{IsSettled};
ghost use Rattle.summary_edges.specs.FactIndexes.{IsIndex};
ghost use Rattle.summary_edges.specs.FactMachine.{IsFunction};
ghost use Rattle.summary_edges.specs.Rounds.{AreSound, IsRoundTaken};

use crate::agenda::{first_agenda, later_agenda};
use crate::fact_index::FactIndex;
use crate::fact_truth::FactTruth;
use crate::team::{join_all, run_team, seats_of};
use crew::{Board, Gate};
use dep_model::{Facts, Graph};
use sqlite_items::Items;
use std::alloc::{AllocError, Global};
use std::thread::Threads;

// A copy of words. Err: no memory was left.
fn copy_of(alloc: Global, words: &[u64]) -> Result<Vec<u64>, AllocError>
    ensures { IfOk result (λ v. v.items ≡ words.now) }
{
    let mut copy = Vec::new(alloc);
    copy.extend_from_slice(words)?;
    Ok(copy)
}

// A round: a team takes a step of each function of the agenda, from the facts of some words on. The words that it leaves. Err: no
// memory was left for the board, or for a worker.
fn round<R: Threads + Sync, G: Gate + Sync>(
    rt: &R,
    alloc: Global,
    g: &Graph,
    index: &FactIndex,
    agenda: &[u32],
    words: &[u64],
    workers: u32,
    gate: &G,
) -> Result<Vec<u64>, AllocError>
    requires index { IsIndex g.now index.now }
    requires some { 1 ≤ length agenda.now }
    requires few { length agenda.now ≤ 65536 }
    requires functions { All (IsFunction g.now) agenda.now }
    requires once { AllPairs (λ f h. f ≢ h) agenda.now }
    requires sound { AreSound g.now words.now }
    requires workers { (1 ≤ workers) × (workers ≤ 16) }
    ensures { IfOk result (λ v. IsRoundTaken g.now agenda.now words.now v.items) }
{
    let truth = FactTruth::with_index(g, agenda, index);
    let start = copy_of(alloc, words)?;
    let (board, first) = Board::open(alloc, truth, start, agenda.len() as u32)?;
    let size = agenda.len().min(workers as usize);
    let seats = seats_of(alloc, &board, first, size)?;
    let all = run_team(rt, alloc, &truth, &board, seats, gate)?;
    let seat = join_all(&board, all)?;
    let words = board.close(alloc, seat)?;
    Ok(words)
}

// Rounds, from an agenda on outside which each function is settled, until an agenda is empty. Err: no memory was left.
fn settle<R: Threads + Sync, G: Gate + Sync>(
    rt: &R,
    alloc: Global,
    g: &Graph,
    index: &FactIndex,
    agenda: Vec<u32>,
    words: Vec<u64>,
    workers: u32,
    gate: &G,
) -> Result<Vec<u64>, AllocError>
    requires index { IsIndex g.now index.now }
    requires functions { All (IsFunction g.now) agenda.items }
    requires ascending { AllPairs (λ f h. f < h) agenda.items }
    requires sound { AreSound g.now words.items }
    requires others { (f : ℕ) → (Contains agenda.items f → ⊥) → IsSettled g.now (HoldsFact g.now words.items) f }
    requires workers { (1 ≤ workers) × (workers ≤ 16) }
    ensures exact { IfOk result (λ v. AreTrueFacts g.now v.items) }
{
    let mut agenda = agenda;
    let mut words = words;
    while !agenda.is_empty() {
        let after = round(
            rt,
            alloc,
            g,
            index,
            agenda.as_slice(),
            words.as_slice(),
            workers,
            gate,
        )?;
        agenda = later_agenda(
            alloc,
            g,
            &index.parts,
            &index.calls,
            words.as_slice(),
            after.as_slice(),
        )?;
        words = after;
    }
    Ok(words)
}

/// Finds which formal-outs of a graph depend on which formal-ins of their functions, by paths whose calls and returns match
/// (Horwitz, Reps and Binkley 1990).
///
/// In each round so many workers share out the functions of an agenda, or as many as it has; each draws their numbers from one board,
/// and passes the gate after each. Where no thread can be started, the workers come one after another.
///
/// Err: no memory was left, for a worker or besides.
pub fn find<R: Threads + Sync, G: Gate + Sync>(
    rt: &R,
    alloc: Global,
    g: &Graph,
    workers: u32,
    gate: &G,
) -> Result<Facts, AllocError>
    requires shaped { IsShaped g.now }
    requires workers { (1 ≤ workers) × (workers ≤ 16) }
    ensures exact { IfOk result (λ f. AreTrueFacts g.now f.words) }
{
    let index = FactIndex::find(alloc, g)?;
    let agenda = first_agenda(alloc, g, &index.parts)?;
    let none = vec![in alloc; 0u64; g.fact_words as usize]?;
    let words = settle(rt, alloc, g, &index, agenda, none, workers, gate)?;
    Ok(Facts {
        words: Items::from_vec(words),
    })
}
