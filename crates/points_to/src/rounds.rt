//! Rounds over the statements of a program that may store a pointer, until one changes nothing.
ghost use Rattle.std.specs.Prelude.{◌≡◌, ◌+◌, ◌<◌, ◌^◌, ℕ, false, length};
ghost use Rattle.bit_rows.specs.Tables.{empty_table};
ghost use Rattle.dep_model.specs.LocationLists.{location_list};
ghost use Rattle.dep_model.specs.LocationRows.{ArePointsRows};
ghost use Rattle.points_laws.specs.Known.{HasKnownSides};
ghost use Rattle.points_to.specs.Agendas.{is_settled};
ghost use Rattle.points_to.specs.Moves.{AreMoves};
ghost use Rattle.points_to.specs.Rounds.{IsRound};
ghost use Rattle.points_to.specs.Sweeps.{IsReady};

use crate::moves::Move;
use crate::solver::Solver;
use std::alloc::Global;

// Uses a statement, where it isn't settled. Tells whether a row changed.
fn turn(alloc: Global, k: u32, moves: &[Move<'_>], solver: &mut Solver) -> bool
    requires ready { IsReady solver.old }
    requires statements { solver.old.agenda.readers.bits ≡ length moves.now }
    requires inside { k < length moves.now }
    ensures { IsRound solver.old.effects moves.now k (k + 1) solver.old solver.new result }
{
    if solver.agenda.is_settled(k) {
        false
    } else {
        solver.take(alloc, k, &moves[k as usize])
    }
}

// Uses each statement that isn't settled, one after another. Tells whether a row changed.
fn forwards(alloc: Global, moves: &[Move<'_>], solver: &mut Solver) -> bool
    requires few { length moves.now < 2 ^ 32 }
    requires ready { IsReady solver.old }
    requires statements { solver.old.agenda.readers.bits ≡ length moves.now }
    ensures { IsRound solver.old.effects moves.now 0 (length moves.now) solver.old solver.new result }
{
    let mut changed = false;
    for k in 0..moves.len() as u32 {
        let more = turn(alloc, k, moves, solver);
        changed |= more;
    }
    changed
}

// The same, from the last one on.
fn backwards(alloc: Global, moves: &[Move<'_>], solver: &mut Solver) -> bool
    requires few { length moves.now < 2 ^ 32 }
    requires ready { IsReady solver.old }
    requires statements { solver.old.agenda.readers.bits ≡ length moves.now }
    ensures { IsRound solver.old.effects moves.now 0 (length moves.now) solver.old solver.new result }
{
    let mut changed = false;
    let mut left = moves.len() as u32;
    while left > 0 {
        left -= 1;
        let more = turn(alloc, left, moves, solver);
        changed |= more;
    }
    changed
}

// Uses each statement that isn't settled, from the last one on where `back` says so. Tells whether a row changed.
fn round(alloc: Global, moves: &[Move<'_>], solver: &mut Solver, back: bool) -> bool
    requires few { length moves.now < 2 ^ 32 }
    requires ready { IsReady solver.old }
    requires statements { solver.old.agenda.readers.bits ≡ length moves.now }
    ensures { IsRound solver.old.effects moves.now 0 (length moves.now) solver.old solver.new result }
{
    if back {
        backwards(alloc, moves, solver)
    } else {
        forwards(alloc, moves, solver)
    }
}

/// Goes on until a round changes nothing. Statements are taken forwards and backwards by turns, so that a chain of assignments or of
/// calls takes few rounds, in whatever order it is written.
pub(crate) fn settle(alloc: Global, moves: &[Move<'_>], solver: &mut Solver)
    requires few { length moves.now < 2 ^ 32 }
    requires moves { AreMoves solver.old.effects moves.now }
    requires known { HasKnownSides solver.old.effects }
    requires ready { IsReady solver.old }
    requires statements { solver.old.agenda.readers.bits ≡ length moves.now }
    requires none { (k : ℕ) → is_settled solver.old.agenda k ≡ false }
    requires nowhere { solver.old.points.rows ≡ empty_table (length (location_list solver.old.effects)) (length (location_list solver.old.effects)) }
    ensures exact { ArePointsRows solver.old.effects solver.new.points }
{
    let mut back = false;
    while round(alloc, moves, solver, back) {
        back = !back;
    }
}
