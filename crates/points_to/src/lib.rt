//! Where each location of a program may point, whatever the order of its statements (Andersen 1994).
//!
//! Rounds over rows: a round takes each statement that may store a pointer, evaluates both sides of its pointings at the rows as
//! they are, and joins what is on the right into the row of each location on the left. A statement is used again only where a row
//! that it read has grown since. Rounds go forwards and backwards by turns, until one changes nothing.
#![tactic(auto)]

ghost use Rattle.std.specs.Prelude.{◌≡◌, ◌↔◌, ◌<◌, IsTrue, IfOk, length};
ghost use Rattle.c_language.specs.Programs.{IsWellFormed};
ghost use Rattle.dep_model.specs.LocationLists.{location_list};
ghost use Rattle.dep_model.specs.LocationRows.{ArePointsRows};

mod agenda;
mod blocks;
mod moves;
mod rounds;
mod solver;

use c_tree::Program;
use dep_model::{Locations, PointsTo};
use effect_rows::LocationEffects;
use moves::moves_of;
use rounds::settle;
use solver::Solver;
use std::alloc::{AllocError, Global};

/// Where each location of a well-formed program may point, by the list of the program's locations: the row of a
/// location has another exactly where a derivation ends in the two. Err: no memory was left, or the program has more
/// functions, or statements that may store a pointer, than there are numbers for them.
pub fn solve(alloc: Global, p: &Program, l: &Locations) -> Result<PointsTo, AllocError>
    requires well_formed { IsWellFormed p.now }
    requires list_is { l.now ≡ location_list p.now }
    ensures exact { IfOk result (λ t. ArePointsRows p.now t) }
{
    if has_too_many_functions(p) {
        return Err(AllocError);
    }
    let effects = LocationEffects::new(alloc, p, l)?;
    let moves = moves_of(alloc, p, &effects)?;
    if moves.len() > u32::MAX as usize {
        return Err(AllocError);
    }
    let mut solver = Solver::new(alloc, p, l, effects, moves.len() as u32)?;
    settle(alloc, moves.as_slice(), &mut solver);
    Ok(solver.points)
}

// Whether a program has more functions than numbers of 32 bits can count.
fn has_too_many_functions(p: &Program) -> bool
    ensures { IsTrue result ↔ (4294967295 < length p.now.functions) }
{
    p.functions.len() > u32::MAX as usize
}
