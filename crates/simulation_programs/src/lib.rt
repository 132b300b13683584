//! The projection of a program of any form, as code: the bodies of its functions are the projections of the bodies.
//!
//! The functions are laws, and hold no code: their contracts are the laws, over the definitions of `specs/`.
#![tactic(auto)]

ghost use Rattle.simulation_programs.specs.Laws as law;

/// A law: where what is kept of a well-formed program hangs together, its projection has its structs and members, the
/// variables that stay with their types, the globals that stay with what they begin with, and each function that stays
/// under its rank, with the parameters and the variables that stay, its result where it gives it still, and the
/// projection of its body.
pub fn hanging_has_like_parts()
    ensures { law.HangingHasLikeParts }
{}

/// A law: so where a set of vertices of a well-formed program's system graph can be projected, the projection to it has
/// the projections of the bodies of kept functions, nothing is left behind a test that isn't kept, main is main, and
/// statements, calls and results are kept as their vertices are.
pub fn projections_are_projected()
    ensures { law.ProjectionsAreProjected }
{}
