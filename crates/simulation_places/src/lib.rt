//! Where a slice stands: at the projection of the place of its original.
//!
//! The function is a law, and holds no code: its contract is the law, over the definitions of `specs/`.
#![tactic(auto)]

ghost use Rattle.simulation_places.specs.Laws as law;

/// A law: where a program has the projections of the bodies of the functions that a set of vertices keeps of another, in
/// every run a kept act, call or move comes next in the projection of each place where it comes next in the other program,
/// under its number and with its kept arguments and target, and goes on to the projection of what comes after it; at others
/// the projection stays.
pub fn places_are_projected()
    ensures { law.PlacesAreProjected }
{}
