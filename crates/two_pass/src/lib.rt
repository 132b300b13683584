//! Vertices that reach others by matched calls and returns: the two passes over a dependence graph with summary edges
//! (Horwitz, Reps and Binkley 1990), as one closure by rules.
#![tactic(auto)]

mod calls;
mod passes;
mod rules;

pub use passes::{Passes, rules_of};
