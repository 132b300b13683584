//! The completion of a set of vertices of a system dependence graph: what else a slice keeps, so that it is a program (after
//! Binkley 1993).
//!
//! [`Closer::close_up`] is proved to leave the least closed set that holds the given one.
#![tactic(auto)]

mod closer;
mod formals;
mod laws;
mod names;
mod rows;
mod rules;
mod statements;

pub use closer::Closer;
pub use laws::completions_are_projectable;
