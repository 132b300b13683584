//! Sets of vertices by their numbers, and the least such sets that are closed under rules with one
//! premise or two (propositional Horn clauses; Dowling and Gallier, J. Logic Programming 1(3), 1984).
//!
//! [`Closure::close`] is proved to leave the least closed set, which is what the rules derive.
#![tactic(auto)]

mod closure;
mod engine;
mod vertex_set;

pub use closure::{Closure, Rule};
pub use vertex_set::VertexSet;

#[cfg(test)]
mod tests;
