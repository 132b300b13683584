//! What a line can influence, and through what: forward slices and chops of a dependence graph, exact by matched words (Reps and Rosay,
//! Precise interprocedural chopping, 1995).
#![tactic(auto)]

mod begin;
mod chopper;
mod field;
mod laws;
mod outs;
mod parts;
mod passes;
mod ready;
mod rounds;
mod turned;
mod wanted;

pub use chopper::Chopper;
pub use laws::{chops_are_by_contexts, chops_lie_in_both};
pub use passes::ForwardPasses;
