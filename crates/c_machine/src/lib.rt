//! The interpreter: programs run one act at a time, and what a machine answers after each act is what the program means.
#![tactic(auto)]

mod machine;
mod rests;
mod runs;
mod states;
mod traces;

pub use machine::{Halt, Machine};
pub use runs::Turn;
