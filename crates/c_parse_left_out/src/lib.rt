//! Constructs that the language leaves out: the first one that its tokens tell, and those that no production
//! reads, near where reading stopped.
#![tactic(auto)]

mod around;
mod naming;
mod near;
mod neighbours;
mod telling;

pub use near::left_out_near;
pub use telling::first_told;
