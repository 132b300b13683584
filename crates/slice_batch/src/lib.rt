//! Many slices of one program, by a team.
#![tactic(auto)]

mod batch;
mod placing;
mod team;
mod worker;

pub use batch::slices;
pub use crew::{Gate, OpenGate};
