//! One slice of a program: what it reads, what it keeps, and the text that it writes.
#![tactic(auto)]

mod criterion;
mod engine;
mod graph;
mod header;
pub mod laws;
mod slicing;
mod starts;

pub use c_reader::{LexFault, ParseFault, ReadRefusal, RuleFault, read_program};
pub use c_tree::{LimitName, Program, Text};
pub use crew::{Gate, OpenGate};
pub use dep_model::{Graph, GraphFault, Locations, VertexSet};
pub use engine::{Criterion, Engine};
pub use slicing::Slicing;
