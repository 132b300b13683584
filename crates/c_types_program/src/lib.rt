//! The program of a text that keeps all rules: its tree with names as numbers and with types. One walk in text order makes
//! it, of parts that c_types_trees makes.
#![tactic(auto)]

mod functions;
mod items;
mod program;
mod simple;
mod statements;
mod structs;
mod variables;
mod walk;

pub use c_types_trees::make_fault::MakeFault;
pub use program::make_program;
