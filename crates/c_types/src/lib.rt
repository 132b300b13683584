//! Names, types and the rules that a text has to keep: from the raw tree to the program.
#![tactic(auto)]

mod checker;
mod limits;
mod rule_fault;

pub use checker::check;
pub use rule_fault::RuleFault;
