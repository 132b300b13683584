//! The rules of a text (ISO C99 6.5 to 6.9): a walk along its phrases up to the first that breaks one.
//!
//! Each step of the walk asks the check of its phrase (c_types_checks), and answers the same with the line of the phrase
//! (`WalkFault`).
#![tactic(auto)]

mod items;
mod rules;
mod steps;
mod walk;
mod walk_fault;

pub use rules::check_rules;
pub use walk_fault::WalkFault;
