//! The lines of a program's text that its slices keep: on which statements start that a slice has.
#![tactic(auto)]

mod lines;
mod statements;
mod texts;

pub use lines::kept_lines;
pub use texts::lines_text;
