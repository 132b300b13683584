//! The top call for kept lines: from the words of a command line to the lines that the slices of a file's program keep.
//!
//! [`run_lines`] works over any shelf and any sinks. [`lines_call`] is what `main` calls: it makes the words of the program's
//! arguments, and its answer, an [`Exit`], has the code of the status. Files, refusals, their lines on err and the statuses are those
//! of the crate `slicer_top`.
#![tactic(auto)]

mod criteria;
mod exit;
mod making;
mod run;
mod words;

pub use exit::{Exit, lines_call};
pub use run::run_lines;
pub use slicer_top::{FileShelf, Gate, OpenGate, Status, StreamSink, Text};
