//! The top call of the slicer: from the words of a command line to the bytes that they ask for.
//!
//! [`run_slicer`] works over any shelf and any sinks. The program gives it [`FileShelf`] and
//! [`StreamSink`], tests give it files in memory and sinks that fail. [`run_call`] is what `main` calls: it makes the
//! words of the program's arguments, and its answer, an [`Exit`], has the code of the status.
//!
//! Other top calls over files share [`text_in`], [`criterion_at`], [`Refusal`], [`tell_refusal`], [`tell`] and [`Status`].
#![tactic(auto)]

mod chops;
mod criteria;
mod exit;
mod laws;
mod numbers;
mod refusal;
mod report;
mod run;
mod running;
mod slicing;
mod status;

pub use criteria::criterion_at;
pub use edge_io::{FileShelf, StreamSink, Text};
pub use exit::{Exit, run_call};
pub use laws::{calls_keep_promises, slices_are_one};
pub use refusal::Refusal;
pub use report::{report as tell_refusal, tell, tell_no_memory};
pub use run::run_slicer;
pub use slice_batch::{Gate, OpenGate};
pub use slicing::text_in;
pub use status::Status;
