//! The words of a call: the grammar as a table, and what words in it ask for, read by `clap`.
#![tactic(auto)]

mod arguments;
mod deciding;
mod grammar;
mod reading;
mod request;
mod sorting;

pub use arguments::words_of;
pub use grammar::{Command, Form, Kind, OptionForm};
pub use request::{Request, WordsFault, read_words};
