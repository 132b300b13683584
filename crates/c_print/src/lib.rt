//! The printer: the layout of a program, its one written form.
//!
//! [`print`] is proved to give the layout for every tree, whether or not a text has it. Each
//! function below it appends to a text what it writes, and its contract says which bytes those
//! are, so that no byte is built twice.
#![tactic(auto)]

mod expressions;
mod heads;
mod items;
mod lines;
mod margin;
mod names;
mod parts;
mod statements;
mod types;
mod words;

pub use items::print;
pub use lines::{layouts_have_few_lines, line_of, lines_of};
