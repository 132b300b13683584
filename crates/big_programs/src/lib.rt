//! Large programs made from a seed: the text of a program with as many functions as are asked for, in which each function
//! but the first calls one before it.
//!
//! [`generate`] writes exactly the text that `specs/Generated` defines, so that one seed and one size give one text.
#![tactic(auto)]

ghost use Rattle.std.specs.Prelude.{◌≡◌, IfOk};
ghost use Rattle.big_programs.specs.Generated.{generated};

mod choices;
mod functions;
mod generator;
mod lines;

pub use choices::{Call, Choices};
use edge_io::Text;
use generator::Generator;
use std::alloc::{AllocError, Global};

/// The text of the program that a seed gives, with so many functions beside `main`, one or more: four globals, the
/// functions `f1`, `f2` and so on, and a `main` that calls the last of them and prints what it gives. Err: no memory was
/// left.
pub fn generate(alloc: Global, seed: u32, size: u32) -> Result<Text, AllocError>
    ensures { IfOk result (λ text. text ≡ generated seed size) }
{
    let mut generator = Generator::new(seed);
    let mut text = Text::new(alloc);
    lines::append_opening(&mut text)?;
    functions::append_functions(alloc, &mut generator, size, &mut text)?;
    lines::append_main(alloc, size, &mut text)?;
    Ok(text)
}

#[cfg(test)]
mod tests;
