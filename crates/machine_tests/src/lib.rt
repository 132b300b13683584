//! Runs of whole programs on the interpreter: answers, events and output, typed by hand from the language.
#![tactic(auto)]

#[cfg(test)]
mod programs;
#[cfg(test)]
mod run_tests;
#[cfg(test)]
mod undefined_tests;
