//! Tests of the reader and the printer as wholes: texts with their tokens, texts with their programs and trees with their
//! layouts, worked out by hand from the language. They stand apart, so that to prove them isn't to prove these crates
//! once more.
#![tactic(auto)]

#[cfg(test)]
mod answer_tests;
#[cfg(test)]
mod building;
#[cfg(test)]
mod front_tests;
#[cfg(test)]
mod layout_tests;
#[cfg(test)]
mod token_tests;
#[cfg(test)]
mod tree_tests;
