//! Tests of the crates that read a text: expressions and declarators with their trees, constants and types, worked out by
//! hand. text_tests shows of statements that they are printed as they were read. The tests stand apart, so that to prove
//! them isn't to prove the reader once more.
#![tactic(auto)]

#[cfg(test)]
mod constant_tests;
#[cfg(test)]
mod expr_tests;
#[cfg(test)]
mod text_tests;
#[cfg(test)]
mod tokens;
#[cfg(test)]
mod tree_tests;
#[cfg(test)]
mod trees;
#[cfg(test)]
mod type_tests;
