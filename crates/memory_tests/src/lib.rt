//! Tests of memory while a program runs, of the globals with which it begins, and of expressions; what is wanted is typed by hand
//! from C99.
#![tactic(auto)]

#[cfg(test)]
mod block_tests;
#[cfg(test)]
mod expression_tests;
#[cfg(test)]
mod global_tests;
#[cfg(test)]
mod trees;
