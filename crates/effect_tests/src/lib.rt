//! Tests of what expressions and statements read, set, use and kill: texts are read, and the rows are typed by hand from them.
#![tactic(auto)]

#[cfg(test)]
mod expression_tests;
#[cfg(test)]
mod programs;
#[cfg(test)]
mod reading;
#[cfg(test)]
mod statement_tests;
