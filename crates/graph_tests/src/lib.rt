//! Tests of system graphs, edge by edge: small programs, typed by hand as trees, whose graphs are typed from the text beside them.
#![tactic(auto)]

#[cfg(test)]
mod build_tests;
#[cfg(test)]
mod programs;
