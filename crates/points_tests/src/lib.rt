//! Tests of where locations may point: texts are read, and the pairs are typed by hand from them.
#![tactic(auto)]

#[cfg(test)]
mod points_tests;
#[cfg(test)]
mod reading;
#[cfg(test)]
mod texts;
