//! Tests of the engine on texts with pointers, over its public calls: how many edges of each label their graphs have, what
//! reaches the statements of a line, and what its slice keeps. The numbers are typed by hand from the texts.
#![tactic(auto)]

#[cfg(test)]
mod graph_tests;
#[cfg(test)]
mod programs;
#[cfg(test)]
mod reading;
#[cfg(test)]
mod set_tests;
