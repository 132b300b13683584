//! Tests of the system graphs of texts with pointers, by rows of where these may point, and of what such texts are projected to. All that
//! is wanted is typed by hand from the texts.
#![tactic(auto)]

#[cfg(test)]
mod graph_tests;
#[cfg(test)]
mod programs;
#[cfg(test)]
mod projection_tests;
#[cfg(test)]
mod typed_rows;
