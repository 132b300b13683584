//! Tests that go across crates: texts that are read, and what the crates above make of them, typed by hand
//! from the language. Calls of the slicer that are a file, words and expected texts are cases of slicer_cases.
#![tactic(auto)]

#[cfg(test)]
mod exit_tests;
#[cfg(test)]
mod fault_tests;
#[cfg(test)]
mod input_tests;
#[cfg(test)]
mod layout_tests;
#[cfg(test)]
mod many_tests;
#[cfg(test)]
mod order_tests;
#[cfg(test)]
mod programs;
#[cfg(test)]
mod projection_tests;
#[cfg(test)]
mod run_tests;
#[cfg(test)]
mod running;
#[cfg(test)]
mod team_tests;
