//! Tests of what is found of whole texts over integers: what their functions modify and use, their vertices and graphs, also as they
//! are printed, the facts of these, the sets of vertices that slices keep, and forward slices and chops. All that is wanted is typed by
//! hand from the texts.
#![tactic(auto)]

#[cfg(test)]
mod analyses;
#[cfg(test)]
mod chop_tests;
#[cfg(test)]
mod edge_tests;
#[cfg(test)]
mod effects_tests;
#[cfg(test)]
mod fact_tests;
#[cfg(test)]
mod member_tests;
#[cfg(test)]
mod printed_tests;
#[cfg(test)]
mod printing;
#[cfg(test)]
mod programs;
#[cfg(test)]
mod vertex_tests;
