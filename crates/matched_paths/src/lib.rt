//! Paths of a dependence graph whose calls and returns match, and the facts of its functions (summary edges: Horwitz, Reps and
//! Binkley 1990): laws over shaped graphs alone, where a fact stands among a graph's words, and the
//! rules by which one function is gone through backward.
#![tactic(auto)]

mod backward;
mod edge_groups;
mod fact_places;
mod laws;
mod step_rules;
mod vertex_range;

pub use backward::back;
pub use edge_groups::EdgeGroups;
pub use fact_places::FactPlaces;
pub use laws::{settled_has_all, steps_keep_truth};
pub use step_rules::function_rules;
pub use vertex_range::{VertexRange, range_at};
