//! What expressions and statements of a program read, set, use and kill, as rows of its locations.
#![tactic(auto)]

mod doings;
mod expressions;
mod laws;
mod location_effects;
mod pointed;
mod seen_types;
mod steps;
mod tables;
mod taken;

pub use laws::rows_gain_by_place;
pub use location_effects::LocationEffects;
pub use seen_types::SeenType;
pub use steps::{Step, Steps};
