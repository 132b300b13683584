//! Numbers and pairs of numbers of which some are kept, as lists of tests, and the new numbers of the kept ones.
#![tactic(auto)]

mod pairs;
mod ranks;

pub use pairs::Pairs;
pub use ranks::{Renumbering, is_at, is_kept};
