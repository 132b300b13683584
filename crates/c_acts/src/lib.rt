//! What the acts of a program make: the values that their events show, what they write, and what they change.
#![tactic(auto)]

mod acts;
mod formats;
mod makings;

pub use acts::{given, made, test_value, values_of};
pub use makings::{Change, Made, Request, Stores};
