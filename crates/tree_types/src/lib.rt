//! The types of what a program's tree declares, and of its expressions (ISO C99 6.5).
#![tactic(auto)]

mod declared;
mod expressions;

pub use declared::{declared_type, member_type, members, variable_type};
pub use expressions::{expr_type, pointee};
