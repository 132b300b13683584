//! What statements are made of, in the tree: types, expressions, calls, allocations and other parts, where they break no
//! rule.
//!
//! Functions on expressions, calls, allocations and other parts ask that their part breaks no rule (`specs/KeptPhrases`)
//! and give its tree. [`shapes::ctype_with`] asks nothing of a type: it gives None where there is none, and
//! `MakeFault::Length` where an array of it has 2^32 elements or more.
#![tactic(auto)]

pub mod allocations;
pub mod calls;
pub mod expressions;
pub mod make_fault;
pub mod parts;
pub mod shapes;
mod words;
