//! What the checker of a text is made of: spellings and constant expressions, types of expressions and what
//! operators make of them, what a text defines, names in scope, and the judgement of an expression.
#![tactic(auto)]

pub mod call_args;
pub mod constant;
pub mod declared_types;
pub mod definitions;
pub mod expr_type;
pub mod fault;
pub mod judging;
pub mod listing;
pub mod literal;
pub mod names;
pub mod numbering;
pub mod operators;
pub mod tables;
