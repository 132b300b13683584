//! The tree of a text as it is parsed: names as they are written, and no types of expressions.
//!
//! A line is that of the first token of what it stands beside, counted from 1.

mod expr;
mod program;
mod statement;

pub use expr::{RawExpr, RawLength, RawType, RawVar};
pub use program::{RawHead, RawInit, RawItem, RawMember, RawParam, RawProgram};
pub use statement::{
    RawAmount, RawArg, RawArm, RawLabel, RawSize, RawStatement, RawTarget, RawTypeName,
};
