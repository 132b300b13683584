//! The integer types and operators of C99: what an operator gives, and when it is undefined.
//!
//! `char` is signed; the types have 8, 16, 32 and 64 bits in two's complement. A value of any of
//! them is an `i128`.
#![tactic(auto)]

mod int_type;
mod operators;

pub use int_type::{IntType, common, convert, greatest, least, lies_in, promote};
pub use operators::{BinaryOp, UnaryOp, binary, unary};

#[cfg(test)]
mod tests;
