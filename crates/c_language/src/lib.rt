//! The written language, as definitions: the layout of a program, its statements in the order in
//! which they are done, and the texts that are read.
//!
//! Its code is plain data (tokens, operators, constants, and the types of expressions) and how types and operators
//! are spelled. What it defines stands in `specs/`, a file for each topic.
#![tactic(auto)]

mod constant;
mod expr_type;
mod operators;
mod token;
mod words;

pub use constant::Constant;
pub use edge_io::Text;
pub use expr_type::{Base, ExprType, Layer, Operand};
pub use operators::{Infix, Prefix, Selector};
pub use token::{Before, Token, TokenKind};
pub use words::{binary_sign, int_words, unary_sign};
