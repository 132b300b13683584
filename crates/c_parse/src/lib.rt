//! The parser: from a list of tokens to the tree that the grammar gives it.
//!
//! It reads from left to right with one token in hand, or two. Its recursion is bounded by the limit on
//! nesting: what nests deeper is refused before it is read. Items and the public call are here; c_parse_expr,
//! c_parse_simple and c_parse_statements have what stands in them.
#![tactic(auto)]

mod items;
mod parse_fault;
mod parser;

pub use parse_fault::ParseFault;
pub use parser::parse;
