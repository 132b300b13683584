//! Keywords, tests of one token, and what a test of the next token says of the tokens.
#![tactic(auto)]

mod keywords;
mod tokens;

pub use keywords::is_keyword;
pub use tokens::is_token;
