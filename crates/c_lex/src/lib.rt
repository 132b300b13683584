//! The tokens of a text, by one scan of its bytes.
//!
//! [`lex`] is proved to answer exactly the tokens that the text has by the definition of c_language,
//! or a fault that the bytes show.
#![tactic(auto)]

mod bytes;
mod fault;
mod laws;
mod lexer;
mod line;
mod literal;
mod mark;
mod number;
mod piece;
mod place;
mod word;

pub use c_language::{Token, TokenKind};
pub use edge_io::Text;
pub use fault::LexFault;
pub use laws::{tokens_are_longest, tokens_are_spread};
pub use lexer::lex;
