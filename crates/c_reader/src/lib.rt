//! The reader as a whole: from the bytes of a text to its program, or a refusal that the text shows.
#![tactic(auto)]

mod reader;
mod refusal;

pub use c_lex::LexFault;
pub use c_parse::ParseFault;
pub use c_types::RuleFault;
pub use reader::read_program;
pub use refusal::ReadRefusal;
