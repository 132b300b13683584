//! The faults for which tokens have no tree, each with its line.
use c_language::Text;
use thiserror::Error;

/// Why tokens have no tree here.
#[derive(Debug, Error, Drop)]
pub enum ParseFault {
    /// A construct that the language leaves out begins at the token with this text, on this line.
    #[error("left out")]
    LeftOut(Text, u32),
    /// The tokens have no tree. The line is that of a token at which reading stopped.
    #[error("syntax")]
    Syntax(u32),
    /// The tokens nest deeper than 100. The line is that of one of them.
    #[error("nesting")]
    Nesting(u32),
    /// Memory ran out.
    #[error("out of memory")]
    NoMemory,
}
