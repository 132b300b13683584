//! The tokens of a text, each with its kind, its bytes and its line, and what may stand before one in its line.
use edge_io::Text;

/// What a token is (ISO C99 6.4). A directive is a line that begins with `#` and is no include of a
/// library header.
#[derive(Clone, Copy, Debug, PartialEq, Eq)]
pub enum TokenKind {
    /// An identifier or a keyword.
    Name,
    /// An integer constant.
    Number,
    /// A character constant.
    Character,
    /// A string literal.
    Str,
    /// A punctuator.
    Mark,
    /// A line that includes `stdio.h` or `stdlib.h`.
    Include,
    /// Any other line whose first token is `#`, to its end.
    Directive,
}

/// A token of a text.
#[derive(Debug, Drop)]
pub struct Token {
    /// What it is.
    pub kind: TokenKind,
    /// Its bytes; those of an include are the header's name with its angle brackets, that of a
    /// directive is `#`.
    pub text: Text,
    /// One more than the number of line feeds before its first byte.
    pub line: u32,
}

/// What stands in a line before a place in it, white space apart. A directive is the first token of
/// its line, and an include has no comment before it that began in an earlier line.
#[derive(Clone, Copy, Debug, PartialEq, Eq)]
pub enum Before {
    /// Nothing, or comments that begin in this line.
    Blank,
    /// No token, but the end of a comment of an earlier line.
    Comment,
    /// A token.
    Token,
}
