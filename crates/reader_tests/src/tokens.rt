//! Tokens of a text with a blank or a line feed behind each.
use c_language::{Token, TokenKind};
use c_tree::Text;
use std::alloc::{AllocError, Global};

fn kind_of(word: &[u8]) -> TokenKind {
    match word.first() {
        Some(b'0'..=b'9') => TokenKind::Number,
        Some(b'\'') => TokenKind::Character,
        Some(b'"') => TokenKind::Str,
        Some(b'#') => TokenKind::Directive,
        Some(b'a'..=b'z') | Some(b'A'..=b'Z') | Some(b'_') => TokenKind::Name,
        _ => {
            if word.starts_with(b"<std".as_slice()) {
                TokenKind::Include
            } else {
                TokenKind::Mark
            }
        }
    }
}

/// The tokens of a text with a blank or a line feed behind each.
pub fn tokens_of(alloc: Global, text: &[u8]) -> Result<Vec<Token>, AllocError> {
    let mut tokens = Vec::new(alloc);
    let mut word = Text::new(alloc);
    let mut line: u32 = 1;
    for byte in text {
        if *byte == b' ' || *byte == b'\n' {
            let kind = kind_of(word.bytes());
            tokens.push(Token {
                kind,
                text: word,
                line,
            })?;
            word = Text::new(alloc);
        } else {
            word.append(&[*byte])?;
        }
        if *byte == b'\n' {
            line = line.saturating_add(1);
        }
    }
    Ok(tokens)
}

/// The text of the token before which so many are left, or `end`.
pub fn text_at(tokens: &[Token], left: usize) -> &[u8] {
    let at = tokens.len().saturating_sub(left);
    match tokens.get(at) {
        Some(token) => token.text.bytes(),
        None => b"end".as_slice(),
    }
}
