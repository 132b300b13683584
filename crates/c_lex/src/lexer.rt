//! The lexer: it goes through a text piece by piece and gives its tokens, or the fault that it meets.
ghost use Rattle.std.specs.Prelude.{◌≡◌, ◌+◌, ◌<◌, ◌^◌, ◌++◌, ◌∷◌, [], length, OnOk};
ghost use Rattle.c_language.specs.TokenForms.{Tokens, of_kind};
ghost use Rattle.c_language.specs.Tokens.{AreTokensOf};
ghost use Rattle.c_language.specs.declared.token.Before.TheVariants.{Blank};
ghost use Rattle.c_lex.specs.Scanning as spec;
ghost use Rattle.c_lex.specs.Lexed.{IsLexed, Gives};
ghost use Rattle.c_lex.specs.Scanning.{Scans};

use crate::bytes::{behind, byte_at, front, has_feed, line_feeds};
use crate::fault::LexFault;
use crate::piece::{Piece, piece_of};
use c_language::{Before, Token, TokenKind};
use edge_io::Text;
use std::alloc::{AllocError, Global};

/// What stands before a place in its line, behind some white space or a comment.
fn after_space(some: &[u8], before: Before) -> Before
    ensures { result ≡ spec.after_space some.now before }
{
    if byte_at(some, 0) == b'\n' {
        return Before::Blank;
    }
    if has_feed(some) {
        Before::Comment
    } else {
        before
    }
}

fn push_token(
    alloc: Global,
    found: &mut Vec<Token>,
    kind: TokenKind,
    text: &[u8],
    line: u32,
) -> Result<(), AllocError>
    ensures { OnOk result (found.new.items ≡ found.old.items ++ of_kind kind text.now line ∷ []) }
{
    let text = Text::from_slice(alloc, text)?;
    found.push(Token { kind, text, line })?;
    Ok(())
}

fn scan(alloc: Global, text: &[u8]) -> Result<Vec<Token>, LexFault>
    requires { length text.now < 2 ^ 32 }
    ensures { Scans (spec.scan (length text.now) Blank 1 [] text.now) result }
{
    let mut found = Vec::new(alloc);
    let mut bytes = text;
    let mut before = Before::Blank;
    let mut feeds: u32 = 0;
    for _turn in 0..text.len() {
        if bytes.is_empty() {
            return Ok(found);
        }
        match piece_of(before, bytes) {
            Piece::Space(len) => {
                let some = front(bytes, len);
                before = after_space(some, before);
                feeds += line_feeds(some);
                bytes = behind(bytes, len);
            }
            Piece::Token {
                kind,
                len,
                text_at,
                text_len,
            } => {
                let text = front(behind(bytes, text_at), text_len);
                push_token(alloc, &mut found, kind, text, feeds + 1)?;
                before = Before::Token;
                bytes = behind(bytes, len);
            }
            Piece::SplitEnd(at) => {
                return Err(LexFault::BadByte(feeds + 1 + line_feeds(front(bytes, at))));
            }
            Piece::Open => return Err(LexFault::OpenComment(feeds + 1)),
            Piece::BadNumber => return Err(LexFault::BadNumber(feeds + 1)),
            Piece::BadByte => return Err(LexFault::BadByte(feeds + 1)),
        }
    }
    Ok(found)
}

/// The tokens of the text (ISO C99 6.4, 5.1.1.2), or a fault at its line, or `NoMemory`.
pub fn lex(alloc: Global, text: &[u8]) -> Result<Vec<Token>, LexFault>
    requires { length text.now < 2 ^ 32 }
    // The text has the tokens that are answered, or its bytes show the fault.
    ensures right { IsLexed text.now result }
    // Tokens that it has are answered, unless memory runs out.
    ensures found { (ts : Tokens) → AreTokensOf text.now ts → Gives ts result }
{
    scan(alloc, text)
}
