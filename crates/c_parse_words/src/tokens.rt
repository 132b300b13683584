//! Tests of one token.
ghost use Rattle.std.specs.Prelude.{◌≡◌};
ghost use Rattle.c_language.specs.Sees as language;

use c_language::{Token, TokenKind};

/// Whether a token is of this kind and has this text.
pub fn is_token(token: &Token, kind: TokenKind, text: &[u8]) -> bool
    ensures { result ≡ language.is_token kind text.now token.now }
{
    token.kind == kind && token.text.bytes() == text
}
