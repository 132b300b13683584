//! How long a string literal or a character constant at the front of some bytes is, with its escapes.
ghost use Rattle.std.specs.Prelude.{◌≡◌, ◌≤◌, ◌<◌, length, IfSome};
ghost use Rattle.c_language.specs.Constants as constants;
ghost use Rattle.c_language.specs.Tokens as tokens;
ghost use Rattle.c_lex.specs.Scanning as spec;
ghost use Rattle.c_lex.specs.declared.literal.Stage.TheVariants.{Inside};

use crate::bytes::{byte_at, is_digit, is_one_of};

/// How far a string literal was read (ISO C99 6.4.5).
#[derive(Clone, Copy, Debug, PartialEq, Eq)]
pub enum Stage {
    /// Behind the first quote, or a byte that stands for itself.
    Inside,
    /// Behind a backslash.
    Escape,
    /// Behind the escape `\0`.
    Null,
    /// Behind the last quote.
    Closed,
    /// Where it is no literal.
    Bad,
}

/// Whether a byte stands for itself between these quotes.
fn is_plain(quote: u8, byte: u8) -> bool
    ensures { result ≡ tokens.is_plain quote byte }
{
    (32 <= byte && byte <= 126) && !(byte == quote || byte == b'\\')
}

/// Whether a byte behind a backslash makes an escape (ISO C99 6.4.4.4).
fn is_escape(byte: u8) -> bool
    ensures { result ≡ constants.is_escape byte }
{
    is_one_of(b"ntrabfv0\\'\"?".as_slice(), byte)
}

fn inside_stage(byte: u8) -> Stage
    ensures { result ≡ spec.inside_stage byte }
{
    if byte == b'"' {
        return Stage::Closed;
    }
    if byte == b'\\' {
        return Stage::Escape;
    }
    if is_plain(b'"', byte) {
        Stage::Inside
    } else {
        Stage::Bad
    }
}

fn escaped_stage(byte: u8) -> Stage
    ensures { result ≡ spec.escaped_stage byte }
{
    if !is_escape(byte) {
        return Stage::Bad;
    }
    if byte == b'0' {
        Stage::Null
    } else {
        Stage::Inside
    }
}

/// The stage behind a byte.
fn stage_after(stage: Stage, byte: u8) -> Stage
    ensures { result ≡ spec.stage_after stage byte }
{
    match stage {
        Stage::Inside => inside_stage(byte),
        Stage::Escape => escaped_stage(byte),
        Stage::Null => {
            if is_digit(byte) {
                return Stage::Bad;
            }
            inside_stage(byte)
        }
        Stage::Closed | Stage::Bad => Stage::Bad,
    }
}

/// How many bytes there are to the end of the string literal, behind its first quote.
pub fn literal_len(bytes: &[u8]) -> Option<usize>
    ensures value { result ≡ spec.literal_len Inside bytes.now }
    ensures within { IfSome result (λ n. n ≤ length bytes.now) }
{
    let mut stage = Stage::Inside;
    for (i, byte) in bytes.iter().enumerate() {
        stage = stage_after(stage, *byte);
        match stage {
            Stage::Closed => return Some(i + 1),
            Stage::Bad => return None,
            _ => {}
        }
    }
    None
}

/// The length of the character constant at the front, or 0 (ISO C99 6.4.4.4).
pub fn character_len(bytes: &[u8]) -> usize
    ensures { result ≡ spec.character_len bytes.now }
{
    if is_plain(b'\'', byte_at(bytes, 1)) && byte_at(bytes, 2) == b'\'' {
        return 3;
    }
    if byte_at(bytes, 1) == b'\\' && is_escape(byte_at(bytes, 2)) && byte_at(bytes, 3) == b'\'' {
        return 4;
    }
    0
}
