//! The kinds of bytes that the lexer tells apart, and the steps by which it goes through a text's bytes.
ghost use Rattle.std.specs.Prelude.{◌≡◌, ◌≤◌, ◌<◌, ◌^◌, length, take, drop, slice_index};
ghost use Rattle.c_language.specs.Characters as form;
ghost use Rattle.c_language.specs.Constants as constants;
ghost use Rattle.c_language.specs.Tokens as tokens;
ghost use Rattle.c_lex.specs.Scanning as spec;

/// White space (ISO C99 6.4).
pub fn is_blank(byte: u8) -> bool
    ensures { result ≡ tokens.is_blank byte }
{
    (9 <= byte && byte <= 13) || byte == b' '
}

/// A decimal digit.
pub fn is_digit(byte: u8) -> bool
    ensures { result ≡ form.is_digit byte }
{
    b'0' <= byte && byte <= b'9'
}

/// A letter or `_`.
pub fn is_letter(byte: u8) -> bool
    ensures { result ≡ form.is_letter byte }
{
    (b'a' <= byte && byte <= b'z') || (b'A' <= byte && byte <= b'Z') || byte == b'_'
}

/// A byte that a name goes on with: a letter, `_` or a digit.
pub fn is_word_byte(byte: u8) -> bool
    ensures { result ≡ form.is_word_byte byte }
{
    is_letter(byte) || is_digit(byte)
}

/// Whether the byte is one of these.
pub fn is_one_of(some: &[u8], byte: u8) -> bool
    ensures { result ≡ constants.is_one_of some.now byte }
{
    some.contains(&byte)
}

/// The byte at a place, and 0 past the end.
pub fn byte_at(bytes: &[u8], at: usize) -> u8
    ensures { result ≡ slice_index bytes.now at }
{
    if at < bytes.len() { bytes[at] } else { 0 }
}

/// The bytes from a place on.
pub fn behind(bytes: &[u8], at: usize) -> &[u8]
    requires { at ≤ length bytes.now }
    ensures { result.now ≡ drop at bytes.now }
{
    &bytes[at..]
}

/// The bytes before a place.
pub fn front(bytes: &[u8], len: usize) -> &[u8]
    requires { len ≤ length bytes.now }
    ensures value { result.now ≡ take len bytes.now }
    ensures len { length result.now ≡ len }
{
    &bytes[..len]
}

/// How many line feeds stand in the bytes.
pub fn line_feeds(bytes: &[u8]) -> u32
    requires { length bytes.now < 2 ^ 32 }
    ensures value { result ≡ tokens.line_feeds bytes.now }
    ensures bound { result ≤ length bytes.now }
{
    bytes.iter().filter(|byte| **byte == 10).count() as u32
}

/// Whether a line feed stands in the bytes.
pub fn has_feed(bytes: &[u8]) -> bool
    ensures { result ≡ tokens.has_feed bytes.now }
{
    bytes.contains(&b'\n')
}

/// How many bytes stand before the end of the line.
pub fn line_len(bytes: &[u8]) -> usize
    ensures value { result ≡ spec.line_len bytes.now }
    ensures within { result ≤ length bytes.now }
{
    for (i, byte) in bytes.iter().enumerate() {
        if *byte == b'\n' {
            return i;
        }
    }
    bytes.len()
}
