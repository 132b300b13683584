//! How long a name or a number at the front of some bytes is.
ghost use Rattle.std.specs.Prelude.{◌≡◌, ◌≤◌, length};
ghost use Rattle.c_language.specs.Tokens as tokens;
ghost use Rattle.c_lex.specs.Scanning as spec;

use crate::bytes::{is_one_of, is_word_byte};

/// The length of the name at the front (ISO C99 6.4.2).
pub fn name_len(bytes: &[u8]) -> usize
    ensures value { result ≡ spec.run_len tokens.name_goes_on 0 bytes.now }
    ensures within { result ≤ length bytes.now }
{
    for (i, byte) in bytes.iter().enumerate() {
        if !is_word_byte(*byte) {
            return i;
        }
    }
    bytes.len()
}

/// Whether a number goes on with a byte, behind another one (ISO C99 6.4.8).
fn number_goes_on(before: u8, byte: u8) -> bool
    ensures { result ≡ tokens.number_goes_on before byte }
{
    is_word_byte(byte)
        || byte == b'.'
        || (is_one_of(b"+-".as_slice(), byte) && is_one_of(b"eEpP".as_slice(), before))
}

/// The length of the number at the front, whether or not it is a constant.
pub fn number_len(bytes: &[u8]) -> usize
    ensures value { result ≡ spec.run_len tokens.number_goes_on 0 bytes.now }
    ensures within { result ≤ length bytes.now }
{
    let mut before = 0;
    for (i, byte) in bytes.iter().enumerate() {
        if !number_goes_on(before, *byte) {
            return i;
        }
        before = *byte;
    }
    bytes.len()
}
