//! How long the longest punctuator at the front of some bytes is.
ghost use Rattle.std.specs.Prelude.{◌≡◌};
ghost use Rattle.c_lex.specs.Scanning as spec;

use crate::bytes::{byte_at, is_one_of};

fn is_single(a: u8) -> bool
    ensures { result ≡ spec.is_single a }
{
    is_one_of(b"()[]{};,:?.+-*/%&|^~!<>=".as_slice(), a)
}

/// Whether `a` and `b` make a punctuator of two bytes: one with `=`, one byte twice, or `->`.
fn is_pair(a: u8, b: u8) -> bool
    ensures { result ≡ spec.is_pair a b }
{
    (b == b'=' && is_one_of(b"<>=!+-*/%&|^".as_slice(), a))
        || (a == b && is_one_of(b"<>&|+-".as_slice(), a))
        || (a == b'-' && b == b'>')
}

/// Whether they are `<<=`, `>>=` or `...`.
fn is_triple(a: u8, b: u8, c: u8) -> bool
    ensures { result ≡ spec.is_triple a b c }
{
    (a == b && c == b'=' && is_one_of(b"<>".as_slice(), a)) || (a == b'.' && b == b'.' && c == b'.')
}

/// The length of the longest punctuator at the front, or 0 (ISO C99 6.4.6).
pub fn mark_len(bytes: &[u8]) -> usize
    ensures { result ≡ spec.mark_len bytes.now }
{
    let (a, b, c) = (byte_at(bytes, 0), byte_at(bytes, 1), byte_at(bytes, 2));
    if is_triple(a, b, c) {
        return 3;
    }
    if is_pair(a, b) {
        return 2;
    }
    if is_single(a) { 1 } else { 0 }
}
