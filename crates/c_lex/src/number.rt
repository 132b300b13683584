//! Which numbers are integer constants: their base, digits and suffix, and whether a type holds their value.
ghost use Rattle.std.specs.Prelude.{◌≡◌, ◌≤◌, ◌<◌, is_some, length};
ghost use Rattle.c_language.specs.Constants as constants;
ghost use Rattle.c_lex.specs.Numbers as spec;

use crate::bytes::{behind, byte_at, front, is_one_of};

const LONG_MOST: u128 = 9_223_372_036_854_775_807;

const ULONG_MOST: u128 = 18_446_744_073_709_551_615;

fn is_hexadecimal(text: &[u8]) -> bool
    ensures { result ≡ constants.is_hexadecimal text.now }
{
    byte_at(text, 0) == b'0' && is_one_of(b"xX".as_slice(), byte_at(text, 1))
}

/// The base of a constant (ISO C99 6.4.4.1).
fn base(text: &[u8]) -> u8
    ensures value { result ≡ constants.base text.now }
    ensures bound { result ≤ 16 }
{
    if is_hexadecimal(text) {
        return 16;
    }
    if byte_at(text, 0) == b'0' { 8 } else { 10 }
}

/// What a digit is worth, or 16 where the byte is none.
fn digit_value(byte: u8) -> u8
    ensures value { result ≡ constants.digit_value byte }
    ensures bound { result ≤ 16 }
{
    if b'0' <= byte && byte <= b'9' {
        return byte - b'0';
    }
    if b'A' <= byte && byte <= b'F' {
        return byte - b'A' + 10;
    }
    if b'a' <= byte && byte <= b'f' {
        return byte - b'a' + 10;
    }
    16
}

/// The spelling without `0x`.
fn unprefixed(text: &[u8]) -> &[u8]
    ensures { result.now ≡ constants.unprefixed text.now }
{
    if is_hexadecimal(text) {
        behind(text, 2)
    } else {
        text
    }
}

fn digits_len(base: u8, bytes: &[u8]) -> usize
    ensures value { result ≡ spec.digits_len base bytes.now }
    ensures within { result ≤ length bytes.now }
{
    for (i, byte) in bytes.iter().enumerate() {
        if digit_value(*byte) >= base {
            return i;
        }
    }
    bytes.len()
}

/// The value of the digits, or a value above every type's, where theirs is.
fn value_of(base: u8, digits: &[u8]) -> u128
    requires { base ≤ 16 }
    ensures { result ≡ spec.capped base 0 digits.now }
{
    let mut value: u128 = 0;
    for digit in digits.iter() {
        if value <= ULONG_MOST {
            value = value * u128::from(base) + u128::from(digit_value(*digit));
        }
    }
    value
}

fn is_u(byte: u8) -> bool
    ensures { result ≡ constants.is_u byte }
{
    is_one_of(b"uU".as_slice(), byte)
}

fn is_l(byte: u8) -> bool
    ensures { result ≡ constants.is_l byte }
{
    is_one_of(b"lL".as_slice(), byte)
}

/// The greatest value of a constant without `u`.
fn plain_most(is_decimal: bool) -> u128
    ensures { result ≡ spec.plain_most is_decimal }
{
    if is_decimal { LONG_MOST } else { ULONG_MOST }
}

/// The greatest value of a constant with this suffix, where it is one.
fn most(is_decimal: bool, suffix: &[u8]) -> Option<u128>
    ensures { result ≡ spec.most is_decimal suffix.now }
{
    let (a, b) = (byte_at(suffix, 0), byte_at(suffix, 1));
    match suffix.len() {
        0 => Some(plain_most(is_decimal)),
        1 if is_u(a) => Some(ULONG_MOST),
        1 if is_l(a) => Some(plain_most(is_decimal)),
        2 if (is_u(a) && is_l(b)) || (is_l(a) && is_u(b)) => Some(ULONG_MOST),
        _ => None,
    }
}

/// Whether a number is a constant, with a type that holds its value (ISO C99 6.4.4.1).
pub fn is_constant(text: &[u8]) -> bool
    ensures { result ≡ is_some (constants.constant_type text.now) }
{
    let base = base(text);
    let body = unprefixed(text);
    let len = digits_len(base, body);
    if len == 0 {
        return false;
    }
    match most(base == 10, behind(body, len)) {
        Some(most) => value_of(base, front(body, len)) <= most,
        None => false,
    }
}
