//! What the spelling of a constant is worth (ISO C99 6.4.4).
ghost use Rattle.std.specs.Prelude.{Bool, false, [], ◌∷◌, ◌&&◌, ◌||◌, ◌≡◌, ◌≤◌, ◌^◌, pos, length, drop, slice_index, Option, IfSome, IfNone, option_and_then, option_map};
ghost use Rattle.c_arith.specs.IntType.{LiesIn};
ghost use Rattle.c_language.specs.Constants as spec;
ghost use Rattle.c_types_base.specs.Literals.{behind_backslash};
ghost use Rattle.c_language.specs.ConstantEvaluation.{literal_type, literal_value};

use c_arith::{IntType, lies_in};
use sqlite_items::at;

/// What a digit is worth, and 16 where the byte is none.
#[tactic(auto, unfolding(c_language::specs::Constants::digit_value))]
fn digit_value(b: u8) -> u8
    ensures value { result ≡ spec.digit_value b }
    ensures bound { result ≤ 16 }
{
    match b {
        b'0'..=b'9' => b - b'0',
        b'A'..=b'F' => b - b'A' + 10,
        b'a'..=b'f' => b - b'a' + 10,
        _ => 16,
    }
}

/// Whether a spelling begins with `0x` or `0X`.
fn is_hexadecimal(text: &[u8]) -> bool
    ensures { result ≡ spec.is_hexadecimal text.now }
{
    match text {
        [b'0', b'x' | b'X', ..] => true,
        _ => false,
    }
}

/// 16, 8 or 10.
fn base(text: &[u8]) -> u8
    ensures value { result ≡ spec.base text.now }
    ensures bound { (1 ≤ result) × (result ≤ 16) }
{
    if is_hexadecimal(text) {
        return 16;
    }
    match text {
        [b'0', ..] => 8,
        _ => 10,
    }
}

/// The spelling without `0x`.
fn unprefixed(text: &[u8]) -> &[u8]
    ensures { result.now ≡ spec.unprefixed text.now }
{
    if is_hexadecimal(text) {
        &text[2..]
    } else {
        text
    }
}

/// The digits of a base at the front.
fn leading_digits(n: u8, bytes: &[u8]) -> &[u8]
    ensures { result.now ≡ spec.leading_digits n bytes.now }
{
    for (i, b) in bytes.iter().enumerate() {
        if digit_value(*b) >= n {
            return &bytes[..i];
        }
    }
    bytes
}

/// The value of digits, where it has 64 bits.
fn value_of(n: u8, digits: &[u8]) -> Option<u64>
    requires { 1 ≤ n }
    ensures value { IfSome result (λ v. v ≡ spec.value_from n 0 digits.now) }
    ensures too_large { IfNone result (2 ^ 64 ≤ spec.value_from n 0 digits.now) }
{
    let mut value: u64 = 0;
    for d in digits {
        value = value
            .checked_mul(u64::from(n))?
            .checked_add(u64::from(digit_value(*d)))?;
    }
    Some(value)
}

/// Whether the byte is `u` or `U`.
fn is_u(b: u8) -> bool
    ensures { result ≡ spec.is_u b }
{
    b == b'u' || b == b'U'
}

/// Whether the byte is `l` or `L`.
fn is_l(b: u8) -> bool
    ensures { result ≡ spec.is_l b }
{
    b == b'l' || b == b'L'
}

/// Whether the bytes are `ul` or `lu`, in either case of letters.
fn is_both(a: u8, b: u8) -> bool
    ensures { result ≡ ((spec.is_u a && spec.is_l b) || (spec.is_l a && spec.is_u b)) }
{
    (is_u(a) && is_l(b)) || (is_l(a) && is_u(b))
}

/// The first type that holds the value of a constant without suffix.
fn plain_type(is_decimal: bool, value: u64) -> Option<IntType>
    ensures value { result ≡ spec.first_type is_decimal value spec.Suffix.plain }
    ensures in_type { IfSome result (λ t. LiesIn t (pos value)) }
{
    if lies_in(IntType::Int, i128::from(value)) {
        Some(IntType::Int)
    } else if !is_decimal && lies_in(IntType::UInt, i128::from(value)) {
        Some(IntType::UInt)
    } else if lies_in(IntType::Long, i128::from(value)) {
        Some(IntType::Long)
    } else if !is_decimal && lies_in(IntType::ULong, i128::from(value)) {
        Some(IntType::ULong)
    } else {
        None
    }
}

/// The same with the suffix `u`.
fn unsigned_type(value: u64) -> Option<IntType>
    ensures value { (is_decimal : Bool) → result ≡ spec.first_type is_decimal value spec.Suffix.unsigned }
    ensures in_type { IfSome result (λ t. LiesIn t (pos value)) }
{
    if lies_in(IntType::UInt, i128::from(value)) {
        Some(IntType::UInt)
    } else if lies_in(IntType::ULong, i128::from(value)) {
        Some(IntType::ULong)
    } else {
        None
    }
}

/// The same with the suffix `l`.
fn long_type(is_decimal: bool, value: u64) -> Option<IntType>
    ensures value { result ≡ spec.first_type is_decimal value spec.Suffix.long }
    ensures in_type { IfSome result (λ t. LiesIn t (pos value)) }
{
    if lies_in(IntType::Long, i128::from(value)) {
        Some(IntType::Long)
    } else if !is_decimal && lies_in(IntType::ULong, i128::from(value)) {
        Some(IntType::ULong)
    } else {
        None
    }
}

/// The same with the suffix `ul` or `lu`.
fn unsigned_long_type(value: u64) -> Option<IntType>
    ensures value { (is_decimal : Bool) → result ≡ spec.first_type is_decimal value spec.Suffix.unsigned_long }
    ensures in_type { IfSome result (λ t. LiesIn t (pos value)) }
{
    if lies_in(IntType::ULong, i128::from(value)) {
        Some(IntType::ULong)
    } else {
        None
    }
}

/// The first type that holds the value of a constant with this byte as its suffix.
fn with_one(is_decimal: bool, value: u64, a: u8) -> Option<IntType>
    ensures value { result ≡ option_and_then (spec.first_type is_decimal value) (spec.suffix_of (a ∷ [])) }
    ensures in_type { IfSome result (λ t. LiesIn t (pos value)) }
{
    if is_u(a) {
        unsigned_type(value)
    } else if is_l(a) {
        long_type(is_decimal, value)
    } else {
        None
    }
}

/// The same with two bytes.
fn with_two(is_decimal: bool, value: u64, a: u8, b: u8) -> Option<IntType>
    ensures value { result ≡ option_and_then (spec.first_type is_decimal value) (spec.suffix_of (a ∷ (b ∷ []))) }
    ensures in_type { IfSome result (λ t. LiesIn t (pos value)) }
{
    if is_both(a, b) {
        unsigned_long_type(value)
    } else {
        None
    }
}

/// The first type that holds the value of a constant with these bytes as its suffix.
fn first_type(is_decimal: bool, value: u64, suffix: &[u8]) -> Option<IntType>
    ensures value { result ≡ option_and_then (spec.first_type is_decimal value) (spec.suffix_of suffix.now) }
    ensures in_type { IfSome result (λ t. LiesIn t (pos value)) }
{
    match suffix {
        [] => plain_type(is_decimal, value),
        [a] => with_one(is_decimal, value, *a),
        [a, b] => with_two(is_decimal, value, *a, *b),
        _ => None,
    }
}

/// What a byte behind a backslash stands for (6.4.4.4), and 0 where it makes no escape.
pub fn escape_value(b: u8) -> u8
    ensures { result ≡ spec.escape_value b }
{
    match b {
        b'n' => 10,
        b't' => 9,
        b'r' => 13,
        b'a' => 7,
        b'b' => 8,
        b'f' => 12,
        b'v' => 11,
        b'\\' => 92,
        b'\'' => 39,
        b'"' => 34,
        b'?' => 63,
        _ => 0,
    }
}

/// What stands behind a backslash, as an escape, and 0 where nothing does.
fn behind_backslash(next: Option<u8>) -> u8
    ensures { result ≡ behind_backslash next }
{
    match next {
        None => 0,
        Some(b) => escape_value(b),
    }
}

/// The first byte that a spelling without its quotes stands for, and 0 where there is none.
#[tactic(auto, using(crate::proofs::LiteralLemmas::first_byte_is))]
fn first_byte(inside: &[u8]) -> u8
    ensures { result ≡ slice_index (spec.unescaped false inside.now) 0 }
{
    match inside.first() {
        None => 0,
        Some(b'\\') => behind_backslash(at(inside, 1).copied()),
        Some(b) => *b,
    }
}

/// The value of a character constant, whose type is int (6.4.4.4).
fn character_value(text: &[u8]) -> u8
    ensures { result ≡ spec.character_value text.now }
{
    if text.len() < 2 {
        return 0;
    }
    first_byte(&text[1..text.len() - 1])
}

/// The digits of an integer constant.
fn digits(text: &[u8]) -> &[u8]
    ensures { result.now ≡ spec.digits text.now }
{
    leading_digits(base(text), unprefixed(text))
}

/// What follows the digits of an integer constant.
fn suffix(text: &[u8]) -> &[u8]
    ensures { result.now ≡ drop (length (spec.digits text.now)) (spec.unprefixed text.now) }
{
    let unprefixed = unprefixed(text);
    let count = leading_digits(base(text), unprefixed).len();
    &unprefixed[count..]
}

/// The value of an integer constant, where it has 64 bits.
#[tactic(auto, unfolding(c_language::specs::Constants::constant_value))]
fn integer_value(text: &[u8]) -> Option<u64>
    ensures value { IfSome result (λ v. v ≡ spec.constant_value text.now) }
    ensures too_large { IfNone result (2 ^ 64 ≤ spec.constant_value text.now) }
{
    value_of(base(text), digits(text))
}

/// The type of an integer constant, where its spelling is one and this its value (6.4.4.1).
#[tactic(auto, unfolding(c_language::specs::Constants::constant_type))]
fn integer_type(text: &[u8], value: u64) -> Option<IntType>
    requires { value ≡ spec.constant_value text.now }
    ensures value { result ≡ spec.constant_type text.now }
    ensures in_type { IfSome result (λ t. LiesIn t (pos value)) }
{
    if digits(text).is_empty() {
        None
    } else {
        first_type(base(text) == 10, value, suffix(text))
    }
}

/// The type and the value of an integer constant, where its spelling is one.
fn integer_literal(text: &[u8]) -> Option<(IntType, u64)>
    ensures kind { option_map (λ r. r.0) result ≡ spec.constant_type text.now }
    ensures value { IfSome result (λ r. r.1 ≡ spec.constant_value text.now) }
    ensures in_type { IfSome result (λ r. LiesIn r.0 (pos r.1)) }
{
    let value = integer_value(text)?;
    let t = integer_type(text, value)?;
    Some((t, value))
}

/// The type and the value of a constant. What is no constant, which no token is, counts as 0.
pub fn literal(text: &[u8]) -> (IntType, u64)
    ensures kind { result.0 ≡ literal_type text.now }
    ensures value { result.1 ≡ literal_value text.now }
    ensures in_type { LiesIn result.0 (pos result.1) }
{
    if text.first() == Some(&b'\'') {
        return (IntType::Int, u64::from(character_value(text)));
    }
    match integer_literal(text) {
        Some(found) => found,
        None => (IntType::Int, 0),
    }
}
