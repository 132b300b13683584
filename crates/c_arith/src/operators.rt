//! The operators on integers.
ghost use Rattle.std.specs.Prelude.{◌≡◌, ◌<◌, ◌^◌, ◌*ℤ◌, IfSome};
ghost use Rattle.c_arith.specs.IntType.{width, LiesIn};
ghost use Rattle.c_arith.specs.Operators.{representable, arithmetic, quotient, shift_amount, bits_of, value_of, truth, unary, unary_type, binary, binary_type, IsRightOperand};

use crate::int_type::{IntType, convert, is_signed, lies_in, modulus, width};

/// A unary operator (ISO C99 6.5.3.3).
#[derive(Clone, Copy, Debug, PartialEq, Eq)]
pub enum UnaryOp {
    /// `+`
    Plus,
    /// `-`
    Minus,
    /// `~`
    Flip,
    /// `!`
    Not,
}

/// A binary operator (ISO C99 6.5.5 to 6.5.12).
#[derive(Clone, Copy, Debug, PartialEq, Eq)]
pub enum BinaryOp {
    /// `*`
    Mul,
    /// `/`
    Div,
    /// `%`
    Rem,
    /// `+`
    Add,
    /// `-`
    Sub,
    /// `<<`
    Shl,
    /// `>>`
    Shr,
    /// `<`
    Less,
    /// `>`
    Greater,
    /// `<=`
    AtMost,
    /// `>=`
    AtLeast,
    /// `==`
    Equal,
    /// `!=`
    Unequal,
    /// `&`
    And,
    /// `^`
    Xor,
    /// `|`
    Or,
}

/// The number, or none where the type has no such value.
fn representable(t: IntType, v: i128) -> Option<i128>
    ensures value { result ≡ representable t v }
    ensures in_type { IfSome result (LiesIn t) }
{
    if lies_in(t, v) { Some(v) } else { None }
}

/// What an operator gives whose exact value is `v` (ISO C99 6.2.5 and 6.5): an unsigned result
/// wraps, and a signed one out of range is undefined.
fn arithmetic(t: IntType, v: i128) -> Option<i128>
    ensures value { result ≡ arithmetic t v }
    ensures in_type { IfSome result (LiesIn t) }
{
    if is_signed(t) {
        representable(t, v)
    } else {
        Some(convert(v, t))
    }
}

/// `a * b` (ISO C99 6.5.5). The product of two values of `unsigned long` may pass an `i128`; what
/// it then loses is a multiple of 2 to the 128, and so of the type's modulus.
fn product(t: IntType, a: i128, b: i128) -> Option<i128>
    requires left { LiesIn t a }
    requires right { LiesIn t b }
    ensures value { result ≡ arithmetic t (a *ℤ b) }
    ensures in_type { IfSome result (LiesIn t) }
{
    arithmetic(t, a.wrapping_mul(b))
}

/// `a / b` (ISO C99 6.5.5), truncated toward zero.
fn quotient(t: IntType, a: i128, b: i128) -> Option<i128>
    requires { LiesIn t a }
    ensures value { result ≡ quotient t a b }
    ensures in_type { IfSome result (LiesIn t) }
{
    if b == 0 {
        None
    } else {
        representable(t, a / b)
    }
}

/// `a % b` (ISO C99 6.5.5): undefined where `a / b` is.
#[tactic(auto, unfolding(crate::specs::Operators::binary))]
fn remainder(t: IntType, a: i128, b: i128) -> Option<i128>
    requires { LiesIn t a }
    ensures value { result ≡ binary BinaryOp.Rem t a b }
    ensures in_type { IfSome result (LiesIn t) }
{
    let _quotient = quotient(t, a, b)?;
    Some(a % b)
}

/// How far a shift by `b` moves (ISO C99 6.5.7): none for a negative amount, and for one of the
/// width or more.
fn shift_amount(t: IntType, b: i128) -> Option<u32>
    ensures { result ≡ shift_amount t b }
{
    if 0 <= b && b < i128::from(width(t)) {
        Some(b as u32)
    } else {
        None
    }
}

/// `a << b` (ISO C99 6.5.7): undefined for a negative value.
#[tactic(auto, unfolding(crate::specs::Operators::binary))]
fn shifted_left(t: IntType, a: i128, b: i128) -> Option<i128>
    requires { LiesIn t a }
    ensures value { result ≡ binary BinaryOp.Shl t a b }
    ensures in_type { IfSome result (LiesIn t) }
{
    let amount = shift_amount(t, b)?;
    if a < 0 {
        None
    } else {
        arithmetic(t, a << amount)
    }
}

/// `a >> b` (ISO C99 6.5.7), rounded toward minus infinity.
#[tactic(auto, unfolding(crate::specs::Operators::binary))]
fn shifted_right(t: IntType, a: i128, b: i128) -> Option<i128>
    requires { LiesIn t a }
    ensures value { result ≡ binary BinaryOp.Shr t a b }
    ensures in_type { IfSome result (LiesIn t) }
{
    let amount = shift_amount(t, b)?;
    Some(a >> amount)
}

/// The bits of a value of the type in two's complement, as a natural number (ISO C99 6.2.6.2).
fn bits_of(t: IntType, v: i128) -> u64
    requires { LiesIn t v }
    ensures value { result ≡ bits_of t v }
    ensures in_width { result < 2 ^ width t }
{
    if v < 0 {
        (v + modulus(t)) as u64
    } else {
        v as u64
    }
}

/// The value of the type that has these bits.
fn value_of(t: IntType, bits: u64) -> i128
    ensures value { result ≡ value_of t bits }
    ensures in_type { LiesIn t result }
{
    convert(i128::from(bits), t)
}

/// What a comparison or `!` gives (ISO C99 6.5.3.3, 6.5.8 and 6.5.9): 1 where it holds, and else 0.
fn truth(holds: bool) -> i128
    ensures { result ≡ truth holds }
{
    if holds { 1 } else { 0 }
}

/// What a unary operator gives at a value of the type, which is that of the converted operand
/// (ISO C99 6.5.3.3). None where the act is undefined.
#[tactic(auto, unfolding(crate::specs::Operators::unary))]
pub fn unary(op: UnaryOp, t: IntType, v: i128) -> Option<i128>
    requires { LiesIn t v }
    ensures value { result ≡ unary op t v }
    ensures in_type { IfSome result (LiesIn (unary_type op t)) }
{
    match op {
        UnaryOp::Plus => Some(v),
        UnaryOp::Minus => arithmetic(t, -v),
        UnaryOp::Flip => {
            let ones = (modulus(t) - 1) as u64;
            Some(value_of(t, ones - bits_of(t, v)))
        }
        UnaryOp::Not => Some(truth(v == 0)),
    }
}

/// What a binary operator gives at two values of the type, which is that of the converted operands,
/// or of the promoted left operand of a shift (ISO C99 6.5.5 to 6.5.12). A shift's right operand may
/// be a value of any type. None where the act is undefined.
#[tactic(auto, unfolding(crate::specs::Operators::binary))]
pub fn binary(op: BinaryOp, t: IntType, a: i128, b: i128) -> Option<i128>
    requires left { LiesIn t a }
    requires right { IsRightOperand op t b }
    ensures value { result ≡ binary op t a b }
    ensures in_type { IfSome result (LiesIn (binary_type op t)) }
{
    match op {
        BinaryOp::Mul => product(t, a, b),
        BinaryOp::Div => quotient(t, a, b),
        BinaryOp::Rem => remainder(t, a, b),
        BinaryOp::Add => arithmetic(t, a + b),
        BinaryOp::Sub => arithmetic(t, a - b),
        BinaryOp::Shl => shifted_left(t, a, b),
        BinaryOp::Shr => shifted_right(t, a, b),
        BinaryOp::Less => Some(truth(a < b)),
        BinaryOp::Greater => Some(truth(a > b)),
        BinaryOp::AtMost => Some(truth(a <= b)),
        BinaryOp::AtLeast => Some(truth(a >= b)),
        BinaryOp::Equal => Some(truth(a == b)),
        BinaryOp::Unequal => Some(truth(a != b)),
        BinaryOp::And => Some(value_of(t, bits_of(t, a) & bits_of(t, b))),
        BinaryOp::Xor => Some(value_of(t, bits_of(t, a) ^ bits_of(t, b))),
        BinaryOp::Or => Some(value_of(t, bits_of(t, a) | bits_of(t, b))),
    }
}
