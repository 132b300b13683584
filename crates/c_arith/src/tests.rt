//! Rows worked out from C99, each operator at the edges of each width.
ghost use Rattle.std.specs.Prelude.{IsTrue};
ghost use Rattle.c_arith.specs.Operators.{IsRightOperand};

use crate::{
    BinaryOp, IntType, UnaryOp, binary, common, convert, greatest, least, lies_in, promote, unary,
};
use std::process::Abort;

/// Whether the number may stand on the right of the operator.
fn is_right_operand(op: BinaryOp, t: IntType, b: i128) -> bool
    ensures { IsTrue result → IsRightOperand op t b }
{
    match op {
        BinaryOp::Shl | BinaryOp::Shr => {
            least(IntType::Long) <= b && b <= greatest(IntType::ULong)
        }
        _ => lies_in(t, b),
    }
}

/// A row: the operator at the type, its operands, and what it must give.
type BinaryRow = (BinaryOp, IntType, i128, i128, Option<i128>);

fn gives(rt: &impl Abort, row: BinaryRow) {
    let (op, t, a, b, expected) = row;
    assert!(rt; lies_in(t, a));
    assert!(rt; is_right_operand(op, t, b));
    assert_eq!(rt; binary(op, t, a, b), expected, "{op:?} {t:?} {a}, {b}");
}

#[test]
fn types_have_their_edges(rt: HostRuntime) {
    for (t, low, high) in [
        (IntType::Char, -128, 127),
        (IntType::UChar, 0, 255),
        (IntType::Short, -32768, 32767),
        (IntType::UShort, 0, 65535),
        (IntType::Int, -2147483648, 2147483647),
        (IntType::UInt, 0, 4294967295),
        (IntType::Long, -9223372036854775808, 9223372036854775807),
        (IntType::ULong, 0, 18446744073709551615),
    ] {
        assert_eq!(rt; least(t), low, "{t:?}");
        assert_eq!(rt; greatest(t), high, "{t:?}");
    }
}

#[test]
fn common_types(rt: HostRuntime) {
    for (a, b, expected) in [
        (IntType::Char, IntType::UChar, IntType::Int),
        (IntType::UShort, IntType::Short, IntType::Int),
        (IntType::UShort, IntType::UInt, IntType::UInt),
        (IntType::Int, IntType::UInt, IntType::UInt),
        (IntType::UInt, IntType::Int, IntType::UInt),
        (IntType::Long, IntType::UInt, IntType::Long),
        (IntType::UInt, IntType::Long, IntType::Long),
        (IntType::Long, IntType::ULong, IntType::ULong),
        (IntType::ULong, IntType::Char, IntType::ULong),
        (IntType::Int, IntType::Int, IntType::Int),
    ] {
        assert_eq!(rt; common(a, b), expected, "{a:?}, {b:?}");
    }
    assert_eq!(rt; promote(IntType::UShort), IntType::Int);
    assert_eq!(rt; promote(IntType::UInt), IntType::UInt);
}

#[test]
fn conversions(rt: HostRuntime) {
    for (v, to, expected) in [
        (200, IntType::Char, -56),
        (128, IntType::Char, -128),
        (-129, IntType::Char, 127),
        (-1, IntType::UChar, 255),
        (256, IntType::UChar, 0),
        (32768, IntType::Short, -32768),
        (-32769, IntType::Short, 32767),
        (-1, IntType::UShort, 65535),
        (2147483648, IntType::Int, -2147483648),
        (6442450944, IntType::Int, -2147483648),
        (-2147483649, IntType::Int, 2147483647),
        (4294967296, IntType::UInt, 0),
        (9223372036854775808, IntType::Long, -9223372036854775808),
        (-1, IntType::ULong, 18446744073709551615),
        (-9223372036854775808, IntType::ULong, 9223372036854775808),
        (42, IntType::Char, 42),
    ] {
        assert_eq!(rt; convert(v, to), expected, "{v} to {to:?}");
    }
}

#[test]
fn unary_operators(rt: HostRuntime) {
    for (op, t, v, expected) in [
        (UnaryOp::Plus, IntType::Int, -5, Some(-5)),
        (UnaryOp::Minus, IntType::Int, -2147483647, Some(2147483647)),
        (UnaryOp::Minus, IntType::Int, -2147483648, None),
        (UnaryOp::Minus, IntType::Long, -9223372036854775808, None),
        (UnaryOp::Minus, IntType::UInt, 1, Some(4294967295)),
        (UnaryOp::Minus, IntType::UInt, 0, Some(0)),
        (
            UnaryOp::Minus,
            IntType::ULong,
            9223372036854775808,
            Some(9223372036854775808),
        ),
        (UnaryOp::Flip, IntType::Int, 0, Some(-1)),
        (UnaryOp::Flip, IntType::Int, 2147483647, Some(-2147483648)),
        (UnaryOp::Flip, IntType::UInt, 0, Some(4294967295)),
        (
            UnaryOp::Flip,
            IntType::Long,
            -9223372036854775808,
            Some(9223372036854775807),
        ),
        (UnaryOp::Flip, IntType::ULong, 1, Some(18446744073709551614)),
        (UnaryOp::Not, IntType::ULong, 0, Some(1)),
        (UnaryOp::Not, IntType::Int, -1, Some(0)),
    ] {
        assert!(rt; lies_in(t, v));
        assert_eq!(rt; unary(op, t, v), expected, "{op:?} {t:?} {v}");
    }
}

#[test]
fn sums(rt: HostRuntime) {
    for row in [
        (BinaryOp::Add, IntType::Char, 127, 1, None),
        (BinaryOp::Add, IntType::UShort, 65535, 1, Some(0)),
        (BinaryOp::Add, IntType::Int, 2147483647, 1, None),
        (
            BinaryOp::Add,
            IntType::Int,
            2147483647,
            -1,
            Some(2147483646),
        ),
        (BinaryOp::Add, IntType::UInt, 4294967295, 1, Some(0)),
        (BinaryOp::Add, IntType::Long, -9223372036854775808, -1, None),
        (
            BinaryOp::Add,
            IntType::ULong,
            9223372036854775808,
            9223372036854775808,
            Some(0),
        ),
    ] {
        gives(&rt, row);
    }
}

#[test]
fn differences(rt: HostRuntime) {
    for row in [
        (BinaryOp::Sub, IntType::UChar, 0, 1, Some(255)),
        (BinaryOp::Sub, IntType::Int, -2147483648, 1, None),
        (BinaryOp::Sub, IntType::UInt, 0, 1, Some(4294967295)),
        (BinaryOp::Sub, IntType::Long, 9223372036854775807, -1, None),
        (
            BinaryOp::Sub,
            IntType::ULong,
            0,
            1,
            Some(18446744073709551615),
        ),
    ] {
        gives(&rt, row);
    }
}

#[test]
fn products(rt: HostRuntime) {
    for row in [
        (BinaryOp::Mul, IntType::Short, -32768, -1, None),
        (BinaryOp::Mul, IntType::Int, 46340, 46340, Some(2147395600)),
        (BinaryOp::Mul, IntType::Int, 46341, 46341, None),
        (
            BinaryOp::Mul,
            IntType::Int,
            -46341,
            46340,
            Some(-2147441940),
        ),
        (
            BinaryOp::Mul,
            IntType::UInt,
            4294967295,
            4294967295,
            Some(1),
        ),
        (
            BinaryOp::Mul,
            IntType::Long,
            3037000499,
            3037000499,
            Some(9223372030926249001),
        ),
        (BinaryOp::Mul, IntType::Long, -9223372036854775808, -1, None),
        (
            BinaryOp::Mul,
            IntType::ULong,
            18446744073709551615,
            18446744073709551615,
            Some(1),
        ),
    ] {
        gives(&rt, row);
    }
}

#[test]
fn quotients(rt: HostRuntime) {
    for row in [
        (BinaryOp::Div, IntType::Int, -7, 2, Some(-3)),
        (BinaryOp::Div, IntType::Int, 7, -2, Some(-3)),
        (BinaryOp::Div, IntType::Int, -2147483648, -1, None),
        (BinaryOp::Div, IntType::Int, 1, 0, None),
        (
            BinaryOp::Div,
            IntType::UInt,
            4294967295,
            2,
            Some(2147483647),
        ),
        (BinaryOp::Div, IntType::Char, -128, -1, None),
        (BinaryOp::Div, IntType::Long, -9223372036854775808, -1, None),
        (
            BinaryOp::Div,
            IntType::ULong,
            18446744073709551615,
            3,
            Some(6148914691236517205),
        ),
    ] {
        gives(&rt, row);
    }
}

#[test]
fn remainders(rt: HostRuntime) {
    for row in [
        (BinaryOp::Rem, IntType::Int, -7, 2, Some(-1)),
        (BinaryOp::Rem, IntType::Int, 7, -2, Some(1)),
        (BinaryOp::Rem, IntType::Int, -2147483648, -1, None),
        (BinaryOp::Rem, IntType::Int, 1, 0, None),
        (BinaryOp::Rem, IntType::UInt, 4294967295, 0, None),
        (BinaryOp::Rem, IntType::UInt, 4294967295, 10, Some(5)),
        (BinaryOp::Rem, IntType::Long, -9223372036854775808, -1, None),
        (
            BinaryOp::Rem,
            IntType::Long,
            -9223372036854775808,
            10,
            Some(-8),
        ),
        (
            BinaryOp::Rem,
            IntType::ULong,
            18446744073709551615,
            10,
            Some(5),
        ),
    ] {
        gives(&rt, row);
    }
}

#[test]
fn shifts_to_the_left(rt: HostRuntime) {
    for row in [
        (BinaryOp::Shl, IntType::Int, 1, 32, None),
        (BinaryOp::Shl, IntType::Int, 1, 31, None),
        (BinaryOp::Shl, IntType::Int, 1, 30, Some(1073741824)),
        (BinaryOp::Shl, IntType::Int, -1, 0, None),
        (BinaryOp::Shl, IntType::Int, 1, -1, None),
        (BinaryOp::Shl, IntType::UInt, 1, 31, Some(2147483648)),
        (BinaryOp::Shl, IntType::UInt, 3, 31, Some(2147483648)),
        (BinaryOp::Shl, IntType::UInt, 1, 32, None),
        (
            BinaryOp::Shl,
            IntType::Long,
            1,
            62,
            Some(4611686018427387904),
        ),
        (BinaryOp::Shl, IntType::Long, 1, 63, None),
        (
            BinaryOp::Shl,
            IntType::ULong,
            18446744073709551615,
            63,
            Some(9223372036854775808),
        ),
        (BinaryOp::Shl, IntType::ULong, 1, 64, None),
        (BinaryOp::Shl, IntType::Int, 1, 18446744073709551615, None),
    ] {
        gives(&rt, row);
    }
}

#[test]
fn shifts_to_the_right(rt: HostRuntime) {
    for row in [
        (BinaryOp::Shr, IntType::Int, -5, 1, Some(-3)),
        (BinaryOp::Shr, IntType::Int, -2147483648, 31, Some(-1)),
        (BinaryOp::Shr, IntType::Int, 5, 32, None),
        (BinaryOp::Shr, IntType::UInt, 4294967295, 31, Some(1)),
        (
            BinaryOp::Shr,
            IntType::Long,
            -9223372036854775808,
            63,
            Some(-1),
        ),
        (
            BinaryOp::Shr,
            IntType::ULong,
            18446744073709551615,
            63,
            Some(1),
        ),
        (BinaryOp::Shr, IntType::ULong, 1, -1, None),
    ] {
        gives(&rt, row);
    }
}

#[test]
fn comparisons_of_order(rt: HostRuntime) {
    for row in [
        (BinaryOp::Less, IntType::Int, -1, 1, Some(1)),
        (BinaryOp::Less, IntType::UInt, 4294967295, 1, Some(0)),
        (
            BinaryOp::Less,
            IntType::ULong,
            9223372036854775808,
            0,
            Some(0),
        ),
        (
            BinaryOp::Greater,
            IntType::ULong,
            18446744073709551615,
            9223372036854775807,
            Some(1),
        ),
        (
            BinaryOp::Greater,
            IntType::Int,
            2147483647,
            -2147483648,
            Some(1),
        ),
        (BinaryOp::Greater, IntType::Int, 3, 3, Some(0)),
        (
            BinaryOp::AtMost,
            IntType::Long,
            -9223372036854775808,
            -9223372036854775808,
            Some(1),
        ),
        (BinaryOp::AtMost, IntType::UInt, 1, 0, Some(0)),
        (BinaryOp::AtLeast, IntType::Int, 0, 0, Some(1)),
        (BinaryOp::AtLeast, IntType::Int, -1, 0, Some(0)),
    ] {
        gives(&rt, row);
    }
}

#[test]
fn comparisons_for_equality(rt: HostRuntime) {
    for row in [
        (
            BinaryOp::Equal,
            IntType::ULong,
            18446744073709551615,
            18446744073709551615,
            Some(1),
        ),
        (BinaryOp::Equal, IntType::Int, 2, 3, Some(0)),
        (BinaryOp::Unequal, IntType::Int, 2, 3, Some(1)),
        (BinaryOp::Unequal, IntType::Long, -1, -1, Some(0)),
    ] {
        gives(&rt, row);
    }
}

#[test]
fn bitwise_and(rt: HostRuntime) {
    for row in [
        (BinaryOp::And, IntType::Int, -1, 255, Some(255)),
        (
            BinaryOp::And,
            IntType::Int,
            -256,
            -2147483648,
            Some(-2147483648),
        ),
        (
            BinaryOp::And,
            IntType::UInt,
            4294967295,
            4042322160,
            Some(4042322160),
        ),
        (
            BinaryOp::And,
            IntType::ULong,
            18446744073709551615,
            9223372036854775808,
            Some(9223372036854775808),
        ),
    ] {
        gives(&rt, row);
    }
}

#[test]
fn bitwise_or_and_xor(rt: HostRuntime) {
    for row in [
        (BinaryOp::Xor, IntType::Int, -1, 5, Some(-6)),
        (
            BinaryOp::Xor,
            IntType::UInt,
            4042322160,
            4294967295,
            Some(252645135),
        ),
        (
            BinaryOp::Xor,
            IntType::Long,
            -9223372036854775808,
            -1,
            Some(9223372036854775807),
        ),
        (BinaryOp::Or, IntType::Int, -8, 3, Some(-5)),
        (
            BinaryOp::Or,
            IntType::Long,
            -9223372036854775808,
            1,
            Some(-9223372036854775807),
        ),
        (
            BinaryOp::Or,
            IntType::ULong,
            9223372036854775808,
            1,
            Some(9223372036854775809),
        ),
    ] {
        gives(&rt, row);
    }
}
