//! How types and operators are spelled.
ghost use Rattle.std.specs.Prelude.{◌≡◌};
ghost use Rattle.c_language.specs.Words as spec;

use c_arith::{BinaryOp, IntType, UnaryOp};

/// The canonical words of an integer type (ISO C99 6.7.2).
pub fn int_words(int_type: IntType) -> &'static [u8]
    ensures { result.now ≡ spec.int_words int_type }
{
    match int_type {
        IntType::Char => b"char",
        IntType::UChar => b"unsigned char",
        IntType::Short => b"short",
        IntType::UShort => b"unsigned short",
        IntType::Int => b"int",
        IntType::UInt => b"unsigned int",
        IntType::Long => b"long",
        IntType::ULong => b"unsigned long",
    }
}

/// The sign of a unary operator (ISO C99 6.5.3.3).
pub fn unary_sign(op: UnaryOp) -> &'static [u8]
    ensures { result.now ≡ spec.unary_sign op }
{
    match op {
        UnaryOp::Plus => b"+",
        UnaryOp::Minus => b"-",
        UnaryOp::Flip => b"~",
        UnaryOp::Not => b"!",
    }
}

/// The sign of a binary operator (ISO C99 6.5.5 to 6.5.12).
pub fn binary_sign(op: BinaryOp) -> &'static [u8]
    ensures { result.now ≡ spec.binary_sign op }
{
    match op {
        BinaryOp::Mul => b"*",
        BinaryOp::Div => b"/",
        BinaryOp::Rem => b"%",
        BinaryOp::Add => b"+",
        BinaryOp::Sub => b"-",
        BinaryOp::Shl => b"<<",
        BinaryOp::Shr => b">>",
        BinaryOp::Less => b"<",
        BinaryOp::Greater => b">",
        BinaryOp::AtMost => b"<=",
        BinaryOp::AtLeast => b">=",
        BinaryOp::Equal => b"==",
        BinaryOp::Unequal => b"!=",
        BinaryOp::And => b"&",
        BinaryOp::Xor => b"^",
        BinaryOp::Or => b"|",
    }
}
