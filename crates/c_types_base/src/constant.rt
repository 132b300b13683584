//! Constant expressions (ISO C99 6.6).
ghost use Rattle.std.specs.Prelude.{◌≡◌, not, IfSome, Option, option_and_then, option_map};
ghost use Rattle.c_arith.specs.declared.int_type.IntType.TheVariants.{Int};
ghost use Rattle.c_arith.specs.IntType.{LiesIn, convert};
ghost use Rattle.c_arith.specs.Operators as ops;
ghost use Rattle.c_arith.specs.Operators.{unary_type, binary_type, IsRightOperand};
ghost use Rattle.c_language.specs.ConstantEvaluation as spec;
ghost use Rattle.c_types_base.specs.Values.{IsInType};

use crate::literal::literal;
use c_arith::{BinaryOp, IntType, UnaryOp, binary, common, convert, promote, unary};
use c_language::Constant;
use c_tree::RawExpr;

/// The type of what a unary operator gives.
fn unary_type(op: UnaryOp, t: IntType) -> IntType
    ensures { result ≡ unary_type op t }
{
    match op {
        UnaryOp::Not => IntType::Int,
        UnaryOp::Plus | UnaryOp::Minus | UnaryOp::Flip => t,
    }
}

/// The type of what a binary operator gives: int for a comparison.
pub fn binary_type(op: BinaryOp, t: IntType) -> IntType
    ensures { result ≡ binary_type op t }
{
    match op {
        BinaryOp::Less
        | BinaryOp::Greater
        | BinaryOp::AtMost
        | BinaryOp::AtLeast
        | BinaryOp::Equal
        | BinaryOp::Unequal => IntType::Int,
        _ => t,
    }
}

/// The type in which the operands of an operator are taken.
pub fn operand_type(op: BinaryOp, a: IntType, b: IntType) -> IntType
    ensures { result ≡ spec.operand_type op a b }
{
    match op {
        BinaryOp::Shl | BinaryOp::Shr => promote(a),
        _ => common(a, b),
    }
}

/// A unary operator at a value that is promoted.
fn promoted_unary(op: UnaryOp, t: IntType, value: Option<i128>) -> Option<i128>
    ensures value { result ≡ option_and_then (spec.promoted_unary op t) value }
    ensures in_type { IfSome result (LiesIn (unary_type op t)) }
{
    unary(op, t, convert(value?, t))
}

fn unary_constant(op: UnaryOp, a: Constant) -> Constant
    ensures value { result ≡ spec.unary_constant op a }
    ensures in_type { IsInType result }
{
    let t = promote(a.integer);
    Constant {
        integer: unary_type(op, t),
        value: promoted_unary(op, t, a.value),
    }
}

/// The right operand of an operator: that of a shift keeps its value, and every other one is
/// converted.
fn right_value(op: BinaryOp, t: IntType, from: IntType, value: i128) -> i128
    requires { LiesIn from value }
    ensures value { result ≡ spec.right_value op t value }
    ensures fits { IsRightOperand op t result }
{
    match op {
        BinaryOp::Shl | BinaryOp::Shr => value,
        _ => convert(value, t),
    }
}

/// A binary operator at two values, once they are converted to the type.
fn converted_binary(op: BinaryOp, t: IntType, a: Option<i128>, b: Constant) -> Option<i128>
    requires { IsInType b }
    ensures value { result ≡ spec.converted_binary op t a b.value }
    ensures in_type { IfSome result (LiesIn (binary_type op t)) }
{
    let left = convert(a?, t);
    let right = right_value(op, t, b.integer, b.value?);
    binary(op, t, left, right)
}

fn binary_constant(op: BinaryOp, a: Constant, b: Constant) -> Constant
    requires { IsInType b }
    ensures value { result ≡ spec.binary_constant op a b }
    ensures in_type { IsInType result }
{
    let t = operand_type(op, a.integer, b.integer);
    Constant {
        integer: binary_type(op, t),
        value: converted_binary(op, t, a.value, b),
    }
}

/// 1 where the value isn't 0, and else 0.
fn truth(value: Option<i128>) -> Option<i128>
    ensures value { result ≡ option_map (λ z. ops.truth (not (spec.is_zero z))) value }
    ensures in_type { IfSome result (LiesIn Int) }
{
    if value? == 0 { Some(0) } else { Some(1) }
}

/// The right operand of `&&` is evaluated where the left one isn't 0.
fn and_value(left: Option<i128>, right: Option<i128>) -> Option<i128>
    ensures value { result ≡ option_and_then (λ z. spec.and_value z right) left }
    ensures in_type { IfSome result (LiesIn Int) }
{
    if left? == 0 { Some(0) } else { truth(right) }
}

/// The right operand of `||` is evaluated where the left one is 0.
fn or_value(left: Option<i128>, right: Option<i128>) -> Option<i128>
    ensures value { result ≡ option_and_then (λ z. spec.or_value z right) left }
    ensures in_type { IfSome result (LiesIn Int) }
{
    if left? == 0 { truth(right) } else { Some(1) }
}

fn and_constant(a: Constant, b: Constant) -> Constant
    ensures value { result ≡ spec.and_constant a b }
    ensures in_type { IsInType result }
{
    Constant {
        integer: IntType::Int,
        value: and_value(a.value, b.value),
    }
}

fn or_constant(a: Constant, b: Constant) -> Constant
    ensures value { result ≡ spec.or_constant a b }
    ensures in_type { IsInType result }
{
    Constant {
        integer: IntType::Int,
        value: or_value(a.value, b.value),
    }
}

/// A value converted to a type.
fn converted(value: Option<i128>, t: IntType) -> Option<i128>
    ensures value { result ≡ option_map (λ x. convert x t) value }
    ensures in_type { IfSome result (LiesIn t) }
{
    Some(convert(value?, t))
}

/// The one operand that is evaluated, converted to the common type.
fn chosen_value(t: IntType, test: Option<i128>, a: Option<i128>, b: Option<i128>) -> Option<i128>
    ensures value { result ≡ option_and_then (λ z. spec.chosen_value t z a b) test }
    ensures in_type { IfSome result (LiesIn t) }
{
    if test? == 0 {
        converted(b, t)
    } else {
        converted(a, t)
    }
}

fn chosen_constant(test: Constant, a: Constant, b: Constant) -> Constant
    ensures value { result ≡ spec.chosen_constant test a b }
    ensures in_type { IsInType result }
{
    let t = common(a.integer, b.integer);
    Constant {
        integer: t,
        value: chosen_value(t, test.value, a.value, b.value),
    }
}

fn cast_constant(t: IntType, a: Constant) -> Constant
    ensures value { result ≡ spec.cast_constant t a }
    ensures in_type { IsInType result }
{
    Constant {
        integer: t,
        value: converted(a.value, t),
    }
}

fn spelled(text: &[u8]) -> Constant
    ensures value { result ≡ spec.spelled (spec.literal_value text.now) (spec.literal_type text.now) }
    ensures in_type { IsInType result }
{
    let (t, value) = literal(text);
    Constant {
        integer: t,
        value: Some(i128::from(value)),
    }
}

/// What an expression is as a constant expression. None where a name other than `EOF`, `NULL`, or an
/// operator on places stands in it.
#[tactic(auto, using(crate::proofs::Rulesets::constants))]
pub fn constant(expr: &RawExpr) -> Option<Constant>
    ensures value { result ≡ spec.constant expr.now }
    ensures in_type { IfSome result IsInType }
{
    match expr {
        RawExpr::Constant(text) => Some(spelled(text.bytes())),
        RawExpr::Eof => Some(Constant {
            integer: IntType::Int,
            value: Some(-1),
        }),
        RawExpr::Unary(op, a) => Some(unary_constant(*op, constant(a.get())?)),
        RawExpr::Binary(op, a, b) => {
            let left = constant(a.get())?;
            Some(binary_constant(*op, left, constant(b.get())?))
        }
        RawExpr::AndAlso(a, b) => {
            let left = constant(a.get())?;
            Some(and_constant(left, constant(b.get())?))
        }
        RawExpr::OrElse(a, b) => {
            let left = constant(a.get())?;
            Some(or_constant(left, constant(b.get())?))
        }
        RawExpr::Choose(c, a, b) => {
            let test = constant(c.get())?;
            let left = constant(a.get())?;
            Some(chosen_constant(test, left, constant(b.get())?))
        }
        RawExpr::Cast(t, a) => Some(cast_constant(*t, constant(a.get())?)),
        RawExpr::Paren(a) => constant(a.get()),
        RawExpr::Null
        | RawExpr::Variable(_)
        | RawExpr::Deref(_)
        | RawExpr::AddressOf(_)
        | RawExpr::Index(_, _)
        | RawExpr::Member(_, _)
        | RawExpr::Arrow(_, _) => None,
    }
}

/// The value of a constant expression. None where it is none, or its evaluation has an undefined act.
pub fn value_of_constant(expr: &RawExpr) -> Option<i128>
    ensures { result ≡ spec.value_of_constant expr.now }
{
    constant(expr)?.value
}
