//! What operators take and give (ISO C99 6.5).
ghost use Rattle.std.specs.Prelude.{◌≡◌, Option};
ghost use Rattle.c_language.specs.ExprTypes as spec;

use crate::constant::{binary_type, operand_type};
use crate::expr_type::{
    integer, integer_of, is_integer, is_object_pointer, is_pointer, is_scalar, same_type,
    target_of, value_type,
};
use c_arith::{BinaryOp, IntType, UnaryOp, common, promote};
use c_language::{ExprType, Operand};
use std::alloc::Global;

/// A unary operator at a value of the type.
pub fn unary_result(alloc: Global, op: UnaryOp, t: &ExprType) -> Option<ExprType>
    ensures { result ≡ spec.unary_result op t.now }
{
    match op {
        UnaryOp::Not => {
            if is_scalar(t) {
                Some(integer(alloc, IntType::Int))
            } else {
                None
            }
        }
        UnaryOp::Plus | UnaryOp::Minus | UnaryOp::Flip => {
            Some(integer(alloc, promote(integer_of(t)?)))
        }
    }
}

/// A binary operator at two integers.
fn integer_result(alloc: Global, op: BinaryOp, s: &ExprType, t: &ExprType) -> Option<ExprType>
    ensures { result ≡ spec.integer_result op s.now t.now }
{
    let left = integer_of(s)?;
    let right = integer_of(t)?;
    Some(integer(alloc, binary_type(op, operand_type(op, left, right))))
}

/// A pointer to an object, moved by an integer.
fn moved(p: ExprType, i: &ExprType) -> Option<ExprType>
    ensures { result ≡ spec.moved p i.now }
{
    if is_object_pointer(&p) && is_integer(i) {
        Some(p)
    } else {
        None
    }
}

/// Two pointers to objects of one type.
fn are_alike(s: &ExprType, t: &ExprType) -> bool
    ensures { result ≡ spec.are_alike s.now t.now }
{
    is_object_pointer(s) && same_type(s, t)
}

/// `a + b`
fn sum(alloc: Global, a: Operand, b: Operand) -> Option<ExprType>
    ensures { result ≡ spec.binary_result BinaryOp.Add a b }
{
    if let Some(t) = integer_result(alloc, BinaryOp::Add, &a.shape, &b.shape) {
        return Some(t);
    }
    let is_moved_right = is_integer(&a.shape);
    if let Some(t) = moved(value_type(a.shape), &b.shape) {
        return Some(t);
    }
    let right = value_type(b.shape);
    if is_object_pointer(&right) && is_moved_right {
        Some(right)
    } else {
        None
    }
}

/// `a - b`
fn difference(alloc: Global, a: Operand, b: Operand) -> Option<ExprType>
    ensures { result ≡ spec.binary_result BinaryOp.Sub a b }
{
    if let Some(t) = integer_result(alloc, BinaryOp::Sub, &a.shape, &b.shape) {
        return Some(t);
    }
    let left = value_type(a.shape);
    if is_object_pointer(&left) && is_integer(&b.shape) {
        return Some(left);
    }
    if are_alike(&left, &value_type(b.shape)) {
        Some(integer(alloc, IntType::Long))
    } else {
        None
    }
}

/// A comparison of order, at two integers or two pointers to objects of one type.
fn order(alloc: Global, op: BinaryOp, a: Operand, b: Operand) -> Option<ExprType>
    ensures { result ≡ spec.order_result op a b }
{
    if let Some(t) = integer_result(alloc, op, &a.shape, &b.shape) {
        return Some(t);
    }
    if are_alike(&value_type(a.shape), &value_type(b.shape)) {
        Some(integer(alloc, IntType::Int))
    } else {
        None
    }
}

/// A comparison for equality, at two integers, two pointers of one type, or a pointer and what stands
/// for a null pointer.
fn equality(alloc: Global, op: BinaryOp, a: Operand, b: Operand) -> Option<ExprType>
    ensures { result ≡ spec.equality_result op a b }
{
    if let Some(t) = integer_result(alloc, op, &a.shape, &b.shape) {
        return Some(t);
    }
    let left = value_type(a.shape);
    let right = value_type(b.shape);
    let are_same = is_pointer(&left) && same_type(&left, &right);
    if are_same || (is_pointer(&left) && b.is_null) || (is_pointer(&right) && a.is_null) {
        Some(integer(alloc, IntType::Int))
    } else {
        None
    }
}

/// A binary operator at two operands.
pub fn binary_result(alloc: Global, op: BinaryOp, a: Operand, b: Operand) -> Option<ExprType>
    ensures { result ≡ spec.binary_result op a b }
{
    match op {
        BinaryOp::Add => sum(alloc, a, b),
        BinaryOp::Sub => difference(alloc, a, b),
        BinaryOp::Less | BinaryOp::Greater | BinaryOp::AtMost | BinaryOp::AtLeast => {
            order(alloc, op, a, b)
        }
        BinaryOp::Equal | BinaryOp::Unequal => equality(alloc, op, a, b),
        BinaryOp::Mul
        | BinaryOp::Div
        | BinaryOp::Rem
        | BinaryOp::Shl
        | BinaryOp::Shr
        | BinaryOp::And
        | BinaryOp::Xor
        | BinaryOp::Or => integer_result(alloc, op, &a.shape, &b.shape),
    }
}

/// `&&` or `||` at two operands.
pub fn logical_result(alloc: Global, a: Operand, b: Operand) -> Option<ExprType>
    ensures { result ≡ spec.logical_result a b }
{
    if is_scalar(&value_type(a.shape)) && is_scalar(&value_type(b.shape)) {
        Some(integer(alloc, IntType::Int))
    } else {
        None
    }
}

/// The common type of two integers.
fn common_result(alloc: Global, s: &ExprType, t: &ExprType) -> Option<ExprType>
    ensures { result ≡ spec.common_result s.now t.now }
{
    let left = integer_of(s)?;
    let right = integer_of(t)?;
    Some(integer(alloc, common(left, right)))
}

/// The type of the one of two operands that is chosen.
fn chosen_result(alloc: Global, a: Operand, b: Operand) -> Option<ExprType>
    ensures { result ≡ spec.chosen_result a b }
{
    if let Some(t) = common_result(alloc, &a.shape, &b.shape) {
        return Some(t);
    }
    let left = value_type(a.shape);
    let right = value_type(b.shape);
    if are_alike(&left, &right) || (is_object_pointer(&left) && b.is_null) {
        Some(left)
    } else if is_object_pointer(&right) && a.is_null {
        Some(right)
    } else {
        None
    }
}

/// `c ? a : b`
pub fn choose_result(alloc: Global, c: Operand, a: Operand, b: Operand) -> Option<ExprType>
    ensures { result ≡ spec.choose_result c a b }
{
    let t = chosen_result(alloc, a, b)?;
    if is_scalar(&value_type(c.shape)) {
        Some(t)
    } else {
        None
    }
}

/// A cast to an integer type.
pub fn cast_result(alloc: Global, t: IntType, a: &Operand) -> Option<ExprType>
    ensures { result ≡ spec.cast_result t a.now }
{
    if is_integer(&a.shape) {
        Some(integer(alloc, t))
    } else {
        None
    }
}

/// The object that a pointer points to.
pub fn pointed(a: Operand) -> Option<ExprType>
    ensures { result ≡ spec.pointed a }
{
    let pointer = value_type(a.shape);
    if is_object_pointer(&pointer) {
        target_of(pointer)
    } else {
        None
    }
}

/// `a[i]`
pub fn indexed(a: Operand, i: &Operand) -> Option<ExprType>
    ensures { result ≡ spec.indexed a i.now }
{
    let element = pointed(a)?;
    if is_integer(&i.shape) {
        Some(element)
    } else {
        None
    }
}

/// Whether an operand can be assigned to an object of the type (6.5.16.1).
pub fn is_assignable(t: &ExprType, x: Operand) -> bool
    ensures { result ≡ spec.is_assignable t.now x }
{
    if is_integer(t) && is_integer(&x.shape) {
        return true;
    }
    is_pointer(t) && (same_type(t, &value_type(x.shape)) || x.is_null)
}
