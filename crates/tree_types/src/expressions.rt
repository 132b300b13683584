//! The types of a program's expressions, whose operands keep the rules (ISO C99 6.5).
ghost use Rattle.std.specs.Prelude.{◌≡◌, IfOk};
ghost use Rattle.c_arith.specs.IntType.{promote};
ghost use Rattle.c_arith.specs.Operators.{unary_type};
ghost use Rattle.c_language.specs.DeclaredTypes.{integer};
ghost use Rattle.c_language.specs.TreeTypes as spec;
ghost use Rattle.c_language.specs.TreeTypes.{tree_type};

use crate::declared::{member_type, variable_type};
use c_arith::{BinaryOp, IntType, UnaryOp, common, promote};
use c_language::ExprType;
use c_tree::{Expr, Program};
use c_types_base::constant::{binary_type, operand_type};
use c_types_base::expr_type::{
    integer, integer_of, is_object_pointer, is_pointer, pointer_to, target_of, value_type, void,
};
use std::alloc::{AllocError, Global};

/// The integer type of an operand; that of a pointer is of no meaning.
fn int_type(t: &ExprType) -> IntType
    ensures { result ≡ spec.int_type t.now }
{
    integer_of(t).unwrap_or(IntType::Int)
}

/// What a pointer points to, also an array that turns into one.
pub fn pointee(alloc: Global, t: ExprType) -> ExprType
    ensures { result ≡ spec.pointee t }
{
    match target_of(value_type(t)) {
        Some(target) => target,
        None => void(alloc),
    }
}

/// A unary operator at an operand of the type.
fn unary_result(alloc: Global, op: UnaryOp, t: &ExprType) -> ExprType
    ensures { result ≡ integer (unary_type op (promote (spec.int_type t.now))) }
{
    match op {
        UnaryOp::Not => integer(alloc, IntType::Int),
        UnaryOp::Plus | UnaryOp::Minus | UnaryOp::Flip => integer(alloc, promote(int_type(t))),
    }
}

/// A binary operator at two integers.
fn combined(alloc: Global, op: BinaryOp, s: &ExprType, t: &ExprType) -> ExprType
    ensures { result ≡ spec.combined op s.now t.now }
{
    let operands = operand_type(op, int_type(s), int_type(t));
    integer(alloc, binary_type(op, operands))
}

/// `a + b`: a pointer where one of both is one (6.5.6).
fn sum(alloc: Global, s: ExprType, t: ExprType) -> ExprType
    ensures { result ≡ spec.binary_tree_type BinaryOp.Add s t }
{
    let integers = combined(alloc, BinaryOp::Add, &s, &t);
    let left = value_type(s);
    if is_pointer(&left) {
        return left;
    }
    let right = value_type(t);
    if is_pointer(&right) { right } else { integers }
}

/// `a - b`: a pointer moved by an integer, or the distance of two pointers (6.5.6).
fn difference(alloc: Global, s: ExprType, t: ExprType) -> ExprType
    ensures { result ≡ spec.binary_tree_type BinaryOp.Sub s t }
{
    let integers = combined(alloc, BinaryOp::Sub, &s, &t);
    let left = value_type(s);
    if !is_pointer(&left) {
        return integers;
    }
    if is_pointer(&value_type(t)) {
        integer(alloc, IntType::Long)
    } else {
        left
    }
}

/// A binary operator at two operands.
fn binary_result(alloc: Global, op: BinaryOp, s: ExprType, t: ExprType) -> ExprType
    ensures { result ≡ spec.binary_tree_type op s t }
{
    match op {
        BinaryOp::Add => sum(alloc, s, t),
        BinaryOp::Sub => difference(alloc, s, t),
        BinaryOp::Less
        | BinaryOp::Greater
        | BinaryOp::AtMost
        | BinaryOp::AtLeast
        | BinaryOp::Equal
        | BinaryOp::Unequal
        | BinaryOp::Mul
        | BinaryOp::Div
        | BinaryOp::Rem
        | BinaryOp::Shl
        | BinaryOp::Shr
        | BinaryOp::And
        | BinaryOp::Xor
        | BinaryOp::Or => combined(alloc, op, &s, &t),
    }
}

/// `c ? a : b`, by the types of a and b (6.5.15).
fn chosen_type(alloc: Global, s: ExprType, t: ExprType) -> ExprType
    ensures { result ≡ spec.chosen_type s t }
{
    if let (Some(i), Some(j)) = (integer_of(&s), integer_of(&t)) {
        return integer(alloc, common(i, j));
    }
    let left = value_type(s);
    if is_object_pointer(&left) {
        left
    } else {
        value_type(t)
    }
}

/// The type of an expression. Err: no memory was left.
#[tactic(auto, using(crate::proofs::Rulesets::expressions))]
pub fn expr_type(alloc: Global, p: &Program, e: &Expr) -> Result<ExprType, AllocError>
    ensures { IfOk result (λ t. t ≡ tree_type p.now e.now) }
{
    match e {
        Expr::Constant(_, t, _) => Ok(integer(alloc, *t)),
        Expr::Null => pointer_to(alloc, void(alloc)),
        Expr::Eof => Ok(integer(alloc, IntType::Int)),
        Expr::Variable(x) => variable_type(alloc, p, *x),
        Expr::Unary(op, a) => Ok(unary_result(alloc, *op, &expr_type(alloc, p, a.get())?)),
        Expr::Deref(a) => Ok(pointee(alloc, expr_type(alloc, p, a.get())?)),
        Expr::AddressOf(a) => pointer_to(alloc, expr_type(alloc, p, a.get())?),
        Expr::Binary(op, a, b) => {
            let left = expr_type(alloc, p, a.get())?;
            let right = expr_type(alloc, p, b.get())?;
            Ok(binary_result(alloc, *op, left, right))
        }
        Expr::AndAlso(_, _) => Ok(integer(alloc, IntType::Int)),
        Expr::OrElse(_, _) => Ok(integer(alloc, IntType::Int)),
        Expr::Choose(_, a, b) => {
            let left = expr_type(alloc, p, a.get())?;
            let right = expr_type(alloc, p, b.get())?;
            Ok(chosen_type(alloc, left, right))
        }
        Expr::Cast(t, _) => Ok(integer(alloc, *t)),
        Expr::Index(a, _) => Ok(pointee(alloc, expr_type(alloc, p, a.get())?)),
        Expr::Member(_, m) => member_type(alloc, p, *m),
        Expr::Arrow(_, m) => member_type(alloc, p, *m),
        Expr::Paren(a) => expr_type(alloc, p, a.get()),
    }
}
