//! The check of phrases: whether one breaks a rule.
ghost use Rattle.std.specs.Prelude.{◌≡◌, ◌<◌};
ghost use Rattle.c_types_checks.specs.Checking as spec;
ghost use Rattle.c_types_checks.specs.Checking.{Decides, kept, unless_broken};
ghost use Rattle.c_types_base.specs.Tables.{scope_of, AreRight};

use c_arith::{BinaryOp, IntType};
use c_language::{ExprType, Operand};
use c_tree::RawExpr;
use c_types_base::expr_type::{copy, integer, is_scalar, value_type};
use c_types_base::fault::Fault;
use c_types_base::judging::{a_value, judge, moves_incomplete, points_to_incomplete};
use c_types_base::operators::{binary_result, is_assignable};
use c_types_base::tables::Tables;
use std::alloc::Global;

/// The rule is broken unless the test passes.
pub fn unless_broken(test: bool, rule: u32) -> Result<(), Fault>
    requires { 0 < rule }
    ensures { Decides (unless_broken test rule kept) result }
{
    if test { Ok(()) } else { Err(Fault::Rule(rule)) }
}

/// An expression alone.
pub fn check_expr(alloc: Global, tables: &Tables<'_>, expr: &RawExpr) -> Result<(), Fault>
    requires { AreRight tables.now }
    ensures { Decides (spec.check_expr tables.now.raw.now (scope_of tables.now) expr.now) result }
{
    let _operand = judge(alloc, tables, expr)?;
    Ok(())
}

/// The test of an if, a while, a do or a for.
pub fn check_test(alloc: Global, tables: &Tables<'_>, test: &RawExpr) -> Result<(), Fault>
    requires { AreRight tables.now }
    ensures { Decides (spec.check_test tables.now.raw.now (scope_of tables.now) test.now) result }
{
    let operand = judge(alloc, tables, test)?;
    if is_scalar(&value_type(operand.shape)) {
        Ok(())
    } else {
        Err(Fault::Rule(12))
    }
}

/// Whether an operand can be assigned to.
pub fn is_target(tables: &Tables<'_>, x: &Operand) -> bool
    ensures { result ≡ spec.is_target tables.now.raw.now (scope_of tables.now) x.now }
{
    x.is_place && is_scalar(&x.shape)
}

/// What an operator gives is stored in an object of the type.
fn check_given(t: &ExprType, given: Option<ExprType>) -> Result<(), Fault>
    ensures { Decides (spec.check_given t.now given) result }
{
    match given {
        None => Err(Fault::Rule(12)),
        Some(u) => unless_broken(is_assignable(t, a_value(u)), 13),
    }
}

/// What is stored by a compound assignment.
fn check_compound(
    alloc: Global,
    tables: &Tables<'_>,
    op: BinaryOp,
    x: Operand,
    y: Operand,
) -> Result<(), Fault>
    ensures { Decides (spec.check_compound tables.now.raw.now (scope_of tables.now) op x y) result }
{
    if moves_incomplete(tables, op, &x, &y) {
        return Err(Fault::Rule(7));
    }
    let stored = copy(alloc, &x.shape)?;
    check_given(&stored, binary_result(alloc, op, x, y))
}

/// What is stored by an assignment.
fn check_stored(
    alloc: Global,
    tables: &Tables<'_>,
    op: Option<BinaryOp>,
    x: Operand,
    y: Operand,
) -> Result<(), Fault>
    ensures { Decides (spec.check_stored tables.now.raw.now (scope_of tables.now) op x y) result }
{
    match op {
        Some(op) => check_compound(alloc, tables, op, x, y),
        None => {
            if is_assignable(&x.shape, y) {
                Ok(())
            } else {
                Err(Fault::Rule(13))
            }
        }
    }
}

/// An assignment.
pub fn check_assignment(
    alloc: Global,
    tables: &Tables<'_>,
    left: &RawExpr,
    op: Option<BinaryOp>,
    right: &RawExpr,
) -> Result<(), Fault>
    requires { AreRight tables.now }
    ensures { Decides (spec.check_assignment tables.now.raw.now (scope_of tables.now) left.now op right.now) result }
{
    let x = judge(alloc, tables, left)?;
    let y = judge(alloc, tables, right)?;
    if !is_target(tables, &x) {
        return Err(Fault::Rule(14));
    }
    check_stored(alloc, tables, op, x, y)
}

/// `++` or `--`.
pub fn check_bump(alloc: Global, tables: &Tables<'_>, left: &RawExpr) -> Result<(), Fault>
    requires { AreRight tables.now }
    ensures { Decides (spec.check_bump tables.now.raw.now (scope_of tables.now) left.now) result }
{
    let x = judge(alloc, tables, left)?;
    if !is_target(tables, &x) {
        return Err(Fault::Rule(14));
    }
    if points_to_incomplete(tables, &x) {
        return Err(Fault::Rule(7));
    }
    let one = a_value(integer(alloc, IntType::Int));
    match binary_result(alloc, BinaryOp::Add, x, one) {
        Some(_) => Ok(()),
        None => Err(Fault::Rule(12)),
    }
}
