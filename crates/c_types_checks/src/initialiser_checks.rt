//! The checks of initialisers (ISO C99 6.7.8): whether one breaks a rule.
ghost use Rattle.std.specs.Prelude.{◌≡◌, IfOk, option_and_then};
ghost use Rattle.c_language.specs.ArrayRules as arrays;
ghost use Rattle.c_language.specs.Uses as uses;
ghost use Rattle.c_language.specs.declared.expr_type.Operand.{Operand};
ghost use Rattle.c_types_base.specs.Tables.{scope_of, AreRight};
ghost use Rattle.c_types_checks.specs.Checking.{Decides, all_kept, judging, when_given};
ghost use Rattle.c_types_checks.specs.InitialiserChecks as spec;
ghost use Rattle.c_types_checks.specs.Stands.{stand_of};

use crate::checking::unless_broken;
use crate::stand::Stand;
use crate::text::variable_type;
use c_language::{ExprType, Layer, Operand};
use c_tree::{RawExpr, RawInit, RawVar};
use c_types_base::constant::value_of_constant;
use c_types_base::expr_type::{copy, is_pointer, is_scalar};
use c_types_base::fault::Fault;
use c_types_base::judging::judge;
use c_types_base::operators::is_assignable;
use c_types_base::tables::Tables;
use std::alloc::{AllocError, Global};

/// Whether an expression is `NULL`, within parentheses or not.
#[tactic(auto, using(crate::proofs::UseLemmas::null_names))]
fn is_null_name(e: &RawExpr) -> bool
    ensures { result ≡ uses.is_null_name e.now }
{
    match e {
        RawExpr::Null => true,
        RawExpr::Paren(a) => is_null_name(a.get()),
        RawExpr::Constant(_) => false,
        RawExpr::Eof => false,
        RawExpr::Variable(_) => false,
        RawExpr::Unary(_, _) => false,
        RawExpr::Deref(_) => false,
        RawExpr::AddressOf(_) => false,
        RawExpr::Binary(_, _, _) => false,
        RawExpr::AndAlso(_, _) => false,
        RawExpr::OrElse(_, _) => false,
        RawExpr::Choose(_, _, _) => false,
        RawExpr::Cast(_, _) => false,
        RawExpr::Index(_, _) => false,
        RawExpr::Member(_, _) => false,
        RawExpr::Arrow(_, _) => false,
    }
}

/// Whether an initialiser is a constant for an object of the type.
fn is_constant_for(t: &ExprType, e: &RawExpr) -> bool
    ensures { result ≡ spec.is_constant_for t.now e.now }
{
    value_of_constant(e).is_some() || (is_null_name(e) && is_pointer(t))
}

/// An initialiser of a global is a constant.
fn check_constant(tables: &Tables<'_>, stand: Stand, t: &ExprType, e: &RawExpr) -> Result<(), Fault>
    ensures { Decides (spec.check_constant tables.now.raw.now (scope_of tables.now) (stand_of stand) t.now e.now) result }
{
    match stand {
        Stand::InFile { .. } => unless_broken(is_constant_for(t, e), 10),
        Stand::InBlock => Ok(()),
        Stand::InArm => Ok(()),
        Stand::InFor => Ok(()),
    }
}

/// The first value of an object of the type.
fn check_first(
    tables: &Tables<'_>,
    stand: Stand,
    e: &RawExpr,
    y: Operand,
    t: &ExprType,
) -> Result<(), Fault>
    ensures { Decides (spec.check_first tables.now.raw.now (scope_of tables.now) (stand_of stand) e.now y t.now) result }
{
    if !is_scalar(t) {
        return Err(Fault::Rule(22));
    }
    if !is_assignable(t, y) {
        return Err(Fault::Rule(13));
    }
    check_constant(tables, stand, t, e)
}

/// An initialiser without braces.
fn check_one(
    alloc: Global,
    tables: &Tables<'_>,
    stand: Stand,
    e: &RawExpr,
    t: &Option<ExprType>,
) -> Result<(), Fault>
    requires { AreRight tables.now }
    ensures { Decides (judging tables.now.raw.now (scope_of tables.now) e.now (λ (y : Operand). when_given (spec.check_first tables.now.raw.now (scope_of tables.now) (stand_of stand) e.now y) t.now)) result }
{
    let y = judge(alloc, tables, e)?;
    match t {
        None => Ok(()),
        Some(t) => check_first(tables, stand, e, y, t),
    }
}

/// The type of an array's elements. Err: no memory was left.
fn element_of(alloc: Global, t: &ExprType) -> Result<Option<ExprType>, AllocError>
    ensures { IfOk result (λ u. u ≡ arrays.element_of t.now) }
{
    match t.layers.get(0) {
        Some(Layer::Array(_)) => {
            let mut element = copy(alloc, t)?;
            let _array = element.layers.remove(0);
            Ok(Some(element))
        }
        _ => Ok(None),
    }
}

/// How many elements an array has.
fn count_of(t: &ExprType) -> Option<u64>
    ensures { result ≡ arrays.count_of t.now }
{
    match t.layers.get(0) {
        Some(Layer::Array(count)) => Some(*count),
        _ => None,
    }
}

/// An item of a list, for an element of the type.
fn check_item(
    alloc: Global,
    tables: &Tables<'_>,
    stand: Stand,
    element: &Option<ExprType>,
    e: &RawExpr,
) -> Result<(), Fault>
    requires { AreRight tables.now }
    ensures { Decides (spec.check_item tables.now.raw.now (scope_of tables.now) (stand_of stand) element.now e.now) result }
{
    let y = judge(alloc, tables, e)?;
    let Some(t) = element else {
        return Ok(());
    };
    if !is_assignable(t, y) {
        return Err(Fault::Rule(22));
    }
    check_constant(tables, stand, t, e)
}

/// The items of a list, for elements of the type.
fn check_each_item(
    alloc: Global,
    tables: &Tables<'_>,
    stand: Stand,
    element: &Option<ExprType>,
    items: &[RawExpr],
) -> Result<(), Fault>
    requires { AreRight tables.now }
    ensures { Decides (all_kept (spec.check_item tables.now.raw.now (scope_of tables.now) (stand_of stand) element.now) items.now) result }
{
    for item in items {
        check_item(alloc, tables, stand, element, item)?;
    }
    Ok(())
}

/// Whether so many items are no more than there are elements.
fn are_few(items: usize, count: Option<u64>) -> bool
    ensures { result ≡ spec.are_few items count }
{
    match count {
        None => true,
        Some(count) => items as u64 <= count,
    }
}

/// So many items, for an object of the type, whose elements have a type where it is an array.
fn check_listed(
    tables: &Tables<'_>,
    items: usize,
    t: &ExprType,
    element: &Option<ExprType>,
) -> Result<(), Fault>
    requires { element.now ≡ arrays.element_of t.now }
    ensures { Decides (spec.check_listed tables.now.raw.now (scope_of tables.now) items t.now) result }
{
    let Some(element) = element else {
        return Err(Fault::Rule(22));
    };
    if !is_scalar(element) {
        return Err(Fault::Rule(22));
    }
    unless_broken(are_few(items, count_of(t)), 22)
}

/// The type of the elements of an object, where it is an array. Err: no memory was left.
fn element_if(alloc: Global, t: &Option<ExprType>) -> Result<Option<ExprType>, AllocError>
    ensures { IfOk result (λ u. u ≡ option_and_then arrays.element_of t.now) }
{
    match t {
        None => Ok(None),
        Some(t) => element_of(alloc, t),
    }
}

/// A list of initialisers, for an object of the type.
fn check_items(
    alloc: Global,
    tables: &Tables<'_>,
    stand: Stand,
    items: &[RawExpr],
    t: &Option<ExprType>,
) -> Result<(), Fault>
    requires { AreRight tables.now }
    ensures { Decides (spec.check_items tables.now.raw.now (scope_of tables.now) (stand_of stand) items.now t.now) result }
{
    let element = element_if(alloc, t)?;
    check_each_item(alloc, tables, stand, &element, items)?;
    match t {
        None => Ok(()),
        Some(t) => check_listed(tables, items.len(), t, &element),
    }
}

/// An initialiser.
pub fn check_begun(
    alloc: Global,
    tables: &Tables<'_>,
    stand: Stand,
    var: &RawVar,
    init: &RawInit,
) -> Result<(), Fault>
    requires { AreRight tables.now }
    ensures { Decides (spec.check_begun tables.now.raw.now (scope_of tables.now) (stand_of stand) var.now init.now) result }
{
    let t = variable_type(alloc, tables, var, init)?;
    match init {
        RawInit::None => Ok(()),
        RawInit::One(e) => check_one(alloc, tables, stand, e, &t),
        RawInit::Items(items) => check_items(alloc, tables, stand, items.as_slice(), &t),
    }
}
