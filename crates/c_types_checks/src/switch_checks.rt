//! The check of a switch (ISO C99 6.8.4.2): whether it breaks a rule.
ghost use Rattle.std.specs.Prelude.{◌≡◌, ◌∷◌, ◌&&◌, ℤ, true, not, cond, IfOk, OnOk, List, map, nat_lt};
ghost use Rattle.std.specs.Borrow.{Bor};
ghost use Rattle.std.specs.Ordering.{int_eq};
ghost use Rattle.indexmap.specs.IndexSet.{contains};
ghost use Rattle.c_tree.specs.declared.raw.statement.RawLabel.{RawLabel};
ghost use Rattle.c_types_checks.specs.SwitchChecks as spec;
ghost use Rattle.c_types_checks.specs.SwitchChecks.{are_apart, is_default, value_of_case};
ghost use Rattle.c_types_checks.specs.Checking.{Decides, all_kept};
ghost use Rattle.c_types_base.specs.Tables.{scope_of, AreRight};

use crate::checking::{check_expr, unless_broken};
use c_arith::{IntType, convert, promote};
use c_tree::{RawExpr, RawLabel};
use c_types_base::constant::value_of_constant;
use c_types_base::expr_type::integer_of;
use c_types_base::fault::Fault;
use c_types_base::judging::judge;
use c_types_base::tables::Tables;
use indexmap::IndexSet;
use std::alloc::{AllocError, Global};

/// A label of a switch.
fn check_label(alloc: Global, tables: &Tables<'_>, label: &RawLabel) -> Result<(), Fault>
    requires { AreRight tables.now }
    ensures { Decides (spec.check_label tables.now.raw.now (scope_of tables.now) label.now) result }
{
    match label {
        RawLabel::Default => Ok(()),
        RawLabel::Case(value) => {
            check_expr(alloc, tables, value)?;
            unless_broken(value_of_constant(value).is_some(), 10)
        }
    }
}

/// Each of the labels of a switch.
fn check_each_label(alloc: Global, tables: &Tables<'_>, labels: &[&RawLabel]) -> Result<(), Fault>
    requires { AreRight tables.now }
    ensures { Decides (all_kept (spec.check_label tables.now.raw.now (scope_of tables.now)) (map (λ (l : Bor RawLabel). l.now) labels.now)) result }
{
    for label in labels {
        check_label(alloc, tables, label)?;
    }
    Ok(())
}

/// Whether the label is a default.
fn is_default(label: &RawLabel) -> bool
    ensures { result ≡ is_default label.now }
{
    match label {
        RawLabel::Default => true,
        RawLabel::Case(_) => false,
    }
}

/// Whether fewer than two of some labels are a default.
fn has_few_defaults(labels: &[&RawLabel]) -> bool
    ensures { result ≡ nat_lt (spec.default_count (map (λ (l : Bor RawLabel). l.now) labels.now)) 2 }
{
    let mut has_one = false;
    for label in labels {
        if is_default(label) {
            if has_one {
                return false;
            }
            has_one = true;
        }
    }
    true
}

/// The value of a case, as the type.
fn value_of_case(t: IntType, label: &RawLabel) -> Option<i128>
    ensures { result ≡ value_of_case t label.now }
{
    match label {
        RawLabel::Default => None,
        RawLabel::Case(value) => Some(convert(value_of_constant(value)?, t)),
    }
}

/// Adds a value to a set. Ok: whether the set hasn't had it. Err: no memory was left.
fn insert_value(seen: &mut IndexSet<i128>, value: i128) -> Result<bool, AllocError>
    ensures added { IfOk result (λ is_new. is_new ≡ not (contains int_eq seen.old value)) }
    ensures holds { OnOk result ((y : ℤ) → contains int_eq seen.new y ≡ cond (int_eq value y) true (contains int_eq seen.old y)) }
{
    Ok(seen.insert(value)?)
}

/// Adds the value of a label to a set of values. Ok: whether the set hasn't had it. Err: no memory was left.
fn add_value(seen: &mut IndexSet<i128>, t: IntType, label: &RawLabel) -> Result<bool, AllocError>
    ensures { IfOk result (λ is_new. (rest : List RawLabel) → are_apart (contains int_eq seen.old) (spec.case_values t (label.now ∷ rest)) ≡ (is_new && are_apart (contains int_eq seen.new) (spec.case_values t rest))) }
{
    match value_of_case(t, label) {
        None => Ok(true),
        Some(value) => Ok(insert_value(seen, value)?),
    }
}

/// Whether the values of cases are distinct. Err: no memory was left.
fn are_distinct(alloc: Global, t: IntType, labels: &[&RawLabel]) -> Result<bool, AllocError>
    ensures { IfOk result (λ b. b ≡ spec.are_distinct (spec.case_values t (map (λ (l : Bor RawLabel). l.now) labels.now))) }
{
    let mut seen = IndexSet::new(alloc);
    for label in labels {
        if !add_value(&mut seen, t, label)? {
            return Ok(false);
        }
    }
    Ok(true)
}

/// The labels of a switch on a value of the type.
fn check_labels(
    alloc: Global,
    tables: &Tables<'_>,
    labels: &[&RawLabel],
    t: IntType,
) -> Result<(), Fault>
    requires { AreRight tables.now }
    ensures { Decides (spec.check_labels tables.now.raw.now (scope_of tables.now) (map (λ (l : Bor RawLabel). l.now) labels.now) t) result }
{
    check_each_label(alloc, tables, labels)?;
    if !has_few_defaults(labels) {
        return Err(Fault::Rule(11));
    }
    unless_broken(are_distinct(alloc, promote(t), labels)?, 11)
}

/// The test of a switch, and the labels of all its arms (6.8.4.2).
pub fn check_switch(
    alloc: Global,
    tables: &Tables<'_>,
    test: &RawExpr,
    labels: &[&RawLabel],
) -> Result<(), Fault>
    requires { AreRight tables.now }
    ensures { Decides (spec.check_switch tables.now.raw.now (scope_of tables.now) test.now (map (λ (l : Bor RawLabel). l.now) labels.now)) result }
{
    let x = judge(alloc, tables, test)?;
    match integer_of(&x.shape) {
        None => Err(Fault::Rule(11)),
        Some(t) => check_labels(alloc, tables, labels, t),
    }
}
