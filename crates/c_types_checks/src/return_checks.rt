//! The check of a return (ISO C99 6.8.6.4): whether it breaks a rule.
ghost use Rattle.c_types_base.specs.Tables.{scope_of, AreRight};
ghost use Rattle.c_types_checks.specs.Checking as spec;
ghost use Rattle.c_types_checks.specs.Checking.{Decides};

use crate::checking::unless_broken;
use crate::text::{head_around, result_type};
use c_language::Operand;
use c_tree::{RawExpr, RawHead};
use c_types_base::fault::Fault;
use c_types_base::judging::judge;
use c_types_base::operators::is_assignable;
use c_types_base::tables::Tables;
use std::alloc::Global;

/// A value that is returned by a function.
fn check_value(alloc: Global, tables: &Tables<'_>, x: Operand, head: &RawHead) -> Result<(), Fault>
    requires { AreRight tables.now }
    ensures { Decides (spec.check_value tables.now.raw.now (scope_of tables.now) x head.now) result }
{
    if head.result.is_none() {
        return Err(Fault::Rule(18));
    }
    match result_type(alloc, tables, head)? {
        None => Ok(()),
        Some(t) => unless_broken(is_assignable(&t, x), 18),
    }
}

/// A return with a value.
fn check_returned(alloc: Global, tables: &Tables<'_>, value: &RawExpr) -> Result<(), Fault>
    requires { AreRight tables.now }
    ensures { Decides (spec.check_return tables.now.raw.now (scope_of tables.now) (Some value.now)) result }
{
    let x = judge(alloc, tables, value)?;
    match head_around(tables) {
        None => Ok(()),
        Some(head) => check_value(alloc, tables, x, head),
    }
}

/// A return without a value.
fn check_left(tables: &Tables<'_>) -> Result<(), Fault>
    requires { AreRight tables.now }
    ensures { Decides (spec.check_return tables.now.raw.now (scope_of tables.now) None) result }
{
    match head_around(tables) {
        None => Ok(()),
        Some(head) => unless_broken(head.result.is_none(), 18),
    }
}

/// A return, in the function around it.
pub fn check_return(
    alloc: Global,
    tables: &Tables<'_>,
    value: &Option<RawExpr>,
) -> Result<(), Fault>
    requires { AreRight tables.now }
    ensures { Decides (spec.check_return tables.now.raw.now (scope_of tables.now) value.now) result }
{
    match value {
        None => check_left(tables),
        Some(value) => check_returned(alloc, tables, value),
    }
}
