//! The checks of calls (ISO C99 6.5.2.2): whether one breaks a rule.
ghost use Rattle.std.specs.Prelude.{◌≡◌, ◌||◌, is_some, not};
ghost use Rattle.c_language.specs.DeclaredTypes as types;
ghost use Rattle.c_language.specs.Scopes as scopes;
ghost use Rattle.c_language.specs.ExprRules as exprs;
ghost use Rattle.c_types_base.specs.Tables.{scope_of, AreRight};
ghost use Rattle.c_types_checks.specs.CallChecks as spec;
ghost use Rattle.c_types_checks.specs.Checking.{Decides};
ghost use Rattle.c_types_checks.specs.Stands.{stand_of};

use crate::argument_checks::check_arguments;
use crate::head_checks::is_main;
use crate::library_calls::{
    check_free, check_getchar, check_printf, check_putchar, check_stored_result,
};
use crate::stand::Stand;
use crate::targets::{begins_for, is_no_target, target_type};
use crate::text::{definition_of, result_type};
use c_language::ExprType;
use c_tree::{RawArg, RawHead, RawTarget};
use c_types_base::fault::Fault;
use c_types_base::names::Meaning;
use c_types_base::tables::Tables;
use std::alloc::Global;

/// Whether a name stands for a function.
fn is_function(tables: &Tables<'_>, name: &[u8]) -> bool
    ensures { result ≡ exprs.is_function (scopes.meaning_in (scope_of tables.now) name.now) }
{
    match tables.names.get(name) {
        Some(Meaning::Function) => true,
        Some(Meaning::Variable(_, _)) => false,
        None => false,
    }
}

/// The result of a function of the program.
fn check_result(
    alloc: Global,
    tables: &Tables<'_>,
    target: &RawTarget,
    t: &Option<ExprType>,
    head: &RawHead,
) -> Result<(), Fault>
    requires { AreRight tables.now }
    ensures { Decides (spec.check_result tables.now.raw.now (scope_of tables.now) target.now t.now head.now) result }
{
    if !is_no_target(target) && head.result.is_none() {
        return Err(Fault::Rule(17));
    }
    match result_type(alloc, tables, head)? {
        None => Ok(()),
        Some(given) => check_stored_result(tables, t, given),
    }
}

/// A call of a function with the head.
fn check_against(
    alloc: Global,
    tables: &Tables<'_>,
    target: &RawTarget,
    args: &[RawArg],
    t: &Option<ExprType>,
    head: &RawHead,
) -> Result<(), Fault>
    requires { AreRight tables.now }
    ensures { Decides (spec.check_against tables.now.raw.now (scope_of tables.now) target.now args.now t.now head.now) result }
{
    if args.len() != head.params.len() {
        return Err(Fault::Rule(16));
    }
    check_arguments(alloc, tables, head.params.as_slice(), args)?;
    check_result(alloc, tables, target, t, head)
}

/// A call of a function of the program.
fn check_own(
    alloc: Global,
    tables: &Tables<'_>,
    stand: Stand,
    target: &RawTarget,
    function: &[u8],
    args: &[RawArg],
    t: &Option<ExprType>,
) -> Result<(), Fault>
    requires { AreRight tables.now }
    ensures { Decides (spec.check_own tables.now.raw.now (scope_of tables.now) (stand_of stand) target.now function.now args.now t.now) result }
{
    if !is_function(tables, function) {
        return Err(Fault::Rule(1));
    }
    if begins_for(stand, target) {
        return Err(Fault::Rule(23));
    }
    match definition_of(tables, function) {
        None => Ok(()),
        Some(head) => check_against(alloc, tables, target, args, t, head),
    }
}

/// A call by the name of its function.
fn check_named(
    alloc: Global,
    tables: &Tables<'_>,
    stand: Stand,
    target: &RawTarget,
    function: &[u8],
    args: &[RawArg],
    t: &Option<ExprType>,
) -> Result<(), Fault>
    requires { AreRight tables.now }
    ensures { Decides (spec.check_named tables.now.raw.now (scope_of tables.now) (stand_of stand) target.now function.now args.now t.now) result }
{
    if function == b"free".as_slice() {
        check_free(alloc, tables, target, args)
    } else if function == b"putchar".as_slice() {
        check_putchar(alloc, tables, target, args)
    } else if function == b"getchar".as_slice() {
        check_getchar(alloc, tables, args, t)
    } else if function == b"printf".as_slice() {
        check_printf(alloc, tables, target, args)
    } else {
        check_own(alloc, tables, stand, target, function, args, t)
    }
}

/// Whether a name stands for a function that the text doesn't define.
fn lacks_definition(tables: &Tables<'_>, function: &[u8]) -> bool
    requires { AreRight tables.now }
    ensures { not result ≡ (not (exprs.is_function (scopes.meaning_in (scope_of tables.now) function.now)) || is_some (types.definition_of tables.now.raw.now function.now)) }
{
    is_function(tables, function) && definition_of(tables, function).is_none()
}

/// A call of a function other than `malloc`.
pub fn check_call(
    alloc: Global,
    tables: &Tables<'_>,
    stand: Stand,
    target: &RawTarget,
    function: &[u8],
    args: &[RawArg],
) -> Result<(), Fault>
    requires { AreRight tables.now }
    ensures { Decides (spec.check_call tables.now.raw.now (scope_of tables.now) (stand_of stand) target.now function.now args.now) result }
{
    if is_main(function) {
        return Err(Fault::Rule(5));
    }
    if lacks_definition(tables, function) {
        return Err(Fault::Rule(6));
    }
    let t = target_type(alloc, tables, target)?;
    check_named(alloc, tables, stand, target, function, args, &t)
}
