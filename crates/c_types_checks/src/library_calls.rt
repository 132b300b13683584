//! The checks of calls of the library's functions (ISO C99 7.19, 7.20): whether one breaks a rule.
ghost use Rattle.std.specs.Prelude.{◌==◌, length, map};
ghost use Rattle.c_language.specs.CallRules as rules;
ghost use Rattle.c_language.specs.ExprTypes as types;
ghost use Rattle.c_language.specs.Formats.{format_pieces};
ghost use Rattle.c_language.specs.declared.expr_type.Operand.{Operand};
ghost use Rattle.c_types_base.specs.Tables.{scope_of, AreRight};
ghost use Rattle.c_types_checks.specs.CallChecks as spec;
ghost use Rattle.c_types_checks.specs.Checking.{Decides, given_or, unless_broken};
ghost use Rattle.c_types_checks.specs.Conversions.{conversion_of};

use crate::argument_checks::check_each_converted;
use crate::checking::unless_broken;
use crate::conversions::{Conversion, conversions_of};
use crate::strings::{has_null, literal_bytes};
use crate::targets::is_no_target;
use c_arith::IntType;
use c_language::ExprType;
use c_tree::{RawArg, RawTarget};
use c_types_base::call_args::{format_in, later_args, only_arg};
use c_types_base::expr_type::{integer, is_integer, is_pointer, value_type};
use c_types_base::fault::Fault;
use c_types_base::judging::{a_value, judge};
use c_types_base::operators::is_assignable;
use c_types_base::tables::Tables;
use std::alloc::Global;

/// What is freed: one pointer.
fn check_freed(alloc: Global, tables: &Tables<'_>, args: &[RawArg]) -> Result<(), Fault>
    requires { AreRight tables.now }
    ensures { Decides (spec.check_only tables.now.raw.now (scope_of tables.now) (λ (x : Operand). types.is_pointer (types.value_type x.shape)) args.now) result }
{
    let Some(value) = only_arg(args) else {
        return Err(Fault::Rule(21));
    };
    let operand = judge(alloc, tables, value)?;
    unless_broken(is_pointer(&value_type(operand.shape)), 21)
}

/// What is put: one integer.
fn check_put(alloc: Global, tables: &Tables<'_>, args: &[RawArg]) -> Result<(), Fault>
    requires { AreRight tables.now }
    ensures { Decides (spec.check_only tables.now.raw.now (scope_of tables.now) (λ (x : Operand). types.is_integer x.shape) args.now) result }
{
    let Some(value) = only_arg(args) else {
        return Err(Fault::Rule(21));
    };
    let operand = judge(alloc, tables, value)?;
    unless_broken(is_integer(&operand.shape), 21)
}

/// A call of `free` (7.20.3.2).
pub fn check_free(
    alloc: Global,
    tables: &Tables<'_>,
    target: &RawTarget,
    args: &[RawArg],
) -> Result<(), Fault>
    requires { AreRight tables.now }
    ensures { Decides (spec.check_free tables.now.raw.now (scope_of tables.now) target.now args.now) result }
{
    if !tables.has_stdlib {
        return Err(Fault::Rule(24));
    }
    if !is_no_target(target) {
        return Err(Fault::Rule(17));
    }
    check_freed(alloc, tables, args)
}

/// A call of `putchar` (7.19.7.9).
pub fn check_putchar(
    alloc: Global,
    tables: &Tables<'_>,
    target: &RawTarget,
    args: &[RawArg],
) -> Result<(), Fault>
    requires { AreRight tables.now }
    ensures { Decides (spec.check_putchar tables.now.raw.now (scope_of tables.now) target.now args.now) result }
{
    if !tables.has_stdio {
        return Err(Fault::Rule(24));
    }
    if !is_no_target(target) {
        return Err(Fault::Rule(17));
    }
    check_put(alloc, tables, args)
}

/// A result of a type is stored, where the type of what it is stored in is known.
pub fn check_stored_result(
    tables: &Tables<'_>,
    t: &Option<ExprType>,
    given: ExprType,
) -> Result<(), Fault>
    ensures { Decides (spec.check_stored_result tables.now.raw.now (scope_of tables.now) t.now given) result }
{
    match t {
        None => Ok(()),
        Some(t) => unless_broken(is_assignable(t, a_value(given)), 17),
    }
}

/// A call of `getchar` (7.19.7.6).
pub fn check_getchar(
    alloc: Global,
    tables: &Tables<'_>,
    args: &[RawArg],
    t: &Option<ExprType>,
) -> Result<(), Fault>
    requires { AreRight tables.now }
    ensures { Decides (spec.check_getchar tables.now.raw.now (scope_of tables.now) args.now t.now) result }
{
    if !tables.has_stdio {
        return Err(Fault::Rule(24));
    }
    if args.len() != 0 {
        return Err(Fault::Rule(21));
    }
    check_stored_result(tables, t, integer(alloc, IntType::Int))
}

/// The conversions of a format, and what follows it in a call.
fn check_conversions(
    alloc: Global,
    tables: &Tables<'_>,
    conversions: &[Conversion],
    args: &[RawArg],
) -> Result<(), Fault>
    requires { AreRight tables.now }
    ensures { Decides (unless_broken (length args.now == length conversions.now) 19 (spec.check_each tables.now.raw.now (scope_of tables.now) 19 spec.fits_conversion (map conversion_of conversions.now) args.now)) result }
{
    if args.len() != conversions.len() {
        return Err(Fault::Rule(19));
    }
    check_each_converted(alloc, tables, conversions, args)
}

/// The bytes of a format, and what follows it in a call.
fn check_bytes(
    alloc: Global,
    tables: &Tables<'_>,
    args: &[RawArg],
    format: &[u8],
) -> Result<(), Fault>
    requires { AreRight tables.now }
    ensures { Decides (given_or 19 (spec.check_pieces tables.now.raw.now (scope_of tables.now) args.now) (format_pieces format.now)) result }
{
    match conversions_of(alloc, format)? {
        None => Err(Fault::Rule(19)),
        Some(conversions) => check_conversions(alloc, tables, conversions.as_slice(), args),
    }
}

/// The spelling of a format, and what follows it in a call.
fn check_format(
    alloc: Global,
    tables: &Tables<'_>,
    args: &[RawArg],
    text: &[u8],
) -> Result<(), Fault>
    requires { AreRight tables.now }
    ensures { Decides (spec.check_format tables.now.raw.now (scope_of tables.now) args.now text.now) result }
{
    let format = literal_bytes(alloc, text)?;
    if has_null(format.as_slice()) {
        return Err(Fault::Rule(19));
    }
    check_bytes(alloc, tables, args, format.as_slice())
}

/// What is printed: a format, and a value for each of its conversions.
fn check_printed(alloc: Global, tables: &Tables<'_>, args: &[RawArg]) -> Result<(), Fault>
    requires { AreRight tables.now }
    ensures { Decides (given_or 19 (spec.check_format tables.now.raw.now (scope_of tables.now) (rules.later_args args.now)) (rules.format_in args.now)) result }
{
    match format_in(args) {
        None => Err(Fault::Rule(19)),
        Some(text) => check_format(alloc, tables, later_args(args), text.bytes()),
    }
}

/// A call of `printf` (7.19.6.3).
pub fn check_printf(
    alloc: Global,
    tables: &Tables<'_>,
    target: &RawTarget,
    args: &[RawArg],
) -> Result<(), Fault>
    requires { AreRight tables.now }
    ensures { Decides (spec.check_printf tables.now.raw.now (scope_of tables.now) target.now args.now) result }
{
    if !tables.has_stdio {
        return Err(Fault::Rule(24));
    }
    if !is_no_target(target) {
        return Err(Fault::Rule(17));
    }
    check_printed(alloc, tables, args)
}
