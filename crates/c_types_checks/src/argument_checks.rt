//! The checks of arguments (ISO C99 6.5.2.2): whether one breaks a rule.
ghost use Rattle.std.specs.Prelude.{◌≡◌, [], ◌∷◌, length, map};
ghost use Rattle.c_tree.specs.declared.raw.program.RawParam.{RawParam};
ghost use Rattle.c_arith.specs.IntType.{width, promote};
ghost use Rattle.c_language.specs.CallRules as rules;
ghost use Rattle.c_language.specs.DeclaredTypes as types;
ghost use Rattle.c_types_base.specs.Tables.{scope_of, AreRight};
ghost use Rattle.c_types_checks.specs.CallChecks as spec;
ghost use Rattle.c_types_checks.specs.Checking.{Decides};
ghost use Rattle.c_types_checks.specs.Conversions.{conversion_of};

use crate::checking::unless_broken;
use crate::conversions::{Conversion, width_of};
use crate::text::written_type;
use c_arith::IntType;
use c_tree::{RawArg, RawParam};
use c_types_base::expr_type::integer_of;
use c_types_base::fault::Fault;
use c_types_base::judging::judge;
use c_types_base::operators::is_assignable;
use c_types_base::tables::Tables;
use std::alloc::Global;

/// An argument for a parameter.
fn check_argument(
    alloc: Global,
    tables: &Tables<'_>,
    parameter: &RawParam,
    argument: &RawArg,
) -> Result<(), Fault>
    requires { AreRight tables.now }
    ensures { Decides (spec.check_each tables.now.raw.now (scope_of tables.now) 16 spec.fits_parameter (types.written_type tables.now.raw.now parameter.now.shape ∷ []) (argument.now ∷ [])) result }
{
    let RawArg::Value(value) = argument else {
        return Err(Fault::Rule(16));
    };
    let x = judge(alloc, tables, value)?;
    match written_type(alloc, tables, &parameter.shape)? {
        None => Ok(()),
        Some(t) => unless_broken(is_assignable(&t, x), 16),
    }
}

/// One argument for each parameter.
pub fn check_arguments(
    alloc: Global,
    tables: &Tables<'_>,
    params: &[RawParam],
    args: &[RawArg],
) -> Result<(), Fault>
    requires right { AreRight tables.now }
    requires count { length args.now ≡ length params.now }
    ensures { Decides (spec.check_each tables.now.raw.now (scope_of tables.now) 16 spec.fits_parameter (map (λ (p : RawParam). types.written_type tables.now.raw.now p.shape) params.now) args.now) result }
{
    for i in 0..params.len() {
        check_argument(alloc, tables, &params[i], &args[i])?;
    }
    Ok(())
}

/// How many bits a value of the type has once it is promoted.
fn promoted_width(t: IntType) -> u32
    ensures { result ≡ width (promote t) }
{
    match t {
        IntType::Long | IntType::ULong => 64,
        _ => 32,
    }
}

/// Whether an integer has so many bits once it is promoted.
fn has_width(bits: u32, t: Option<IntType>) -> bool
    ensures { result ≡ rules.has_width bits t }
{
    match t {
        None => false,
        Some(t) => promoted_width(t) == bits,
    }
}

/// An argument for a conversion.
fn check_converted(
    alloc: Global,
    tables: &Tables<'_>,
    conversion: Conversion,
    argument: &RawArg,
) -> Result<(), Fault>
    requires { AreRight tables.now }
    ensures { Decides (spec.check_each tables.now.raw.now (scope_of tables.now) 19 spec.fits_conversion (conversion_of conversion ∷ []) (argument.now ∷ [])) result }
{
    let RawArg::Value(value) = argument else {
        return Err(Fault::Rule(19));
    };
    let x = judge(alloc, tables, value)?;
    unless_broken(has_width(width_of(conversion), integer_of(&x.shape)), 19)
}

/// One argument for each conversion.
pub fn check_each_converted(
    alloc: Global,
    tables: &Tables<'_>,
    conversions: &[Conversion],
    args: &[RawArg],
) -> Result<(), Fault>
    requires right { AreRight tables.now }
    requires count { length args.now ≡ length conversions.now }
    ensures { Decides (spec.check_each tables.now.raw.now (scope_of tables.now) 19 spec.fits_conversion (map conversion_of conversions.now) args.now) result }
{
    for i in 0..conversions.len() {
        check_converted(alloc, tables, conversions[i], &args[i])?;
    }
    Ok(())
}
