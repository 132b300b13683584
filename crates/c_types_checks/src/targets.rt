//! What the result of a call is stored in: its type, or a rule that is broken.
ghost use Rattle.std.specs.Prelude.{◌≡◌};
ghost use Rattle.c_tree.specs.declared.raw.statement.RawTarget.{RawTarget};
ghost use Rattle.c_types_base.specs.Tables.{scope_of, AreRight};
ghost use Rattle.c_types_checks.specs.CallChecks as spec;
ghost use Rattle.c_types_checks.specs.Stands.{stand_of};
ghost use Rattle.c_types_checks.specs.Targets.{ComesTo};

use crate::checking::is_target;
use crate::stand::Stand;
use crate::text::variable_type;
use c_language::ExprType;
use c_tree::{RawExpr, RawInit, RawTarget, RawVar};
use c_types_base::expr_type::is_scalar;
use c_types_base::fault::Fault;
use c_types_base::judging::judge;
use c_types_base::tables::Tables;
use std::alloc::Global;

/// Whether nothing is stored.
pub fn is_no_target(target: &RawTarget) -> bool
    ensures { result ≡ spec.is_no_target target.now }
{
    match target {
        RawTarget::None => true,
        RawTarget::Place(_) | RawTarget::Declared(_) => false,
    }
}

/// Whether the first part of a for declares the target.
pub fn begins_for(stand: Stand, target: &RawTarget) -> bool
    ensures { result ≡ spec.begins_for (stand_of stand) target.now }
{
    match (stand, target) {
        (Stand::InFor, RawTarget::Declared(_)) => true,
        (Stand::InFor, RawTarget::None) => false,
        (Stand::InFor, RawTarget::Place(_)) => false,
        (Stand::InFile { .. }, _) => false,
        (Stand::InBlock, _) => false,
        (Stand::InArm, _) => false,
    }
}

/// The type of a place that is stored in.
fn type_of_place(
    alloc: Global,
    tables: &Tables<'_>,
    place: &RawExpr,
) -> Result<Option<ExprType>, Fault>
    requires { AreRight tables.now }
    ensures { ComesTo (spec.check_target tables.now.raw.now (scope_of tables.now) (RawTarget.Place place.now)) result }
{
    let x = judge(alloc, tables, place)?;
    if !is_target(tables, &x) {
        return Err(Fault::Rule(14));
    }
    Ok(Some(x.shape))
}

/// The type of a variable that is declared for a result.
fn type_of_declared(
    alloc: Global,
    tables: &Tables<'_>,
    var: &RawVar,
) -> Result<Option<ExprType>, Fault>
    requires { AreRight tables.now }
    ensures { ComesTo (spec.check_target tables.now.raw.now (scope_of tables.now) (RawTarget.Declared var.now)) result }
{
    let Some(t) = variable_type(alloc, tables, var, &RawInit::None)? else {
        return Ok(None);
    };
    if !is_scalar(&t) {
        return Err(Fault::Rule(22));
    }
    Ok(Some(t))
}

/// The type of what a result is stored in, where it is stored and the type is known. Err: a rule that is broken, or no
/// memory was left.
pub fn target_type(
    alloc: Global,
    tables: &Tables<'_>,
    target: &RawTarget,
) -> Result<Option<ExprType>, Fault>
    requires { AreRight tables.now }
    ensures { ComesTo (spec.check_target tables.now.raw.now (scope_of tables.now) target.now) result }
{
    match target {
        RawTarget::None => Ok(None),
        RawTarget::Place(place) => type_of_place(alloc, tables, place),
        RawTarget::Declared(var) => type_of_declared(alloc, tables, var),
    }
}
