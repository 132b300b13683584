//! The check of a call of `malloc` (ISO C99 7.20.3.3): whether it breaks a rule.
ghost use Rattle.std.specs.Prelude.{◌≡◌, [], ◌∷◌, IfOk, option_and_then, option_map};
ghost use Rattle.c_tree.specs.declared.raw.expr.RawExpr.{RawExpr};
ghost use Rattle.c_tree.specs.declared.raw.program.RawProgram.{RawProgram};
ghost use Rattle.c_tree.specs.declared.raw.statement.RawTypeName.{RawTypeName};
ghost use Rattle.c_tree.specs.declared.raw.statement.RawAmount.{RawAmount};
ghost use Rattle.c_language.specs.CallRules as rules;
ghost use Rattle.c_language.specs.DeclaredTypes.{written_type};
ghost use Rattle.c_language.specs.ExprTypes as types;
ghost use Rattle.c_language.specs.Scopes as scopes;
ghost use Rattle.c_language.specs.Scopes.{Scope};
ghost use Rattle.c_language.specs.TypeGrammar.{named_type};
ghost use Rattle.c_language.specs.Uses as uses;
ghost use Rattle.c_types_base.specs.Tables.{scope_of, AreRight};
ghost use Rattle.c_types_checks.specs.AllocationChecks as spec;
ghost use Rattle.c_types_checks.specs.Checking.{Decides, all_kept, given_or, then_kept, when_given};
ghost use Rattle.c_types_checks.specs.DeclarationChecks as checks;

use crate::checking::unless_broken;
use crate::completeness_checks::check_complete;
use crate::declaration_checks::check_tags;
use crate::targets::target_type;
use crate::text::named_type;
use c_arith::IntType;
use c_language::ExprType;
use c_tree::{RawAmount, RawExpr, RawSize, RawTarget, RawTypeName};
use c_types_base::expr_type::{
    copy, integer_of, is_integer, is_pointer, same_type, target_of, value_type,
};
use c_types_base::fault::Fault;
use c_types_base::judging::judge;
use c_types_base::names::Meaning;
use c_types_base::tables::Tables;
use std::alloc::{AllocError, Global};

/// Whether a type is that of the objects, where there are any.
fn is_same(u: &ExprType, object: &Option<ExprType>) -> bool
    ensures { result ≡ spec.is_same u.now object.now }
{
    match object {
        None => true,
        Some(object) => same_type(u, object),
    }
}

/// A size, which is that of a complete type, and that of the objects.
fn check_object(tables: &Tables<'_>, object: &Option<ExprType>, u: &ExprType) -> Result<(), Fault>
    ensures { Decides (spec.check_object tables.now.raw.now (scope_of tables.now) object.now u.now) result }
{
    check_complete(tables, u)?;
    unless_broken(is_same(u, object), 20)
}

/// The size of what a type points to, where it is a pointer.
fn check_pointed(
    tables: &Tables<'_>,
    object: &Option<ExprType>,
    u: &Option<ExprType>,
) -> Result<(), Fault>
    ensures { Decides (spec.check_pointed tables.now.raw.now (scope_of tables.now) object.now u.now) result }
{
    match u {
        None => unless_broken(object.is_none(), 20),
        Some(u) => check_object(tables, object, u),
    }
}

/// `sizeof *p`, by what p points to.
fn check_pointee(
    alloc: Global,
    tables: &Tables<'_>,
    object: &Option<ExprType>,
    name: &[u8],
) -> Result<(), Fault>
    ensures { Decides (given_or 1 (spec.check_pointee tables.now.raw.now (scope_of tables.now) object.now) (scopes.meaning_in (scope_of tables.now) name.now)) result }
{
    match tables.names.get(name) {
        None => Err(Fault::Rule(1)),
        Some(Meaning::Function) => unless_broken(object.is_none(), 20),
        Some(Meaning::Variable(_, t)) => {
            check_pointed(tables, object, &target_of(value_type(copy(alloc, t)?)))
        }
    }
}

/// The size of a type that is named.
fn check_named_size(
    alloc: Global,
    tables: &Tables<'_>,
    object: &Option<ExprType>,
    name: &RawTypeName,
) -> Result<(), Fault>
    requires { AreRight tables.now }
    ensures { Decides (when_given (spec.check_object tables.now.raw.now (scope_of tables.now) object.now) (written_type tables.now.raw.now (named_type name.now))) result }
{
    match named_type(alloc, tables, name)? {
        None => Ok(()),
        Some(u) => check_object(tables, object, &u),
    }
}

/// A size, for objects of the type, where it is known.
fn check_size(
    alloc: Global,
    tables: &Tables<'_>,
    object: &Option<ExprType>,
    size: &RawSize,
) -> Result<(), Fault>
    requires { AreRight tables.now }
    ensures { Decides (spec.check_size tables.now.raw.now (scope_of tables.now) object.now size.now) result }
{
    match size {
        RawSize::Type(name) => check_named_size(alloc, tables, object, name),
        RawSize::Pointee(name, _) => check_pointee(alloc, tables, object, name.bytes()),
    }
}

/// A number of objects.
fn check_factor(alloc: Global, tables: &Tables<'_>, count: &RawExpr) -> Result<(), Fault>
    requires { AreRight tables.now }
    ensures { Decides (spec.check_factor tables.now.raw.now (scope_of tables.now) count.now) result }
{
    let x = judge(alloc, tables, count)?;
    unless_broken(is_integer(&x.shape), 20)
}

fn is_char(t: Option<IntType>) -> bool
    ensures { result ≡ rules.is_char t }
{
    match t {
        Some(IntType::Char | IntType::UChar) => true,
        _ => false,
    }
}

/// Bytes alone are allocated for characters.
fn check_bytes(object: &Option<ExprType>) -> Result<(), Fault>
    ensures { (raw : RawProgram) (scope : Scope) (count : RawExpr) → Decides (when_given (spec.check_bytes raw scope (RawAmount.Count count)) object.now) result }
{
    match object {
        None => Ok(()),
        Some(object) => unless_broken(is_char(integer_of(object)), 20),
    }
}

/// A count and a size.
fn check_product(
    alloc: Global,
    tables: &Tables<'_>,
    count: &RawExpr,
    size: &RawSize,
    object: &Option<ExprType>,
) -> Result<(), Fault>
    requires { AreRight tables.now }
    ensures { Decides (then_kept (spec.check_factor tables.now.raw.now (scope_of tables.now) count.now) (spec.check_size tables.now.raw.now (scope_of tables.now) object.now size.now)) result }
{
    check_factor(alloc, tables, count)?;
    check_size(alloc, tables, object, size)
}

/// An amount, for objects of the type, where it is known.
fn check_amount(
    alloc: Global,
    tables: &Tables<'_>,
    amount: &RawAmount,
    object: &Option<ExprType>,
) -> Result<(), Fault>
    requires { AreRight tables.now }
    ensures { Decides (spec.check_amount tables.now.raw.now (scope_of tables.now) amount.now object.now) result }
{
    match amount {
        RawAmount::Size(size) => check_size(alloc, tables, object, size),
        RawAmount::CountSize(count, size) => check_product(alloc, tables, count, size, object),
        RawAmount::SizeCount(size, count) => check_product(alloc, tables, count, size, object),
        RawAmount::Count(count) => {
            check_factor(alloc, tables, count)?;
            check_bytes(object)
        }
    }
}

/// The type of a cast, where it is known. Err: no memory was left.
fn cast_type(
    alloc: Global,
    tables: &Tables<'_>,
    cast: &Option<RawTypeName>,
) -> Result<Option<ExprType>, AllocError>
    requires { AreRight tables.now }
    ensures { IfOk result (λ t. t ≡ spec.cast_type tables.now.raw.now (scope_of tables.now) cast.now) }
{
    match cast {
        None => Ok(None),
        Some(name) => named_type(alloc, tables, name),
    }
}

/// The type of what the address is stored in.
fn check_pointer(
    alloc: Global,
    tables: &Tables<'_>,
    cast: &Option<RawTypeName>,
    t: &ExprType,
) -> Result<(), Fault>
    requires { AreRight tables.now }
    ensures { Decides (spec.check_pointer tables.now.raw.now (scope_of tables.now) cast.now t.now) result }
{
    if !is_pointer(t) {
        return Err(Fault::Rule(20));
    }
    match cast_type(alloc, tables, cast)? {
        None => Ok(()),
        Some(u) => unless_broken(same_type(t, &u), 20),
    }
}

/// The tag of a cast.
fn check_cast_tags(tables: &Tables<'_>, cast: &Option<RawTypeName>) -> Result<(), Fault>
    requires { AreRight tables.now }
    ensures { Decides (all_kept (checks.check_tag tables.now.raw.now (scope_of tables.now)) (uses.tags_if (option_map (λ (t : RawTypeName). t.base) cast.now))) result }
{
    match cast {
        None => Ok(()),
        Some(name) => check_tags(tables, &name.base),
    }
}

/// The tag of a size.
fn check_size_tags(tables: &Tables<'_>, size: &RawSize) -> Result<(), Fault>
    requires { AreRight tables.now }
    ensures { Decides (all_kept (checks.check_tag tables.now.raw.now (scope_of tables.now)) (uses.tags_of_size (size.now ∷ []))) result }
{
    match size {
        RawSize::Type(name) => check_tags(tables, &name.base),
        RawSize::Pointee(_, _) => Ok(()),
    }
}

/// The tags of a cast and of an amount.
fn check_allocated_tags(
    tables: &Tables<'_>,
    cast: &Option<RawTypeName>,
    amount: &RawAmount,
) -> Result<(), Fault>
    requires { AreRight tables.now }
    ensures { Decides (spec.check_tags tables.now.raw.now (scope_of tables.now) cast.now amount.now) result }
{
    check_cast_tags(tables, cast)?;
    match amount {
        RawAmount::Size(size) => check_size_tags(tables, size),
        RawAmount::CountSize(_, size) => check_size_tags(tables, size),
        RawAmount::SizeCount(size, _) => check_size_tags(tables, size),
        RawAmount::Count(_) => Ok(()),
    }
}

/// The type of what the address is stored in, where it is stored and the type is known.
fn check_stored_pointer(
    alloc: Global,
    tables: &Tables<'_>,
    cast: &Option<RawTypeName>,
    t: &Option<ExprType>,
) -> Result<(), Fault>
    requires { AreRight tables.now }
    ensures { Decides (when_given (spec.check_pointer tables.now.raw.now (scope_of tables.now) cast.now) t.now) result }
{
    match t {
        None => Ok(()),
        Some(t) => check_pointer(alloc, tables, cast, t),
    }
}

/// What a type points to, where it is known.
fn object_of(t: Option<ExprType>) -> Option<ExprType>
    ensures { result ≡ option_and_then types.target_of t }
{
    target_of(t?)
}

/// A call of `malloc`.
pub fn check_allocation(
    alloc: Global,
    tables: &Tables<'_>,
    target: &RawTarget,
    cast: &Option<RawTypeName>,
    amount: &RawAmount,
) -> Result<(), Fault>
    requires { AreRight tables.now }
    ensures { Decides (spec.check_allocation tables.now.raw.now (scope_of tables.now) target.now cast.now amount.now) result }
{
    if !tables.has_stdlib {
        return Err(Fault::Rule(24));
    }
    check_allocated_tags(tables, cast, amount)?;
    let t = target_type(alloc, tables, target)?;
    check_stored_pointer(alloc, tables, cast, &t)?;
    check_amount(alloc, tables, amount, &object_of(t))
}
