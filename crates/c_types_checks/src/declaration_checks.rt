//! The checks of declared variables, members and struct types (ISO C99 6.7): whether one breaks a rule.
ghost use Rattle.std.specs.Prelude.{◌≡◌, [], ◌∷◌, List, bytes_eq, is_some};
ghost use Rattle.std.specs.List.{list_any};
ghost use Rattle.c_tree.specs.declared.raw.program.RawInit.TheVariants as begin;
ghost use Rattle.c_tree.specs.declared.raw.program.RawMember.{RawMember};
ghost use Rattle.c_language.specs.DeclaredTypes as types;
ghost use Rattle.c_language.specs.Phrases as phrases;
ghost use Rattle.c_language.specs.Uses as uses;
ghost use Rattle.c_types_base.specs.Tables.{scope_of, AreRight};
ghost use Rattle.c_types_checks.specs.Checking.{Decides, all_kept, when_given};
ghost use Rattle.c_types_checks.specs.DeclarationChecks as spec;
ghost use Rattle.c_types_checks.specs.Stands.{stand_of};

use crate::checking::{check_expr, unless_broken};
use crate::completeness_checks::{check_complete, check_tag};
use crate::stand::Stand;
use crate::text::{is_complete_tag, variable_type, written_type};
use c_language::ExprType;
use c_tree::{RawExpr, RawInit, RawLength, RawMember, RawType, RawVar};
use c_types_base::constant::value_of_constant;
use c_types_base::fault::Fault;
use c_types_base::tables::Tables;
use std::alloc::Global;

/// Whether an array can have a length.
fn is_positive(length: i128) -> bool
    ensures { result ≡ is_some (types.positive length) }
{
    0 < length
}

/// The length of an array (6.7.5.2).
fn check_length(alloc: Global, tables: &Tables<'_>, length: &RawExpr) -> Result<(), Fault>
    requires { AreRight tables.now }
    ensures { Decides (spec.check_length tables.now.raw.now (scope_of tables.now) length.now) result }
{
    check_expr(alloc, tables, length)?;
    match value_of_constant(length) {
        None => Err(Fault::Rule(10)),
        Some(value) => unless_broken(is_positive(value), 9),
    }
}

/// The length of an array, where it is written.
fn check_written(alloc: Global, tables: &Tables<'_>, length: &RawLength) -> Result<(), Fault>
    requires { AreRight tables.now }
    ensures { Decides (all_kept (spec.check_length tables.now.raw.now (scope_of tables.now)) (uses.written_lengths length.now)) result }
{
    match length {
        RawLength::Listed => Ok(()),
        RawLength::Written(e) => {
            check_length(alloc, tables, e)?;
            Ok(())
        }
    }
}

/// The lengths that a type is written with.
#[tactic(auto, using(crate::proofs::UseLemmas::uses_of_types))]
fn check_lengths(alloc: Global, tables: &Tables<'_>, shape: &RawType) -> Result<(), Fault>
    requires { AreRight tables.now }
    ensures { Decides (all_kept (spec.check_length tables.now.raw.now (scope_of tables.now)) (uses.lengths_in shape.now)) result }
{
    match shape {
        RawType::Integer(_) => Ok(()),
        RawType::PointerTo(target) => check_lengths(alloc, tables, target.get()),
        RawType::Array(element, length) => {
            check_written(alloc, tables, length)?;
            check_lengths(alloc, tables, element.get())
        }
        RawType::Struct(_) => Ok(()),
    }
}

/// One tag that is named.
fn check_one_tag(tables: &Tables<'_>, tag: &[u8]) -> Result<(), Fault>
    requires { AreRight tables.now }
    ensures { Decides (all_kept (spec.check_tag tables.now.raw.now (scope_of tables.now)) (tag.now ∷ [])) result }
{
    check_tag(tables, tag)?;
    Ok(())
}

/// The tag that a type names.
#[tactic(auto, using(crate::proofs::UseLemmas::uses_of_types))]
pub fn check_tags(tables: &Tables<'_>, shape: &RawType) -> Result<(), Fault>
    requires { AreRight tables.now }
    ensures { Decides (all_kept (spec.check_tag tables.now.raw.now (scope_of tables.now)) (uses.tags_in shape.now)) result }
{
    match shape {
        RawType::Integer(_) => Ok(()),
        RawType::PointerTo(target) => check_tags(tables, target.get()),
        RawType::Array(element, _) => check_tags(tables, element.get()),
        RawType::Struct(tag) => check_one_tag(tables, tag.bytes()),
    }
}

/// A type as it is written.
fn check_type(alloc: Global, tables: &Tables<'_>, shape: &RawType) -> Result<(), Fault>
    requires { AreRight tables.now }
    ensures { Decides (spec.check_type tables.now.raw.now (scope_of tables.now) shape.now) result }
{
    check_lengths(alloc, tables, shape)?;
    check_tags(tables, shape)
}

/// An object of the type is made, where there is a type.
fn check_made(tables: &Tables<'_>, t: &Option<ExprType>) -> Result<(), Fault>
    ensures { Decides (when_given (spec.check_complete tables.now.raw.now (scope_of tables.now)) t.now) result }
{
    match t {
        None => Ok(()),
        Some(t) => check_complete(tables, t),
    }
}

/// The definition of a struct type (6.7.2.3).
pub fn check_struct(tables: &Tables<'_>, tag: &[u8]) -> Result<(), Fault>
    requires { AreRight tables.now }
    ensures { Decides (spec.check_struct tables.now.raw.now (scope_of tables.now) tag.now) result }
{
    if is_complete_tag(tables, tag) {
        return Err(Fault::Rule(7));
    }
    unless_broken(!is_library_macro(tag), 4)
}

/// A member of a struct type (6.7.2.1), where it is known whether one before it has its name.
pub fn check_member(
    alloc: Global,
    tables: &Tables<'_>,
    is_named: bool,
    member: &RawMember,
) -> Result<(), Fault>
    requires { AreRight tables.now }
    ensures { (before : List RawMember) → is_named ≡ list_any (λ (other : RawMember). bytes_eq other.name member.now.name) before → Decides (spec.check_member tables.now.raw.now (scope_of tables.now) before member.now) result }
{
    check_type(alloc, tables, &member.shape)?;
    check_made(tables, &written_type(alloc, tables, &member.shape)?)?;
    if is_named {
        return Err(Fault::Rule(8));
    }
    unless_broken(!is_library_macro(member.name.bytes()), 4)
}

/// Whether a name is that of a macro of the library, which is neither a tag nor a member (7.1.2).
fn is_library_macro(name: &[u8]) -> bool
    ensures { result ≡ uses.is_library_macro name.now }
{
    name == b"NULL".as_slice() || name == b"EOF".as_slice()
}

/// Whether a name is one of the library's that a program can use (7.1.3).
pub fn is_library_name(name: &[u8]) -> bool
    ensures { result ≡ uses.is_library_name name.now }
{
    name == b"malloc".as_slice()
        || name == b"NULL".as_slice()
        || name == b"EOF".as_slice()
        || name == b"getchar".as_slice()
        || name == b"putchar".as_slice()
        || name == b"printf".as_slice()
        || name == b"free".as_slice()
}

/// The name of a variable that is declared (6.2.1, 6.7).
fn check_fresh(tables: &Tables<'_>, name: &[u8]) -> Result<(), Fault>
    ensures { Decides (spec.check_fresh tables.now.raw.now (scope_of tables.now) name.now) result }
{
    if tables.names.get_behind(tables.outer, name).is_some() {
        return Err(Fault::Rule(2));
    }
    if tables.names.get(name).is_some() {
        return Err(Fault::Rule(3));
    }
    unless_broken(!is_library_name(name), 4)
}

fn stands_in_arm(stand: Stand) -> bool
    ensures { result ≡ spec.stands_in_arm (stand_of stand) }
{
    match stand {
        Stand::InArm => true,
        Stand::InFile { .. } => false,
        Stand::InBlock => false,
        Stand::InFor => false,
    }
}

/// A variable that is declared.
pub fn check_declared(
    alloc: Global,
    tables: &Tables<'_>,
    stand: Stand,
    var: &RawVar,
    init: &RawInit,
) -> Result<(), Fault>
    requires { AreRight tables.now }
    ensures { Decides (spec.check_declared tables.now.raw.now (scope_of tables.now) (stand_of stand) var.now init.now) result }
{
    check_type(alloc, tables, &var.shape)?;
    check_fresh(tables, var.name.bytes())?;
    check_made(tables, &variable_type(alloc, tables, var, init)?)?;
    unless_broken(!stands_in_arm(stand), 23)
}

/// A parameter of a definition, as a variable that is declared.
pub fn check_declared_parameter(
    alloc: Global,
    tables: &Tables<'_>,
    name: &[u8],
    shape: &RawType,
) -> Result<(), Fault>
    requires { AreRight tables.now }
    ensures { Decides (spec.check_declared tables.now.raw.now (scope_of tables.now) phrases.InHead (record { name = name.now; shape = shape.now }) begin.None) result }
{
    check_type(alloc, tables, shape)?;
    check_fresh(tables, name)?;
    check_made(tables, &written_type(alloc, tables, shape)?)?;
    Ok(())
}
