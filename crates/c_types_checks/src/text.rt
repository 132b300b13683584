//! What the whole text says, by the tables of a place in it.
ghost use Rattle.std.specs.Prelude.{◌≡◌, IfOk, option_copied};
ghost use Rattle.c_language.specs.CallRules.{head_around};
ghost use Rattle.c_language.specs.DeclaredTypes as types;
ghost use Rattle.c_language.specs.TypeGrammar.{named_type};
ghost use Rattle.c_types_base.specs.Tables.{scope_of, AreRight};
ghost use Rattle.c_types_checks.specs.DeclarationChecks as declarations;
ghost use Rattle.c_types_checks.specs.HeadChecks as heads;
ghost use Rattle.c_types_checks.specs.Pointers.{pointers_to};

use c_language::{ExprType, Layer};
use c_tree::{FunctionId, RawHead, RawInit, RawType, RawTypeName, RawVar, StructId};
use c_types_base::declared_types;
use c_types_base::tables::Tables;
use sqlite_items::Items;
use std::alloc::{AllocError, Global};

/// The number of the struct type with a tag.
pub fn struct_id(tables: &Tables<'_>, tag: &[u8]) -> Option<StructId>
    requires { AreRight tables.now }
    ensures { result ≡ types.struct_id tables.now.raw.now tag.now }
{
    tables.defined.struct_id(tag)
}

/// The number of the function with a name.
pub fn function_id(tables: &Tables<'_>, name: &[u8]) -> Option<FunctionId>
    requires { AreRight tables.now }
    ensures { result ≡ types.function_id tables.now.raw.now name.now }
{
    tables.defined.function_id(name)
}

/// The head of the definition of the function with a name.
pub fn definition_of<'a>(tables: &'a Tables<'_>, name: &[u8]) -> Option<&'a RawHead>
    requires { AreRight tables.now }
    ensures { option_copied result ≡ types.definition_of tables.now.raw.now name.now }
{
    tables.defined.definition_of(name)
}

/// The head of the function in which the place stands.
pub fn head_around<'a>(tables: &'a Tables<'_>) -> Option<&'a RawHead>
    requires { AreRight tables.now }
    ensures { option_copied result ≡ head_around tables.now.raw.now (scope_of tables.now) }
{
    match tables.owner {
        None => None,
        Some(id) => tables.defined.head(id),
    }
}

/// Whether a struct type that is complete has the tag.
pub fn is_complete_tag(tables: &Tables<'_>, tag: &[u8]) -> bool
    requires { AreRight tables.now }
    ensures { result ≡ declarations.is_complete_tag tables.now.raw.now (scope_of tables.now) tag.now }
{
    match struct_id(tables, tag) {
        None => false,
        Some(id) => (id as usize) < tables.structs.len(),
    }
}

/// Whether a function that is defined before the place has the name.
pub fn is_defined_before(tables: &Tables<'_>, name: &[u8]) -> bool
    requires { AreRight tables.now }
    ensures { result ≡ heads.is_defined_before tables.now.raw.now (scope_of tables.now) name.now }
{
    match function_id(tables, name) {
        None => false,
        Some(id) => id < tables.functions,
    }
}

/// A type as it is written. Err: no memory was left.
pub fn written_type(
    alloc: Global,
    tables: &Tables<'_>,
    shape: &RawType,
) -> Result<Option<ExprType>, AllocError>
    requires { AreRight tables.now }
    ensures { IfOk result (λ t. t ≡ types.written_type tables.now.raw.now shape.now) }
{
    declared_types::written_type(alloc, &tables.defined, shape)
}

/// The type of a declared variable. Err: no memory was left.
pub fn variable_type(
    alloc: Global,
    tables: &Tables<'_>,
    var: &RawVar,
    init: &RawInit,
) -> Result<Option<ExprType>, AllocError>
    requires { AreRight tables.now }
    ensures { IfOk result (λ t. t ≡ types.variable_type tables.now.raw.now var.now init.now) }
{
    declared_types::variable_type(alloc, &tables.defined, var, init)
}

/// The type of a function's result, void where it has none. Err: no memory was left.
pub fn result_type(
    alloc: Global,
    tables: &Tables<'_>,
    head: &RawHead,
) -> Result<Option<ExprType>, AllocError>
    requires { AreRight tables.now }
    ensures { IfOk result (λ t. t ≡ types.result_type tables.now.raw.now head.now) }
{
    declared_types::result_type(alloc, &tables.defined, head)
}

/// So many pointers upon a type. Err: no memory was left.
fn pointers_to(alloc: Global, t: ExprType, stars: usize) -> Result<ExprType, AllocError>
    ensures { IfOk result (λ p. p ≡ pointers_to stars t) }
{
    let mut layers = Items::new(alloc);
    for _star in 0..stars {
        layers.push(Layer::Pointer)?;
    }
    layers.append(t.layers)?;
    Ok(ExprType {
        layers,
        base: t.base,
    })
}

/// The type that a type name is of. Err: no memory was left.
pub fn named_type(
    alloc: Global,
    tables: &Tables<'_>,
    name: &RawTypeName,
) -> Result<Option<ExprType>, AllocError>
    requires { AreRight tables.now }
    ensures { IfOk result (λ t. t ≡ types.written_type tables.now.raw.now (named_type name.now)) }
{
    match written_type(alloc, tables, &name.base)? {
        None => Ok(None),
        Some(t) => Ok(Some(pointers_to(alloc, t, name.stars)?)),
    }
}
