//! The walk along the items of a text (ISO C99 6.9), in text order.
ghost use Rattle.std.specs.Prelude.{◌≡◌, ◌+◌, List, [], ◌∷◌, ◌++◌, None, Some, OnOk, IfOk, slice_get, vec_len};
ghost use Rattle.c_tree.specs.declared.raw.program.RawItem.TheVariants as item_of;
ghost use Rattle.c_tree.specs.declared.raw.program.RawMember.{RawMember};
ghost use Rattle.c_tree.specs.declared.raw.program.RawParam.{RawParam};
ghost use Rattle.c_language.specs.DeclaredTypes as types;
ghost use Rattle.c_language.specs.Phrases as phrases;
ghost use Rattle.c_language.specs.Scopes as scopes;
ghost use Rattle.c_types_base.specs.Numbering.{Numbers};
ghost use Rattle.c_types_base.specs.Tables.{scope_of, AreRight};
ghost use Rattle.c_types_base.specs.Stretches.{of_parameter, of_parameters, of_function, of_item, of_items};
ghost use Rattle.c_types_rules.specs.Walks.{AnswersOf, Walks};
ghost use Rattle.c_types_base.specs.Listing as spec;
ghost use Rattle.c_types_base.specs.Listing.{HasMembers, HasPlace};

use crate::steps::{declaration, declare, on_line};
use crate::walk::statements;
use crate::walk_fault::WalkFault;
use c_tree::{RawHead, RawItem, RawMember, RawParam, RawStatement};
use c_types_base::listing::list_member;
use c_types_base::names::StructMembers;
use c_types_base::numbering::Numbering;
use c_types_base::tables::Tables;
use c_types_checks::completeness_checks::check_tag;
use c_types_checks::declaration_checks::{check_declared_parameter, check_member, check_struct};
use c_types_checks::head_checks::{check_definition, check_end, check_parameter, check_prototype};
use c_types_checks::stand::Stand;
use indexmap::IndexMap;
use std::alloc::{AllocError, Global};

/// The members of a struct type, with their types.
fn members<'a>(
    alloc: Global,
    tables: &Tables<'_>,
    list: &'a [RawMember],
) -> Result<StructMembers<'a>, WalkFault>
    requires { AreRight tables.now }
    ensures answers { AnswersOf tables.now.raw.now (phrases.member_phrases (scope_of tables.now) [] list.now) result }
    ensures listed { IfOk result (HasMembers tables.now.raw.now list.now) }
{
    let mut listed = StructMembers {
        entries: IndexMap::new(alloc),
    };
    for member in list {
        let is_named = listed.get(member.name.bytes()).is_some();
        on_line(member.line, check_member(alloc, tables, is_named, member))?;
        list_member(alloc, tables, &mut listed, member)?;
    }
    Ok(listed)
}

/// The definition of a struct type (6.7.2.1), which is the next that the text defines.
fn define_struct<'a>(
    alloc: Global,
    tables: &mut Tables<'a>,
    line: u32,
    tag: &[u8],
    list: &'a [RawMember],
) -> Result<(), WalkFault>
    requires right { AreRight tables.old }
    requires place { slice_get (types.defined_structs tables.old.raw.now) (vec_len tables.old.structs) ≡ Some (record { tag = tag.now; members = list.now }) }
    ensures { Walks (of_item (item_of.Struct line tag.now list.now)) tables.old tables.new result }
{
    on_line(line, check_struct(tables, tag))?;
    let listed = members(alloc, tables, list)?;
    tables.complete(listed)?;
    Ok(())
}

/// Whether a name of a parameter is among those that were given.
fn is_given(names: &Numbering<'_>, parameter: &RawParam) -> bool
    ensures { (before : List RawParam) → Numbers (spec.names_given before) names.now → spec.IsGiven before parameter.now result }
{
    match &parameter.name {
        None => false,
        Some(name) => names.get(name.bytes()).is_some(),
    }
}

/// Gives the name of a parameter, where it has one. Err: no memory was left.
fn give_name<'a>(names: &mut Numbering<'a>, parameter: &'a RawParam) -> Result<(), AllocError>
    ensures { OnOk result ((before : List RawParam) → Numbers (spec.names_given before) names.old → Numbers (spec.names_given (before ++ parameter.now ∷ [])) names.new) }
{
    match &parameter.name {
        None => Ok(()),
        Some(name) => {
            names.add(name.bytes())?;
            Ok(())
        }
    }
}

/// The parameters of a prototype.
fn taken(alloc: Global, tables: &Tables<'_>, list: &[RawParam]) -> Result<(), WalkFault>
    requires { AreRight tables.now }
    ensures { AnswersOf tables.now.raw.now (phrases.taken_phrases (scope_of tables.now) [] list.now) result }
{
    let mut names = Numbering::new(alloc);
    for parameter in list {
        let is_named = is_given(&names, parameter);
        on_line(parameter.line, check_parameter(tables, is_named, parameter))?;
        give_name(&mut names, parameter)?;
    }
    Ok(())
}

/// A prototype (6.7.5.3).
fn prototype<'a>(
    alloc: Global,
    tables: &mut Tables<'a>,
    line: u32,
    head: &'a RawHead,
) -> Result<(), WalkFault>
    requires right { AreRight tables.old }
    requires outside { tables.old.outer ≡ 0 }
    ensures { Walks (of_item (item_of.Prototype line head.now)) tables.old tables.new result }
{
    on_line(line, check_prototype(alloc, tables, head))?;
    taken(alloc, tables, head.params.as_slice())?;
    tables.declare_function(head.name.bytes())?;
    Ok(())
}

/// A parameter of a definition, which is a variable where it has a name.
fn parameter<'a>(
    alloc: Global,
    tables: &mut Tables<'a>,
    parameter: &'a RawParam,
) -> Result<(), WalkFault>
    requires { AreRight tables.old }
    ensures { Walks (of_parameter parameter.now) tables.old tables.new result }
{
    match &parameter.name {
        None => Ok(()),
        Some(name) => {
            let name = name.bytes();
            on_line(
                parameter.line,
                check_declared_parameter(alloc, tables, name, &parameter.shape),
            )?;
            declare(alloc, tables, name, 0, &parameter.shape)?;
            Ok(())
        }
    }
}

/// The parameters of a definition.
fn parameters<'a>(
    alloc: Global,
    tables: &mut Tables<'a>,
    list: &'a [RawParam],
) -> Result<(), WalkFault>
    requires { AreRight tables.old }
    ensures { Walks (of_parameters list.now) tables.old tables.new result }
{
    for child in list {
        parameter(alloc, tables, child)?;
    }
    Ok(())
}

/// The parameters and the body of a function, which are one block (6.2.1, paragraph 4).
fn function<'a>(
    alloc: Global,
    tables: &mut Tables<'a>,
    head: &'a RawHead,
    body: &'a [RawStatement],
) -> Result<(), WalkFault>
    requires { AreRight tables.old }
    ensures { Walks (of_function head.now body.now) tables.old tables.new result }
{
    let outside = tables.before();
    tables.enter()?;
    parameters(alloc, tables, head.params.as_slice())?;
    statements(alloc, tables, Stand::InBlock, body)?;
    tables.close(outside);
    Ok(())
}

/// The definition of a function (6.9.1).
fn define<'a>(
    alloc: Global,
    tables: &mut Tables<'a>,
    line: u32,
    head: &'a RawHead,
    body: &'a [RawStatement],
) -> Result<(), WalkFault>
    requires right { AreRight tables.old }
    requires outside { tables.old.outer ≡ 0 }
    ensures { Walks (of_item (item_of.Define line head.now body.now)) tables.old tables.new result }
{
    on_line(line, check_definition(tables, head))?;
    tables.declare_function(head.name.bytes())?;
    function(alloc, tables, head, body)?;
    on_line(line, check_end(head, body))
}

/// An item.
fn item<'a>(alloc: Global, tables: &mut Tables<'a>, item: &'a RawItem) -> Result<(), WalkFault>
    requires right { AreRight tables.old }
    requires outside { tables.old.outer ≡ 0 }
    requires place { HasPlace tables.old.raw.now (vec_len tables.old.structs) item.now }
    ensures { Walks (of_item item.now) tables.old tables.new result }
{
    match item {
        RawItem::Include { .. } => Ok(()),
        RawItem::Tag { line, name } => on_line(*line, check_tag(tables, name.bytes())),
        RawItem::Struct {
            line,
            name,
            members,
        } => define_struct(alloc, tables, *line, name.bytes(), members.as_slice()),
        RawItem::Global {
            line,
            var,
            init,
            is_static,
        } => {
            let stand = Stand::InFile {
                is_static: *is_static,
            };
            declaration(alloc, tables, *line, stand, var, init)
        }
        RawItem::Prototype { line, head } => prototype(alloc, tables, *line, head),
        RawItem::Define { line, head, body } => {
            define(alloc, tables, *line, head, body.as_slice())
        }
    }
}

/// The items of a text.
///
/// Err: the first broken rule and its line; or no memory, or no number, was left.
pub fn items<'a>(
    alloc: Global,
    tables: &mut Tables<'a>,
    list: &'a [RawItem],
) -> Result<(), WalkFault>
    requires right { AreRight tables.old }
    requires whole { list.now ≡ tables.old.raw.now.items }
    requires start { scope_of tables.old ≡ scopes.outset }
    ensures { Walks (of_items list.now) tables.old tables.new result }
{
    for child in list {
        item(alloc, tables, child)?;
    }
    Ok(())
}
