//! The items of a program, and the whole program.
ghost use Rattle.std.specs.Prelude.{◌≡◌, ◌++◌, OnOk, IfOk, codes};
ghost use Rattle.c_language.specs.Words as words;
ghost use Rattle.c_language.specs.Layout as spec;
ghost use Rattle.c_language.specs.Layout.{layout};

use crate::heads::{definition_head, prototype_head, static_words};
use crate::margin::Margin;
use crate::names::name_of_struct;
use crate::parts::init;
use crate::statements::body;
use crate::types::declared;
use c_tree::{
    Function, FunctionId, Item, Items, Member, Program, StructDef, StructId, Text, VarId,
};
use std::alloc::{AllocError, Global};

/// The line of an include (ISO C99 6.10.2).
fn include_line(is_stdlib: bool) -> &'static [u8]
    ensures { result.now ≡ spec.line 0 (spec.include_words is_stdlib) }
{
    if is_stdlib {
        b"#include <stdlib.h>\n"
    } else {
        b"#include <stdio.h>\n"
    }
}

/// Appends the line of a member.
#[tactic(auto, using(crate::proofs::Rules::texts_of))]
fn member_line(out: &mut Text, program: &Program, member: &Member) -> Result<(), AllocError>
    ensures { OnOk result (out.new ≡ out.old ++ spec.line 1 (words.declared program.now member.now.shape member.now.name ++ codes ";")) }
{
    out.append(b"    ")?;
    declared(out, program, &member.shape, member.name.bytes())?;
    out.append(b";\n")
}

/// Appends a line for each member.
#[tactic(auto, using(crate::proofs::Rules::loops_of))]
fn members(out: &mut Text, program: &Program, all: &[Member]) -> Result<(), AllocError>
    ensures { OnOk result (out.new ≡ out.old ++ spec.member_lines program.now all.now) }
{
    for member in all {
        member_line(out, program, member)?;
    }
    Ok(())
}

/// Appends the lines of a struct type with its members (ISO C99 6.7.2.1).
#[tactic(auto, using(crate::proofs::Rules::texts_of))]
fn struct_lines(out: &mut Text, program: &Program, structure: &StructDef) -> Result<(), AllocError>
    ensures { OnOk result (out.new ≡ out.old ++ spec.struct_lines program.now structure.now) }
{
    out.append(b"struct ")?;
    out.append(structure.name.bytes())?;
    out.append(b" {\n")?;
    members(out, program, structure.members.as_slice())?;
    out.append(b"};\n")
}

/// Appends the lines of a function with its body (ISO C99 6.9.1).
#[tactic(auto, using(crate::proofs::Rules::texts_of))]
fn function_lines(
    alloc: Global,
    out: &mut Text,
    program: &Program,
    function: &Function,
) -> Result<(), AllocError>
    ensures { OnOk result (out.new ≡ out.old ++ spec.function_lines program.now function.now) }
{
    definition_head(out, program, function)?;
    out.append(b" {\n")?;
    body(
        out,
        program,
        &mut Margin::new(alloc),
        function.body.as_slice(),
    )?;
    out.append(b"}\n")
}

/// Appends the words of a global before its initialiser; a number that no variable has gives no
/// bytes.
#[tactic(auto, using(crate::proofs::Rules::texts_of))]
fn global(out: &mut Text, program: &Program, var: VarId) -> Result<(), AllocError>
    ensures { OnOk result (out.new ≡ out.old ++ spec.global_words program.now var) }
{
    let Some(found) = program.vars.get(var as usize) else {
        return Ok(());
    };
    out.append(static_words(found.is_static))?;
    declared(out, program, &found.shape, found.name.bytes())
}

/// Appends the line of a struct type without its members.
#[tactic(auto, using(crate::proofs::Rules::texts_of))]
fn tag_line(out: &mut Text, program: &Program, id: StructId) -> Result<(), AllocError>
    ensures { OnOk result (out.new ≡ out.old ++ spec.item_lines program.now (Item.Tag id)) }
{
    out.append(b"struct ")?;
    out.append(name_of_struct(program, id))?;
    out.append(b";\n")
}

/// Appends the line of a prototype; a number that no function has gives no line.
#[tactic(auto, using(crate::proofs::Rules::texts_of))]
fn prototype_line(
    out: &mut Text,
    program: &Program,
    function: FunctionId,
    names: &Items<Option<Text>>,
    is_static: bool,
) -> Result<(), AllocError>
    ensures { OnOk result (out.new ≡ out.old ++ spec.item_lines program.now (Item.Prototype function names.now is_static)) }
{
    let Some(found) = program.functions.get(function as usize) else {
        return Ok(());
    };
    prototype_head(out, program, is_static, found, names.as_slice())?;
    out.append(b";\n")
}

/// Appends the lines of an item (ISO C99 6.9).
#[tactic(auto, using(crate::proofs::Rules::texts_of))]
fn item_lines(
    alloc: Global,
    out: &mut Text,
    program: &Program,
    item: &Item,
) -> Result<(), AllocError>
    ensures { OnOk result (out.new ≡ out.old ++ spec.item_lines program.now item.now) }
{
    match item {
        Item::Include { is_stdlib } => out.append(include_line(*is_stdlib)),
        Item::Tag(id) => tag_line(out, program, *id),
        Item::Struct(id) => match program.structs.get(*id as usize) {
            Some(found) => struct_lines(out, program, found),
            None => Ok(()),
        },
        Item::Global(var, value) => {
            global(out, program, *var)?;
            init(out, program, value)?;
            out.append(b";\n")
        }
        Item::Prototype {
            function,
            names,
            is_static,
        } => { prototype_line(out, program, *function, names, *is_static) }
        Item::Define(function) => match program.functions.get(*function as usize) {
            Some(found) => function_lines(alloc, out, program, found),
            None => Ok(()),
        },
    }
}

/// The layout of a program: its one written form.
///
/// Each line is indented by four spaces for each level and ended by a line feed; there are no
/// blank lines and no comments. A name that the program does not have gives no bytes.
///
/// Err: no memory was left.
#[tactic(auto, using(crate::proofs::Rules::loops_of))]
pub fn print(alloc: Global, program: &Program) -> Result<Text, AllocError>
    ensures { IfOk result (λ text. text ≡ layout program.now) }
{
    let mut out = Text::new(alloc);
    for item in program.items.as_slice() {
        item_lines(alloc, &mut out, program, item)?;
    }
    Ok(out)
}
