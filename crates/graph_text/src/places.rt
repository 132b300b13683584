//! Locations: a root, then the steps to a part of it.
ghost use Rattle.std.specs.Prelude.{◌≡◌, ◌++◌, IfOk, OnOk};
ghost use Rattle.graph_text.specs.Places as spec;
ghost use Rattle.graph_text.specs.Rows.{line_at, elements_at};

use crate::names::{append_number, member_name};
use crate::rows::Row;
use c_language::{Base, ExprType};
use c_tree::{MemberId, Program, StatementId, StructId, Var};
use c_types_base::expr_type::{copy, void};
use dep_model::{Location, Part, Root, Text};
use std::alloc::{AllocError, Global};
use tree_types::{member_type, pointee, variable_type};

/// The line of a statement by its number.
pub(crate) fn line_of(rows: &[Row], statement: StatementId) -> u32
    ensures { result ≡ line_at rows.now statement }
{
    match rows.get(statement as usize) {
        Some(row) => row.line,
        None => 0,
    }
}

// The number of an object's struct type.
fn struct_of(base: Base) -> StructId
    ensures { result ≡ spec.struct_of base }
{
    match base {
        Base::Struct(s) => s,
        Base::Integer(_) | Base::Void => 0,
    }
}

fn append_part(p: &Program, shape: &ExprType, part: Part, text: &mut Text) -> Result<(), AllocError>
    ensures { OnOk result (text.new ≡ text.old ++ spec.part_words p.now shape.now part) }
{
    match part {
        Part::Member(index) => {
            text.append(b".")?;
            let owner = struct_of(shape.base);
            text.append(member_name(p, MemberId { owner, index }))?;
            Ok(())
        }
        Part::Element => text.append(b"[]"),
    }
}

fn part_type(
    alloc: Global,
    p: &Program,
    shape: ExprType,
    part: Part,
) -> Result<ExprType, AllocError>
    ensures { IfOk result (λ t. t ≡ spec.part_type p.now shape part) }
{
    match part {
        Part::Member(index) => {
            let owner = struct_of(shape.base);
            member_type(alloc, p, MemberId { owner, index })
        }
        Part::Element => Ok(pointee(alloc, shape)),
    }
}

// Appends the steps to a part of an object of this type.
fn append_path(
    alloc: Global,
    p: &Program,
    shape: ExprType,
    path: &[Part],
    text: &mut Text,
) -> Result<(), AllocError>
    ensures { OnOk result (text.new ≡ text.old ++ spec.path_words p.now shape path.now) }
{
    let mut reached = shape;
    for part in path {
        append_part(p, &reached, *part, text)?;
        reached = part_type(alloc, p, reached, *part)?;
    }
    Ok(())
}

fn append_variable(alloc: Global, var: &Var, text: &mut Text) -> Result<(), AllocError>
    ensures { OnOk result (text.new ≡ text.old ++ spec.var_words var.now) }
{
    text.append(var.name.bytes())?;
    if var.owner.is_some() {
        text.append(b"@")?;
        append_number(alloc, u64::from(var.line), text)?;
    }
    Ok(())
}

fn append_root(
    alloc: Global,
    p: &Program,
    rows: &[Row],
    root: Root,
    text: &mut Text,
) -> Result<(), AllocError>
    ensures { OnOk result (text.new ≡ text.old ++ spec.root_words p.now rows.now root) }
{
    match root {
        Root::Input => text.append(b"input"),
        Root::Variable(x) => match p.vars.get(x as usize) {
            Some(var) => append_variable(alloc, var, text),
            None => Ok(()),
        },
        Root::Site(statement) => {
            text.append(b"malloc@")?;
            append_number(alloc, u64::from(line_of(rows, statement)), text)
        }
        Root::Result(_) => text.append(b"result"),
    }
}

// The type of the elements that a statement allocates.
fn elements_of(alloc: Global, rows: &[Row], statement: StatementId) -> Result<ExprType, AllocError>
    ensures { IfOk result (λ t. t ≡ elements_at rows.now statement) }
{
    match rows.get(statement as usize) {
        Some(row) => match &row.elements {
            Some(elements) => copy(alloc, elements),
            None => Ok(void(alloc)),
        },
        None => Ok(void(alloc)),
    }
}

fn root_type(alloc: Global, p: &Program, rows: &[Row], root: Root) -> Result<ExprType, AllocError>
    ensures { IfOk result (λ t. t ≡ spec.root_type p.now rows.now root) }
{
    match root {
        Root::Input | Root::Result(_) => Ok(void(alloc)),
        Root::Variable(x) => variable_type(alloc, p, x),
        Root::Site(statement) => elements_of(alloc, rows, statement),
    }
}

/// Appends a location: its root, then `.` with the name of each member and `[]` for elements.
pub(crate) fn append_location(
    alloc: Global,
    p: &Program,
    rows: &[Row],
    location: &Location,
    text: &mut Text,
) -> Result<(), AllocError>
    ensures { OnOk result (text.new ≡ text.old ++ spec.location_words p.now rows.now location.now) }
{
    append_root(alloc, p, rows, location.root, text)?;
    let shape = root_type(alloc, p, rows, location.root)?;
    append_path(alloc, p, shape, location.path.as_slice(), text)
}
