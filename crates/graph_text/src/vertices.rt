//! The lines of vertices.
ghost use Rattle.std.specs.Prelude.{◌≡◌, ◌≤◌, ◌<◌, ◌^◌, ◌++◌, OnOk, codes, length};
ghost use Rattle.std.specs.Fmt.{decimal};
ghost use Rattle.dep_model.specs.declared.vertex.Slot.TheVariants as slot;
ghost use Rattle.graph_text.specs.Lines as spec;
ghost use Rattle.graph_text.specs.Rows.{line_at, called_at};

use crate::names::{append_number, function_name};
use crate::places::{append_location, line_of};
use crate::rows::Row;
use c_tree::{Program, StatementId};
use dep_model::{LocationId, Locations, Slot, Text, Vertex, VertexId, VertexKind, VertexSet};
use std::alloc::{AllocError, Global};

fn append_listed(
    alloc: Global,
    p: &Program,
    rows: &[Row],
    l: &Locations,
    id: LocationId,
    text: &mut Text,
) -> Result<(), AllocError>
    ensures { OnOk result (text.new ≡ text.old ++ spec.slot_words p.now rows.now l.now (slot.At id)) }
{
    if id < l.len() {
        append_location(alloc, p, rows, l.at(id), text)?;
    }
    Ok(())
}

fn append_slot(
    alloc: Global,
    p: &Program,
    rows: &[Row],
    l: &Locations,
    slot: Slot,
    text: &mut Text,
) -> Result<(), AllocError>
    ensures { OnOk result (text.new ≡ text.old ++ spec.slot_words p.now rows.now l.now slot) }
{
    match slot {
        Slot::Argument(k) => {
            text.append(b"#")?;
            append_number(alloc, u64::from(k) + 1, text)
        }
        Slot::Result => text.append(b"result"),
        Slot::At(id) => append_listed(alloc, p, rows, l, id, text),
    }
}

fn append_line_of(
    alloc: Global,
    rows: &[Row],
    statement: StatementId,
    text: &mut Text,
) -> Result<(), AllocError>
    ensures { OnOk result (text.new ≡ text.old ++ decimal (line_at rows.now statement)) }
{
    append_number(alloc, u64::from(line_of(rows, statement)), text)
}

// Appends the name of the function that a statement calls.
fn append_called(
    p: &Program,
    rows: &[Row],
    statement: StatementId,
    text: &mut Text,
) -> Result<(), AllocError>
    ensures { OnOk result (text.new ≡ text.old ++ spec.called_words p.now (called_at rows.now statement)) }
{
    match rows.get(statement as usize) {
        Some(row) => match row.called {
            Some(function) => text.append(function_name(p, function)),
            None => Ok(()),
        },
        None => Ok(()),
    }
}

fn append_formal(
    alloc: Global,
    p: &Program,
    rows: &[Row],
    l: &Locations,
    word: &[u8],
    slot: Slot,
    text: &mut Text,
) -> Result<(), AllocError>
    ensures { OnOk result (text.new ≡ text.old ++ (word.now ++ spec.slot_words p.now rows.now l.now slot)) }
{
    text.append(word)?;
    append_slot(alloc, p, rows, l, slot, text)
}

// Appends the line of a call's statement, and what the actual carries.
fn append_actual(
    alloc: Global,
    p: &Program,
    rows: &[Row],
    l: &Locations,
    statement: StatementId,
    slot: Slot,
    text: &mut Text,
) -> Result<(), AllocError>
    ensures { OnOk result (text.new ≡ text.old ++ (decimal (line_at rows.now statement) ++ (codes " " ++ spec.slot_words p.now rows.now l.now slot))) }
{
    append_line_of(alloc, rows, statement, text)?;
    text.append(b" ")?;
    append_slot(alloc, p, rows, l, slot, text)
}

fn append_kind(
    alloc: Global,
    p: &Program,
    rows: &[Row],
    l: &Locations,
    kind: VertexKind,
    text: &mut Text,
) -> Result<(), AllocError>
    ensures { OnOk result (text.new ≡ text.old ++ spec.kind_words p.now rows.now l.now kind) }
{
    match kind {
        VertexKind::Entry => text.append(b" entry"),
        VertexKind::FormalIn(slot) => append_formal(alloc, p, rows, l, b" formal-in ", slot, text),
        VertexKind::FormalOut(slot) => append_formal(
            alloc,
            p,
            rows,
            l,
            b" formal-out ",
            slot,
            text,
        ),
        VertexKind::Statement(statement) => {
            text.append(b" statement ")?;
            append_line_of(alloc, rows, statement, text)
        }
        VertexKind::Call(statement) => {
            text.append(b" call ")?;
            append_line_of(alloc, rows, statement, text)?;
            text.append(b" ")?;
            append_called(p, rows, statement, text)
        }
        VertexKind::ActualIn(statement, slot) => {
            text.append(b" actual-in ")?;
            append_actual(alloc, p, rows, l, statement, slot, text)
        }
        VertexKind::ActualOut(statement, slot) => {
            text.append(b" actual-out ")?;
            append_actual(alloc, p, rows, l, statement, slot, text)
        }
    }
}

// Appends the line of a vertex by its number.
fn append_vertex(
    alloc: Global,
    p: &Program,
    rows: &[Row],
    l: &Locations,
    number: VertexId,
    vertex: Vertex,
    text: &mut Text,
) -> Result<(), AllocError>
    ensures { OnOk result (text.new ≡ text.old ++ spec.vertex_line p.now rows.now l.now number vertex) }
{
    append_number(alloc, u64::from(number), text)?;
    text.append(b" ")?;
    text.append(function_name(p, vertex.function))?;
    append_kind(alloc, p, rows, l, vertex.kind, text)?;
    text.append(b"\n")
}

/// Appends the lines of all vertices.
pub(crate) fn append_all(
    alloc: Global,
    p: &Program,
    rows: &[Row],
    l: &Locations,
    vertices: &[Vertex],
    text: &mut Text,
) -> Result<(), AllocError>
    requires few { length vertices.now ≤ 2 ^ 32 }
    ensures { OnOk result (text.new ≡ text.old ++ spec.vertex_lines p.now rows.now l.now 0 vertices.now) }
{
    for (number, vertex) in vertices.iter().enumerate() {
        append_vertex(alloc, p, rows, l, number as VertexId, *vertex, text)?;
    }
    Ok(())
}

/// Appends the lines of the vertices that are in the set.
pub(crate) fn append_members(
    alloc: Global,
    p: &Program,
    rows: &[Row],
    l: &Locations,
    vertices: &[Vertex],
    set: &VertexSet,
    text: &mut Text,
) -> Result<(), AllocError>
    requires size { length set.now ≡ length vertices.now }
    ensures { OnOk result (text.new ≡ text.old ++ spec.member_lines p.now rows.now l.now 0 set.now vertices.now) }
{
    for number in 0..set.len() {
        if set.has(number) {
            append_vertex(alloc, p, rows, l, number, vertices[number as usize], text)?;
        }
    }
    Ok(())
}
