//! The lines of edges.
ghost use Rattle.std.specs.Prelude.{◌≡◌, ◌++◌, OnOk};
ghost use Rattle.std.specs.Fmt.{decimal};
ghost use Rattle.graph_text.specs.Lines as spec;

use crate::names::append_number;
use dep_model::{Edge, Label, Text, VertexId};
use std::alloc::{AllocError, Global};

fn append_call(
    alloc: Global,
    word: &[u8],
    call: VertexId,
    text: &mut Text,
) -> Result<(), AllocError>
    ensures { OnOk result (text.new ≡ text.old ++ (word.now ++ decimal call)) }
{
    text.append(word)?;
    append_number(alloc, u64::from(call), text)
}

fn append_label(alloc: Global, label: Label, text: &mut Text) -> Result<(), AllocError>
    ensures { OnOk result (text.new ≡ text.old ++ spec.label_words label) }
{
    match label {
        Label::Control => text.append(b" control"),
        Label::Flow => text.append(b" flow"),
        Label::Call(call) => append_call(alloc, b" call ", call, text),
        Label::In(call) => append_call(alloc, b" in ", call, text),
        Label::Out(call) => append_call(alloc, b" out ", call, text),
    }
}

// Appends the line of an edge.
fn append_edge(alloc: Global, edge: Edge, text: &mut Text) -> Result<(), AllocError>
    ensures { OnOk result (text.new ≡ text.old ++ spec.edge_line edge) }
{
    append_number(alloc, u64::from(edge.from), text)?;
    text.append(b" -> ")?;
    append_number(alloc, u64::from(edge.to), text)?;
    append_label(alloc, edge.label, text)?;
    text.append(b"\n")
}

/// Appends the lines of all edges.
pub(crate) fn append_all(alloc: Global, edges: &[Edge], text: &mut Text) -> Result<(), AllocError>
    ensures { OnOk result (text.new ≡ text.old ++ spec.edge_lines edges.now) }
{
    for edge in edges {
        append_edge(alloc, *edge, text)?;
    }
    Ok(())
}
