//! Edges, rows of facts and sets of vertices as text.
use dep_model::{Edge, Label, OutRow, VertexSet};
use std::alloc::{AllocError, Global};

fn word_of(label: Label) -> &'static str {
    match label {
        Label::Control => "control",
        Label::Flow => "flow",
        Label::Call(_) => "call",
        Label::In(_) => "in",
        Label::Out(_) => "out",
    }
}

// The word of a label, and the number of its call where it has one.
fn label_text(alloc: Global, label: Label) -> Result<String, AllocError> {
    let word = word_of(label);
    match label {
        Label::Control | Label::Flow => format!(in alloc; "{word}"),
        Label::Call(call) | Label::In(call) | Label::Out(call) => {
            format!(in alloc; "{word} {call}")
        }
    }
}

fn edge_text(alloc: Global, last: Option<u32>, edge: &Edge) -> Result<String, AllocError> {
    let label = label_text(alloc, edge.label)?;
    if last == Some(edge.from) {
        format!(in alloc; ", {} {}", edge.to, label.as_str())
    } else {
        format!(in alloc; "\n{} -> {} {}", edge.from, edge.to, label.as_str())
    }
}

/// The edges in their order, with a line for those that lead from one vertex.
pub(crate) fn edges_text(alloc: Global, edges: &[Edge]) -> Result<String, AllocError> {
    let mut text = String::new(alloc);
    let mut last = None;
    for edge in edges {
        let one = edge_text(alloc, last, edge)?;
        text.push_str(one.as_str())?;
        last = Some(edge.from);
    }
    Ok(text)
}

fn count(edges: &[Edge], word: &str) -> u32 {
    let mut found = 0u32;
    for edge in edges {
        if word_of(edge.label) == word {
            found = found.wrapping_add(1);
        }
    }
    found
}

/// How many edges there are of each kind.
pub(crate) fn count_text(alloc: Global, edges: &[Edge]) -> Result<String, AllocError> {
    let mut text = String::new(alloc);
    for word in ["control", "flow", "call", "in", "out"] {
        let one = format!(in alloc; "{} {word} ", count(edges, word))?;
        text.push_str(one.as_str())?;
    }
    Ok(text)
}

/// The rows of formal-outs, each by its vertex and its first word.
pub(crate) fn rows_text(alloc: Global, rows: &[OutRow]) -> Result<String, AllocError> {
    let mut text = String::new(alloc);
    for row in rows {
        let one = format!(in alloc; "{} at {} ", row.vertex, row.word)?;
        text.push_str(one.as_str())?;
    }
    Ok(text)
}

/// The numbers of a set, with a blank behind each.
pub(crate) fn set_text(alloc: Global, set: &VertexSet) -> Result<String, AllocError> {
    let mut text = String::new(alloc);
    for v in 0..set.len() {
        if set.has(v) {
            let one = format!(in alloc; "{v} ")?;
            text.push_str(one.as_str())?;
        }
    }
    Ok(text)
}
