//! The vertices of texts with their rows, and the limits on graphs.
ghost use Rattle.std.specs.Prelude.{◌≡◌, ◌<◌, length};
ghost use Rattle.program_graph.specs.Given.{HasSkeleton};

use crate::analyses::{read, skeleton_of};
use crate::programs::OVERWRITTEN;
use bit_rows::Rows;
use c_tree::{LimitName, Program};
use dep_model::{GraphFault, Skeleton, Slot, Vertex, VertexKind};
use std::alloc::{AllocError, Global};
use std::process::Abort;

/// A vertex by its function and its kind, and what it defines, uses and kills. Of each row this is the word, with bit `k`
/// for the location at place `k`.
type Row = (u32, VertexKind, u64, u64, u64);

/// Row `row` is this word.
fn is_word<R: Abort>(rt: &R, rows: &Rows, row: u32, wanted: u64)
    requires { row < length rows.now.sets }
{
    assert_eq!(rt; rows.words(row), [wanted].as_slice(), "row {row}");
}

/// The vertices are those of the table, with their rows.
fn are_rows<R: Abort>(rt: &R, p: &Program, s: &Skeleton, table: &[Row])
    requires { HasSkeleton p.now s.now }
{
    assert_eq!(rt; s.vertices.len(), table.len());
    for (v, (function, kind, defines, uses, kills)) in table.iter().enumerate() {
        let wanted = Vertex {
            function: *function,
            kind: *kind,
        };
        assert_eq!(rt; s.vertices.as_slice()[v], wanted);
        is_word(rt, &s.defined, v as u32, *defines);
        is_word(rt, &s.used, v as u32, *uses);
        is_word(rt, &s.killed, v as u32, *kills);
    }
}

fn has_vertices<R: Abort + AllocGlobal>(rt: &R, text: &str, table: &[Row]) {
    let p = read(rt, text);
    let s = skeleton_of(rt.alloc(), &p).expect(rt, "few vertices");
    are_rows(rt, &p, &s, table);
}

// The locations are the input, `g`, `a`, `x` and main's result.
#[test]
fn parameter_that_is_overwritten(rt: HostRuntime) {
    let (g, a, x) = (1 << 1, 1 << 2, 1 << 3);
    let (argument, at_g) = (Slot::Argument(0), Slot::At(1));
    let table = [
        (0, VertexKind::Entry, 0, 0, 0),
        (0, VertexKind::FormalIn(argument), a, 0, 0),
        (0, VertexKind::FormalIn(at_g), g, 0, 0),
        (0, VertexKind::Statement(0), a, 0, a),
        (0, VertexKind::Statement(1), g, a, g),
        (0, VertexKind::FormalOut(at_g), 0, g, 0),
        (1, VertexKind::Entry, 0, 0, 0),
        (1, VertexKind::FormalIn(at_g), g, 0, 0),
        (1, VertexKind::Statement(2), x, 0, x),
        (1, VertexKind::Call(3), 0, 0, 0),
        (1, VertexKind::ActualIn(3, argument), 0, x, 0),
        (1, VertexKind::ActualIn(3, at_g), 0, g, 0),
        (1, VertexKind::ActualOut(3, at_g), g, 0, g),
        (1, VertexKind::Statement(4), 0, g, 0),
        (1, VertexKind::FormalOut(at_g), 0, g, 0),
    ];
    has_vertices(&rt, OVERWRITTEN, &table);
}

// The number of globals of which each function sets all.
const GLOBALS: u32 = 2048;

fn add_lines(
    alloc: Global,
    text: &mut String,
    before: &str,
    after: &str,
) -> Result<(), AllocError> {
    for k in 0..GLOBALS {
        let line = format!(in alloc; "{before}{k}{after}")?;
        text.push_str(line.as_str())?;
    }
    Ok(())
}

/// A text of globals, and functions that each set all of these and are never called.
fn setting_all(alloc: Global, functions: u32) -> Result<String, AllocError> {
    let mut text = String::new(alloc);
    add_lines(alloc, &mut text, "int g", ";\n")?;
    for f in 0..functions {
        let head = format!(in alloc; "void f{f}(void) {{\n")?;
        text.push_str(head.as_str())?;
        add_lines(alloc, &mut text, "    g", " = 1;\n")?;
        text.push_str("}\n")?;
    }
    text.push_str("int main(void) {\n}\n")?;
    Ok(text)
}

fn fault_of<R: Abort + AllocGlobal>(rt: &R, functions: u32) -> Option<GraphFault> {
    let text = setting_all(rt.alloc(), functions).expect(rt, "memory");
    let p = read(rt, text.as_str());
    match skeleton_of(rt.alloc(), &p) {
        Ok(_) => None,
        Err(fault) => Some(fault),
    }
}

// The facts of each function take 2,048 rows of 32 words, which is a quarter of what is allowed.
#[test]
fn as_many_words_as_allowed(rt: HostRuntime) {
    assert_eq!(rt; fault_of(&rt, 4), None);
}

#[test]
fn more_words_than_allowed(rt: HostRuntime) {
    assert_eq!(rt;
        fault_of(&rt, 5),
        Some(GraphFault::Limit(LimitName::FactWords))
    );
}
