//! A test of the flow edges of small graphs with kills, joins and loops, against edges worked out by hand.
ghost use Rattle.std.specs.Prelude.{◌≡◌, ◌-◌, ◌≤◌, ◌++◌, All, OnOk, IfOk, replicate};
ghost use Rattle.bit_rows.specs.Tables.{IsSized};
ghost use Rattle.dep_model.specs.VertexOrder.{in_function};
ghost use Rattle.dep_model.specs.declared.vertex.VertexKind.TheVariants.{Entry};
ghost use Rattle.reaching_defs.specs.RowFlow.{AreEvenRows};
ghost use Rattle.reaching_defs.specs.Stretches.{IsPairAmong};

use super::*;
use bit_rows::Rows;
use dep_model::{Label, Pair, PairList, Vertex, VertexKind};
use sqlite_items::Items;
use std::string::String;
use std::test::Fail;

// A row for each of six vertices, of the locations a and b: the mark of a vertex is one of them, `*` for
// both, or a capital letter, which counts only where `weak` says so.
fn rows_of(alloc: Global, marks: &[u8; 6], weak: bool) -> Result<Rows, AllocError>
    ensures { IfOk result (λ r. IsSized 6 2 r) }
{
    let mut rows = Rows::new(alloc, 6, 2)?;
    for v in 0..6 {
        let mark = marks[v as usize];
        if mark == b'a' || mark == b'*' || weak && mark == b'A' {
            rows.set(v, 0);
        }
        if mark == b'b' || mark == b'*' || weak && mark == b'B' {
            rows.set(v, 1);
        }
    }
    Ok(rows)
}

// Six vertices: those before the `first` are of function 0, and the others of function 1.
fn vertices_of(alloc: Global, first: u32) -> Result<Vec<Vertex>, AllocError>
    requires { first ≤ 6 }
    ensures { IfOk result (λ vs. vs.items ≡ replicate first (in_function 0 Entry) ++ replicate (6 - first) (in_function 1 Entry)) }
{
    let kind = VertexKind::Entry;
    let mut vertices = vec![in alloc; Vertex { function: 0, kind }; first as usize]?;
    let others = vec![in alloc; Vertex { function: 1, kind }; 6 - first as usize]?;
    vertices.extend_from_slice(others.as_slice())?;
    Ok(vertices)
}

fn skeleton_of(
    alloc: Global,
    first: u32,
    defines: &[u8; 6],
    uses: &[u8; 6],
) -> Result<Skeleton, AllocError>
    requires { first ≤ 6 }
    ensures rows { IfOk result (λ s. AreEvenRows s) }
    ensures vertices { IfOk result (λ s. s.vertices ≡ replicate first (in_function 0 Entry) ++ replicate (6 - first) (in_function 1 Entry)) }
    ensures bits { IfOk result (λ s. s.defined.bits ≡ 2) }
{
    let vertices = vertices_of(alloc, first)?;
    let defined = rows_of(alloc, defines, true)?;
    let used = rows_of(alloc, uses, false)?;
    let killed = rows_of(alloc, defines, false)?;
    Ok(Skeleton {
        vertices: Items::from_vec(vertices),
        defined,
        used,
        killed,
    })
}

// The pairs of each vertex of function 1 with the one of it that its digit names.
fn push_pairs(pairs: &mut PairList, first: u32, digits: &[u8; 6]) -> Result<(), AllocError>
    requires { All (IsPairAmong first (6 - first)) pairs.old }
    ensures { OnOk result (All (IsPairAmong first (6 - first)) pairs.new) }
{
    for from in first..6 {
        let digit = digits[from as usize];
        if b'0' <= digit && digit < b'6' {
            let to = (digit - b'0') as u32;
            if first <= to {
                pairs.push(Pair { from, to })?;
            }
        }
    }
    Ok(())
}

fn graph_of(
    alloc: Global,
    first: u32,
    next: &[u8; 6],
    other: &[u8; 6],
) -> Result<FlowGraph, AllocError>
    ensures { IfOk result (λ g. All (IsPairAmong first (6 - first)) g.pairs) }
{
    let mut pairs = PairList::new(alloc);
    push_pairs(&mut pairs, first, next)?;
    push_pairs(&mut pairs, first, other)?;
    Ok(FlowGraph { pairs })
}

// The flow edges of function 1, as text.
fn flows(
    alloc: Global,
    first: u32,
    next: &[u8; 6],
    other: &[u8; 6],
    defines: &[u8; 6],
    uses: &[u8; 6],
) -> Result<String, AllocError>
    requires { first ≤ 6 }
{
    let s = skeleton_of(alloc, first, defines, uses)?;
    let g = graph_of(alloc, first, next, other)?;
    let found = edges(alloc, &s, &g, 1)?;
    let text = text_of(alloc, found.as_slice())?;
    Ok(text)
}

fn text_of(alloc: Global, edges: &[Edge]) -> Result<String, AllocError> {
    let mut text = String::new(alloc);
    for edge in edges {
        let mark = if edge.label == Label::Flow { '>' } else { '?' };
        let one = format!(in alloc; "{}{mark}{} ", edge.from, edge.to)?;
        text.push_str(one.as_str())?;
    }
    Ok(text)
}

#[test]
fn definitions_reach_uses(rt: HostRuntime) -> Result<(), Fail> {
    let alloc = rt.alloc();
    // Whether the first three vertices are of another function; what follows each, and what else; what each
    // defines, and uses; the flow edges.
    for (behind, next, other, defines, uses, wanted) in [
        // A chain stops at a kill, and begins and ends at vertices that kill.
        (
            false,
            b"12345.",
            b"......",
            b"a.a...",
            b".aaa.a",
            "0>1 0>2 2>3 2>5 ",
        ),
        // A definition that doesn't kill lets others pass.
        (
            false, b"12345.", b"......", b"a.A...", b".....a", "0>5 2>5 ",
        ),
        // Two ways join.
        (
            false,
            b"1334..",
            b"2.....",
            b".aa...",
            b"...aa.",
            "1>3 1>4 2>3 2>4 ",
        ),
        // A loop carries what its body defines to its test, and to the body itself.
        (
            false,
            b"12315.",
            b".4....",
            b"a..a..",
            b".a.aa.",
            "0>1 0>3 0>4 3>1 3>3 3>4 ",
        ),
        // Each location has chains of its own.
        (
            false,
            b"12345.",
            b"......",
            b"*.a.b.",
            b"...*.*",
            "0>3 2>3 2>5 4>5 ",
        ),
        // What comes by a longer way comes on, also where something else came before.
        (
            false, b"13453.", b"2.....", b"*a....", b".....a", "0>5 1>5 ",
        ),
        // No pairs, no edges.
        (false, b"......", b"......", b"******", b"******", ""),
        // Vertices behind those of another function.
        (true, b"34545.", b"......", b"***b..", b"****.b", "3>5 "),
    ] {
        let first = if behind { 3 } else { 0 };
        let text = flows(alloc, first, next, other, defines, uses)?;
        assert_eq!(rt; text.as_str(), wanted);
    }
    Ok(())
}
