//! The order of the vertices of worked programs, and their control edges.
ghost use Rattle.dep_model.specs.Stretches.{AreByFunction};

use crate::programs::{LOOPS, SETTING, SWITCH};
use bit_rows::Rows;
use c_reader::read_program;
use c_tree::Program;
use control_deps::edges;
use dep_model::{Label, Skeleton, Slot, Vertex, VertexKind, VertexList};
use flow_graph::follows;
use std::alloc::{AllocError, Global};
use std::process::Abort;

const SHORT: usize = 65536;

/// Two vertices, the second of which follows the first or depends on it.
type Two = (u32, u32);

fn read<R: Abort + AllocGlobal>(rt: &R, text: &str) -> Program {
    let bytes = text.as_bytes();
    assert!(rt; bytes.len() < SHORT);
    read_program(rt.alloc(), bytes).expect(rt, "a program")
}

/// The entry of main and its statements by number, where nothing goes into main or out of it.
fn of_main(alloc: Global, p: &Program) -> Result<VertexList, AllocError> {
    let mut vertices = VertexList::new(alloc);
    vertices.push(Vertex {
        function: 0,
        kind: VertexKind::Entry,
    })?;
    for id in 0..p.statements {
        vertices.push(Vertex {
            function: 0,
            kind: VertexKind::Statement(id),
        })?;
    }
    Ok(vertices)
}

/// A skeleton whose rows are empty, since neither the order nor control looks at them.
fn skeleton_of(alloc: Global, vertices: VertexList) -> Result<Skeleton, AllocError> {
    Ok(Skeleton {
        vertices,
        defined: Rows::new(alloc, 0, 0)?,
        used: Rows::new(alloc, 0, 0)?,
        killed: Rows::new(alloc, 0, 0)?,
    })
}

/// The vertices stand function by function.
fn by_function<R: Abort + AllocGlobal>(rt: &R, vertices: &[Vertex])
    ensures { AreByFunction vertices.now }
{
    for i in 1..vertices.len() {
        assert!(rt; vertices[i - 1].function <= vertices[i].function);
    }
}

/// The pairs of a function are these.
fn follow<R: Abort + AllocGlobal>(
    rt: &R,
    p: &Program,
    s: &Skeleton,
    function: u32,
    wanted: &[Two],
) {
    assert!(rt; (function as usize) < p.functions.len());
    assert!(rt; s.vertices.len() < SHORT);
    by_function(rt, s.vertices.as_slice());
    let found = follows(rt.alloc(), p, s, function).expect(rt, "memory");
    let pairs = found.pairs.as_slice();
    assert_eq!(rt; pairs.len(), wanted.len());
    for (pair, row) in pairs.iter().zip(wanted.iter()) {
        assert_eq!(rt; (pair.from, pair.to), *row);
    }
}

/// The control edges of a function are these.
fn control<R: Abort + AllocGlobal>(
    rt: &R,
    p: &Program,
    s: &Skeleton,
    function: u32,
    wanted: &[Two],
) {
    assert!(rt; (function as usize) < p.functions.len());
    assert!(rt; s.vertices.len() < SHORT);
    by_function(rt, s.vertices.as_slice());
    let found = edges(rt.alloc(), p, s, function).expect(rt, "memory");
    assert_eq!(rt; found.len(), wanted.len());
    for (edge, row) in found.iter().zip(wanted.iter()) {
        assert_eq!(rt; (edge.from, edge.to), *row);
        assert_eq!(rt; edge.label, Label::Control);
    }
}

/// The text's program has main alone, with these pairs and control edges; its statement `i` is vertex `i + 1`.
fn has_order<R: Abort + AllocGlobal>(rt: &R, text: &str, pairs: &[Two], controls: &[Two]) {
    let p = read(rt, text);
    let vertices = of_main(rt.alloc(), &p).expect(rt, "memory");
    let s = skeleton_of(rt.alloc(), vertices).expect(rt, "memory");
    follow(rt, &p, &s, 0, pairs);
    control(rt, &p, &s, 0, controls);
}

// 1: s = 0  2: j = 0  3: do's test  4: s = s + 1  5: for's test  6: s = 0  7: j++  8: putchar  9: s = s + j  10: printf
#[test]
fn loops(rt: HostRuntime) {
    let pairs = [
        (0, 1),
        (1, 2),
        (2, 4),
        (3, 4),
        (3, 6),
        (4, 3),
        (5, 8),
        (5, 10),
        (6, 5),
        (7, 5),
        (8, 9),
        (9, 7),
    ];
    let controls = [
        (0, 1),
        (0, 2),
        (0, 3),
        (0, 4),
        (0, 5),
        (0, 6),
        (0, 10),
        (3, 3),
        (3, 4),
        (5, 5),
        (5, 7),
        (5, 8),
        (5, 9),
    ];
    has_order(&rt, LOOPS, &pairs, &controls);
}

// 1: c = 'b'  2: r = 0  3: q = 0  4: switch  5: q = 1  6: r = 2  7: r = 3  8, 9: printf
#[test]
fn a_switch_with_a_default(rt: HostRuntime) {
    let pairs = [
        (0, 1),
        (1, 2),
        (2, 3),
        (3, 4),
        (4, 5),
        (4, 6),
        (4, 7),
        (5, 8),
        (6, 8),
        (7, 8),
        (8, 9),
    ];
    let controls = [
        (0, 1),
        (0, 2),
        (0, 3),
        (0, 4),
        (0, 8),
        (0, 9),
        (4, 5),
        (4, 6),
        (4, 7),
    ];
    has_order(&rt, SWITCH, &pairs, &controls);
}

// 1: c = 2  2: switch  3: c = 0  4: c = 1  5: c = 5; without a default the switch may be passed
#[test]
fn a_switch_without_a_default(rt: HostRuntime) {
    let text = "int main(void) {
    int c = 2;
    switch (c) {
    case 0:
    case 1:
        c = 0;
        break;
    case 2:
        break;
    case 3:
        c = 1;
        break;
    }
    c = 5;
}
";
    let pairs = [(0, 1), (1, 2), (2, 3), (2, 4), (2, 5), (3, 5), (4, 5)];
    let controls = [(0, 1), (0, 2), (0, 5), (2, 3), (2, 4)];
    has_order(&rt, text, &pairs, &controls);
}

// 1: x = 1  2: if  3: x = 2  4: while  5: x++  6: for's test, of which nothing else is there  7: return
#[test]
fn branches_and_bare_loops(rt: HostRuntime) {
    let text = "int main(void) {
    int x = 1;
    if (x) {
        x = 2;
    } else {
        while (x < 3) {
            x++;
        }
    }
    for (; x;) {
    }
    return x;
}
";
    let pairs = [
        (0, 1),
        (1, 2),
        (2, 3),
        (2, 4),
        (3, 6),
        (4, 5),
        (4, 6),
        (5, 4),
        (6, 6),
        (6, 7),
    ];
    let controls = [
        (0, 1),
        (0, 2),
        (0, 6),
        (0, 7),
        (2, 3),
        (2, 4),
        (4, 4),
        (4, 5),
        (6, 6),
    ];
    has_order(&rt, text, &pairs, &controls);
}

/// Two functions that hand on an argument and a global, which is location 0.
fn with_a_call(alloc: Global) -> Result<VertexList, AllocError> {
    let (first, global) = (Slot::Argument(0), Slot::At(0));
    let of_f = [
        VertexKind::Entry,
        VertexKind::FormalIn(first),
        VertexKind::FormalIn(global),
        VertexKind::Statement(0),
        VertexKind::Statement(1),
        VertexKind::FormalOut(global),
    ];
    let of_main = [
        VertexKind::Entry,
        VertexKind::FormalIn(global),
        VertexKind::Statement(2),
        VertexKind::Call(3),
        VertexKind::ActualIn(3, first),
        VertexKind::ActualIn(3, global),
        VertexKind::ActualOut(3, global),
        VertexKind::Statement(4),
        VertexKind::FormalOut(global),
    ];
    let mut vertices = VertexList::new(alloc);
    for kind in of_f {
        vertices.push(Vertex { function: 0, kind })?;
    }
    for kind in of_main {
        vertices.push(Vertex { function: 1, kind })?;
    }
    Ok(vertices)
}

#[test]
fn a_call_with_formals(rt: HostRuntime) {
    let p = read(&rt, SETTING);
    let vertices = with_a_call(rt.alloc()).expect(&rt, "memory");
    let s = skeleton_of(rt.alloc(), vertices).expect(&rt, "memory");
    follow(&rt, &p, &s, 0, &[(0, 1), (1, 2), (2, 3), (3, 4), (4, 5)]);
    control(&rt, &p, &s, 0, &[(0, 1), (0, 2), (0, 3), (0, 4), (0, 5)]);
    let pairs = [
        (6, 7),
        (7, 8),
        (8, 9),
        (9, 10),
        (10, 11),
        (11, 12),
        (12, 13),
        (13, 14),
    ];
    let controls = [
        (6, 7),
        (6, 8),
        (6, 9),
        (6, 13),
        (6, 14),
        (9, 10),
        (9, 11),
        (9, 12),
    ];
    follow(&rt, &p, &s, 1, &pairs);
    control(&rt, &p, &s, 1, &controls);
}
