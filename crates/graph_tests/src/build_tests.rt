//! The system graphs of small programs.
use crate::programs::{call, chosen, function, none, one, program, repeat, stored, two, when};
use bit_rows::Rows;
use c_tree::{Items, Program};
use dep_model::{
    Edge, FunctionGraph, Graph, Label, Skeleton, Slot, Vertex, VertexKind, VertexList,
};
use sdg::build;
use std::process::Abort;

/// The ends of an edge, and its label.
type Three = (u32, u32, Label);

fn list_of<R: Abort + AllocGlobal>(rt: &R, wanted: &[Vertex]) -> VertexList {
    let mut vertices = VertexList::new(rt.alloc());
    for vertex in wanted {
        vertices.push(*vertex).expect(rt, "memory");
    }
    vertices
}

/// A skeleton whose rows are empty, since the graph is made of the vertices alone.
fn skeleton<R: Abort + AllocGlobal>(rt: &R, vertices: VertexList) -> Skeleton {
    Skeleton {
        vertices,
        defined: Rows::new(rt.alloc(), 0, 0).expect(rt, "memory"),
        used: Rows::new(rt.alloc(), 0, 0).expect(rt, "memory"),
        killed: Rows::new(rt.alloc(), 0, 0).expect(rt, "memory"),
    }
}

/// The graph of a function with these edges.
fn part<R: Abort + AllocGlobal>(rt: &R, edges: &[Three]) -> FunctionGraph {
    let mut all = Items::new(rt.alloc());
    for (from, to, label) in edges {
        all.push(Edge {
            from: *from,
            to: *to,
            label: *label,
        })
        .expect(rt, "memory");
    }
    FunctionGraph { edges: all }
}

fn parts<R: Abort + AllocGlobal>(rt: &R, first: &[Three], second: &[Three]) -> Vec<FunctionGraph> {
    let mut all = Vec::new(rt.alloc());
    all.push(part(rt, first)).expect(rt, "memory");
    all.push(part(rt, second)).expect(rt, "memory");
    all
}

fn graph<R: Abort + AllocGlobal>(
    rt: &R,
    p: &Program,
    vertices: &[Vertex],
    parts: Vec<FunctionGraph>,
) -> Graph {
    assert!(rt; vertices.len() <= 500);
    assert!(rt; p.functions.len() <= 500);
    let made = skeleton(rt, list_of(rt, vertices));
    assert!(rt; made.vertices.len() <= 500);
    build(rt.alloc(), p, made, parts).expect(rt, "memory")
}

/// The graph's edges are exactly these, in this order.
fn has_edges<R: Abort>(rt: &R, g: &Graph, wanted: &[Three]) {
    let edges = g.edges.as_slice();
    assert_eq!(rt; edges.len(), wanted.len());
    for (edge, (from, to, label)) in edges.iter().zip(wanted) {
        assert_eq!(rt; edge.from, *from);
        assert_eq!(rt; edge.to, *to);
        assert_eq!(rt; edge.label, *label);
    }
}

/// The rows of the graph's formal-outs are these, by vertex and first word, and take so many words.
fn has_rows<R: Abort>(rt: &R, g: &Graph, wanted: &[(u32, u32)], words: u32) {
    let outs = g.outs.as_slice();
    assert_eq!(rt; outs.len(), wanted.len());
    for (row, (vertex, word)) in outs.iter().zip(wanted) {
        assert_eq!(rt; row.vertex, *vertex);
        assert_eq!(rt; row.word, *word);
    }
    assert_eq!(rt; g.fact_words, words);
}

fn vertex(function: u32, kind: VertexKind) -> Vertex {
    Vertex { function, kind }
}

//     int g;
//     void f(int a) { a = 5; g = a; }
//     int main(void) { int x = 7; f(x + 1); printf("%d\n", g); }
// Location 1 is `g`.
#[test]
fn parameter_that_is_overwritten(rt: HostRuntime) {
    let vertices = [
        vertex(0, VertexKind::Entry),
        vertex(0, VertexKind::FormalIn(Slot::Argument(0))),
        vertex(0, VertexKind::FormalIn(Slot::At(1))),
        vertex(0, VertexKind::Statement(0)),
        vertex(0, VertexKind::Statement(1)),
        vertex(0, VertexKind::FormalOut(Slot::At(1))),
        vertex(1, VertexKind::Entry),
        vertex(1, VertexKind::FormalIn(Slot::At(1))),
        vertex(1, VertexKind::Statement(2)),
        vertex(1, VertexKind::Call(3)),
        vertex(1, VertexKind::ActualIn(3, Slot::Argument(0))),
        vertex(1, VertexKind::ActualIn(3, Slot::At(1))),
        vertex(1, VertexKind::ActualOut(3, Slot::At(1))),
        vertex(1, VertexKind::Statement(4)),
        vertex(1, VertexKind::FormalOut(Slot::At(1))),
    ];
    let of_f = [
        (0, 1, Label::Control),
        (0, 2, Label::Control),
        (0, 3, Label::Control),
        (0, 4, Label::Control),
        (0, 5, Label::Control),
        (3, 4, Label::Flow),
        (4, 5, Label::Flow),
    ];
    let of_main = [
        (6, 7, Label::Control),
        (6, 8, Label::Control),
        (6, 9, Label::Control),
        (6, 13, Label::Control),
        (6, 14, Label::Control),
        (7, 11, Label::Flow),
        (8, 10, Label::Flow),
        (9, 10, Label::Control),
        (9, 11, Label::Control),
        (9, 12, Label::Control),
        (12, 13, Label::Flow),
        (12, 14, Label::Flow),
    ];
    let f = function(&rt, none(&rt));
    let main = function(&rt, one(&rt, call(&rt, 3, 0)));
    let p = program(&rt, two(&rt, f, main));
    let g = graph(&rt, &p, &vertices, parts(&rt, &of_f, &of_main));
    has_edges(
        &rt,
        &g,
        &[
            (0, 1, Label::Control),
            (0, 2, Label::Control),
            (0, 3, Label::Control),
            (0, 4, Label::Control),
            (0, 5, Label::Control),
            (3, 4, Label::Flow),
            (4, 5, Label::Flow),
            (5, 12, Label::Out(9)),
            (6, 7, Label::Control),
            (6, 8, Label::Control),
            (6, 9, Label::Control),
            (6, 13, Label::Control),
            (6, 14, Label::Control),
            (7, 11, Label::Flow),
            (8, 10, Label::Flow),
            (9, 0, Label::Call(9)),
            (9, 10, Label::Control),
            (9, 11, Label::Control),
            (9, 12, Label::Control),
            (10, 1, Label::In(9)),
            (11, 2, Label::In(9)),
            (12, 13, Label::Flow),
            (12, 14, Label::Flow),
        ],
    );
    has_rows(&rt, &g, &[(5, 0), (14, 1)], 2);
}

//     int even(int n) { int r = 1; if (n) { r = odd(n); } return r; }
//     int odd(int n) { int r = 0; if (n) { r = even(n); } return r; }
// The edges of the functions are left out.
#[test]
fn mutual_recursion(rt: HostRuntime) {
    let argument = Slot::Argument(0);
    let vertices = [
        vertex(0, VertexKind::Entry),
        vertex(0, VertexKind::FormalIn(argument)),
        vertex(0, VertexKind::Statement(0)),
        vertex(0, VertexKind::Statement(1)),
        vertex(0, VertexKind::Call(2)),
        vertex(0, VertexKind::ActualIn(2, argument)),
        vertex(0, VertexKind::ActualOut(2, Slot::Result)),
        vertex(0, VertexKind::Statement(3)),
        vertex(0, VertexKind::FormalOut(Slot::Result)),
        vertex(1, VertexKind::Entry),
        vertex(1, VertexKind::FormalIn(argument)),
        vertex(1, VertexKind::Statement(4)),
        vertex(1, VertexKind::Statement(5)),
        vertex(1, VertexKind::Call(6)),
        vertex(1, VertexKind::ActualIn(6, argument)),
        vertex(1, VertexKind::ActualOut(6, Slot::Result)),
        vertex(1, VertexKind::Statement(7)),
        vertex(1, VertexKind::FormalOut(Slot::Result)),
    ];
    let even = function(&rt, one(&rt, when(&rt, 1, stored(&rt, 2, 1))));
    let odd = function(&rt, one(&rt, when(&rt, 5, stored(&rt, 6, 0))));
    let p = program(&rt, two(&rt, even, odd));
    let g = graph(&rt, &p, &vertices, parts(&rt, &[], &[]));
    has_edges(
        &rt,
        &g,
        &[
            (4, 9, Label::Call(4)),
            (5, 10, Label::In(4)),
            (8, 15, Label::Out(13)),
            (13, 0, Label::Call(13)),
            (14, 1, Label::In(13)),
            (17, 6, Label::Out(4)),
        ],
    );
    has_rows(&rt, &g, &[(8, 0), (17, 1)], 2);
}

//     int f(int n) { .. }
//     int main(void) { .. for (; x; x = f(x)) { switch (x) { default: f(x); f(x); } } .. }
// A call whose result isn't stored has no actual-out. The edges of the functions are left out.
#[test]
fn calls_in_a_step_and_an_arm(rt: HostRuntime) {
    let argument = Slot::Argument(0);
    let vertices = [
        vertex(0, VertexKind::Entry),
        vertex(0, VertexKind::FormalIn(argument)),
        vertex(0, VertexKind::FormalOut(Slot::Result)),
        vertex(1, VertexKind::Entry),
        vertex(1, VertexKind::Statement(0)),
        vertex(1, VertexKind::Call(1)),
        vertex(1, VertexKind::ActualIn(1, argument)),
        vertex(1, VertexKind::ActualOut(1, Slot::Result)),
        vertex(1, VertexKind::Statement(2)),
        vertex(1, VertexKind::Call(3)),
        vertex(1, VertexKind::ActualIn(3, argument)),
        vertex(1, VertexKind::Call(4)),
        vertex(1, VertexKind::ActualIn(4, argument)),
    ];
    let f = function(&rt, none(&rt));
    let arms = chosen(&rt, 2, call(&rt, 3, 0), call(&rt, 4, 0));
    let main = function(&rt, one(&rt, repeat(&rt, 0, stored(&rt, 1, 0), arms)));
    let p = program(&rt, two(&rt, f, main));
    let g = graph(&rt, &p, &vertices, parts(&rt, &[], &[]));
    has_edges(
        &rt,
        &g,
        &[
            (2, 7, Label::Out(5)),
            (5, 0, Label::Call(5)),
            (6, 1, Label::In(5)),
            (9, 0, Label::Call(9)),
            (10, 1, Label::In(9)),
            (11, 0, Label::Call(11)),
            (12, 1, Label::In(11)),
        ],
    );
    has_rows(&rt, &g, &[(2, 0)], 1);
}

// Of 65 formal-ins a row takes two words, and of one formal-in one.
#[test]
fn rows_of_more_than_a_word(rt: HostRuntime) {
    let mut vertices = Vec::new(rt.alloc());
    vertices
        .push(vertex(0, VertexKind::Entry))
        .expect(&rt, "memory");
    for l in 0..65 {
        vertices
            .push(vertex(0, VertexKind::FormalIn(Slot::At(l))))
            .expect(&rt, "memory");
    }
    for l in 0..2 {
        vertices
            .push(vertex(0, VertexKind::FormalOut(Slot::At(l))))
            .expect(&rt, "memory");
    }
    vertices
        .push(vertex(1, VertexKind::Entry))
        .expect(&rt, "memory");
    vertices
        .push(vertex(1, VertexKind::FormalIn(Slot::At(0))))
        .expect(&rt, "memory");
    vertices
        .push(vertex(1, VertexKind::FormalOut(Slot::At(0))))
        .expect(&rt, "memory");
    let p = program(
        &rt,
        two(&rt, function(&rt, none(&rt)), function(&rt, none(&rt))),
    );
    let g = graph(&rt, &p, vertices.as_slice(), parts(&rt, &[], &[]));
    has_edges(&rt, &g, &[]);
    has_rows(&rt, &g, &[(66, 0), (67, 2), (70, 4)], 5);
}
