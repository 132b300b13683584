//! Graphs as they are printed.
ghost use Rattle.std.specs.Prelude.{◌<◌, ◌^◌, length};
ghost use Rattle.c_language.specs.Programs.{IsWellFormed};

use crate::analyses::{graph_of, read};
use crate::programs::{ADD, KEPT, OVERWRITTEN};
use c_reader::read_program;
use c_tree::Program;
use dep_model::{Graph, Locations, Slot, Vertex, VertexKind, VertexSet};
use sqlite_items::Items;
use std::alloc::{AllocError, Global};
use std::process::Abort;

/// The locations of a program.
fn locations_of<R: Abort + AllocGlobal>(rt: &R, p: &Program) -> Locations
    requires well_formed { IsWellFormed p.now }
    requires few { length p.now.functions < 2 ^ 32 }
{
    Locations::of(rt.alloc(), p).expect(rt, "few locations")
}

/// The text's graph is printed so.
fn is_printed<R: Abort + AllocGlobal>(rt: &R, text: &str, wanted: &str) {
    let p = read(rt, text);
    let list = locations_of(rt, &p);
    let graph = graph_of(rt.alloc(), &p).expect(rt, "a graph");
    let found = graph_text::graph(rt.alloc(), &p, &list, &graph).expect(rt, "memory");
    assert_eq!(rt; found.bytes(), wanted.as_bytes());
}

/// The set of these vertices of the text's graph is printed so.
fn are_printed<R: Abort + AllocGlobal>(rt: &R, text: &str, numbers: &[u32], wanted: &str) {
    let p = read(rt, text);
    let list = locations_of(rt, &p);
    let graph = graph_of(rt.alloc(), &p).expect(rt, "a graph");
    let size = graph.vertices.len() as u32;
    let mut set = VertexSet::new(rt.alloc(), size).expect(rt, "memory");
    for number in numbers {
        assert!(rt; *number < size);
        set.add(*number);
    }
    let found = graph_text::members(rt.alloc(), &p, &list, &graph, &set).expect(rt, "memory");
    assert_eq!(rt; found.bytes(), wanted.as_bytes());
}

const OVERWRITTEN_PRINTED: &str = "0 f entry
1 f formal-in #1
2 f formal-in g
3 f statement 4
4 f statement 5
5 f formal-out g
6 main entry
7 main formal-in g
8 main statement 8
9 main call 9 f
10 main actual-in 9 #1
11 main actual-in 9 g
12 main actual-out 9 g
13 main statement 10
14 main formal-out g
0 -> 1 control
0 -> 2 control
0 -> 3 control
0 -> 4 control
0 -> 5 control
3 -> 4 flow
4 -> 5 flow
5 -> 12 out 9
6 -> 7 control
6 -> 8 control
6 -> 9 control
6 -> 13 control
6 -> 14 control
7 -> 11 flow
8 -> 10 flow
9 -> 0 call 9
9 -> 10 control
9 -> 11 control
9 -> 12 control
10 -> 1 in 9
11 -> 2 in 9
12 -> 13 flow
12 -> 14 flow
";

#[test]
fn parameter_that_is_overwritten(rt: HostRuntime) {
    is_printed(&rt, OVERWRITTEN, OVERWRITTEN_PRINTED);
}

const TWO: &str = r#"#include <stdio.h>
int main(void) {
    int a = 1;
    int b = 2;
    a = a + 3;
    b = b + 4;
    printf("%d\n", a);
    printf("%d\n", b);
}
"#;

const TWO_PRINTED: &str = "0 main entry
1 main statement 3
2 main statement 4
3 main statement 5
4 main statement 6
5 main statement 7
6 main statement 8
0 -> 1 control
0 -> 2 control
0 -> 3 control
0 -> 4 control
0 -> 5 control
0 -> 6 control
1 -> 3 flow
2 -> 4 flow
3 -> 5 flow
4 -> 6 flow
";

#[test]
fn main_alone(rt: HostRuntime) {
    is_printed(&rt, TWO, TWO_PRINTED);
}

const KEPT_PRINTED: &str = "0 f entry
1 f formal-in #1
2 f formal-in g
3 f statement 3
4 f statement 4
5 f formal-out g
6 f formal-out result
7 main entry
8 main formal-in g
9 main call 7 f
10 main actual-in 7 #1
11 main actual-in 7 g
12 main actual-out 7 g
13 main actual-out 7 result
14 main statement 8
15 main statement 9
16 main formal-out g
0 -> 1 control
0 -> 2 control
0 -> 3 control
0 -> 4 control
0 -> 5 control
0 -> 6 control
1 -> 3 flow
1 -> 4 flow
3 -> 5 flow
4 -> 6 flow
5 -> 12 out 9
6 -> 13 out 9
7 -> 8 control
7 -> 9 control
7 -> 14 control
7 -> 15 control
7 -> 16 control
8 -> 11 flow
9 -> 0 call 9
9 -> 10 control
9 -> 11 control
9 -> 12 control
9 -> 13 control
10 -> 1 in 9
11 -> 2 in 9
12 -> 14 flow
12 -> 16 flow
14 -> 15 flow
";

#[test]
fn result_that_is_overwritten(rt: HostRuntime) {
    is_printed(&rt, KEPT, KEPT_PRINTED);
}

// What reaches line 10 of the first program, and the calls and the test in main of the second.
#[test]
fn members(rt: HostRuntime) {
    are_printed(
        &rt,
        OVERWRITTEN,
        &[0, 3, 4, 5, 6, 9, 12, 13],
        "0 f entry
3 f statement 4
4 f statement 5
5 f formal-out g
6 main entry
9 main call 9 f
12 main actual-out 9 g
13 main statement 10
",
    );
    are_printed(
        &rt,
        ADD,
        &[1, 2, 11, 12, 13, 15, 16],
        "1 add formal-in #1
2 add formal-in #2
11 increment statement 7
12 increment formal-out result
13 main entry
15 main statement 11
16 main statement 12
",
    );
    are_printed(&rt, TWO, &[], "");
}

const PLACES: &str = "#include <stdlib.h>
struct node {
    int val;
    struct node *next;
};
struct node table[2];
static int count;
int f(int a,
    struct node *p) {
    struct node *q = malloc(sizeof(struct node));
    int m[3][4];
    return a;
}
int main(void) {
    return 0;
}
";

const PLACES_PRINTED: &str = "0 f formal-in input
1 f formal-in table
2 f formal-in table[]
3 f formal-in table[].val
4 f formal-in table[].next
5 f formal-in count
6 f formal-in a@8
7 f formal-in p@9
8 f formal-in q@10
9 f formal-in m@11
10 f formal-in m@11[]
11 f formal-in m@11[][]
12 f formal-in malloc@10
13 f formal-in malloc@10.val
14 f formal-in malloc@10.next
15 f actual-in 10 result
16 f actual-out 12 #4294967296
";

/// A graph without edges, with a formal-in for each location before the results.
fn places_graph(alloc: Global, count: u32) -> Result<Graph, AllocError> {
    let mut vertices = Items::new(alloc);
    for id in 0..count {
        vertices.push(Vertex {
            function: 0,
            kind: VertexKind::FormalIn(Slot::At(id)),
        })?;
    }
    vertices.push(Vertex {
        function: 0,
        kind: VertexKind::ActualIn(0, Slot::Result),
    })?;
    vertices.push(Vertex {
        function: 0,
        kind: VertexKind::ActualOut(1, Slot::Argument(u32::MAX)),
    })?;
    Ok(Graph {
        vertices,
        edges: Items::new(alloc),
        outs: Items::new(alloc),
        fact_words: 0,
    })
}

/// The program of a text.
fn program<R: Abort + AllocGlobal>(rt: &R, text: &str) -> Program
    ensures { IsWellFormed result }
{
    let bytes = text.as_bytes();
    assert!(rt; bytes.len() < 65_536);
    read_program(rt.alloc(), bytes).expect(rt, "a program")
}

#[test]
fn places(rt: HostRuntime) {
    let p = program(&rt, PLACES);
    assert!(&rt; p.functions.len() <= 1000);
    let list = locations_of(&rt, &p);
    let graph = places_graph(rt.alloc(), 15).expect(&rt, "memory");
    assert!(&rt; graph.vertices.len() <= 1000);
    let found = graph_text::graph(rt.alloc(), &p, &list, &graph).expect(&rt, "memory");
    assert_eq!(&rt; found.bytes(), PLACES_PRINTED.as_bytes());
}
