//! The system graphs of texts, edge by edge.
use crate::analyses::{graph_of, read};
use crate::printing::{count_text, edges_text, rows_text};
use crate::programs::{ADD, KEPT, MUTUAL, OVERWRITTEN};
use dep_model::Graph;
use std::process::Abort;

/// The graph has these edges, with a line for those that lead from one vertex, and these rows of formal-outs, each by its vertex
/// and its first word, which take so many words.
pub(crate) fn is_graph<R: Abort + AllocGlobal>(
    rt: &R,
    graph: &Graph,
    edges: &str,
    rows: &str,
    words: u32,
) {
    let found = edges_text(rt.alloc(), graph.edges.as_slice()).expect(rt, "memory");
    assert_eq!(rt; found.as_str(), edges);
    let outs = rows_text(rt.alloc(), graph.outs.as_slice()).expect(rt, "memory");
    assert_eq!(rt; outs.as_str(), rows);
    assert_eq!(rt; graph.fact_words, words);
}

/// The text's graph has these edges and rows.
fn has_graph<R: Abort + AllocGlobal>(rt: &R, text: &str, edges: &str, rows: &str, words: u32) {
    let p = read(rt, text);
    let graph = graph_of(rt.alloc(), &p).expect(rt, "a graph");
    is_graph(rt, &graph, edges, rows, words);
}

/// The text's graph has so many vertices, and so many edges of each kind.
fn has_size<R: Abort + AllocGlobal>(rt: &R, text: &str, vertices: usize, edges: &str) {
    let p = read(rt, text);
    let graph = graph_of(rt.alloc(), &p).expect(rt, "a graph");
    assert_eq!(rt; graph.vertices.len(), vertices);
    let found = count_text(rt.alloc(), graph.edges.as_slice()).expect(rt, "memory");
    assert_eq!(rt; found.as_str(), edges);
}

// The parameter, vertex 1, is overwritten before it is used.
const OVERWRITTEN_EDGES: &str = "
0 -> 1 control, 2 control, 3 control, 4 control, 5 control
3 -> 4 flow
4 -> 5 flow
5 -> 12 out 9
6 -> 7 control, 8 control, 9 control, 13 control, 14 control
7 -> 11 flow
8 -> 10 flow
9 -> 0 call 9, 10 control, 11 control, 12 control
10 -> 1 in 9
11 -> 2 in 9
12 -> 13 flow, 14 flow";

#[test]
fn parameter_that_is_overwritten(rt: HostRuntime) {
    has_graph(&rt, OVERWRITTEN, OVERWRITTEN_EDGES, "5 at 0 14 at 1 ", 2);
}

// The result, vertex 13, is overwritten before it is used.
const KEPT_EDGES: &str = "
0 -> 1 control, 2 control, 3 control, 4 control, 5 control, 6 control
1 -> 3 flow, 4 flow
3 -> 5 flow
4 -> 6 flow
5 -> 12 out 9
6 -> 13 out 9
7 -> 8 control, 9 control, 14 control, 15 control, 16 control
8 -> 11 flow
9 -> 0 call 9, 10 control, 11 control, 12 control, 13 control
10 -> 1 in 9
11 -> 2 in 9
12 -> 14 flow, 16 flow
14 -> 15 flow";

#[test]
fn result_that_is_overwritten(rt: HostRuntime) {
    has_graph(&rt, KEPT, KEPT_EDGES, "5 at 0 6 at 1 16 at 2 ", 3);
}

#[test]
fn sizes(rt: HostRuntime) {
    has_size(&rt, ADD, 26, "24 control 18 flow 3 call 5 in 3 out ");
    has_size(&rt, MUTUAL, 36, "33 control 18 flow 4 call 8 in 4 out ");
}

const LOOPED: &str = "int g;
void add(int n) {
    g = g + n;
}
int main(void) {
    int i = 0;
    while (i < 3) {
        add(i);
        i++;
    }
}
";

// What the call sets, vertex 12, goes into the next call, vertex 11, and out of main, vertex 14; so does what main begins with.
const LOOPED_EDGES: &str = "
0 -> 1 control, 2 control, 3 control, 4 control
1 -> 3 flow
2 -> 3 flow
3 -> 4 flow
4 -> 12 out 9
5 -> 6 control, 7 control, 8 control, 14 control
6 -> 11 flow, 14 flow
7 -> 8 flow, 10 flow, 13 flow
8 -> 8 control, 9 control, 13 control
9 -> 0 call 9, 10 control, 11 control, 12 control
10 -> 1 in 9
11 -> 2 in 9
12 -> 11 flow, 14 flow
13 -> 8 flow, 10 flow, 13 flow";

#[test]
fn call_in_a_loop(rt: HostRuntime) {
    has_graph(&rt, LOOPED, LOOPED_EDGES, "4 at 0 14 at 1 ", 2);
}

const STEPPED: &str = "int next(int n) {
    return n + 1;
}
int main(void) {
    int i;
    for (i = 0; i < 3; i = next(i)) {
        switch (i) {
        case 1:
            next(i);
            break;
        }
    }
}
";

// The test of the for, vertex 5, stands before what it begins with, vertex 6, and its step, vertices 7 to 9. A call whose
// result isn't stored, vertex 11, has no actual-out.
const STEPPED_EDGES: &str = "
0 -> 1 control, 2 control, 3 control
1 -> 2 flow
2 -> 3 flow
3 -> 9 out 7
4 -> 5 control, 6 control
5 -> 5 control, 7 control, 10 control
6 -> 5 flow, 8 flow, 10 flow, 12 flow
7 -> 0 call 7, 8 control, 9 control
8 -> 1 in 7
9 -> 5 flow, 8 flow, 10 flow, 12 flow
10 -> 11 control
11 -> 0 call 11, 12 control
12 -> 1 in 11";

#[test]
fn calls_in_a_step_and_an_arm(rt: HostRuntime) {
    has_graph(&rt, STEPPED, STEPPED_EDGES, "3 at 0 ", 1);
}

const RETURNED: &str = "int g;
void set(int n) {
    if (n > 0) {
        g = n;
    }
    return;
}
int main(void) {
    set(2);
}
";

// The return, vertex 5, defines nothing, and a void function gives no result.
const RETURNED_EDGES: &str = "
0 -> 1 control, 2 control, 3 control, 5 control, 6 control
1 -> 3 flow, 4 flow
2 -> 6 flow
3 -> 4 control
4 -> 6 flow
6 -> 12 out 9
7 -> 8 control, 9 control, 13 control
8 -> 11 flow
9 -> 0 call 9, 10 control, 11 control, 12 control
10 -> 1 in 9
11 -> 2 in 9
12 -> 13 flow";

#[test]
fn void_function_that_returns(rt: HostRuntime) {
    has_graph(&rt, RETURNED, RETURNED_EDGES, "6 at 0 13 at 1 ", 2);
}

const TWICE: &str = "int f(int a) {
    return a;
}
int main(void) {
    int x = f(1);
    f(x);
}
";

// Of the two calls only the first has a slot for the result, vertex 7.
const TWICE_EDGES: &str = "
0 -> 1 control, 2 control, 3 control
1 -> 2 flow
2 -> 3 flow
3 -> 7 out 5
4 -> 5 control, 8 control
5 -> 0 call 5, 6 control, 7 control
6 -> 1 in 5
7 -> 9 flow
8 -> 0 call 8, 9 control
9 -> 1 in 8";

#[test]
fn two_calls_with_different_slots(rt: HostRuntime) {
    has_graph(&rt, TWICE, TWICE_EDGES, "3 at 0 ", 1);
}

const CALLING: &str = "int g;
void second(int n);
void first(int n) {
    second(n);
}
void second(int n) {
    g = n;
    first(g);
}
int main(void) {
    first(1);
}
";

const CALLING_EDGES: &str = "
0 -> 1 control, 2 control, 3 control, 7 control
1 -> 4 flow
2 -> 5 flow
3 -> 4 control, 5 control, 6 control, 8 call 3
4 -> 9 in 3
5 -> 10 in 3
6 -> 7 flow
7 -> 15 out 12, 22 out 19
8 -> 9 control, 10 control, 11 control, 12 control, 16 control
9 -> 11 flow
11 -> 13 flow, 14 flow
12 -> 0 call 12, 13 control, 14 control, 15 control
13 -> 1 in 12
14 -> 2 in 12
15 -> 16 flow
16 -> 6 out 3
17 -> 18 control, 19 control, 23 control
18 -> 21 flow
19 -> 0 call 19, 20 control, 21 control, 22 control
20 -> 1 in 19
21 -> 2 in 19
22 -> 23 flow";

#[test]
fn mutual_recursion(rt: HostRuntime) {
    has_graph(&rt, CALLING, CALLING_EDGES, "7 at 0 16 at 1 23 at 2 ", 3);
}

const AGAIN: &str = "int g;
int f(int n) {
    int r = n;
    if (n > 1) {
        r = f(n - 1);
        g = g + r;
        f(r);
    }
    return r;
}
int main(void) {
    f(3);
}
";

// Each of the two calls of the function by itself, vertices 5 and 11, has slots of its own, and what the first sets of `g`, vertex 8,
// comes to the second, vertex 13, by line 6 alone.
const AGAIN_EDGES: &str = "
0 -> 1 control, 2 control, 3 control, 4 control, 15 control, 16 control, 17 control
1 -> 3 flow, 4 flow, 6 flow
2 -> 7 flow, 16 flow
3 -> 15 flow
4 -> 5 control, 10 control, 11 control
5 -> 0 call 5, 6 control, 7 control, 8 control, 9 control
6 -> 1 in 5
7 -> 2 in 5
8 -> 10 flow
9 -> 10 flow, 12 flow, 15 flow
10 -> 13 flow
11 -> 0 call 11, 12 control, 13 control, 14 control
12 -> 1 in 11
13 -> 2 in 11
14 -> 16 flow
15 -> 17 flow
16 -> 8 out 5, 14 out 11, 23 out 20
17 -> 9 out 5
18 -> 19 control, 20 control, 24 control
19 -> 22 flow
20 -> 0 call 20, 21 control, 22 control, 23 control
21 -> 1 in 20
22 -> 2 in 20
23 -> 24 flow";

#[test]
fn two_calls_of_itself(rt: HostRuntime) {
    has_graph(&rt, AGAIN, AGAIN_EDGES, "16 at 0 17 at 1 24 at 2 ", 3);
}
