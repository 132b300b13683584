//! Texts, kept vertices of their graphs, and the texts of the programs that these make, typed by hand.
use crate::programs::SETTING;
use c_print::print;
use c_reader::read_program;
use c_tree::{FunctionId, Items, Program, StatementId};
use dep_model::{Graph, Slot, Vertex, VertexKind, VertexSet};
use projection::{project, rank};
use std::process::Abort;

const SHORT: usize = 4096;

// ---- vertices

fn entry(function: FunctionId) -> Vertex {
    Vertex {
        function,
        kind: VertexKind::Entry,
    }
}

fn parameter(function: FunctionId, place: u32) -> Vertex {
    Vertex {
        function,
        kind: VertexKind::FormalIn(Slot::Argument(place)),
    }
}

fn statement(function: FunctionId, id: StatementId) -> Vertex {
    Vertex {
        function,
        kind: VertexKind::Statement(id),
    }
}

fn call(function: FunctionId, id: StatementId) -> Vertex {
    Vertex {
        function,
        kind: VertexKind::Call(id),
    }
}

fn argument(function: FunctionId, id: StatementId, place: u32) -> Vertex {
    Vertex {
        function,
        kind: VertexKind::ActualIn(id, Slot::Argument(place)),
    }
}

fn result(function: FunctionId, id: StatementId) -> Vertex {
    Vertex {
        function,
        kind: VertexKind::ActualOut(id, Slot::Result),
    }
}

/// A graph with these vertices and no edges.
fn graph_of<R: Abort + AllocGlobal>(rt: &R, kept: &[Vertex], left: &[Vertex]) -> Graph {
    let mut vertices = Items::new(rt.alloc());
    for vertex in kept {
        vertices.push(*vertex).expect(rt, "memory");
    }
    for vertex in left {
        vertices.push(*vertex).expect(rt, "memory");
    }
    Graph {
        vertices,
        edges: Items::new(rt.alloc()),
        outs: Items::new(rt.alloc()),
        fact_words: 0,
    }
}

/// The first of so many vertices.
fn first_of<R: Abort + AllocGlobal>(rt: &R, count: usize, size: usize) -> VertexSet {
    assert!(rt; size < SHORT);
    let mut set = VertexSet::new(rt.alloc(), size as u32).expect(rt, "memory");
    for v in 0..set.len() {
        if (v as usize) < count {
            set.add(v);
        }
    }
    set
}

// ---- rows

/// A text, the vertices that are kept, some that aren't, and the text of the projection.
type Row<'a> = (&'a str, &'a [Vertex], &'a [Vertex], &'a str);

fn read<R: Abort + AllocGlobal>(rt: &R, text: &str) -> Program {
    let bytes = text.as_bytes();
    assert!(rt; bytes.len() < SHORT);
    read_program(rt.alloc(), bytes).expect(rt, "a program")
}

/// What a program is shown as, without its line numbers.
fn without_lines<R: Abort + AllocGlobal>(rt: &R, p: &Program) -> Vec<u8> {
    let mark = b"line: ";
    let shown = format!(in rt.alloc(); "{p:?}").expect(rt, "memory");
    let mut left = Vec::new(rt.alloc());
    let mut matched = 0;
    for byte in shown.as_bytes() {
        if matched == mark.len() && *byte >= b'0' && *byte <= b'9' {
            continue;
        }
        left.push(*byte).expect(rt, "memory");
        if matched < mark.len() && *byte == mark[matched] {
            matched += 1;
        } else {
            matched = 0;
        }
    }
    left
}

/// The projection has the text, and the text has the program.
fn is_row<R: Abort + AllocGlobal>(rt: &R, row: Row<'_>) {
    let (text, kept, left, wanted) = row;
    let graph = graph_of(rt, kept, left);
    let set = first_of(rt, kept.len(), graph.vertices.len());
    let p = read(rt, text);
    if set.len() as usize != graph.vertices.len() {
        panic!(rt; "a set of another size");
    }
    let q = project(rt.alloc(), &p, &graph, &set).expect(rt, "memory");
    let printed = print(rt.alloc(), &q).expect(rt, "memory");
    let printed = String::from_utf8_lossy(rt.alloc(), printed.bytes()).expect(rt, "memory");
    assert_eq!(rt; printed.as_str(), wanted);
    let again = read(rt, wanted);
    let (read, made) = (without_lines(rt, &again), without_lines(rt, &q));
    assert!(rt; read.as_slice() == made.as_slice());
}

#[test]
fn a_parameter_stays_where_its_formal_in_does(rt: HostRuntime) {
    let kept = [
        entry(0),
        parameter(0, 0),
        statement(0, 0),
        statement(0, 1),
        entry(1),
        statement(1, 2),
        call(1, 3),
        argument(1, 3, 0),
        statement(1, 4),
    ];
    is_row(&rt, (SETTING, &kept, &[], SETTING));
    let unnamed = [
        entry(0),
        parameter(0, 0),
        entry(1),
        call(1, 3),
        argument(1, 3, 0),
    ];
    let wanted = r#"#include <stdio.h>
void f(int a) {
}
int main(void) {
    int x;
    f(x + 1);
}
"#;
    is_row(
        &rt,
        (
            SETTING,
            &unnamed,
            &[statement(0, 0), statement(1, 4)],
            wanted,
        ),
    );
}

/// A call whose result is stored in a declaration.
const KEEP: &str = r#"int g;
int f(int a) {
    g = a;
    return a + 1;
}
int main(void) {
    int x = f(3);
    x = g;
    x = x + 1;
}
"#;

/// A function that nothing calls.
const HELPER: &str = r#"int helper(int a) {
    a = a + 1;
    return a;
}
int main(void) {
    return 0;
}
"#;

#[test]
fn a_function_without_its_return_is_void(rt: HostRuntime) {
    let kept = [
        entry(0),
        parameter(0, 0),
        statement(0, 0),
        entry(1),
        call(1, 2),
        argument(1, 2, 0),
        statement(1, 3),
        statement(1, 4),
    ];
    let wanted = r#"int g;
void f(int a) {
    g = a;
}
int main(void) {
    int x;
    f(3);
    x = g;
    x = x + 1;
}
"#;
    is_row(&rt, (KEEP, &kept, &[statement(0, 1), result(1, 2)], wanted));
    let kept = [entry(0), parameter(0, 0), statement(0, 0), entry(1)];
    let wanted = r#"void helper(int a) {
    a = a + 1;
}
int main(void) {
}
"#;
    is_row(
        &rt,
        (HELPER, &kept, &[statement(0, 1), statement(1, 2)], wanted),
    );
}

/// A function with two prototypes, of which one gives no names, called with two numbers.
const DECLARED: &str = r#"int f(int, int);
int f(int first, int second);
int main(void) {
    int x = f(1, 2);
    x = x + 1;
}
int f(int a, int b) {
    int r = a;
    r = b;
    return r;
}
"#;

#[test]
fn prototypes_lose_what_their_function_does(rt: HostRuntime) {
    let kept = [
        entry(0),
        call(0, 0),
        argument(0, 0, 1),
        result(0, 0),
        statement(0, 1),
        entry(1),
        parameter(1, 1),
        statement(1, 3),
        statement(1, 4),
    ];
    let left = [argument(0, 0, 0), parameter(1, 0), statement(1, 2)];
    let wanted = r#"int f(int);
int f(int second);
int main(void) {
    int x = f(2);
    x = x + 1;
}
int f(int b) {
    int r;
    r = b;
    return r;
}
"#;
    is_row(&rt, (DECLARED, &kept, &left, wanted));
    let wanted = r#"int main(void) {
}
"#;
    is_row(&rt, (DECLARED, &[entry(0)], &kept, wanted));
}

/// Calls, and a declaration by getchar, in the heads of loops.
const HEADS: &str = r#"#include <stdio.h>
int f(int n) {
    return n;
}
int main(void) {
    int i;
    for (i = f(0); i < 3; i = f(i)) {
        putchar('a');
    }
    for (int c = getchar(); c < 3; c = c + 1) {
        putchar('b');
    }
    putchar('c');
}
"#;

#[test]
fn heads_of_loops_lose_what_statements_do(rt: HostRuntime) {
    // f: 0; main: test 1, init 2, step 3, body 4; test 5, init 6, step 7, body 8; 9
    let kept = [
        entry(0),
        parameter(0, 0),
        entry(1),
        statement(1, 1),
        call(1, 2),
        argument(1, 2, 0),
        call(1, 3),
        argument(1, 3, 0),
        statement(1, 5),
        statement(1, 7),
        statement(1, 9),
    ];
    let left = [
        statement(0, 0),
        result(1, 2),
        result(1, 3),
        statement(1, 6),
        statement(1, 8),
    ];
    let wanted = r#"#include <stdio.h>
void f(int n) {
}
int main(void) {
    int i;
    for (f(0); i < 3; f(i)) {
    }
    for (int c; c < 3; c = c + 1) {
    }
    putchar('c');
}
"#;
    is_row(&rt, (HEADS, &kept, &left, wanted));
    let kept = [entry(1), statement(1, 6), statement(1, 9)];
    let wanted = r#"#include <stdio.h>
int main(void) {
    {
        int c = getchar();
    }
    putchar('c');
}
"#;
    is_row(&rt, (HEADS, &kept, &left, wanted));
}

#[test]
fn a_for_that_goes_leaves_a_call_without_its_result(rt: HostRuntime) {
    let kept = [
        entry(0),
        parameter(0, 0),
        entry(1),
        call(1, 2),
        argument(1, 2, 0),
        statement(1, 9),
    ];
    let left = [
        statement(0, 0),
        statement(1, 1),
        result(1, 2),
        call(1, 3),
        argument(1, 3, 0),
        result(1, 3),
    ];
    let wanted = r#"#include <stdio.h>
void f(int n) {
}
int main(void) {
    f(0);
    putchar('c');
}
"#;
    is_row(&rt, (HEADS, &kept, &left, wanted));
}

/// Static names, a function that only another one calls, and a void function that returns.
const STATIC: &str = r#"static int total = 1;
static int other = 2;
static void add(int n) {
    total = total + n;
    return;
}
int lone(int n) {
    return n;
}
int caller(int n) {
    int r = lone(n);
    return r;
}
int main(void) {
    int k = caller(1);
    add(k);
    other = total;
}
"#;

#[test]
fn static_stays_and_uncalled_functions_go(rt: HostRuntime) {
    // add: 0, 1; lone: 2; caller: 3, 4; main: 5, 6, 7
    let kept = [
        entry(0),
        parameter(0, 0),
        statement(0, 0),
        entry(3),
        call(3, 6),
        argument(3, 6, 0),
    ];
    let left = [
        statement(0, 1),
        entry(1),
        entry(2),
        call(3, 5),
        statement(3, 7),
    ];
    let wanted = r#"static int total = 1;
static void add(int n) {
    total = total + n;
}
int main(void) {
    int k;
    add(k);
}
"#;
    is_row(&rt, (STATIC, &kept, &left, wanted));
}

/// A declaration by a call in a block of an arm, and a function that calls itself.
const ARM: &str = r#"#include <stdio.h>
int f(int n, int m) {
    int r = 0;
    if (n > 0) {
        r = f(n - 1, m);
    }
    return r;
}
int main(void) {
    int c = getchar();
    switch (c) {
        case 1:
            {
                int x = f(c, 2);
                x = 3;
                putchar(x);
            }
            break;
        default:
            putchar('d');
            break;
    }
}
"#;

#[test]
fn a_declaration_by_a_call_is_split(rt: HostRuntime) {
    // f: 0, test 1, 2, 3; main: 4, test 5, 6, 7, 8, 9
    let kept = [
        entry(0),
        parameter(0, 0),
        statement(0, 1),
        call(0, 2),
        argument(0, 2, 0),
        entry(1),
        statement(1, 4),
        statement(1, 5),
        call(1, 6),
        argument(1, 6, 0),
        statement(1, 7),
        statement(1, 8),
    ];
    let left = [
        parameter(0, 1),
        statement(0, 0),
        argument(0, 2, 1),
        result(0, 2),
        statement(0, 3),
        argument(1, 6, 1),
        result(1, 6),
        statement(1, 9),
    ];
    let wanted = r#"#include <stdio.h>
void f(int n) {
    if (n > 0) {
        f(n - 1);
    }
}
int main(void) {
    int c = getchar();
    switch (c) {
        case 1:
            {
                int x;
                f(c);
                x = 3;
                putchar(x);
            }
            break;
        default:
            break;
    }
}
"#;
    is_row(&rt, (ARM, &kept, &left, wanted));
}

/// A pointer, an array and a struct.
const SHAPES: &str = r#"#include <stdio.h>
struct pair {
    int first;
    int second;
};
int sum(struct pair *p, int *a) {
    int s = p->first + a[1];
    s = s + p->second;
    return s;
}
int main(void) {
    struct pair q;
    int a[] = {1, 2};
    q.first = 3;
    q.second = 4;
    int t = sum(&q, a);
    printf("%d\n", t);
}
"#;

#[test]
fn pointers_arrays_and_structs_are_projected(rt: HostRuntime) {
    // sum: 0, 1, 2; main: 3, 4, 5, 6, 7
    let kept = [
        entry(0),
        parameter(0, 0),
        parameter(0, 1),
        statement(0, 0),
        statement(0, 2),
        entry(1),
        statement(1, 4),
        call(1, 6),
        argument(1, 6, 0),
        argument(1, 6, 1),
        result(1, 6),
        statement(1, 7),
    ];
    let left = [statement(0, 1), statement(1, 3), statement(1, 5)];
    let wanted = r#"#include <stdio.h>
struct pair {
    int first;
    int second;
};
int sum(struct pair *p, int *a) {
    int s = p->first + a[1];
    return s;
}
int main(void) {
    struct pair q;
    int a[2];
    q.first = 3;
    int t = sum(&q, a);
    printf("%d\n", t);
}
"#;
    is_row(&rt, (SHAPES, &kept, &left, wanted));
}

#[test]
fn ranks_are_told(rt: HostRuntime) {
    // the kept statements in the order of their numbers, and in another one
    let kept = [statement(0, 1), call(0, 3), entry(0)];
    let turned = [call(0, 3), statement(0, 1), entry(0)];
    let wanted = [None, Some(0), None, Some(1), None];
    let graph = graph_of(&rt, &kept, &[statement(0, 0)]);
    let other = graph_of(&rt, &turned, &[statement(0, 0)]);
    let set = first_of(&rt, 3, 4);
    if set.len() as usize != graph.vertices.len() || set.len() as usize != other.vertices.len() {
        panic!(rt; "a set of another size");
    }
    for (id, number) in wanted.iter().enumerate() {
        assert_eq!(rt; rank(&graph, &set, id as u32), *number);
        assert_eq!(rt; rank(&other, &set, id as u32), *number);
    }
}
