//! Texts with pointers, the vertices of their graphs that are kept, and the texts of what they are projected to, typed by hand.
use crate::programs::{FREED, LIST, UPWARD};
use crate::typed_rows::{Pointing, graph_by, read};
use c_print::print;
use c_tree::Program;
use dep_model::VertexSet;
use projection::project;
use std::process::Abort;

/// A text with how many locations it has, and where these may point.
type Pointed<'a> = (&'a str, u32, &'a [Pointing]);

/// The set of these vertices.
fn set_of<R: Abort + AllocGlobal>(rt: &R, kept: &[u32], size: usize) -> VertexSet {
    assert!(rt; size < 4096);
    let mut set = VertexSet::new(rt.alloc(), size as u32).expect(rt, "memory");
    for v in 0..set.len() {
        if kept.contains(&v) {
            set.add(v);
        }
    }
    set
}

/// The program is printed so.
fn has_text<R: Abort + AllocGlobal>(rt: &R, p: &Program, wanted: &str) {
    let printed = print(rt.alloc(), p).expect(rt, "memory");
    let printed = String::from_utf8_lossy(rt.alloc(), printed.bytes()).expect(rt, "memory");
    assert_eq!(rt; printed.as_str(), wanted);
}

/// By these vertices of its graph the text is projected to the other one, which is accepted too.
fn projects<R: Abort + AllocGlobal>(rt: &R, pointed: Pointed<'_>, kept: &[u32], wanted: &str) {
    let (text, count, pairs) = pointed;
    let p = read(rt, text);
    let graph = graph_by(rt, &p, count, pairs);
    let set = set_of(rt, kept, graph.vertices.len());
    if set.len() as usize != graph.vertices.len() {
        panic!(rt; "a set of another size");
    }
    let left = project(rt.alloc(), &p, &graph, &set).expect(rt, "memory");
    has_text(rt, &left, wanted);
    has_text(rt, &read(rt, wanted), wanted);
}

// What the length of the list needs, which are none of its values.
const LENGTH: &str = r#"#include <stdio.h>
#include <stdlib.h>
struct node {
    int val;
    struct node *next;
};
int main(void) {
    struct node *head = NULL;
    struct node *n;
    int c = getchar();
    while (c != EOF) {
        n = malloc(sizeof(struct node));
        n->next = head;
        head = n;
        c = getchar();
    }
    int len = 0;
    for (n = head; n != NULL; n = n->next) {
        len = len + 1;
    }
    printf("%d\n", len);
}
"#;

#[test]
fn list_of_blocks(rt: HostRuntime) {
    let (head, n, block, next) = (1 << 1, 1 << 2, 1 << 6, 1 << 8);
    let pairs = [(head, block), (n, block), (next, block)];
    let kept = [0, 1, 3, 4, 5, 6, 7, 9, 10, 11, 13, 14, 15, 16, 18, 20];
    projects(&rt, (LIST, 10, &pairs), &kept, LENGTH);
}

// The call of f by itself loses its result.
const UPWARD_LEFT: &str = r#"#include <stdio.h>
int f(int k, int *up) {
    int r = 0;
    if (up != NULL) {
        *up = 9;
    }
    int x = k;
    if (k > 0) {
        f(k - 1, &x);
        r = x;
    }
    return r;
}
int main(void) {
    int t = f(1, NULL);
    printf("%d\n", t);
}
"#;

// All vertices but 14 and 25, which give f's result and `x` to what needs neither, and main's `x`, vertex 28.
#[test]
fn object_of_a_call_before(rt: HostRuntime) {
    let kept = [
        0, 1, 2, 3, 4, 5, 6, 7, 8, 9, 10, 11, 12, 13, 15, 16, 17, 18, 19, 20, 21, 22, 23, 24, 26,
        27,
    ];
    projects(&rt, (UPWARD, 8, &[(1 << 2, 1 << 4)]), &kept, UPWARD_LEFT);
}

const FREED_LEFT: &str = "#include <stdio.h>
#include <stdlib.h>
int main(void) {
    int *p = malloc(sizeof(int));
    free(p);
}
";

// p 1, and its block 2.
#[test]
fn block_that_is_freed(rt: HostRuntime) {
    projects(&rt, (FREED, 4, &[(1 << 1, 1 << 2)]), &[0, 2, 5], FREED_LEFT);
}
