//! What reaches the statements of a line, and what its slice keeps.
use crate::programs::{FREED, LIST, OUTWARD, UPWARD};
use crate::reading::{criterion_at, engine_of};
use slice_engine::VertexSet;
use std::process::Abort;
use std::thread::Threads;

/// A line of a text, and the vertices of a set, which ascend.
#[derive(Drop)]
struct Row<'t> {
    text: &'t str,
    line: u32,
    vertices: &'t [u32],
}

/// What reaches the statements of a line.
fn members_at<R: Abort + AllocGlobal + Threads + Sync>(rt: &R, text: &str, line: u32) -> VertexSet {
    let engine = engine_of(rt, text);
    let criterion = criterion_at(rt, &engine, line);
    engine.members(rt.alloc(), criterion).expect(rt, "memory")
}

/// What the slice at a line keeps.
fn kept_at<R: Abort + AllocGlobal + Threads + Sync>(rt: &R, text: &str, line: u32) -> VertexSet {
    let engine = engine_of(rt, text);
    let criterion = criterion_at(rt, &engine, line);
    engine.kept(rt.alloc(), criterion).expect(rt, "memory")
}

/// The set has exactly these vertices, which ascend.
fn is_set<R: Abort>(rt: &R, set: &VertexSet, wanted: &[u32]) {
    let mut rest = wanted;
    for v in 0..set.len() {
        if set.has(v) {
            let Some((first, behind)) = rest.split_first() else {
                panic!(rt; "vertex {v} is more than is wanted");
            };
            assert_eq!(rt; v, *first);
            rest = behind;
        }
    }
    assert_eq!(rt; rest.len(), 0);
}

// At a sum the member that holds the values is among them, at a length it isn't. A free isn't, where what is freed is printed before
// it. Of a call whose result is overwritten, what it stores through its parameter is.
#[test]
fn members_of_lines(rt: HostRuntime) {
    let rows = [
        Row {
            text: LIST,
            line: 24,
            vertices: &[0, 1, 2, 3, 4, 5, 6, 7, 8, 9, 10, 11, 12, 14, 15, 16, 17, 19],
        },
        Row {
            text: LIST,
            line: 25,
            vertices: &[0, 1, 3, 4, 5, 6, 7, 9, 10, 11, 13, 14, 15, 16, 18, 20],
        },
        Row {
            text: UPWARD,
            line: 16,
            vertices: &[
                0, 1, 2, 3, 4, 5, 6, 7, 8, 9, 10, 11, 12, 13, 15, 16, 17, 18, 19, 20, 21, 22, 23,
                24, 26, 27,
            ],
        },
        Row {
            text: FREED,
            line: 6,
            vertices: &[0, 1, 2, 3, 4],
        },
        Row {
            text: FREED,
            line: 7,
            vertices: &[0, 2, 5],
        },
        Row {
            text: OUTWARD,
            line: 9,
            vertices: &[0, 1, 3, 4, 5, 6, 7, 8, 9, 10, 11, 13, 14, 15],
        },
    ];
    for row in rows.as_slice() {
        is_set(&rt, &members_at(&rt, row.text, row.line), row.vertices);
    }
}

// A slice keeps all that reaches its line; in the last text also the parameter that a kept statement names, which is overwritten, and
// the argument for it.
#[test]
fn kept_at_lines(rt: HostRuntime) {
    let rows = [
        Row {
            text: LIST,
            line: 25,
            vertices: &[0, 1, 3, 4, 5, 6, 7, 9, 10, 11, 13, 14, 15, 16, 18, 20],
        },
        Row {
            text: UPWARD,
            line: 16,
            vertices: &[
                0, 1, 2, 3, 4, 5, 6, 7, 8, 9, 10, 11, 12, 13, 15, 16, 17, 18, 19, 20, 21, 22, 23,
                24, 26, 27,
            ],
        },
        Row {
            text: FREED,
            line: 7,
            vertices: &[0, 2, 5],
        },
        Row {
            text: OUTWARD,
            line: 9,
            vertices: &[0, 1, 2, 3, 4, 5, 6, 7, 8, 9, 10, 11, 12, 13, 14, 15],
        },
    ];
    for row in rows.as_slice() {
        is_set(&rt, &kept_at(&rt, row.text, row.line), row.vertices);
    }
}
