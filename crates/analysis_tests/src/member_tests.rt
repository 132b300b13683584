//! The vertices that reach one of a criterion's by matched calls and returns, and the completion of these.
ghost use Rattle.std.specs.Prelude.{◌<◌, All, IsTrue};

use crate::analyses::{graph_of, read};
use crate::printing::set_text;
use crate::programs::{ADD, KEPT, OVERWRITTEN, PICK, READS};
use completion::Closer;
use crew::OpenGate;
use dep_model::VertexSet;
use std::process::Abort;
use std::thread::Threads;
use two_pass::Passes;

fn all_below(numbers: &[u32], size: u32) -> bool
    ensures { IsTrue result → All (λ v. v < size) numbers.now }
{
    numbers.iter().all(|v| *v < size)
}

/// From these vertices of the text's graph on, backward, the first set is reached, and the second is its completion.
fn keeps<R: Abort + AllocGlobal + Threads + Sync>(
    rt: &R,
    text: &str,
    criterion: &[u32],
    reached: &str,
    completed: &str,
) {
    let p = read(rt, text);
    let graph = graph_of(rt.alloc(), &p).expect(rt, "a graph");
    let facts = summary_edges::find(rt, rt.alloc(), &graph, 1, &OpenGate).expect(rt, "memory");
    let size = graph.vertices.len() as u32;
    assert!(rt; all_below(criterion, size));
    let mut passes = Passes::prepare(rt.alloc(), &graph, &facts).expect(rt, "memory");
    let mut closer = Closer::prepare(rt.alloc(), &p, &graph).expect(rt, "memory");
    let mut set = VertexSet::new(rt.alloc(), size).expect(rt, "memory");
    passes.reach(criterion, &mut set);
    let found = set_text(rt.alloc(), &set).expect(rt, "memory");
    assert_eq!(rt; found.as_str(), reached);
    closer.close_up(&mut set);
    let closed = set_text(rt.alloc(), &set).expect(rt, "memory");
    assert_eq!(rt; closed.as_str(), completed);
}

// Line 10. The completion adds `a` and its argument, for line 4 names it, and with the argument line 8.
#[test]
fn parameter_that_is_named(rt: HostRuntime) {
    keeps(
        &rt,
        OVERWRITTEN,
        &[13],
        "0 3 4 5 6 9 12 13 ",
        "0 1 3 4 5 6 8 9 10 12 13 ",
    );
}

// Line 7 needs neither line 10 (vertex 14) nor line 13 (vertices 17 to 20), since calls and returns match.
#[test]
fn calls_that_do_not_match(rt: HostRuntime) {
    keeps(
        &rt,
        ADD,
        &[11],
        "0 1 2 3 4 5 6 7 8 9 10 11 12 13 15 16 21 22 23 ",
        "0 1 2 3 4 5 6 7 8 9 10 11 12 13 15 16 21 22 23 ",
    );
}

// Line 14 needs `x` alone. Line 16 needs `x` of the first call and `v` of the second; the completion adds `y` and `u` with
// their arguments.
#[test]
fn calls_that_need_different_parameters(rt: HostRuntime) {
    keeps(
        &rt,
        PICK,
        &[23],
        "0 1 5 7 9 12 16 17 21 23 ",
        "0 1 5 7 9 12 16 17 21 23 ",
    );
    keeps(
        &rt,
        PICK,
        &[31],
        "0 1 2 5 6 7 8 9 12 15 16 17 21 23 24 26 30 31 ",
        "0 1 2 5 6 7 8 9 12 13 14 15 16 17 18 21 23 24 25 26 30 31 ",
    );
}

// Line 7: each read goes on where the last one stopped.
#[test]
fn all_reads(rt: HostRuntime) {
    keeps(&rt, READS, &[6], "0 1 2 3 4 6 ", "0 1 2 3 4 6 ");
}

// Line 9 needs what the call sets, and not its result. Line 7 is the call and its result.
#[test]
fn call_without_its_result(rt: HostRuntime) {
    keeps(
        &rt,
        KEPT,
        &[15],
        "0 1 3 5 7 9 10 12 14 15 ",
        "0 1 3 5 7 9 10 12 14 15 ",
    );
    keeps(
        &rt,
        KEPT,
        &[9, 13],
        "0 1 4 6 7 9 10 13 ",
        "0 1 4 6 7 9 10 13 ",
    );
}
