//! Forward slices and chops of whole texts, as vertices that are typed by hand.
ghost use Rattle.std.specs.Prelude.{◌<◌, All, IsTrue};

use crate::analyses::{graph_of, read};
use crate::printing::set_text;
use crate::programs::{ID, OVERWRITTEN, SET, THREE_DEEP, TURNS, TWO_WAYS};
use crew::OpenGate;
use dep_model::VertexSet;
use forward_chop::Chopper;
use std::process::Abort;
use std::thread::Threads;

fn all_below(numbers: &[u32], size: u32) -> bool
    ensures { IsTrue result → All (λ v. v < size) numbers.now }
{
    numbers.iter().all(|v| *v < size)
}

/// The first set is the forward slice of `from` in the text's graph, the second the chop of `from` and `to`, and the forward slice is the
/// same once more after the chop.
fn leads<R: Abort + AllocGlobal + Threads + Sync>(
    rt: &R,
    text: &str,
    from: &[u32],
    to: &[u32],
    forward: &str,
    chop: &str,
) {
    let p = read(rt, text);
    let graph = graph_of(rt.alloc(), &p).expect(rt, "a graph");
    let facts = summary_edges::find(rt, rt.alloc(), &graph, 1, &OpenGate).expect(rt, "memory");
    let size = graph.vertices.len() as u32;
    assert!(rt; all_below(from, size));
    assert!(rt; all_below(to, size));
    let mut chopper = Chopper::prepare(rt.alloc(), &graph, &facts).expect(rt, "memory");
    let mut set = VertexSet::new(rt.alloc(), size).expect(rt, "memory");
    chopper.forward(from, &mut set);
    let first = set_text(rt.alloc(), &set).expect(rt, "memory");
    assert_eq!(rt; first.as_str(), forward);
    chopper.chop(from, to, &mut set);
    let between = set_text(rt.alloc(), &set).expect(rt, "memory");
    assert_eq!(rt; between.as_str(), chop);
    chopper.forward(from, &mut set);
    let again = set_text(rt.alloc(), &set).expect(rt, "memory");
    assert_eq!(rt; again.as_str(), forward);
}

// Line 8 gives the parameter its value, which line 4 overwrites.
#[test]
fn parameter_that_is_overwritten(rt: HostRuntime) {
    leads(&rt, OVERWRITTEN, &[8], &[13], "1 8 10 ", "");
}

// From line 4 to line 10, out of the function and up to main; and from line 4 to itself.
#[test]
fn from_a_callee_to_main(rt: HostRuntime) {
    leads(
        &rt,
        OVERWRITTEN,
        &[3],
        &[13],
        "3 4 5 12 13 14 ",
        "3 4 5 12 13 ",
    );
    leads(&rt, OVERWRITTEN, &[3], &[3], "3 4 5 12 13 14 ", "3 ");
}

// Line 5 goes to line 6 through the function, and not to line 7, which calls it too.
#[test]
fn calls_of_one_function(rt: HostRuntime) {
    leads(&rt, ID, &[5], &[6, 7, 8], "1 2 3 5 7 8 ", "1 2 3 5 7 8 ");
    leads(&rt, ID, &[5], &[9, 10, 11], "1 2 3 5 7 8 ", "");
}

// Line 6 is a call: what it calls is decided by its entry.
#[test]
fn way_in_by_the_entry(rt: HostRuntime) {
    leads(
        &rt,
        SET,
        &[6, 7, 8],
        &[9],
        "0 1 2 3 6 7 8 9 10 ",
        "0 2 3 6 8 9 ",
    );
}

// Line 9 reaches line 14 by line 5, from the first call, and by line 6, from the second one. Line 4 uses the first call's argument for
// the second one's result.
#[test]
fn ways_that_are_not_merged(rt: HostRuntime) {
    leads(
        &rt,
        TWO_WAYS,
        &[13],
        &[30],
        "1 2 3 4 5 6 7 8 9 13 15 19 20 21 24 25 26 28 29 30 32 ",
        "1 2 6 7 8 9 13 15 19 21 24 28 29 30 ",
    );
}

// From line 14 to line 16, three calls deep.
#[test]
fn calls_inside_of_calls(rt: HostRuntime) {
    leads(
        &rt,
        THREE_DEEP,
        &[31],
        &[38],
        "1 3 4 6 10 12 13 14 15 17 21 24 25 26 27 31 33 36 37 38 39 40 41 ",
        "1 3 4 6 10 12 14 17 21 24 26 31 33 36 38 ",
    );
}

// From line 9 to line 11, through a function that calls itself.
#[test]
fn function_that_calls_itself(rt: HostRuntime) {
    leads(
        &rt,
        TURNS,
        &[12],
        &[17],
        "0 1 2 3 4 5 6 7 8 9 12 14 16 17 18 ",
        "0 1 2 3 4 5 6 7 8 9 12 14 16 17 ",
    );
}
