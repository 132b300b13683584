//! The sizes of graphs.
use crate::programs::{FREED, LIST, OUTWARD, UPWARD};
use crate::reading::engine_of;
use dep_model::Label;
use slice_engine::Graph;
use std::process::Abort;
use std::thread::Threads;

/// How many edges there are of each label.
#[derive(Clone, Copy, Debug, PartialEq, Eq)]
struct Counts {
    control: u32,
    flow: u32,
    call: u32,
    into: u32,
    out: u32,
}

/// The counts with one more edge of a label.
fn counted(counts: Counts, label: Label) -> Counts {
    let mut more = counts;
    match label {
        Label::Control => more.control = counts.control.saturating_add(1),
        Label::Flow => more.flow = counts.flow.saturating_add(1),
        Label::Call(_) => more.call = counts.call.saturating_add(1),
        Label::In(_) => more.into = counts.into.saturating_add(1),
        Label::Out(_) => more.out = counts.out.saturating_add(1),
    }
    more
}

/// How many edges of each label a graph has.
fn counts_of(g: &Graph) -> Counts {
    let mut counts = Counts {
        control: 0,
        flow: 0,
        call: 0,
        into: 0,
        out: 0,
    };
    for edge in g.edges.as_slice() {
        counts = counted(counts, edge.label);
    }
    counts
}

/// The graph of a text has so many locations, vertices, and edges of each label.
fn has_counts<R: Abort + AllocGlobal + Threads + Sync>(
    rt: &R,
    text: &str,
    locations: u32,
    vertices: usize,
    edges: Counts,
) {
    let engine = engine_of(rt, text);
    let g = engine.graph();
    assert_eq!(rt; engine.locations().len(), locations);
    assert_eq!(rt; g.vertices.len(), vertices);
    assert_eq!(rt; counts_of(g), edges);
}

// The locations are the input, five variables, the block with two members, and main's result.
#[test]
fn graph_of_a_list(rt: HostRuntime) {
    let edges = Counts {
        control: 26,
        flow: 38,
        call: 0,
        into: 0,
        out: 0,
    };
    has_counts(&rt, LIST, 10, 25, edges);
}

// Each of the two calls has three actual-ins and two actual-outs.
#[test]
fn graph_of_an_address_that_goes_up(rt: HostRuntime) {
    let edges = Counts {
        control: 27,
        flow: 19,
        call: 2,
        into: 6,
        out: 4,
    };
    has_counts(&rt, UPWARD, 8, 29, edges);
}

// The free uses the pointer alone.
#[test]
fn graph_of_a_free(rt: HostRuntime) {
    let edges = Counts {
        control: 6,
        flow: 7,
        call: 0,
        into: 0,
        out: 0,
    };
    has_counts(&rt, FREED, 4, 7, edges);
}

// What is stored through a pointer leaves what was there before.
#[test]
fn graph_of_an_out_parameter(rt: HostRuntime) {
    let edges = Counts {
        control: 15,
        flow: 8,
        call: 1,
        into: 3,
        out: 1,
    };
    has_counts(&rt, OUTWARD, 5, 17, edges);
}
