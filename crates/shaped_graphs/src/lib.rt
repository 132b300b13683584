//! A law on the graphs of programs. It is a function that holds no code: its contract is the law.
#![tactic(auto)]

ghost use Rattle.shaped_graphs.specs.Laws as law;

/// A law: the graph of a well-formed program, with at most 65536 vertices and at most 262144 fact words, is shaped: its
/// functions and calls fit each other as the passes over a graph need it.
pub fn graphs_are_shaped()
    ensures { law.GraphsAreShaped }
{}
