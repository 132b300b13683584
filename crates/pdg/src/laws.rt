//! Laws over the graph of a function. Each function is a law, and holds no code: its contract is the law.
ghost use Rattle.pdg.specs.Laws.{UnionIsFunctionGraph};

/// A law: where two lists are exactly the control edges and the flow edges of a function, a graph of
/// the edges of both, ascending, is that function's graph.
pub fn union_is_function_graph()
    ensures { UnionIsFunctionGraph }
{}
