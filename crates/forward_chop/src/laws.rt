//! Laws of chops, for every list of edges. Each function is a law, and holds no code: its contract is the law.
ghost use Rattle.forward_chop.specs.Laws.{ChopsAreByContexts, ChopsLieInBoth};

/// A law: a vertex is in a chop exactly where it stands on a part of a path that rises or falls as a whole, or on a matched path between a
/// way into a function and a result of it that the chop wants.
pub fn chops_are_by_contexts()
    ensures { ChopsAreByContexts }
{}

/// A law: a chop lies in the forward slice of its first list, and in what reaches its second.
pub fn chops_lie_in_both()
    ensures { ChopsLieInBoth }
{}
