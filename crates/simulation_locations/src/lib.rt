//! What is wanted where a run stands, and what keeps what may define it: laws over the vertices of a program and their
//! order (Horwitz, Reps and Binkley 1990; Binkley 1993).
//!
//! The functions are laws, and hold no code: their contracts are the laws, over the definitions of `specs/`.
#![tactic(auto)]

ghost use Rattle.simulation_locations.specs.Laws as law;

/// A law: a vertex that may define a location that is wanted directly after it is kept by each set of vertices that is
/// closed under flow edges.
pub fn definers_are_kept()
    ensures { law.DefinersAreKept }
{}

/// A law: so is the formal-in of a location that is wanted where a function begins.
pub fn formal_ins_are_kept()
    ensures { law.FormalInsAreKept }
{}

/// A law: a caller that waits wants nothing that the function called modifies, since the actual-outs of all of that come
/// directly behind the actual-ins, and kill it.
pub fn callers_want_unmodified()
    ensures { law.CallersWantUnmodified }
{}

/// A law: a set of vertices that is closed under all closures of the system graph has, at each call in it, the
/// actual-ins of the formal-ins in it, and of each actual-out in it the formal-out and the call.
pub fn closed_sets_keep_calls()
    ensures { law.ClosedSetsKeepCalls }
{}

/// A law: wherever a run of a program stands, what is wanted by chains of the order of its vertices is wanted by the
/// rules that the law on slices asks for: it is used by a kept vertex, or wanted behind one that doesn't kill it, across
/// the vertices of calls too.
pub fn chains_keep_rules()
    ensures { law.ChainsKeepRules }
{}

/// A law: a set of vertices that is closed under all closures of the system graph keeps what may define what is wanted
/// so, as the law on slices asks for it: acts, formal-ins and actual-ins, actual-outs and formal-outs, and results.
pub fn closed_sets_keep_definers()
    ensures { law.ClosedSetsKeepDefiners }
{}
