//! What the definitions of dependence speak of is there, of every well-formed program, whatever memory there is: laws by which
//! sets that a definition tells by derivations or paths can be listed. Each function is a law, and holds no code: its contract
//! is the law.
#![tactic(auto)]

ghost use Rattle.listed_graphs.specs.Laws as law;

/// A law: a well-formed program has a points-to relation, the least one that its pointings leave as it is.
pub fn programs_have_points_to()
    ensures { law.ProgramsHavePointsTo }
{}

/// A law: a well-formed program has its one analysis, by that relation.
pub fn programs_have_an_analysis()
    ensures { law.ProgramsHaveAnAnalysis }
{}

/// A law: a well-formed program has a system dependence graph.
pub fn programs_have_a_graph()
    ensures { law.ProgramsHaveAGraph }
{}

/// A law: what reaches a set of a program's vertices by matched words is a set.
pub fn sets_are_reached()
    ensures { law.SetsAreReached }
{}

/// A law: each set of the vertices of a well-formed program has a completion.
pub fn sets_have_completions()
    ensures { law.SetsHaveCompletions }
{}
