//! What a set of vertices of a graph keeps of a program hangs together: laws over closed sets.
//!
//! Each closure of a set that can be projected gives one thing that kept text needs. Each function is a
//! law, and holds no code: its contract is the law, over the definitions of `specs/Hanging`.
#![tactic(auto)]

ghost use Rattle.hanging_sets.specs.Laws.{ProjectionsAreSame, SetsHangTogether};

/// A law: what a set that can be projected keeps of a well-formed program of any form hangs together.
/// Statements stand in kept ones and in kept functions; the variables that kept words name are kept;
/// a kept call keeps its function, and the arguments of the parameters that this keeps; a function
/// whose result is kept keeps its return.
pub fn sets_hang_together()
    ensures { SetsHangTogether }
{}

/// A law: the projections of programs that are the same but for lines, to the same vertices, are the
/// same but for lines.
pub fn projections_are_same()
    ensures { ProjectionsAreSame }
{}
