//! Laws of facts, for every graph. Each function is a law, and holds no code: its contract is the law.
ghost use Rattle.matched_paths.specs.Laws.{StepsKeepTruth, SettledHasAll};

/// A law: a step from true facts gives only true facts.
pub fn steps_keep_truth()
    ensures { StepsKeepTruth }
{}

/// A law: in a shaped graph, facts that the step of every function leaves as they are hold every true fact.
pub fn settled_has_all()
    ensures { SettledHasAll }
{}
