//! Laws of rounds and agendas, for every shaped graph. Each function is a law, and holds no code: its contract is the law.
ghost use Rattle.summary_edges.specs.FactMachineLaws.{FactsStayTrue, FactsNeverShrink, WholeRoundsAreExact, SeriesAreFew, BoardsShowFacts};
ghost use Rattle.summary_edges.specs.Laws.{OthersAreSettled, OnlyTrueWhereNoneIsDue, RoundsAreFew};

/// A law: after a round a function that isn't due is settled.
pub fn others_are_settled()
    ensures { OthersAreSettled }
{}

/// A law: where no function is due after a round, the facts are exactly the true ones.
pub fn only_true_where_none_is_due()
    ensures { OnlyTrueWhereNoneIsDue }
{}

/// A law: a series of rounds, each but the last with a new fact, has at most one more than there are true facts.
pub fn rounds_are_few()
    ensures { RoundsAreFew }
{}

/// A law: whatever workers do on a board of facts, it holds what it was opened with and true facts alone, and drawn are exactly the
/// numbers below both the draw word and the agenda's length, each by one worker.
pub fn facts_stay_true()
    ensures { FactsStayTrue }
{}

/// A law: no fact is ever lost.
pub fn facts_never_shrink()
    ensures { FactsNeverShrink }
{}

/// A law: after a whole round without a new put, in which each function outside the agenda was settled, the facts are exactly the
/// true ones.
pub fn whole_rounds_are_exact()
    ensures { WholeRoundsAreExact }
{}

/// A law: a series of rounds, each but the last with a new put, has at most one more than there are true facts.
pub fn series_are_few()
    ensures { SeriesAreFew }
{}

/// A law: a board of facts shows a moment of the machine, whatever the threads do.
pub fn boards_show_facts()
    ensures { BoardsShowFacts }
{}
