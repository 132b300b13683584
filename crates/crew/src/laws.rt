//! The laws of the board. Each function is a law, and holds no code: its contract is the law, over the definitions of `specs/`.
//!
//! Those on whole rounds are lemmas (`proofs/RoundLaws`), since they speak of the step of a function: of any one.
ghost use Rattle.crew.specs.Laws.{BoardsShowMoments, BoardsShareOut, EventsKeepTruth, WordsNeverShrink};

use crate::truth::Truth;

/// A law: in each state that the rule of a board allows, some lawful list of events of the machine leads to the moment that the board
/// shows, its fact words, its draw word, and of each seat what it drew and knows.
pub fn boards_show_moments<T: Truth>()
    ensures { BoardsShowMoments T.is_true T.may_put }
{}

/// A law: there each number is drawn by at most one seat, and drawn are exactly those below both the draw word and the end.
pub fn boards_share_out<T: Truth>()
    ensures { BoardsShareOut T.is_true T.may_put }
{}

/// A law: after each lawful list of events from true opening words, the words hold the opening and true facts alone, and drawn are
/// exactly the numbers below both the draw word and the end, each by one worker.
pub fn events_keep_truth<T: Truth>()
    ensures { EventsKeepTruth T.is_true T.may_put }
{}

/// A law: the words after a longer list of events hold all facts of those after its front.
pub fn words_never_shrink()
    ensures { WordsNeverShrink }
{}
