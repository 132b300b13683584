//! The facts of a graph as the truth of a board.
ghost use Rattle.std.specs.Prelude.{◌≡◌, ◌≢◌, All, slice_index};
ghost use Rattle.std.specs.List.{AllPairs};
ghost use Rattle.crew.specs.Rounds.{MayPut};
ghost use Rattle.dep_model.specs.Shapes.{IsShaped};
ghost use Rattle.summary_edges.specs.FactMachine.{BitsAreApart, IsFunction, IsStepBit, IsTrueBit};
ghost use Rattle.summary_edges.specs.StepTruth.{sound_bits};

use crate::fact_index::FactIndex;
use crew::Truth;
use dep_model::Graph;

/// The true facts of a graph, on a board whose workers draw the functions of an agenda: true are the bits of the true facts, and who
/// drew a function's number may put what one step of it gives from what he knows.
///
/// No bit is that of two facts, and the agenda names functions of it, each at most once. That the graph is shaped is a
/// condition of what is done with it (`IsReadyTruth` of `specs/Workers`).
#[derive(Clone, Copy)]
pub struct FactTruth<'a> {
    pub(crate) graph: &'a Graph,
    pub(crate) agenda: &'a [u32],
    // What steps look up, where it is lent.
    pub(crate) index: Option<&'a FactIndex>,
    ghost apart: { BitsAreApart graph.now },
    ghost functions: { All (IsFunction graph.now) agenda.now },
    ghost once: { AllPairs (λ f h. f ≢ h) agenda.now },
}

impl<'a> Truth for FactTruth<'a> {
    ghost is_true = { λ t n. IsTrueBit t.graph.now n };

    ghost may_put = { λ t drawn known n. MayPut (IsStepBit t.graph.now) t.agenda.now drawn known n };

    ghost sound = { λ t drawn known n all h. sound_bits t.graph.now t.apart known all (slice_index t.agenda.now h.0) n h.3 };
}

impl<'a> FactTruth<'a> {
    ghost use Rattle.summary_edges.specs.FactIndexes.{IsIndex};
    ghost use Rattle.summary_edges.specs.Workers.{IsReadyTruth};

    /// The true facts of a graph, where the functions of an agenda are shared out. It takes no memory.
    pub fn new(graph: &'a Graph, agenda: &'a [u32]) -> FactTruth<'a>
        requires shaped { IsShaped graph.now }
        requires functions { All (IsFunction graph.now) agenda.now }
        requires once { AllPairs (λ f h. f ≢ h) agenda.now }
        ensures graph { result.graph.now ≡ graph.now }
        ensures agenda { result.agenda.now ≡ agenda.now }
        ensures ready { IsReadyTruth result }
    {
        FactTruth {
            graph,
            agenda,
            index: None,
        }
    }

    /// The same, with what steps look up.
    pub(crate) fn with_index(
        graph: &'a Graph,
        agenda: &'a [u32],
        index: &'a FactIndex,
    ) -> FactTruth<'a>
        requires index { IsIndex graph.now index.now }
        requires functions { All (IsFunction graph.now) agenda.now }
        requires once { AllPairs (λ f h. f ≢ h) agenda.now }
        ensures graph { result.graph.now ≡ graph.now }
        ensures agenda { result.agenda.now ≡ agenda.now }
        ensures ready { IsReadyTruth result }
    {
        FactTruth {
            graph,
            agenda,
            index: Some(index),
        }
    }
}
