//! The engine: a program with its dependence graph, which gives the slice's text at each criterion.
ghost use Rattle.std.specs.Prelude.{◌≡◌, ◌⊎◌, ◌≤◌, ℕ, IfOk, IsTrue, ◌↔◌, MatchOption};
ghost use Rattle.std.specs.Result.{IfErr};
ghost use Rattle.c_tree.specs.declared.limits.LimitName.{LimitName};
ghost use Rattle.c_language.specs.Programs.{IsWellFormed};
ghost use Rattle.dep_model.specs.declared.graph_fault.GraphFault.TheVariants.{Limit};
ghost use Rattle.dep_model.specs.Graphs.{IsGraphOf};
ghost use Rattle.dep_model.specs.LocationLists.{location_list};
ghost use Rattle.dep_model.specs.Shapes.{IsShaped};
ghost use Rattle.slice_engine.specs.Engine.{IsPrepared, IsWithinLimits, AreFactsOf, AreVerticesOf, AreMembers, IsKept, HasPlaces};
ghost use Rattle.slice_engine.specs.GraphLimits.{IsAboveGraphLimit};
ghost use Rattle.slice_engine.specs.Slice.{HasStart, IsSlice, IsFaithful};

use crate::criterion::any_starts_on;
use crate::graph::{graph_of, locations_of};
use crate::slicing::{Slicing, members_at, vertices_at};
use crate::starts::{last_line, starts_in};
use c_tree::numbered::Start;
use c_tree::{Program, Text};
use crew::Gate;
use dep_model::{Facts, Graph, GraphFault, Locations, VertexId, VertexSet};
use std::alloc::{AllocError, Global};
use std::marker::Model;
use std::thread::Threads;
use two_pass::Passes;

/// What a slice is made for: the statements that start on a line, counted from 1.
#[derive(Clone, Copy, Debug, PartialEq, Eq)]
pub struct Criterion {
    /// The line in the file, counted from 1.
    pub line: u32,
}

/// A program with its system dependence graph (Horwitz, Reps and Binkley 1990), from which slices are
/// made. Contracts see the program.
#[derive(Drop)]
pub struct Engine {
    program: Program,
    locations: Locations,
    graph: Graph,
    facts: Facts,
    starts: Vec<Start>,
}

impl Model for Engine {
    ghost use Rattle.c_tree.specs.declared.program.Program.{Program};
    ghost use Rattle.c_tree.specs.contracts.program.Program.{the_row};
    ghost use Rattle.std.specs.Coded.{codes};
    ghost use Rattle.slice_engine.specs.Engine.{IsReady};

    ghost Value = { Program };

    ghost coded = { Prim.hlevel (codes, the_row.coded) };

    ghost view = { λ e. e.program };

    ghost invariant = { λ e. IsReady e.program e.locations e.graph e.facts e.starts.items };
}

impl Engine {
    /// The engine of a program of any form. Its graph is that by where each location may point, whatever the order of the
    /// statements (Andersen 1994). The facts of its functions are found by so many workers, on threads of `rt`, each of which
    /// passes the gate after each number that it draws.
    ///
    /// Err: the program has more than 4,096 locations, or its graph more than 65,536 vertices or 262,144 words of
    /// facts, of which the first is told; or no memory was left, for a worker or besides, which is also told of more than
    /// 4,294,967,295 functions. The program is dropped then.
    pub fn new<R: Threads + Sync, G: Gate + Sync>(
        rt: &R,
        alloc: Global,
        p: Program,
        workers: u32,
        gate: &G,
    ) -> Result<Engine, GraphFault>
        requires well_formed { IsWellFormed p }
        requires workers { (1 ≤ workers) × (workers ≤ 16) }
        ensures program { IfOk result (λ e. e ≡ p) }
        ensures within { IfOk result (λ e. (n : LimitName) → IsAboveGraphLimit p n → ⊥) }
        ensures above { IfErr result (λ f. (n : LimitName) → f ≡ Limit n → IsAboveGraphLimit p n) }
    {
        let locations = locations_of(alloc, &p)?;
        let graph = graph_of(alloc, &p, &locations)?;
        let facts = summary_edges::find(rt, alloc, &graph, workers, gate)?;
        let starts = starts_in(alloc, &p)?;
        Ok(Engine {
            program: p,
            locations,
            graph,
            facts,
            starts,
        })
    }

    /// The program.
    pub fn program(&self) -> &Program
        ensures { result.now ≡ self.now }
    {
        &self.program
    }

    /// The locations of the program, by their numbers.
    pub fn locations(&self) -> &Locations
        ensures { result.now ≡ location_list self.now }
    {
        &self.locations
    }

    /// The system dependence graph of the program, which is within its limits, and in which calls and functions fit one another.
    pub fn graph(&self) -> &Graph
        ensures graph { IsGraphOf self.now result.now }
        ensures within { IsWithinLimits self.now result.now }
        ensures shaped { IsShaped result.now }
    {
        &self.graph
    }

    /// The true facts of each graph of the program: which results of its functions depend on which of their parameters. That there
    /// is such a graph is a law (`programs_have_a_graph`).
    pub fn facts(&self) -> &Facts
        ensures { AreFactsOf self.now result.now }
    {
        &self.facts
    }

    /// The criterion of a line, or None exactly where no statement starts on it.
    pub fn criterion(&self, line: u32) -> Option<Criterion>
        ensures { MatchOption result (HasStart self.now line → ⊥) (λ c. (c.line ≡ line) × HasStart self.now line) }
    {
        if has_start(&self.program, &self.graph, &self.facts, &self.starts, line) {
            Some(Criterion { line })
        } else {
            None
        }
    }

    /// The last line on which a statement starts, 0 where there is no statement.
    pub fn last_line(&self) -> u32
        ensures latest { (line : ℕ) → HasStart self.now line → line ≤ result }
        ensures is_one { (result ≡ 0) ⊎ HasStart self.now result }
    {
        last_line(&self.starts)
    }

    /// The numbers of the vertices of the criterion's statements, ascending, the same in each graph of the program. Of a call these are
    /// its call vertex, and the actual-out of its result where that is stored.
    ///
    /// Err: no memory was left.
    pub fn vertices(&self, alloc: Global, c: Criterion) -> Result<Vec<VertexId>, AllocError>
        ensures { IfOk result (λ found. AreVerticesOf self.now c.line found.items) }
    {
        let found = vertices_at(alloc, &self.program, &self.graph, &self.starts, c.line)?;
        Ok(found)
    }

    /// The vertices that reach those of the criterion's statements by matched calls and returns (Horwitz, Reps and Binkley
    /// 1990). Of a call these are its call vertex, and the actual-out of its result where that is stored.
    ///
    /// Err: no memory was left.
    pub fn members(&self, alloc: Global, c: Criterion) -> Result<VertexSet, AllocError>
        ensures members { IfOk result (AreMembers self.now c.line) }
        ensures size { IfOk result (HasPlaces self.now) }
    {
        let mut passes = Passes::prepare(alloc, &self.graph, &self.facts)?;
        let set = members_at(
            alloc,
            &self.program,
            &self.graph,
            &self.starts,
            &mut passes,
            c.line,
        )?;
        Ok(set)
    }

    /// What makes slices of the program, one after another, without preparing anew what each of them needs.
    ///
    /// Err: no memory was left.
    pub fn slicing(&self, alloc: Global) -> Result<Slicing<'_>, AllocError>
        ensures { IfOk result (λ s. s ≡ self.now) }
    {
        let slicing = Slicing::new(alloc, &self.program, &self.graph, &self.facts, &self.starts)?;
        Ok(slicing)
    }

    /// The vertices that the slice keeps: the completion of what reaches the criterion, by which its text is a program
    /// again (Binkley 1993).
    ///
    /// Err: no memory was left.
    pub fn kept(&self, alloc: Global, c: Criterion) -> Result<VertexSet, AllocError>
        ensures kept { IfOk result (IsKept self.now c.line) }
        ensures size { IfOk result (HasPlaces self.now) }
    {
        let mut slicing = self.slicing(alloc)?;
        let set = slicing.kept(alloc, c)?;
        Ok(set)
    }

    /// The text of the slice at a criterion: a header, and the layout of the program that the kept statements make
    /// (Binkley 1993). It is accepted again, as that program. On each input on which the program ends without an undefined
    /// act the text's program ends without one, in no more acts, with the same values at the criterion.
    ///
    /// Err: no memory was left, or the layout of the slice has more than 4,294,967,296 bytes.
    pub fn slice_text(&self, alloc: Global, c: Criterion) -> Result<Text, AllocError>
        requires start { HasStart self.now c.line }
        ensures slice { IfOk result (λ t. IsSlice self.now c.line t) }
        ensures faithful { IfOk result (λ t. IsFaithful self.now c.line t) }
    {
        let mut slicing = self.slicing(alloc)?;
        let text = slicing.slice_text(alloc, c)?;
        Ok(text)
    }
}

fn has_start(p: &Program, graph: &Graph, facts: &Facts, starts: &[Start], line: u32) -> bool
    requires { IsPrepared p.now graph.now facts.now starts.now }
    ensures { IsTrue result ↔ HasStart p.now line }
{
    any_starts_on(starts, line)
}
