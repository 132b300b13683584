//! The projection of a program to a set of its graph's vertices: the smaller program that they make
//! (Binkley 1993).
#![tactic(auto)]

ghost use Rattle.std.specs.Prelude.{◌≡◌, IfOk, MatchOption, length, true, false};
ghost use Rattle.kept_numbers.specs.Ranks.{rank as rank_of};
ghost use Rattle.projection.specs.KeptVertices.{kept_words, projection};

mod items;
mod numbering;
mod parts;
mod referring;
mod renaming;
mod results;
mod statements;
mod variables;

use c_tree::{Program, StatementId};
use dep_model::{Graph, VertexSet};
use numbering::{is_statement_kept, rank_in_order, rank_one_by_one};
use parts::KeptParts;
use results::giving_functions;
use statements::Selection;
use std::alloc::{AllocError, Global};
use variables::kept_variables;

/// The smaller program that the kept vertices of a program's graph make (Binkley 1993); of the graph,
/// its vertices alone are looked at.
///
/// A statement stays where its vertex or its call does, with its own words. A call keeps the arguments
/// whose actual-ins are kept, and its left side where the actual-out of the result is. A declaration
/// stays where kept text refers to its variable, without its initialiser where that isn't kept. A
/// function stays where its entry does, with the parameters whose formal-ins are kept, in its
/// prototypes too; where its return isn't kept it gives no result, unless it is main. Statements,
/// variables and functions are numbered anew. Err: no memory was left.
pub fn project(
    alloc: Global,
    p: &Program,
    g: &Graph,
    kept: &VertexSet,
) -> Result<Program, AllocError>
    requires { length kept.now ≡ length g.now.vertices }
    ensures { IfOk result (λ q. q ≡ projection p.now g.now.vertices kept.now) }
{
    let parts = KeptParts::of(alloc, g.vertices.as_slice(), kept)?;
    let variables = kept_variables(alloc, p.functions.as_slice(), &parts)?;
    let gives = giving_functions(alloc, p.functions.as_slice(), &parts)?;
    let selection = Selection::new(alloc, &parts, variables.as_slice(), gives.as_slice())?;
    selection.program(alloc, p)
}

/// The number of a kept statement in the projection: how many kept statements are below it. None:
/// the statement isn't kept. Takes one pass over the vertices where kept statements stand in the order
/// of their numbers, as in the graph of a program, and takes no memory.
pub fn rank(g: &Graph, kept: &VertexSet, id: StatementId) -> Option<StatementId>
    requires { length kept.now ≡ length g.now.vertices }
    ensures { MatchOption result ((kept_words kept.now g.now.vertices).statement id ≡ false) (λ n. ((kept_words kept.now g.now.vertices).statement id ≡ true) × (n ≡ rank_of (kept_words kept.now g.now.vertices).statement id)) }
{
    let vertices = g.vertices.as_slice();
    if !is_statement_kept(vertices, kept, id) {
        return None;
    }
    match rank_in_order(vertices, kept, id) {
        Some(below) => Some(below),
        None => Some(rank_one_by_one(vertices, kept, id)),
    }
}
