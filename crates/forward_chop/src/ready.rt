//! The parts of a chopper, made of a graph and its facts.
ghost use Rattle.std.specs.Prelude.{◌≡◌, ℕ, ◌<◌, ◌≤◌, ◌^◌, IfOk, IsTrue, length};
ghost use Rattle.bit_rows.specs.Sets.{has};
ghost use Rattle.dep_model.specs.Facts.{AreTrueFacts};
ghost use Rattle.dep_model.specs.Shapes.{IsShaped};
ghost use Rattle.forward_chop.specs.Outs.{AreOrdered};
ghost use Rattle.forward_chop.specs.Pairs.{IsLaid};
ghost use Rattle.forward_chop.specs.Rounds.{CoversCalls, IsIndex};
ghost use Rattle.forward_chop.specs.Whole.{IsWhole};

use crate::field::Field;
use crate::outs::outs_of;
use crate::parts::field_of;
use crate::rounds::CallIndex;
use crate::wanted::Wanted;
use dep_model::{Facts, Graph};
use matched_paths::{EdgeGroups, VertexRange};
use sqlite_items::Items;
use std::alloc::{AllocError, Global};
use two_pass::rules_of;

/// The same graph once more. Err: no memory was left.
pub(crate) fn copy_of(alloc: Global, g: &Graph) -> Result<Graph, AllocError>
    ensures { IfOk result (λ c. c ≡ g.now) }
{
    let vertices = Items::from_slice(alloc, g.vertices.as_slice())?;
    let edges = Items::from_slice(alloc, g.edges.as_slice())?;
    let outs = Items::from_slice(alloc, g.outs.as_slice())?;
    Ok(Graph {
        vertices,
        edges,
        outs,
        fact_words: g.fact_words,
    })
}

/// The edges of a graph in groups. Err: no memory was left.
pub(crate) fn index_of(alloc: Global, g: &Graph) -> Result<CallIndex, AllocError>
    requires { IsShaped g.now }
    ensures { IfOk result (λ i. IsIndex g.now i.starts i.exits) }
{
    let starts = EdgeGroups::by_function(alloc, g.vertices.as_slice(), g.edges.as_slice())?;
    let exits = EdgeGroups::by_call(alloc, g.edges.as_slice())?;
    Ok(CallIndex { starts, exits })
}

/// A graph as a whole, with the rules of both passes. Err: no memory was left.
pub(crate) fn whole_of(alloc: Global, g: &Graph, f: &Facts) -> Result<Field, AllocError>
    requires shaped { IsShaped g.now }
    requires facts { AreTrueFacts g.now f.now.words }
    ensures { IfOk result (IsWhole g.now) }
{
    let size = g.vertices.len() as u32;
    let rules = rules_of(alloc, size, g, f)?;
    let range = VertexRange {
        first: 0,
        last: size,
    };
    let field = field_of(alloc, range, size + size, rules)?;
    Ok(field)
}

/// The bits for the pairs of a graph's calls. Err: no memory was left.
pub(crate) fn wanted_of(alloc: Global, g: &Graph, index: &CallIndex) -> Result<Wanted, AllocError>
    requires { IsIndex g.now index.now.starts index.now.exits }
    ensures laid { IfOk result IsLaid }
    ensures all { IfOk result (λ w. length w.outs.items ≡ length g.now.vertices) }
    ensures covered { IfOk result (CoversCalls g.now.edges) }
{
    let size = g.vertices.len() as u32;
    let outs = outs_of(alloc, size, g.edges.as_slice(), &index.exits)?;
    let wanted = Wanted::new(alloc, outs)?;
    Ok(wanted)
}
