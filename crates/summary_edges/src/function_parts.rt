//! The functions of a graph: the vertices of each, and the rows of its facts.
ghost use Rattle.std.specs.Prelude.{◌≡◌, ◌≢◌, ◌↔◌, ℕ, ◌^◌, ◌<◌, ◌≤◌, OnOk, IfOk, Some, None, length, get_or, slice_get};
ghost use Rattle.std.specs.List.Sorted.{IsNonDecreasingBy};
ghost use Rattle.dep_model.specs.Shapes.{IsShaped};
ghost use Rattle.dep_model.specs.declared.graph.OutRow.{OutRow};
ghost use Rattle.matched_paths.specs.VertexRanges.{AreApartAt};
ghost use Rattle.summary_edges.specs.FunctionParts.{IsPart, AreParts, AreFirstParts, row_start};

use dep_model::{Graph, OutRow, VertexId};
use matched_paths::{VertexRange, range_at};
use std::alloc::{AllocError, Global};

/// One function of a graph.
#[derive(Clone, Copy, Debug)]
pub(crate) struct FunctionPart {
    /// Its vertices.
    pub(crate) range: VertexRange,
    /// The first of the rows of its formal-outs, among those of all.
    pub(crate) first_row: u32,
    /// The number behind the last of these rows.
    pub(crate) last_row: u32,
    /// The first of the words of these rows.
    pub(crate) first_word: u32,
    /// The number behind the last of these words.
    pub(crate) last_word: u32,
}

/// The functions of a graph, in the order of its vertices.
#[derive(Drop)]
pub(crate) struct FunctionParts {
    /// Each function once.
    pub(crate) list: Vec<FunctionPart>,
    /// For each vertex the place of its function in the list.
    pub(crate) of_vertex: Vec<u32>,
    /// For each number the place in the list of the function that has it, none where there is no such function.
    pub(crate) of_number: Vec<Option<u32>>,
}

/// How many rows stand before those of the vertices from this one on.
pub(crate) fn rows_before(outs: &[OutRow], vertex: VertexId) -> u32
    requires few { length outs.now < 2 ^ 32 }
    requires ascending { IsNonDecreasingBy (λ (r : OutRow). r.vertex) outs.now }
    ensures inside { result ≤ length outs.now }
    ensures before { (k : ℕ) (r : OutRow) → slice_get outs.now k ≡ Some r → (k < result) ↔ (r.vertex < vertex) }
{
    outs.partition_point(|row| row.vertex < vertex) as u32
}

/// The word with which a row begins, or with which it would where there is no such row.
pub(crate) fn word_of(g: &Graph, row: u32) -> u32
    ensures { result ≡ row_start g.now row }
{
    match g.outs.as_slice().get(row as usize) {
        Some(row) => row.word,
        None => g.fact_words,
    }
}

// The function whose first vertex is this one.
fn part_at(g: &Graph, first: VertexId) -> FunctionPart
    requires shaped { IsShaped g.now }
    requires inside { first < length g.now.vertices }
    requires apart { AreApartAt g.now.vertices first }
    ensures first { result.range.first ≡ first }
    ensures is { IsPart g.now result }
    ensures apart { AreApartAt g.now.vertices result.range.last }
{
    let range = range_at(g.vertices.as_slice(), first);
    let first_row = rows_before(g.outs.as_slice(), range.first);
    let last_row = rows_before(g.outs.as_slice(), range.last);
    let first_word = word_of(g, first_row);
    let last_word = word_of(g, last_row);
    FunctionPart {
        range,
        first_row,
        last_row,
        first_word,
        last_word,
    }
}

// Notes the place of the function that has a number.
fn note_place(places: &mut Vec<Option<u32>>, number: u32, place: u32) -> Result<(), AllocError>
    ensures here { OnOk result (get_or places.new.items number None ≡ Some place) }
    ensures others { OnOk result ((f : ℕ) → f ≢ number → get_or places.new.items f None ≡ get_or places.old.items f None) }
{
    let at = number as usize;
    while places.len() <= at {
        places.push(None)?;
    }
    places[at] = Some(place);
    Ok(())
}

// Adds a function to those that stand before it.
fn add_part(parts: &mut FunctionParts, g: &Graph, part: FunctionPart) -> Result<(), AllocError>
    requires few { length g.now.vertices < 2 ^ 32 }
    requires before { AreFirstParts g.now parts.old part.range.first }
    requires is { IsPart g.now part }
    ensures { OnOk result (AreFirstParts g.now parts.new part.range.last) }
{
    let place = parts.list.len() as u32;
    while parts.of_vertex.len() < part.range.last as usize {
        parts.of_vertex.push(place)?;
    }
    let number = g.vertices.as_slice()[part.range.first as usize].function;
    note_place(&mut parts.of_number, number, place)?;
    parts.list.push(part)?;
    Ok(())
}

impl FunctionParts {
    /// The functions of a graph. Err: no memory was left.
    pub(crate) fn find(alloc: Global, g: &Graph) -> Result<FunctionParts, AllocError>
        requires shaped { IsShaped g.now }
        ensures { IfOk result (AreParts g.now) }
    {
        let mut parts = FunctionParts {
            list: Vec::new(alloc),
            of_vertex: Vec::new(alloc),
            of_number: Vec::new(alloc),
        };
        let mut first = 0u32;
        while (first as usize) < g.vertices.len() {
            let part = part_at(g, first);
            add_part(&mut parts, g, part)?;
            first = part.range.last;
        }
        Ok(parts)
    }
}
