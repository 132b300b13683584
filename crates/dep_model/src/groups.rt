//! The vertices of one function by what they belong to, found in one pass over the function's stretch.
ghost use Rattle.std.specs.Prelude.{◌≡◌, ℕ, ◌+◌, ◌<◌, ◌≤◌, ◌^◌, ◌++◌, true, false, Some, IfOk, OnOk, length, slice_get};
ghost use Rattle.std.specs.Option.{option_map_or};
ghost use Rattle.std.specs.Bool.{◌==◌};
ghost use Rattle.dep_model.specs.FunctionVertices.{numbers};
ghost use Rattle.dep_model.specs.Groups as spec;
ghost use Rattle.dep_model.specs.Groups.{is_at, in_group, if_is, row, rows_of, rows_from};
ghost use Rattle.dep_model.specs.Stretches.{AreByFunction, IsWithin};
ghost use Rattle.dep_model.specs.declared.vertex.Vertex.{Vertex};

use crate::stretch::{Stretch, stretch_of};
use crate::vertex::{Vertex, VertexId, VertexKind};
use c_tree::{FunctionId, StatementId};
use std::alloc::{AllocError, Global};
use std::marker::Model;

/// The vertices of a function that belong to no statement.
#[derive(Clone, Copy, Debug, PartialEq, Eq)]
pub enum Group {
    /// The entry.
    Entry,
    /// The formal-ins.
    FormalIns,
    /// The formal-outs.
    FormalOuts,
}

// Whether a vertex is of the group.
fn in_group(group: Group, kind: VertexKind) -> bool
    ensures { result ≡ in_group group kind }
{
    match kind {
        VertexKind::Entry => group == Group::Entry,
        VertexKind::FormalIn(_) => group == Group::FormalIns,
        VertexKind::FormalOut(_) => group == Group::FormalOuts,
        VertexKind::Statement(_)
        | VertexKind::Call(_)
        | VertexKind::ActualIn(..)
        | VertexKind::ActualOut(..) => false,
    }
}

/// The numbers of a group's vertices, ascending. Err: no memory was left.
pub fn numbers_of(
    alloc: Global,
    vertices: &[Vertex],
    function: FunctionId,
    group: Group,
) -> Result<Vec<VertexId>, AllocError>
    requires few { length vertices.now < 2 ^ 32 }
    requires by_function { AreByFunction vertices.now }
    ensures { IfOk result (λ found. found.items ≡ numbers (in_group group) function vertices.now) }
{
    let stretch = stretch_of(vertices, function);
    let mut found = Vec::new(alloc);
    for number in stretch.first..stretch.first + stretch.size {
        add_of_group(&mut found, number, vertices[number as usize].kind, group)?;
    }
    Ok(found)
}

// Adds the number of a vertex that is of the group.
fn add_of_group(
    found: &mut Vec<VertexId>,
    number: VertexId,
    kind: VertexKind,
    group: Group,
) -> Result<(), AllocError>
    ensures { OnOk result (found.new.items ≡ found.old.items ++ if_is (in_group group) number kind) }
{
    if in_group(group, kind) {
        found.push(number)?;
    }
    Ok(())
}

/// The vertices of each statement of a function, in their order: its own, and where `actuals` says
/// so the actuals of a call too. Contracts see a list of their numbers for each statement.
#[derive(Drop)]
pub struct StatementVertices {
    // The statement whose vertices the first row has.
    first: StatementId,
    rows: Vec<Vec<VertexId>>,
}

impl Model for StatementVertices {
    ghost use Rattle.std.specs.Prelude.{List, ℕ};
    ghost use Rattle.dep_model.specs.Groups.{rows_from};

    ghost Value = { List (List ℕ) };

    ghost view = { λ t. rows_from t.first t.rows };
}

impl StatementVertices {
    /// Finds the vertices of all statements. Err: no memory was left.
    pub fn find(
        alloc: Global,
        vertices: &[Vertex],
        function: FunctionId,
        actuals: bool,
    ) -> Result<StatementVertices, AllocError>
        requires few { length vertices.now < 2 ^ 32 }
        requires by_function { AreByFunction vertices.now }
        ensures { IfOk result (λ t. (i : ℕ) → row t i ≡ numbers (is_at actuals i) function vertices.now) }
    {
        let stretch = stretch_of(vertices, function);
        let first = least_statement(vertices, stretch, actuals);
        let mut rows = Vec::new(alloc);
        for number in stretch.first..stretch.first + stretch.size {
            let kind = vertices[number as usize].kind;
            add_vertex(alloc, &mut rows, first, number, kind, actuals)?;
        }
        Ok(StatementVertices { first, rows })
    }

    /// The vertices of a statement.
    pub fn row(&self, id: StatementId) -> &[VertexId]
        ensures { result.now ≡ row self.now id }
    {
        if id < self.first {
            return &[];
        }
        let at = (id - self.first) as usize;
        if at < self.rows.len() {
            self.rows[at].as_slice()
        } else {
            &[]
        }
    }
}

// The statement that a vertex belongs to.
fn statement_of(kind: VertexKind, actuals: bool) -> Option<StatementId>
    ensures { (i : ℕ) → is_at actuals i kind ≡ option_map_or (λ j. j == i) result false }
{
    match kind {
        VertexKind::Statement(id) | VertexKind::Call(id) => Some(id),
        VertexKind::ActualIn(id, _) | VertexKind::ActualOut(id, _) => {
            if actuals { Some(id) } else { None }
        }
        VertexKind::Entry | VertexKind::FormalIn(_) | VertexKind::FormalOut(_) => None,
    }
}

// The least statement to which vertices of a stretch belong, or the greatest number where they belong to none.
fn least_statement(vertices: &[Vertex], stretch: Stretch, actuals: bool) -> StatementId
    requires few { length vertices.now < 2 ^ 32 }
    requires inside { stretch.first + stretch.size ≤ length vertices.now }
    ensures { (v : ℕ) (x : Vertex) (i : ℕ) → IsWithin stretch v → slice_get vertices.now v ≡ Some x → is_at actuals i x.kind ≡ true → result ≤ i }
{
    let mut least = u32::MAX;
    for number in stretch.first..stretch.first + stretch.size {
        if let Some(id) = statement_of(vertices[number as usize].kind, actuals) {
            least = least.min(id);
        }
    }
    least
}

// Adds a vertex to the row of its statement, where the first row is that of statement `first`.
fn add_vertex(
    alloc: Global,
    rows: &mut Vec<Vec<VertexId>>,
    first: StatementId,
    number: VertexId,
    kind: VertexKind,
    actuals: bool,
) -> Result<(), AllocError>
    requires has_row { (i : ℕ) → is_at actuals i kind ≡ true → first ≤ i }
    ensures { OnOk result ((i : ℕ) → row (rows_from first rows.new) i ≡ row (rows_from first rows.old) i ++ if_is (is_at actuals i) number kind) }
{
    if let Some(id) = statement_of(kind, actuals) {
        add(alloc, rows, id - first, number)?;
    }
    Ok(())
}

// Adds a number to a row, which is made where there is none.
fn add(
    alloc: Global,
    rows: &mut Vec<Vec<VertexId>>,
    place: u32,
    number: VertexId,
) -> Result<(), AllocError>
    ensures { OnOk result ((i : ℕ) → row (rows_of rows.new) i ≡ row (rows_of rows.old) i ++ spec.if_same place i number) }
{
    let at = place as usize;
    while rows.len() <= at {
        rows.push(Vec::new(alloc))?;
    }
    push_at(rows, at, number)?;
    Ok(())
}

// Adds a number to a row that is there.
fn push_at(rows: &mut Vec<Vec<VertexId>>, at: usize, number: VertexId) -> Result<(), AllocError>
    requires { at < length rows.old.items }
    ensures { OnOk result ((i : ℕ) → row (rows_of rows.new) i ≡ row (rows_of rows.old) i ++ spec.if_same at i number) }
{
    rows[at].push(number)?;
    Ok(())
}
