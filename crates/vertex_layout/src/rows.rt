//! What each vertex may define, may use and kills, as rows of the program's locations.
ghost use Rattle.std.specs.Prelude.{◌≡◌, ◌≤◌, ◌<◌, IfOk, length};
ghost use Rattle.bit_rows.specs.Tables.{empty_table};
ghost use Rattle.dep_model.specs.Doings.{program_doings};
ghost use Rattle.dep_model.specs.LocationLists.{location_list, AreListedOnce};
ghost use Rattle.dep_model.specs.LocationRows.{points_of, AreRows, HasPointsRows};
ghost use Rattle.dep_model.specs.VertexOrder.{vertex_effects};
ghost use Rattle.vertex_layout.specs.MadeRows.{HasVertexRows, HasGained};
ghost use Rattle.vertex_layout.specs.OwnStatements.{done};
ghost use Rattle.vertex_layout.specs.RowWork.{points_for, IsFound, AreFound};

use crate::row_work::RowWork;
use bit_rows::Rows;
use c_tree::Program;
use dep_model::{Locations, PointsTo, Vertex};
use std::alloc::{AllocError, Global};

/// A row of locations for each vertex.
#[derive(Drop)]
pub(crate) struct VertexRows {
    /// What each may define.
    pub(crate) defined: Rows,
    /// What each may use.
    pub(crate) used: Rows,
    /// What each kills.
    pub(crate) killed: Rows,
}

/// The rows of a program's vertices. Err: no memory was left.
pub(crate) fn find(
    alloc: Global,
    p: &Program,
    l: &Locations,
    t: &PointsTo,
    vertices: &[Vertex],
) -> Result<VertexRows, AllocError>
    requires list_is { l.now ≡ location_list p.now }
    requires once { AreListedOnce p.now }
    requires points_are { HasPointsRows p.now t.now }
    requires few { length vertices.now ≤ 65536 }
    requires found { AreFound p.now (done (program_doings p.now)) vertices.now }
    ensures defined { IfOk result (λ r. AreRows p.now vertices.now (vertex_effects p.now (points_of p.now t.now)).defines r.defined) }
    ensures used { IfOk result (λ r. AreRows p.now vertices.now (vertex_effects p.now (points_of p.now t.now)).uses r.used) }
    ensures killed { IfOk result (λ r. AreRows p.now vertices.now (vertex_effects p.now (points_of p.now t.now)).kills r.killed) }
{
    let mut work = RowWork::of(alloc, p, l, t)?;
    let mut rows = VertexRows::empty(alloc, vertices.len() as u32, l.len())?;
    for (v, vertex) in vertices.iter().enumerate() {
        rows.add(&mut work, vertex, v as u32);
    }
    Ok(rows)
}

impl VertexRows {
    // Empty rows of so many locations for so many vertices.
    fn empty(alloc: Global, vertices: u32, locations: u32) -> Result<VertexRows, AllocError>
        ensures defined { IfOk result (λ r. r.defined ≡ empty_table vertices locations) }
        ensures used { IfOk result (λ r. r.used ≡ empty_table vertices locations) }
        ensures killed { IfOk result (λ r. r.killed ≡ empty_table vertices locations) }
    {
        let defined = Rows::new(alloc, vertices, locations)?;
        let used = Rows::new(alloc, vertices, locations)?;
        let killed = Rows::new(alloc, vertices, locations)?;
        Ok(VertexRows {
            defined,
            used,
            killed,
        })
    }

    // Adds what a vertex may define, may use and kills to the rows at a number.
    fn add(&mut self, work: &mut RowWork<'_, '_>, vertex: &Vertex, row: u32)
        requires found { IsFound work.old.program work.old.doings vertex.now.function vertex.now.kind }
        requires sized { HasVertexRows work.old.program (length self.old.defined.sets) self.old }
        requires row_in { row < length self.old.defined.sets }
        ensures gained { HasGained work.old.program (points_for work.old) vertex.now row self.old self.new }
        ensures size { HasVertexRows work.old.program (length self.old.defined.sets) self.new }
        ensures kept { work.new ≡ work.old }
    {
        work.add_defines(vertex.function, vertex.kind, &mut self.defined, row);
        work.add_uses(vertex.function, vertex.kind, &mut self.used, row);
        work.add_kills(vertex.function, vertex.kind, &mut self.killed, row);
    }
}
