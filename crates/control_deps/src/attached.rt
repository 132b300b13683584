//! The control edges of formals and actuals, as pairs of vertices.
ghost use Rattle.std.specs.Prelude.{◌≡◌, ◌++◌, ◌<◌, ◌^◌, OnOk, length};
ghost use Rattle.dep_model.specs.Groups.{row};
ghost use Rattle.dep_model.specs.Stretches.{AreByFunction};
ghost use Rattle.control_deps.specs.Attached.{controllers_of, controllers, attached_from};

use crate::walk::join_one;
use c_tree::FunctionId;
use dep_model::{Pair, StatementVertices, Vertex, VertexId, VertexKind, stretch_of};
use std::alloc::AllocError;

// The vertices that a vertex hangs on.
fn controllers_of<'a>(
    entry: &'a [VertexId],
    own: &'a StatementVertices,
    kind: VertexKind,
) -> &'a [VertexId]
    ensures { result.now ≡ controllers_of entry.now (row own.now) kind }
{
    match kind {
        VertexKind::FormalIn(_) | VertexKind::FormalOut(_) => entry,
        VertexKind::ActualIn(id, _) | VertexKind::ActualOut(id, _) => own.row(id),
        VertexKind::Entry | VertexKind::Statement(_) | VertexKind::Call(_) => &[],
    }
}

/// Appends the edges to the formals and actuals of a function.
pub(crate) fn attach(
    out: &mut Vec<Pair>,
    entry: &[VertexId],
    own: &StatementVertices,
    function: FunctionId,
    vertices: &[Vertex],
) -> Result<(), AllocError>
    requires few { length vertices.now < 2 ^ 32 }
    requires by_function { AreByFunction vertices.now }
    ensures { OnOk result (out.new.items ≡ out.old.items ++ attached_from (controllers entry.now (row own.now) function) 0 vertices.now) }
{
    let stretch = stretch_of(vertices, function);
    for number in stretch.first..stretch.first + stretch.size {
        let kind = vertices[number as usize].kind;
        join_one(out, controllers_of(entry, own, kind), number)?;
    }
    Ok(())
}
