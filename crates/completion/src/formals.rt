//! The formal-ins of the arguments of each function.
ghost use Rattle.std.specs.Prelude.{◌≡◌, ℕ, ◌<◌, ◌^◌, ◌++◌, OnOk, IfOk, length};
ghost use Rattle.completion.specs.Rows.{row};
ghost use Rattle.completion.specs.NameRules.{formal_of, formals_from};

use crate::rows;
use dep_model::{Slot, Vertex, VertexId, VertexKind};
use std::alloc::{AllocError, Global};

/// The formal-in of an argument.
#[derive(Clone, Copy)]
pub(crate) struct Formal {
    /// Which argument it is, counted from 0.
    pub(crate) place: u32,
    /// Its vertex.
    pub(crate) vertex: VertexId,
}

/// The formal-ins of arguments, by their functions. Err: no memory was left.
pub(crate) fn formals_of(alloc: Global, vertices: &[Vertex]) -> Result<Vec<Vec<Formal>>, AllocError>
    requires few { length vertices.now < 2 ^ 32 }
    ensures { IfOk result (λ rows. (f : ℕ) → row rows.items f ≡ formals_from f 0 vertices.now) }
{
    let mut rows = Vec::new(alloc);
    let mut number = 0u32;
    for vertex in vertices {
        add_formal(alloc, &mut rows, number, vertex)?;
        number += 1;
    }
    Ok(rows)
}

// Adds a vertex to the row of its function, where it is the formal-in of an argument.
fn add_formal(
    alloc: Global,
    rows: &mut Vec<Vec<Formal>>,
    number: VertexId,
    vertex: &Vertex,
) -> Result<(), AllocError>
    ensures { OnOk result ((f : ℕ) → row rows.new.items f ≡ row rows.old.items f ++ formal_of f number vertex.now) }
{
    if let VertexKind::FormalIn(Slot::Argument(place)) = vertex.kind {
        rows::add(
            alloc,
            rows,
            vertex.function as usize,
            Formal {
                place,
                vertex: number,
            },
        )?;
    }
    Ok(())
}
