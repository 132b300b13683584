//! The vertices of one function, which stand one after another.
ghost use Rattle.std.specs.Prelude.{◌<◌, ◌^◌, length};
ghost use Rattle.dep_model.specs.Stretches.{AreByFunction, IsStretchOf};

use crate::vertex::{Vertex, VertexId};
use c_tree::FunctionId;

/// Vertices one after another.
#[derive(Clone, Copy, Debug, PartialEq, Eq)]
pub struct Stretch {
    /// The number of the first.
    pub first: VertexId,
    /// How many they are.
    pub size: u32,
}

/// The vertices of a function, found by a search in the ascending numbers of the functions.
pub fn stretch_of(vertices: &[Vertex], function: FunctionId) -> Stretch
    requires few { length vertices.now < 2 ^ 32 }
    requires by_function { AreByFunction vertices.now }
    ensures { IsStretchOf vertices.now function result }
{
    let first = vertices.partition_point(|v| v.function < function) as u32;
    let last = vertices.partition_point(|v| v.function <= function) as u32;
    Stretch {
        first,
        size: last - first,
    }
}
