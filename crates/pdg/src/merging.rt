//! Two ascending lists of edges as one.
ghost use Rattle.std.specs.Prelude.{◌⊎◌, ◌↔◌, IfOk, Contains};
ghost use Rattle.dep_model.specs.EdgeOrder.{AreAscendingEdges};
ghost use Rattle.dep_model.specs.declared.edge.Edge.{Edge};

use dep_model::Edge;
use std::alloc::{AllocError, Global};
use std::cmp::Ordering;

/// The edges of two ascending lists, ascending and each once. Err: no memory was left.
pub(crate) fn merge(alloc: Global, left: &[Edge], right: &[Edge]) -> Result<Vec<Edge>, AllocError>
    requires left { AreAscendingEdges left.now }
    requires right { AreAscendingEdges right.now }
    ensures exact { IfOk result (λ es. (e : Edge) → Contains es.items e ↔ (Contains left.now e ⊎ Contains right.now e)) }
    ensures ascending { IfOk result (λ es. AreAscendingEdges es.items) }
{
    let mut all = Vec::new(alloc);
    let mut i = 0;
    let mut j = 0;
    while i < left.len() && j < right.len() {
        match left[i].cmp(&right[j]) {
            Ordering::Less => {
                all.push(left[i])?;
                i += 1;
            }
            Ordering::Equal => {
                all.push(left[i])?;
                i += 1;
                j += 1;
            }
            Ordering::Greater => {
                all.push(right[j])?;
                j += 1;
            }
        }
    }
    all.extend_from_slice(&left[i..])?;
    all.extend_from_slice(&right[j..])?;
    Ok(all)
}
