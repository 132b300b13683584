//! The number of a kept statement in the projection, found without memory.
ghost use Rattle.std.specs.Prelude.{◌≡◌, ℕ, ◌<◌, ◌&&◌, length, slice_get, IfSome, false};
ghost use Rattle.std.specs.Option.{option_map_or};
ghost use Rattle.std.specs.Bool.{◌==◌};
ghost use Rattle.bit_rows.specs.Sets.{has};
ghost use Rattle.dep_model.specs.declared.vertex.Vertex.{Vertex};
ghost use Rattle.dep_model.specs.FunctionVertices.{is_own};
ghost use Rattle.kept_numbers.specs.Ranks.{rank as rank_of};
ghost use Rattle.projection.specs.KeptVertices.{kept_words};

use c_tree::StatementId;
use dep_model::{Vertex, VertexId, VertexKind, VertexSet};

// The statement whose own vertex this is: its vertex, or its call.
fn own_number(kind: VertexKind) -> Option<StatementId>
    ensures { (i : ℕ) → is_own i kind ≡ option_map_or (λ j. j == i) result false }
{
    match kind {
        VertexKind::Statement(id) | VertexKind::Call(id) => Some(id),
        VertexKind::Entry
        | VertexKind::FormalIn(_)
        | VertexKind::FormalOut(_)
        | VertexKind::ActualIn(..)
        | VertexKind::ActualOut(..) => None,
    }
}

// The statement whose own vertex a vertex of the set is.
fn kept_number(vertices: &[Vertex], kept: &VertexSet, number: VertexId) -> Option<StatementId>
    requires { number < length kept.now }
    ensures { (i : ℕ) → (has kept.now number && option_map_or (λ (v : Vertex). is_own i v.kind) (slice_get vertices.now number) false) ≡ option_map_or (λ j. j == i) result false }
{
    if !kept.has(number) {
        return None;
    }
    match vertices.get(number as usize) {
        Some(vertex) => own_number(vertex.kind),
        None => None,
    }
}

// Whether a vertex of the set is the own one of a statement.
fn is_own_kept(vertices: &[Vertex], kept: &VertexSet, number: VertexId, id: StatementId) -> bool
    requires { number < length kept.now }
    ensures { result ≡ (has kept.now number && option_map_or (λ (v : Vertex). is_own id v.kind) (slice_get vertices.now number) false) }
{
    match kept_number(vertices, kept, number) {
        Some(own) => own == id,
        None => false,
    }
}

/// Whether a statement's own vertex is kept.
#[tactic(auto, using(crate::proofs::HeldLemmas::holds_past))]
pub(crate) fn is_statement_kept(vertices: &[Vertex], kept: &VertexSet, id: StatementId) -> bool
    requires { length kept.now ≡ length vertices.now }
    ensures { result ≡ (kept_words kept.now vertices.now).statement id }
{
    for number in 0..kept.len() {
        if is_own_kept(vertices, kept, number, id) {
            return true;
        }
    }
    false
}

/// How many statements below a number are kept, in one pass over vertices whose kept statements stand
/// in the order of their numbers, as those of a program do. None: they don't stand so.
pub(crate) fn rank_in_order(vertices: &[Vertex], kept: &VertexSet, id: StatementId) -> Option<u32>
    requires { length kept.now ≡ length vertices.now }
    ensures { IfSome result (λ n. n ≡ rank_of (kept_words kept.now vertices.now).statement id) }
{
    let mut below = 0;
    let mut next = 0u64;
    for number in 0..kept.len() {
        if let Some(own) = kept_number(vertices, kept, number) {
            if (own as u64) < next {
                return None;
            }
            next = own as u64 + 1;
            if own < id {
                below += 1;
            }
        }
    }
    Some(below)
}

/// How many statements below a number are kept, each looked up by itself.
pub(crate) fn rank_one_by_one(vertices: &[Vertex], kept: &VertexSet, id: StatementId) -> u32
    requires { length kept.now ≡ length vertices.now }
    ensures { result ≡ rank_of (kept_words kept.now vertices.now).statement id }
{
    let mut below = 0;
    for other in 0..id {
        if is_statement_kept(vertices, kept, other) {
            below += 1;
        }
    }
    below
}
