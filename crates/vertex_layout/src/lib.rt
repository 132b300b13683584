//! The vertices of a program's system dependence graph (Horwitz, Reps and Binkley 1990).
#![tactic(auto)]

ghost use Rattle.std.specs.Prelude.{◌≡◌, ◌<◌, ◌^◌, IfOk, length, map};
ghost use Rattle.std.specs.List.{range_with_len};
ghost use Rattle.std.specs.Result.{IfErr};
ghost use Rattle.c_tree.specs.declared.limits.LimitName.{LimitName};
ghost use Rattle.dep_model.specs.Doings.{doing_number, program_doings};
ghost use Rattle.dep_model.specs.LocationLists.{location_list, AreListedOnce};
ghost use Rattle.dep_model.specs.LocationRows.{analysis_of, effects_of, HasEffectRows, HasPointsRows};
ghost use Rattle.dep_model.specs.Skeletons.{IsSkeleton};
ghost use Rattle.dep_model.specs.VertexOrder.{program_vertices};
ghost use Rattle.dep_model.specs.declared.graph_fault.GraphFault.TheVariants.{Limit};
ghost use Rattle.vertex_layout.specs.Limits.{IsWithin, IsBeyond};

mod calls;
mod fact_words;
mod listing;
mod row_work;
mod rows;
mod seen;
mod statements;

use crate::seen::Seen;
use c_tree::{LimitName, Program};
use dep_model::{Effects, GraphFault, Locations, PointsTo, Skeleton, Vertex};
use sqlite_items::Items;
use std::alloc::Global;

/// The largest number of words that the facts of a graph take.
const MAX_FACT_WORDS: u32 = 262_144;

/// The vertices of a program in their order, where the rows of `effects` say what its functions modify and use.
/// Err: there are more than 65,536 of them; or there are no more, but the facts of their graph would take more
/// than 262,144 words of 64 bits; or no memory was left.
pub fn vertices_of(
    alloc: Global,
    p: &Program,
    list: &Locations,
    effects: &Effects,
) -> Result<Vec<Vertex>, GraphFault>
    requires list_is { list.now ≡ location_list p.now }
    requires once { AreListedOnce p.now }
    requires few_functions { length p.now.functions < 2 ^ 32 }
    requires effects_are { HasEffectRows p.now effects.now }
    ensures vertices { IfOk result (λ vs. vs.items ≡ program_vertices p.now (effects_of p.now effects.now)) }
    ensures within { IfOk result (λ vs. IsWithin vs.items) }
    ensures above { IfErr result (λ f. (name : LimitName) → f ≡ Limit name → IsBeyond (program_vertices p.now (effects_of p.now effects.now)) name) }
{
    let seen = Seen::of(p, list, effects);
    let vertices = listing::find(alloc, &seen)?.into_list();
    if fact_words::find(alloc, vertices.as_slice())? > MAX_FACT_WORDS {
        return Err(GraphFault::Limit(LimitName::FactWords));
    }
    Ok(vertices)
}

/// The vertices of a program in their order, each with its rows of what it may define, may use and kills, where
/// the rows of `points` say where locations may point, and those of `effects` what functions modify and use. Err:
/// as for `vertices_of`, before any row is made; or no memory was left.
pub fn lay_out(
    alloc: Global,
    p: &Program,
    list: &Locations,
    points: &PointsTo,
    effects: &Effects,
) -> Result<Skeleton, GraphFault>
    requires list_is { list.now ≡ location_list p.now }
    requires once { AreListedOnce p.now }
    requires numbered { map doing_number (program_doings p.now) ≡ range_with_len 0 p.now.statements }
    requires few_functions { length p.now.functions < 2 ^ 32 }
    requires points_are { HasPointsRows p.now points.now }
    requires effects_are { HasEffectRows p.now effects.now }
    ensures skeleton { IfOk result (λ s. IsSkeleton p.now (analysis_of p.now points.now effects.now) s) }
    ensures within { IfOk result (λ s. IsWithin s.vertices) }
    ensures above { IfErr result (λ f. (name : LimitName) → f ≡ Limit name → IsBeyond (program_vertices p.now (effects_of p.now effects.now)) name) }
{
    let vertices = vertices_of(alloc, p, list, effects)?;
    let rows = rows::find(alloc, p, list, points, vertices.as_slice())?;
    Ok(Skeleton {
        vertices: Items::from_vec(vertices),
        defined: rows.defined,
        used: rows.used,
        killed: rows.killed,
    })
}
