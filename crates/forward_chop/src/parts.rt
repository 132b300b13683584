//! The functions of a graph, each ready to be searched along its matched paths.
ghost use Rattle.std.specs.Prelude.{◌≡◌, ℕ, ◌-◌, ◌<◌, ◌≤◌, ◌^◌, All, IfOk, length};
ghost use Rattle.rule_closure.specs.Rules.{IsRuleWithin};
ghost use Rattle.dep_model.specs.Facts.{AreTrueFacts, HoldsFact};
ghost use Rattle.matched_paths.specs.Places.{ArePlaces};
ghost use Rattle.matched_paths.specs.VertexRanges.{AreApartAt};
ghost use Rattle.forward_chop.specs.Fields.{HaveOnePremise};
ghost use Rattle.forward_chop.specs.Parts.{AreRulesOf, IsFieldOf};
ghost use Rattle.forward_chop.specs.Rounds.{AreParts, IsIndex, IsPart};

use crate::field::Field;
use crate::rounds::CallIndex;
use crate::turned::turned;
use dep_model::{Closure, Facts, Graph, Rule, VertexId, VertexSet};
use matched_paths::{FactPlaces, VertexRange, function_rules, range_at};
use std::alloc::{AllocError, Global};

/// Vertices that are searched backward by some rules, and forward by these turned round. Err: no memory was left.
pub(crate) fn field_of(
    alloc: Global,
    range: VertexRange,
    size: u32,
    rules: Vec<Rule>,
) -> Result<Field, AllocError>
    requires within { All (IsRuleWithin size) rules.items }
    ensures { IfOk result (IsFieldOf range size rules.items) }
{
    let turned = turned(alloc, rules.as_slice())?;
    let ahead = Closure::prepare(alloc, size, turned)?;
    let behind = Closure::prepare(alloc, size, rules)?;
    let reached = VertexSet::new(alloc, size)?;
    let reaching = VertexSet::new(alloc, size)?;
    Ok(Field {
        range,
        ahead,
        behind,
        reached,
        reaching,
    })
}

// The rules of the function whose first vertex this is. Err: no memory was left.
fn rules_at(
    alloc: Global,
    g: &Graph,
    f: &Facts,
    index: &CallIndex,
    places: &FactPlaces,
    range: VertexRange,
) -> Result<Vec<Rule>, AllocError>
    requires index { IsIndex g.now index.now.starts index.now.exits }
    requires places { ArePlaces g.now places.now }
    requires inside { range.first < length g.now.vertices }
    ensures { IfOk result (λ rules. AreRulesOf g.now f.now.words range rules.items) }
{
    let function = g.vertices.as_slice()[range.first as usize].function;
    let rules = function_rules(
        alloc,
        range,
        index.starts.of(function),
        &index.exits,
        places,
        f.words.as_slice(),
    )?;
    Ok(rules)
}

// The function whose first vertex this is. Err: no memory was left.
fn part_at(
    alloc: Global,
    g: &Graph,
    f: &Facts,
    index: &CallIndex,
    places: &FactPlaces,
    first: VertexId,
) -> Result<Field, AllocError>
    requires index { IsIndex g.now index.now.starts index.now.exits }
    requires facts { AreTrueFacts g.now f.now.words }
    requires places { ArePlaces g.now places.now }
    requires inside { first < length g.now.vertices }
    requires apart { AreApartAt g.now.vertices first }
    ensures part { IfOk result (IsPart g.now) }
    ensures first { IfOk result (λ p. p.range.first ≡ first) }
    ensures more { IfOk result (λ p. first < p.range.last) }
    ensures apart { IfOk result (λ p. AreApartAt g.now.vertices p.range.last) }
{
    let range = range_at(g.vertices.as_slice(), first);
    let rules = rules_at(alloc, g, f, index, places, range)?;
    let field = field_of(alloc, range, range.last - range.first, rules)?;
    Ok(field)
}

/// The functions of a graph, by its facts. Err: no memory was left.
pub(crate) fn parts_of(
    alloc: Global,
    g: &Graph,
    f: &Facts,
    index: &CallIndex,
) -> Result<Vec<Field>, AllocError>
    requires index { IsIndex g.now index.now.starts index.now.exits }
    requires facts { AreTrueFacts g.now f.now.words }
    ensures { IfOk result (λ parts. AreParts g.now parts.items) }
{
    let places = FactPlaces::find(alloc, g)?;
    let mut parts = Vec::new(alloc);
    let mut first = 0u32;
    while (first as usize) < g.vertices.len() {
        let part = part_at(alloc, g, f, index, &places, first)?;
        first = part.range.last;
        parts.push(part)?;
    }
    Ok(parts)
}
