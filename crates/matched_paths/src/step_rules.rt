//! The rules by which one function is gone through backward: along its edges, and over its calls by facts.
ghost use Rattle.std.specs.Prelude.{◌≡◌, ℕ, ◌<◌, ◌++◌, All, OnOk, IfOk, length, flat_map};
ghost use Rattle.matched_paths.specs.EdgeGroups.{group_at};
ghost use Rattle.matched_paths.specs.StepRules.{inner_rules, crossing_rules, step_rules};

use crate::backward::back;
use crate::edge_groups::EdgeGroups;
use crate::fact_places::FactPlaces;
use crate::vertex_range::VertexRange;
use dep_model::{Edge, Label, Rule, VertexId};
use std::alloc::{AllocError, Global};

// Adds the rule that goes back from one vertex of the function to another.
fn add_inner(
    rules: &mut Vec<Rule>,
    range: VertexRange,
    from: VertexId,
    to: VertexId,
) -> Result<(), AllocError>
    ensures { OnOk result (rules.new.items ≡ rules.old.items ++ inner_rules range from to) }
{
    if range.has(from) && range.has(to) {
        rules.push(back(to - range.first, from - range.first))?;
    }
    Ok(())
}

// Adds the rules that go back over one call, from where `leaves` lead to where `enter` begins.
fn add_crossings(
    rules: &mut Vec<Rule>,
    range: VertexRange,
    enter: Edge,
    leaves: &[Edge],
    places: &FactPlaces,
    words: &[u64],
) -> Result<(), AllocError>
    requires enters { enter.to < length places.now.numbers }
    requires leaves { All (λ e. e.from < length places.now.rows) leaves.now }
    ensures { OnOk result (rules.new.items ≡ rules.old.items ++ flat_map (crossing_rules range words.now places.now enter) leaves.now) }
{
    for leave in leaves {
        if places.holds(words, enter.to, leave.from) {
            add_inner(rules, range, enter.from, leave.to)?;
        }
    }
    Ok(())
}

// Adds the rules of one edge that leads from the function.
fn add_rules(
    rules: &mut Vec<Rule>,
    range: VertexRange,
    edge: Edge,
    exits: &EdgeGroups,
    places: &FactPlaces,
    words: &[u64],
) -> Result<(), AllocError>
    requires enters { edge.to < length places.now.numbers }
    requires leaves { (c : ℕ) → All (λ e. e.from < length places.now.rows) (group_at exits.now c) }
    ensures { OnOk result (rules.new.items ≡ rules.old.items ++ step_rules range exits.now words.now places.now edge) }
{
    match edge.label {
        Label::Control | Label::Flow => add_inner(rules, range, edge.from, edge.to),
        Label::In(call) => add_crossings(rules, range, edge, exits.of(call), places, words),
        Label::Call(_) | Label::Out(_) => Ok(()),
    }
}

/// The rules of a function from whose vertices the edges lead. Err: no memory was left.
pub fn function_rules(
    alloc: Global,
    range: VertexRange,
    edges: &[Edge],
    exits: &EdgeGroups,
    places: &FactPlaces,
    words: &[u64],
) -> Result<Vec<Rule>, AllocError>
    requires enters { All (λ e. e.to < length places.now.numbers) edges.now }
    requires leaves { (c : ℕ) → All (λ e. e.from < length places.now.rows) (group_at exits.now c) }
    ensures { IfOk result (λ rules. rules.items ≡ flat_map (step_rules range exits.now words.now places.now) edges.now) }
{
    let mut rules = Vec::new(alloc);
    for edge in edges {
        add_rules(&mut rules, range, *edge, exits, places, words)?;
    }
    Ok(rules)
}
