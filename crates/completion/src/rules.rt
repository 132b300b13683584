//! The closures of a program's graph, as rules.
ghost use Rattle.std.specs.Prelude.{◌≡◌, ℕ, ◌<◌, ◌^◌, ◌++◌, false, Contains, OnOk, IfOk, length, map, flat_map, slice_get};
ghost use Rattle.std.specs.Option.{option_map_or};
ghost use Rattle.bit_rows.specs.Sets.{has};
ghost use Rattle.dep_model.specs.MayPoint.{parameters};
ghost use Rattle.dep_model.specs.NamedParameters.{kind_names};
ghost use Rattle.completion.specs.Closing as spec;
ghost use Rattle.completion.specs.Numbered.{AreRows};
ghost use Rattle.completion.specs.NameRules.{one_premise, named_rule, name_rules};

use crate::formals::{Formal, formals_of};
use crate::names::mark_vertex;
use crate::rows;
use crate::statements::Statements;
use c_tree::{FunctionId, Program, VarId};
use dep_model::{Edge, Label, Rule, Vertex, VertexId};
use std::alloc::{AllocError, Global};

fn one_premise(first: VertexId, gives: VertexId) -> Rule
    ensures { result ≡ one_premise first gives }
{
    Rule {
        first,
        second: first,
        gives,
    }
}

// The rule of an edge.
fn rule_of(edge: Edge) -> Rule
    ensures { result ≡ spec.rule_of edge }
{
    match edge.label {
        Label::Control | Label::Flow | Label::Out(_) => one_premise(edge.to, edge.from),
        Label::Call(_) => one_premise(edge.from, edge.to),
        Label::In(call) => Rule {
            first: call,
            second: edge.to,
            gives: edge.from,
        },
    }
}

/// The rules of edges. Err: no memory was left.
pub(crate) fn rules_of(alloc: Global, edges: &[Edge]) -> Result<Vec<Rule>, AllocError>
    ensures { IfOk result (λ rules. rules.items ≡ map spec.rule_of edges.now) }
{
    edges.iter().map(|e| rule_of(*e)).collect(alloc)
}

// The parameters of a function.
fn parameters(p: &Program, function: FunctionId) -> &[VarId]
    ensures { result.now ≡ parameters p.now function }
{
    match p.functions.as_slice().get(function as usize) {
        Some(found) => found.params.as_slice(),
        None => &[],
    }
}

// Adds the rules from a vertex to the formal-ins of the parameters that are marked.
fn add_marked(
    rules: &mut Vec<Rule>,
    number: VertexId,
    parameters: &[VarId],
    used: &[bool],
    formals: &[Formal],
) -> Result<(), AllocError>
    ensures { OnOk result (rules.new.items ≡ rules.old.items ++ flat_map (named_rule parameters.now (has used.now) number) formals.now) }
{
    for formal in formals {
        if is_marked(parameters, used, formal.place) {
            rules.push(one_premise(number, formal.vertex))?;
        }
    }
    Ok(())
}

// Whether the parameter at a place is marked.
fn is_marked(parameters: &[VarId], used: &[bool], place: u32) -> bool
    ensures { result ≡ option_map_or (has used.now) (slice_get parameters.now place) false }
{
    match parameters.get(place as usize) {
        Some(var) => used.get(*var as usize).copied().unwrap_or(false),
        None => false,
    }
}

// Adds the rules from a vertex to the formal-ins of the parameters that it names.
fn add_named(
    rules: &mut Vec<Rule>,
    used: &mut Vec<bool>,
    p: &Program,
    statements: &Statements<'_>,
    formals: &[Formal],
    number: VertexId,
    vertex: Vertex,
) -> Result<(), AllocError>
    requires { AreRows p.now statements.now.rows.items }
    ensures { OnOk result (rules.new.items ≡ rules.old.items ++ flat_map (named_rule (parameters p.now vertex.function) (kind_names p.now vertex.function vertex.kind) number) formals.now) }
{
    let parameters = parameters(p, vertex.function);
    used.clear();
    mark_vertex(used, statements, vertex)?;
    add_marked(rules, number, parameters, used.as_slice(), formals)?;
    Ok(())
}

/// Adds the rules that say which vertex names which parameter. Err: no memory was left.
pub(crate) fn add_names(
    alloc: Global,
    rules: &mut Vec<Rule>,
    p: &Program,
    vertices: &[Vertex],
) -> Result<(), AllocError>
    requires few { length vertices.now < 2 ^ 32 }
    ensures { OnOk result (rules.new.items ≡ rules.old.items ++ name_rules p.now vertices.now) }
{
    let statements = Statements::find(alloc, p)?;
    let formals = formals_of(alloc, vertices)?;
    let mut used = Vec::new(alloc);
    let mut number = 0u32;
    for vertex in vertices {
        let own = rows::row(formals.as_slice(), vertex.function as usize);
        add_named(rules, &mut used, p, &statements, own, number, *vertex)?;
        number += 1;
    }
    Ok(())
}
