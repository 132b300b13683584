//! The pairs of statements, by one walk from the ends of their lists.
ghost use Rattle.std.specs.Prelude.{◌≡◌, ◌++◌, OnOk, IfOk, length, Option, Some, None};
ghost use Rattle.dep_model.specs.Follows.{enters};
ghost use Rattle.dep_model.specs.Groups.{row};
ghost use Rattle.flow_graph.specs.Walk as spec;
ghost use Rattle.flow_graph.specs.Walk.{linked, led_to, flow, flows, flow_part, if_taken, arm_flows};

use crate::defaults::has_default;
use c_tree::{Arm, Statement};
use dep_model::{Pair, StatementVertices, VertexId, taken_arms};
use sqlite_items::Boxed;
use std::alloc::{AllocError, Global};

// The first of some vertices, or `next` where there is none.
fn entered(vertices: &[VertexId], next: Option<VertexId>) -> Option<VertexId>
    ensures { result ≡ enters vertices.now next }
{
    match vertices.first() {
        Some(first) => Some(*first),
        None => next,
    }
}

// Appends the pair of a vertex and what follows it, where something does.
fn push_pair(out: &mut Vec<Pair>, from: VertexId, next: Option<VertexId>) -> Result<(), AllocError>
    ensures { OnOk result (out.new.items ≡ out.old.items ++ spec.to_next from next) }
{
    if let Some(to) = next {
        out.push(Pair { from, to })?;
    }
    Ok(())
}

/// Appends the pairs of some vertices that follow one another, and of the last one and what
/// follows it.
pub(crate) fn link(
    out: &mut Vec<Pair>,
    vertices: &[VertexId],
    next: Option<VertexId>,
) -> Result<(), AllocError>
    ensures { OnOk result (out.new.items ≡ out.old.items ++ linked vertices.now next) }
{
    for (i, vertex) in vertices.iter().enumerate() {
        push_pair(out, *vertex, entered(&vertices[i + 1..], next))?;
    }
    Ok(())
}

// Appends the pairs of a simple statement, and answers where it is entered.
pub(crate) fn simple(
    out: &mut Vec<Pair>,
    vertices: &[VertexId],
    next: Option<VertexId>,
) -> Result<Option<VertexId>, AllocError>
    ensures pairs { OnOk result (out.new.items ≡ out.old.items ++ linked vertices.now next) }
    ensures start { IfOk result (λ k. k ≡ enters vertices.now next) }
{
    link(out, vertices, next)?;
    Ok(entered(vertices, next))
}

/// Appends the pairs of statements, from the last one on, and answers where they are entered.
#[cycle(statement)]
pub(crate) fn statements(
    alloc: Global,
    out: &mut Vec<Pair>,
    own: &StatementVertices,
    list: &[Statement],
    next: Option<VertexId>,
) -> Result<Option<VertexId>, AllocError>
    ensures pairs { OnOk result (out.new.items ≡ out.old.items ++ (flows (row own.now) list.now).pairs next) }
    ensures start { IfOk result (λ k. k ≡ (flows (row own.now) list.now).start next) }
{
    let mut start = next;
    let mut left = list.len();
    while left > 0 {
        left -= 1;
        start = statement(alloc, out, own, &list[left], start)?;
    }
    Ok(start)
}

// Appends the pairs of a list that a test leads to, and those to it, and answers where it is entered.
#[cycle(statement)]
fn lead_to(
    alloc: Global,
    out: &mut Vec<Pair>,
    own: &StatementVertices,
    test: &[VertexId],
    list: &[Statement],
    next: Option<VertexId>,
) -> Result<Option<VertexId>, AllocError>
    ensures pairs { OnOk result (out.new.items ≡ out.old.items ++ led_to test.now (flows (row own.now) list.now) next) }
    ensures start { IfOk result (λ k. k ≡ (flows (row own.now) list.now).start next) }
{
    let start = statements(alloc, out, own, list, next)?;
    link(out, test, start)?;
    Ok(start)
}

// Appends the pairs of the arms of a switch that are taken.
#[cycle(statement)]
fn arms(
    alloc: Global,
    out: &mut Vec<Pair>,
    own: &StatementVertices,
    test: &[VertexId],
    list: &[Arm],
    taken: &[bool],
    next: Option<VertexId>,
) -> Result<(), AllocError>
    requires for_each { length taken.now ≡ length list.now }
    ensures { OnOk result (out.new.items ≡ out.old.items ++ arm_flows (row own.now) test.now taken.now list.now next) }
{
    for (i, child) in list.iter().enumerate() {
        arm(alloc, out, own, test, child, taken[i], next)?;
    }
    Ok(())
}

// Appends the pairs of an arm, where it is taken.
#[cycle(statement)]
fn arm(
    alloc: Global,
    out: &mut Vec<Pair>,
    own: &StatementVertices,
    test: &[VertexId],
    arm: &Arm,
    is_taken: bool,
    next: Option<VertexId>,
) -> Result<(), AllocError>
    ensures { OnOk result (out.new.items ≡ out.old.items ++ if_taken (row own.now) test.now is_taken arm.now.body next) }
{
    if !is_taken {
        return Ok(());
    }
    lead_to(alloc, out, own, test, arm.body.as_slice(), next)?;
    Ok(())
}

// Appends the pairs from a test past the arms of a switch, where it has no default.
fn pass_by(
    out: &mut Vec<Pair>,
    test: &[VertexId],
    has_default: bool,
    next: Option<VertexId>,
) -> Result<(), AllocError>
    ensures { OnOk result (out.new.items ≡ out.old.items ++ spec.past test.now has_default next) }
{
    if !has_default {
        link(out, test, next)?;
    }
    Ok(())
}

// Appends the pairs of a part of a for, and answers where it is entered.
#[cycle(statement)]
fn part(
    alloc: Global,
    out: &mut Vec<Pair>,
    own: &StatementVertices,
    part: &Option<Boxed<Statement>>,
    next: Option<VertexId>,
) -> Result<Option<VertexId>, AllocError>
    ensures pairs { OnOk result (out.new.items ≡ out.old.items ++ (flow_part (row own.now) part.now).pairs next) }
    ensures start { IfOk result (λ k. k ≡ (flow_part (row own.now) part.now).start next) }
{
    match part {
        None => Ok(next),
        Some(child) => {
            let start = statement(alloc, out, own, child.get(), next)?;
            Ok(start)
        }
    }
}

// Appends the pairs of a statement, and answers where it is entered.
#[cycle(statement)]
#[tactic(auto, using(crate::proofs::Rules::flows_of))]
fn statement(
    alloc: Global,
    out: &mut Vec<Pair>,
    own: &StatementVertices,
    statement: &Statement,
    next: Option<VertexId>,
) -> Result<Option<VertexId>, AllocError>
    ensures pairs { OnOk result (out.new.items ≡ out.old.items ++ (flow (row own.now) statement.now).pairs next) }
    ensures start { IfOk result (λ k. k ≡ (flow (row own.now) statement.now).start next) }
{
    match statement {
        Statement::Declare { id, .. } => match id {
            None => Ok(next),
            Some(id) => {
                let start = simple(out, own.row(*id), next)?;
                Ok(start)
            }
        },
        Statement::Assign { id, .. }
        | Statement::Bump { id, .. }
        | Statement::Invoke { id, .. }
        | Statement::Fetch { id, .. }
        | Statement::Write { id, .. }
        | Statement::Print { id, .. }
        | Statement::Heap { id, .. }
        | Statement::Release { id, .. }
        | Statement::Return { id, .. } => {
            let start = simple(out, own.row(*id), next)?;
            Ok(start)
        }
        Statement::Block { body, .. } => {
            let start = statements(alloc, out, own, body.as_slice(), next)?;
            Ok(start)
        }
        Statement::If {
            id,
            then,
            other,
            ..
        } => {
            let test = own.row(*id);
            lead_to(alloc, out, own, test, then.as_slice(), next)?;
            lead_to(alloc, out, own, test, other.as_slice(), next)?;
            Ok(entered(test, next))
        }
        Statement::Switch { id, arms: list, .. } => {
            let test = own.row(*id);
            let taken = taken_arms(alloc, list.as_slice())?;
            arms(
                alloc,
                out,
                own,
                test,
                list.as_slice(),
                taken.as_slice(),
                next,
            )?;
            pass_by(out, test, has_default(list.as_slice()), next)?;
            Ok(entered(test, next))
        }
        Statement::While { id, body, .. } => {
            let test = own.row(*id);
            let again = entered(test, next);
            lead_to(alloc, out, own, test, body.as_slice(), again)?;
            link(out, test, next)?;
            Ok(again)
        }
        Statement::Do { id, body, .. } => {
            let test = own.row(*id);
            let start = lead_to(alloc, out, own, test, body.as_slice(), entered(test, next))?;
            link(out, test, next)?;
            Ok(start)
        }
        Statement::For {
            id,
            init,
            step,
            body,
            ..
        } => {
            let test = own.row(*id);
            let again = entered(test, next);
            let after = part(alloc, out, own, step, again)?;
            lead_to(alloc, out, own, test, body.as_slice(), after)?;
            link(out, test, next)?;
            let start = part(alloc, out, own, init, again)?;
            Ok(start)
        }
    }
}
