//! The control edges of statements, as pairs of vertices, by one walk down the tree.
ghost use Rattle.std.specs.Prelude.{◌≡◌, [], ◌∷◌, ◌++◌, OnOk, IfOk, length};
ghost use Rattle.dep_model.specs.Groups.{row};
ghost use Rattle.dep_model.specs.Pairs.{pair};
ghost use Rattle.control_deps.specs.Walk as spec;
ghost use Rattle.control_deps.specs.Walk.{joined, walk, walks, walked_part, if_taken, arm_walks};

use c_tree::{Arm, Statement};
use dep_model::{Pair, StatementVertices, VertexId, taken_arms};
use sqlite_items::Boxed;
use std::alloc::{AllocError, Global};

// Appends an edge.
fn push_pair(out: &mut Vec<Pair>, from: VertexId, to: VertexId) -> Result<(), AllocError>
    ensures { OnOk result (out.new.items ≡ out.old.items ++ pair from to ∷ []) }
{
    out.push(Pair { from, to })?;
    Ok(())
}

/// Appends an edge to a vertex from each of its controllers.
pub(crate) fn join_one(
    out: &mut Vec<Pair>,
    controllers: &[VertexId],
    to: VertexId,
) -> Result<(), AllocError>
    ensures { OnOk result (out.new.items ≡ out.old.items ++ spec.from_all controllers.now to) }
{
    for from in controllers {
        push_pair(out, *from, to)?;
    }
    Ok(())
}

/// Appends an edge from each of the controllers to each of the controlled.
pub(crate) fn join(
    out: &mut Vec<Pair>,
    controllers: &[VertexId],
    controlled: &[VertexId],
) -> Result<(), AllocError>
    ensures { OnOk result (out.new.items ≡ out.old.items ++ joined controllers.now controlled.now) }
{
    for to in controlled {
        join_one(out, controllers, *to)?;
    }
    Ok(())
}

// Appends the edges to the test of a loop, and answers its controllers: those of the loop and itself.
fn join_loop(
    alloc: Global,
    out: &mut Vec<Pair>,
    controllers: &[VertexId],
    test: &[VertexId],
) -> Result<Vec<VertexId>, AllocError>
    ensures edges { OnOk result (out.new.items ≡ out.old.items ++ joined (controllers.now ++ test.now) test.now) }
    ensures controllers { IfOk result (λ all. all.items ≡ controllers.now ++ test.now) }
{
    let mut all = Vec::from_slice(alloc, controllers)?;
    all.extend_from_slice(test)?;
    join(out, all.as_slice(), test)?;
    Ok(all)
}

/// Appends the edges of statements, one after another.
#[cycle(statement)]
pub(crate) fn statements(
    alloc: Global,
    out: &mut Vec<Pair>,
    own: &StatementVertices,
    list: &[Statement],
    controllers: &[VertexId],
) -> Result<(), AllocError>
    ensures { OnOk result (out.new.items ≡ out.old.items ++ walks (row own.now) list.now controllers.now) }
{
    for child in list {
        statement(alloc, out, own, child, controllers)?;
    }
    Ok(())
}

// Appends the edges of the arms of a switch that are taken.
#[cycle(statement)]
fn arms(
    alloc: Global,
    out: &mut Vec<Pair>,
    own: &StatementVertices,
    list: &[Arm],
    taken: &[bool],
    controllers: &[VertexId],
) -> Result<(), AllocError>
    requires for_each { length taken.now ≡ length list.now }
    ensures { OnOk result (out.new.items ≡ out.old.items ++ arm_walks (row own.now) taken.now list.now controllers.now) }
{
    for (i, child) in list.iter().enumerate() {
        arm(alloc, out, own, child, taken[i], controllers)?;
    }
    Ok(())
}

// Appends the edges of an arm, where it is taken.
#[cycle(statement)]
fn arm(
    alloc: Global,
    out: &mut Vec<Pair>,
    own: &StatementVertices,
    arm: &Arm,
    is_taken: bool,
    controllers: &[VertexId],
) -> Result<(), AllocError>
    ensures { OnOk result (out.new.items ≡ out.old.items ++ if_taken (row own.now) is_taken arm.now.body controllers.now) }
{
    if !is_taken {
        return Ok(());
    }
    statements(alloc, out, own, arm.body.as_slice(), controllers)?;
    Ok(())
}

// Appends the edges of a part of a for, where it has one.
#[cycle(statement)]
fn part(
    alloc: Global,
    out: &mut Vec<Pair>,
    own: &StatementVertices,
    part: &Option<Boxed<Statement>>,
    controllers: &[VertexId],
) -> Result<(), AllocError>
    ensures { OnOk result (out.new.items ≡ out.old.items ++ walked_part (row own.now) part.now controllers.now) }
{
    match part {
        None => Ok(()),
        Some(child) => {
            statement(alloc, out, own, child.get(), controllers)?;
            Ok(())
        }
    }
}

// Appends the edges of a statement.
#[cycle(statement)]
#[tactic(auto, using(crate::proofs::Rules::walks_of))]
fn statement(
    alloc: Global,
    out: &mut Vec<Pair>,
    own: &StatementVertices,
    statement: &Statement,
    controllers: &[VertexId],
) -> Result<(), AllocError>
    ensures { OnOk result (out.new.items ≡ out.old.items ++ walk (row own.now) statement.now controllers.now) }
{
    match statement {
        Statement::Declare { id, .. } => match id {
            None => Ok(()),
            Some(id) => {
                join(out, controllers, own.row(*id))?;
                Ok(())
            }
        },
        Statement::Assign { id, .. }
        | Statement::Bump { id, .. }
        | Statement::Invoke { id, .. }
        | Statement::Fetch { id, .. }
        | Statement::Write { id, .. }
        | Statement::Print { id, .. }
        | Statement::Heap { id, .. }
        | Statement::Release { id, .. }
        | Statement::Return { id, .. } => {
            join(out, controllers, own.row(*id))?;
            Ok(())
        }
        Statement::Block { body, .. } => {
            statements(alloc, out, own, body.as_slice(), controllers)?;
            Ok(())
        }
        Statement::If {
            id,
            then,
            other,
            ..
        } => {
            let test = own.row(*id);
            join(out, controllers, test)?;
            statements(alloc, out, own, then.as_slice(), test)?;
            statements(alloc, out, own, other.as_slice(), test)?;
            Ok(())
        }
        Statement::Switch { id, arms: list, .. } => {
            let test = own.row(*id);
            join(out, controllers, test)?;
            let taken = taken_arms(alloc, list.as_slice())?;
            arms(alloc, out, own, list.as_slice(), taken.as_slice(), test)?;
            Ok(())
        }
        Statement::While { id, body, .. } => {
            let test = own.row(*id);
            join_loop(alloc, out, controllers, test)?;
            statements(alloc, out, own, body.as_slice(), test)?;
            Ok(())
        }
        Statement::Do { id, body, .. } => {
            let all = join_loop(alloc, out, controllers, own.row(*id))?;
            statements(alloc, out, own, body.as_slice(), all.as_slice())?;
            Ok(())
        }
        Statement::For {
            id,
            init,
            step,
            body,
            ..
        } => {
            let test = own.row(*id);
            join_loop(alloc, out, controllers, test)?;
            part(alloc, out, own, init, controllers)?;
            part(alloc, out, own, step, test)?;
            statements(alloc, out, own, body.as_slice(), test)?;
            Ok(())
        }
    }
}
