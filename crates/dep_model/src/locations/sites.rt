//! The objects that the statements of a program allocate.
ghost use Rattle.std.specs.Prelude.{◌≡◌, ◌++◌, IfOk, OnOk};
ghost use Rattle.dep_model.specs.Doings.{doings};
ghost use Rattle.dep_model.specs.Locations.{target_type};
ghost use Rattle.dep_model.specs.LocationObjects as spec;

use crate::location::Root;
use crate::locations::objects::Object;
use c_language::ExprType;
use c_tree::{Arm, Program, Statement, Target};
use c_types_base::expr_type::void;
use sqlite_items::Boxed;
use std::alloc::{AllocError, Global};
use tree_types::{expr_type, pointee, variable_type};

/// Adds what each function allocates. Err: no memory was left.
pub(crate) fn add_sites(
    alloc: Global,
    p: &Program,
    objects: &mut Vec<Object>,
) -> Result<(), AllocError>
    ensures { OnOk result (objects.new.items ≡ objects.old.items ++ spec.function_sites p.now p.now.functions) }
{
    for function in p.functions.as_slice() {
        add_in_body(alloc, p, function.body.as_slice(), objects)?;
    }
    Ok(())
}

// The type of what a call's result is stored in, void where it isn't stored.
fn type_of_target(alloc: Global, p: &Program, to: &Target) -> Result<ExprType, AllocError>
    ensures { IfOk result (λ t. t ≡ target_type p.now to.now) }
{
    match to {
        Target::None => Ok(void(alloc)),
        Target::Place(place) => expr_type(alloc, p, place),
        Target::Declared(x) => variable_type(alloc, p, *x),
    }
}

// What statements allocate.
#[cycle(add_in_statement)]
fn add_in_body(
    alloc: Global,
    p: &Program,
    list: &[Statement],
    objects: &mut Vec<Object>,
) -> Result<(), AllocError>
    ensures { OnOk result (objects.new.items ≡ objects.old.items ++ spec.body_sites p.now list.now) }
{
    for child in list {
        add_in_statement(alloc, p, child, objects)?;
    }
    Ok(())
}

// What the arms of a switch allocate.
#[cycle(add_in_statement)]
fn add_in_arms(
    alloc: Global,
    p: &Program,
    arms: &[Arm],
    objects: &mut Vec<Object>,
) -> Result<(), AllocError>
    ensures { OnOk result (objects.new.items ≡ objects.old.items ++ spec.arm_sites p.now arms.now) }
{
    for arm in arms {
        add_in_body(alloc, p, arm.body.as_slice(), objects)?;
    }
    Ok(())
}

// What the first part or the step of a for allocates.
#[cycle(add_in_statement)]
fn add_in_part(
    alloc: Global,
    p: &Program,
    part: &Option<Boxed<Statement>>,
    objects: &mut Vec<Object>,
) -> Result<(), AllocError>
    ensures { OnOk result (objects.new.items ≡ objects.old.items ++ spec.part_sites p.now part.now) }
{
    match part {
        None => {}
        Some(child) => add_in_statement(alloc, p, child.get(), objects)?,
    }
    Ok(())
}

// What a statement allocates.
#[cycle(add_in_statement)]
#[tactic(auto, using(crate::proofs::LocationRules::sited))]
fn add_in_statement(
    alloc: Global,
    p: &Program,
    statement: &Statement,
    objects: &mut Vec<Object>,
) -> Result<(), AllocError>
    ensures { OnOk result (objects.new.items ≡ objects.old.items ++ spec.sites p.now (doings statement.now)) }
{
    match statement {
        Statement::Heap { id, target, .. } => {
            let root = Root::Site(*id);
            let shape = pointee(alloc, type_of_target(alloc, p, target)?);
            objects.push(Object { root, shape })?;
        }
        Statement::If { then, other, .. } => {
            add_in_body(alloc, p, then.as_slice(), objects)?;
            add_in_body(alloc, p, other.as_slice(), objects)?;
        }
        Statement::While { body, .. } => add_in_body(alloc, p, body.as_slice(), objects)?,
        Statement::Do { body, .. } => add_in_body(alloc, p, body.as_slice(), objects)?,
        Statement::For {
            init,
            step,
            body,
            ..
        } => {
            add_in_part(alloc, p, init, objects)?;
            add_in_part(alloc, p, step, objects)?;
            add_in_body(alloc, p, body.as_slice(), objects)?;
        }
        Statement::Switch { arms, .. } => add_in_arms(alloc, p, arms.as_slice(), objects)?,
        Statement::Block { body, .. } => add_in_body(alloc, p, body.as_slice(), objects)?,
        Statement::Declare { .. }
        | Statement::Assign { .. }
        | Statement::Bump { .. }
        | Statement::Invoke { .. }
        | Statement::Fetch { .. }
        | Statement::Write { .. }
        | Statement::Print { .. }
        | Statement::Release { .. }
        | Statement::Return { .. } => {}
    }
    Ok(())
}
