//! The statements of a program that do something themselves, in the order of their numbers, by one walk down the tree.
ghost use Rattle.std.specs.Prelude.{◌≡◌, ◌++◌, ◌∷◌, [], IfOk, OnOk};
ghost use Rattle.dep_model.specs.Doings.{body_doings, doings, functions_doings, program_doings};
ghost use Rattle.effect_rows.specs.Own.{own_doing};
ghost use Rattle.vertex_layout.specs.OwnStatements.{own_doings, done, arm_doings, arms_doings, part_doings};

use c_tree::{Arm, Function, Program, Statement};
use sqlite_items::Boxed;
use std::alloc::{AllocError, Global};

/// The statements of a body that do something themselves: all but blocks and declarations without an
/// initialiser. Err: no memory was left.
pub(crate) fn of_body<'p>(
    alloc: Global,
    body: &'p [Statement],
) -> Result<Vec<&'p Statement>, AllocError>
    ensures { IfOk result (λ xs. own_doings xs.items ≡ done (body_doings body.now)) }
{
    let mut found = Vec::new(alloc);
    statements(&mut found, body)?;
    Ok(found)
}

/// Those of a program, function by function. Err: no memory was left.
pub(crate) fn of_program<'p>(
    alloc: Global,
    p: &'p Program,
) -> Result<Vec<&'p Statement>, AllocError>
    ensures { IfOk result (λ xs. own_doings xs.items ≡ done (program_doings p.now)) }
{
    let mut found = Vec::new(alloc);
    functions(&mut found, p.functions.as_slice())?;
    Ok(found)
}

// Appends those of functions.
fn functions<'p>(found: &mut Vec<&'p Statement>, list: &'p [Function]) -> Result<(), AllocError>
    ensures { OnOk result (own_doings found.new.items ≡ own_doings found.old.items ++ done (functions_doings list.now)) }
{
    for function in list {
        statements(found, function.body.as_slice())?;
    }
    Ok(())
}

// Appends a statement.
fn push_own<'p>(found: &mut Vec<&'p Statement>, statement: &'p Statement) -> Result<(), AllocError>
    ensures { OnOk result (own_doings found.new.items ≡ own_doings found.old.items ++ own_doing statement.now ∷ []) }
{
    found.push(statement)?;
    Ok(())
}

// Appends those of some statements, one after another.
#[cycle(statement)]
fn statements<'p>(found: &mut Vec<&'p Statement>, list: &'p [Statement]) -> Result<(), AllocError>
    ensures { OnOk result (own_doings found.new.items ≡ own_doings found.old.items ++ done (body_doings list.now)) }
{
    for child in list {
        statement(found, child)?;
    }
    Ok(())
}

// Appends those of the arms of a switch.
#[cycle(statement)]
fn arms<'p>(found: &mut Vec<&'p Statement>, list: &'p [Arm]) -> Result<(), AllocError>
    ensures { OnOk result (own_doings found.new.items ≡ own_doings found.old.items ++ done (arms_doings list.now)) }
{
    for child in list {
        arm(found, child)?;
    }
    Ok(())
}

// Appends those of an arm.
#[cycle(statement)]
fn arm<'p>(found: &mut Vec<&'p Statement>, arm: &'p Arm) -> Result<(), AllocError>
    ensures { OnOk result (own_doings found.new.items ≡ own_doings found.old.items ++ done (arm_doings arm.now)) }
{
    statements(found, arm.body.as_slice())?;
    Ok(())
}

// Appends those of a part of a for, where it has one.
#[cycle(statement)]
fn part<'p>(
    found: &mut Vec<&'p Statement>,
    part: &'p Option<Boxed<Statement>>,
) -> Result<(), AllocError>
    ensures { OnOk result (own_doings found.new.items ≡ own_doings found.old.items ++ done (part_doings part.now)) }
{
    match part {
        None => Ok(()),
        Some(child) => {
            statement(found, child.get())?;
            Ok(())
        }
    }
}

// Appends a statement, where it does something itself, and those in it.
#[cycle(statement)]
#[tactic(auto, using(crate::proofs::Rules::forms))]
fn statement<'p>(found: &mut Vec<&'p Statement>, statement: &'p Statement) -> Result<(), AllocError>
    ensures { OnOk result (own_doings found.new.items ≡ own_doings found.old.items ++ done (doings statement.now)) }
{
    match statement {
        Statement::Declare { id, .. } => match id {
            None => Ok(()),
            Some(_) => {
                push_own(found, statement)?;
                Ok(())
            }
        },
        Statement::Assign { .. } => {
            push_own(found, statement)?;
            Ok(())
        }
        Statement::Bump { .. } => {
            push_own(found, statement)?;
            Ok(())
        }
        Statement::Invoke { .. } => {
            push_own(found, statement)?;
            Ok(())
        }
        Statement::Fetch { .. } => {
            push_own(found, statement)?;
            Ok(())
        }
        Statement::Write { .. } => {
            push_own(found, statement)?;
            Ok(())
        }
        Statement::Print { .. } => {
            push_own(found, statement)?;
            Ok(())
        }
        Statement::Heap { .. } => {
            push_own(found, statement)?;
            Ok(())
        }
        Statement::Release { .. } => {
            push_own(found, statement)?;
            Ok(())
        }
        Statement::Return { .. } => {
            push_own(found, statement)?;
            Ok(())
        }
        Statement::Block { body, .. } => {
            statements(found, body.as_slice())?;
            Ok(())
        }
        Statement::While { body, .. } => {
            push_own(found, statement)?;
            statements(found, body.as_slice())?;
            Ok(())
        }
        Statement::Do { body, .. } => {
            push_own(found, statement)?;
            statements(found, body.as_slice())?;
            Ok(())
        }
        Statement::If { then, other, .. } => {
            push_own(found, statement)?;
            statements(found, then.as_slice())?;
            statements(found, other.as_slice())?;
            Ok(())
        }
        Statement::Switch { arms: list, .. } => {
            push_own(found, statement)?;
            arms(found, list.as_slice())?;
            Ok(())
        }
        Statement::For {
            init,
            step,
            body,
            ..
        } => {
            push_own(found, statement)?;
            part(found, init)?;
            part(found, step)?;
            statements(found, body.as_slice())?;
            Ok(())
        }
    }
}
