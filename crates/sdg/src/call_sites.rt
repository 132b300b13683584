//! The calls of a program, by one walk down the tree.
ghost use Rattle.std.specs.Prelude.{◌≡◌, ◌++◌, ◌<◌, ◌^◌, IfOk, OnOk, length};
ghost use Rattle.dep_model.specs.Doings.{body_doings, doings, joined, if_some};
ghost use Rattle.sdg.specs.CallSites.{AreSites, sites_in, sites_from};
ghost use Rattle.sdg.specs.CallWalk.{arm_doings, arms_doings, part_doings};

use c_tree::{Arm, Function, FunctionId, Program, Statement, StatementId};
use sqlite_items::Boxed;
use std::alloc::{AllocError, Global};

/// A statement that calls a function.
#[derive(Clone, Copy, Debug, PartialEq, Eq)]
pub(crate) struct CallSite {
    /// The function that the statement is in.
    pub(crate) function: FunctionId,
    /// The statement.
    pub(crate) statement: StatementId,
    /// The function called.
    pub(crate) callee: FunctionId,
}

/// The calls of a program, in the order of the text. Err: no memory was left.
pub(crate) fn find(alloc: Global, p: &Program) -> Result<Vec<CallSite>, AllocError>
    requires few { length p.now.functions < 2 ^ 32 }
    ensures { IfOk result (λ xs. AreSites p.now xs.items) }
{
    let mut found = Vec::new(alloc);
    functions(&mut found, p.functions.as_slice())?;
    Ok(found)
}

// Appends the calls of functions, of which the first has the number 0.
fn functions(found: &mut Vec<CallSite>, list: &[Function]) -> Result<(), AllocError>
    requires few { length list.now < 2 ^ 32 }
    ensures { OnOk result (found.new.items ≡ found.old.items ++ sites_from 0 list.now) }
{
    for (f, function) in list.iter().enumerate() {
        statements(found, f as FunctionId, function.body.as_slice())?;
    }
    Ok(())
}

// Appends the calls of statements, one after another.
#[cycle(statement)]
fn statements(
    found: &mut Vec<CallSite>,
    f: FunctionId,
    list: &[Statement],
) -> Result<(), AllocError>
    ensures { OnOk result (found.new.items ≡ found.old.items ++ sites_in f (body_doings list.now)) }
{
    for child in list {
        statement(found, f, child)?;
    }
    Ok(())
}

// Appends the calls of the arms of a switch.
#[cycle(statement)]
fn arms(found: &mut Vec<CallSite>, f: FunctionId, list: &[Arm]) -> Result<(), AllocError>
    ensures { OnOk result (found.new.items ≡ found.old.items ++ sites_in f (arms_doings list.now)) }
{
    for child in list {
        arm(found, f, child)?;
    }
    Ok(())
}

// Appends the calls of an arm.
#[cycle(statement)]
fn arm(found: &mut Vec<CallSite>, f: FunctionId, arm: &Arm) -> Result<(), AllocError>
    ensures { OnOk result (found.new.items ≡ found.old.items ++ sites_in f (arm_doings arm.now)) }
{
    statements(found, f, arm.body.as_slice())?;
    Ok(())
}

// Appends the calls of a part of a for, where it has one.
#[cycle(statement)]
fn part(
    found: &mut Vec<CallSite>,
    f: FunctionId,
    part: &Option<Boxed<Statement>>,
) -> Result<(), AllocError>
    ensures { OnOk result (found.new.items ≡ found.old.items ++ sites_in f (part_doings part.now)) }
{
    match part {
        None => Ok(()),
        Some(child) => {
            statement(found, f, child.get())?;
            Ok(())
        }
    }
}

// Appends the calls of a statement.
#[cycle(statement)]
fn statement(
    found: &mut Vec<CallSite>,
    f: FunctionId,
    statement: &Statement,
) -> Result<(), AllocError>
    ensures { OnOk result (found.new.items ≡ found.old.items ++ sites_in f (doings statement.now)) }
{
    match statement {
        Statement::Declare { .. }
        | Statement::Assign { .. }
        | Statement::Bump { .. }
        | Statement::Fetch { .. }
        | Statement::Write { .. }
        | Statement::Print { .. }
        | Statement::Heap { .. }
        | Statement::Release { .. }
        | Statement::Return { .. } => Ok(()),
        Statement::Invoke { id, function, .. } => {
            found.push(CallSite {
                function: f,
                statement: *id,
                callee: *function,
            })?;
            Ok(())
        }
        Statement::Block { body, .. } => {
            statements(found, f, body.as_slice())?;
            Ok(())
        }
        Statement::While { body, .. } => {
            statements(found, f, body.as_slice())?;
            Ok(())
        }
        Statement::Do { body, .. } => {
            statements(found, f, body.as_slice())?;
            Ok(())
        }
        Statement::If { then, other, .. } => {
            statements(found, f, then.as_slice())?;
            statements(found, f, other.as_slice())?;
            Ok(())
        }
        Statement::Switch { arms: list, .. } => {
            arms(found, f, list.as_slice())?;
            Ok(())
        }
        Statement::For {
            init,
            step,
            body,
            ..
        } => {
            part(found, f, init)?;
            part(found, f, step)?;
            statements(found, f, body.as_slice())?;
            Ok(())
        }
    }
}
