//! The numbered statements of a program, found by their functions and numbers.
ghost use Rattle.std.specs.Prelude.{◌≡◌, map, IfOk, OnOk};
ghost use Rattle.dep_model.specs.Doings.{body_doings, doings};
ghost use Rattle.dep_model.specs.VertexOrder.{doing_at};
ghost use Rattle.c_tree.specs.declared.program.Program.{Program};
ghost use Rattle.completion.specs.Numbered.{AreRows, Gains, own_doings, inner_doings, arms_doings, part_doings, doing_of, first_of, stated};

use crate::rows;
use c_tree::numbered::own_start;
use c_tree::{Arm, Boxed, FunctionId, Program, Statement, StatementId};
use std::alloc::{AllocError, Global};

/// A statement, with the number of its function.
#[derive(Clone, Copy)]
pub(crate) struct Owned<'a> {
    function: usize,
    statement: &'a Statement,
}

/// The numbered statements of a program, by their numbers.
#[derive(Drop)]
pub(crate) struct Statements<'a> {
    rows: Vec<Vec<Owned<'a>>>,
}

impl<'a> Statements<'a> {
    /// Finds the numbered statements in one walk. Err: no memory was left.
    pub(crate) fn find(alloc: Global, program: &'a Program) -> Result<Statements<'a>, AllocError>
        ensures { IfOk result (λ s. AreRows program.now s.rows.items) }
    {
        let mut rows = Vec::new(alloc);
        let mut number = 0usize;
        for function in program.functions.as_slice() {
            add_statements(alloc, &mut rows, number, function.body.as_slice())?;
            number += 1;
        }
        Ok(Statements { rows })
    }

    /// The statement of a function with the number, the first one where there are several.
    pub(crate) fn at(&self, function: FunctionId, id: StatementId) -> Option<&Statement>
        ensures { (p : Program) → AreRows p self.now.rows.items → doing_of result ≡ doing_at p function id }
    {
        first_of_function(
            rows::row(self.rows.as_slice(), id as usize),
            function as usize,
        )
    }
}

// The first of the statements that is the function's.
fn first_of_function<'a>(row: &[Owned<'a>], function: usize) -> Option<&'a Statement>
    ensures { doing_of result ≡ first_of function (map stated row.now) }
{
    for owned in row {
        if owned.function == function {
            return Some(owned.statement);
        }
    }
    None
}

// Adds a statement to the row of its own number.
fn add_own<'a>(
    alloc: Global,
    rows: &mut Vec<Vec<Owned<'a>>>,
    function: usize,
    statement: &'a Statement,
) -> Result<(), AllocError>
    ensures { OnOk result (Gains function rows.old.items rows.new.items (own_doings statement.now)) }
{
    if let Some(start) = own_start(statement) {
        rows::add(
            alloc,
            rows,
            start.id as usize,
            Owned {
                function,
                statement,
            },
        )?;
    }
    Ok(())
}

#[cycle(statement)]
fn add_statements<'a>(
    alloc: Global,
    rows: &mut Vec<Vec<Owned<'a>>>,
    function: usize,
    list: &'a [Statement],
) -> Result<(), AllocError>
    ensures { OnOk result (Gains function rows.old.items rows.new.items (body_doings list.now)) }
{
    for statement in list {
        add_statement(alloc, rows, function, statement)?;
    }
    Ok(())
}

// Adds a part of the head of a for, where it has one.
#[cycle(statement)]
fn add_part<'a>(
    alloc: Global,
    rows: &mut Vec<Vec<Owned<'a>>>,
    function: usize,
    part: &'a Option<Boxed<Statement>>,
) -> Result<(), AllocError>
    ensures { OnOk result (Gains function rows.old.items rows.new.items (part_doings part.now)) }
{
    match part {
        None => Ok(()),
        Some(statement) => {
            add_statement(alloc, rows, function, statement.get())?;
            Ok(())
        }
    }
}

#[cycle(statement)]
fn add_arms<'a>(
    alloc: Global,
    rows: &mut Vec<Vec<Owned<'a>>>,
    function: usize,
    arms: &'a [Arm],
) -> Result<(), AllocError>
    ensures { OnOk result (Gains function rows.old.items rows.new.items (arms_doings arms.now)) }
{
    for arm in arms {
        add_statements(alloc, rows, function, arm.body.as_slice())?;
    }
    Ok(())
}

// Adds a statement and those inside it.
#[cycle(statement)]
fn add_statement<'a>(
    alloc: Global,
    rows: &mut Vec<Vec<Owned<'a>>>,
    function: usize,
    statement: &'a Statement,
) -> Result<(), AllocError>
    ensures { OnOk result (Gains function rows.old.items rows.new.items (doings statement.now)) }
{
    add_own(alloc, rows, function, statement)?;
    add_inner(alloc, rows, function, statement)?;
    Ok(())
}

// Adds the statements inside a statement.
#[cycle(statement)]
fn add_inner<'a>(
    alloc: Global,
    rows: &mut Vec<Vec<Owned<'a>>>,
    function: usize,
    statement: &'a Statement,
) -> Result<(), AllocError>
    ensures { OnOk result (Gains function rows.old.items rows.new.items (inner_doings statement.now)) }
{
    match statement {
        Statement::Block { body, .. }
        | Statement::While { body, .. }
        | Statement::Do { body, .. } => {
            add_statements(alloc, rows, function, body.as_slice())?;
            Ok(())
        }
        Statement::If { then, other, .. } => {
            add_statements(alloc, rows, function, then.as_slice())?;
            add_statements(alloc, rows, function, other.as_slice())?;
            Ok(())
        }
        Statement::For {
            init,
            step,
            body,
            ..
        } => {
            add_part(alloc, rows, function, init)?;
            add_part(alloc, rows, function, step)?;
            add_statements(alloc, rows, function, body.as_slice())?;
            Ok(())
        }
        Statement::Switch { arms, .. } => {
            add_arms(alloc, rows, function, arms.as_slice())?;
            Ok(())
        }
        Statement::Declare { .. }
        | Statement::Assign { .. }
        | Statement::Bump { .. }
        | Statement::Invoke { .. }
        | Statement::Fetch { .. }
        | Statement::Write { .. }
        | Statement::Print { .. }
        | Statement::Heap { .. }
        | Statement::Release { .. }
        | Statement::Return { .. } => Ok(()),
    }
}
