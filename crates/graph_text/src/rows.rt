//! What the lines of a graph tell of statements, found by one walk down the tree.
ghost use Rattle.std.specs.Prelude.{◌≡◌, ◌++◌, IfOk, OnOk};
ghost use Rattle.std.specs.Option.{option_to_list};
ghost use Rattle.c_tree.specs.declared.statement.Statement.{out-Statement};
ghost use Rattle.c_tree.specs.Numbered.{inner, arms_inner};
ghost use Rattle.dep_model.specs.Locations.{target_type};
ghost use Rattle.graph_text.specs.RowWalk as walk;
ghost use Rattle.graph_text.specs.Rows as spec;

use c_language::ExprType;
use c_tree::{Arm, Boxed, Function, FunctionId, Program, Statement, Target};
use c_types_base::expr_type::void;
use std::alloc::{AllocError, Global};
use tree_types::{expr_type, pointee, variable_type};

/// What is told of a numbered statement.
#[derive(Debug, Drop)]
pub(crate) struct Row {
    /// The line of its first token, counted from 1.
    pub(crate) line: u32,
    /// The function that it calls.
    pub(crate) called: Option<FunctionId>,
    /// The type of the elements that it allocates.
    pub(crate) elements: Option<ExprType>,
}

/// The rows of a program's statements, by their numbers. Err: no memory was left.
pub(crate) fn rows_of(alloc: Global, p: &Program) -> Result<Vec<Row>, AllocError>
    ensures { IfOk result (λ rows. rows.items ≡ spec.rows p.now) }
{
    let mut rows = Vec::new(alloc);
    in_functions(alloc, p, &mut rows, p.functions.as_slice())?;
    Ok(rows)
}

fn in_functions(
    alloc: Global,
    p: &Program,
    rows: &mut Vec<Row>,
    list: &[Function],
) -> Result<(), AllocError>
    ensures { OnOk result (rows.new.items ≡ rows.old.items ++ walk.function_rows p.now list.now) }
{
    for function in list {
        among(alloc, p, rows, function.body.as_slice())?;
    }
    Ok(())
}

// The type of what a call's result is stored in, void where it isn't stored.
fn type_of_target(alloc: Global, p: &Program, to: &Target) -> Result<ExprType, AllocError>
    ensures { IfOk result (λ t. t ≡ target_type p.now to.now) }
{
    match to {
        Target::None => Ok(void(alloc)),
        Target::Place(place) => expr_type(alloc, p, place),
        Target::Declared(x) => variable_type(alloc, p, *x),
    }
}

fn plain(line: u32) -> Row
    ensures { result ≡ spec.plain line }
{
    Row {
        line,
        called: None,
        elements: None,
    }
}

// What is told of a statement itself, where it has a number.
#[tactic(auto, using(crate::proofs::RowLemmas::layers))]
fn own_row(alloc: Global, p: &Program, statement: &Statement) -> Result<Option<Row>, AllocError>
    ensures { IfOk result (λ row. row ≡ walk.own_row p.now (out-Statement statement.now)) }
{
    match statement {
        Statement::Declare { id, line, .. } => match id {
            Some(_) => Ok(Some(plain(*line))),
            None => Ok(None),
        },
        Statement::Invoke { line, function, .. } => Ok(Some(Row {
            line: *line,
            called: Some(*function),
            elements: None,
        })),
        Statement::Heap { line, target, .. } => Ok(Some(Row {
            line: *line,
            called: None,
            elements: Some(pointee(alloc, type_of_target(alloc, p, target)?)),
        })),
        Statement::Assign { line, .. }
        | Statement::Bump { line, .. }
        | Statement::Fetch { line, .. }
        | Statement::Write { line, .. }
        | Statement::Print { line, .. }
        | Statement::Release { line, .. }
        | Statement::If { line, .. }
        | Statement::While { line, .. }
        | Statement::Do { line, .. }
        | Statement::For { line, .. }
        | Statement::Switch { line, .. }
        | Statement::Return { line, .. } => Ok(Some(plain(*line))),
        Statement::Block { .. } => Ok(None),
    }
}

fn push_own(
    alloc: Global,
    p: &Program,
    rows: &mut Vec<Row>,
    statement: &Statement,
) -> Result<(), AllocError>
    ensures { OnOk result (rows.new.items ≡ rows.old.items ++ option_to_list (walk.own_row p.now (out-Statement statement.now))) }
{
    if let Some(row) = own_row(alloc, p, statement)? {
        rows.push(row)?;
    }
    Ok(())
}

#[cycle(rows)]
fn among(
    alloc: Global,
    p: &Program,
    rows: &mut Vec<Row>,
    list: &[Statement],
) -> Result<(), AllocError>
    ensures { OnOk result (rows.new.items ≡ rows.old.items ++ walk.body_rows p.now list.now) }
{
    for statement in list {
        within(alloc, p, rows, statement)?;
    }
    Ok(())
}

#[cycle(rows)]
fn within(
    alloc: Global,
    p: &Program,
    rows: &mut Vec<Row>,
    statement: &Statement,
) -> Result<(), AllocError>
    ensures { OnOk result (rows.new.items ≡ rows.old.items ++ walk.statement_rows p.now statement.now) }
{
    push_own(alloc, p, rows, statement)?;
    inside(alloc, p, rows, statement)?;
    Ok(())
}

// The rows of what stands right inside a statement, and inside that.
#[cycle(rows)]
fn inside(
    alloc: Global,
    p: &Program,
    rows: &mut Vec<Row>,
    statement: &Statement,
) -> Result<(), AllocError>
    ensures { OnOk result (rows.new.items ≡ rows.old.items ++ walk.body_rows p.now (inner statement.now)) }
{
    match statement {
        Statement::If { then, other, .. } => {
            among(alloc, p, rows, then.as_slice())?;
            among(alloc, p, rows, other.as_slice())?;
            Ok(())
        }
        Statement::While { body, .. } => among(alloc, p, rows, body.as_slice()),
        Statement::Do { body, .. } => among(alloc, p, rows, body.as_slice()),
        Statement::For {
            init,
            step,
            body,
            ..
        } => {
            in_part(alloc, p, rows, init)?;
            in_part(alloc, p, rows, step)?;
            among(alloc, p, rows, body.as_slice())?;
            Ok(())
        }
        Statement::Switch { arms, .. } => in_arms(alloc, p, rows, arms.as_slice()),
        Statement::Block { body, .. } => among(alloc, p, rows, body.as_slice()),
        Statement::Declare { .. } => Ok(()),
        Statement::Assign { .. } => Ok(()),
        Statement::Bump { .. } => Ok(()),
        Statement::Invoke { .. } => Ok(()),
        Statement::Fetch { .. } => Ok(()),
        Statement::Write { .. } => Ok(()),
        Statement::Print { .. } => Ok(()),
        Statement::Heap { .. } => Ok(()),
        Statement::Release { .. } => Ok(()),
        Statement::Return { .. } => Ok(()),
    }
}

#[cycle(rows)]
fn in_part(
    alloc: Global,
    p: &Program,
    rows: &mut Vec<Row>,
    part: &Option<Boxed<Statement>>,
) -> Result<(), AllocError>
    ensures { OnOk result (rows.new.items ≡ rows.old.items ++ walk.body_rows p.now (option_to_list part.now)) }
{
    match part {
        None => Ok(()),
        Some(statement) => within(alloc, p, rows, statement.get()),
    }
}

#[cycle(rows)]
fn in_arms(alloc: Global, p: &Program, rows: &mut Vec<Row>, arms: &[Arm]) -> Result<(), AllocError>
    ensures { OnOk result (rows.new.items ≡ rows.old.items ++ walk.body_rows p.now (arms_inner arms.now)) }
{
    for arm in arms {
        among(alloc, p, rows, arm.body.as_slice())?;
    }
    Ok(())
}
