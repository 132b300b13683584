//! The walk along statements: the phrases of each, in text order.
ghost use Rattle.std.specs.Prelude.{◌≡◌, ◌++◌, OnOk, IfOk, map};
ghost use Rattle.std.specs.Borrow.{Bor};
ghost use Rattle.c_tree.specs.declared.raw.statement.RawLabel.{RawLabel};
ghost use Rattle.c_language.specs.Phrases as phrases;
ghost use Rattle.c_types_base.specs.Tables.{AreRight};
ghost use Rattle.c_types_checks.specs.Stands.{stand_of};
ghost use Rattle.c_types_base.specs.Stretches.{enclosed, a_statement, of_statement, of_statements, of_block, of_arms, of_part, labels_in};
ghost use Rattle.c_types_rules.specs.Walks.{Walks};

use crate::steps::{assigned, bumped, call, declared, heap, number_on, on_line, returned, tested};
use crate::walk_fault::WalkFault;
use c_tree::{RawArm, RawExpr, RawLabel, RawStatement};
use c_types_base::tables::Tables;
use c_types_checks::checking::check_test;
use c_types_checks::stand::Stand;
use c_types_checks::switch_checks::check_switch;
use sqlite_items::Boxed;
use std::alloc::{AllocError, Global};

/// Appends the labels of an arm. Err: no memory was left.
fn push_labels<'a>(all: &mut Vec<&'a RawLabel>, labels: &'a [RawLabel]) -> Result<(), AllocError>
    ensures { OnOk result (map (λ (l : Bor RawLabel). l.now) all.new.items ≡ map (λ (l : Bor RawLabel). l.now) all.old.items ++ labels.now) }
{
    for label in labels {
        all.push(label)?;
    }
    Ok(())
}

/// The labels of all arms, in their order. Err: no memory was left.
fn labels_of<'a>(alloc: Global, arms: &'a [RawArm]) -> Result<Vec<&'a RawLabel>, AllocError>
    ensures { IfOk result (λ all. map (λ (l : Bor RawLabel). l.now) all.items ≡ labels_in arms.now) }
{
    let mut all = Vec::new(alloc);
    for arm in arms {
        push_labels(&mut all, arm.labels.as_slice())?;
    }
    Ok(all)
}

/// The head of a switch, with the labels of all its arms.
fn switch_head(
    alloc: Global,
    tables: &mut Tables<'_>,
    line: u32,
    test: &RawExpr,
    list: &[RawArm],
) -> Result<(), WalkFault>
    requires { AreRight tables.old }
    ensures { Walks (a_statement line (phrases.Switches test.now (labels_in list.now))) tables.old tables.new result }
{
    let labels = labels_of(alloc, list)?;
    let verdict = check_switch(alloc, tables, test, labels.as_slice());
    number_on(tables, line, verdict)
}

/// Statements, one after another.
#[cycle(statement)]
pub fn statements<'a>(
    alloc: Global,
    tables: &mut Tables<'a>,
    stand: Stand,
    list: &'a [RawStatement],
) -> Result<(), WalkFault>
    requires { AreRight tables.old }
    ensures { Walks (of_statements (stand_of stand) list.now) tables.old tables.new result }
{
    for child in list {
        statement(alloc, tables, stand, child)?;
    }
    Ok(())
}

/// A list of statements that is a block of its own (6.8.2, 6.8.4, 6.8.5).
#[cycle(statement)]
fn block<'a>(
    alloc: Global,
    tables: &mut Tables<'a>,
    list: &'a [RawStatement],
) -> Result<(), WalkFault>
    requires { AreRight tables.old }
    ensures { Walks (of_block list.now) tables.old tables.new result }
{
    let outside = tables.before();
    tables.open();
    statements(alloc, tables, Stand::InBlock, list)?;
    tables.close(outside);
    Ok(())
}

/// A part of the head of a for, where there is one.
#[cycle(statement)]
fn part<'a>(
    alloc: Global,
    tables: &mut Tables<'a>,
    stand: Stand,
    part: &'a Option<Boxed<RawStatement>>,
) -> Result<(), WalkFault>
    requires { AreRight tables.old }
    ensures { Walks (of_part (stand_of stand) part.now) tables.old tables.new result }
{
    match part {
        None => Ok(()),
        Some(child) => statement(alloc, tables, stand, child.get()),
    }
}

/// The arms of a switch, one after another.
#[cycle(statement)]
fn arms<'a>(alloc: Global, tables: &mut Tables<'a>, list: &'a [RawArm]) -> Result<(), WalkFault>
    requires { AreRight tables.old }
    ensures { Walks (of_arms list.now) tables.old tables.new result }
{
    for arm in list {
        statements(alloc, tables, Stand::InArm, arm.body.as_slice())?;
    }
    Ok(())
}

/// The arms of a switch as one block (6.8.4.2).
#[cycle(statement)]
fn arms_block<'a>(
    alloc: Global,
    tables: &mut Tables<'a>,
    list: &'a [RawArm],
) -> Result<(), WalkFault>
    requires { AreRight tables.old }
    ensures { Walks (enclosed (of_arms list.now)) tables.old tables.new result }
{
    let outside = tables.before();
    tables.open();
    arms(alloc, tables, list)?;
    tables.close(outside);
    Ok(())
}

/// A statement.
#[cycle(statement)]
fn statement<'a>(
    alloc: Global,
    tables: &mut Tables<'a>,
    stand: Stand,
    statement: &'a RawStatement,
) -> Result<(), WalkFault>
    requires { AreRight tables.old }
    ensures { Walks (of_statement (stand_of stand) statement.now) tables.old tables.new result }
{
    match statement {
        RawStatement::Declare { line, var, init } => {
            declared(alloc, tables, *line, stand, var, init)
        }
        RawStatement::Assign {
            line,
            left,
            op,
            right,
        } => assigned(alloc, tables, *line, left, *op, right),
        RawStatement::Bump { line, left, .. } => bumped(alloc, tables, *line, left),
        RawStatement::Call {
            line,
            target,
            function,
            args,
        } => call(
            alloc,
            tables,
            *line,
            stand,
            target,
            function.bytes(),
            args.as_slice(),
        ),
        RawStatement::Heap {
            line,
            target,
            cast,
            amount,
        } => heap(alloc, tables, *line, stand, target, cast, amount),
        RawStatement::If {
            line,
            test,
            then,
            other,
        } => {
            tested(alloc, tables, *line, test)?;
            block(alloc, tables, then.as_slice())?;
            block(alloc, tables, other.as_slice())
        }
        RawStatement::While { line, test, body } => {
            tested(alloc, tables, *line, test)?;
            block(alloc, tables, body.as_slice())
        }
        RawStatement::Do { line, test, body } => {
            tested(alloc, tables, *line, test)?;
            block(alloc, tables, body.as_slice())
        }
        RawStatement::For {
            line,
            init,
            test,
            step,
            body,
        } => {
            tables.number()?;
            let outside = tables.before();
            tables.open();
            part(alloc, tables, Stand::InFor, init)?;
            on_line(*line, check_test(alloc, tables, test))?;
            part(alloc, tables, Stand::InBlock, step)?;
            block(alloc, tables, body.as_slice())?;
            tables.close(outside);
            Ok(())
        }
        RawStatement::Switch { line, test, arms } => {
            switch_head(alloc, tables, *line, test, arms.as_slice())?;
            arms_block(alloc, tables, arms.as_slice())
        }
        RawStatement::Block { body, .. } => block(alloc, tables, body.as_slice()),
        RawStatement::Return { line, value } => returned(alloc, tables, *line, value),
    }
}
