//! The variables that the words of a vertex name.
ghost use Rattle.std.specs.Prelude.{false, OnOk, slice_get};
ghost use Rattle.std.specs.Option.{option_map_or};
ghost use Rattle.c_tree.specs.declared.expr.Expr.{Expr};
ghost use Rattle.c_tree.specs.declared.program.Program.{Program};
ghost use Rattle.c_language.specs.Names.{names};
ghost use Rattle.dep_model.specs.NamedParameters.{statement_names, argument_names, left_names, kind_names};
ghost use Rattle.dep_model.specs.declared.vertex.Slot.TheVariants as slot;
ghost use Rattle.named_variables.specs.Marks.{Adds};
ghost use Rattle.completion.specs.Numbered.{AreRows, own_doing};

use crate::statements::Statements;
use c_tree::{Expr, Statement};
use dep_model::{Slot, Vertex, VertexKind};
use named_variables::{
    mark, mark_all, mark_amount, mark_init, mark_names, mark_target, mark_value,
};
use std::alloc::AllocError;

// Marks what the words of a statement name that calls no function of the text.
fn mark_statement(used: &mut Vec<bool>, statement: &Statement) -> Result<(), AllocError>
    ensures { OnOk result (Adds used.old.items used.new.items (statement_names (own_doing statement.now))) }
{
    match statement {
        Statement::Declare { id: None, .. } => Ok(()),
        Statement::Declare {
            id: Some(_),
            var,
            init,
            ..
        } => {
            mark(used, *var)?;
            mark_init(used, init)?;
            Ok(())
        }
        Statement::Assign { left, right, .. } => {
            mark_names(used, left)?;
            mark_names(used, right)?;
            Ok(())
        }
        Statement::Fetch { target, .. } => {
            mark_target(used, target)?;
            Ok(())
        }
        Statement::Print { args, .. } => {
            mark_all(used, args.as_slice())?;
            Ok(())
        }
        Statement::Heap { target, amount, .. } => {
            mark_target(used, target)?;
            mark_amount(used, amount)?;
            Ok(())
        }
        Statement::Bump { left: e, .. }
        | Statement::Write { value: e, .. }
        | Statement::Release { value: e, .. }
        | Statement::If { test: e, .. }
        | Statement::While { test: e, .. }
        | Statement::Do { test: e, .. }
        | Statement::For { test: e, .. }
        | Statement::Switch { test: e, .. } => {
            mark_names(used, e)?;
            Ok(())
        }
        Statement::Return { value, .. } => {
            mark_value(used, value)?;
            Ok(())
        }
        Statement::Invoke { .. } | Statement::Block { .. } => Ok(()),
    }
}

// Marks what the expression at a place names, where there is one.
fn mark_at(used: &mut Vec<bool>, args: &[Expr], place: u32) -> Result<(), AllocError>
    ensures { OnOk result (Adds used.old.items used.new.items (λ x. option_map_or (λ (e : Expr). names e x) (slice_get args.now place) false)) }
{
    match args.get(place as usize) {
        Some(argument) => {
            mark_names(used, argument)?;
            Ok(())
        }
        None => Ok(()),
    }
}

// Marks what the argument of a call at a place names.
fn mark_argument(used: &mut Vec<bool>, statement: &Statement, place: u32) -> Result<(), AllocError>
    ensures { OnOk result (Adds used.old.items used.new.items (argument_names (own_doing statement.now) (slot.Argument place))) }
{
    if let Statement::Invoke { args, .. } = statement {
        mark_at(used, args.as_slice(), place)?;
    }
    Ok(())
}

// Marks what the left side of a call names.
fn mark_left(used: &mut Vec<bool>, statement: &Statement) -> Result<(), AllocError>
    ensures { OnOk result (Adds used.old.items used.new.items (left_names (own_doing statement.now) slot.Result)) }
{
    if let Statement::Invoke { target, .. } = statement {
        mark_target(used, target)?;
    }
    Ok(())
}

/// Marks the variables that the words of a vertex name. Err: no memory was left, and some may be marked.
pub(crate) fn mark_vertex(
    used: &mut Vec<bool>,
    statements: &Statements<'_>,
    vertex: Vertex,
) -> Result<(), AllocError>
    ensures { OnOk result ((p : Program) → AreRows p statements.now.rows.items → Adds used.old.items used.new.items (kind_names p vertex.function vertex.kind)) }
{
    match vertex.kind {
        VertexKind::Statement(id) => {
            if let Some(statement) = statements.at(vertex.function, id) {
                mark_statement(used, statement)?;
            }
            Ok(())
        }
        VertexKind::ActualIn(id, Slot::Argument(place)) => {
            if let Some(statement) = statements.at(vertex.function, id) {
                mark_argument(used, statement, place)?;
            }
            Ok(())
        }
        VertexKind::ActualOut(id, Slot::Result) => {
            if let Some(statement) = statements.at(vertex.function, id) {
                mark_left(used, statement)?;
            }
            Ok(())
        }
        VertexKind::Entry
        | VertexKind::FormalIn(_)
        | VertexKind::FormalOut(_)
        | VertexKind::Call(_)
        | VertexKind::ActualIn(_, Slot::Result | Slot::At(_))
        | VertexKind::ActualOut(_, Slot::Argument(_) | Slot::At(_)) => Ok(()),
    }
}
