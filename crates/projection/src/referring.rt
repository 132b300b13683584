//! The variables that kept text refers to, by one walk down the tree.
ghost use Rattle.std.specs.Prelude.{◌≡◌, ℕ, ◌&&◌, ◌||◌, OnOk, IfOk};
ghost use Rattle.bit_rows.specs.Sets.{has};
ghost use Rattle.named_variables.specs.Marks.{Adds};
ghost use Rattle.projection.specs.Kept.{chosen};
ghost use Rattle.projection.specs.Parts.{words_of};
ghost use Rattle.projection.specs.Referring.{part_refers, arms_refer, functions_refer};
ghost use Rattle.c_language.specs.Names as words;
ghost use Rattle.projection.specs.Names as spec;

use crate::parts::KeptParts;
use c_tree::{Amount, Arm, Boxed, Expr, Function, Init, Statement, StatementId, Target, VarId};
use kept_numbers::is_at;
use named_variables::{
    mark, mark_all, mark_amount, mark_init, mark_names, mark_target, mark_value,
};
use std::alloc::{AllocError, Global};

/// For each variable, whether kept text of the functions refers to it, where none of those past the
/// end is referred to. Err: no memory was left.
pub(crate) fn referred_variables(
    alloc: Global,
    list: &[Function],
    parts: &KeptParts,
) -> Result<Vec<bool>, AllocError>
    ensures { IfOk result (λ used. (x : ℕ) → has used.items x ≡ functions_refer (words_of parts.now) list.now x) }
{
    let mut used = Vec::new(alloc);
    for function in list {
        mark_statements(&mut used, parts, function.body.as_slice())?;
    }
    Ok(used)
}

// ---- the words of a statement, where it is kept

fn mark_word(used: &mut Vec<bool>, keeps: bool, e: &Expr) -> Result<(), AllocError>
    ensures { OnOk result (Adds used.old.items used.new.items (λ x. keeps && words.names e.now x)) }
{
    if !keeps {
        return Ok(());
    }
    mark_names(used, e)?;
    Ok(())
}

fn mark_begun(
    used: &mut Vec<bool>,
    parts: &KeptParts,
    id: Option<StatementId>,
    var: VarId,
    init: &Init,
) -> Result<(), AllocError>
    ensures { OnOk result (Adds used.old.items used.new.items (spec.begun_names (words_of parts.now) id var init.now)) }
{
    match id {
        None => Ok(()),
        Some(id) => {
            if !parts.keeps(id) {
                return Ok(());
            }
            mark(used, var)?;
            mark_init(used, init)?;
            Ok(())
        }
    }
}

fn mark_assigned(
    used: &mut Vec<bool>,
    keeps: bool,
    left: &Expr,
    right: &Expr,
) -> Result<(), AllocError>
    ensures { OnOk result (Adds used.old.items used.new.items (λ x. keeps && (words.names left.now x || words.names right.now x))) }
{
    if !keeps {
        return Ok(());
    }
    mark_names(used, left)?;
    mark_names(used, right)?;
    Ok(())
}

// The arguments of a call that are kept.
fn mark_arguments(used: &mut Vec<bool>, kept: &[bool], args: &[Expr]) -> Result<(), AllocError>
    ensures { OnOk result (Adds used.old.items used.new.items (words.any_names (chosen (has kept.now) 0 args.now))) }
{
    for (place, argument) in args.iter().enumerate() {
        if is_at(kept, place) {
            mark_names(used, argument)?;
        }
    }
    Ok(())
}

fn mark_called(
    used: &mut Vec<bool>,
    parts: &KeptParts,
    id: StatementId,
    to: &Target,
    args: &[Expr],
) -> Result<(), AllocError>
    ensures { OnOk result (Adds used.old.items used.new.items (λ x. has parts.now.statements.items id && spec.call_names (words_of parts.now) id to.now args.now x)) }
{
    if !parts.keeps(id) {
        return Ok(());
    }
    if parts.keeps_result(id) {
        mark_target(used, to)?;
    }
    mark_arguments(used, parts.arguments.row(id as usize), args)?;
    Ok(())
}

fn mark_fetched(used: &mut Vec<bool>, keeps: bool, to: &Target) -> Result<(), AllocError>
    ensures { OnOk result (Adds used.old.items used.new.items (λ x. keeps && words.target_names to.now x)) }
{
    if !keeps {
        return Ok(());
    }
    mark_target(used, to)?;
    Ok(())
}

fn mark_printed(used: &mut Vec<bool>, keeps: bool, args: &[Expr]) -> Result<(), AllocError>
    ensures { OnOk result (Adds used.old.items used.new.items (λ x. keeps && words.any_names args.now x)) }
{
    if !keeps {
        return Ok(());
    }
    mark_all(used, args)?;
    Ok(())
}

fn mark_allocated(
    used: &mut Vec<bool>,
    keeps: bool,
    to: &Target,
    amount: &Amount,
) -> Result<(), AllocError>
    ensures { OnOk result (Adds used.old.items used.new.items (λ x. keeps && (words.target_names to.now x || words.amount_names amount.now x))) }
{
    if !keeps {
        return Ok(());
    }
    mark_target(used, to)?;
    mark_amount(used, amount)?;
    Ok(())
}

fn mark_returned(used: &mut Vec<bool>, keeps: bool, value: &Option<Expr>) -> Result<(), AllocError>
    ensures { OnOk result (Adds used.old.items used.new.items (λ x. keeps && words.value_names value.now x)) }
{
    if !keeps {
        return Ok(());
    }
    mark_value(used, value)?;
    Ok(())
}

// ---- statements

#[cycle(statement)]
fn mark_statements(
    used: &mut Vec<bool>,
    parts: &KeptParts,
    list: &[Statement],
) -> Result<(), AllocError>
    ensures { OnOk result (Adds used.old.items used.new.items (spec.body_refers (words_of parts.now) list.now)) }
{
    for statement in list {
        mark_statement(used, parts, statement)?;
    }
    Ok(())
}

// A part of the head of a for, where it has one.
#[cycle(statement)]
fn mark_part(
    used: &mut Vec<bool>,
    parts: &KeptParts,
    part: &Option<Boxed<Statement>>,
) -> Result<(), AllocError>
    ensures { OnOk result (Adds used.old.items used.new.items (part_refers (words_of parts.now) part.now)) }
{
    match part {
        None => Ok(()),
        Some(statement) => {
            mark_statement(used, parts, statement.get())?;
            Ok(())
        }
    }
}

#[cycle(statement)]
fn mark_arms(used: &mut Vec<bool>, parts: &KeptParts, arms: &[Arm]) -> Result<(), AllocError>
    ensures { OnOk result (Adds used.old.items used.new.items (arms_refer (words_of parts.now) arms.now)) }
{
    for arm in arms {
        mark_statements(used, parts, arm.body.as_slice())?;
    }
    Ok(())
}

// Marks the variables that the kept statements of a statement refer to.
#[cycle(statement)]
fn mark_statement(
    used: &mut Vec<bool>,
    parts: &KeptParts,
    statement: &Statement,
) -> Result<(), AllocError>
    ensures { OnOk result (Adds used.old.items used.new.items (spec.refers (words_of parts.now) statement.now)) }
{
    match statement {
        Statement::Declare { id, var, init, .. } => {
            mark_begun(used, parts, *id, *var, init)?;
            Ok(())
        }
        Statement::Assign {
            id,
            left,
            right,
            ..
        } => {
            mark_assigned(used, parts.keeps(*id), left, right)?;
            Ok(())
        }
        Statement::Invoke {
            id,
            target,
            args,
            ..
        } => {
            mark_called(used, parts, *id, target, args.as_slice())?;
            Ok(())
        }
        Statement::Fetch { id, target, .. } => {
            mark_fetched(used, parts.keeps(*id), target)?;
            Ok(())
        }
        Statement::Print { id, args, .. } => {
            mark_printed(used, parts.keeps(*id), args.as_slice())?;
            Ok(())
        }
        Statement::Heap {
            id,
            target,
            amount,
            ..
        } => {
            mark_allocated(used, parts.keeps(*id), target, amount)?;
            Ok(())
        }
        Statement::Bump { id, left: e, .. }
        | Statement::Write { id, value: e, .. }
        | Statement::Release { id, value: e, .. } => {
            mark_word(used, parts.keeps(*id), e)?;
            Ok(())
        }
        Statement::Return { id, value, .. } => {
            mark_returned(used, parts.keeps(*id), value)?;
            Ok(())
        }
        Statement::Block { body, .. } => {
            mark_statements(used, parts, body.as_slice())?;
            Ok(())
        }
        Statement::If {
            id,
            test,
            then,
            other,
            ..
        } => {
            mark_word(used, parts.keeps(*id), test)?;
            mark_statements(used, parts, then.as_slice())?;
            mark_statements(used, parts, other.as_slice())?;
            Ok(())
        }
        Statement::While { id, test, body, .. } | Statement::Do { id, test, body, .. } => {
            mark_word(used, parts.keeps(*id), test)?;
            mark_statements(used, parts, body.as_slice())?;
            Ok(())
        }
        Statement::For {
            id,
            init,
            test,
            step,
            body,
            ..
        } => {
            mark_word(used, parts.keeps(*id), test)?;
            mark_part(used, parts, init)?;
            mark_part(used, parts, step)?;
            mark_statements(used, parts, body.as_slice())?;
            Ok(())
        }
        Statement::Switch { id, test, arms, .. } => {
            mark_word(used, parts.keeps(*id), test)?;
            mark_arms(used, parts, arms.as_slice())?;
            Ok(())
        }
    }
}
