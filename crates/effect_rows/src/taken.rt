//! The variables whose addresses are taken, by one walk down the tree.
ghost use Rattle.std.specs.Prelude.{◌≡◌, ℕ, ◌==◌, ◌||◌, OnOk, IfOk};
ghost use Rattle.c_tree.specs.declared.program.Program.{Program};
ghost use Rattle.dep_model.specs.Designated as form;
ghost use Rattle.dep_model.specs.Designated.{designated, is_root, value_takes};
ghost use Rattle.dep_model.specs.DoingEffects as spec;
ghost use Rattle.effect_rows.specs.Own.{own_takes};
ghost use Rattle.effect_rows.specs.Taken as walk;
ghost use Rattle.effect_rows.specs.Taken.{Adds, AreTaken};

use crate::expressions::is_array_object;
use c_tree::{Amount, Arm, Boxed, Expr, Init, Program, Statement, Target, VarId};
use std::alloc::{AllocError, Global};

/// For each variable, whether its address is taken somewhere in the program; that of none past the
/// end is. Err: no memory was left.
pub(crate) fn taken_variables(alloc: Global, p: &Program) -> Result<Vec<bool>, AllocError>
    ensures { IfOk result (λ taken. AreTaken p.now taken.items) }
{
    let mut taken = Vec::new(alloc);
    for function in p.functions.as_slice() {
        mark_body(&mut taken, p, function.body.as_slice())?;
    }
    Ok(taken)
}

// Marks a variable.
fn mark(taken: &mut Vec<bool>, var: VarId) -> Result<(), AllocError>
    ensures { OnOk result (Adds taken.old.items taken.new.items (λ x. var == x)) }
{
    let at = var as usize;
    if taken.len() <= at {
        taken.resize(at + 1, false)?;
    }
    taken[at] = true;
    Ok(())
}

// ---- expressions

/// The variable in which the object of an expression lies, where no pointer leads to it.
#[tactic(auto, using(crate::proofs::Rules::designated_forms))]
fn root_of(p: &Program, e: &Expr) -> Option<VarId>
    ensures { result ≡ (designated p.now e.now).root }
{
    match e {
        Expr::Variable(x) => Some(*x),
        Expr::Index(a, _) => {
            if is_array_object(p, a.get()) {
                root_of(p, a.get())
            } else {
                None
            }
        }
        Expr::Member(a, _) => root_of(p, a.get()),
        Expr::Paren(a) => root_of(p, a.get()),
        Expr::Constant(_, _, _) => None,
        Expr::Null => None,
        Expr::Eof => None,
        Expr::Unary(_, _) => None,
        Expr::Deref(_) => None,
        Expr::AddressOf(_) => None,
        Expr::Binary(_, _, _) => None,
        Expr::AndAlso(_, _) => None,
        Expr::OrElse(_, _) => None,
        Expr::Choose(_, _, _) => None,
        Expr::Cast(_, _) => None,
        Expr::Arrow(_, _) => None,
    }
}

/// The variable of a name with `.` selections alone behind it.
#[tactic(auto, using(crate::proofs::Rules::designated_forms))]
pub(crate) fn name_of(e: &Expr) -> Option<VarId>
    ensures { (p : Program) → result ≡ (designated p e.now).name }
{
    match e {
        Expr::Variable(x) => Some(*x),
        Expr::Member(a, _) => name_of(a.get()),
        Expr::Constant(_, _, _) => None,
        Expr::Null => None,
        Expr::Eof => None,
        Expr::Unary(_, _) => None,
        Expr::Deref(_) => None,
        Expr::AddressOf(_) => None,
        Expr::Binary(_, _, _) => None,
        Expr::AndAlso(_, _) => None,
        Expr::OrElse(_, _) => None,
        Expr::Choose(_, _, _) => None,
        Expr::Cast(_, _) => None,
        Expr::Index(_, _) => None,
        Expr::Arrow(_, _) => None,
        Expr::Paren(_) => None,
    }
}

// Marks the variable in which the object of an expression lies.
fn mark_root(taken: &mut Vec<bool>, p: &Program, e: &Expr) -> Result<(), AllocError>
    ensures { OnOk result (Adds taken.old.items taken.new.items (is_root (designated p.now e.now).root)) }
{
    match root_of(p, e) {
        None => Ok(()),
        Some(x) => {
            mark(taken, x)?;
            Ok(())
        }
    }
}

// Marks what is taken for the value of an expression: an array turns into a pointer.
#[cycle(takes)]
fn mark_value(taken: &mut Vec<bool>, p: &Program, e: &Expr) -> Result<(), AllocError>
    ensures { OnOk result (Adds taken.old.items taken.new.items (value_takes (designated p.now e.now))) }
{
    mark_found(taken, p, e)?;
    if is_array_object(p, e) {
        mark_root(taken, p, e)?;
    }
    Ok(())
}

// Marks what is taken to find the object of an expression, or else for its value.
#[cycle(takes)]
fn mark_found(taken: &mut Vec<bool>, p: &Program, e: &Expr) -> Result<(), AllocError>
    ensures { OnOk result (Adds taken.old.items taken.new.items (designated p.now e.now).takes) }
{
    match e {
        Expr::Constant(_, _, _) => Ok(()),
        Expr::Null => Ok(()),
        Expr::Eof => Ok(()),
        Expr::Variable(_) => Ok(()),
        Expr::Unary(_, a) => {
            mark_value(taken, p, a.get())?;
            Ok(())
        }
        Expr::Deref(a) => {
            mark_value(taken, p, a.get())?;
            Ok(())
        }
        Expr::AddressOf(a) => {
            mark_found(taken, p, a.get())?;
            mark_root(taken, p, a.get())?;
            Ok(())
        }
        Expr::Binary(_, a, b) => {
            mark_value(taken, p, a.get())?;
            mark_value(taken, p, b.get())?;
            Ok(())
        }
        Expr::AndAlso(a, b) => {
            mark_value(taken, p, a.get())?;
            mark_value(taken, p, b.get())?;
            Ok(())
        }
        Expr::OrElse(a, b) => {
            mark_value(taken, p, a.get())?;
            mark_value(taken, p, b.get())?;
            Ok(())
        }
        Expr::Choose(c, a, b) => {
            mark_value(taken, p, c.get())?;
            mark_value(taken, p, a.get())?;
            mark_value(taken, p, b.get())?;
            Ok(())
        }
        Expr::Cast(_, a) => {
            mark_value(taken, p, a.get())?;
            Ok(())
        }
        Expr::Index(a, i) => {
            mark_found(taken, p, a.get())?;
            mark_value(taken, p, i.get())?;
            Ok(())
        }
        Expr::Member(a, _) => {
            mark_found(taken, p, a.get())?;
            Ok(())
        }
        Expr::Arrow(a, _) => {
            mark_value(taken, p, a.get())?;
            Ok(())
        }
        Expr::Paren(a) => {
            mark_found(taken, p, a.get())?;
            Ok(())
        }
    }
}

// ---- parts of statements

fn mark_all(taken: &mut Vec<bool>, p: &Program, list: &[Expr]) -> Result<(), AllocError>
    ensures { OnOk result (Adds taken.old.items taken.new.items (spec.any_takes p.now list.now)) }
{
    for e in list {
        mark_value(taken, p, e)?;
    }
    Ok(())
}

fn mark_maybe(taken: &mut Vec<bool>, p: &Program, value: &Option<Expr>) -> Result<(), AllocError>
    ensures { OnOk result (Adds taken.old.items taken.new.items (spec.maybe_takes p.now value.now)) }
{
    match value {
        None => Ok(()),
        Some(e) => {
            mark_value(taken, p, e)?;
            Ok(())
        }
    }
}

fn mark_init(taken: &mut Vec<bool>, p: &Program, init: &Init) -> Result<(), AllocError>
    ensures { OnOk result (Adds taken.old.items taken.new.items (spec.init_takes p.now init.now)) }
{
    match init {
        Init::None => Ok(()),
        Init::One(e) => {
            mark_value(taken, p, e)?;
            Ok(())
        }
        Init::Items(list) => {
            mark_all(taken, p, list.as_slice())?;
            Ok(())
        }
    }
}

fn mark_target(taken: &mut Vec<bool>, p: &Program, to: &Target) -> Result<(), AllocError>
    ensures { OnOk result (Adds taken.old.items taken.new.items (spec.target_takes p.now to.now)) }
{
    match to {
        Target::None => Ok(()),
        Target::Place(e) => {
            mark_found(taken, p, e)?;
            Ok(())
        }
        Target::Declared(_) => Ok(()),
    }
}

fn mark_amount(taken: &mut Vec<bool>, p: &Program, amount: &Amount) -> Result<(), AllocError>
    ensures { OnOk result (Adds taken.old.items taken.new.items (spec.amount_takes p.now amount.now)) }
{
    match amount {
        Amount::Size(_) => Ok(()),
        Amount::CountSize(e, _) => {
            mark_value(taken, p, e)?;
            Ok(())
        }
        Amount::SizeCount(_, e) => {
            mark_value(taken, p, e)?;
            Ok(())
        }
        Amount::Count(e) => {
            mark_value(taken, p, e)?;
            Ok(())
        }
    }
}

// Marks what a statement itself takes, without the statements in it.
#[tactic(auto, using(crate::proofs::Rules::own))]
fn mark_own(taken: &mut Vec<bool>, p: &Program, statement: &Statement) -> Result<(), AllocError>
    ensures { OnOk result (Adds taken.old.items taken.new.items (own_takes p.now statement.now)) }
{
    match statement {
        Statement::Declare { id, init, .. } => {
            match id {
                None => {}
                Some(_) => mark_init(taken, p, init)?,
            }
            Ok(())
        }
        Statement::Assign { left, right, .. } => {
            mark_found(taken, p, left)?;
            mark_value(taken, p, right)?;
            Ok(())
        }
        Statement::Bump { left, .. } => {
            mark_found(taken, p, left)?;
            Ok(())
        }
        Statement::Invoke { target, args, .. } => {
            mark_target(taken, p, target)?;
            mark_all(taken, p, args.as_slice())?;
            Ok(())
        }
        Statement::Fetch { target, .. } => {
            mark_target(taken, p, target)?;
            Ok(())
        }
        Statement::Write { value, .. } => {
            mark_value(taken, p, value)?;
            Ok(())
        }
        Statement::Print { args, .. } => {
            mark_all(taken, p, args.as_slice())?;
            Ok(())
        }
        Statement::Heap { target, amount, .. } => {
            mark_target(taken, p, target)?;
            mark_amount(taken, p, amount)?;
            Ok(())
        }
        Statement::Release { value, .. } => {
            mark_value(taken, p, value)?;
            Ok(())
        }
        Statement::If { test, .. } => {
            mark_value(taken, p, test)?;
            Ok(())
        }
        Statement::While { test, .. } => {
            mark_value(taken, p, test)?;
            Ok(())
        }
        Statement::Do { test, .. } => {
            mark_value(taken, p, test)?;
            Ok(())
        }
        Statement::For { test, .. } => {
            mark_value(taken, p, test)?;
            Ok(())
        }
        Statement::Switch { test, .. } => {
            mark_value(taken, p, test)?;
            Ok(())
        }
        Statement::Block { .. } => Ok(()),
        Statement::Return { value, .. } => {
            mark_maybe(taken, p, value)?;
            Ok(())
        }
    }
}

// ---- statements

#[cycle(statement)]
fn mark_body(taken: &mut Vec<bool>, p: &Program, list: &[Statement]) -> Result<(), AllocError>
    ensures { OnOk result (Adds taken.old.items taken.new.items (walk.body_takes p.now list.now)) }
{
    for statement in list {
        mark_statement(taken, p, statement)?;
    }
    Ok(())
}

#[cycle(statement)]
fn mark_arms(taken: &mut Vec<bool>, p: &Program, arms: &[Arm]) -> Result<(), AllocError>
    ensures { OnOk result (Adds taken.old.items taken.new.items (walk.arms_take p.now arms.now)) }
{
    for arm in arms {
        mark_body(taken, p, arm.body.as_slice())?;
    }
    Ok(())
}

// A part of the head of a for, where it has one.
#[cycle(statement)]
fn mark_part(
    taken: &mut Vec<bool>,
    p: &Program,
    part: &Option<Boxed<Statement>>,
) -> Result<(), AllocError>
    ensures { OnOk result (Adds taken.old.items taken.new.items (walk.part_takes p.now part.now)) }
{
    match part {
        None => Ok(()),
        Some(statement) => {
            mark_statement(taken, p, statement.get())?;
            Ok(())
        }
    }
}

// Marks what a statement and those in it take.
#[cycle(statement)]
fn mark_statement(
    taken: &mut Vec<bool>,
    p: &Program,
    statement: &Statement,
) -> Result<(), AllocError>
    ensures { OnOk result (Adds taken.old.items taken.new.items (walk.statement_takes p.now statement.now)) }
{
    mark_own(taken, p, statement)?;
    match statement {
        Statement::If { then, other, .. } => {
            mark_body(taken, p, then.as_slice())?;
            mark_body(taken, p, other.as_slice())?;
            Ok(())
        }
        Statement::While { body, .. } => {
            mark_body(taken, p, body.as_slice())?;
            Ok(())
        }
        Statement::Do { body, .. } => {
            mark_body(taken, p, body.as_slice())?;
            Ok(())
        }
        Statement::For {
            init,
            step,
            body,
            ..
        } => {
            mark_part(taken, p, init)?;
            mark_part(taken, p, step)?;
            mark_body(taken, p, body.as_slice())?;
            Ok(())
        }
        Statement::Switch { arms, .. } => {
            mark_arms(taken, p, arms.as_slice())?;
            Ok(())
        }
        Statement::Block { body, .. } => {
            mark_body(taken, p, body.as_slice())?;
            Ok(())
        }
        Statement::Declare { .. } => Ok(()),
        Statement::Assign { .. } => Ok(()),
        Statement::Bump { .. } => Ok(()),
        Statement::Invoke { .. } => Ok(()),
        Statement::Fetch { .. } => Ok(()),
        Statement::Write { .. } => Ok(()),
        Statement::Print { .. } => Ok(()),
        Statement::Heap { .. } => Ok(()),
        Statement::Release { .. } => Ok(()),
        Statement::Return { .. } => Ok(()),
    }
}
