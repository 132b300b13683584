//! The statements of a program that may store a pointer, by one walk down the tree.
ghost use Rattle.std.specs.Prelude.{◌≡◌, ◌<◌, ◌^◌, ◌++◌, IfOk, OnOk, length, map};
ghost use Rattle.std.specs.List.{list_any};
ghost use Rattle.dep_model.specs.Doings.{body_doings, doings};
ghost use Rattle.mod_ref.specs.Own.{own_doings, inside_doings, arms_doings, part_doings};
ghost use Rattle.points_to.specs.Moves.{told, storing, storing_below, is_pointer_value, init_has_pointer, gives_pointer, own_stores};

use c_tree::{Arm, Boxed, Expr, FunctionId, Init, Program, Statement};
use effect_rows::LocationEffects;
use std::alloc::{AllocError, Global};

/// A statement that may store a pointer, and the function in which it stands.
#[derive(Clone, Copy)]
pub(crate) struct Move<'p> {
    pub(crate) function: FunctionId,
    pub(crate) statement: &'p Statement,
}

/// The statements of a program that may store a pointer, in the order of the text. Err: no memory was left.
pub(crate) fn moves_of<'p>(
    alloc: Global,
    p: &'p Program,
    effects: &LocationEffects<'p>,
) -> Result<Vec<Move<'p>>, AllocError>
    requires few { length p.now.functions < 2 ^ 32 }
    requires effects { effects.now ≡ p.now }
    ensures { IfOk result (λ v. map told v.items ≡ storing_below p.now (length p.now.functions)) }
{
    let mut moves = Vec::new(alloc);
    for (f, function) in p.functions.as_slice().iter().enumerate() {
        statements(
            effects,
            f as FunctionId,
            function.body.as_slice(),
            &mut moves,
        )?;
    }
    Ok(moves)
}

// Whether the value of one of some expressions is a pointer.
fn have_pointer(effects: &LocationEffects<'_>, values: &[Expr]) -> bool
    ensures { result ≡ list_any (is_pointer_value effects.now) values.now }
{
    for value in values {
        if effects.is_pointer(value) {
            return true;
        }
    }
    false
}

// Whether what an object begins with may hold a pointer.
fn begins_with_pointer(effects: &LocationEffects<'_>, init: &Init) -> bool
    ensures { result ≡ init_has_pointer effects.now init.now }
{
    match init {
        Init::None => false,
        Init::One(value) => effects.is_pointer(value),
        Init::Items(values) => have_pointer(effects, values.as_slice()),
    }
}

// Whether a return gives a pointer.
fn returns_pointer(effects: &LocationEffects<'_>, value: &Option<Expr>) -> bool
    ensures { result ≡ gives_pointer effects.now value.now }
{
    match value {
        None => false,
        Some(value) => effects.is_pointer(value),
    }
}

// Whether a statement itself may store a pointer: a call does so by its result, or to a parameter.
#[tactic(auto, using(crate::proofs::Rules::own))]
fn stores_pointer(effects: &LocationEffects<'_>, statement: &Statement) -> bool
    ensures { result ≡ own_stores effects.now statement.now }
{
    match statement {
        Statement::Declare { id, init, .. } => match id {
            None => false,
            Some(_) => begins_with_pointer(effects, init),
        },
        Statement::Assign { right, .. } => effects.is_pointer(right),
        Statement::Invoke { .. } => true,
        Statement::Heap { .. } => true,
        Statement::Return { value, .. } => returns_pointer(effects, value),
        Statement::Bump { .. } => false,
        Statement::Fetch { .. } => false,
        Statement::Write { .. } => false,
        Statement::Print { .. } => false,
        Statement::Release { .. } => false,
        Statement::If { .. } => false,
        Statement::While { .. } => false,
        Statement::Do { .. } => false,
        Statement::For { .. } => false,
        Statement::Switch { .. } => false,
        Statement::Block { .. } => false,
    }
}

// Appends a statement, where it may store a pointer.
fn push_own<'p>(
    effects: &LocationEffects<'_>,
    f: FunctionId,
    statement: &'p Statement,
    moves: &mut Vec<Move<'p>>,
) -> Result<(), AllocError>
    ensures { OnOk result (map told moves.new.items ≡ map told moves.old.items ++ storing effects.now f (own_doings statement.now)) }
{
    if stores_pointer(effects, statement) {
        moves.push(Move {
            function: f,
            statement,
        })?;
    }
    Ok(())
}

// Appends those of some statements, one after another.
#[cycle(statement)]
fn statements<'p>(
    effects: &LocationEffects<'_>,
    f: FunctionId,
    list: &'p [Statement],
    moves: &mut Vec<Move<'p>>,
) -> Result<(), AllocError>
    ensures { OnOk result (map told moves.new.items ≡ map told moves.old.items ++ storing effects.now f (body_doings list.now)) }
{
    for child in list {
        statement(effects, f, child, moves)?;
    }
    Ok(())
}

// Appends those of the arms of a switch.
#[cycle(statement)]
fn arms<'p>(
    effects: &LocationEffects<'_>,
    f: FunctionId,
    list: &'p [Arm],
    moves: &mut Vec<Move<'p>>,
) -> Result<(), AllocError>
    ensures { OnOk result (map told moves.new.items ≡ map told moves.old.items ++ storing effects.now f (arms_doings list.now)) }
{
    for arm in list {
        statements(effects, f, arm.body.as_slice(), moves)?;
    }
    Ok(())
}

// Appends those of a part of the head of a for, where it has one.
#[cycle(statement)]
fn part<'p>(
    effects: &LocationEffects<'_>,
    f: FunctionId,
    part: &'p Option<Boxed<Statement>>,
    moves: &mut Vec<Move<'p>>,
) -> Result<(), AllocError>
    ensures { OnOk result (map told moves.new.items ≡ map told moves.old.items ++ storing effects.now f (part_doings part.now)) }
{
    match part {
        None => Ok(()),
        Some(child) => {
            statement(effects, f, child.get(), moves)?;
            Ok(())
        }
    }
}

// Appends a statement, where it may store a pointer, and then those in it.
#[cycle(statement)]
fn statement<'p>(
    effects: &LocationEffects<'_>,
    f: FunctionId,
    statement: &'p Statement,
    moves: &mut Vec<Move<'p>>,
) -> Result<(), AllocError>
    ensures { OnOk result (map told moves.new.items ≡ map told moves.old.items ++ storing effects.now f (doings statement.now)) }
{
    push_own(effects, f, statement, moves)?;
    inside(effects, f, statement, moves)?;
    Ok(())
}

// Appends those in a statement.
#[cycle(statement)]
fn inside<'p>(
    effects: &LocationEffects<'_>,
    f: FunctionId,
    statement: &'p Statement,
    moves: &mut Vec<Move<'p>>,
) -> Result<(), AllocError>
    ensures { OnOk result (map told moves.new.items ≡ map told moves.old.items ++ storing effects.now f (inside_doings statement.now)) }
{
    match statement {
        Statement::If { then, other, .. } => {
            statements(effects, f, then.as_slice(), moves)?;
            statements(effects, f, other.as_slice(), moves)?;
            Ok(())
        }
        Statement::For {
            init,
            step,
            body,
            ..
        } => {
            part(effects, f, init, moves)?;
            part(effects, f, step, moves)?;
            statements(effects, f, body.as_slice(), moves)?;
            Ok(())
        }
        Statement::While { body, .. } => {
            statements(effects, f, body.as_slice(), moves)?;
            Ok(())
        }
        Statement::Do { body, .. } => {
            statements(effects, f, body.as_slice(), moves)?;
            Ok(())
        }
        Statement::Switch { arms: list, .. } => {
            arms(effects, f, list.as_slice(), moves)?;
            Ok(())
        }
        Statement::Block { body, .. } => {
            statements(effects, f, body.as_slice(), moves)?;
            Ok(())
        }
        Statement::Declare { .. } => Ok(()),
        Statement::Assign { .. } => Ok(()),
        Statement::Bump { .. } => Ok(()),
        Statement::Invoke { .. } => Ok(()),
        Statement::Fetch { .. } => Ok(()),
        Statement::Write { .. } => Ok(()),
        Statement::Print { .. } => Ok(()),
        Statement::Heap { .. } => Ok(()),
        Statement::Release { .. } => Ok(()),
        Statement::Return { .. } => Ok(()),
    }
}
