//! What is left to do in a function, as references into the tree. Nothing of the tree is copied.
ghost use Rattle.std.specs.Prelude.{◌≡◌, ◌+◌, ◌<◌, ◌≤◌, OnOk, map};
ghost use Rattle.std.specs.Option.{option_to_list};
ghost use Rattle.c_language.specs.Code as codes;
ghost use Rattle.c_language.specs.Code.{Code, End, Opens, part, code_of, taken_arm};
ghost use Rattle.c_machine.specs.Rests as spec;
ghost use Rattle.c_machine.specs.Rests.{left_code, list_before, ends_before, block_before, block_in, act_code, opened_for, arm_part, found_code};
ghost use Rattle.c_machine.specs.Sizes.{size, list_size, left_size};

use c_tree::{Arm, Boxed, Label, Statement, Target, VarId};
use std::alloc::AllocError;
use std::slice;

/// A piece of what is left to do.
#[derive(Clone, Copy)]
pub(crate) enum Rest<'p> {
    /// The rest of a statement list.
    List(&'p [Statement]),
    /// A declared variable begins, with nothing written in it.
    Opens(VarId),
    /// The act of a statement, of a loop its test; a declaration without initialiser and a block have none.
    Act(&'p Statement),
    /// The end of a block, and so of what these statements declare.
    Leaves(&'p [Statement]),
}

/// Lets a block be done next: its statements, and the end of what they declare.
#[tactic(auto, using(crate::proofs::Rulesets::rests))]
pub(crate) fn add_block<'p>(
    left: &mut Vec<Rest<'p>>,
    body: &'p [Statement],
) -> Result<(), AllocError>
    ensures code { OnOk result (left_code left.new.items ≡ block_before body.now (left_code left.old.items)) }
    ensures size { OnOk result (left_size left.new.items ≡ left_size left.old.items + (1 + list_size body.now)) }
{
    left.push(Rest::Leaves(body))?;
    left.push(Rest::List(body))?;
    Ok(())
}

/// Lets a statement be done next.
#[tactic(auto, using(crate::proofs::Rulesets::rests))]
pub(crate) fn add_statement<'p>(
    left: &mut Vec<Rest<'p>>,
    statement: &'p Statement,
) -> Result<(), AllocError>
    ensures code { OnOk result (left_code left.new.items ≡ code_of statement.now (left_code left.old.items)) }
    ensures size { OnOk result (left_size left.new.items < left_size left.old.items + size statement.now) }
{
    match statement {
        Statement::Declare { var, .. } => add_declaration(left, statement, *var),
        Statement::Invoke { target, .. } => add_given(left, statement, target),
        Statement::Fetch { target, .. } => add_given(left, statement, target),
        Statement::Heap { target, .. } => add_given(left, statement, target),
        Statement::Do { body, .. } => add_do(left, statement, body.as_slice()),
        Statement::For { init, .. } => add_for(left, statement, as_list(init)),
        Statement::Block { body, .. } => add_block(left, body.as_slice()),
        Statement::Assign { .. } => add_act(left, statement),
        Statement::Bump { .. } => add_act(left, statement),
        Statement::Write { .. } => add_act(left, statement),
        Statement::Print { .. } => add_act(left, statement),
        Statement::Release { .. } => add_act(left, statement),
        Statement::If { .. } => add_act(left, statement),
        Statement::While { .. } => add_act(left, statement),
        Statement::Switch { .. } => add_act(left, statement),
        Statement::Return { .. } => add_act(left, statement),
    }
}

// Lets the act of a statement be done next.
#[tactic(auto, using(crate::proofs::Rulesets::rests))]
fn add_act<'p>(left: &mut Vec<Rest<'p>>, statement: &'p Statement) -> Result<(), AllocError>
    ensures code { OnOk result (left_code left.new.items ≡ act_code statement.now (left_code left.old.items)) }
    ensures size { OnOk result (left_size left.new.items ≡ left_size left.old.items + 1) }
{
    left.push(Rest::Act(statement))?;
    Ok(())
}

// Lets a variable begin, and then its initialiser be stored.
#[tactic(auto, using(crate::proofs::Rulesets::rests))]
fn add_declaration<'p>(
    left: &mut Vec<Rest<'p>>,
    statement: &'p Statement,
    x: VarId,
) -> Result<(), AllocError>
    ensures code { OnOk result (left_code left.new.items ≡ Opens x (act_code statement.now (left_code left.old.items))) }
    ensures size { OnOk result (left_size left.new.items ≡ left_size left.old.items + 2) }
{
    left.push(Rest::Act(statement))?;
    left.push(Rest::Opens(x))?;
    Ok(())
}

// Lets a call be done next, and before it the variable begin that is declared for its result.
#[tactic(auto, using(crate::proofs::Rulesets::rests))]
fn add_given<'p>(
    left: &mut Vec<Rest<'p>>,
    statement: &'p Statement,
    target: &Target,
) -> Result<(), AllocError>
    ensures code { OnOk result (left_code left.new.items ≡ opened_for target.now (act_code statement.now (left_code left.old.items))) }
    ensures size { OnOk result (left_size left.new.items ≤ left_size left.old.items + 2) }
{
    left.push(Rest::Act(statement))?;
    match target {
        Target::Declared(x) => {
            left.push(Rest::Opens(*x))?;
            Ok(())
        }
        Target::None => Ok(()),
        Target::Place(_) => Ok(()),
    }
}

// A do is its body, and then a loop.
#[tactic(auto, using(crate::proofs::Rulesets::rests))]
fn add_do<'p>(
    left: &mut Vec<Rest<'p>>,
    statement: &'p Statement,
    body: &'p [Statement],
) -> Result<(), AllocError>
    ensures code { OnOk result (left_code left.new.items ≡ block_before body.now (act_code statement.now (left_code left.old.items))) }
    ensures size { OnOk result (left_size left.new.items ≡ left_size left.old.items + (2 + list_size body.now)) }
{
    left.push(Rest::Act(statement))?;
    add_block(left, body)?;
    Ok(())
}

// A for is what it begins with, and then a loop, and then the end of what was declared.
#[tactic(auto, using(crate::proofs::Rulesets::rests))]
fn add_for<'p>(
    left: &mut Vec<Rest<'p>>,
    statement: &'p Statement,
    init: &'p [Statement],
) -> Result<(), AllocError>
    ensures size { OnOk result (left_size left.new.items ≡ left_size left.old.items + (2 + list_size init.now)) }
    ensures code { OnOk result (left_code left.new.items
        ≡ list_before init.now (act_code statement.now (ends_before init.now (left_code left.old.items)))) }
{
    left.push(Rest::Leaves(init))?;
    left.push(Rest::Act(statement))?;
    left.push(Rest::List(init))?;
    Ok(())
}

/// A part of a for as a list.
pub(crate) fn as_list(part: &Option<Boxed<Statement>>) -> &[Statement]
    ensures { result.now ≡ option_to_list part.now }
{
    match part {
        Some(statement) => slice::from_ref(statement.get()),
        None => &[],
    }
}

/// The variable that a statement declares in the list where it stands.
#[tactic(auto, using(crate::proofs::Rulesets::rests))]
pub(crate) fn declared(statement: &Statement) -> Option<VarId>
    ensures { option_to_list result ≡ (part statement.now).declares }
{
    match statement {
        Statement::Declare { var, .. } => Some(*var),
        Statement::Invoke { target, .. } => declared_for(target),
        Statement::Fetch { target, .. } => declared_for(target),
        Statement::Heap { target, .. } => declared_for(target),
        Statement::Assign { .. } => None,
        Statement::Bump { .. } => None,
        Statement::Write { .. } => None,
        Statement::Print { .. } => None,
        Statement::Release { .. } => None,
        Statement::If { .. } => None,
        Statement::While { .. } => None,
        Statement::Do { .. } => None,
        Statement::For { .. } => None,
        Statement::Switch { .. } => None,
        Statement::Block { .. } => None,
        Statement::Return { .. } => None,
    }
}

// The variable that is declared for the result of a call.
fn declared_for(target: &Target) -> Option<VarId>
    ensures { option_to_list result ≡ spec.declared_for target.now }
{
    match target {
        Target::Declared(x) => Some(*x),
        Target::None => None,
        Target::Place(_) => None,
    }
}

/// The statements of the arm that a switch takes at a value: the first one with a case of it, or else the one with the
/// default; none where there is none.
pub(crate) fn taken_body(arms: &[Arm], value: i128) -> &[Statement]
    ensures { block_in result.now ≡ taken_arm (map arm_part arms.now) value }
{
    match case_arm(arms, value) {
        Some(arm) => arm.body.as_slice(),
        None => match default_arm(arms) {
            Some(arm) => arm.body.as_slice(),
            None => &[],
        },
    }
}

// The first arm with a case of the value.
fn case_arm(arms: &[Arm], value: i128) -> Option<&Arm>
    ensures { (other : Code) → found_code result other ≡ codes.case_arm (map arm_part arms.now) value other }
{
    for arm in arms {
        if has_case(arm.labels.as_slice(), value) {
            return Some(arm);
        }
    }
    None
}

// The first arm with the default.
fn default_arm(arms: &[Arm]) -> Option<&Arm>
    ensures { found_code result End ≡ codes.default_arm (map arm_part arms.now) }
{
    for arm in arms {
        if has_default(arm.labels.as_slice()) {
            return Some(arm);
        }
    }
    None
}

// Whether one of the labels is a case of the value.
fn has_case(labels: &[Label], value: i128) -> bool
    ensures { result ≡ codes.has_case value labels.now }
{
    for label in labels {
        if is_case(label, value) {
            return true;
        }
    }
    false
}

// Whether a label is a case of the value.
fn is_case(label: &Label, value: i128) -> bool
    ensures { result ≡ codes.is_case value label.now }
{
    match label {
        Label::Case(_, number) => *number == value,
        Label::Default => false,
    }
}

// Whether one of the labels is the default.
fn has_default(labels: &[Label]) -> bool
    ensures { result ≡ codes.has_default labels.now }
{
    for label in labels {
        if is_default(label) {
            return true;
        }
    }
    false
}

// Whether a label is the default.
fn is_default(label: &Label) -> bool
    ensures { result ≡ codes.is_default label.now }
{
    match label {
        Label::Case(..) => false,
        Label::Default => true,
    }
}
