//! Statements by their numbers.

ghost use Rattle.std.specs.Prelude.{◌≡◌, ◌≤◌, ◌↔◌, [], ◌∷◌, IsTrue, IsNone, MatchOption};
ghost use Rattle.std.specs.Option.{option_to_list};
ghost use Rattle.c_tree.specs.Numbered.{own_start, own_id, program_starts, Lacks, IsNumbered, IsWellNumbered, inner, arms_inner};
ghost use Rattle.c_tree.specs.Search.{Finds};

use crate::program::Program;
use crate::statement::{Arm, Statement};
use crate::types::StatementId;
use sqlite_items::Boxed;

/// A numbered statement.
#[derive(Clone, Copy, Debug, PartialEq, Eq)]
pub struct Start {
    /// The statement's number.
    pub id: StatementId,
    /// The line of its first token, counted from 1.
    pub line: u32,
}

/// The number of a statement and the line of its first token. A bare block and a declaration
/// without initialiser have none.
pub fn own_start(statement: &Statement) -> Option<Start>
    ensures { result ≡ own_start statement.now }
{
    match statement {
        Statement::Declare { id, line, .. } => match *id {
            Some(id) => Some(Start { id, line: *line }),
            None => None,
        },
        Statement::Assign { id, line, .. }
        | Statement::Bump { id, line, .. }
        | Statement::Invoke { id, line, .. }
        | Statement::Fetch { id, line, .. }
        | Statement::Write { id, line, .. }
        | Statement::Print { id, line, .. }
        | Statement::Heap { id, line, .. }
        | Statement::Release { id, line, .. }
        | Statement::If { id, line, .. }
        | Statement::While { id, line, .. }
        | Statement::Do { id, line, .. }
        | Statement::For { id, line, .. }
        | Statement::Switch { id, line, .. }
        | Statement::Return { id, line, .. } => Some(Start {
            id: *id,
            line: *line,
        }),
        Statement::Block { .. } => None,
    }
}

/// The statement with the number, also where it stands inside another. None: no statement of the
/// program has it, as where the numbers are those below `p.statements` and `id` is not.
pub fn statement(p: &Program, id: StatementId) -> Option<&Statement>
    ensures numbered { MatchOption result (Lacks id (program_starts p.now)) (λ s. IsNumbered p.now id s.now) }
    ensures below { IsWellNumbered p.now → (IsNone result ↔ (p.now.statements ≤ id)) }
{
    for function in p.functions.as_slice() {
        if let Some(found) = among(function.body.as_slice(), id) {
            return Some(found);
        }
    }
    None
}

fn has_id(statement: &Statement, id: StatementId) -> bool
    ensures { IsTrue result ↔ (own_id statement.now ≡ Some id) }
{
    match own_start(statement) {
        Some(own) => own.id == id,
        None => false,
    }
}

#[cycle(search)]
fn among(list: &[Statement], id: StatementId) -> Option<&Statement>
    ensures { Finds id list.now result }
{
    for statement in list {
        if let Some(found) = within(statement, id) {
            return Some(found);
        }
    }
    None
}

#[cycle(search)]
#[tactic(auto, using(crate::proofs::SearchLemmas::found_own))]
fn within(statement: &Statement, id: StatementId) -> Option<&Statement>
    ensures { Finds id (statement.now ∷ []) result }
{
    if has_id(statement, id) {
        return Some(statement);
    }
    inside(statement, id)
}

#[cycle(search)]
fn inside(statement: &Statement, id: StatementId) -> Option<&Statement>
    ensures { Finds id (inner statement.now) result }
{
    match statement {
        Statement::If { then, other, .. } => match among(then.as_slice(), id) {
            Some(found) => Some(found),
            None => among(other.as_slice(), id),
        },
        Statement::While { body, .. } => among(body.as_slice(), id),
        Statement::Do { body, .. } => among(body.as_slice(), id),
        Statement::For {
            init,
            step,
            body,
            ..
        } => match in_part(init, id) {
            Some(found) => Some(found),
            None => match in_part(step, id) {
                Some(found) => Some(found),
                None => among(body.as_slice(), id),
            },
        },
        Statement::Switch { arms, .. } => in_arms(arms.as_slice(), id),
        Statement::Block { body, .. } => among(body.as_slice(), id),
        Statement::Declare { .. } => None,
        Statement::Assign { .. } => None,
        Statement::Bump { .. } => None,
        Statement::Invoke { .. } => None,
        Statement::Fetch { .. } => None,
        Statement::Write { .. } => None,
        Statement::Print { .. } => None,
        Statement::Heap { .. } => None,
        Statement::Release { .. } => None,
        Statement::Return { .. } => None,
    }
}

#[cycle(search)]
fn in_part(part: &Option<Boxed<Statement>>, id: StatementId) -> Option<&Statement>
    ensures { Finds id (option_to_list part.now) result }
{
    match part {
        None => None,
        Some(statement) => within(statement.get(), id),
    }
}

#[cycle(search)]
fn in_arms(arms: &[Arm], id: StatementId) -> Option<&Statement>
    ensures { Finds id (arms_inner arms.now) result }
{
    for arm in arms {
        if let Some(found) = among(arm.body.as_slice(), id) {
            return Some(found);
        }
    }
    None
}
