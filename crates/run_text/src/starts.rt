//! The numbered statements of a program with the lines on which they start.
ghost use Rattle.std.specs.Prelude.{◌≡◌, ◌↔◌, ℕ, ◌++◌, true, IfOk, IsTrue, MatchOption, OnOk};
ghost use Rattle.std.specs.Option.{option_to_list};
ghost use Rattle.c_tree.specs.Numbered.{starts, body_starts, function_starts, program_starts, own_start, inner, arms_inner};
ghost use Rattle.run_text.specs.Lines.{StartsOn, starts_among};

use c_tree::numbered::{Start, own_start};
use c_tree::{Arm, Boxed, Function, Program, Statement, StatementId};
use std::alloc::{AllocError, Global};

/// The line with this number, where a statement starts on it.
pub fn start_on(starts: &[Start], line: u64) -> Option<u32>
    ensures { MatchOption result (StartsOn line starts.now → ⊥) (λ found. (found ≡ line) × StartsOn line starts.now) }
{
    for start in starts {
        if is_on(start, line) {
            return Some(start.line);
        }
    }
    None
}

fn is_on(start: &Start, line: u64) -> bool
    ensures { IsTrue result ↔ (start.now.line ≡ line) }
{
    u64::from(start.line) == line
}

/// The line on which the statement with this number starts; 0 where none has it. Err: no memory was left.
pub fn start_line(alloc: Global, p: &Program, id: StatementId) -> Result<u32, AllocError>
    ensures { IfOk result (λ found. (line : ℕ) → starts_among line (program_starts p.now) id ≡ true → starts_among found (program_starts p.now) id ≡ true) }
{
    let starts = starts_in(alloc, p)?;
    Ok(line_of(starts.as_slice(), id))
}

fn line_of(starts: &[Start], id: StatementId) -> u32
    ensures { (line : ℕ) → starts_among line starts.now id ≡ true → starts_among result starts.now id ≡ true }
{
    for start in starts {
        if has_id(start, id) {
            return start.line;
        }
    }
    0
}

fn has_id(start: &Start, id: StatementId) -> bool
    ensures { IsTrue result ↔ (start.now.id ≡ id) }
{
    start.id == id
}

/// The starts of a program's statements. Err: no memory was left.
pub fn starts_in(alloc: Global, p: &Program) -> Result<Vec<Start>, AllocError>
    ensures { IfOk result (λ found. found.items ≡ program_starts p.now) }
{
    let mut found = Vec::new(alloc);
    in_functions(&mut found, p.functions.as_slice())?;
    Ok(found)
}

fn in_functions(found: &mut Vec<Start>, list: &[Function]) -> Result<(), AllocError>
    ensures { OnOk result (found.new.items ≡ found.old.items ++ function_starts list.now) }
{
    for function in list {
        among(found, function.body.as_slice())?;
    }
    Ok(())
}

#[cycle(starts)]
fn among(found: &mut Vec<Start>, list: &[Statement]) -> Result<(), AllocError>
    ensures { OnOk result (found.new.items ≡ found.old.items ++ body_starts list.now) }
{
    for statement in list {
        within(found, statement)?;
    }
    Ok(())
}

// The start of a statement itself, where it has a number.
fn push_own(found: &mut Vec<Start>, statement: &Statement) -> Result<(), AllocError>
    ensures { OnOk result (found.new.items ≡ found.old.items ++ option_to_list (own_start statement.now)) }
{
    if let Some(start) = own_start(statement) {
        found.push(start)?;
    }
    Ok(())
}

#[cycle(starts)]
fn within(found: &mut Vec<Start>, statement: &Statement) -> Result<(), AllocError>
    ensures { OnOk result (found.new.items ≡ found.old.items ++ starts statement.now) }
{
    push_own(found, statement)?;
    inside(found, statement)?;
    Ok(())
}

// The starts of what stands right inside a statement, and inside that.
#[cycle(starts)]
fn inside(found: &mut Vec<Start>, statement: &Statement) -> Result<(), AllocError>
    ensures { OnOk result (found.new.items ≡ found.old.items ++ body_starts (inner statement.now)) }
{
    match statement {
        Statement::If { then, other, .. } => {
            among(found, then.as_slice())?;
            among(found, other.as_slice())?;
            Ok(())
        }
        Statement::While { body, .. } => among(found, body.as_slice()),
        Statement::Do { body, .. } => among(found, body.as_slice()),
        Statement::For {
            init,
            step,
            body,
            ..
        } => {
            in_part(found, init)?;
            in_part(found, step)?;
            among(found, body.as_slice())?;
            Ok(())
        }
        Statement::Switch { arms, .. } => in_arms(found, arms.as_slice()),
        Statement::Block { body, .. } => among(found, body.as_slice()),
        Statement::Declare { .. } => Ok(()),
        Statement::Assign { .. } => Ok(()),
        Statement::Bump { .. } => Ok(()),
        Statement::Invoke { .. } => Ok(()),
        Statement::Fetch { .. } => Ok(()),
        Statement::Write { .. } => Ok(()),
        Statement::Print { .. } => Ok(()),
        Statement::Heap { .. } => Ok(()),
        Statement::Release { .. } => Ok(()),
        Statement::Return { .. } => Ok(()),
    }
}

#[cycle(starts)]
fn in_part(found: &mut Vec<Start>, part: &Option<Boxed<Statement>>) -> Result<(), AllocError>
    ensures { OnOk result (found.new.items ≡ found.old.items ++ body_starts (option_to_list part.now)) }
{
    match part {
        None => Ok(()),
        Some(statement) => within(found, statement.get()),
    }
}

#[cycle(starts)]
fn in_arms(found: &mut Vec<Start>, arms: &[Arm]) -> Result<(), AllocError>
    ensures { OnOk result (found.new.items ≡ found.old.items ++ body_starts (arms_inner arms.now)) }
{
    for arm in arms {
        among(found, arm.body.as_slice())?;
    }
    Ok(())
}
