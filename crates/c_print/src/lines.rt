//! The lines on which statements begin in the layout.
ghost use Rattle.std.specs.Prelude.{◌≡◌, ◌∷◌, [], ℕ, ◌+◌, ◌<◌, ◌^◌, IfOk, length, map, replicate, slice_get, Some};
ghost use Rattle.c_tree.specs.declared.program.Item.TheVariants as Item;
ghost use Rattle.std.specs.Option.{option_map};
ghost use Rattle.c_tree.specs.Numbered.{start, own_id, declared_start};
ghost use Rattle.c_print.specs.Feedless.{IsFeedless};
ghost use Rattle.c_print.specs.FewLines.{HaveFewLines};
ghost use Rattle.c_print.specs.StartsOn.{HasPlace, StartsOn};
ghost use Rattle.c_print.specs.Lines as spec;
ghost use Rattle.c_print.specs.Lines.{starts_from, placed, arm_placed, item_placed, heights, body_height, line_count, noted};

use c_tree::numbered::own_start;
use c_tree::{Arm, Boxed, FunctionId, Item, Program, Statement, StatementId, StructId};
use std::alloc::{AllocError, Global};

/// Writes down the line of a number, where it is one of those in a row from the first.
fn note(lines: &mut [u32], first: StatementId, id: StatementId, line: u32)
    ensures { lines.new ≡ noted first (start id line ∷ []) lines.old }
{
    if id < first {
        return;
    }
    let at = (id - first) as usize;
    if at < lines.len() {
        lines[at] = line;
    }
}

/// Writes down the line of a statement itself.
#[tactic(auto, using(crate::proofs::Rules::noted_of))]
fn own(lines: &mut [u32], first: StatementId, line: u32, statement: &Statement)
    ensures { lines.new ≡ noted first (declared_start (own_id statement.now) line) lines.old }
{
    if let Some(start) = own_start(statement) {
        note(lines, first, start.id, line);
    }
}

/// Writes down the line of a part of a `for`'s head.
#[tactic(auto, using(crate::proofs::Rules::noted_of))]
fn part(lines: &mut [u32], first: StatementId, line: u32, part: &Option<Boxed<Statement>>)
    ensures { lines.new ≡ noted first (spec.part_starts (option_map placed part.now) line) lines.old }
{
    if let Some(statement) = part {
        own(lines, first, line, statement.get());
    }
}

/// Writes down the lines of statements that begin on this line, and gives the next line.
#[cycle(lines)]
fn statements(lines: &mut [u32], first: StatementId, line: u32, all: &[Statement]) -> u32
    requires fits { line + body_height all.now < 2 ^ 32 }
    ensures lines { lines.new ≡ noted first (spec.body_starts all.now line) lines.old }
    ensures next { result ≡ line + body_height all.now }
{
    let mut next = line;
    for child in all {
        next = statement(lines, first, next, child);
    }
    next
}

/// Writes down the lines of an else that begins on this line, and gives the next line.
#[cycle(lines)]
fn else_part(lines: &mut [u32], first: StatementId, line: u32, all: &[Statement]) -> u32
    requires fits { line + spec.else_height (map placed all.now) < 2 ^ 32 }
    ensures lines { lines.new ≡ noted first (spec.body_starts all.now (line + 1)) lines.old }
    ensures next { result ≡ line + spec.else_height (map placed all.now) }
{
    if all.is_empty() {
        return line;
    }
    statements(lines, first, line + 1, all)
}

/// Writes down the lines of an arm of a switch that begins on this line, and gives the next line.
#[cycle(lines)]
fn arm(lines: &mut [u32], first: StatementId, line: u32, arm: &Arm) -> u32
    requires fits { line + (arm_placed arm.now).height < 2 ^ 32 }
    ensures lines { lines.new ≡ noted first (starts_from (arm_placed arm.now) line) lines.old }
    ensures next { result ≡ line + (arm_placed arm.now).height }
{
    let behind = line + arm.labels.as_slice().len() as u32;
    statements(lines, first, behind, arm.body.as_slice()) + 1
}

/// Writes down the lines of the arms of a switch, and gives the next line.
#[cycle(lines)]
fn arms(lines: &mut [u32], first: StatementId, line: u32, all: &[Arm]) -> u32
    requires fits { line + heights (map arm_placed all.now) < 2 ^ 32 }
    ensures lines { lines.new ≡ noted first (spec.block_starts (map arm_placed all.now) line) lines.old }
    ensures next { result ≡ line + heights (map arm_placed all.now) }
{
    let mut next = line;
    for child in all {
        next = arm(lines, first, next, child);
    }
    next
}

/// Writes down the lines of what stands inside a statement that begins on this line, and gives
/// the next line.
#[cycle(lines)]
#[tactic(auto, using(crate::proofs::Rules::placed_of))]
fn inside(lines: &mut [u32], first: StatementId, line: u32, statement: &Statement) -> u32
    requires fits { line + (placed statement.now).height < 2 ^ 32 }
    ensures lines { lines.new ≡ noted first ((placed statement.now).inside line) lines.old }
    ensures next { result ≡ line + (placed statement.now).height }
{
    match statement {
        Statement::If { then, other, .. } => {
            let next = statements(lines, first, line + 1, then.as_slice());
            else_part(lines, first, next, other.as_slice()) + 1
        }
        Statement::While { body, .. }
        | Statement::Do { body, .. }
        | Statement::Block { body, .. } => {
            statements(lines, first, line + 1, body.as_slice()) + 1
        }
        Statement::For {
            init,
            step,
            body,
            ..
        } => {
            part(lines, first, line, init);
            part(lines, first, line, step);
            statements(lines, first, line + 1, body.as_slice()) + 1
        }
        Statement::Switch { arms: all, .. } => arms(lines, first, line + 1, all.as_slice()) + 1,
        Statement::Declare { .. }
        | Statement::Assign { .. }
        | Statement::Bump { .. }
        | Statement::Invoke { .. }
        | Statement::Fetch { .. }
        | Statement::Write { .. }
        | Statement::Print { .. }
        | Statement::Heap { .. }
        | Statement::Release { .. }
        | Statement::Return { .. } => line + 1,
    }
}

/// Writes down the lines of a statement that begins on this line, and gives the next line.
#[cycle(lines)]
fn statement(lines: &mut [u32], first: StatementId, line: u32, statement: &Statement) -> u32
    requires fits { line + (placed statement.now).height < 2 ^ 32 }
    ensures lines { lines.new ≡ noted first (starts_from (placed statement.now) line) lines.old }
    ensures next { result ≡ line + (placed statement.now).height }
{
    own(lines, first, line, statement);
    inside(lines, first, line, statement)
}

/// Writes down the lines of a function's statements, and gives the next line.
#[tactic(auto, using(crate::proofs::Rules::noted_of))]
fn define(
    lines: &mut [u32],
    first: StatementId,
    line: u32,
    program: &Program,
    id: FunctionId,
) -> u32
    requires fits { line + (item_placed program.now (Item.Define id)).height < 2 ^ 32 }
    ensures lines { lines.new ≡ noted first (starts_from (item_placed program.now (Item.Define id)) line) lines.old }
    ensures next { result ≡ line + (item_placed program.now (Item.Define id)).height }
{
    let Some(found) = program.functions.get(id as usize) else {
        return line;
    };
    statements(lines, first, line + 1, found.body.as_slice()) + 1
}

/// The line behind a struct type with its members.
fn struct_end(line: u32, program: &Program, id: StructId) -> u32
    requires fits { line + (item_placed program.now (Item.Struct id)).height < 2 ^ 32 }
    ensures { result ≡ line + (item_placed program.now (Item.Struct id)).height }
{
    match program.structs.get(id as usize) {
        Some(found) => line + found.members.as_slice().len() as u32 + 2,
        None => line,
    }
}

/// Writes down the lines of an item that begins on this line, and gives the next line.
#[tactic(auto, using(crate::proofs::Rules::noted_of))]
fn item(lines: &mut [u32], first: StatementId, line: u32, program: &Program, item: &Item) -> u32
    requires fits { line + (item_placed program.now item.now).height < 2 ^ 32 }
    ensures lines { lines.new ≡ noted first (starts_from (item_placed program.now item.now) line) lines.old }
    ensures next { result ≡ line + (item_placed program.now item.now).height }
{
    match item {
        Item::Include { .. } | Item::Tag(_) | Item::Global(_, _) => line + 1,
        Item::Struct(id) => struct_end(line, program, *id),
        Item::Prototype { function, .. } => match program.functions.get(*function as usize) {
            Some(_) => line + 1,
            None => line,
        },
        Item::Define(id) => define(lines, first, line, program, *id),
    }
}

/// Writes down the lines of all statements whose numbers are those in a row from the first.
fn write_lines(lines: &mut [u32], first: StatementId, program: &Program)
    requires fits { line_count program.now + 1 < 2 ^ 32 }
    ensures { lines.new ≡ noted first (spec.layout_starts program.now) lines.old }
{
    let mut next = 1;
    for child in program.items.as_slice() {
        next = item(lines, first, next, program, child);
    }
}

/// A law: a layout of at most 2 to the 32 bytes has few enough lines for [`line_of`].
pub fn layouts_have_few_lines()
    ensures { HaveFewLines }
{}

/// The line, counted from 1, on which the first token of the statement with this number stands in
/// the layout; it is 0 where the layout has no such statement.
pub fn line_of(program: &Program, id: StatementId) -> u32
    requires fits { line_count program.now + 1 < 2 ^ 32 }
    ensures line { result ≡ spec.line_of program.now id }
    ensures starts { IsFeedless program.now → HasPlace program.now id → StartsOn program.now id result }
    ensures none { IsFeedless program.now → (HasPlace program.now id → ⊥) → result ≡ 0 }
{
    let mut lines = [0; 1];
    write_lines(&mut lines, id, program);
    lines[0]
}

/// The lines of all statements, by their numbers.
fn written(alloc: Global, program: &Program) -> Result<Vec<u32>, AllocError>
    requires fits { line_count program.now + 1 < 2 ^ 32 }
    ensures { IfOk result (λ lines. lines.items ≡ noted 0 (spec.layout_starts program.now) (replicate program.now.statements 0)) }
{
    let mut lines = vec![in alloc; 0u32; program.statements as usize]?;
    write_lines(lines.as_mut_slice(), 0, program);
    Ok(lines)
}

/// The lines of all statements, by their numbers, each as [`line_of`] gives it.
///
/// Err: no memory was left.
pub fn lines_of(alloc: Global, program: &Program) -> Result<Vec<u32>, AllocError>
    requires fits { line_count program.now + 1 < 2 ^ 32 }
    ensures count { IfOk result (λ lines. length lines.items ≡ program.now.statements) }
    ensures lines { IfOk result (λ lines. (id : ℕ) → id < program.now.statements → slice_get lines.items id ≡ Some (spec.line_of program.now id)) }
    ensures starts { IfOk result (λ lines. IsFeedless program.now → (id : ℕ) → id < program.now.statements → HasPlace program.now id → (n : ℕ) × (slice_get lines.items id ≡ Some n) × StartsOn program.now id n) }
{
    let lines = written(alloc, program)?;
    Ok(lines)
}
