//! The programs of texts, their numbered statements, and rows that say where locations may point.
ghost use Rattle.std.specs.Prelude.{◌<◌, length};
ghost use Rattle.bit_rows.specs.Tables.{IsSized};
ghost use Rattle.c_language.specs.Programs.{IsWellFormed};

use bit_rows::Rows;
use c_reader::read_program;
use c_tree::numbered::own_start;
use c_tree::{Arm, Boxed, FunctionId, Program, Statement};
use dep_model::PointsTo;
use std::alloc::{AllocError, Global};
use std::process::Abort;

pub(crate) const SHORT: usize = 65536;

/// A location and one to which it may point: of each the bit of its place.
pub(crate) type Pointing = (u64, u64);

/// A statement that has a number, with its function and the line at which it begins.
#[derive(Clone, Copy)]
pub(crate) struct Placed<'a> {
    pub(crate) function: FunctionId,
    pub(crate) line: u32,
    pub(crate) statement: &'a Statement,
}

/// The program of the text.
pub(crate) fn read<R: Abort + AllocGlobal>(rt: &R, text: &str) -> Program
    ensures { IsWellFormed result }
{
    let bytes = text.as_bytes();
    assert!(rt; bytes.len() < SHORT);
    read_program(rt.alloc(), bytes).expect(rt, "a program")
}

/// Of so many locations each may point where the pairs say, and nowhere else.
pub(crate) fn points_to<R: Abort + AllocGlobal>(rt: &R, count: u32, pairs: &[Pointing]) -> PointsTo
    ensures { IsSized count count result.rows }
{
    let mut rows = Rows::new(rt.alloc(), count, count).expect(rt, "memory");
    for (from, to) in pairs {
        let (row, place) = (from.trailing_zeros(), to.trailing_zeros());
        assert!(rt; row < count);
        assert!(rt; place < count);
        rows.set(row, place);
    }
    PointsTo { rows }
}

/// Row `row` is this word.
pub(crate) fn is_word<R: Abort>(rt: &R, rows: &Rows, row: u32, wanted: u64, line: u32)
    requires { row < length rows.now.sets }
{
    assert_eq!(rt;
        rows.words(row),
        [wanted].as_slice(),
        "row {row} of line {line}"
    );
}

/// The numbered statements of a program, function by function: a test stands before what it decides, and behind
/// the test of a for what it begins with and its step.
pub(crate) fn statements_of<'a>(
    alloc: Global,
    p: &'a Program,
) -> Result<Vec<Placed<'a>>, AllocError> {
    let mut list = Vec::new(alloc);
    let mut number = 0u32;
    for function in p.functions.as_slice() {
        add_statements(&mut list, number, function.body.as_slice())?;
        number = number.wrapping_add(1);
    }
    Ok(list)
}

#[cycle(statement)]
fn add_statements<'a>(
    list: &mut Vec<Placed<'a>>,
    function: FunctionId,
    body: &'a [Statement],
) -> Result<(), AllocError> {
    for statement in body {
        add_statement(list, function, statement)?;
    }
    Ok(())
}

#[cycle(statement)]
fn add_part<'a>(
    list: &mut Vec<Placed<'a>>,
    function: FunctionId,
    part: &'a Option<Boxed<Statement>>,
) -> Result<(), AllocError> {
    match part {
        None => Ok(()),
        Some(statement) => {
            add_statement(list, function, statement.get())?;
            Ok(())
        }
    }
}

#[cycle(statement)]
fn add_arms<'a>(
    list: &mut Vec<Placed<'a>>,
    function: FunctionId,
    arms: &'a [Arm],
) -> Result<(), AllocError> {
    for arm in arms {
        add_statements(list, function, arm.body.as_slice())?;
    }
    Ok(())
}

// Adds a statement, where it has a number, and those inside it.
#[cycle(statement)]
fn add_statement<'a>(
    list: &mut Vec<Placed<'a>>,
    function: FunctionId,
    statement: &'a Statement,
) -> Result<(), AllocError> {
    if let Some(start) = own_start(statement) {
        let line = start.line;
        list.push(Placed {
            function,
            line,
            statement,
        })?;
    }
    match statement {
        Statement::Block { body, .. }
        | Statement::While { body, .. }
        | Statement::Do { body, .. } => {
            add_statements(list, function, body.as_slice())?;
            Ok(())
        }
        Statement::If { then, other, .. } => {
            add_statements(list, function, then.as_slice())?;
            add_statements(list, function, other.as_slice())?;
            Ok(())
        }
        Statement::For {
            init,
            step,
            body,
            ..
        } => {
            add_part(list, function, init)?;
            add_part(list, function, step)?;
            add_statements(list, function, body.as_slice())?;
            Ok(())
        }
        Statement::Switch { arms, .. } => {
            add_arms(list, function, arms.as_slice())?;
            Ok(())
        }
        _ => Ok(()),
    }
}
