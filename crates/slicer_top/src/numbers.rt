//! The numbers of a program, of its dependence graph, and of its slice at the last line.
ghost use Rattle.std.specs.Prelude.{◌≡◌, ◌≤◌, ℕ, IfOk, length};
ghost use Rattle.slice_engine.specs.Slice.{HasStart};
ghost use Rattle.slicer_top.specs.SliceNumbers as spec;
ghost use Rattle.slicer_top.specs.SliceNumbers.{HasSomeStart, IsLastLine, IsNumbersText};
ghost use Rattle.slicer_top.specs.Slices.{IsOneText};

use crate::running::alone;
use dep_model::VertexSet;
use edge_io::Text;
use slice_engine::{Criterion, Engine};
use std::alloc::{AllocError, Global};

/// The line with the numbers of a program, of its graph, and of its slice at the last line on which a statement starts.
/// Err: no memory was left.
pub(crate) fn numbers_text(alloc: Global, engine: &Engine) -> Result<Vec<Text>, AllocError>
    requires { HasSomeStart engine.now }
    ensures { IfOk result (λ texts. IsOneText (IsNumbersText engine.now) texts.items) }
{
    let criterion = last_criterion(engine);
    let mut slicing = engine.slicing(alloc)?;
    let kept = slicing.kept(alloc, criterion)?;
    let slice = slicing.slice_text(alloc, criterion)?;
    let program = engine.program();
    let line = numbers_line(
        alloc,
        program.functions.len(),
        program.statements,
        engine.graph().vertices.len(),
        size_of(&kept),
        slice.bytes().len(),
    )?;
    alone(alloc, line)
}

// The criterion of the last line on which a statement starts.
fn last_criterion(engine: &Engine) -> Criterion
    requires { HasSomeStart engine.now }
    ensures { IsLastLine engine.now result.line }
{
    Criterion {
        line: engine.last_line(),
    }
}

// How many vertices a set has.
fn size_of(set: &VertexSet) -> u32
    ensures { result ≡ spec.size_of set.now }
{
    let mut size = 0;
    for v in 0..set.len() {
        if set.has(v) {
            size += 1;
        }
    }
    size
}

// The line with these numbers.
fn numbers_line(
    alloc: Global,
    functions: usize,
    statements: u32,
    vertices: usize,
    kept: u32,
    bytes: usize,
) -> Result<Text, AllocError>
    ensures { IfOk result (λ line. line ≡ spec.numbers_line functions statements vertices kept bytes) }
{
    let line = format!(in alloc;
        "functions {functions} statements {statements} vertices {vertices} kept {kept} bytes {bytes}\n"
    )?;
    Text::from_slice(alloc, line.as_bytes())
}
