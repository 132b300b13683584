//! The lines that the slice at one criterion keeps.
ghost use Rattle.std.specs.Prelude.{◌≡◌, ◌<◌, ◌++◌, ◌↔◌, ℕ, [], AllPairs, Contains, IfOk, OnOk};
ghost use Rattle.bit_rows.specs.Sets.{has};
ghost use Rattle.c_tree.specs.Numbered.{program_starts};
ghost use Rattle.kept_lines.specs.Found.{lines_where};
ghost use Rattle.kept_lines.specs.Lines.{AreKeptLines};
ghost use Rattle.slice_engine.specs.Criterion.{put_if};
ghost use Rattle.slice_engine.specs.Engine.{HasPlaces, IsKept};

use crate::statements::{is_marked, kept_statements};
use dep_model::VertexSet;
use run_text::{Start, starts_in};
use slice_engine::{Criterion, Engine, Slicing};
use std::alloc::{AllocError, Global};

/// The lines of the program's text that the slice at a criterion keeps, ascending and each once: those on which a statement
/// starts that is in the completion of what reaches the criterion (Binkley 1993). A line on which an expression or a
/// declaration without initialiser stands alone isn't one of them.
///
/// Err: no memory was left.
pub fn kept_lines(alloc: Global, e: &Engine, c: Criterion) -> Result<Vec<u32>, AllocError>
    ensures { IfOk result (λ lines. AreKeptLines e.now c.line lines.items) }
{
    let mut slicing = e.slicing(alloc)?;
    let starts = starts_in(alloc, e.program())?;
    let lines = lines_at(alloc, e, &mut slicing, starts.as_slice(), c)?;
    Ok(lines)
}

/// The same, by what makes slices of the engine's program, and by the starts of its statements.
pub(crate) fn lines_at(
    alloc: Global,
    e: &Engine,
    slicing: &mut Slicing<'_>,
    starts: &[Start],
    c: Criterion,
) -> Result<Vec<u32>, AllocError>
    requires same { slicing.old ≡ e.now }
    requires starts { starts.now ≡ program_starts e.now }
    ensures lines { IfOk result (λ lines. AreKeptLines e.now c.line lines.items) }
    ensures same { slicing.new ≡ e.now }
{
    let kept = kept_at(alloc, e, slicing, c)?;
    let tests = kept_statements(alloc, e.graph().vertices.as_slice(), &kept)?;
    let lines = ascending(alloc, starts, tests.as_slice())?;
    Ok(lines)
}

// What the slice at a criterion keeps.
fn kept_at(
    alloc: Global,
    e: &Engine,
    slicing: &mut Slicing<'_>,
    c: Criterion,
) -> Result<VertexSet, AllocError>
    requires { slicing.old ≡ e.now }
    ensures kept { IfOk result (IsKept e.now c.line) }
    ensures size { IfOk result (HasPlaces e.now) }
    ensures same { slicing.new ≡ e.now }
{
    let set = slicing.kept(alloc, c)?;
    Ok(set)
}

// The lines on which the marked statements start, ascending and each once.
fn ascending(alloc: Global, starts: &[Start], tests: &[bool]) -> Result<Vec<u32>, AllocError>
    ensures ascending { IfOk result (λ found. AllPairs (λ a b. a < b) found.items) }
    ensures exact { IfOk result (λ found. (k : ℕ) → Contains found.items k ↔ Contains (lines_where (has tests.now) starts.now) k) }
{
    let mut found = all_lines(alloc, starts, tests)?;
    found.sort_unstable();
    found.dedup();
    Ok(found)
}

// The lines on which the marked statements start, in the order of the statements.
fn all_lines(alloc: Global, starts: &[Start], tests: &[bool]) -> Result<Vec<u32>, AllocError>
    ensures { IfOk result (λ found. found.items ≡ lines_where (has tests.now) starts.now) }
{
    let mut found = Vec::new(alloc);
    for start in starts {
        push_line(is_marked(tests, start.id), start.line, &mut found)?;
    }
    Ok(found)
}

fn push_line(is_kept: bool, line: u32, found: &mut Vec<u32>) -> Result<(), AllocError>
    ensures { OnOk result (found.new.items ≡ found.old.items ++ put_if is_kept line []) }
{
    if is_kept {
        found.push(line)?;
    }
    Ok(())
}
