//! The statements that start on some lines, and the number that each of them has.
ghost use Rattle.std.specs.Prelude.{◌≡◌, ℕ, ◌<◌, ◌==◌, ◌&&◌, ◌||◌, get_or, length, IfOk, OnOk};
ghost use Rattle.bit_rows.specs.Sets.{has};
ghost use Rattle.run_text.specs.Lines.{starts_among, on_lines, number_among};

use crate::starts::starts_in;
use c_tree::numbered::Start;
use c_tree::{Program, StatementId};
use named_variables::mark;
use std::alloc::{AllocError, Global};

/// For each statement of a program, by its number, whether it starts on one of the lines. None does past the end.
pub(crate) fn starting_on(
    alloc: Global,
    p: &Program,
    lines: &[u32],
) -> Result<Vec<bool>, AllocError>
    ensures { IfOk result (λ tests. (i : ℕ) → has tests.items i ≡ on_lines p.now lines.now i) }
{
    let starts = starts_in(alloc, p)?;
    let mut tests = Vec::new(alloc);
    for line in lines {
        mark_line(starts.as_slice(), *line, &mut tests)?;
    }
    Ok(tests)
}

// Marks the statements that start on a line.
fn mark_line(starts: &[Start], line: u32, tests: &mut Vec<bool>) -> Result<(), AllocError>
    ensures { OnOk result ((i : ℕ) → has tests.new.items i ≡ (has tests.old.items i || starts_among line starts.now i)) }
{
    for start in starts {
        mark_if(start.line == line, start.id, tests)?;
    }
    Ok(())
}

// Marks a statement, where a test passes.
fn mark_if(passes: bool, id: StatementId, tests: &mut Vec<bool>) -> Result<(), AllocError>
    ensures { OnOk result ((i : ℕ) → has tests.new.items i ≡ (has tests.old.items i || ((id == i) && passes))) }
{
    if passes {
        mark(tests, id)?;
    }
    Ok(())
}

/// For each of the tests, by its place, how many of those before it pass, and one more: the number of a statement
/// whose test passes.
pub(crate) fn numbers_of(alloc: Global, tests: &[bool]) -> Result<Vec<u64>, AllocError>
    ensures { IfOk result (λ numbers. (i : ℕ) → i < length tests.now → get_or numbers.items i 0 ≡ number_among (has tests.now) i) }
{
    let mut numbers = Vec::new(alloc);
    let mut before = 0;
    for test in tests {
        numbers.push(before + 1)?;
        if *test {
            before += 1;
        }
    }
    Ok(numbers)
}
