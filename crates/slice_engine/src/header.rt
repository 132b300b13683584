//! The header of a slice.
ghost use Rattle.std.specs.Prelude.{◌≡◌, ◌<◌, ◌↔◌, ◌++◌, ℕ, suc, [], length, AllPairs, Contains, IfOk, OnOk};
ghost use Rattle.std.specs.Fmt.{decimal};
ghost use Rattle.slice_engine.specs.Slice as spec;
ghost use Rattle.slice_engine.specs.Criterion.{put_if};
ghost use Rattle.slice_engine.specs.Header.{shown_lines};

use c_tree::Text;
use std::alloc::{AllocError, Global};

/// The lines of the statements of the criterion, ascending and each once, behind a header of one line.
pub(crate) fn header_lines(
    alloc: Global,
    in_criterion: &[bool],
    lines: &[u32],
) -> Result<Vec<u64>, AllocError>
    requires { length in_criterion.now ≡ length lines.now }
    ensures ascending { IfOk result (λ found. AllPairs (λ a b. a < b) found.items) }
    ensures exact { IfOk result (λ found. (k : ℕ) → Contains found.items k ↔ Contains (shown_lines in_criterion.now lines.now) k) }
{
    let mut found = criterion_lines(alloc, in_criterion, lines)?;
    found.sort_unstable();
    found.dedup();
    Ok(found)
}

// The lines of the statements of the criterion, by their ranks.
fn criterion_lines(
    alloc: Global,
    in_criterion: &[bool],
    lines: &[u32],
) -> Result<Vec<u64>, AllocError>
    requires { length in_criterion.now ≡ length lines.now }
    ensures { IfOk result (λ found. found.items ≡ shown_lines in_criterion.now lines.now) }
{
    let mut found = Vec::new(alloc);
    for (i, is_shown) in in_criterion.iter().enumerate() {
        push_line(*is_shown, lines[i], &mut found)?;
    }
    Ok(found)
}

fn push_line(is_shown: bool, line: u32, found: &mut Vec<u64>) -> Result<(), AllocError>
    ensures { OnOk result (found.new.items ≡ found.old.items ++ put_if is_shown (suc line) []) }
{
    if is_shown {
        found.push(u64::from(line) + 1)?;
    }
    Ok(())
}

/// The header of a slice: a comment with the line that was asked for, and the lines of its
/// statements in the text of the slice.
pub(crate) fn header(alloc: Global, line: u32, lines: &[u64]) -> Result<Text, AllocError>
    ensures { IfOk result (λ text. text ≡ spec.header line lines.now) }
{
    let mut text = Text::from_slice(alloc, b"/* slice ")?;
    append_number(alloc, u64::from(line), &mut text)?;
    text.append(b":")?;
    append_lines(alloc, lines, &mut text)?;
    text.append(b" */\n")?;
    Ok(text)
}

fn append_lines(alloc: Global, lines: &[u64], text: &mut Text) -> Result<(), AllocError>
    ensures { OnOk result (text.new ≡ text.old ++ spec.spaced lines.now) }
{
    for line in lines {
        text.append(b" ")?;
        append_number(alloc, *line, text)?;
    }
    Ok(())
}

// Appends a number in decimal digits.
fn append_number(alloc: Global, number: u64, text: &mut Text) -> Result<(), AllocError>
    ensures { OnOk result (text.new ≡ text.old ++ decimal number) }
{
    let digits = number.to_string(alloc)?;
    text.append(digits.as_bytes())?;
    Ok(())
}
