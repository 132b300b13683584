//! The kept lines of many criteria as a text.
ghost use Rattle.std.specs.Prelude.{◌≡◌, ◌++◌, IfOk, OnOk};
ghost use Rattle.std.specs.Fmt.{decimal};
ghost use Rattle.kept_lines.specs.Lines.{IsLinesText, lines_of, row};
ghost use Rattle.slice_engine.specs.Slice.{spaced};

use crate::lines::lines_at;
use run_text::starts_in;
use slice_engine::{Criterion, Engine, Text};
use std::alloc::{AllocError, Global};

/// For each criterion, in the order of the list, a row with its line, a colon, and each line that the slice there keeps behind a
/// space (`kept_lines`). What all of them need is prepared once.
///
/// Err: no memory was left.
pub fn lines_text(alloc: Global, e: &Engine, list: &[Criterion]) -> Result<Text, AllocError>
    ensures { IfOk result (λ text. IsLinesText e.now (lines_of list.now) text) }
{
    let mut slicing = e.slicing(alloc)?;
    let starts = starts_in(alloc, e.program())?;
    let mut text = Text::new(alloc);
    for criterion in list {
        let kept = lines_at(alloc, e, &mut slicing, starts.as_slice(), *criterion)?;
        append_row(alloc, criterion.line, kept.as_slice(), &mut text)?;
    }
    Ok(text)
}

fn append_row(alloc: Global, line: u32, kept: &[u32], text: &mut Text) -> Result<(), AllocError>
    ensures { OnOk result (text.new ≡ text.old ++ row line kept.now) }
{
    append_number(alloc, line, text)?;
    text.append(b":")?;
    append_lines(alloc, kept, text)?;
    text.append(b"\n")?;
    Ok(())
}

fn append_lines(alloc: Global, lines: &[u32], text: &mut Text) -> Result<(), AllocError>
    ensures { OnOk result (text.new ≡ text.old ++ spaced lines.now) }
{
    for line in lines {
        text.append(b" ")?;
        append_number(alloc, *line, text)?;
    }
    Ok(())
}

// Appends a number in decimal digits.
fn append_number(alloc: Global, number: u32, text: &mut Text) -> Result<(), AllocError>
    ensures { OnOk result (text.new ≡ text.old ++ decimal number) }
{
    let digits = number.to_string(alloc)?;
    text.append(digits.as_bytes())?;
    Ok(())
}
