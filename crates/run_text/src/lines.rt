//! The lines of events.
ghost use Rattle.std.specs.Prelude.{◌≡◌, ◌++◌, get_or, IfOk, OnOk};
ghost use Rattle.std.specs.Fmt.{decimal};
ghost use Rattle.run_text.specs.Lines as spec;

use c_meaning::{Event, Shown};
use c_tree::{StatementId, Text};
use std::alloc::{AllocError, Global};

/// The lines of events, each with the number of its statement.
pub(crate) fn event_lines(
    alloc: Global,
    numbers: &[u64],
    events: &[Event],
) -> Result<Text, AllocError>
    ensures { IfOk result (λ text. text ≡ spec.event_lines (λ i. get_or numbers.now i 0) events.now) }
{
    let mut text = Text::new(alloc);
    for event in events {
        append_line(
            alloc,
            number_of(numbers, event.statement),
            event.values.as_slice(),
            &mut text,
        )?;
    }
    Ok(text)
}

// The number of a statement; 0 where none is told.
fn number_of(numbers: &[u64], statement: StatementId) -> u64
    ensures { result ≡ get_or numbers.now statement 0 }
{
    match numbers.get(statement as usize) {
        Some(number) => *number,
        None => 0,
    }
}

fn append_line(
    alloc: Global,
    number: u64,
    values: &[Shown],
    text: &mut Text,
) -> Result<(), AllocError>
    ensures { OnOk result (text.new ≡ text.old ++ spec.event_line number values.now) }
{
    append_number(alloc, number, text)?;
    text.append(b":")?;
    append_values(alloc, values, text)?;
    text.append(b"\n")
}

// Appends the values, each after one space.
fn append_values(alloc: Global, values: &[Shown], text: &mut Text) -> Result<(), AllocError>
    ensures { OnOk result (text.new ≡ text.old ++ spec.values_words values.now) }
{
    for value in values {
        text.append(b" ")?;
        append_shown(alloc, *value, text)?;
    }
    Ok(())
}

fn append_shown(alloc: Global, value: Shown, text: &mut Text) -> Result<(), AllocError>
    ensures { OnOk result (text.new ≡ text.old ++ spec.shown_words value) }
{
    match value {
        Shown::Number(number) => {
            let digits = number.to_string(alloc)?;
            text.append(digits.as_bytes())
        }
        Shown::Null => text.append(b"null"),
        Shown::Index(index) => append_number(alloc, u64::from(index), text),
    }
}

// Appends a number in decimal digits.
fn append_number(alloc: Global, number: u64, text: &mut Text) -> Result<(), AllocError>
    ensures { OnOk result (text.new ≡ text.old ++ decimal number) }
{
    let digits = number.to_string(alloc)?;
    text.append(digits.as_bytes())
}
