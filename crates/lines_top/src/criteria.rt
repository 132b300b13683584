//! The lines that are asked for, on each of which a statement has to start.
ghost use Rattle.std.specs.Prelude.{◌≡◌, MatchResult};
ghost use Rattle.kept_lines.specs.Lines.{lines_of};
ghost use Rattle.lines_top.specs.Texts.{CanBeAsked, IsLinesFault};

use slice_engine::{Criterion, Engine};
use slicer_top::{Refusal, criterion_at};
use std::alloc::Global;

// How many lines may be asked for at most: as many as a page of slices needs.
const MAX_LINES: usize = 4_096;

/// The criteria of these lines, at most 4,096, or the first line on which no statement starts.
pub(crate) fn criteria_of(
    alloc: Global,
    engine: &Engine,
    lines: &[u64],
) -> Result<Vec<Criterion>, Refusal>
    ensures { MatchResult result (λ found. CanBeAsked engine.now lines.now × (lines_of found.items ≡ lines.now)) (IsLinesFault engine.now lines.now) }
{
    if lines.len() > MAX_LINES {
        return Err(Refusal::TooMany);
    }
    let mut found = Vec::new(alloc);
    for line in lines {
        let criterion = criterion_at(engine, *line)?;
        if found.push(criterion).is_err() {
            return Err(Refusal::NoMemory);
        }
    }
    Ok(found)
}
