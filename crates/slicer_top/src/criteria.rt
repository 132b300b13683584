//! The lines that are asked for, on each of which a statement has to start.
ghost use Rattle.std.specs.Prelude.{◌≡◌, MatchResult};
ghost use Rattle.run_text.specs.Lines.{StartsOn};
ghost use Rattle.slice_engine.specs.Slice.{HasStart};
ghost use Rattle.slicer_top.specs.Criteria.{AreCriteria, AreFound, IsCriteriaFault};

use crate::refusal::Refusal;
use c_tree::Program;
use run_text::{Start, start_on, starts_in};
use slice_engine::{Criterion, Engine};
use std::alloc::Global;

// How many lines may be asked for at most.
const MAX_CRITERIA: usize = 64;

/// The criteria of these lines, at most 64, or the first line on which no statement starts.
pub(crate) fn criteria_at(
    alloc: Global,
    engine: &Engine,
    lines: &[u64],
) -> Result<Vec<Criterion>, Refusal>
    ensures { MatchResult result (λ found. AreCriteria engine.now lines.now found.items) (IsCriteriaFault engine.now lines.now) }
{
    if lines.len() > MAX_CRITERIA {
        return Err(Refusal::TooMany);
    }
    let mut found = Vec::new(alloc);
    for line in lines {
        let criterion = criterion_at(engine, *line)?;
        if found.push(criterion).is_err() {
            return Err(Refusal::NoMemory);
        }
    }
    Ok(found)
}

/// The criterion of a line. Err: no statement starts there.
pub fn criterion_at(engine: &Engine, line: u64) -> Result<Criterion, Refusal>
    ensures { MatchResult result (λ c. (c.line ≡ line) × HasStart engine.now line)
        (λ refusal. (refusal ≡ Refusal.NoStart line) × (HasStart engine.now line → ⊥)) }
{
    if line > u64::from(engine.last_line()) {
        return Err(Refusal::NoStart(line));
    }
    let Ok(number) = u32::try_from(line) else {
        return Err(Refusal::NoStart(line));
    };
    match engine.criterion(number) {
        Some(criterion) => Ok(criterion),
        None => Err(Refusal::NoStart(line)),
    }
}

/// These lines, at most 64, or the first of them on which no statement of a program starts.
pub(crate) fn lines_with_starts(
    alloc: Global,
    program: &Program,
    lines: &[u64],
) -> Result<Vec<u32>, Refusal>
    ensures { MatchResult result (λ found. AreFound program.now lines.now found.items) (IsCriteriaFault program.now lines.now) }
{
    if lines.len() > MAX_CRITERIA {
        return Err(Refusal::TooMany);
    }
    let starts = starts_in(alloc, program)?;
    let mut found = Vec::new(alloc);
    for line in lines {
        let number = line_with_start(starts.as_slice(), *line)?;
        if found.push(number).is_err() {
            return Err(Refusal::NoMemory);
        }
    }
    Ok(found)
}

// The line with this number. Err: no statement starts on it.
fn line_with_start(starts: &[Start], line: u64) -> Result<u32, Refusal>
    ensures { MatchResult result (λ found. (found ≡ line) × StartsOn line starts.now)
        (λ refusal. (refusal ≡ Refusal.NoStart line) × (StartsOn line starts.now → ⊥)) }
{
    start_on(starts, line).ok_or(Refusal::NoStart(line))
}
