//! Runs of programs as text: what a program writes, and the values at the statements of some lines.
#![tactic(auto)]

ghost use Rattle.std.specs.Prelude.{◌≡◌, IfOk, IfErr, OnOk};
ghost use Rattle.c_machine.specs.Progress.{meant_with, after_acts};
ghost use Rattle.c_meaning.specs.Meaning.{Trace, meaning};
ghost use Rattle.run_text.specs.Answers.{HasEnded, EndsWith, IsCause};
ghost use Rattle.run_text.specs.Lines.{trace_words};

mod fault;
mod lines;
mod numbers;
mod starts;

use c_machine::{Halt, Machine};
pub use c_tree::numbered::Start;
pub use c_tree::{Program, StatementId, Text};
pub use fault::RunFault;
pub use starts::{start_line, start_on, starts_in};
use std::alloc::Global;

/// What a program writes on an input: `Ok` where its run ends within so many acts.
///
/// `Undefined` comes exactly where one of these acts is undefined, and `Steps` exactly where the run needs a further act,
/// but for want of memory: a run that needs more memory than there is answers `NoMemory`.
pub fn run_output(alloc: Global, p: &Program, input: &[u8], steps: u64) -> Result<Text, RunFault>
    ensures ended { IfOk result (EndsWith (λ (t : Trace). t.output) (meaning steps p.now input.now)) }
    ensures fault { IfErr result (IsCause (meaning steps p.now input.now)) }
{
    let mut machine = Machine::watching(alloc, p, input, &[])?;
    finish(&mut machine, steps)?;
    Ok(Text::from_slice(alloc, machine.output())?)
}

/// The values at the statements of a program that start on some lines of its text, in a run on an input: a line for each
/// event, `k: v..`. Here k is the statement's number among these statements, counted from 1 in text order; a number is
/// decimal, a null pointer `null` and another pointer its index.
///
/// Ok and the faults come as for [`run_output`]. Of other statements no event is kept.
pub fn trace_text(
    alloc: Global,
    p: &Program,
    lines: &[u32],
    input: &[u8],
    steps: u64,
) -> Result<Text, RunFault>
    ensures ended { IfOk result (EndsWith (trace_words p.now lines.now) (meaning steps p.now input.now)) }
    ensures fault { IfErr result (IsCause (meaning steps p.now input.now)) }
{
    let watched = numbers::starting_on(alloc, p, lines)?;
    let mut machine = Machine::watching(alloc, p, input, watched.as_slice())?;
    finish(&mut machine, steps)?;
    let numbers = numbers::numbers_of(alloc, watched.as_slice())?;
    Ok(lines::event_lines(alloc, numbers.as_slice(), machine.events())?)
}

// Does at most so many acts of a run. Ok: it has ended.
fn finish(machine: &mut Machine<'_>, steps: u64) -> Result<(), RunFault>
    ensures ended { OnOk result (HasEnded (meant_with machine.old steps)) }
    ensures done { OnOk result (machine.new ≡ after_acts machine.old steps) }
    ensures fault { IfErr result (IsCause (meant_with machine.old steps)) }
{
    match machine.run(steps)? {
        Halt::Ended => Ok(()),
        Halt::Undefined(statement) => Err(RunFault::Undefined(statement)),
        Halt::Steps => Err(RunFault::Steps),
    }
}
