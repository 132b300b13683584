//! Runs the slicer and slice_lines over cases that stand in files, and says of each whether it ended as expected.
//!
//! The index is standard input, with a line for each case: its name, the status that it must end with, and the words of
//! the call, one blank between each two; where the status isn't 0, ` => ` and the line that must stand on err follow. The
//! first word names the program slice_lines, or else a command of the slicer. The files are those of the folder in which
//! this program is started. What must stand on out is in the file `NAME.out`; where it isn't there, nothing must.
#![tactic(auto)]

mod case;
mod ended;
mod folder;

use anyhow::{Context, ensure};
use case::Case;
use std::fs::Files;
use std::io::Eprint;
use std::thread::Threads;

/// Whether the case ended as expected. If not, both ends are shown on standard error.
fn is_as_expected<R: Files + Print + Eprint + AllocGlobal + Threads + Sync>(
    rt: &R,
    case: &Case,
) -> anyhow::Result<bool> {
    let name = case.name();
    let expected = folder::expected(rt, case)?;
    let found = ended::run(rt, case, folder::files_named(rt, case)?)?;
    let is_right = found == expected;
    if is_right {
        println!(rt; "{name} as expected")?;
    } else {
        println!(rt; "{name} otherwise")?;
        eprintln!(rt; "{name} must end with {}", expected.shown(rt.alloc())?)?;
        eprintln!(rt; "{name} ended with {}", found.shown(rt.alloc())?)?;
    }
    Ok(is_right)
}

fn main(rt: HostRuntime) -> anyhow::Result<()> {
    let mut others = 0u64;
    let mut number = 0u64;
    for line in rt.lines(rt.alloc()) {
        number = number.saturating_add(1);
        let case = Case::read(rt.alloc(), line?.as_str()).context(format_args!(
            "line {number} of the index"
        ))?;
        if !is_as_expected(&rt, &case)? {
            others = others.saturating_add(1);
        }
    }
    ensure!(others == 0, "{others} cases ended otherwise");
    Ok(())
}
