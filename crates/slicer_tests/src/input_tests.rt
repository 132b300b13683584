//! Calls with a file for the input of a run, over files and sinks in memory.
use crate::programs::TWO;
use crate::running::{Ended, Failing, NONE_FAILING, file, is_end, run, split_words};
use slicer_top::{Status, Text};
use std::alloc::AllocError;
use std::test::Fail;
use std::thread::Threads;

const MAX_FILE_BYTES: usize = 1_048_576;

// The words of this line over `two.c` and so many bytes in the file `in`.
fn run_with_input<R: AllocGlobal + Threads + Sync>(
    rt: &R,
    line: &str,
    length: usize,
    failing: &Failing<'_>,
) -> Result<Ended, AllocError> {
    let alloc = rt.alloc();
    let input = vec![in alloc; b'x'; length]?;
    let mut files = file(alloc, "two.c", TWO)?;
    files.push((
        Text::from_slice(alloc, b"in")?,
        Text::from_slice(alloc, input.as_slice())?,
    ))?;
    let words = split_words(alloc, line)?;
    run(rt, &words, files, failing)
}

#[test]
fn a_long_input_is_told(rt: HostRuntime) -> Result<(), Fail> {
    // The words, the length of the input, the status, and what out and err have gained.
    let rows = [
        (
            "run two.c --input in",
            MAX_FILE_BYTES + 1,
            Status::TooLong,
            "",
            "in is longer than 1048576 bytes\n",
        ),
        (
            "run no.c --input in",
            MAX_FILE_BYTES + 1,
            Status::ReadFault,
            "",
            "cannot read no.c\n",
        ),
        (
            "run two.c --input in",
            MAX_FILE_BYTES,
            Status::Done,
            "4\n6\n",
            "",
        ),
    ];
    for (line, length, status, out, err) in rows {
        let ended = run_with_input(&rt, line, length, &NONE_FAILING)?;
        is_end(&rt, &ended, (status, out, err), line)?;
    }
    Ok(())
}

#[test]
fn the_put_of_a_run_that_fails_is_told(rt: HostRuntime) -> Result<(), Fail> {
    // The words, how many bytes the put takes, and what out has gained.
    let rows = [
        ("run two.c --input in", [(0, 1)], "4"),
        ("trace two.c 7 8 --input in", [(0, 7)], "1: 4\n2:"),
    ];
    for (line, fails, out) in rows {
        let failing = Failing {
            out: &fails,
            ..NONE_FAILING
        };
        let ended = run_with_input(&rt, line, 0, &failing)?;
        is_end(
            &rt,
            &ended,
            (Status::WriteFault, out, "cannot write\n"),
            line,
        )?;
    }
    Ok(())
}
