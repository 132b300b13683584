//! Calls of the program: their arguments, and the code that they end with.
use crate::programs::TWO;
use crate::running::{USAGE, file};
use edge_io::{MemoryShelf, MemorySink};
use slicer_top::{Exit, OpenGate, run_call};
use std::alloc::Global;
use std::env::Args;
use std::io;
use std::io::ErrorKind;
use std::process::{Abort, ExitCode, Termination};
use std::test::Fail;
use std::thread::Threads;

// The arguments of a line, one blank between each two; the first is the program's name.
fn arguments_of(alloc: Global, line: &str) -> io::Result<Args> {
    let mut arguments = Vec::new(alloc);
    for argument in line.split(' ') {
        arguments.push(String::from_str(alloc, argument)?)?;
    }
    Ok(arguments.into_iter())
}

// A call with these arguments, over one file, ends with this code, and err has gained this.
fn ends_with<R: Abort + AllocGlobal + io::Eprint + Threads + Sync>(
    rt: &R,
    arguments: io::Result<Args>,
    code: u8,
    told: &str,
) -> Result<(), Fail> {
    let alloc = rt.alloc();
    let mut shelf = MemoryShelf::new(file(alloc, "two.c", TWO)?, Vec::new(alloc));
    let mut out = MemorySink::new(alloc, 4096, Vec::new(alloc))?;
    let mut err = MemorySink::new(alloc, 4096, Vec::new(alloc))?;
    let exit: Exit = run_call(
        rt, alloc, arguments, &mut shelf, &mut out, &mut err, &OpenGate,
    );
    let written = String::from_utf8_lossy(alloc, err.bytes())?;
    assert_eq!(rt; written.as_str(), told);
    assert_eq!(rt; out.bytes().is_empty(), code != 0);
    assert_eq!(rt; exit.report(rt), ExitCode::from(code));
    Ok(())
}

#[test]
fn a_call_ends_with_the_code_of_its_status(rt: HostRuntime) -> Result<(), Fail> {
    // The arguments, the code, and what err has gained.
    let rows = [
        ("slicer slice two.c 7", 0, ""),
        ("slicer slice two.c 9", 1, "9: no statement starts here\n"),
        ("slicer", 2, USAGE),
        ("slice two.c 7", 2, USAGE),
        ("slicer slice no.c 7", 3, "cannot read no.c\n"),
    ];
    for (line, code, told) in rows {
        ends_with(&rt, arguments_of(rt.alloc(), line), code, told)?;
    }
    Ok(())
}

#[test]
fn a_call_whose_arguments_are_not_read_writes_no_slice(rt: HostRuntime) -> Result<(), Fail> {
    let not_utf8 = Err(io::Error::from(ErrorKind::InvalidData));
    ends_with(&rt, not_utf8, 2, USAGE)?;
    let no_memory = Err(io::Error::from(ErrorKind::OutOfMemory));
    ends_with(&rt, no_memory, 5, "")
}
