//! Calls of the top call over files and sinks in memory.
use edge_io::{MemoryShelf, MemorySink};
use slicer_top::{Gate, OpenGate, Status, Text, run_slicer};
use std::alloc::{AllocError, Global};
use std::process::Abort;
use std::test::Fail;
use std::thread::Threads;

// How a call ended, and what the sinks have gained.
#[derive(Drop)]
pub(crate) struct Ended {
    pub(crate) status: Status,
    pub(crate) out: Text,
    pub(crate) err: Text,
}

/// What fails: the numbers of fetches, and of puts with the bytes that each takes before; and how many bytes out takes.
#[derive(Clone, Copy)]
pub(crate) struct Failing<'a> {
    pub(crate) fetches: &'a [u64],
    pub(crate) out: &'a [(u64, usize)],
    pub(crate) err: &'a [(u64, usize)],
    pub(crate) room: usize,
}

pub(crate) const NONE_FAILING: Failing<'static> = Failing {
    fetches: &[],
    out: &[],
    err: &[],
    room: 4096,
};

/// The line on err where the words are outside the grammar.
pub(crate) const USAGE: &str =
    "usage: slicer slice FILE LINE.. | trace FILE LINE.. --input FILE | run FILE --input FILE | graph FILE | members FILE LINE | big SEED SIZE | forward FILE LINE | chop FILE LINE LINE\n";

/// Calls the slicer with these words over these files.
pub(crate) fn run<R: AllocGlobal + Threads + Sync>(
    rt: &R,
    words: &[Text],
    files: Vec<(Text, Text)>,
    failing: &Failing<'_>,
) -> Result<Ended, AllocError> {
    run_past(rt, &OpenGate, words, files, failing)
}

/// The same, where workers pass a gate.
pub(crate) fn run_past<R: AllocGlobal + Threads + Sync, G: Gate + Sync>(
    rt: &R,
    gate: &G,
    words: &[Text],
    files: Vec<(Text, Text)>,
    failing: &Failing<'_>,
) -> Result<Ended, AllocError> {
    let alloc = rt.alloc();
    let mut shelf = MemoryShelf::new(files, failing.fetches.to_vec(alloc)?);
    let mut out = MemorySink::new(alloc, failing.room, failing.out.to_vec(alloc)?)?;
    let mut err = MemorySink::new(alloc, 4096, failing.err.to_vec(alloc)?)?;
    let status = run_slicer(rt, alloc, words, &mut shelf, &mut out, &mut err, gate);
    Ok(Ended {
        status,
        out: Text::from_slice(alloc, out.bytes())?,
        err: Text::from_slice(alloc, err.bytes())?,
    })
}

/// The words of a line, one blank between each two. An empty line has none.
pub(crate) fn split_words(alloc: Global, line: &str) -> Result<Vec<Text>, AllocError> {
    let mut words = Vec::new(alloc);
    if line.is_empty() {
        return Ok(words);
    }
    for word in line.split(' ') {
        words.push(Text::from_slice(alloc, word.as_bytes())?)?;
    }
    Ok(words)
}

/// One file.
pub(crate) fn file(
    alloc: Global,
    name: &str,
    bytes: &str,
) -> Result<Vec<(Text, Text)>, AllocError> {
    let mut files = Vec::new(alloc);
    let name = Text::from_slice(alloc, name.as_bytes())?;
    let bytes = Text::from_slice(alloc, bytes.as_bytes())?;
    files.push((name, bytes))?;
    Ok(files)
}

/// A call ended with this status, and out and err have gained these texts.
pub(crate) fn is_end<R: Abort + AllocGlobal>(
    rt: &R,
    ended: &Ended,
    wanted: (Status, &str, &str),
    what: &str,
) -> Result<(), Fail> {
    let (status, out, err) = wanted;
    let written = String::from_utf8_lossy(rt.alloc(), ended.out.bytes())?;
    let told = String::from_utf8_lossy(rt.alloc(), ended.err.bytes())?;
    assert_eq!(rt; ended.status, status, "{what}");
    assert_eq!(rt; written.as_str(), out, "{what}");
    assert_eq!(rt; told.as_str(), err, "{what}");
    Ok(())
}

/// The words of this line over this text, the file `t.c`, end with this status, and out and err have gained this.
pub(crate) fn ends<R: Abort + AllocGlobal + Threads + Sync>(
    rt: &R,
    text: &str,
    line: &str,
    wanted: (Status, &str, &str),
) -> Result<(), Fail> {
    let alloc = rt.alloc();
    let words = split_words(alloc, line)?;
    let ended = run(rt, &words, file(alloc, "t.c", text)?, &NONE_FAILING)?;
    is_end(rt, &ended, wanted, line)
}
