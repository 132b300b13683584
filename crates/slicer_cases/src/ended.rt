//! The end of a call of the slicer over files and sinks in memory.
use crate::case::Case;
use edge_io::{MemoryShelf, MemorySink};
use lines_top::run_lines;
use slicer_top::{OpenGate, Text, run_slicer};
use std::alloc::{AllocError, Global};
use std::thread::Threads;

// What each of the sinks has room for.
const ROOM: usize = 1_048_576;

/// How a call ended: the code of its status, and what out and err have gained.
#[derive(Drop, PartialEq)]
pub struct Ended {
    pub code: u8,
    pub out: Text,
    pub err: Text,
}

impl Ended {
    /// The code and both texts, as they are read.
    pub fn shown(&self, alloc: Global) -> Result<String, AllocError> {
        let code = self.code;
        let out = String::from_utf8_lossy(alloc, self.out.bytes())?;
        let err = String::from_utf8_lossy(alloc, self.err.bytes())?;
        format!(in alloc; "status {code}, on out:\n{out}and on err:\n{err}")
    }
}

/// Calls the program of the case with its words over these files.
pub fn run<R: AllocGlobal + Threads + Sync>(
    rt: &R,
    case: &Case,
    files: Vec<(Text, Text)>,
) -> Result<Ended, AllocError> {
    let alloc = rt.alloc();
    let mut shelf = MemoryShelf::new(files, Vec::new(alloc));
    let mut out = MemorySink::new(alloc, ROOM, Vec::new(alloc))?;
    let mut err = MemorySink::new(alloc, ROOM, Vec::new(alloc))?;
    let status = match case.words_for_lines() {
        Some(words) => run_lines(rt, alloc, words, &mut shelf, &mut out, &mut err, &OpenGate),
        None => run_slicer(
            rt,
            alloc,
            case.words(),
            &mut shelf,
            &mut out,
            &mut err,
            &OpenGate,
        ),
    };
    Ok(Ended {
        code: status.code(),
        out: Text::from_slice(alloc, out.bytes())?,
        err: Text::from_slice(alloc, err.bytes())?,
    })
}
