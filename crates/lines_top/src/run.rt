//! The top call: from the words to the kept lines on out, or else to a line on err.
ghost use Rattle.lines_top.specs.Promises.{LinesPromises};
ghost use Rattle.lines_top.specs.Puts.{IsPut};
ghost use Rattle.slicer_top.specs.Seen.{shelf_seen, sink_seen};

use crate::making::text_for;
use crate::words::request_of;
use call_words::WordsFault;
use edge_io::{PutFailed, Shelf, Sink};
use slicer_top::{Gate, Status, Text, tell, tell_no_memory, tell_refusal};
use std::alloc::Global;
use std::thread::Threads;

/// Writes to `out`, in one put, the kept lines of the program in FILE at each LINE: a row for each LINE in the order of the words,
/// with LINE, a colon, and each line behind a space on which a statement starts that the slice at LINE keeps. At most 4,096 lines may
/// be asked for.
///
/// The words are those of the command `slice` without its name (the crate `call_words`). FILE is fetched from `shelf`. Where the status
/// isn't `Done`, its line is put on `err`; where that fails, the status is `WriteFault`, and `err` gets no more.
///
/// The facts of the program's functions are found by the number of workers that the words give, on threads of `rt`; each worker passes
/// `gate` after each number that it draws.
pub fn run_lines<R: Threads + Sync, F: Shelf, O: Sink, E: Sink, G: Gate + Sync>(
    rt: &R,
    alloc: Global,
    words: &[Text],
    shelf: &mut F,
    out: &mut O,
    err: &mut E,
    gate: &G,
) -> Status
    ensures { LinesPromises words.now (shelf_seen F.faults F.long_files F.fetches F.contents F.never_fails shelf.old shelf.new)
        (sink_seen O.faults O.written O.takes out.old out.new) (sink_seen E.faults E.written E.takes err.old err.new) result }
{
    let request = match request_of(alloc, words) {
        Ok(request) => request,
        Err(WordsFault::Usage) => {
            return tell(b"usage: slice_lines FILE LINE..\n", Status::Usage, err);
        }
        Err(WordsFault::NoMemory) => return tell_no_memory(err),
    };
    match text_for(rt, alloc, &request, shelf, gate) {
        Ok(text) => put(&text, out, err),
        Err(refusal) => tell_refusal(alloc, &refusal, &request, err),
    }
}

// Puts the text.
fn put<O: Sink, E: Sink>(text: &Text, out: &mut O, err: &mut E) -> Status
    ensures { IsPut text.now (sink_seen O.faults O.written O.takes out.old out.new) (sink_seen E.faults E.written E.takes err.old err.new) result }
{
    match out.put(text.bytes()) {
        Ok(()) => Status::Done,
        Err(PutFailed) => tell(b"cannot write\n", Status::WriteFault, err),
    }
}
