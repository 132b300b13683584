//! The top call: from the words to what they ask for on out, or else to a line on err.
ghost use Rattle.slicer_top.specs.Promises.{Promises};
ghost use Rattle.slicer_top.specs.Seen.{shelf_seen, sink_seen};
ghost use Rattle.slicer_top.specs.Writing.{Wrote};

use crate::report::{report, tell, tell_no_memory};
use crate::slicing::texts_for;
use crate::status::Status;
use call_words::{WordsFault, read_words};
use edge_io::{PutFailed, Shelf, Sink, Text};
use slice_batch::Gate;
use std::alloc::Global;
use std::thread::Threads;

/// Does what the words ask for: `slice FILE LINE..` writes to `out` the slice of the program in FILE at each LINE, in
/// the order of the words, one put each; `trace FILE LINE.. --input INPUT` the values at these lines in a run of the
/// program on the bytes of INPUT, in one put; `run FILE --input INPUT` what that run writes, in one put; `graph FILE`
/// the dependence graph, in one put; `members FILE LINE` the vertices of that graph that reach the statements on LINE,
/// in one put; `big SEED SIZE` the numbers of the slice of a large program that is made from a seed, in one put; `forward FILE LINE`
/// the vertices of the graph that the statements on LINE reach, in one put; `chop FILE LINE LINE` those through which the statements on
/// the first LINE reach those on the second, in one put.
///
/// The words are those of the grammar of the crate `call_words`. The files are fetched from `shelf`, FILE first. Where the status
/// isn't `Done`, its line is put on `err`; where that fails, the status is `WriteFault`, and `err` gets no more.
///
/// The slices of several lines are made by the number of workers that the words give, on threads of `rt`; each worker passes `gate`
/// after each number that it draws.
pub fn run_slicer<R: Threads + Sync, F: Shelf, O: Sink, E: Sink, G: Gate + Sync>(
    rt: &R,
    alloc: Global,
    words: &[Text],
    shelf: &mut F,
    out: &mut O,
    err: &mut E,
    gate: &G,
) -> Status
    ensures { Promises words.now (shelf_seen F.faults F.long_files F.fetches F.contents F.never_fails shelf.old shelf.new)
        (sink_seen O.faults O.written O.takes out.old out.new) (sink_seen E.faults E.written E.takes err.old err.new) result }
{
    let request = match read_words(alloc, words) {
        Ok(request) => request,
        Err(WordsFault::Usage) => return tell(
            b"usage: slicer slice FILE LINE.. | trace FILE LINE.. --input FILE | run FILE --input FILE | graph FILE | members FILE LINE | big SEED SIZE | forward FILE LINE | chop FILE LINE LINE\n",
            Status::Usage,
            err,
        ),
        Err(WordsFault::NoMemory) => return tell_no_memory(err),
    };
    match texts_for(rt, alloc, &request, shelf, gate) {
        Ok(texts) => write_texts(texts.as_slice(), out, err),
        Err(refusal) => report(alloc, &refusal, &request, err),
    }
}

// Puts these texts, one after another.
fn write_texts<O: Sink, E: Sink>(texts: &[Text], out: &mut O, err: &mut E) -> Status
    ensures { Wrote texts.now (sink_seen O.faults O.written O.takes out.old out.new)
        (sink_seen E.faults E.written E.takes err.old err.new) result }
{
    for text in texts {
        match out.put(text.bytes()) {
            Ok(()) => {}
            Err(PutFailed) => return tell(b"cannot write\n", Status::WriteFault, err),
        }
    }
    Status::Done
}
