//! The lines that slices keep: `slice_lines FILE LINE..` writes for each LINE of the C program in FILE the lines on which the statements
//! start that the slice at LINE keeps.
#![tactic(auto)]

use edge_io::Shelf;
use lines_top::{Exit, FileShelf, OpenGate, StreamSink, lines_call};
use std::env;

fn main(rt: HostRuntime) -> Exit {
    let mut shelf = FileShelf::new(rt);
    // What a shelf reads into stands on the stack: as much of that as the deepest walk needs is used here, before memory is taken.
    let _ = shelf.fetch(rt.alloc(), "/dev/null", 0);
    let mut out = StreamSink::out(rt.stdout());
    let mut err = StreamSink::err(rt.stderr());
    lines_call(
        &rt,
        rt.alloc(),
        env::args(&rt),
        &mut shelf,
        &mut out,
        &mut err,
        &OpenGate,
    )
}
