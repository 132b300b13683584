//! The slicer: `slicer slice FILE LINE..` writes the slice of the C program in FILE at each LINE, `slicer trace` and
//! `slicer run` what a run of it gives, `slicer graph FILE` its dependence graph, `slicer members FILE LINE` what reaches
//! LINE in that, `slicer forward FILE LINE` what LINE reaches, `slicer chop FILE LINE LINE` through what the first LINE reaches
//! the second, and `slicer big SEED SIZE` the numbers of the slice of a large program.
#![tactic(auto)]

use edge_io::Shelf;
use slicer_top::{Exit, FileShelf, OpenGate, StreamSink, run_call};
use std::env;

fn main(rt: HostRuntime) -> Exit {
    let mut shelf = FileShelf::new(rt);
    // What a shelf reads into stands on the stack: as much of that as the deepest walk needs is used here, before memory is taken.
    let _ = shelf.fetch(rt.alloc(), "/dev/null", 0);
    let mut out = StreamSink::out(rt.stdout());
    let mut err = StreamSink::err(rt.stderr());
    run_call(
        &rt,
        rt.alloc(),
        env::args(&rt),
        &mut shelf,
        &mut out,
        &mut err,
        &OpenGate,
    )
}
