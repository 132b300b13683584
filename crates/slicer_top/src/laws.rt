//! Laws about slices and calls as functions without code, which a caller can use in proofs.
ghost use Rattle.slicer_top.specs.Promises.{CallsKeepPromises};
ghost use Rattle.slicer_top.specs.Slices.{SlicesAreOne};

use edge_io::{Shelf, Sink};

/// A law: a text has at most one slice at a line.
pub fn slices_are_one()
    ensures { SlicesAreOne }
{}

/// A law: what a call of the program promises of the status of `run_slicer`, and that it does nothing where that isn't
/// called, gives each promise for the status of the call. Where it isn't called, nothing is told.
pub fn calls_keep_promises<F: Shelf, O: Sink, E: Sink>()
    ensures { CallsKeepPromises F.faults F.long_files F.fetches F.contents F.never_fails O.faults O.written O.takes E.faults E.written E.takes }
{}
