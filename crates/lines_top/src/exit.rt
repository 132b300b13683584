//! A call of the program, from its arguments to the code that it ends with.
ghost use Rattle.std.specs.Prelude.{◌≡◌, None, IfSome, IfErr};
ghost use Rattle.std.specs.IoError.{error_kind};
ghost use Rattle.std.specs.Process.{exit_status};
ghost use Rattle.call_words.specs.Arguments.{words_in};
ghost use Rattle.lines_top.specs.Exits.{ended_in, status_in};
ghost use Rattle.lines_top.specs.Promises.{LinesPromises};
ghost use Rattle.slicer_top.specs.Seen.{shelf_seen, sink_seen};
ghost use Rattle.slicer_top.specs.Statuses.{code_of};

use crate::run::run_lines;
use call_words::words_of;
use edge_io::{Shelf, Sink};
use slicer_top::{Gate, Status};
use std::alloc::{AllocError, Global};
use std::env::Args;
use std::io;
use std::io::{Eprint, ErrorKind};
use std::process::{ExitCode, Termination};
use std::thread::Threads;

/// How a call of the program ended. Only [`lines_call`] makes one, so that a `main` that answers an `Exit` ends with the
/// code of that call's status, and with no other.
#[derive(Drop)]
pub struct Exit {
    // The status of the call of `run_lines`; none where there was no memory for its words.
    ended: Option<Status>,
}

impl Termination for Exit {
    fn report<R: Eprint>(self, _rt: &R) -> ExitCode
        ensures code { exit_status result ≡ code_of (status_in self) }
    {
        ExitCode::from(self.ended.unwrap_or(Status::NoMemory))
    }
}

/// Does what the arguments of a call ask for: [`run_lines`] with the words of these arguments, so that each of its promises holds of
/// them. Where there is no memory for the words, `run_lines` isn't called: the status is `NoMemory`, and nothing is read or written.
pub fn lines_call<R: Threads + Sync, F: Shelf, O: Sink, E: Sink, G: Gate + Sync>(
    rt: &R,
    alloc: Global,
    arguments: io::Result<Args>,
    shelf: &mut F,
    out: &mut O,
    err: &mut E,
    gate: &G,
) -> Exit
    ensures promises { IfSome (ended_in result) (LinesPromises (words_in arguments)
        (shelf_seen F.faults F.long_files F.fetches F.contents F.never_fails shelf.old shelf.new)
        (sink_seen O.faults O.written O.takes out.old out.new) (sink_seen E.faults E.written E.takes err.old err.new)) }

    // Where there was no memory for the words, nothing is done, and so it is where the arguments found none.
    ensures untouched { ended_in result ≡ None → (shelf.new ≡ shelf.old) × (out.new ≡ out.old) × (err.new ≡ err.old) }
    ensures no_words { IfErr arguments (λ fault. error_kind fault ≡ ErrorKind.OutOfMemory → ended_in result ≡ None) }
{
    match words_of(alloc, arguments) {
        Ok(words) => {
            let status = run_lines(rt, alloc, &words, shelf, out, err, gate);
            Exit {
                ended: Some(status),
            }
        }
        Err(AllocError) => Exit { ended: None },
    }
}
