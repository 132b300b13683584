//! The calls of readers, writers and files, one at a time, so that contracts can say which calls were made and what
//! they gave.
ghost use Rattle.std.specs.Prelude.{◌↔◌, ◌≡◌, ℕ, List, Result, ⊤, IsTrue};
ghost use Rattle.std.specs.Io.{ReadsAtMost, WritesAtMost};
ghost use Rattle.std.specs.Io.KnownBytes.{ReadConsumes, WriteAppends};
ghost use Rattle.std.specs.IoError.{error_kind};
ghost use Rattle.std.specs.declared.io.Error.{Error};

use std::fs::File;
use std::io;
use std::io::{ErrorKind, Read, Write};
use std::rt::Files;

/// A stream that takes bytes call by call, as each writer does.
pub trait Stream: Write {
    /// Holds of the stream before a call, the bytes that it is given, what the call answers and the stream after it.
    ghost may_write: { Self → List ℕ → Result ℕ Error → Self → Type 0 };

    /// One call: how many of the bytes were taken, from the front, or why none was.
    fn write_once(&mut self, bytes: &[u8]) -> io::Result<usize>
        ensures call { may_write self.old bytes.now result self.new }
        ensures bound { WritesAtMost result bytes.now }
        ensures bytes { WriteAppends (Self.contents self.old) (Self.contents self.new) result bytes.now };
}

impl<W: Write> Stream for W {
    // What std tells of a call of `write`.
    ghost may_write = { λ before bytes answer after. WritesAtMost answer bytes
        × WriteAppends (W.contents before) (W.contents after) answer bytes };

    fn write_once(&mut self, bytes: &[u8]) -> io::Result<usize> {
        self.write(bytes)
    }
}

/// A source that gives bytes call by call, as each reader does.
pub trait Source: Read {
    /// Holds of the source before a call, the buffer after it, what the call answers and the source after it.
    ghost may_read: { Self → List ℕ → Result ℕ Error → Self → Type 0 };

    /// One call: how many bytes were put at the buffer's front, or why none was.
    fn read_once(&mut self, buffer: &mut [u8]) -> io::Result<usize>
        ensures call { may_read self.old buffer.new result self.new }
        ensures bound { ReadsAtMost result buffer.new }
        ensures bytes { ReadConsumes (Self.remaining self.old) (Self.remaining self.new) result buffer.new };
}

impl<S: Read> Source for S {
    // What std tells of a call of `read`.
    ghost may_read = { λ before buffer answer after. ReadsAtMost answer buffer
        × ReadConsumes (S.remaining before) (S.remaining after) answer buffer };

    fn read_once(&mut self, buffer: &mut [u8]) -> io::Result<usize> {
        self.read(buffer)
    }
}

/// Files that are opened by name, as those of the system are.
pub trait Opener {
    /// An open file. It is closed where it is dropped.
    type File: Source + Drop;

    /// Holds of the files, a name and what the opening of that name answers.
    ghost may_open: { Self → List ℕ → Result Self.File Error → Type 0 };

    /// The file with this name, opened to be read from its start, or why it can't be.
    fn open(&self, name: &str) -> io::Result<Self::File>
        ensures { may_open self.now name.now result };
}

impl<R: Files> Opener for R {
    type File = R::File;

    // std tells nothing of what is opened.
    ghost may_open = { λ _ _ _. ⊤ };

    fn open(&self, name: &str) -> io::Result<R::File> {
        File::open(self, name)
    }
}

/// Whether a call is to be made again: a signal came before it moved a byte.
pub(crate) fn is_interrupted(error: &io::Error) -> bool
    ensures { IsTrue result ↔ (error_kind error.now ≡ ErrorKind.Interrupted) }
{
    error.kind() == ErrorKind::Interrupted
}
