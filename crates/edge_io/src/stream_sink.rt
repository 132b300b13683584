//! The sinks over the standard streams.
ghost use Rattle.std.specs.Prelude.{◌≡◌, ◌<◌, ℕ, None, OnOk, OnErr, IsErr, length, take};
ghost use Rattle.std.specs.Io.KnownBytes.{Appends};
ghost use Rattle.edge_io.specs.Count.{Rose, NeverFalls, Counts};
ghost use Rattle.edge_io.specs.WriteCalls.{IsWritten, IsCutShort};

use crate::calls::is_interrupted;
use crate::{PutFailed, Sink, Stream};
use std::io::{Stderr, Stdout};

/// A stream of the system, such as standard output. It doesn't tell its bytes.
#[derive(Drop)]
pub struct StreamSink<W> {
    stream: W,
    faults: u64,
}

impl StreamSink<Stdout> {
    ghost use Rattle.edge_io.specs.StreamSink.{stream_of, faults_of};

    /// Standard output. The count of faults is 0.
    pub fn out(stream: Stdout) -> StreamSink<Stdout>
        ensures stream { stream_of result ≡ stream }
        ensures faults { faults_of result ≡ 0 }
    {
        StreamSink { stream, faults: 0 }
    }
}

impl StreamSink<Stderr> {
    ghost use Rattle.edge_io.specs.StreamSink.{stream_of, faults_of};

    /// Standard error. The count of faults is 0.
    pub fn err(stream: Stderr) -> StreamSink<Stderr>
        ensures stream { stream_of result ≡ stream }
        ensures faults { faults_of result ≡ 0 }
    {
        StreamSink { stream, faults: 0 }
    }
}

impl<W: Stream + Drop> Sink for StreamSink<W> {
    ghost use Rattle.edge_io.specs.StreamSink.{stream_of, faults_of};

    ghost faults = { faults_of };

    ghost written = { λ _. None };

    ghost takes = { λ _ _. ⊥ };

    fn put(&mut self, piece: &[u8]) -> Result<(), PutFailed>
        // What every sink ensures, of one that tells no bytes and may fail at any time.
        ensures faults { NeverFalls (faults_of self.old) (faults_of self.new) }
        ensures failed { OnErr result (Rose (faults_of self.old) (faults_of self.new)) }

        ensures faults_count { Counts (IsErr result) (faults_of self.old) (faults_of self.new) }

        // The piece is taken where calls of the stream wrote it whole, and a fault is one that a call of the stream met.
        ensures written { OnOk result (IsWritten W.may_write piece.now (stream_of self.old) (stream_of self.new)) }
        ensures cut_short { OnErr result (IsCutShort W.may_write piece.now (stream_of self.old) (stream_of self.new)) }

        // Where the stream itself tells its bytes, the piece is behind them, or at a fault a prefix that lacks some of it.
        ensures taken { OnOk result
            (Appends (W.contents (stream_of self.old)) (W.contents (stream_of self.new)) piece.now) }
        ensures front { OnErr result ((n : ℕ) × (n < length piece.now)
            × Appends (W.contents (stream_of self.old)) (W.contents (stream_of self.new)) (take n piece.now)) }
    {
        let outcome = write_whole(&mut self.stream, piece);
        if outcome.is_err() {
            self.faults = self.faults.saturating_add(1);
        }
        outcome
    }
}

// Writes the piece, or a prefix of it where the stream fails.
fn write_whole<W: Stream>(stream: &mut W, piece: &[u8]) -> Result<(), PutFailed>
    ensures written { OnOk result (IsWritten W.may_write piece.now stream.old stream.new) }
    ensures cut_short { OnErr result (IsCutShort W.may_write piece.now stream.old stream.new) }
    ensures ok { OnOk result (Appends (W.contents stream.old) (W.contents stream.new) piece.now) }
    ensures front { OnErr result ((n : ℕ) × (n < length piece.now)
        × Appends (W.contents stream.old) (W.contents stream.new) (take n piece.now)) }
{
    let mut rest = piece;
    for _call in 0..u64::MAX {
        if rest.is_empty() {
            return Ok(());
        }
        match stream.write_once(rest) {
            Ok(0) => return Err(PutFailed),
            Ok(count) => rest = &rest[count..],
            Err(error) => {
                if !is_interrupted(&error) {
                    return Err(PutFailed);
                }
            }
        }
    }
    if rest.is_empty() {
        Ok(())
    } else {
        Err(PutFailed)
    }
}

#[cfg(test)]
mod tests {
    use super::*;
    use std::io;
    use std::io::{ErrorKind, Write};
    use std::test::Fail;

    // A stream that takes three bytes at a time, stops to be called again at its second call,
    // and takes no more once `room` is used up.
    #[derive(Drop)]
    struct Narrow {
        taken: Vec<u8>,
        room: usize,
        calls: u8,
    }

    impl Write for Narrow {
        fn write(&mut self, buf: &[u8]) -> io::Result<usize> {
            self.calls = self.calls.saturating_add(1);
            if self.calls == 2 {
                return Err(io::Error::from(ErrorKind::Interrupted));
            }
            let count = buf.len().min(self.room).min(3);
            self.taken.extend_from_slice(&buf[..count])?;
            self.room -= count;
            Ok(count)
        }

        fn flush(&mut self) -> io::Result<()> {
            Ok(())
        }
    }

    #[test]
    fn a_piece_is_written_whole_or_a_fault_is_counted(rt: HostRuntime) -> Result<(), Fail> {
        // The room, the piece, whether it is taken, the bytes that are, and the faults.
        let rows = [
            (20, "abcdefgh", true, "abcdefgh", 0),
            (8, "abcdefgh", true, "abcdefgh", 0),
            (7, "abcdefgh", false, "abcdefg", 1),
            (3, "abcdefgh", false, "abc", 1),
            (0, "abcdefgh", false, "", 1),
            (1, "a", true, "a", 0),
            (0, "", true, "", 0),
        ];
        for (room, piece, taken, bytes, faults) in rows {
            let stream = Narrow {
                taken: Vec::new(rt.alloc()),
                room,
                calls: 0,
            };
            let mut sink = StreamSink { stream, faults: 0 };
            assert_eq!(rt; sink.put(piece.as_bytes()).is_ok(), taken, "{room}");
            assert_eq!(rt; sink.stream.taken.as_slice(), bytes.as_bytes(), "{room}");
            assert_eq!(rt; sink.faults, faults, "{room}");
        }
        Ok(())
    }

    #[test]
    fn one_piece_is_put_to_each_stream(rt: HostRuntime) -> Result<(), Fail> {
        let mut out = StreamSink::out(rt.stdout());
        let mut err = StreamSink::err(rt.stderr());
        out.put(b"one piece\n")?;
        err.put(b"another piece\n")?;
        out.put(b"")?;
        assert_eq!(rt; (out.faults, err.faults), (0, 0));
        Ok(())
    }
}
