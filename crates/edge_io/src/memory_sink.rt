//! A sink in memory, for tests: it has limited room and fails at chosen puts.
ghost use Rattle.std.specs.Prelude.{◌≡◌, ◌⊎◌, ◌↔◌, ◌+◌, ◌-◌, ◌<◌, ◌≤◌, ◌++◌, [], ℕ, IsSome, IfSome, IfOk, IsOk, OnOk, OnErr, IsErr, length, take, vec_len, vec_capacity};
ghost use Rattle.edge_io.specs.Count.{Rose, NeverFalls, Counts, one_more};
ghost use Rattle.edge_io.specs.Written.{Gains, GainsFront};
ghost use Rattle.edge_io.specs.Cuts.{taken_before_fault};

use crate::{PutFailed, Sink};
use std::alloc::{AllocError, Global};

/// A sink in memory that has limited room and fails at chosen puts.
///
/// Its puts are numbered from 0, up to 2^64 - 1, at which the number stays. It tells its bytes.
#[derive(Debug, Drop)]
pub struct MemorySink {
    bytes: Vec<u8>,
    room: usize,
    failing: Vec<(u64, usize)>,
    puts: u64,
    faults: u64,
    ghost within_room: { vec_len bytes ≤ room },
    ghost room_taken: { room ≤ vec_capacity bytes },
}

impl MemorySink {
    ghost use Rattle.edge_io.specs.MemorySink.{bytes_of, room_of, failing_of, puts_of, faults_of};

    /// A sink with room for `room` bytes, which are taken now. A pair `(k, n)` of `failing`, of several with one k
    /// the first, says that put number k writes the first n bytes of its piece, or all where it is shorter, and fails.
    /// Nothing is written yet, and the count of faults is 0. `AllocError` where there is no memory for the room.
    pub fn new(
        alloc: Global,
        room: usize,
        failing: Vec<(u64, usize)>,
    ) -> Result<MemorySink, AllocError>
        ensures bytes { IfOk result (λ sink. bytes_of sink ≡ []) }
        ensures room { IfOk result (λ sink. room_of sink ≡ room) }
        ensures failing { IfOk result (λ sink. failing_of sink ≡ failing.items) }
        ensures puts { IfOk result (λ sink. puts_of sink ≡ 0) }
        ensures faults { IfOk result (λ sink. faults_of sink ≡ 0) }
    {
        let bytes = Vec::with_capacity(alloc, room)?;
        Ok(MemorySink {
            bytes,
            room,
            failing,
            puts: 0,
            faults: 0,
        })
    }

    /// The bytes written so far.
    pub fn bytes(&self) -> &[u8]
        ensures { result.now ≡ bytes_of self.now }
    {
        self.bytes.as_slice()
    }

    // How many bytes the put with this number writes before it fails, if it is to fail.
    fn taken_before_fault(&self, number: u64) -> Option<usize>
        ensures { result ≡ taken_before_fault (failing_of self.now) number }
    {
        self.failing
            .iter()
            .find(|pair| pair.0 == number)
            .map(|pair| pair.1)
    }

    // Writes the piece, for which there is room.
    fn write(&mut self, piece: &[u8])
        requires { length (bytes_of self.old) + length piece.now ≤ room_of self.old }
        ensures bytes { bytes_of self.new ≡ bytes_of self.old ++ piece.now }
        ensures room { room_of self.new ≡ room_of self.old }
        ensures failing { failing_of self.new ≡ failing_of self.old }
        ensures puts { puts_of self.new ≡ puts_of self.old }
        ensures faults { faults_of self.new ≡ faults_of self.old }
    {
        self.bytes.extend_from_slice(piece).unwrap();
    }
}

impl Sink for MemorySink {
    ghost use Rattle.edge_io.specs.MemorySink.{bytes_of, room_of, failing_of, puts_of, faults_of, written_of, Takes};

    ghost faults = { faults_of };

    ghost written = { written_of };

    ghost takes = { Takes };

    /// Fails exactly where the piece is longer than the room left, and then writes nothing,
    /// or where this put's number has a pair, and then writes as many bytes as the first such pair says.
    fn put(&mut self, piece: &[u8]) -> Result<(), PutFailed>
        // What every sink ensures.
        ensures faults { NeverFalls (faults_of self.old) (faults_of self.new) }
        ensures ok { OnOk result (Gains (written_of self.old) (written_of self.new) piece.now) }
        ensures failed { OnErr result (Rose (faults_of self.old) (faults_of self.new)) }
        ensures front { OnErr result (GainsFront (written_of self.old) (written_of self.new) piece.now) }
        ensures taken { (more : ℕ) → Takes self.old (length piece.now + more) → IsOk result }
        ensures no_fault { (more : ℕ) → Takes self.old (length piece.now + more)
            → faults_of self.new ≡ faults_of self.old }
        ensures takes { (more : ℕ) → Takes self.old (length piece.now + more) → Takes self.new more }

        // The next put has the next number. The room and the failing numbers stay.
        ensures puts { puts_of self.new ≡ one_more (puts_of self.old) }
        ensures room { room_of self.new ≡ room_of self.old }
        ensures failing { failing_of self.new ≡ failing_of self.old }

        ensures failed_exactly { IsErr result
            ↔ ((room_of self.old < length (bytes_of self.old) + length piece.now)
            ⊎ IsSome (taken_before_fault (failing_of self.old) (puts_of self.old))) }
        ensures faults_count { Counts (IsErr result) (faults_of self.old) (faults_of self.new) }

        ensures no_room { room_of self.old < length (bytes_of self.old) + length piece.now
            → bytes_of self.new ≡ bytes_of self.old }
        ensures cut { length (bytes_of self.old) + length piece.now ≤ room_of self.old
            → IfSome (taken_before_fault (failing_of self.old) (puts_of self.old))
            (λ n. bytes_of self.new ≡ bytes_of self.old ++ take n piece.now) }
    {
        let number = self.puts;
        self.puts = number.saturating_add(1);
        if piece.len() > self.room - self.bytes.len() {
            self.faults = self.faults.saturating_add(1);
            return Err(PutFailed);
        }
        match self.taken_before_fault(number) {
            None => {
                self.write(piece);
                Ok(())
            }
            Some(taken) => {
                self.write(&piece[..taken.min(piece.len())]);
                self.faults = self.faults.saturating_add(1);
                Err(PutFailed)
            }
        }
    }
}
