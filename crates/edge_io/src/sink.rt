//! A sink: something that takes bytes in order. Its trait says what a put may do.
ghost use Rattle.std.specs.Prelude.{◌≡◌, ◌+◌, ℕ, List, Option, IsOk, OnOk, OnErr, length};
ghost use Rattle.edge_io.specs.Count.{Rose, NeverFalls};
ghost use Rattle.edge_io.specs.Written.{Gains, GainsFront};

use thiserror::Error;

/// A put failed: of its piece a prefix was taken, which may be empty or whole.
#[derive(Clone, Copy, Debug, PartialEq, Eq, Error)]
#[error("the bytes cannot be written")]
pub struct PutFailed;

/// Something that takes bytes in order, as a stream. A sink may tell what was written, to proofs alone.
pub trait Sink {
    /// How many faults there were, up to 2^64 - 1.
    ghost faults: { Self → ℕ };

    /// The bytes written so far, of a sink that tells them.
    ghost written: { Self → Option (List ℕ) };

    /// It takes any pieces of so many bytes in all without a fault. A sink that can't promise that never has this.
    ghost takes: { Self → ℕ → Type 0 };

    /// Writes the piece behind what is written. It takes no memory.
    ///
    /// `PutFailed` where the sink met a fault: a prefix of the piece is then written.
    fn put(&mut self, piece: &[u8]) -> Result<(), PutFailed>
        ensures faults { NeverFalls (faults self.old) (faults self.new) }
        ensures ok { OnOk result (Gains (written self.old) (written self.new) piece.now) }
        ensures failed { OnErr result (Rose (faults self.old) (faults self.new)) }
        ensures front { OnErr result (GainsFront (written self.old) (written self.new) piece.now) }

        // A sink that takes the piece and so many bytes more has no fault in this call, and takes those bytes then.
        ensures taken { (more : ℕ) → takes self.old (length piece.now + more) → IsOk result }
        ensures no_fault { (more : ℕ) → takes self.old (length piece.now + more)
            → faults self.new ≡ faults self.old }
        ensures takes { (more : ℕ) → takes self.old (length piece.now + more) → takes self.new more };
}
