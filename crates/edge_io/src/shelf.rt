//! A shelf: files that are fetched by name. Its trait says what a fetch may give.
ghost use Rattle.std.specs.Prelude.{◌≡◌, ◌⊎◌, ◌≤◌, ◌^◌, ℕ, List, Option, IsSome, IfOk, IfErr, OnOk, vec_len};
ghost use Rattle.edge_io.specs.declared.shelf.FetchFault.TheVariants.{NoMemory};
ghost use Rattle.edge_io.specs.Count.{Rose, NeverFalls, one_more};
ghost use Rattle.edge_io.specs.Contents.{Lacks, IsAsTold, HoldsMoreThan};

use std::alloc::{AllocError, Global};
use thiserror::Error;

/// Why a fetch gave no bytes.
#[derive(Clone, Copy, Debug, PartialEq, Eq, Error)]
pub enum FetchFault {
    /// The file isn't there, or couldn't be read.
    #[error("the file cannot be read")]
    Failed,
    /// The file has more bytes than were asked for.
    #[error("the file is too long")]
    TooLong,
    /// There was no memory for its bytes.
    #[error("out of memory")]
    NoMemory,
}

impl From<AllocError> for FetchFault {
    ghost from_gives = { λ _ fault. fault ≡ NoMemory };

    fn from(_: AllocError) -> FetchFault {
        FetchFault::NoMemory
    }
}

/// Files that are fetched by name. A shelf may tell its contents, to proofs alone.
pub trait Shelf {
    /// How many faults there were, up to 2^64 - 1.
    ghost faults: { Self → ℕ };

    /// How many files were found too long, up to 2^64 - 1.
    ghost long_files: { Self → ℕ };

    /// How many fetches there were, up to 2^64 - 1.
    ghost fetches: { Self → ℕ };

    /// The bytes under each name, of a shelf that tells them.
    ghost contents: { Self → Option (List ℕ → Option (List ℕ)) };

    /// It meets no fault from here on. A shelf that can't promise that never has this.
    ghost never_fails: { Self → Type 0 };

    /// The bytes of the file with this name, at most `most` of them.
    ///
    /// `Failed` where the shelf met a fault or lacks the file, `TooLong` where the file has more than `most` bytes,
    /// `NoMemory` where there is no memory for them.
    fn fetch(&mut self, alloc: Global, name: &str, most: usize) -> Result<Vec<u8>, FetchFault>
        requires { most ≤ 2 ^ 30 }

        ensures faults { NeverFalls (faults self.old) (faults self.new) }
        ensures long_files { NeverFalls (long_files self.old) (long_files self.new) }
        ensures fetches { fetches self.new ≡ one_more (fetches self.old) }
        ensures contents { contents self.new ≡ contents self.old }

        ensures at_most { IfOk result (λ bytes. vec_len bytes ≤ most) }
        ensures bytes { IfOk result (λ bytes. IsAsTold (contents self.old) name.now bytes.items) }

        ensures failed { IfErr result (λ fault. fault ≡ FetchFault.Failed
            → Rose (faults self.old) (faults self.new) ⊎ Lacks (contents self.old) name.now) }
        ensures too_long { IfErr result (λ fault. fault ≡ FetchFault.TooLong
            → Rose (long_files self.old) (long_files self.new)) }

        // Where contents are told, `TooLong` comes exactly where they are longer, but where `Failed` or `NoMemory` comes.
        ensures longer { IfErr result (λ fault. fault ≡ FetchFault.TooLong → IsSome (contents self.old)
            → HoldsMoreThan (contents self.old) name.now most) }
        ensures no_longer { OnOk result (¬ HoldsMoreThan (contents self.old) name.now most) }

        // A shelf that never fails has no fault in this call, and fails for no name that is there.
        ensures never_fails { never_fails self.old → never_fails self.new }
        ensures no_fault { never_fails self.old → faults self.new ≡ faults self.old }
        ensures missing { never_fails self.old → IfErr result (λ fault. fault ≡ FetchFault.Failed
            → Lacks (contents self.old) name.now) };
}
