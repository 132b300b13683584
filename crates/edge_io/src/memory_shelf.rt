//! A shelf in memory, for tests: it holds chosen files and fails at chosen fetches.
ghost use Rattle.std.specs.Prelude.{◌≡◌, ◌⊎◌, ◌↔◌, ◌≤◌, ◌^◌, None, IsSome, IfOk, OnOk, IfErr, IsErrOf, Contains, vec_len, option_copied};
ghost use Rattle.edge_io.specs.Count.{Rose, NeverFalls, Counts, one_more};
ghost use Rattle.edge_io.specs.Contents.{Lacks, IsAsTold, HoldsMoreThan};
ghost use Rattle.edge_io.specs.Files.{bytes_under, IsLonger};

use crate::{FetchFault, Shelf, Text};
use std::alloc::Global;

/// A shelf of files in memory that fails at chosen fetches.
///
/// Its fetches are numbered from 0, up to 2^64 - 1, at which the number stays. It tells its contents.
#[derive(Debug, Drop)]
pub struct MemoryShelf {
    files: Vec<(Text, Text)>,
    failing: Vec<u64>,
    fetches: u64,
    faults: u64,
    long_files: u64,
}

impl MemoryShelf {
    ghost use Rattle.edge_io.specs.MemoryShelf.{files_of, failing_of, fetches_of, faults_of, long_files_of};

    /// A shelf of these files, each a name and its bytes; of several with one name the first counts.
    /// The fetches with the numbers in `failing` fail. No fetch was made yet, and both counts are 0.
    pub fn new(files: Vec<(Text, Text)>, failing: Vec<u64>) -> MemoryShelf
        ensures files { files_of result ≡ files.items }
        ensures failing { failing_of result ≡ failing.items }
        ensures fetches { fetches_of result ≡ 0 }
        ensures faults { faults_of result ≡ 0 }
        ensures long_files { long_files_of result ≡ 0 }
    {
        MemoryShelf {
            files,
            failing,
            fetches: 0,
            faults: 0,
            long_files: 0,
        }
    }

    // The bytes of the first file with this name.
    fn find(&self, name: &str) -> Option<&[u8]>
        ensures { option_copied result ≡ bytes_under (files_of self.now) name.now }
    {
        self.files
            .iter()
            .find(|file| file.0.bytes() == name.as_bytes())
            .map(|file| file.1.bytes())
    }
}

impl Shelf for MemoryShelf {
    ghost use Rattle.edge_io.specs.MemoryShelf.{files_of, failing_of, fetches_of, faults_of, long_files_of, contents_of, NeverFails};

    ghost faults = { faults_of };

    ghost long_files = { long_files_of };

    ghost fetches = { fetches_of };

    ghost contents = { contents_of };

    ghost never_fails = { NeverFails };

    /// Fails with `Failed` exactly where this fetch's number is among the failing ones or no file has the name,
    /// and with `TooLong` exactly where the number isn't among them and the first file of the name has more bytes.
    fn fetch(&mut self, alloc: Global, name: &str, most: usize) -> Result<Vec<u8>, FetchFault>
        requires { most ≤ 2 ^ 30 }

        // What every shelf ensures.
        ensures faults { NeverFalls (faults_of self.old) (faults_of self.new) }
        ensures long_files { NeverFalls (long_files_of self.old) (long_files_of self.new) }
        ensures fetches { fetches_of self.new ≡ one_more (fetches_of self.old) }
        ensures contents { contents_of self.new ≡ contents_of self.old }
        ensures at_most { IfOk result (λ bytes. vec_len bytes ≤ most) }
        ensures bytes { IfOk result (λ bytes. IsAsTold (contents_of self.old) name.now bytes.items) }
        ensures failed { IfErr result (λ fault. fault ≡ FetchFault.Failed
            → Rose (faults_of self.old) (faults_of self.new) ⊎ Lacks (contents_of self.old) name.now) }
        ensures too_long { IfErr result (λ fault. fault ≡ FetchFault.TooLong
            → Rose (long_files_of self.old) (long_files_of self.new)) }
        ensures longer { IfErr result (λ fault. fault ≡ FetchFault.TooLong → IsSome (contents_of self.old)
            → HoldsMoreThan (contents_of self.old) name.now most) }
        ensures no_longer { OnOk result (¬ HoldsMoreThan (contents_of self.old) name.now most) }
        ensures never_fails { NeverFails self.old → NeverFails self.new }
        ensures no_fault { NeverFails self.old → faults_of self.new ≡ faults_of self.old }
        ensures missing { NeverFails self.old → IfErr result (λ fault. fault ≡ FetchFault.Failed
            → Lacks (contents_of self.old) name.now) }

        // The files and the failing numbers stay.
        ensures files { files_of self.new ≡ files_of self.old }
        ensures failing { failing_of self.new ≡ failing_of self.old }

        ensures failed_exactly { IsErrOf result FetchFault.Failed
            ↔ (Contains (failing_of self.old) (fetches_of self.old)
            ⊎ (bytes_under (files_of self.old) name.now ≡ None)) }
        ensures too_long_exactly { IsErrOf result FetchFault.TooLong
            ↔ ((¬ Contains (failing_of self.old) (fetches_of self.old))
            × IsLonger (files_of self.old) name.now most) }

        // A name that isn't there is no fault of the shelf.
        ensures faults_count { Counts (Contains (failing_of self.old) (fetches_of self.old))
            (faults_of self.old) (faults_of self.new) }
        ensures long_files_count { Counts (IsErrOf result FetchFault.TooLong)
            (long_files_of self.old) (long_files_of self.new) }
    {
        let number = self.fetches;
        self.fetches = number.saturating_add(1);
        if self.failing.contains(&number) {
            self.faults = self.faults.saturating_add(1);
            return Err(FetchFault::Failed);
        }
        let bytes = self.find(name).ok_or(FetchFault::Failed)?;
        if bytes.len() > most {
            self.long_files = self.long_files.saturating_add(1);
            return Err(FetchFault::TooLong);
        }
        Ok(Vec::from_slice(alloc, bytes)?)
    }
}
