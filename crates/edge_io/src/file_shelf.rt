//! The shelf over real files, which reads at most so many bytes of each and counts faults.
ghost use Rattle.std.specs.Prelude.{◌≡◌, ◌≢◌, ◌⊎◌, ◌<◌, ◌≤◌, ◌^◌, None, IfOk, IfErr, IfSome, IsErrOf, take, length, vec_len};
ghost use Rattle.edge_io.specs.Count.{Rose, NeverFalls, Counts, one_more};
ghost use Rattle.edge_io.specs.ReadCalls.{Gives, GivesAll, GivesMoreThan, IsUnreadable, IsOpened, IsUnfetchable};

use crate::calls::is_interrupted;
use crate::{FetchFault, Opener, Shelf, Source};
use std::alloc::Global;

// How many bytes are read at once, at most. They stand on the stack, which never gets smaller: as much of it as the deepest walk needs
// has then been touched before any memory is taken, so that where memory ends a walk is told so and meets no signal.
const CHUNK: usize = 786432;

/// The files of the system. It tells no contents, and a file that isn't there is a fault to it.
#[derive(Drop)]
pub struct FileShelf<R> {
    files: R,
    faults: u64,
    long_files: u64,
    fetches: u64,
}

impl<R: Opener + Drop> FileShelf<R> {
    ghost use Rattle.edge_io.specs.FileShelf.{files_of, faults_of, long_files_of, fetches_of};

    /// The files that this runtime reaches. All counts are 0.
    pub fn new(files: R) -> FileShelf<R>
        ensures files { files_of result ≡ files }
        ensures faults { faults_of result ≡ 0 }
        ensures long_files { long_files_of result ≡ 0 }
        ensures fetches { fetches_of result ≡ 0 }
    {
        FileShelf {
            files,
            faults: 0,
            long_files: 0,
            fetches: 0,
        }
    }
}

impl<R: Opener + Drop> Shelf for FileShelf<R> {
    ghost use Rattle.edge_io.specs.FileShelf.{files_of, faults_of, long_files_of, fetches_of};

    ghost faults = { faults_of };

    ghost long_files = { long_files_of };

    ghost fetches = { fetches_of };

    ghost contents = { λ _. None };

    ghost never_fails = { λ _. ⊥ };

    fn fetch(&mut self, alloc: Global, name: &str, most: usize) -> Result<Vec<u8>, FetchFault>
        requires { most ≤ 2 ^ 30 }

        // What every shelf ensures, of one that tells no contents and may fail at any time.
        ensures faults { NeverFalls (faults_of self.old) (faults_of self.new) }
        ensures long_files { NeverFalls (long_files_of self.old) (long_files_of self.new) }
        ensures fetches { fetches_of self.new ≡ one_more (fetches_of self.old) }
        ensures at_most { IfOk result (λ bytes. vec_len bytes ≤ most) }
        ensures failed { IfErr result (λ fault. fault ≡ FetchFault.Failed
            → Rose (faults_of self.old) (faults_of self.new)) }
        ensures too_long { IfErr result (λ fault. fault ≡ FetchFault.TooLong
            → Rose (long_files_of self.old) (long_files_of self.new)) }

        // A file that isn't there is a fault too.
        ensures faults_count { Counts (IsErrOf result FetchFault.Failed)
            (faults_of self.old) (faults_of self.new) }
        ensures long_files_count { Counts (IsErrOf result FetchFault.TooLong)
            (long_files_of self.old) (long_files_of self.new) }

        // The bytes are all that calls of the opened file gave up to its end, `TooLong` comes where they gave more than
        // these, and `Failed` where opening it or a call of it failed.
        ensures files { files_of self.new ≡ files_of self.old }
        ensures whole { IfOk result (λ bytes. IsOpened R.may_open (files_of self.old) name.now
            (λ file. GivesAll ⟦<R::File as Source>⟧.may_read file bytes.items)) }
        ensures longer { IfErr result (λ fault. fault ≡ FetchFault.TooLong → IsOpened R.may_open (files_of self.old) name.now
            (λ file. GivesMoreThan ⟦<R::File as Source>⟧.may_read file most)) }
        ensures unfetchable { IfErr result (λ fault. fault ≡ FetchFault.Failed
            → IsUnfetchable R.may_open ⟦<R::File as Source>⟧.may_read (files_of self.old) name.now) }
    {
        self.fetches = self.fetches.saturating_add(1);
        let fetched = read_file(&self.files, alloc, name, most);
        match &fetched {
            Err(FetchFault::Failed) => self.faults = self.faults.saturating_add(1),
            Err(FetchFault::TooLong) => self.long_files = self.long_files.saturating_add(1),
            Ok(_) | Err(FetchFault::NoMemory) => {}
        }
        fetched
    }
}

// The bytes of the file with this name, `TooLong` where they are more than `most`.
fn read_file<R: Opener>(
    files: &R,
    alloc: Global,
    name: &str,
    most: usize,
) -> Result<Vec<u8>, FetchFault>
    requires { most ≤ 2 ^ 30 }
    ensures at_most { IfOk result (λ bytes. vec_len bytes ≤ most) }
    ensures whole { IfOk result (λ bytes. IsOpened R.may_open files.now name.now
        (λ file. GivesAll R.File.may_read file bytes.items)) }
    ensures longer { IfErr result (λ fault. fault ≡ FetchFault.TooLong → IsOpened R.may_open files.now name.now
        (λ file. GivesMoreThan R.File.may_read file most)) }
    ensures unfetchable { IfErr result (λ fault. fault ≡ FetchFault.Failed
        → IsUnfetchable R.may_open R.File.may_read files.now name.now) }
{
    let Ok(mut file) = files.open(name) else {
        return Err(FetchFault::Failed);
    };
    read_whole(&mut file, alloc, most)
}

// All bytes that the source has left, `TooLong` where they are more than `most`.
fn read_whole<S: Source>(source: &mut S, alloc: Global, most: usize) -> Result<Vec<u8>, FetchFault>
    requires { most ≤ 2 ^ 30 }
    ensures at_most { IfOk result (λ bytes. vec_len bytes ≤ most) }
    ensures bytes { IfOk result (λ bytes. IfSome (S.remaining source.old) (λ left. bytes.items ≡ left)) }
    ensures too_long { IfErr result (λ fault. fault ≡ FetchFault.TooLong
        → IfSome (S.remaining source.old) (λ left. most < length left)) }
    ensures whole { IfOk result (λ bytes. GivesAll S.may_read source.old bytes.items) }
    ensures longer { IfErr result (λ fault. fault ≡ FetchFault.TooLong → GivesMoreThan S.may_read source.old most) }
    ensures unreadable { IfErr result (λ fault. fault ≡ FetchFault.Failed → IsUnreadable S.may_read source.old) }
{
    let bytes = read_up_to(source, alloc, most + 1)?;
    if bytes.len() > most {
        return Err(FetchFault::TooLong);
    }
    Ok(bytes)
}

// The bytes that the source has left, at most `limit` of them.
fn read_up_to<S: Source>(source: &mut S, alloc: Global, limit: usize) -> Result<Vec<u8>, FetchFault>
    ensures at_most { IfOk result (λ bytes. vec_len bytes ≤ limit) }
    ensures bytes { IfOk result (λ bytes. IfSome (S.remaining source.old) (λ left. bytes.items ≡ take limit left)) }
    ensures given { IfOk result (λ bytes. GivesAll S.may_read source.old bytes.items
        ⊎ ((vec_len bytes ≡ limit) × Gives S.may_read source.old bytes.items)) }
    ensures unreadable { IfErr result (λ fault. fault ≡ FetchFault.Failed → IsUnreadable S.may_read source.old) }
    ensures not_too_long { result ≢ Err FetchFault.TooLong }
{
    let mut bytes = Vec::new(alloc);
    let mut chunk = [0; CHUNK];
    for _call in 0..u64::MAX {
        let wanted = CHUNK.min(limit - bytes.len());
        if wanted == 0 {
            return Ok(bytes);
        }
        match source.read_once(&mut chunk[..wanted]) {
            Ok(0) => return Ok(bytes),
            Ok(count) => bytes.extend_from_slice(&chunk[..count])?,
            Err(error) => {
                if !is_interrupted(&error) {
                    return Err(FetchFault::Failed);
                }
            }
        }
    }
    Err(FetchFault::Failed)
}

#[cfg(test)]
mod tests {
    use super::*;
    use std::io::{ErrorKind, Read};
    use std::test::Fail;
    use std::{env, fs, io, process};

    // A source that gives its bytes three at a time, and stops to be called again before the call with this number.
    #[derive(Drop)]
    struct Trickle<'a> {
        rest: &'a [u8],
        calls: u8,
        fails_at: u8,
    }

    impl Read for Trickle<'_> {
        fn read(&mut self, buf: &mut [u8]) -> io::Result<usize> {
            self.calls = self.calls.saturating_add(1);
            if self.calls == 2 {
                return Err(io::Error::from(ErrorKind::Interrupted));
            }
            if self.calls == self.fails_at {
                return Err(io::Error::from(ErrorKind::Other));
            }
            let count = self.rest.len().min(buf.len()).min(3);
            buf[..count].copy_from_slice(&self.rest[..count]);
            self.rest = &self.rest[count..];
            Ok(count)
        }
    }

    // Files that are all alike, but for the name "gone", which can't be opened.
    #[derive(Drop)]
    struct Drawer<'a> {
        bytes: &'a [u8],
        fails_at: u8,
    }

    impl<'a> Opener for Drawer<'a> {
        type File = Trickle<'a>;

        ghost may_open = { λ _ _ _. Unit {0} };

        fn open(&self, name: &str) -> io::Result<Trickle<'a>> {
            if name == "gone" {
                return Err(io::Error::from(ErrorKind::NotFound));
            }
            Ok(Trickle {
                rest: self.bytes,
                calls: 0,
                fails_at: self.fails_at,
            })
        }
    }

    #[test]
    fn a_source_is_read_to_its_end_or_the_limit(rt: HostRuntime) -> Result<(), Fail> {
        let alloc = rt.alloc();
        // The call that fails, the limit, and the bytes that are read of "abcdefgh".
        let rows = [
            (0, 20, Ok("abcdefgh")),
            (0, 8, Ok("abcdefgh")),
            (0, 7, Ok("abcdefg")),
            (0, 0, Ok("")),
            (1, 8, Err(FetchFault::Failed)),
            (4, 8, Err(FetchFault::Failed)),
            (4, 6, Ok("abcdef")),
        ];
        for (fails_at, limit, want) in rows {
            let mut source = Trickle {
                rest: b"abcdefgh",
                calls: 0,
                fails_at,
            };
            match (read_up_to(&mut source, alloc, limit), want) {
                (Ok(bytes), Ok(text)) => assert_eq!(rt;
                    bytes.as_slice(),
                    text.as_bytes(),
                    "{limit}"
                ),
                (Err(fault), Err(expected)) => assert_eq!(rt; fault, expected, "{limit}"),
                _ => panic!(rt; "another kind of answer at {limit}, {fails_at}"),
            }
        }
        Ok(())
    }

    #[test]
    fn a_fault_of_a_file_is_counted(rt: HostRuntime) -> Result<(), Fail> {
        let alloc = rt.alloc();
        // The name, the call that fails, the most bytes, what is fetched of "abcdefgh", and the two counts.
        let rows = [
            ("here", 0, 8, Ok("abcdefgh"), (0, 0)),
            ("here", 0, 7, Err(FetchFault::TooLong), (0, 1)),
            ("here", 4, 8, Err(FetchFault::Failed), (1, 0)),
            ("here", 5, 8, Err(FetchFault::Failed), (1, 0)),
            ("gone", 0, 8, Err(FetchFault::Failed), (1, 0)),
        ];
        for (name, fails_at, most, want, counts) in rows {
            let mut shelf = FileShelf::new(Drawer {
                bytes: b"abcdefgh",
                fails_at,
            });
            match (shelf.fetch(alloc, name, most), want) {
                (Ok(bytes), Ok(text)) => assert_eq!(rt;
                    bytes.as_slice(),
                    text.as_bytes(),
                    "{most}"
                ),
                (Err(fault), Err(expected)) => assert_eq!(rt; fault, expected, "{most}"),
                _ => panic!(rt; "another kind of answer at {most}, {fails_at}"),
            }
            assert_eq!(rt; (shelf.faults, shelf.long_files), counts, "{most}");
        }
        Ok(())
    }

    #[test]
    fn a_file_is_fetched_up_to_its_length(rt: HostRuntime) -> Result<(), Fail> {
        let alloc = rt.alloc();
        let folder = env::temp_dir(&rt)?;
        let name = format!(in alloc;
            "{}/edge_io_fetched_{}",
            folder.display(),
            process::id(rt.process())
        )?;
        let bytes = vec![in alloc; b'x'; 20_000]?;
        fs::write(&rt, &name, bytes.as_slice())?;
        let mut shelf = FileShelf::new(rt);
        let whole = shelf.fetch(alloc, &name, 20_000)?;
        assert_eq!(rt; whole.as_slice(), bytes.as_slice());
        assert_eq!(rt; (shelf.faults, shelf.long_files), (0, 0));
        assert_eq!(rt;
            shelf.fetch(alloc, &name, 19_999).err(),
            Some(FetchFault::TooLong)
        );
        assert_eq!(rt; (shelf.faults, shelf.long_files), (0, 1));
        fs::remove_file(&rt, &name)?;
        assert_eq!(rt;
            shelf.fetch(alloc, &name, 20_000).err(),
            Some(FetchFault::Failed)
        );
        assert_eq!(rt; (shelf.faults, shelf.long_files), (1, 1));
        Ok(())
    }
}
