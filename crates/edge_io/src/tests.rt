//! Tests of shelves and sinks by their traits, and of the answers of those in memory.
ghost use Rattle.std.specs.Prelude.{◌≡◌, ◌⊎◌, ◌+◌, ◌≤◌, ◌++◌, ℕ, IsTrue, [], IsSome, IfSome, IsOk, IsErrOf, OnOk, OnErr, None, length};
ghost use Rattle.edge_io.specs.Count.{Rose};
ghost use Rattle.edge_io.specs.Contents.{Lacks, HoldsMoreThan};
ghost use Rattle.edge_io.specs.Files.{bytes_under};
ghost use Rattle.edge_io.specs.Written.{Gains, GainsFront};
ghost use Rattle.edge_io.specs.MemoryShelf as shelf_of;
ghost use Rattle.edge_io.specs.MemorySink as sink_of;

use super::*;
use std::alloc::{AllocError, Global};
use std::test::Fail;
use std::{env, fs, process};

#[derive(Clone, Copy, Debug, PartialEq, Eq)]
enum Outcome {
    Done,
    Unreadable,
    Unwritable,
    TooLong,
    NoMemory,
}

// Puts the file with this name, of at most four bytes, to a sink. Shelf and sink are known by their traits alone.
fn copy_file<F: Shelf, O: Sink>(alloc: Global, name: &str, shelf: &mut F, out: &mut O) -> Outcome
    ensures done { result ≡ Outcome.Done → IfSome (F.contents shelf.old)
        (λ under. IfSome (under name.now) (Gains (O.written out.old) (O.written out.new))) }
    ensures unreadable { result ≡ Outcome.Unreadable
        → Rose (F.faults shelf.old) (F.faults shelf.new) ⊎ Lacks (F.contents shelf.old) name.now }
    ensures unwritable { result ≡ Outcome.Unwritable → Rose (O.faults out.old) (O.faults out.new) }
    ensures front { result ≡ Outcome.Unwritable → IfSome (F.contents shelf.old)
        (λ under. IfSome (under name.now) (GainsFront (O.written out.old) (O.written out.new))) }
    ensures too_long { result ≡ Outcome.TooLong → Rose (F.long_files shelf.old) (F.long_files shelf.new) }
    ensures longer { result ≡ Outcome.TooLong → IsSome (F.contents shelf.old)
        → HoldsMoreThan (F.contents shelf.old) name.now 4 }
    ensures comes { HoldsMoreThan (F.contents shelf.old) name.now 4 → (result ≡ Outcome.TooLong)
        ⊎ (result ≡ Outcome.Unreadable) ⊎ (result ≡ Outcome.NoMemory) }
    ensures left { result ≡ Outcome.TooLong → O.written out.new ≡ O.written out.old }
{
    match shelf.fetch(alloc, name, 4) {
        Ok(bytes) => match out.put(&bytes) {
            Ok(()) => Outcome::Done,
            Err(PutFailed) => Outcome::Unwritable,
        },
        Err(FetchFault::Failed) => Outcome::Unreadable,
        Err(FetchFault::TooLong) => Outcome::TooLong,
        Err(FetchFault::NoMemory) => Outcome::NoMemory,
    }
}

// A shelf in memory without failing numbers has no fault, and says `Failed` only of a name that isn't there.
fn fetch_faultless(
    alloc: Global,
    shelf: &mut MemoryShelf,
    name: &str,
) -> Result<Vec<u8>, FetchFault>
    requires { shelf_of.failing_of shelf.old ≡ [] }
    ensures faults { shelf_of.faults_of shelf.new ≡ shelf_of.faults_of shelf.old }
    ensures missing { IsErrOf result FetchFault.Failed → bytes_under (shelf_of.files_of shelf.old) name.now ≡ None }
    ensures again { shelf_of.failing_of shelf.new ≡ [] }
{
    shelf.fetch(alloc, name, 4)
}

// A sink in memory without failing numbers takes each piece for which there is room.
fn put_faultless(sink: &mut MemorySink, piece: &[u8]) -> Result<(), PutFailed>
    requires failing { sink_of.failing_of sink.old ≡ [] }
    requires room { length (sink_of.bytes_of sink.old) + length piece.now ≤ sink_of.room_of sink.old }
    ensures ok { IsOk result }
    ensures faults { sink_of.faults_of sink.new ≡ sink_of.faults_of sink.old }
    ensures again { sink_of.failing_of sink.new ≡ [] }
{
    sink.put(piece)
}

// Files of these names and bytes.
fn files(alloc: Global, pairs: &[(&str, &str)]) -> Result<Vec<(Text, Text)>, AllocError> {
    let mut files = Vec::new(alloc);
    for (name, bytes) in pairs {
        let name = Text::from_slice(alloc, name.as_bytes())?;
        let bytes = Text::from_slice(alloc, bytes.as_bytes())?;
        files.push((name, bytes))?;
    }
    Ok(files)
}

#[test]
fn a_text_keeps_its_bytes_in_order(rt: HostRuntime) -> Result<(), Fail> {
    let alloc = rt.alloc();
    let mut text = Text::new(alloc);
    assert_eq!(rt; text.bytes(), b"".as_slice());
    text.append(b"int ")?;
    text.append(b"a;\n")?;
    let copy = text.copy(alloc)?;
    text.append(b"\0")?;
    assert_eq!(rt; copy.bytes(), b"int a;\n".as_slice());
    assert_eq!(rt; text.bytes(), b"int a;\n\0".as_slice());
    Ok(())
}

#[test]
fn a_shelf_in_memory_fails_where_it_is_told_to(rt: HostRuntime) -> Result<(), Fail> {
    let alloc = rt.alloc();
    let pairs = [
        ("two.c", "abcd"),
        ("long.c", "abcde"),
        ("two.c", "x"),
        ("empty.c", ""),
    ];
    let mut shelf = MemoryShelf::new(files(alloc, &pairs)?, vec![in alloc; 5, 1]?);
    // One fetch a row, of at most four bytes.
    let rows = [
        ("two.c", Ok("abcd")),
        ("two.c", Err(FetchFault::Failed)),
        ("no.c", Err(FetchFault::Failed)),
        ("long.c", Err(FetchFault::TooLong)),
        ("empty.c", Ok("")),
        ("long.c", Err(FetchFault::Failed)),
        ("two", Err(FetchFault::Failed)),
        ("two.c", Ok("abcd")),
    ];
    for (name, want) in rows {
        match (shelf.fetch(alloc, name, 4), want) {
            (Ok(bytes), Ok(text)) => assert_eq!(rt; bytes.as_slice(), text.as_bytes(), "{name}"),
            (Err(fault), Err(expected)) => assert_eq!(rt; fault, expected, "{name}"),
            _ => panic!(rt; "another kind of answer for {name}"),
        }
    }
    Ok(())
}

#[test]
fn a_sink_in_memory_fails_where_it_is_told_to(rt: HostRuntime) -> Result<(), Fail> {
    let alloc = rt.alloc();
    let failing = vec![in alloc; (1, 2), (3, 99), (1, 0), (4, 0), (6, 1)]?;
    let mut sink = MemorySink::new(alloc, 12, failing)?;
    // One put a row, whether it is taken, and what is written then.
    let rows = [
        ("ab", true, "ab"),
        ("cde", false, "abcd"),
        ("", true, "abcd"),
        ("xyz", false, "abcdxyz"),
        ("gh", false, "abcdxyz"),
        ("123456", false, "abcdxyz"),
        ("123456", false, "abcdxyz"),
        ("12345", true, "abcdxyz12345"),
        ("6", false, "abcdxyz12345"),
        ("", true, "abcdxyz12345"),
    ];
    for (piece, taken, written) in rows {
        let outcome = sink.put(piece.as_bytes());
        assert_eq!(rt; outcome.is_ok(), taken, "{piece}");
        assert_eq!(rt; sink.bytes(), written.as_bytes(), "{piece}");
    }
    Ok(())
}

#[test]
fn a_file_is_copied_in_memory(rt: HostRuntime) -> Result<(), Fail> {
    let alloc = rt.alloc();
    let pairs = [("two.c", "abcd"), ("long.c", "abcde")];
    // Names, failing fetches, the bytes that put 0 takes before it fails, what comes of it and what is written.
    let rows = [
        ("two.c", None, None, Outcome::Done, "abcd"),
        ("no.c", None, None, Outcome::Unreadable, ""),
        ("two.c", Some(0), None, Outcome::Unreadable, ""),
        ("two.c", Some(1), None, Outcome::Done, "abcd"),
        ("long.c", None, None, Outcome::TooLong, ""),
        ("two.c", None, Some(3), Outcome::Unwritable, "abc"),
    ];
    for (name, failing, cut, outcome, written) in rows {
        let mut fetches = Vec::new(alloc);
        if let Some(number) = failing {
            fetches.push(number)?;
        }
        let mut puts = Vec::new(alloc);
        if let Some(bytes) = cut {
            puts.push((0, bytes))?;
        }
        let mut shelf = MemoryShelf::new(files(alloc, &pairs)?, fetches);
        let mut out = MemorySink::new(alloc, 8, puts)?;
        assert_eq!(rt;
            copy_file(alloc, name, &mut shelf, &mut out),
            outcome,
            "{name}"
        );
        assert_eq!(rt; out.bytes(), written.as_bytes(), "{name}");
    }
    Ok(())
}

#[test]
fn without_failing_numbers_no_fault_comes(rt: HostRuntime) -> Result<(), Fail> {
    let alloc = rt.alloc();
    let mut shelf = MemoryShelf::new(files(alloc, &[("two.c", "abcd")])?, Vec::new(alloc));
    let mut sink = MemorySink::new(alloc, 8, Vec::new(alloc))?;
    let bytes = fetch_faultless(alloc, &mut shelf, "two.c")?;
    put_faultless(&mut sink, b"> ")?;
    put_both(&mut sink, &bytes, b"\n")?;
    assert!(rt; fails_at_one(alloc, &mut shelf, "two.c", "no.c"));
    assert_eq!(rt; sink.bytes(), b"> abcd\n".as_slice());
    Ok(())
}

#[test]
fn a_file_is_copied_by_the_system(rt: HostRuntime) -> Result<(), Fail> {
    let alloc = rt.alloc();
    let folder = env::temp_dir(&rt)?;
    let name = format!(in alloc;
        "{}/edge_io_{}",
        folder.display(),
        process::id(rt.process())
    )?;
    let mut shelf = FileShelf::new(rt);
    let mut out = StreamSink::out(rt.stdout());
    let mut err = StreamSink::err(rt.stderr());
    fs::write(&rt, &name, "abcd")?;
    assert_eq!(rt;
        copy_file(alloc, &name, &mut shelf, &mut out),
        Outcome::Done
    );
    fs::write(&rt, &name, "abcde")?;
    assert_eq!(rt;
        copy_file(alloc, &name, &mut shelf, &mut err),
        Outcome::TooLong
    );
    fs::remove_file(&rt, &name)?;
    assert_eq!(rt;
        copy_file(alloc, &name, &mut shelf, &mut err),
        Outcome::Unreadable
    );
    Ok(())
}

// Whether one of two fetches fails.
fn fails_at_one<F: Shelf>(alloc: Global, shelf: &mut F, first: &str, second: &str) -> bool
    ensures failed { IsTrue result → Rose (F.faults shelf.old) (F.faults shelf.new)
        ⊎ Lacks (F.contents shelf.old) first.now ⊎ Lacks (F.contents shelf.old) second.now }
    ensures missing { F.never_fails shelf.old → IsTrue result
        → Lacks (F.contents shelf.old) first.now ⊎ Lacks (F.contents shelf.old) second.now }
    ensures never_fails { F.never_fails shelf.old → F.never_fails shelf.new }
{
    match shelf.fetch(alloc, first, 4) {
        Err(FetchFault::Failed) => {
            let _ = shelf.fetch(alloc, second, 4);
            true
        }
        _ => matches!(shelf.fetch(alloc, second, 4), Err(FetchFault::Failed)),
    }
}

// Puts two pieces.
#[tactic(auto, using(crate::proofs::Pieces::two_pieces))]
fn put_both<O: Sink>(out: &mut O, first: &[u8], second: &[u8]) -> Result<(), PutFailed>
    ensures ok { OnOk result (Gains (O.written out.old) (O.written out.new) (first.now ++ second.now)) }
    ensures err { OnErr result (Rose (O.faults out.old) (O.faults out.new)) }
    ensures front { OnErr result (GainsFront (O.written out.old) (O.written out.new) (first.now ++ second.now)) }
    ensures taken { (more : ℕ) → O.takes out.old (length first.now + (length second.now + more)) → IsOk result }
    ensures takes { (more : ℕ) → O.takes out.old (length first.now + (length second.now + more)) → O.takes out.new more }
{
    out.put(first)?;
    out.put(second)?;
    Ok(())
}
