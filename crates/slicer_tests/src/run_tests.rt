//! Runs of the top call over files and sinks in memory.
ghost use Rattle.std.specs.Prelude.{◌≡◌, ◌⊎◌, ◌≤◌, List, [], IfOk, None, Some, length};
ghost use Rattle.c_language.specs.Words.{Bytes};
ghost use Rattle.call_words.specs.Grammar.{IsInGrammar};
ghost use Rattle.call_words.specs.Requests.{asked_of, file_of, input_of};
ghost use Rattle.slicer_top.specs.Slices.{StartsSome, AreWritten, joined};

use crate::programs::TWO;
use crate::running::{NONE_FAILING, USAGE, file, is_end, run, split_words};
use edge_io::{MemoryShelf, MemorySink};
use slicer_top::{OpenGate, Status, Text, run_slicer};
use std::alloc::{AllocError, Global};
use std::process::Abort;
use std::test::Fail;
use std::thread::Threads;

const TWO_AT_7: &str = r#"/* slice 7: 6 */
#include <stdio.h>
int main(void) {
    int a = 1;
    a = a + 3;
    printf("%d\n", a);
}
"#;

const TWO_AT_4: &str = r#"/* slice 4: 4 */
#include <stdio.h>
int main(void) {
    int b = 2;
}
"#;

const MAX_FILE_BYTES: usize = 1_048_576;

// Over one file, no input and sinks in memory without failing numbers, with room for what is asked and for `out of memory`:
// that is written, or memory was wanting.
fn run_without_failing<R: Threads + Sync>(
    rt: &R,
    alloc: Global,
    words: &[Text],
    name: Text,
    text: Text,
    room: usize,
) -> Result<Status, AllocError>
    ensures { IfOk result (λ status. IsInGrammar words.now → file_of words.now ≡ Some name → input_of (asked_of words.now) ≡ None
        → length text ≤ 1048576 → StartsSome text (asked_of words.now) []
        → ((texts : List Bytes) → AreWritten text (asked_of words.now) [] texts → length (joined texts) ≤ room)
        → (status ≡ Status.Done) ⊎ (status ≡ Status.NoMemory)) }
{
    let mut files = Vec::new(alloc);
    files.push((name, text))?;
    let mut shelf = MemoryShelf::new(files, Vec::new(alloc));
    let mut out = MemorySink::new(alloc, room, Vec::new(alloc))?;
    let mut err = MemorySink::new(alloc, 14, Vec::new(alloc))?;
    let status = run_slicer(rt, alloc, words, &mut shelf, &mut out, &mut err, &OpenGate);
    Ok(status)
}

// These words over `two.c` end so: the status, and what out and err have gained.
fn ends_on_two<R: Abort + AllocGlobal + Threads + Sync>(
    rt: &R,
    line: &str,
    wanted: (Status, &str, &str),
) -> Result<(), Fail> {
    let alloc = rt.alloc();
    let words = split_words(alloc, line)?;
    let ended = run(rt, &words, file(alloc, "two.c", TWO)?, &NONE_FAILING)?;
    is_end(rt, &ended, wanted, line)
}

#[test]
fn a_file_that_is_not_there_is_told(rt: HostRuntime) -> Result<(), Fail> {
    // The words, and the line on err.
    let rows = [
        ("slice no.c 1", "cannot read no.c\n"),
        ("slice two.c/ 7", "cannot read two.c/\n"),
        ("graph no.c", "cannot read no.c\n"),
        ("members no.c 7", "cannot read no.c\n"),
    ];
    for (line, err) in rows {
        ends_on_two(&rt, line, (Status::ReadFault, "", err))?;
    }
    Ok(())
}

#[test]
fn without_failing_numbers_no_fault_comes(rt: HostRuntime) -> Result<(), Fail> {
    let alloc = rt.alloc();
    // The words, the room, and the status.
    let rows = [
        ("slice two.c 7", TWO_AT_7.len(), Status::Done),
        ("slice two.c 4", TWO_AT_4.len(), Status::Done),
        ("slice two.c 4", TWO_AT_7.len(), Status::Done),
        ("slice two.c 7", TWO_AT_7.len() - 1, Status::WriteFault),
    ];
    for (line, room, status) in rows {
        let words = split_words(alloc, line)?;
        let name = Text::from_slice(alloc, b"two.c")?;
        let text = Text::from_slice(alloc, TWO.as_bytes())?;
        let ended = run_without_failing(&rt, alloc, &words, name, text, room)?;
        assert_eq!(rt; ended, status, "{line}");
    }
    Ok(())
}

#[test]
fn other_words_are_told_the_usage(rt: HostRuntime) -> Result<(), Fail> {
    let rows = [
        "",
        "slice",
        "slice two.c",
        "slice two.c x",
        "slice two.c 7x",
        "slice two.c -7",
        "slice two.c +7",
        "slice two.c 00000000007",
        "slice two.c ",
        "slice  7",
        "slice -two.c 7",
        "slice - 7",
        "Slice two.c 7",
        "slices two.c 7",
        "run two.c",
        "run two.c --input",
        "run two.c 7 --input two.c",
        "trace two.c --input two.c",
        "trace two.c 7",
        "graph",
        "graph two.c 7",
        "graph two.c two.c",
        "graph two.c --lines 7",
        "graph two.c --workers 0",
        "members two.c",
        "members two.c 7 7",
        "members two.c x",
        "members 7 two.c",
        "graphs two.c",
        "two.c 7",
        "--help",
        "help",
    ];
    for line in rows {
        ends_on_two(&rt, line, (Status::Usage, "", USAGE))?;
    }
    Ok(())
}

#[test]
fn a_name_is_utf8(rt: HostRuntime) -> Result<(), Fail> {
    let alloc = rt.alloc();
    // The bytes of the name, and whether they are a name.
    let rows: [(&[u8], bool); 4] = [
        (b"\xc3\xa9.c", true),
        (b"\xc3", false),
        (b"a\xff.c", false),
        (b" ", true),
    ];
    for (name, is_name) in rows {
        let mut words = split_words(alloc, "slice")?;
        words.push(Text::from_slice(alloc, name)?)?;
        words.push(Text::from_slice(alloc, b"7")?)?;
        let ended = run(&rt, &words, file(alloc, "two.c", TWO)?, &NONE_FAILING)?;
        let status = if is_name {
            Status::ReadFault
        } else {
            Status::Usage
        };
        assert_eq!(rt; ended.status, status, "{name:?}");
    }
    Ok(())
}

#[test]
fn a_long_file_is_told(rt: HostRuntime) -> Result<(), Fail> {
    let alloc = rt.alloc();
    // The length of a.c, the status and what err has gained.
    let rows = [
        (
            MAX_FILE_BYTES + 1,
            Status::TooLong,
            "a.c is longer than 1048576 bytes\n",
        ),
        (MAX_FILE_BYTES, Status::Refused, "1: syntax\n"),
        (0, Status::Refused, "1: rule 5\n"),
    ];
    for (length, status, err) in rows {
        let bytes = vec![in alloc; b'x'; length]?;
        let mut files = Vec::new(alloc);
        files.push((
            Text::from_slice(alloc, b"a.c")?,
            Text::from_slice(alloc, bytes.as_slice())?,
        ))?;
        let words = split_words(alloc, "slice a.c 7")?;
        let ended = run(&rt, &words, files, &NONE_FAILING)?;
        is_end(&rt, &ended, (status, "", err), "slice a.c 7")?;
    }
    Ok(())
}

#[test]
fn each_status_has_its_code(rt: HostRuntime) {
    let rows = [
        (Status::Done, 0),
        (Status::Refused, 1),
        (Status::Usage, 2),
        (Status::ReadFault, 3),
        (Status::WriteFault, 4),
        (Status::NoMemory, 5),
        (Status::Undefined, 6),
        (Status::Steps, 7),
        (Status::Limit, 8),
        (Status::TooLong, 9),
    ];
    for (status, code) in rows {
        assert_eq!(rt; status.code(), code, "{status:?}");
    }
}
