//! Calls over files that can't be read, and over sinks that fail or have no room.
use crate::programs::TWO;
use crate::running::{Failing, NONE_FAILING, USAGE, file, is_end, run, split_words};
use slicer_top::{Status, Text};
use std::process::Abort;
use std::test::Fail;
use std::thread::Threads;

const TWO_AT_7: &str = r#"/* slice 7: 6 */
#include <stdio.h>
int main(void) {
    int a = 1;
    a = a + 3;
    printf("%d\n", a);
}
"#;

// The text of line 7, and twelve bytes of that of line 4.
const AT_7_AND_TWELVE: &str = r#"/* slice 7: 6 */
#include <stdio.h>
int main(void) {
    int a = 1;
    a = a + 3;
    printf("%d\n", a);
}
/* slice 4: "#;

// These words over `two.c` and an empty file `none` end so: the status, and what out and err have gained.
fn ends_where<R: Abort + AllocGlobal + Threads + Sync>(
    rt: &R,
    line: &str,
    failing: &Failing<'_>,
    wanted: (Status, &str, &str),
) -> Result<(), Fail> {
    let alloc = rt.alloc();
    let mut files = file(alloc, "two.c", TWO)?;
    files.push((Text::from_slice(alloc, b"none")?, Text::new(alloc)))?;
    let words = split_words(alloc, line)?;
    let ended = run(rt, &words, files, failing)?;
    is_end(rt, &ended, wanted, line)
}

#[test]
fn a_fault_leaves_the_line_that_was_due(rt: HostRuntime) -> Result<(), Fail> {
    let out_at_5 = Failing {
        out: &[(0, 5)],
        ..NONE_FAILING
    };
    // The words, what fails, the status, and what out and err have gained.
    let rows = [
        (
            "run two.c --input none",
            Failing {
                fetches: &[1],
                ..NONE_FAILING
            },
            (Status::ReadFault, "", "cannot read none\n"),
        ),
        (
            "slice two.c 7",
            Failing {
                out: &[(0, 0)],
                ..NONE_FAILING
            },
            (Status::WriteFault, "", "cannot write\n"),
        ),
        (
            "slice two.c 7 4",
            Failing {
                out: &[(1, 12)],
                ..NONE_FAILING
            },
            (Status::WriteFault, AT_7_AND_TWELVE, "cannot write\n"),
        ),
        (
            "slice two.c 4",
            Failing {
                room: 20,
                ..NONE_FAILING
            },
            (Status::WriteFault, "", "cannot write\n"),
        ),
        (
            "slice two.c 2",
            Failing {
                err: &[(0, 3)],
                ..NONE_FAILING
            },
            (Status::WriteFault, "", "2: "),
        ),
        (
            "",
            Failing {
                err: &[(0, 999)],
                ..NONE_FAILING
            },
            (Status::WriteFault, "", USAGE),
        ),
        (
            "slice two.c 7",
            Failing {
                out: &[(0, 10)],
                err: &[(0, 2)],
                ..NONE_FAILING
            },
            (Status::WriteFault, "/* slice 7", "ca"),
        ),
        (
            "graph two.c",
            out_at_5,
            (Status::WriteFault, "0 mai", "cannot write\n"),
        ),
        (
            "members two.c 7",
            out_at_5,
            (Status::WriteFault, "0 mai", "cannot write\n"),
        ),
        (
            "forward two.c 3",
            out_at_5,
            (Status::WriteFault, "1 mai", "cannot write\n"),
        ),
        (
            "chop two.c 3 7",
            out_at_5,
            (Status::WriteFault, "1 mai", "cannot write\n"),
        ),
        (
            "big 1 1",
            out_at_5,
            (Status::WriteFault, "funct", "cannot write\n"),
        ),
        (
            "trace two.c 7 --input none",
            out_at_5,
            (Status::WriteFault, "1: 4\n", "cannot write\n"),
        ),
    ];
    for (line, failing, wanted) in rows {
        ends_where(&rt, line, &failing, wanted)?;
    }
    Ok(())
}

#[test]
fn a_fault_of_the_files_is_told(rt: HostRuntime) -> Result<(), Fail> {
    // The words, the number of the fetch that fails, and the end.
    let rows = [
        (
            "slice two.c 7",
            [0],
            (Status::ReadFault, "", "cannot read two.c\n"),
        ),
        ("slice two.c 7", [1], (Status::Done, TWO_AT_7, "")),
        (
            "run two.c --input none",
            [0],
            (Status::ReadFault, "", "cannot read two.c\n"),
        ),
        ("run --input=none two.c", [2], (Status::Done, "4\n6\n", "")),
        (
            "trace two.c 7 --input=none",
            [1],
            (Status::ReadFault, "", "cannot read none\n"),
        ),
    ];
    for (line, fails, wanted) in rows {
        let failing = Failing {
            fetches: &fails,
            ..NONE_FAILING
        };
        ends_where(&rt, line, &failing, wanted)?;
    }
    Ok(())
}

#[test]
fn a_fault_of_out_is_told(rt: HostRuntime) -> Result<(), Fail> {
    // The words, the put that fails by its number, with the bytes that it takes before, and what out has gained.
    let rows = [
        ("slice two.c 7", [(0, 10)], "/* slice 7"),
        ("slice two.c 7 4 --workers 4", [(0, 10)], "/* slice 7"),
        ("slice two.c 7 4 --workers 4", [(0, 0)], ""),
        ("slice two.c 7 4 --workers 4", [(1, 0)], TWO_AT_7),
        ("slice two.c 7 4 --workers 4", [(1, 12)], AT_7_AND_TWELVE),
    ];
    for (line, fails, out) in rows {
        let failing = Failing {
            out: &fails,
            ..NONE_FAILING
        };
        ends_where(
            &rt,
            line,
            &failing,
            (Status::WriteFault, out, "cannot write\n"),
        )?;
    }
    Ok(())
}

#[test]
fn a_fault_of_err_is_told(rt: HostRuntime) -> Result<(), Fail> {
    // The words, the put on err that fails and how much it takes before, and the end.
    let rows = [
        ("slice two.c 7", [(0, 0)], (Status::Done, TWO_AT_7, "")),
        ("slice two.c", [(0, 0)], (Status::WriteFault, "", "")),
        (
            "slice no.c 7",
            [(0, 99)],
            (Status::WriteFault, "", "cannot read no.c\n"),
        ),
    ];
    for (line, fails, wanted) in rows {
        let failing = Failing {
            err: &fails,
            ..NONE_FAILING
        };
        ends_where(&rt, line, &failing, wanted)?;
    }
    Ok(())
}
