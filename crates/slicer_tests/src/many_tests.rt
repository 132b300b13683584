//! Calls with several lines and with options.
use crate::programs::TWO;
use crate::running::{Failing, NONE_FAILING, USAGE, ends, file, is_end, run, split_words};
use slicer_top::{Status, Text};
use std::process::Abort;
use std::test::Fail;
use std::thread::Threads;

pub(crate) const AT_7: &str = r#"/* slice 7: 6 */
#include <stdio.h>
int main(void) {
    int a = 1;
    a = a + 3;
    printf("%d\n", a);
}
"#;

pub(crate) const AT_4: &str = r#"/* slice 4: 4 */
#include <stdio.h>
int main(void) {
    int b = 2;
}
"#;

const LOOPS: &str = r#"#include <stdio.h>
int main(void) {
    int s = 0;
    int j = 0;
    do {
        s = s + 1;
    } while (0);
    for (s = 0; j < 2; j++) {
        putchar('a' + j);
        s = s + j;
    }
    printf("%d\n", s);
}
"#;

pub(crate) const LOOPS_AT_5_9_12: &str = r#"/* slice 5: 4 */
#include <stdio.h>
int main(void) {
    do {
    } while (0);
}
/* slice 9: 6 */
#include <stdio.h>
int main(void) {
    int j = 0;
    for (; j < 2; j++) {
        putchar('a' + j);
    }
}
/* slice 12: 9 */
#include <stdio.h>
int main(void) {
    int s;
    int j = 0;
    for (s = 0; j < 2; j++) {
        s = s + j;
    }
    printf("%d\n", s);
}
"#;

#[test]
fn the_slices_stand_in_the_order_of_the_words(rt: HostRuntime) -> Result<(), Fail> {
    ends(
        &rt,
        LOOPS,
        "slice t.c 5 9 12",
        (Status::Done, LOOPS_AT_5_9_12, ""),
    )?;
    // The words, and the lines whose slices are written.
    let rows = [
        ("slice t.c 7 4", [AT_7, AT_4]),
        ("slice t.c 4 7", [AT_4, AT_7]),
        ("slice t.c 4 4", [AT_4, AT_4]),
        ("slice --workers 2 t.c 7 4", [AT_7, AT_4]),
        ("slice t.c --workers=16 7 4", [AT_7, AT_4]),
        ("slice t.c 7 --workers 2 4", [AT_7, AT_4]),
        ("slice t.c 7 4 --workers=0001", [AT_7, AT_4]),
    ];
    for (line, texts) in rows {
        let mut out = String::new(rt.alloc());
        for text in texts {
            out.push_str(text)?;
        }
        ends(&rt, TWO, line, (Status::Done, out.as_str(), ""))?;
    }
    Ok(())
}

#[test]
fn words_outside_the_grammar_get_the_usage(rt: HostRuntime) -> Result<(), Fail> {
    let rows = [
        "slice --workers 2 --workers 3 t.c 7",
        "slice --workers 2 t.c 7 --workers=2",
        "slice t.c 7 --workers",
        "slice t.c 7 --workers=",
        "slice t.c --workers two 7",
        "slice t.c --workers 0 7",
        "slice t.c --workers=17 7",
        "slice t.c --workers -- 7",
        "slice t.c --steps 5 7",
        "slice -- t.c 7",
        "slice t.c 7 --",
        "slice --help",
        "--help",
        "help",
        "help slice",
        "slice -h",
        "slice t.c",
        "slice 7",
        "slice t.c 7 x",
        "slice t.c 7 -4",
        "print t.c",
        "big 1 0",
    ];
    for line in rows {
        ends(&rt, TWO, line, (Status::Usage, "", USAGE))?;
    }
    Ok(())
}

#[test]
fn a_file_may_be_named_like_a_word_of_a_call(rt: HostRuntime) -> Result<(), Fail> {
    // The name of the file, and the words.
    let rows = [
        ("help", "slice help 7"),
        ("slice", "slice slice 7"),
        ("7", "slice 7 7"),
        ("a=b", "slice a=b 7"),
    ];
    let alloc = rt.alloc();
    for (name, line) in rows {
        let words = split_words(alloc, line)?;
        let ended = run(&rt, &words, file(alloc, name, TWO)?, &NONE_FAILING)?;
        is_end(&rt, &ended, (Status::Done, AT_7, ""), line)?;
    }
    Ok(())
}

#[test]
fn the_first_line_without_a_statement_is_told(rt: HostRuntime) -> Result<(), Fail> {
    // The words, and the line on err.
    let rows = [
        ("slice t.c 7 2", "2: no statement starts here\n"),
        ("slice t.c 2 99", "2: no statement starts here\n"),
        ("slice t.c 7 099 2", "99: no statement starts here\n"),
        (
            "slice t.c 4294967303 2",
            "4294967303: no statement starts here\n",
        ),
    ];
    for (line, err) in rows {
        ends(&rt, TWO, line, (Status::Refused, "", err))?;
    }
    Ok(())
}

// These words over `t.c` end so, where out takes 8,192 bytes: the status, and what out and err have gained.
fn ends_in_room<R: Abort + AllocGlobal + Threads + Sync>(
    rt: &R,
    line: &str,
    wanted: (Status, &str, &str),
) -> Result<(), Fail> {
    let alloc = rt.alloc();
    let roomy = Failing {
        room: 8192,
        ..NONE_FAILING
    };
    let words = split_words(alloc, line)?;
    let ended = run(rt, &words, file(alloc, "t.c", TWO)?, &roomy)?;
    is_end(rt, &ended, wanted, line)
}

#[test]
fn sixty_four_lines_are_sliced_and_one_more_is_refused(rt: HostRuntime) -> Result<(), Fail> {
    let alloc = rt.alloc();
    let mut line = String::from_str(alloc, "slice t.c")?;
    let mut out = String::new(alloc);
    for _i in 0..64 {
        line.push_str(" 4")?;
        out.push_str(AT_4)?;
    }
    ends_in_room(&rt, line.as_str(), (Status::Done, out.as_str(), ""))?;
    let mut by_sixteen = String::from_str(alloc, line.as_str())?;
    by_sixteen.push_str(" --workers 16")?;
    ends_in_room(&rt, by_sixteen.as_str(), (Status::Done, out.as_str(), ""))?;
    // The limit is asked before the lines.
    for more in [" 4", " 2"] {
        let mut words = String::from_str(alloc, line.as_str())?;
        words.push_str(more)?;
        ends_in_room(
            &rt,
            words.as_str(),
            (Status::Limit, "", "limit: criteria\n"),
        )?;
    }
    Ok(())
}

#[test]
fn a_word_that_is_not_utf8_is_outside_the_grammar(rt: HostRuntime) -> Result<(), Fail> {
    let alloc = rt.alloc();
    let mut words = split_words(alloc, "slice two.c 7")?;
    words.push(Text::from_slice(alloc, &[0xff])?)?;
    let ended = run(&rt, &words, file(alloc, "two.c", TWO)?, &NONE_FAILING)?;
    is_end(
        &rt,
        &ended,
        (Status::Usage, "", USAGE),
        "a word of one byte",
    )
}
