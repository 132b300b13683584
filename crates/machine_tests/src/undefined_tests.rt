//! Acts that are undefined, each with its statement: bodies of mains, and whole texts.
use crate::run_tests::read;
use c_machine::{Halt, Machine};
use std::process::Abort;

// The body of a main, and the statement whose act is undefined.
const ROWS: [(&str, u32); 42] = [
    // An unwritten variable.
    ("int a; int b = a;", 0),
    // An unwritten variable in its own initialiser.
    ("int a = a;", 0),
    // A zero divisor.
    ("int z = 0; int a = 1 / z;", 1),
    // A zero divisor of a remainder.
    ("int z = 0; int a = 1 % z;", 1),
    // A quotient out of range.
    ("int m = -2147483647 - 1; int d = -1; int a = m / d;", 2),
    // A remainder whose quotient is out of range.
    ("int m = -2147483647 - 1; int d = -1; int a = m % d;", 2),
    // A sum out of range.
    ("int a = 2147483647; a = a + 1;", 1),
    // A difference out of range.
    ("int a = -2147483647; a -= 2;", 1),
    // A product out of range.
    ("int a = 65536; a = a * a;", 1),
    // An increment out of range.
    ("int a = 2147483647; a++;", 1),
    // A decrement out of range.
    ("int a = -2147483647 - 1; --a;", 1),
    // A negation out of range.
    ("int a = -2147483647 - 1; a = -a;", 1),
    // A shift by the width.
    ("int a = 1; int n = 32; a = a << n;", 2),
    // A shift by a negative amount.
    ("int a = 1; int n = -1; a = a >> n;", 2),
    // A shift of a negative value.
    ("int a = -1; a = a << 1;", 1),
    // A shift out of range.
    ("int a = 1; int n = 31; a = a << n;", 2),
    // A null pointer that is read.
    ("int *p = NULL; int a = *p;", 1),
    // A null pointer that is written.
    ("int *p = NULL; *p = 1;", 1),
    // An element behind the last.
    ("int a[2]; int i = 2; a[i] = 1;", 1),
    // An element that is unwritten.
    ("int a[2]; int i = 1; int b = a[i];", 1),
    // A move behind the end.
    ("int a[2]; int *p = a; p = p + 3;", 1),
    // A move before the start.
    ("int a[2]; int *p = a; p--;", 1),
    // A move of a null pointer.
    ("int *p = NULL; p = p + 1;", 1),
    // A difference of two arrays.
    (
        "int a[2]; int b[2]; int *p = a; int *q = b; long d = p - q;",
        2,
    ),
    // An order of two arrays.
    (
        "int a[2]; int b[2]; int *p = a; int *q = b; if (p < q) { p = q; }",
        2,
    ),
    // The end of one array and the start of another.
    (
        "int a[2]; int b[2]; int *p = a; p = p + 2; int *q = b; if (p == q) { p = q; }",
        3,
    ),
    // A block that is freed is read.
    (
        "int *p = malloc(sizeof(int)); *p = 1; free(p); int a = *p;",
        3,
    ),
    // A block that is freed is written.
    ("int *p = malloc(sizeof(int)); free(p); *p = 1;", 2),
    // A block that is freed again.
    ("int *p = malloc(sizeof(int)); free(p); free(p);", 2),
    // A variable that is freed.
    ("int a = 1; int *p = &a; free(p);", 2),
    // An element behind the start that is freed.
    ("int *p = malloc(2 * sizeof(int)); p++; free(p);", 2),
    // No object that is asked for.
    ("int n = 0; int *p = malloc(n * sizeof(int));", 1),
    // Too many objects that are asked for.
    ("int n = 1048577; int *p = malloc(n * sizeof(int));", 1),
    // A variable whose block has ended.
    ("int *p = NULL; { int x = 1; p = &x; } int a = *p;", 3),
    // A variable whose block has ended is written.
    ("int *p = NULL; { int x = 1; p = &x; } *p = 2;", 3),
    // A negative number of objects that is asked for.
    ("int n = -1; int *p = malloc(n * sizeof(int));", 1),
    // An object of malloc that is unwritten.
    ("int *p = malloc(2 * sizeof(int)); int a = p[1];", 1),
    // The end of an array is read.
    ("int a[2]; int *p = a; p = p + 2; int b = *p;", 2),
    // An element of a null pointer is designated.
    ("int *p = NULL; int i = 0; int *q = &p[i];", 2),
    // An unwritten right side of an && that decides.
    ("int u; int a = 1; if (a && u) { a = 2; }", 1),
    // A list with an unwritten item.
    ("int u; int a[2] = {1, u};", 0),
    // A test that is unwritten.
    ("int u; while (u) { u = 0; }", 0),
];

// A run of a text is undefined at the statement.
fn is_undefined<R: Abort + AllocGlobal>(rt: &R, text: &str, statement: u32) {
    let program = read(rt, text);
    let mut machine = Machine::new(rt.alloc(), &program, b"").expect(rt, "memory");
    let answer = machine.run(1000).expect(rt, "memory");
    assert!(rt; answer == Halt::Undefined(statement), "{text}");
    let again = machine.run(0).expect(rt, "memory");
    assert!(rt; again == Halt::Undefined(statement), "{text}");
}

#[test]
fn acts_are_undefined(rt: HostRuntime) {
    for (body, statement) in &ROWS {
        let text = format!(in rt.alloc();
            "#include <stdlib.h>\nint main(void) {{ {body} }}\n"
        ).expect(&rt, "memory");
        is_undefined(&rt, text.as_str(), *statement);
    }
}

// Texts whose run is undefined at a call, and others at what calls and structs are made of.
const TEXTS: [(&str, u32); 9] = [
    // The store of a result, at an element behind the last.
    (
        "int f(int a) { return a; }\nint main(void) { int a[2]; int i = 2; a[i] = f(i); }\n",
        2,
    ),
    // The store of a result, at a null pointer.
    (
        "int *p;\nint f(int a) { return a; }\nint main(void) { int x = 1; *p = f(x); }\n",
        2,
    ),
    // The store of a result, in the block of the function that returned.
    (
        "int *p;\nint f(int a) { p = &a; return a; }\nint main(void) { int x = 1; *p = f(x); }\n",
        3,
    ),
    // An unwritten argument.
    (
        "int f(int a) { return a; }\nint main(void) { int u; int x = f(u); }\n",
        1,
    ),
    // An unwritten result.
    (
        "int f(int a) { int u; return u; }\nint main(void) { int x = f(1); }\n",
        0,
    ),
    // An unwritten argument of printf.
    (
        "#include <stdio.h>\nint main(void) { int u; printf(\"%d\\n\", u); }\n",
        0,
    ),
    // A member of a null pointer.
    (
        "#include <stdlib.h>\nstruct s { int m; };\nint main(void) { struct s *p = NULL; int a = p->m; }\n",
        1,
    ),
    // An unwritten member.
    (
        "struct s { int m; int n; };\nint main(void) { struct s x; x.m = 1; int a = x.n; }\n",
        1,
    ),
    // An order of two members.
    (
        "struct s { int m; int n; };\nint main(void) { struct s x; int *p = &x.m; int *q = &x.n; if (p < q) { p = q; } }\n",
        2,
    ),
];

#[test]
fn acts_of_calls_are_undefined(rt: HostRuntime) {
    for (text, statement) in &TEXTS {
        is_undefined(&rt, text, *statement);
    }
}
