//! Texts in layout that hold each form of the language: what is printed of them is the same text, and each statement has
//! its line.
use c_print::{layouts_have_few_lines, line_of, lines_of, print};
use c_reader::read_program;
use c_tree::{Program, Text};
use std::process::Abort;

const SHORT: usize = 4096;

const ITEMS: &str = r#"#include <stdio.h>
#include <stdlib.h>
struct s;
struct s {
    int x;
    struct s *next;
};
char g1;
unsigned char g2;
short g3;
unsigned short g4;
int g5;
unsigned int g6;
long g7;
unsigned long g8;
struct s *rows[3];
unsigned long **deep;
int matrix[2 * 3][03];
static struct s *q = NULL;
void h(int, struct s *, unsigned long **, int count);
void h(int a, struct s *b, unsigned long **c, int d) {
}
static int *f(int a, int *p) {
    return p;
}
void g(void) {
    return;
}
int main(void) {
}
"#;

const CALLS: &str = r#"#include <stdio.h>
#include <stdlib.h>
struct s {
    int x;
    struct s *next;
};
int *f(int a, int *p) {
    return p;
}
void g(void) {
}
int main(void) {
    int a = getchar();
    int b = a;
    int *p;
    int l[2] = {1, a};
    struct s *q;
    p = f(a, NULL);
    g();
    putchar(a);
    printf("%d %d\n", a, b);
    printf("x");
    p = (int *)malloc(a * sizeof(int));
    p = malloc(sizeof(*p) * a);
    p = malloc(sizeof *p);
    q = malloc(sizeof(struct s));
    char *bytes = malloc(8);
    free(p);
    return a;
}
"#;

const EXPRESSIONS: &str = r#"#include <stdio.h>
struct s {
    int x;
    struct s *next;
};
int main(void) {
    int a = 1;
    int b = 2;
    int *p = &a;
    int **w = &p;
    int m[3];
    struct s s;
    struct s *q = &s;
    a = 0x1fUL;
    a = EOF;
    p = NULL;
    a = **w;
    a = (unsigned char)a;
    a = m[a];
    q = s.next;
    q = q->next;
    a = (a + b) << 2;
    a = a && b;
    a = a || b;
    a = a ? b : 7;
    a = - -a;
    a = + +a;
    a = -+a;
    a = +-a;
    a = !!a;
    a = ~-a;
    a = a - -b;
    a = a * b / 3 % 4 + 5 - 6 << 7 >> 8;
    a = a < b == b > a != a <= b;
    a = a >= b & b ^ a | 9;
    a = 0;
    a = 017;
    a = 0X1fuL;
    a = 42Lu;
    a = 'a';
    a = '\'';
    a = '\"';
    a = '\?';
    a = '\\';
    a = '\a';
    a = '\b';
    a = '\f';
    a = '\n';
    a = '\r';
    a = '\t';
    a = '\v';
    a = '\0';
}
"#;

const STATEMENTS: &str = r#"int main(void) {
    int a = 1;
    int b = a;
    a = b;
    a += b;
    a <<= b;
    ++a;
    a++;
    --a;
    a--;
    if (b) {
        while (a) {
            a = b;
        }
    }
    if (b) {
    } else {
        a = b;
    }
    {
        a = b;
    }
    if (b) {
        a = b;
    } else {
        if (a) {
            a = b;
        }
    }
    do {
        a = b;
    } while (a);
    for (int i = 0; i < b; i++) {
    }
    for (; a;) {
        a = b;
    }
    switch (a) {
        case 1:
        case 'x':
            a = b;
            break;
        default:
            break;
    }
    return a;
}
"#;

/// A function with each form that has a line of its own.
const LINES: &str = r#"#include <stdio.h>
struct s {
    int x;
    struct s *next;
};
int a;
void h(void);
void h(void) {
    if (a) {
        a = a;
    } else {
        a = a;
    }
    if (a) {
        a = a;
    }
    while (a) {
        a = a;
    }
    do {
        a = a;
    } while (a);
    for (a = a; a; a = a) {
        a = a;
    }
    switch (a) {
        case 1:
        case 2:
            a = a;
            break;
        default:
            a = a;
            break;
    }
    {
        a = a;
    }
    int b;
    a = a;
}
int main(void) {
}
"#;

/// The program of the text.
fn read<R: Abort + AllocGlobal>(rt: &R, text: &str) -> Program {
    let bytes = text.as_bytes();
    assert!(rt; bytes.len() < SHORT);
    read_program(rt.alloc(), bytes).expect(rt, "a program")
}

/// The text's program is printed as the text itself.
fn stays<R: Abort + AllocGlobal>(rt: &R, text: &str) {
    let printed: Text = print(rt.alloc(), &read(rt, text)).expect(rt, "memory");
    let printed = String::from_utf8_lossy(rt.alloc(), printed.bytes()).expect(rt, "memory");
    assert_eq!(rt; printed.as_str(), text);
}

#[test]
fn each_form_is_printed(rt: HostRuntime) {
    stays(&rt, ITEMS);
    stays(&rt, CALLS);
    stays(&rt, EXPRESSIONS);
    stays(&rt, STATEMENTS);
    stays(&rt, LINES);
}

#[test]
fn each_statement_has_its_line(rt: HostRuntime) {
    let rt = &rt;
    let program = read(rt, LINES);
    let layout = print(rt.alloc(), &program).expect(rt, "memory");
    assert!(rt; layout.bytes().len() < SHORT);
    layouts_have_few_lines();
    let lines = lines_of(rt.alloc(), &program).expect(rt, "memory");
    let wanted = [
        9, 10, 12, 14, 15, 17, 18, 20, 21, 23, 23, 23, 24, 26, 29, 32, 36, 39,
    ];
    assert_eq!(rt; lines.as_slice(), wanted.as_slice());
    assert_eq!(rt; line_of(&program, 3), 14);
    assert_eq!(rt; line_of(&program, 17), 39);
    assert_eq!(rt; line_of(&program, 18), 0);
}
