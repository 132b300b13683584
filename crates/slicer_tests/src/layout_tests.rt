//! Texts and their layouts, typed by hand from the rules of the layout.
use crate::programs::{
    ADD, DIVIDES, HEAP, LOOPS, MUTUAL, ONE, PICK, READING_SWITCH, RECURSIVE, SETTING, TWO,
};
use c_print::print;
use c_reader::read_program;
use c_tree::Text;
use std::process::Abort;

const SHORT: usize = 4096;

/// The layout of the program of a text.
fn laid_out<R: Abort + AllocGlobal>(rt: &R, text: &str) -> Text {
    let bytes = text.as_bytes();
    assert!(rt; bytes.len() < SHORT);
    let program = read_program(rt.alloc(), bytes).expect(rt, "a program");
    print(rt.alloc(), &program).expect(rt, "memory")
}

/// A text and its layout.
type Row<'a> = (&'a str, &'a str);

fn prints<R: Abort + AllocGlobal>(rt: &R, row: Row<'_>) {
    let (text, layout) = row;
    let printed = laid_out(rt, text);
    let printed = String::from_utf8_lossy(rt.alloc(), printed.bytes()).expect(rt, "memory");
    assert_eq!(rt; printed.as_str(), layout);
}

fn all_print<R: Abort + AllocGlobal>(rt: &R, rows: &[Row<'_>]) {
    for row in rows.iter() {
        prints(rt, *row);
    }
}

/// The texts are in layout.
fn stay<R: Abort + AllocGlobal>(rt: &R, texts: &[&str]) {
    for text in texts.iter() {
        prints(rt, (text, text));
    }
}

#[test]
fn straight_lines_and_functions_stay(rt: HostRuntime) {
    let texts: [&str; 5] = [
        TWO,
        ADD,
        PICK,
        "#include <stdio.h>\nint main(void) {\n    int a = getchar();\n    int b = getchar();\n    int c = getchar();\n    putchar(a);\n    putchar(c);\n}\n",
        SETTING,
    ];
    stay(&rt, &texts);
}

#[test]
fn loops_and_lists_stay(rt: HostRuntime) {
    let texts: [&str; 2] = [
        LOOPS,
        "#include <stdio.h>\n#include <stdlib.h>\nstruct node {\n    int val;\n    struct node *next;\n};\nint main(void) {\n    struct node *head = NULL;\n    struct node *n;\n    int c = getchar();\n    while (c != EOF) {\n        n = malloc(sizeof(struct node));\n        n->val = c;\n        n->next = head;\n        head = n;\n        c = getchar();\n    }\n    int sum = 0;\n    int len = 0;\n    for (n = head; n != NULL; n = n->next) {\n        sum = sum + n->val;\n        len = len + 1;\n    }\n    printf(\"%d\\n\", sum);\n    printf(\"%d\\n\", len);\n    return 0;\n}\n",
    ];
    stay(&rt, &texts);
}

#[test]
fn recursion_and_memory_stay(rt: HostRuntime) {
    let texts: [&str; 6] = [
        RECURSIVE,
        MUTUAL,
        "int g;\nint f(int a) {\n    g = a;\n    return a + 1;\n}\nint main(void) {\n    int x = f(3);\n    x = g;\n    x = x + 1;\n}\n",
        "int helper(int a) {\n    a = a + 1;\n    return a;\n}\nint main(void) {\n    return 0;\n}\n",
        HEAP,
        DIVIDES,
    ];
    stay(&rt, &texts);
}

#[test]
fn a_switch_and_a_program_on_one_line(rt: HostRuntime) {
    let rows: [Row<'_>; 2] = [
        (
            READING_SWITCH,
            "#include <stdio.h>\nint main(void) {\n    int c = getchar();\n    int r = 0;\n    int q = 0;\n    switch (c) {\n        case 'a':\n            q = 1;\n            break;\n        case 'b':\n            r = 2;\n            break;\n        default:\n            r = 3;\n            break;\n    }\n    printf(\"%d\\n\", r);\n    printf(\"%d\\n\", q);\n}\n",
        ),
        (
            ONE,
            "int main(void) {\n    int x = 0;\n    int i;\n    for (i = 0; i < 3; ++i) {\n        x += i;\n    }\n}\n",
        ),
    ];
    all_print(&rt, &rows);
}

#[test]
fn odd_spellings_of_declarations(rt: HostRuntime) {
    let rows: [Row<'_>; 6] = [
        (
            "long unsigned int a;int short b;unsigned c;signed char d;char unsigned e;int long signed f;\nint main(){}\n",
            "unsigned long a;\nshort b;\nunsigned int c;\nchar d;\nunsigned char e;\nlong f;\nint main(void) {\n}\n",
        ),
        (
            "int a[3]={1,2,};int b[]={1,2,3,};\nint main(void){}\n",
            "int a[3] = {1, 2};\nint b[3] = {1, 2, 3};\nint main(void) {\n}\n",
        ),
        (
            "int *p,**q,*r[2+1],x=017,y=0xFfUL;\nint main(void){}\n",
            "int *p;\nint **q;\nint *r[2 + 1];\nint x = 017;\nint y = 0xFfUL;\nint main(void) {\n}\n",
        ),
        (
            "void f(int a[3],int*b);void f(int*a,int b[]){}int main(void){}\n",
            "void f(int *a, int *b);\nvoid f(int *a, int *b) {\n}\nint main(void) {\n}\n",
        ),
        (
            "static int g;static int h(void);static int h(void){return g;}int main(void){}\n",
            "static int g;\nstatic int h(void);\nstatic int h(void) {\n    return g;\n}\nint main(void) {\n}\n",
        ),
        (
            "struct s;struct s{int a,*b;struct s*c;};struct s x;int main(void){x.c=&x;x.c->a=-(-1);}\n",
            "struct s;\nstruct s {\n    int a;\n    int *b;\n    struct s *c;\n};\nstruct s x;\nint main(void) {\n    x.c = &x;\n    x.c->a = -(-1);\n}\n",
        ),
    ];
    all_print(&rt, &rows);
}

#[test]
fn odd_spellings_of_statements(rt: HostRuntime) {
    let rows: [Row<'_>; 5] = [
        (
            "int main(void){int x=1;if(x)x=2;else if(x>3)x=- -x;else;while(x)--x;do x++;while(x<3);}\n",
            "int main(void) {\n    int x = 1;\n    if (x) {\n        x = 2;\n    } else {\n        if (x > 3) {\n            x = - -x;\n        }\n    }\n    while (x) {\n        --x;\n    }\n    do {\n        x++;\n    } while (x < 3);\n}\n",
        ),
        (
            "int main(void){int x=1;for(;x<3;);for(int i=0;i<2;i+=1){;}{{}}x=x?1:(int)2L;x=!x&&~x||+x;}\n",
            "int main(void) {\n    int x = 1;\n    for (; x < 3;) {\n    }\n    for (int i = 0; i < 2; i += 1) {\n    }\n    {\n        {\n        }\n    }\n    x = x ? 1 : (int)2L;\n    x = !x && ~x || +x;\n}\n",
        ),
        (
            "int main(void){int x='\\n';x='\\'';x='\\\\';x='\\0';x='\\\"';x='\\?';x='\"';x+='\\t'+'\\r'+'\\a'+'\\b'+'\\f'+'\\v';}\n",
            "int main(void) {\n    int x = '\\n';\n    x = '\\'';\n    x = '\\\\';\n    x = '\\0';\n    x = '\\\"';\n    x = '\\?';\n    x = '\"';\n    x += '\\t' + '\\r' + '\\a' + '\\b' + '\\f' + '\\v';\n}\n",
        ),
        (
            "#include <stdlib.h>\n#include <stdio.h>\nint main(void){int*p=malloc(2*sizeof(int));p=(int*)malloc(sizeof*p*3);p=malloc(sizeof(*p));char*c=malloc(7);free(p);printf(\"%d%%\\n\",*p);putchar(c[0]);getchar();*p=getchar();}\n",
            "#include <stdlib.h>\n#include <stdio.h>\nint main(void) {\n    int *p = malloc(2 * sizeof(int));\n    p = (int *)malloc(sizeof *p * 3);\n    p = malloc(sizeof(*p));\n    char *c = malloc(7);\n    free(p);\n    printf(\"%d%%\\n\", *p);\n    putchar(c[0]);\n    getchar();\n    *p = getchar();\n}\n",
        ),
        (
            "int f(int a){return a;}int main(void){int a[2][3];int x=f(1);f(2);a[0][1]=f(x);switch(x){case 1:case 2:x=3;break;default:break;}return 0;}\n",
            "int f(int a) {\n    return a;\n}\nint main(void) {\n    int a[2][3];\n    int x = f(1);\n    f(2);\n    a[0][1] = f(x);\n    switch (x) {\n        case 1:\n        case 2:\n            x = 3;\n            break;\n        default:\n            break;\n    }\n    return 0;\n}\n",
        ),
    ];
    all_print(&rt, &rows);
}
