//! The programs of two texts, field by field, worked out by hand from the language.
use c_reader::read_program;
use c_tree::Program;
use std::fmt::Debug;
use std::process::Abort;

const SHORT: usize = 4096;

/// A program that reads bytes into a list.
pub(crate) const LIST: &[u8] =
    b"#include <stdio.h>\n#include <stdlib.h>\nstruct node {\n    int val;\n    struct node *next;\n};\nint main(void) {\n    struct node *head = NULL;\n    struct node *n;\n    int c = getchar();\n    while (c != EOF) {\n        n = malloc(sizeof(struct node));\n        n->val = c;\n        n->next = head;\n        head = n;\n        c = getchar();\n    }\n    int sum = 0;\n    int len = 0;\n    for (n = head; n != NULL; n = n->next) {\n        sum = sum + n->val;\n        len = len + 1;\n    }\n    printf(\"%d\\n\", sum);\n    printf(\"%d\\n\", len);\n    return 0;\n}\n";

/// The program of the text.
fn read<R: Abort + AllocGlobal>(rt: &R, text: &[u8]) -> Program {
    assert!(rt; text.len() < SHORT);
    read_program(rt.alloc(), text).expect(rt, "a program")
}

/// How a value is printed that is written so, each name and each spelling between two backquotes.
fn printed<R: Abort + AllocGlobal>(rt: &R, written: &str) -> String {
    let mut whole = String::new(rt.alloc());
    let mut is_name = false;
    for piece in written.split('`') {
        if is_name {
            let bytes = piece.as_bytes();
            let name = format!(in rt.alloc(); "Text {{ bytes: {bytes:?} }}").expect(rt, "memory");
            whole.push_str(name.as_str()).expect(rt, "memory");
        } else {
            whole.push_str(piece).expect(rt, "memory");
        }
        is_name = !is_name;
    }
    whole
}

/// The parts of a program are these.
fn are<T: Debug, R: Abort + AllocGlobal>(rt: &R, parts: &[T], wanted: &[&str]) {
    assert_eq!(rt; parts.len(), wanted.len());
    for i in 0..parts.len() {
        let part = &parts[i];
        let shown = format!(in rt.alloc(); "{part:?}").expect(rt, "memory");
        assert!(rt; shown == printed(rt, wanted[i]), "{shown}");
    }
}

#[test]
fn a_call_and_a_global(rt: HostRuntime) {
    let program = read(
        &rt,
        b"#include <stdio.h>\nint g;\nvoid f(int a) {\n    a = 5;\n    g = a;\n}\nint main(void) {\n    int x = 7;\n    f(x + 1);\n    printf(\"%d\\n\", g);\n}\n",
    );
    assert_eq!(&rt; program.statements, 5);
    are(
        &rt,
        program.items.as_slice(),
        &[
            "Include { is_stdlib: false }",
            "Global(0, None)",
            "Define(0)",
            "Define(1)",
        ],
    );
    are(
        &rt,
        program.vars.as_slice(),
        &[
            "Var { name: `g`, shape: Integer(Int), line: 2, is_static: false, owner: None, is_parameter: false }",
            "Var { name: `a`, shape: Integer(Int), line: 3, is_static: false, owner: Some(0), is_parameter: true }",
            "Var { name: `x`, shape: Integer(Int), line: 8, is_static: false, owner: Some(1), is_parameter: false }",
        ],
    );
    are(&rt, program.structs.as_slice(), &[]);
    are(
        &rt,
        program.functions.as_slice(),
        &[
            "Function { name: `f`, result: None, params: Items { items: [1] }, body: Items { items: [Assign { id: 0, line: 4, left: Variable(1), op: None, right: Constant(`5`, Int, 5) }, Assign { id: 1, line: 5, left: Variable(0), op: None, right: Variable(1) }] }, is_static: false, line: 3 }",
            "Function { name: `main`, result: Some(Integer(Int)), params: Items { items: [] }, body: Items { items: [Declare { id: Some(2), line: 8, var: 2, init: One(Constant(`7`, Int, 7)) }, Invoke { id: 3, line: 9, target: None, function: 0, args: Items { items: [Binary(Add, Boxed { inner: Variable(2) }, Boxed { inner: Constant(`1`, Int, 1) })] } }, Print { id: 4, line: 10, format: `\"%d\\n\"`, args: Items { items: [Variable(0)] } }] }, is_static: false, line: 7 }",
        ],
    );
}

#[test]
fn a_list(rt: HostRuntime) {
    let program = read(&rt, LIST);
    assert_eq!(&rt; program.statements, 18);
    are(
        &rt,
        program.items.as_slice(),
        &[
            "Include { is_stdlib: false }",
            "Include { is_stdlib: true }",
            "Struct(0)",
            "Define(0)",
        ],
    );
    are(
        &rt,
        program.vars.as_slice(),
        &[
            "Var { name: `head`, shape: PointerTo(Boxed { inner: Struct(0) }), line: 8, is_static: false, owner: Some(0), is_parameter: false }",
            "Var { name: `n`, shape: PointerTo(Boxed { inner: Struct(0) }), line: 9, is_static: false, owner: Some(0), is_parameter: false }",
            "Var { name: `c`, shape: Integer(Int), line: 10, is_static: false, owner: Some(0), is_parameter: false }",
            "Var { name: `sum`, shape: Integer(Int), line: 18, is_static: false, owner: Some(0), is_parameter: false }",
            "Var { name: `len`, shape: Integer(Int), line: 19, is_static: false, owner: Some(0), is_parameter: false }",
        ],
    );
    are(
        &rt,
        program.structs.as_slice(),
        &[
            "StructDef { name: `node`, members: Items { items: [Member { name: `val`, shape: Integer(Int) }, Member { name: `next`, shape: PointerTo(Boxed { inner: Struct(0) }) }] } }",
        ],
    );
    are(
        &rt,
        program.functions.as_slice(),
        &[
            "Function { name: `main`, result: Some(Integer(Int)), params: Items { items: [] }, body: Items { items: [Declare { id: Some(0), line: 8, var: 0, init: One(Null) }, Declare { id: None, line: 9, var: 1, init: None }, Fetch { id: 1, line: 10, target: Declared(2) }, While { id: 2, line: 11, test: Binary(Unequal, Boxed { inner: Variable(2) }, Boxed { inner: Eof }), body: Items { items: [Heap { id: 3, line: 12, target: Place(Variable(1)), cast: None, amount: Size(Type(Struct(0))) }, Assign { id: 4, line: 13, left: Arrow(Boxed { inner: Variable(1) }, MemberId { owner: 0, index: 0 }), op: None, right: Variable(2) }, Assign { id: 5, line: 14, left: Arrow(Boxed { inner: Variable(1) }, MemberId { owner: 0, index: 1 }), op: None, right: Variable(0) }, Assign { id: 6, line: 15, left: Variable(0), op: None, right: Variable(1) }, Fetch { id: 7, line: 16, target: Place(Variable(2)) }] } }, Declare { id: Some(8), line: 18, var: 3, init: One(Constant(`0`, Int, 0)) }, Declare { id: Some(9), line: 19, var: 4, init: One(Constant(`0`, Int, 0)) }, For { id: 10, line: 20, init: Some(Boxed { inner: Assign { id: 11, line: 20, left: Variable(1), op: None, right: Variable(0) } }), test: Binary(Unequal, Boxed { inner: Variable(1) }, Boxed { inner: Null }), step: Some(Boxed { inner: Assign { id: 12, line: 20, left: Variable(1), op: None, right: Arrow(Boxed { inner: Variable(1) }, MemberId { owner: 0, index: 1 }) } }), body: Items { items: [Assign { id: 13, line: 21, left: Variable(3), op: None, right: Binary(Add, Boxed { inner: Variable(3) }, Boxed { inner: Arrow(Boxed { inner: Variable(1) }, MemberId { owner: 0, index: 0 }) }) }, Assign { id: 14, line: 22, left: Variable(4), op: None, right: Binary(Add, Boxed { inner: Variable(4) }, Boxed { inner: Constant(`1`, Int, 1) }) }] } }, Print { id: 15, line: 24, format: `\"%d\\n\"`, args: Items { items: [Variable(3)] } }, Print { id: 16, line: 25, format: `\"%d\\n\"`, args: Items { items: [Variable(4)] } }, Return { id: 17, line: 26, value: Some(Constant(`0`, Int, 0)) }] }, is_static: false, line: 7 }",
        ],
    );
}
