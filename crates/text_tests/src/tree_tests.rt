//! Trees made by hand, and their layouts. Layouts of trees that a text has are seen in slicer_tests.
use crate::building::{
    A, B, Q, binary, boxed, int, none, number, one, program, text, two, unary, var,
};
use c_print::print;
use c_tree::{
    Arm, BinaryOp, Expr, Function, Init, Item, Items, Label, Program, Statement, StatementId,
    UnaryOp, VarId,
};
use std::process::Abort;

fn expect_items<R: Abort + AllocGlobal>(rt: &R, items: Items<Item>, want: &[u8]) {
    let out = print(rt.alloc(), &program(rt, items)).expect(rt, "memory");
    assert_eq!(rt; out.bytes(), want);
}

#[test]
fn the_items_of_a_program(rt: HostRuntime) {
    let rt = &rt;
    let includes = two(
        rt,
        Item::Include { is_stdlib: false },
        Item::Include { is_stdlib: true },
    );
    expect_items(rt, includes, b"#include <stdio.h>\n#include <stdlib.h>\n");
    let want = b"struct s;\nstruct s {\n    int x;\n    struct s *next;\n};\n";
    expect_items(rt, two(rt, Item::Tag(0), Item::Struct(0)), want);
    let globals = two(
        rt,
        Item::Global(A, Init::None),
        Item::Global(Q, Init::One(Expr::Null)),
    );
    expect_items(rt, globals, b"int a;\nstatic struct s *q = NULL;\n");
    let names = two(rt, Some(text(rt, b"count")), None);
    let first = Item::Prototype {
        function: 0,
        names,
        is_static: true,
    };
    let second = Item::Prototype {
        function: 1,
        names: none(rt),
        is_static: false,
    };
    let want = b"static int *f(int count, int *);\nvoid g(void);\n";
    expect_items(rt, two(rt, first, second), want);
    let want = b"static int *f(int a, int *p) {\n    return p;\n}\nvoid g(void) {\n}\n";
    expect_items(rt, two(rt, Item::Define(0), Item::Define(1)), want);
    expect_items(rt, two(rt, Item::Define(7), Item::Struct(7)), b"");
}

/// `i = 0`, `++i` and `x += i`, where `x` is the first variable and `i` the second.
fn assigned(id: StatementId, left: VarId, op: Option<BinaryOp>, right: Expr) -> Statement {
    let left = Expr::Variable(left);
    Statement::Assign {
        id,
        line: 1,
        left,
        op,
        right,
    }
}

/// `for (i = 0; i < 3; ++i) x += i;`.
fn sum_of_three<R: Abort + AllocGlobal>(rt: &R) -> Statement {
    let init = boxed(rt, assigned(2, B, None, number(rt, b"0")));
    let stepped = Statement::Bump {
        id: 3,
        line: 1,
        left: Expr::Variable(B),
        up: true,
        before: true,
    };
    let step = boxed(rt, stepped);
    let test = binary(rt, Expr::Variable(B), BinaryOp::Less, number(rt, b"3"));
    let summed = assigned(4, A, Some(BinaryOp::Add), Expr::Variable(B));
    let body = one(rt, summed);
    Statement::For {
        id: 1,
        line: 1,
        init: Some(init),
        test,
        step: Some(step),
        body,
    }
}

/// `int main(void){int x=0,i;for(i=0;i<3;++i)x+=i;}`.
fn program_on_one_line<R: Abort + AllocGlobal>(rt: &R) -> Program {
    let init = Init::One(number(rt, b"0"));
    let first = Statement::Declare {
        id: Some(0),
        line: 1,
        var: A,
        init,
    };
    let second = Statement::Declare {
        id: None,
        line: 1,
        var: B,
        init: Init::None,
    };
    let mut body = two(rt, first, second);
    body.push(sum_of_three(rt)).expect(rt, "memory");
    let main = Function {
        name: text(rt, b"main"),
        result: Some(int()),
        params: none(rt),
        body,
        is_static: false,
        line: 1,
    };
    let vars = two(rt, var(rt, b"x", int(), false), var(rt, b"i", int(), false));
    Program {
        items: one(rt, Item::Define(0)),
        vars,
        structs: none(rt),
        functions: one(rt, main),
        statements: 5,
    }
}

#[test]
fn a_program_on_one_line_is_laid_out(rt: HostRuntime) {
    let rt = &rt;
    let out = print(rt.alloc(), &program_on_one_line(rt)).expect(rt, "memory");
    let want = b"int main(void) {
    int x = 0;
    int i;
    for (i = 0; i < 3; ++i) {
        x += i;
    }
}
";
    assert_eq!(rt; out.bytes(), want.as_slice());
}

/// A main whose body is this statement.
fn main_of<R: Abort + AllocGlobal>(rt: &R, statement: Statement) -> Program {
    let main = Function {
        name: text(rt, b"main"),
        result: Some(int()),
        params: none(rt),
        body: one(rt, statement),
        is_static: false,
        line: 1,
    };
    Program {
        items: one(rt, Item::Define(0)),
        vars: two(rt, var(rt, b"a", int(), false), var(rt, b"b", int(), false)),
        structs: none(rt),
        functions: one(rt, main),
        statements: 1,
    }
}

fn expect_main<R: Abort + AllocGlobal>(rt: &R, statement: Statement, want: &[u8]) {
    let out = print(rt.alloc(), &main_of(rt, statement)).expect(rt, "memory");
    assert_eq!(rt; out.bytes(), want);
}

/// In a text an operand of a sign is no sum, and no constant is spelled so.
#[test]
fn expressions_that_no_text_has(rt: HostRuntime) {
    let rt = &rt;
    let negative = unary(rt, UnaryOp::Minus, number(rt, b"1"));
    let difference = binary(rt, negative, BinaryOp::Sub, Expr::Variable(B));
    let sum = assigned(0, A, None, unary(rt, UnaryOp::Minus, difference));
    expect_main(rt, sum, b"int main(void) {\n    a = - -1 - b;\n}\n");
    let spelled = assigned(0, A, None, number(rt, b"'\\x7F'"));
    expect_main(rt, spelled, b"int main(void) {\n    a = '\\x7F';\n}\n");
    let spelled = assigned(0, A, None, number(rt, b"'\\177'"));
    expect_main(rt, spelled, b"int main(void) {\n    a = '\\177';\n}\n");
}

#[test]
fn the_arms_of_a_switch(rt: HostRuntime) {
    let rt = &rt;
    let labels = two(
        rt,
        Label::Case(number(rt, b"1"), 1),
        Label::Case(number(rt, b"'x'"), 120),
    );
    let first = Arm {
        labels,
        body: one(rt, assigned(1, A, None, Expr::Variable(B))),
    };
    let last = Arm {
        labels: one(rt, Label::Default),
        body: none(rt),
    };
    let test = Expr::Variable(A);
    let switch = Statement::Switch {
        id: 0,
        line: 1,
        test,
        arms: two(rt, first, last),
    };
    let want = b"int main(void) {
    switch (a) {
        case 1:
        case 'x':
            a = b;
            break;
        default:
            break;
    }
}
";
    expect_main(rt, switch, want);
}
