//! The trees of small programs, as far as their calls go: what else their functions do is left out.
use c_tree::{
    Arm, Boxed, CType, Expr, Function, FunctionId, IntType, Items, Label, Program, Statement,
    StatementId, Target, Text,
};
use std::process::Abort;

pub(crate) fn none<T, R: AllocGlobal>(rt: &R) -> Items<T> {
    Items::new(rt.alloc())
}

pub(crate) fn one<T: Drop, R: Abort + AllocGlobal>(rt: &R, item: T) -> Items<T> {
    let mut items = Items::new(rt.alloc());
    items.push(item).expect(rt, "memory");
    items
}

pub(crate) fn two<T: Drop, R: Abort + AllocGlobal>(rt: &R, first: T, second: T) -> Items<T> {
    let mut items = one(rt, first);
    items.push(second).expect(rt, "memory");
    items
}

fn boxed<T: Drop, R: Abort + AllocGlobal>(rt: &R, value: T) -> Boxed<T> {
    Boxed::new(rt.alloc(), value).expect(rt, "memory")
}

/// `f(x)`, whose result isn't stored.
pub(crate) fn call<R: Abort + AllocGlobal>(
    rt: &R,
    id: StatementId,
    function: FunctionId,
) -> Statement {
    Statement::Invoke {
        id,
        line: 1,
        target: Target::None,
        function,
        args: one(rt, Expr::Variable(0)),
    }
}

/// `x = f(x)`
pub(crate) fn stored<R: Abort + AllocGlobal>(
    rt: &R,
    id: StatementId,
    function: FunctionId,
) -> Statement {
    Statement::Invoke {
        id,
        line: 1,
        target: Target::Place(Expr::Variable(0)),
        function,
        args: one(rt, Expr::Variable(0)),
    }
}

/// `if (x) { then }`
pub(crate) fn when<R: Abort + AllocGlobal>(rt: &R, id: StatementId, then: Statement) -> Statement {
    Statement::If {
        id,
        line: 1,
        test: Expr::Variable(0),
        then: one(rt, then),
        other: none(rt),
    }
}

/// `for (; x; step) { body }`
pub(crate) fn repeat<R: Abort + AllocGlobal>(
    rt: &R,
    id: StatementId,
    step: Statement,
    body: Statement,
) -> Statement {
    Statement::For {
        id,
        line: 1,
        init: None,
        test: Expr::Variable(0),
        step: Some(boxed(rt, step)),
        body: one(rt, body),
    }
}

/// `switch (x) { default: first second }`
pub(crate) fn chosen<R: Abort + AllocGlobal>(
    rt: &R,
    id: StatementId,
    first: Statement,
    second: Statement,
) -> Statement {
    let arm = Arm {
        labels: one(rt, Label::Default),
        body: two(rt, first, second),
    };
    Statement::Switch {
        id,
        line: 1,
        test: Expr::Variable(0),
        arms: one(rt, arm),
    }
}

/// A function of a result, with its calls.
pub(crate) fn function<R: Abort + AllocGlobal>(rt: &R, body: Items<Statement>) -> Function {
    Function {
        name: Text::from_slice(rt.alloc(), b"f").expect(rt, "memory"),
        result: Some(CType::Integer(IntType::Int)),
        params: none(rt),
        body,
        is_static: false,
        line: 1,
    }
}

pub(crate) fn program<R: Abort + AllocGlobal>(rt: &R, functions: Items<Function>) -> Program {
    Program {
        items: none(rt),
        vars: none(rt),
        structs: none(rt),
        functions,
        statements: 0,
    }
}
