//! The parts of trees.
use c_tree::{
    BinaryOp, Boxed, CType, Expr, Function, IntType, Item, Items, Member, Program, Statement,
    StructDef, Text, UnaryOp, Var, VarId,
};
use std::process::Abort;

pub(crate) const A: VarId = 0;

pub(crate) const B: VarId = 1;

pub(crate) const P: VarId = 2;

pub(crate) const Q: VarId = 5;

pub(crate) fn text<R: Abort + AllocGlobal>(rt: &R, bytes: &[u8]) -> Text {
    Text::from_slice(rt.alloc(), bytes).expect(rt, "memory")
}

pub(crate) fn boxed<T: Drop, R: Abort + AllocGlobal>(rt: &R, value: T) -> Boxed<T> {
    Boxed::new(rt.alloc(), value).expect(rt, "memory")
}

pub(crate) fn none<T, R: AllocGlobal>(rt: &R) -> Items<T> {
    Items::new(rt.alloc())
}

pub(crate) fn one<T: Drop, R: Abort + AllocGlobal>(rt: &R, item: T) -> Items<T> {
    let mut items = Items::new(rt.alloc());
    items.push(item).expect(rt, "memory");
    items
}

pub(crate) fn two<T: Drop, R: Abort + AllocGlobal>(rt: &R, first: T, second: T) -> Items<T> {
    let mut items = one(rt, first);
    items.push(second).expect(rt, "memory");
    items
}

pub(crate) fn int() -> CType {
    CType::Integer(IntType::Int)
}

pub(crate) fn pointer<R: Abort + AllocGlobal>(rt: &R, pointee: CType) -> CType {
    CType::PointerTo(boxed(rt, pointee))
}

pub(crate) fn array<R: Abort + AllocGlobal>(rt: &R, element: CType, words: &[u8]) -> CType {
    CType::Array(boxed(rt, element), 1, text(rt, words))
}

pub(crate) fn var<R: Abort + AllocGlobal>(
    rt: &R,
    name: &[u8],
    shape: CType,
    is_static: bool,
) -> Var {
    let name = text(rt, name);
    Var {
        name,
        shape,
        line: 1,
        is_static,
        owner: None,
        is_parameter: false,
    }
}

/// `int a`, `int b`, `int *p`, `int m[2][3]`, `struct s s` and `static struct s *q`.
pub(crate) fn vars<R: Abort + AllocGlobal>(rt: &R) -> Items<Var> {
    let mut vars = two(rt, var(rt, b"a", int(), false), var(rt, b"b", int(), false));
    let matrix = array(rt, array(rt, int(), b"3"), b"2");
    let arrays = two(
        rt,
        var(rt, b"p", pointer(rt, int()), false),
        var(rt, b"m", matrix, false),
    );
    let link = pointer(rt, CType::Struct(0));
    let structs = two(
        rt,
        var(rt, b"s", CType::Struct(0), false),
        var(rt, b"q", link, true),
    );
    vars.append(arrays).expect(rt, "memory");
    vars.append(structs).expect(rt, "memory");
    vars
}

/// `struct s` with the members `int x` and `struct s *next`.
pub(crate) fn structs<R: Abort + AllocGlobal>(rt: &R) -> Items<StructDef> {
    let x = Member {
        name: text(rt, b"x"),
        shape: int(),
    };
    let next = Member {
        name: text(rt, b"next"),
        shape: pointer(rt, CType::Struct(0)),
    };
    one(
        rt,
        StructDef {
            name: text(rt, b"s"),
            members: two(rt, x, next),
        },
    )
}

/// `static int *f(int a, int *p)`, whose body is `return p;`, and `void g(void)`, which has none.
pub(crate) fn functions<R: Abort + AllocGlobal>(rt: &R) -> Items<Function> {
    let f = Function {
        name: text(rt, b"f"),
        result: Some(pointer(rt, int())),
        params: two(rt, A, P),
        body: one(
            rt,
            Statement::Return {
                id: 0,
                line: 1,
                value: Some(Expr::Variable(P)),
            },
        ),
        is_static: true,
        line: 1,
    };
    let g = Function {
        name: text(rt, b"g"),
        result: None,
        params: none(rt),
        body: none(rt),
        is_static: false,
        line: 1,
    };
    two(rt, f, g)
}

pub(crate) fn program<R: Abort + AllocGlobal>(rt: &R, items: Items<Item>) -> Program {
    let vars = vars(rt);
    let structs = structs(rt);
    let functions = functions(rt);
    Program {
        items,
        vars,
        structs,
        functions,
        statements: 1,
    }
}

pub(crate) fn number<R: Abort + AllocGlobal>(rt: &R, spelling: &[u8]) -> Expr {
    Expr::Constant(text(rt, spelling), IntType::Int, 0)
}

pub(crate) fn unary<R: Abort + AllocGlobal>(rt: &R, op: UnaryOp, operand: Expr) -> Expr {
    Expr::Unary(op, boxed(rt, operand))
}

pub(crate) fn binary<R: Abort + AllocGlobal>(
    rt: &R,
    left: Expr,
    op: BinaryOp,
    right: Expr,
) -> Expr {
    Expr::Binary(op, boxed(rt, left), boxed(rt, right))
}
