//! A program with globals and structs as a tree, and places in its memory.
use c_arith::IntType;
use c_meaning::{Hop, Place, Value};
use c_memory::Memory;
use c_tree::{CType, Expr, Init, Item, Member, Program, StructDef, Text, Var};
use sqlite_items::{Boxed, Items};
use std::process::Abort;

pub(crate) fn int() -> CType {
    CType::Integer(IntType::Int)
}

pub(crate) fn array<R: Abort + AllocGlobal>(rt: &R, of: CType, length: u32) -> CType {
    let element = Boxed::new(rt.alloc(), of).expect(rt, "memory");
    CType::Array(element, length, Text::new(rt.alloc()))
}

fn pointer<R: Abort + AllocGlobal>(rt: &R) -> CType {
    CType::PointerTo(Boxed::new(rt.alloc(), int()).expect(rt, "memory"))
}

// A struct of two members.
fn pair<R: Abort + AllocGlobal>(rt: &R, first: CType, second: CType) -> StructDef {
    let alloc = rt.alloc();
    let name = Text::new(alloc);
    let first = Member {
        name: Text::new(alloc),
        shape: first,
    };
    let second = Member {
        name: Text::new(alloc),
        shape: second,
    };
    let members = Items::from_vec(vec![in alloc; first, second].expect(rt, "memory"));
    StructDef { name, members }
}

// struct { int; int *[2]; }, and struct { struct 0 [2]; int; }.
fn structs<R: Abort + AllocGlobal>(rt: &R) -> Items<StructDef> {
    let inner = pair(rt, int(), array(rt, pointer(rt), 2));
    let outer = pair(rt, array(rt, CType::Struct(0), 2), int());
    Items::from_vec(vec![in rt.alloc(); inner, outer].expect(rt, "memory"))
}

fn variable<R: AllocGlobal>(rt: &R, shape: CType) -> Var {
    Var {
        name: Text::new(rt.alloc()),
        shape,
        line: 1,
        is_static: false,
        owner: None,
        is_parameter: false,
    }
}

// char, int, int [3], int *, and struct 1.
fn variables<R: Abort + AllocGlobal>(rt: &R) -> Items<Var> {
    let character = variable(rt, CType::Integer(IntType::Char));
    let number = variable(rt, int());
    let three = variable(rt, array(rt, int(), 3));
    let address = variable(rt, pointer(rt));
    let parts = variable(rt, CType::Struct(1));
    let all = vec![in rt.alloc(); character, number, three, address, parts];
    Items::from_vec(all.expect(rt, "memory"))
}

pub(crate) fn constant<R: AllocGlobal>(rt: &R, number: u64) -> Expr {
    Expr::Constant(Text::new(rt.alloc()), IntType::Int, number)
}

// char c = 300; int z; int v[3] = {1, 2}; int *n = NULL; struct 1 s;
fn globals<R: Abort + AllocGlobal>(rt: &R) -> Items<Item> {
    let alloc = rt.alloc();
    let listed = vec![in alloc; constant(rt, 1), constant(rt, 2)].expect(rt, "memory");
    let items = vec![in alloc;
        Item::Global(0, Init::One(constant(rt, 300))),
        Item::Global(1, Init::None),
        Item::Global(2, Init::Items(Items::from_vec(listed))),
        Item::Global(3, Init::One(Expr::Null)),
        Item::Global(4, Init::None),
    ];
    Items::from_vec(items.expect(rt, "memory"))
}

/// A program of these globals alone.
pub(crate) fn program<R: Abort + AllocGlobal>(rt: &R) -> Program {
    Program {
        items: globals(rt),
        vars: variables(rt),
        structs: structs(rt),
        functions: Items::new(rt.alloc()),
        statements: 0,
    }
}

/// The memory in which it begins, with five blocks.
pub(crate) fn beginning<R: Abort + AllocGlobal>(rt: &R) -> Memory {
    Memory::new(rt.alloc(), &program(rt)).expect(rt, "memory")
}

pub(crate) fn place<R: Abort + AllocGlobal>(rt: &R, block: u64, hops: &[Hop]) -> Place {
    let path = Items::from_slice(rt.alloc(), hops).expect(rt, "memory");
    Place { block, path }
}

/// The number at a place, or -1 for a null pointer; None where there is no cell, or nothing is written in it.
pub(crate) fn found(memory: &Memory, place: &Place) -> Option<i128> {
    match memory.read(place) {
        Some(Value::Number(number)) => Some(*number),
        Some(Value::Null) => Some(-1),
        _ => None,
    }
}
