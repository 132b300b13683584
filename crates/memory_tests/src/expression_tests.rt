//! Elements of an array, and `&&`, by small expressions over `int v[3]` in a block of its own, of which one element is written.
use crate::trees::{array, beginning, constant, int, place, program};
use c_meaning::{Hop, Value};
use c_memory::{Memory, Scene, address, value};
use c_tree::{Expr, Program};
use sqlite_items::Boxed;
use std::process::Abort;

// The memory with an array in block 5 that has 11 as its element 1.
fn memory<R: Abort + AllocGlobal>(rt: &R) -> Memory {
    let mut memory = beginning(rt);
    memory
        .enter(rt.alloc(), &array(rt, int(), 3))
        .expect(rt, "memory");
    memory.write(&place(rt, 5, &[Hop::Element(1)]), Value::Number(11));
    memory
}

// v[i]
fn element<R: Abort + AllocGlobal>(rt: &R, i: u64) -> Expr {
    let array = Boxed::new(rt.alloc(), Expr::Variable(2)).expect(rt, "memory");
    let index = Boxed::new(rt.alloc(), constant(rt, i)).expect(rt, "memory");
    Expr::Index(array, index)
}

// A number, or the index of a pointer; None where there is no value.
fn shown(value: Option<Value>) -> Option<i128> {
    match value {
        Some(Value::Number(number)) => Some(number),
        Some(Value::To(at)) => Some(at.index as i128),
        _ => None,
    }
}

// The value of an expression, and that of its address, where v has block 5.
fn both<R: Abort + AllocGlobal>(
    rt: &R,
    program: &Program,
    memory: &Memory,
    e: &Expr,
) -> (Option<i128>, Option<i128>) {
    let frame = [None, None, Some(5)];
    let scene = Scene {
        alloc: rt.alloc(),
        program,
        frame: frame.as_slice(),
        memory,
    };
    let read = shown(value(e, scene).expect(rt, "memory"));
    let points = shown(address(e, scene).expect(rt, "memory"));
    (read, points)
}

#[test]
fn elements_have_values_and_addresses(rt: HostRuntime) {
    let (program, memory) = (program(&rt), memory(&rt));
    // The index, the value of the element, and the index of its address: v[2] isn't written, and &v[3] is the end.
    let rows = [
        (1, Some(11), Some(1)),
        (2, None, Some(2)),
        (3, None, Some(3)),
        (4, None, None),
    ];
    for (index, read, points) in &rows {
        let e = element(&rt, *index);
        assert!(rt; both(&rt, &program, &memory, &e) == (*read, *points));
    }
}

#[test]
fn the_right_side_of_and_counts_where_it_decides(rt: HostRuntime) {
    let (program, memory) = (program(&rt), memory(&rt));
    // The left side, and what it gives with `&& v[2]`, which isn't written.
    let rows = [(0, Some(0)), (2, None)];
    for (left, given) in &rows {
        let left = Boxed::new(rt.alloc(), constant(&rt, *left)).expect(&rt, "memory");
        let right = Boxed::new(rt.alloc(), element(&rt, 2)).expect(&rt, "memory");
        let e = Expr::AndAlso(left, right);
        assert!(rt; both(&rt, &program, &memory, &e) == (*given, None));
    }
}
