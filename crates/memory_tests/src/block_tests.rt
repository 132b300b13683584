//! Each call of Memory once, on int, on arrays and on a struct with an array of structs.
use crate::trees::{array, beginning, found, int, place};
use c_meaning::{Hop, Pointer, Value};
use c_tree::CType;
use sqlite_items::Items;

#[test]
fn blocks_have_numbers_in_order(rt: HostRuntime) {
    let alloc = rt.alloc();
    let mut memory = beginning(&rt);
    assert_eq!(rt; memory.enter(alloc, &int()).expect(&rt, "memory"), 5);
    assert_eq!(rt; memory.allocate(alloc, &int(), 3).expect(&rt, "memory"), 6);
    memory.leave(5);
    assert_eq!(rt;
        memory
            .enter(alloc, &array(&rt, int(), 2))
            .expect(&rt, "memory"),
        7
    );
    assert_eq!(rt; memory.block_count(), 8);
}

#[test]
fn a_member_of_an_element_is_written(rt: HostRuntime) {
    let mut memory = beginning(&rt);
    memory
        .enter(rt.alloc(), &CType::Struct(1))
        .expect(&rt, "memory");
    // The path to a cell, member by element by member by element, and whether there is one.
    let rows = [
        ([0, 0, 1, 0], true),
        ([0, 1, 1, 1], true),
        ([0, 1, 1, 2], false),
        ([0, 2, 1, 0], false),
        ([1, 0, 1, 0], false),
        ([0, 0, 0, 0], false),
    ];
    for ([a, i, b, k], is_cell) in &rows {
        let hops = [
            Hop::Member(*a),
            Hop::Element(*i),
            Hop::Member(*b),
            Hop::Element(*k),
        ];
        let cell = place(&rt, 5, hops.as_slice());
        assert!(rt; found(&memory, &cell).is_none());
        assert_eq!(rt; memory.write(&cell, Value::Null), *is_cell);
        assert_eq!(rt; found(&memory, &cell).is_some(), *is_cell);
    }
}

#[test]
fn a_block_that_is_left_has_no_cell(rt: HostRuntime) {
    let mut memory = beginning(&rt);
    let cell = place(&rt, 1, &[]);
    assert!(rt; memory.write(&cell, Value::Number(5)));
    assert!(rt; found(&memory, &cell) == Some(5));
    memory.leave(1);
    assert!(rt; found(&memory, &cell).is_none());
    assert!(rt; !memory.write(&cell, Value::Number(6)));
}

#[test]
fn the_start_of_a_block_of_malloc_is_freed_once(rt: HostRuntime) {
    let mut memory = beginning(&rt);
    memory.allocate(rt.alloc(), &int(), 3).expect(&rt, "memory");
    // The pointer's block and index, and whether the block is freed; block 1 is a global.
    let rows = [(5, 1, false), (1, 0, false), (5, 0, true), (5, 0, false)];
    for (block, index, freed) in &rows {
        let at = Pointer {
            block: *block,
            path: Items::new(rt.alloc()),
            index: *index,
        };
        assert_eq!(rt; memory.free(&at), *freed);
    }
}
