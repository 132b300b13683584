//! The memory in which a run begins: globals with and without initialisers, as C99 6.7.8 has them.
use crate::trees::{beginning, found, place, program};
use c_meaning::Hop;
use c_memory::Globals;

#[test]
fn globals_have_their_initialisers_or_zeros(rt: HostRuntime) {
    let memory = beginning(&rt);
    // The block and the path, and the number there; -1 is a null pointer, and None where there is no cell.
    let rows: [(u64, &[Hop], Option<i128>); 10] = [
        (0, &[], Some(44)),
        (1, &[], Some(0)),
        (2, &[Hop::Element(1)], Some(2)),
        (2, &[Hop::Element(2)], Some(0)),
        (2, &[Hop::Element(3)], None),
        (3, &[], Some(-1)),
        (4, &[Hop::Member(1)], Some(0)),
        (
            4,
            &[Hop::Member(0), Hop::Element(1), Hop::Member(0)],
            Some(0),
        ),
        (
            4,
            &[
                Hop::Member(0),
                Hop::Element(1),
                Hop::Member(1),
                Hop::Element(1),
            ],
            Some(-1),
        ),
        (4, &[Hop::Member(0), Hop::Element(2), Hop::Member(0)], None),
    ];
    for (block, hops, wanted) in &rows {
        assert!(rt; found(&memory, &place(&rt, *block, *hops)) == *wanted);
    }
}

#[test]
fn globals_have_blocks_in_their_order(rt: HostRuntime) {
    let globals = Globals::new(rt.alloc(), &program(&rt)).expect(&rt, "memory");
    assert_eq!(rt; globals.memory.block_count(), 5);
    for x in 0..5u64 {
        assert!(rt; globals.frame.get(x as usize) == Some(&Some(x)));
    }
}
