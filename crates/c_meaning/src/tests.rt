//! Copies of places, pointers and other values are equal to what was copied.
use crate::{Hop, Path, Place, Pointer, Value};
use sqlite_items::Items;
use std::alloc::{AllocError, Global};

// The way to the third element of the second member.
fn third_of_second(alloc: Global) -> Result<Path, AllocError> {
    let mut path = Items::new(alloc);
    path.push(Hop::Member(1))?;
    path.push(Hop::Element(2))?;
    Ok(path)
}

fn pointer(alloc: Global) -> Result<Value, AllocError> {
    let path = third_of_second(alloc)?;
    Ok(Value::To(Pointer {
        block: 7,
        path,
        index: 3,
    }))
}

#[test]
fn a_copy_of_a_place_is_equal(rt: HostRuntime) -> Result<(), AllocError> {
    let alloc = rt.alloc();
    let path = third_of_second(alloc)?;
    let place = Place { block: 7, path };
    let copy = place.copy(alloc)?;
    assert_eq!(rt; copy.block, 7);
    let hops = [Hop::Member(1), Hop::Element(2)];
    assert_eq!(rt; copy.path.as_slice(), hops.as_slice());
    Ok(())
}

#[test]
fn a_copy_of_a_pointer_is_equal(rt: HostRuntime) -> Result<(), AllocError> {
    let alloc = rt.alloc();
    let value = pointer(alloc)?;
    match value.copy(alloc)? {
        Value::To(copy) => {
            assert_eq!(rt; (copy.block, copy.index), (7, 3));
            let hops = [Hop::Member(1), Hop::Element(2)];
            assert_eq!(rt; copy.path.as_slice(), hops.as_slice());
        }
        _ => assert!(rt; false, "another kind of value"),
    }
    Ok(())
}

#[test]
fn a_copy_of_another_value_is_equal(rt: HostRuntime) -> Result<(), AllocError> {
    let alloc = rt.alloc();
    // Each value, and how it is shown.
    let rows = [
        (Value::Number(-3), "Number(-3)"),
        (Value::Number(0), "Number(0)"),
        (Value::Null, "Null"),
    ];
    for (value, shown) in &rows {
        let copy = value.copy(alloc)?;
        let text = format!(in alloc; "{copy:?}")?;
        assert_eq!(rt; text.as_str(), *shown);
    }
    Ok(())
}
