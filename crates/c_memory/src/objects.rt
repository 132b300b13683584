//! The objects that expressions designate, by the values and objects of their parts (ISO C99 6.3.2.1, 6.5.2, 6.5.3.2).
ghost use Rattle.std.specs.Prelude.{◌≡◌, IfOk, option_map, option_and_then};
ghost use Rattle.c_meaning.specs.Pointers as pointers;
ghost use Rattle.c_meaning.specs.Memory as memories;
ghost use Rattle.c_meaning.specs.Values as spec;
ghost use Rattle.c_memory.specs.Scenes.{frame_of};

use crate::memory::Memory;
use crate::moves::designated;
use c_language::ExprType;
use c_meaning::{Hop, Place, Pointer, Value};
use c_tree::{MemberId, VarId};
use c_types_base::expr_type::{is_array, struct_type};
use sqlite_items::Items;
use std::alloc::{AllocError, Global};

/// The object of a variable, by the blocks of all variables; None where it has no block.
pub(crate) fn variable_place(alloc: Global, frame: &[Option<u64>], x: VarId) -> Option<Place>
    ensures { result ≡ option_map spec.whole (frame_of frame.now x) }
{
    match frame.get(x as usize) {
        Some(Some(block)) => Some(Place {
            block: *block,
            path: Items::new(alloc),
        }),
        Some(None) => None,
        None => None,
    }
}

/// The object of a type that a value designates, where there is a value.
pub(crate) fn item(
    alloc: Global,
    memory: &Memory,
    shape: &ExprType,
    pointer: &Option<Value>,
) -> Result<Option<Place>, AllocError>
    ensures { IfOk result (λ o. o ≡ option_and_then (pointers.designated memory.now shape.now) pointer.now) }
{
    match pointer {
        Some(value) => designated(alloc, memory, shape, value),
        None => Ok(None),
    }
}

// A member of a struct object. Err: no memory was left.
fn member_inside(place: Place, index: u32) -> Result<Place, AllocError>
    ensures { IfOk result (λ q. q ≡ pointers.inside (Hop.Member index) place) }
{
    let mut path = place.path;
    path.push(Hop::Member(index))?;
    Ok(Place {
        block: place.block,
        path,
    })
}

/// A member of the struct object at a place; None where there is no place, or the object there has another type.
pub(crate) fn member_of(
    alloc: Global,
    memory: &Memory,
    member: MemberId,
    place: Option<Place>,
) -> Result<Option<Place>, AllocError>
    ensures { IfOk result (λ o. o ≡ option_map (pointers.inside (Hop.Member member.index))
        (option_and_then (pointers.if_typed memory.now (spec.owner_of member)) place)) }
{
    match place {
        Some(at) => {
            if memory.has_type(&struct_type(alloc, member.owner), &at) {
                Ok(Some(member_inside(at, member.index)?))
            } else {
                Ok(None)
            }
        }
        None => Ok(None),
    }
}

/// A member of the struct object that a value designates; None where it designates none.
pub(crate) fn pointed_member(
    alloc: Global,
    memory: &Memory,
    member: MemberId,
    pointer: &Option<Value>,
) -> Result<Option<Place>, AllocError>
    ensures { IfOk result (λ o. o ≡ option_map (pointers.inside (Hop.Member member.index))
        (option_and_then (pointers.designated memory.now (spec.owner_of member)) pointer.now)) }
{
    match item(alloc, memory, &struct_type(alloc, member.owner), pointer)? {
        Some(at) => Ok(Some(member_inside(at, member.index)?)),
        None => Ok(None),
    }
}

/// The pointer to an object, or to the first element of an array.
pub(crate) fn start(place: Place) -> Value
    ensures { result ≡ pointers.start place }
{
    Value::To(Pointer {
        block: place.block,
        path: place.path,
        index: 0,
    })
}

/// The pointer to an object, where there is one.
pub(crate) fn start_of(place: Option<Place>) -> Option<Value>
    ensures { result ≡ option_map pointers.start place }
{
    match place {
        Some(at) => Some(start(at)),
        None => None,
    }
}

// The value at a place, copied. Err: no memory was left.
fn read_copy(alloc: Global, memory: &Memory, place: &Place) -> Result<Option<Value>, AllocError>
    ensures { IfOk result (λ o. o ≡ memories.read memory.now place.now) }
{
    match memory.read(place) {
        Some(value) => Ok(Some(value.copy(alloc)?)),
        None => Ok(None),
    }
}

/// The value of an object of a type: an array is a pointer to its first element, and what is no array is read.
pub(crate) fn object_value(
    alloc: Global,
    memory: &Memory,
    shape: &ExprType,
    place: Option<Place>,
) -> Result<Option<Value>, AllocError>
    ensures { IfOk result (λ o. o ≡ option_and_then (spec.object_value shape.now memory.now) place) }
{
    match place {
        Some(at) => {
            if is_array(shape) {
                Ok(Some(start(at)))
            } else {
                read_copy(alloc, memory, &at)
            }
        }
        None => Ok(None),
    }
}
