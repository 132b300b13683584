//! Moves of pointers, and the objects that they designate (ISO C99 6.5.3.2, 6.5.6).
ghost use Rattle.std.specs.Prelude.{◌≡◌, pos, ◌+ℤ◌, neg_ℤ, IfOk, Some};
ghost use Rattle.c_meaning.specs.Pointers as spec;

use crate::memory::{Memory, length_in};
use c_language::{Base, ExprType, Layer};
use c_meaning::{Hop, Place, Pointer, Value};
use std::alloc::{AllocError, Global};

/// A pointer moved by so many objects; None where that leaves 0 to the length, or the value is no pointer or null.
/// Err: no memory was left, or the index has more than 32 bits.
pub fn moved(
    alloc: Global,
    memory: &Memory,
    by: i128,
    value: &Value,
) -> Result<Option<Value>, AllocError>
    ensures { IfOk result (λ o. o ≡ spec.moved memory.now by value.now) }
{
    match value {
        Value::To(at) => match memory.length_at(at) {
            Some(length) => at_index(alloc, at, length, by),
            None => Ok(None),
        },
        Value::Number(_) => Ok(None),
        Value::Null => Ok(None),
    }
}

/// A pointer moved back by so many objects; None where that leaves 0 to the length, or the value is no pointer or null.
/// Err: no memory was left, or the index has more than 32 bits.
pub fn moved_back(
    alloc: Global,
    memory: &Memory,
    by: i128,
    value: &Value,
) -> Result<Option<Value>, AllocError>
    ensures { IfOk result (λ o. o ≡ spec.moved memory.now (neg_ℤ by) value.now) }
{
    match value {
        Value::To(at) => match memory.length_at(at) {
            Some(length) => at_index_back(alloc, at, length, by),
            None => Ok(None),
        },
        Value::Number(_) => Ok(None),
        Value::Null => Ok(None),
    }
}

// A pointer in an array of so many objects, moved back by so many. Err: no memory was left, or the index has more
// than 32 bits.
fn at_index_back(
    alloc: Global,
    from: &Pointer,
    length: u64,
    by: i128,
) -> Result<Option<Value>, AllocError>
    ensures { IfOk result (λ o. o ≡ spec.at_index from.now length (pos from.now.index +ℤ neg_ℤ by)) }
{
    match by.checked_neg() {
        Some(forward) => at_index(alloc, from, length, forward),
        None => Ok(None),
    }
}

// A pointer in an array of so many objects, moved by so many. Err: no memory was left, or the index has more than
// 32 bits.
fn at_index(
    alloc: Global,
    from: &Pointer,
    length: u64,
    by: i128,
) -> Result<Option<Value>, AllocError>
    ensures { IfOk result (λ o. o ≡ spec.at_index from.now length (pos from.now.index +ℤ by)) }
{
    let Some(index) = (from.index as i128).checked_add(by) else {
        return Ok(None);
    };
    if index < 0 || (length as i128) < index {
        return Ok(None);
    }
    if index > u32::MAX as i128 {
        return Err(AllocError);
    }
    Ok(Some(Value::To(with_index(alloc, from, index as u32)?)))
}

/// The object of a type that a value designates; None where it is no pointer, is null, points behind the last object,
/// or where the object has another type. Err: no memory was left.
pub fn designated(
    alloc: Global,
    memory: &Memory,
    shape: &ExprType,
    value: &Value,
) -> Result<Option<Place>, AllocError>
    ensures { IfOk result (λ o. o ≡ spec.designated memory.now shape.now value.now) }
{
    match value {
        Value::To(at) => match pointed(alloc, memory, at)? {
            Some(place) => Ok(if_typed(memory, shape, place)),
            None => Ok(None),
        },
        Value::Number(_) => Ok(None),
        Value::Null => Ok(None),
    }
}

fn if_typed(memory: &Memory, shape: &ExprType, place: Place) -> Option<Place>
    ensures { result ≡ spec.if_typed memory.now shape.now place }
{
    if memory.has_type(shape, &place) {
        Some(place)
    } else {
        None
    }
}

// The object to which a pointer points; None behind the last. Err: no memory was left.
fn pointed(alloc: Global, memory: &Memory, at: &Pointer) -> Result<Option<Place>, AllocError>
    ensures { IfOk result (λ o. o ≡ spec.pointed memory.now at.now) }
{
    match memory.part(at.block, at.path.as_slice()) {
        Some(part) => item_at(alloc, at, part.layers, part.base),
        None => Ok(None),
    }
}

// The object at the index, in an array or a single object of this type. Err: no memory was left.
fn item_at(
    alloc: Global,
    at: &Pointer,
    layers: &[Layer],
    base: Base,
) -> Result<Option<Place>, AllocError>
    ensures { IfOk result (λ o. o ≡ spec.item_at at.now (record { layers = layers.now; base = base })) }
{
    if at.index as u64 >= length_in(layers) {
        return Ok(None);
    }
    let mut path = at.copy(alloc)?.path;
    if let Some(Layer::Array(_)) = layers.first() {
        path.push(Hop::Element(at.index))?;
    }
    Ok(Some(Place {
        block: at.block,
        path,
    }))
}

// A pointer in the same array or single object. Err: no memory was left.
fn with_index(alloc: Global, from: &Pointer, index: u32) -> Result<Pointer, AllocError>
    ensures { IfOk result (λ p. p ≡ record from.now { index = index }) }
{
    let mut at = from.copy(alloc)?;
    at.index = index;
    Ok(at)
}
