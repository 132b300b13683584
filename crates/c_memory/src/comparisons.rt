//! Comparisons of pointers (ISO C99 6.5.8, 6.5.9). They take no memory.
ghost use Rattle.std.specs.Prelude.{◌≡◌};
ghost use Rattle.c_language.specs.Lists.{same_all};
ghost use Rattle.c_meaning.specs.declared.value.Value.TheVariants.{To};
ghost use Rattle.c_meaning.specs.Pointers as spec;

use crate::memory::Memory;
use c_arith::{BinaryOp, IntType, binary};
use c_meaning::{Hop, Pointer, Value};

fn same_hop(g: Hop, h: Hop) -> bool
    ensures { result ≡ spec.same_hop g h }
{
    match (g, h) {
        (Hop::Member(i), Hop::Member(j)) => i == j,
        (Hop::Element(i), Hop::Element(j)) => i == j,
        _ => false,
    }
}

fn same_hops(g: &[Hop], h: &[Hop]) -> bool
    ensures { result ≡ same_all spec.same_hop g.now h.now }
{
    let Some((i, g_rest)) = g.split_first() else {
        return h.is_empty();
    };
    let Some((j, h_rest)) = h.split_first() else {
        return false;
    };
    same_hop(*i, *j) && same_hops(g_rest, h_rest)
}

/// Whether both pointers are in one array, or in one single object.
pub fn are_together(p: &Pointer, q: &Pointer) -> bool
    ensures { result ≡ spec.are_together p.now q.now }
{
    p.block == q.block && same_hops(p.path.as_slice(), q.path.as_slice())
}

// Whether a pointer points behind the last object.
fn is_end(memory: &Memory, p: &Pointer) -> bool
    ensures { result ≡ spec.is_end memory.now p.now }
{
    match memory.length_at(p) {
        Some(length) => p.index as u64 == length,
        None => false,
    }
}

// Whether one of both points behind the last object of an array, and the other to the first of another.
fn may_touch(memory: &Memory, p: &Pointer, q: &Pointer) -> bool
    ensures { result ≡ spec.may_touch memory.now p.now q.now }
{
    (is_end(memory, p) && q.index == 0) || (is_end(memory, q) && p.index == 0)
}

// Whether two pointers are equal; None where that is undefined.
fn same_pointer(memory: &Memory, p: &Pointer, q: &Pointer) -> Option<bool>
    ensures { result ≡ spec.same_pointer memory.now p.now q.now }
{
    if are_together(p, q) {
        Some(p.index == q.index)
    } else if may_touch(memory, p, q) {
        None
    } else {
        Some(false)
    }
}

/// A difference, or an order, of two pointers, which is that of their indices, as longs; None where they are not in
/// one array or one single object (6.5.6, 6.5.8).
pub fn at_indices(op: BinaryOp, p: &Pointer, q: &Pointer) -> Option<Value>
    ensures { result ≡ spec.at_indices op (To p.now) (To q.now) }
{
    if !are_together(p, q) {
        return None;
    }
    match binary(op, IntType::Long, p.index as i128, q.index as i128) {
        Some(number) => Some(Value::Number(number)),
        None => None,
    }
}

/// Whether two pointers are equal, what is no pointer standing for a null pointer (6.5.9, paragraph 6). None where
/// one points behind the last object of an array and the other to the first of another, which is undefined here.
pub fn are_equal(memory: &Memory, a: &Value, b: &Value) -> Option<bool>
    ensures { result ≡ spec.are_equal memory.now a.now b.now }
{
    match (a, b) {
        (Value::To(p), Value::To(q)) => same_pointer(memory, p, q),
        (Value::To(_), Value::Number(_)) => Some(false),
        (Value::To(_), Value::Null) => Some(false),
        (Value::Number(_), Value::To(_)) => Some(false),
        (Value::Null, Value::To(_)) => Some(false),
        _ => Some(true),
    }
}
