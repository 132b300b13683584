//! Binary operators at values (ISO C99 6.5.5 to 6.5.15), by whether their operands are pointers.
ghost use Rattle.std.specs.Prelude.{◌≡◌, not, IfOk, Some, option_map};
ghost use Rattle.c_language.specs.ExprTypes as types;
ghost use Rattle.c_language.specs.TreeTypes as tree;
ghost use Rattle.c_meaning.specs.declared.value.Value.TheVariants.{Number};
ghost use Rattle.c_meaning.specs.Pointers as pointers;
ghost use Rattle.c_meaning.specs.Values as spec;

use crate::comparisons::{are_equal, at_indices};
use crate::memory::Memory;
use crate::moves::{moved, moved_back};
use crate::values::converted_binary;
use c_arith::{BinaryOp, IntType};
use c_language::ExprType;
use c_meaning::Value;
use c_types_base::constant::operand_type;
use c_types_base::expr_type::integer_of;
use std::alloc::{AllocError, Global};

/// The integer type of an operand; that of a pointer is of no meaning.
pub(crate) fn int_type(t: &ExprType) -> IntType
    ensures { result ≡ tree.int_type t.now }
{
    integer_of(t).unwrap_or(IntType::Int)
}

// Whether the value of an operand of this type is a pointer, as that of an array is.
fn gives_pointer(t: &ExprType) -> bool
    ensures { result ≡ types.is_pointer (types.value_type t.now) }
{
    match t.layers.get(0) {
        Some(_) => true,
        None => false,
    }
}

fn as_number(number: Option<i128>) -> Option<Value>
    ensures { result ≡ option_map Number number }
{
    match number {
        Some(z) => Some(Value::Number(z)),
        None => None,
    }
}

// An operator at two integers, which are converted to the type.
fn at_numbers(op: BinaryOp, t: IntType, a: &Value, b: &Value) -> Option<Value>
    ensures { result ≡ spec.at_numbers (spec.converted_binary op t) a.now b.now }
{
    match (a, b) {
        (Value::Number(x), Value::Number(y)) => as_number(converted_binary(op, t, *x, *y)),
        _ => None,
    }
}

// A difference or an order of two pointers.
fn in_order(op: BinaryOp, a: &Value, b: &Value) -> Option<Value>
    ensures { result ≡ pointers.at_indices op a.now b.now }
{
    match (a, b) {
        (Value::To(p), Value::To(q)) => at_indices(op, p, q),
        _ => None,
    }
}

// `==` at pointers.
fn equal(memory: &Memory, a: &Value, b: &Value) -> Option<Value>
    ensures { result ≡ pointers.equality pointers.as_it_is (pointers.are_equal memory.now a.now b.now) }
{
    match are_equal(memory, a, b) {
        Some(true) => Some(Value::Number(1)),
        Some(false) => Some(Value::Number(0)),
        None => None,
    }
}

// `!=` at pointers.
fn unequal(memory: &Memory, a: &Value, b: &Value) -> Option<Value>
    ensures { result ≡ pointers.equality not (pointers.are_equal memory.now a.now b.now) }
{
    match are_equal(memory, a, b) {
        Some(true) => Some(Value::Number(0)),
        Some(false) => Some(Value::Number(1)),
        None => None,
    }
}

// An operator at two pointers.
fn at_pointers(op: BinaryOp, memory: &Memory, a: &Value, b: &Value) -> Option<Value>
    ensures { result ≡ pointers.at_pointers op memory.now a.now b.now }
{
    match op {
        BinaryOp::Sub => in_order(BinaryOp::Sub, a, b),
        BinaryOp::Less => in_order(BinaryOp::Less, a, b),
        BinaryOp::Greater => in_order(BinaryOp::Greater, a, b),
        BinaryOp::AtMost => in_order(BinaryOp::AtMost, a, b),
        BinaryOp::AtLeast => in_order(BinaryOp::AtLeast, a, b),
        BinaryOp::Equal => equal(memory, a, b),
        BinaryOp::Unequal => unequal(memory, a, b),
        _ => None,
    }
}

// A pointer moved by an integer. Err: no memory was left.
fn moved_by(
    alloc: Global,
    memory: &Memory,
    at: &Value,
    by: &Value,
) -> Result<Option<Value>, AllocError>
    ensures { IfOk result (λ o. o ≡ pointers.moved_by memory.now at.now by.now) }
{
    match by {
        Value::Number(number) => moved(alloc, memory, *number, at),
        Value::Null => Ok(None),
        Value::To(_) => Ok(None),
    }
}

// A pointer moved back by an integer. Err: no memory was left.
fn less_by(
    alloc: Global,
    memory: &Memory,
    at: &Value,
    by: &Value,
) -> Result<Option<Value>, AllocError>
    ensures { IfOk result (λ o. o ≡ pointers.moved_back memory.now at.now by.now) }
{
    match by {
        Value::Number(number) => moved_back(alloc, memory, *number, at),
        Value::Null => Ok(None),
        Value::To(_) => Ok(None),
    }
}

// An operator at a pointer and an integer. Err: no memory was left.
fn at_pointer_left(
    alloc: Global,
    op: BinaryOp,
    memory: &Memory,
    a: &Value,
    b: &Value,
) -> Result<Option<Value>, AllocError>
    ensures { IfOk result (λ o. o ≡ pointers.at_pointer_left op memory.now a.now b.now) }
{
    match op {
        BinaryOp::Add => moved_by(alloc, memory, a, b),
        BinaryOp::Sub => less_by(alloc, memory, a, b),
        BinaryOp::Equal => Ok(equal(memory, a, b)),
        BinaryOp::Unequal => Ok(unequal(memory, a, b)),
        _ => Ok(None),
    }
}

// An operator at an integer and a pointer. Err: no memory was left.
fn at_pointer_right(
    alloc: Global,
    op: BinaryOp,
    memory: &Memory,
    a: &Value,
    b: &Value,
) -> Result<Option<Value>, AllocError>
    ensures { IfOk result (λ o. o ≡ pointers.at_pointer_right op memory.now a.now b.now) }
{
    match op {
        BinaryOp::Add => moved_by(alloc, memory, b, a),
        BinaryOp::Equal => Ok(equal(memory, a, b)),
        BinaryOp::Unequal => Ok(unequal(memory, a, b)),
        _ => Ok(None),
    }
}

// An operator at the values of operands of two types. Err: no memory was left.
fn at_operands(
    alloc: Global,
    op: BinaryOp,
    s: &ExprType,
    t: &ExprType,
    memory: &Memory,
    a: &Value,
    b: &Value,
) -> Result<Option<Value>, AllocError>
    ensures { IfOk result (λ o. o ≡ spec.binary_value op s.now t.now memory.now (Some a.now) (Some b.now)) }
{
    match (gives_pointer(s), gives_pointer(t)) {
        (true, true) => Ok(at_pointers(op, memory, a, b)),
        (true, false) => at_pointer_left(alloc, op, memory, a, b),
        (false, true) => at_pointer_right(alloc, op, memory, a, b),
        (false, false) => {
            let integer = operand_type(op, int_type(s), int_type(t));
            Ok(at_numbers(op, integer, a, b))
        }
    }
}

/// An operator at operands of two types; None where one has no value, or the act is undefined. Integers are converted
/// first (6.3.1.8), and an array is a pointer to its first element. Err: no memory was left, or an index has more
/// than 32 bits.
pub fn binary_value(
    alloc: Global,
    op: BinaryOp,
    s: &ExprType,
    t: &ExprType,
    memory: &Memory,
    left: &Option<Value>,
    right: &Option<Value>,
) -> Result<Option<Value>, AllocError>
    ensures { IfOk result (λ o. o ≡ spec.binary_value op s.now t.now memory.now left.now right.now) }
{
    match left {
        Some(a) => match right {
            Some(b) => at_operands(alloc, op, s, t, memory, a, b),
            None => Ok(None),
        },
        None => Ok(None),
    }
}
