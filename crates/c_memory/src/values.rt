//! Values, as tests, conversions and unary operators see them (ISO C99 6.3, 6.5.3.3). They take no memory.
ghost use Rattle.std.specs.Prelude.{◌≡◌, ◌≤ℤ◌, ℤ, Some};
ghost use Rattle.c_language.specs.ExprTypes as types;
ghost use Rattle.c_arith.specs.declared.int_type.IntType.{IntType};
ghost use Rattle.c_arith.specs.declared.int_type.IntType.TheVariants.{Long, ULong};
ghost use Rattle.c_arith.specs.IntType.{least, greatest};
ghost use Rattle.c_arith.specs.Operators as operators;
ghost use Rattle.c_arith.specs.Operators.{IsRightOperand};
ghost use Rattle.c_language.specs.ConstantEvaluation.{right_value};
ghost use Rattle.c_meaning.specs.Values as spec;

use c_arith::{BinaryOp, IntType, UnaryOp, binary, convert, promote, unary};
use c_language::ExprType;
use c_meaning::Value;
use c_types_base::expr_type::{integer_of, is_pointer};

/// A value as a test sees it: a number, or whether a pointer isn't null.
pub fn tested(value: &Value) -> i128
    ensures { result ≡ spec.tested value.now }
{
    match value {
        Value::Number(number) => *number,
        Value::Null => 0,
        Value::To(_) => 1,
    }
}

/// A value converted to a type: an integer wraps, 0 becomes a null pointer, and no pointer becomes an integer.
pub fn as_type(shape: &ExprType, value: Value) -> Option<Value>
    ensures { result ≡ spec.as_type shape.now value }
{
    match value {
        Value::Number(number) => match integer_of(shape) {
            Some(to) => Some(Value::Number(convert(number, to))),
            None => Some(Value::Null),
        },
        Value::Null => pointer_as(shape, Value::Null),
        Value::To(at) => pointer_as(shape, Value::To(at)),
    }
}

fn pointer_as(shape: &ExprType, value: Value) -> Option<Value>
    ensures { result ≡ spec.pointer_as (types.is_pointer shape.now) value }
{
    if is_pointer(shape) { Some(value) } else { None }
}

// What a unary operator sees of its operand: `!` takes a pointer as a test does, every other one a number.
fn operand_in(op: UnaryOp, value: &Value) -> Option<i128>
    ensures { result ≡ spec.operand_in op value.now }
{
    match op {
        UnaryOp::Not => Some(tested(value)),
        UnaryOp::Plus | UnaryOp::Minus | UnaryOp::Flip => number_in(value),
    }
}

fn number_in(value: &Value) -> Option<i128>
    ensures { result ≡ spec.number_in value.now }
{
    match value {
        Value::Number(number) => Some(*number),
        Value::Null => None,
        Value::To(_) => None,
    }
}

/// A unary operator at the value of an operand of this type, which is promoted first; None where that is undefined.
pub fn unary_value(op: UnaryOp, shape: &ExprType, value: &Value) -> Option<Value>
    ensures { result ≡ spec.unary_value op shape.now (Some value.now) }
{
    let to = promote(integer_of(shape).unwrap_or(IntType::Int));
    match operand_in(op, value) {
        Some(number) => match unary(op, to, convert(number, to)) {
            Some(given) => Some(Value::Number(given)),
            None => None,
        },
        None => None,
    }
}

// A shift's right operand: one that no integer type holds is -1 instead, by which every shift is undefined too.
fn amount(y: i128) -> i128
    ensures least { least Long ≤ℤ result }
    ensures greatest { result ≤ℤ greatest ULong }
    ensures left { (t : IntType) (x : ℤ) → operators.binary BinaryOp.Shl t x result ≡ operators.binary BinaryOp.Shl t x y }
    ensures right { (t : IntType) (x : ℤ) → operators.binary BinaryOp.Shr t x result ≡ operators.binary BinaryOp.Shr t x y }
{
    if y < 0 {
        return -1;
    }
    if y > 64 { -1 } else { y }
}

// The right operand of an operator, once it is converted.
fn right_operand(op: BinaryOp, t: IntType, y: i128) -> i128
    ensures fits { IsRightOperand op t result }
    ensures same { (x : ℤ) → operators.binary op t x result ≡ operators.binary op t x (right_value op t y) }
{
    match op {
        BinaryOp::Shl => amount(y),
        BinaryOp::Shr => amount(y),
        _ => convert(y, t),
    }
}

/// An operator at two numbers, the operands converted to the type; None where that is undefined.
pub(crate) fn converted_binary(op: BinaryOp, t: IntType, x: i128, y: i128) -> Option<i128>
    ensures { result ≡ spec.converted_binary op t x y }
{
    binary(op, t, convert(x, t), right_operand(op, t, y))
}
