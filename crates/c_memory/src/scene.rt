//! What an expression is evaluated in, and what it gives by the values and objects of its parts.
ghost use Rattle.std.specs.Prelude.{◌≡◌, IfOk, option_and_then};
ghost use Rattle.c_language.specs.TreeTypes.{tree_type};
ghost use Rattle.c_language.specs.TreeTypes as tree;
ghost use Rattle.c_meaning.specs.Pointers as pointers;
ghost use Rattle.c_meaning.specs.Values as spec;
ghost use Rattle.c_memory.specs.Scenes.{state_in};

use crate::memory::Memory;
use crate::objects::{item, member_of, object_value, pointed_member, variable_place};
use crate::operators::binary_value;
use crate::values::{as_type, unary_value};
use c_arith::{BinaryOp, UnaryOp};
use c_language::ExprType;
use c_meaning::{Place, Value};
use c_tree::{Expr, MemberId, Program, VarId};
use std::alloc::{AllocError, Global};
use tree_types::{expr_type, variable_type};

/// What an expression is evaluated in.
#[derive(Clone, Copy)]
pub struct Scene<'p, 'f, 'm> {
    /// Where memory is taken.
    pub alloc: Global,
    /// The program, whose types count.
    pub program: &'p Program,
    /// For each variable the number of its block, where it has one.
    pub frame: &'f [Option<u64>],
    /// The memory that is read.
    pub memory: &'m Memory,
}

/// The object of a variable.
pub fn object_of(s: Scene, x: VarId) -> Option<Place>
    ensures { result ≡ spec.variable_place x (state_in s.entry) }
{
    variable_place(s.alloc, s.frame, x)
}

/// The value of a variable. Err: no memory was left.
pub(crate) fn variable_value(s: Scene, x: VarId) -> Result<Option<Value>, AllocError>
    ensures { IfOk result (λ o. o ≡ option_and_then (spec.object_value (tree.type_of_variable s.entry.program.now x) s.entry.memory.now) (spec.variable_place x (state_in s.entry))) }
{
    let shape = variable_type(s.alloc, s.program, x)?;
    object_value(s.alloc, s.memory, &shape, object_of(s, x))
}

/// A unary operator at the value of an operand. Err: no memory was left.
pub(crate) fn unary_of(
    op: UnaryOp,
    s: Scene,
    a: &Expr,
    operand: Option<Value>,
) -> Result<Option<Value>, AllocError>
    ensures { IfOk result (λ o. o ≡ spec.unary_value op (tree_type s.entry.program.now a.now) operand) }
{
    match operand {
        Some(value) => Ok(unary_value(op, &expr_type(s.alloc, s.program, a)?, &value)),
        None => Ok(None),
    }
}

/// A binary operator at the values of operands. Err: no memory was left.
pub fn binary_of(
    op: BinaryOp,
    s: Scene,
    a: &Expr,
    b: &Expr,
    left: Option<Value>,
    right: Option<Value>,
) -> Result<Option<Value>, AllocError>
    ensures { IfOk result (λ o. o ≡ spec.binary_value op (tree_type s.entry.program.now a.now) (tree_type s.entry.program.now b.now) s.entry.memory.now left right) }
{
    let first = expr_type(s.alloc, s.program, a)?;
    let second = expr_type(s.alloc, s.program, b)?;
    binary_value(s.alloc, op, &first, &second, s.memory, &left, &right)
}

/// The object that an expression designates, by the pointer to it. Err: no memory was left.
pub(crate) fn item_place(
    s: Scene,
    e: &Expr,
    pointer: Option<Value>,
) -> Result<Option<Place>, AllocError>
    ensures { IfOk result (λ o. o ≡ option_and_then (pointers.designated s.entry.memory.now (tree_type s.entry.program.now e.now)) pointer) }
{
    item(
        s.alloc,
        s.memory,
        &expr_type(s.alloc, s.program, e)?,
        &pointer,
    )
}

/// The value of the object that an expression designates. Err: no memory was left.
pub(crate) fn value_at(
    s: Scene,
    e: &Expr,
    place: Option<Place>,
) -> Result<Option<Value>, AllocError>
    ensures { IfOk result (λ o. o ≡ option_and_then (spec.object_value (tree_type s.entry.program.now e.now) s.entry.memory.now) place) }
{
    object_value(s.alloc, s.memory, &expr_type(s.alloc, s.program, e)?, place)
}

/// A member of the struct object at a place. Err: no memory was left.
pub(crate) fn member_in(
    s: Scene,
    m: MemberId,
    place: Option<Place>,
) -> Result<Option<Place>, AllocError>
    ensures { IfOk result (λ o. o ≡ spec.member_of m (state_in s.entry) place) }
{
    member_of(s.alloc, s.memory, m, place)
}

/// A member of the struct object to which a pointer points. Err: no memory was left.
pub(crate) fn member_behind(
    s: Scene,
    m: MemberId,
    pointer: Option<Value>,
) -> Result<Option<Place>, AllocError>
    ensures { IfOk result (λ o. o ≡ spec.pointed_member m (state_in s.entry) pointer) }
{
    pointed_member(s.alloc, s.memory, m, &pointer)
}

/// A value as a type has it; None where there is none, or the type can't have it.
pub fn converted(shape: &ExprType, value: Option<Value>) -> Option<Value>
    ensures { result ≡ option_and_then (spec.as_type shape.now) value }
{
    match value {
        Some(given) => as_type(shape, given),
        None => None,
    }
}

/// A value as the type of an expression has it. Err: no memory was left.
pub(crate) fn as_type_of(
    s: Scene,
    e: &Expr,
    value: Option<Value>,
) -> Result<Option<Value>, AllocError>
    ensures { IfOk result (λ o. o ≡ option_and_then (spec.as_type (tree_type s.entry.program.now e.now)) value) }
{
    Ok(converted(&expr_type(s.alloc, s.program, e)?, value))
}
