//! Types of expressions, and what operators make of them (ISO C99 6.5).
ghost use Rattle.std.specs.Prelude.{◌≡◌, IfOk, Option, is_some};
ghost use Rattle.c_language.specs.DeclaredTypes as types;
ghost use Rattle.c_language.specs.ExprTypes as spec;
ghost use Rattle.c_language.specs.Lists.{same_all};

use c_arith::IntType;
use c_language::{Base, ExprType, Layer};
use sqlite_items::Items;
use std::alloc::{AllocError, Global};

/// An equal type. Err: no memory was left.
pub fn copy(alloc: Global, t: &ExprType) -> Result<ExprType, AllocError>
    ensures { IfOk result (λ x. x ≡ t.now) }
{
    Ok(ExprType {
        layers: Items::from_slice(alloc, t.layers.as_slice())?,
        base: t.base,
    })
}

/// An integer type (ISO C99 6.2.5).
pub fn integer(alloc: Global, t: IntType) -> ExprType
    ensures { result ≡ types.integer t }
{
    ExprType {
        layers: Items::new(alloc),
        base: Base::Integer(t),
    }
}

fn same_int(s: IntType, t: IntType) -> bool
    ensures { result ≡ spec.same_int s t }
{
    s == t
}

fn same_base(s: Base, t: Base) -> bool
    ensures { result ≡ spec.same_base s t }
{
    match (s, t) {
        (Base::Integer(a), Base::Integer(b)) => same_int(a, b),
        (Base::Struct(m), Base::Struct(n)) => m == n,
        (Base::Void, Base::Void) => true,
        _ => false,
    }
}

fn same_layer(l: Layer, m: Layer) -> bool
    ensures { result ≡ spec.same_layer l m }
{
    match (l, m) {
        (Layer::Pointer, Layer::Pointer) => true,
        (Layer::Array(a), Layer::Array(b)) => a == b,
        _ => false,
    }
}

/// The integer type that a type is.
pub fn integer_of(t: &ExprType) -> Option<IntType>
    ensures { result ≡ spec.integer_of t.now }
{
    if !t.layers.is_empty() {
        return None;
    }
    match t.base {
        Base::Integer(i) => Some(i),
        Base::Struct(_) | Base::Void => None,
    }
}

/// The struct type that a type is.
pub fn struct_of(t: &ExprType) -> Option<u32>
    ensures { result ≡ spec.struct_of t.now }
{
    if !t.layers.is_empty() {
        return None;
    }
    match t.base {
        Base::Struct(s) => Some(s),
        Base::Integer(_) | Base::Void => None,
    }
}

/// Whether the type is an integer type.
pub fn is_integer(t: &ExprType) -> bool
    ensures { result ≡ spec.is_integer t.now }
{
    integer_of(t).is_some()
}

/// What a pointer type points to.
pub fn target_of(mut t: ExprType) -> Option<ExprType>
    ensures { result ≡ spec.target_of t }
{
    match t.layers.get(0) {
        Some(Layer::Pointer) => {
            let _pointer = t.layers.remove(0);
            Some(t)
        }
        _ => None,
    }
}

/// Whether the type is a pointer type.
pub fn is_pointer(t: &ExprType) -> bool
    ensures { result ≡ spec.is_pointer t.now }
{
    match t.layers.get(0) {
        Some(Layer::Pointer) => true,
        _ => false,
    }
}

/// Whether the type is an array type.
pub fn is_array(t: &ExprType) -> bool
    ensures { result ≡ spec.is_array t.now }
{
    match t.layers.get(0) {
        Some(Layer::Array(_)) => true,
        _ => false,
    }
}

/// Whether the type is a pointer to objects; that of `NULL` is none.
pub fn is_object_pointer(t: &ExprType) -> bool
    ensures { result ≡ spec.is_object_pointer t.now }
{
    is_pointer(t) && (t.layers.len() != 1 || t.base != Base::Void)
}

/// Whether the type is an integer or a pointer.
pub fn is_scalar(t: &ExprType) -> bool
    ensures { result ≡ spec.is_scalar t.now }
{
    is_integer(t) || is_pointer(t)
}

/// The type of a value: an array turns into a pointer to its first element (6.3.2.1).
pub fn value_type(mut t: ExprType) -> ExprType
    ensures { result ≡ spec.value_type t }
{
    if is_array(&t) {
        t.layers.set(0, Layer::Pointer);
    }
    t
}

/// Whether two lists of layers are the same from a place on.
fn same_layers(s: &[Layer], t: &[Layer]) -> bool
    ensures { result ≡ same_all spec.same_layer s.now t.now }
{
    let Some((l, ls)) = s.split_first() else {
        return t.is_empty();
    };
    let Some((m, ms)) = t.split_first() else {
        return false;
    };
    same_layer(*l, *m) && same_layers(ls, ms)
}

/// Whether two types are the same, with equal lengths.
pub fn same_type(s: &ExprType, t: &ExprType) -> bool
    ensures { result ≡ spec.same_type s.now t.now }
{
    same_layers(s.layers.as_slice(), t.layers.as_slice()) && same_base(s.base, t.base)
}

/// The type of pointers to a type. Err: no memory was left.
pub fn pointer_to(alloc: Global, t: ExprType) -> Result<ExprType, AllocError>
    ensures { IfOk result (λ p. p ≡ types.pointer_to t) }
{
    let mut layers = Items::new(alloc);
    layers.push(Layer::Pointer)?;
    layers.append(t.layers)?;
    Ok(ExprType {
        layers,
        base: t.base,
    })
}

/// The type of arrays of a type, with a length. Err: no memory was left.
pub fn array_of(alloc: Global, t: ExprType, length: u64) -> Result<ExprType, AllocError>
    ensures { IfOk result (λ a. a ≡ types.with_layer (Layer.Array length) t) }
{
    let mut layers = Items::new(alloc);
    layers.push(Layer::Array(length))?;
    layers.append(t.layers)?;
    Ok(ExprType {
        layers,
        base: t.base,
    })
}

/// The struct type with a number.
pub fn struct_type(alloc: Global, s: u32) -> ExprType
    ensures { result ≡ types.of_base (Base.Struct s) }
{
    ExprType {
        layers: Items::new(alloc),
        base: Base::Struct(s),
    }
}

/// The type of what a function without a result gives.
pub fn void(alloc: Global) -> ExprType
    ensures { result ≡ types.void }
{
    ExprType {
        layers: Items::new(alloc),
        base: Base::Void,
    }
}
