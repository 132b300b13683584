//! The types that declarators write (ISO C99 6.7.5).
ghost use Rattle.std.specs.Prelude.{◌≡◌, IfOk, option_and_then};
ghost use Rattle.c_language.specs.DeclaredTypes as types;
ghost use Rattle.c_types_base.specs.Definitions.{IsOfText};
ghost use Rattle.c_types_base.specs.Values.{IsInType};

use crate::constant::constant;
use crate::definitions::Definitions;
use crate::expr_type::{array_of, integer, pointer_to, struct_type, void};
use c_language::{Constant, ExprType};
use c_tree::{RawHead, RawInit, RawLength, RawType, RawVar};
use std::alloc::{AllocError, Global};

/// The length that a constant gives an array: at least 1 (6.7.5.2).
fn length_of(c: Constant) -> Option<u64>
    requires { IsInType c }
    ensures { result ≡ option_and_then types.positive c.value }
{
    match u64::try_from(c.value?) {
        Ok(0) | Err(_) => None,
        Ok(length) => Some(length),
    }
}

/// The length of an array, where a list of initialisers has so many items (6.7.8, paragraph 22).
pub fn length_in(items: usize, length: &RawLength) -> Option<u64>
    ensures { result ≡ types.length_in items length.now }
{
    match length {
        RawLength::Written(e) => length_of(constant(e)?),
        RawLength::Listed => Some(items as u64),
    }
}

/// A type, where a list of initialisers has so many items. Ok with None: its tag isn't defined, or a
/// length is no constant of at least 1. Err: no memory was left.
#[tactic(auto, using(crate::proofs::Rulesets::written_types))]
pub fn type_with(
    alloc: Global,
    defined: &Definitions<'_>,
    items: usize,
    shape: &RawType,
) -> Result<Option<ExprType>, AllocError>
    requires { IsOfText defined.now }
    ensures { IfOk result (λ t. t ≡ types.type_with defined.now.raw.now items shape.now) }
{
    match shape {
        RawType::Integer(t) => Ok(Some(integer(alloc, *t))),
        RawType::PointerTo(inner) => {
            let Some(target) = type_with(alloc, defined, items, inner.get())? else {
                return Ok(None);
            };
            Ok(Some(pointer_to(alloc, target)?))
        }
        RawType::Array(inner, length) => {
            let Some(element) = type_with(alloc, defined, items, inner.get())? else {
                return Ok(None);
            };
            let Some(length) = length_in(items, length) else {
                return Ok(None);
            };
            Ok(Some(array_of(alloc, element, length)?))
        }
        RawType::Struct(tag) => match defined.struct_id(tag.bytes()) {
            Some(s) => Ok(Some(struct_type(alloc, s))),
            None => Ok(None),
        },
    }
}

/// A type as it is written. Err: no memory was left.
pub fn written_type(
    alloc: Global,
    defined: &Definitions<'_>,
    shape: &RawType,
) -> Result<Option<ExprType>, AllocError>
    requires { IsOfText defined.now }
    ensures { IfOk result (λ t. t ≡ types.written_type defined.now.raw.now shape.now) }
{
    type_with(alloc, defined, 0, shape)
}

/// How many items a list of initialisers has.
pub fn item_count(init: &RawInit) -> usize
    ensures { result ≡ types.item_count init.now }
{
    match init {
        RawInit::None | RawInit::One(_) => 0,
        RawInit::Items(items) => items.len(),
    }
}

/// The type of a declared variable. Err: no memory was left.
pub fn variable_type(
    alloc: Global,
    defined: &Definitions<'_>,
    var: &RawVar,
    init: &RawInit,
) -> Result<Option<ExprType>, AllocError>
    requires { IsOfText defined.now }
    ensures { IfOk result (λ t. t ≡ types.variable_type defined.now.raw.now var.now init.now) }
{
    type_with(alloc, defined, item_count(init), &var.shape)
}

/// The type of a function's result, void where it has none. Err: no memory was left.
pub fn result_type(
    alloc: Global,
    defined: &Definitions<'_>,
    head: &RawHead,
) -> Result<Option<ExprType>, AllocError>
    requires { IsOfText defined.now }
    ensures { IfOk result (λ t. t ≡ types.result_type defined.now.raw.now head.now) }
{
    match &head.result {
        None => Ok(Some(void(alloc))),
        Some(shape) => written_type(alloc, defined, shape),
    }
}
