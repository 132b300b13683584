//! Types in the tree (ISO C99 6.7.5), with struct types as numbers.
ghost use Rattle.std.specs.Prelude.{◌≡◌, Some, IfOk, decimal};
ghost use Rattle.c_language.specs.Options.{IsThere};
ghost use Rattle.c_language.specs.ConstantEvaluation.{both};
ghost use Rattle.c_language.specs.DeclaredTypes as types;
ghost use Rattle.c_language.specs.ProgramOf as trees;
ghost use Rattle.c_language.specs.TypeGrammar.{named_type};
ghost use Rattle.c_types_base.specs.Definitions.{IsOfText};
ghost use Rattle.c_types_base.specs.Tables.{AreRight};
ghost use Rattle.c_types_trees.specs.KeptPhrases.{IsKeptMember, IsKeptHead, HasNoLength, HasNoLengthIf};
ghost use Rattle.c_types_trees.specs.Shapes.{Shapes, Makes, MakesMember};

use crate::make_fault::MakeFault;
use crate::words::words;
use c_tree::{
    Boxed, CType, Items, Member, RawHead, RawLength, RawMember, RawParam, RawType, RawTypeName,
    Text, VarId,
};
use c_types_base::declared_types::length_in;
use c_types_base::definitions::Definitions;
use c_types_base::tables::Tables;
use std::alloc::{AllocError, Global};

/// Decimal digits. Err: no memory was left.
fn digits(alloc: Global, number: usize) -> Result<Text, AllocError>
    ensures { IfOk result (λ text. text ≡ decimal number) }
{
    let written = format!(in alloc; "{number}")?;
    Text::from_slice(alloc, written.as_bytes())
}

/// The words of a length: its own, or decimal digits where a list of so many items gives it. Err: no
/// memory was left.
fn length_words(alloc: Global, items: usize, length: &RawLength) -> Result<Text, AllocError>
    ensures { IfOk result (λ text. text ≡ trees.length_words items length.now) }
{
    match length {
        RawLength::Written(expr) => words(alloc, expr),
        RawLength::Listed => digits(alloc, items),
    }
}

/// An array of elements of a type. Ok with None: its length is no constant of at least 1. Err: it has
/// 2^32 elements or more, or no memory was left.
fn array_shape(
    alloc: Global,
    element: CType,
    items: usize,
    length: &RawLength,
) -> Result<Option<CType>, MakeFault>
    ensures { Shapes (both (λ t k. CType.Array t k (trees.length_words items length.now)) (Some element) (types.length_in items length.now)) result }
{
    let Some(count) = length_in(items, length) else {
        return Ok(None);
    };
    let Ok(count) = u32::try_from(count) else {
        return Err(MakeFault::Length);
    };
    let text = length_words(alloc, items, length)?;
    Ok(Some(CType::Array(Boxed::new(alloc, element)?, count, text)))
}

/// A type, where a list of initialisers has so many items. Ok with None: its tag isn't defined, or a
/// length is no constant of at least 1. Err: an array has 2^32 elements or more, or no memory was left.
#[tactic(auto, using(crate::proofs::Rulesets::shapes))]
pub fn ctype_with(
    alloc: Global,
    defined: &Definitions<'_>,
    items: usize,
    shape: &RawType,
) -> Result<Option<CType>, MakeFault>
    requires { IsOfText defined.now }
    ensures { Shapes (trees.ctype_with defined.now.raw.now items shape.now) result }
{
    match shape {
        RawType::Integer(t) => Ok(Some(CType::Integer(*t))),
        RawType::PointerTo(inner) => {
            let Some(target) = ctype_with(alloc, defined, items, inner.get())? else {
                return Ok(None);
            };
            Ok(Some(CType::PointerTo(Boxed::new(alloc, target)?)))
        }
        RawType::Array(inner, length) => {
            let Some(element) = ctype_with(alloc, defined, items, inner.get())? else {
                return Ok(None);
            };
            array_shape(alloc, element, items, length)
        }
        RawType::Struct(tag) => match defined.struct_id(tag.bytes()) {
            Some(s) => Ok(Some(CType::Struct(s))),
            None => Ok(None),
        },
    }
}

/// A type that is there, where a list of initialisers has so many items. Err: an array has 2^32 elements
/// or more, or no memory was left.
fn made_shape(
    alloc: Global,
    defined: &Definitions<'_>,
    items: usize,
    shape: &RawType,
) -> Result<CType, MakeFault>
    requires text { IsOfText defined.now }
    requires there { IsThere (trees.ctype_with defined.now.raw.now items shape.now) }
    ensures { Makes (trees.ctype_with defined.now.raw.now items shape.now) result }
{
    match ctype_with(alloc, defined, items, shape)? {
        Some(t) => Ok(t),
        None => unreachable!(),
    }
}

/// A member of a struct type. Err: an array has 2^32 elements or more, or no memory was left.
pub fn member_tree(
    alloc: Global,
    defined: &Definitions<'_>,
    member: &RawMember,
) -> Result<Member, MakeFault>
    requires text { IsOfText defined.now }
    requires kept { IsKeptMember defined.now.raw.now member.now }
    ensures { MakesMember (trees.member_tree defined.now.raw.now member.now) result }
{
    let shape = made_shape(alloc, defined, 0, &member.shape)?;
    Ok(Member {
        name: member.name.copy(alloc)?,
        shape,
    })
}

/// A type in which no length stands, whose tag is defined. Err: no memory was left.
pub fn plain_shape(
    alloc: Global,
    defined: &Definitions<'_>,
    shape: &RawType,
) -> Result<CType, AllocError>
    requires text { IsOfText defined.now }
    requires plain { HasNoLength shape.now }
    requires there { IsThere (trees.ctype defined.now.raw.now shape.now) }
    ensures { IfOk result (λ t. trees.ctype defined.now.raw.now shape.now ≡ Some t) }
{
    match ctype_with(alloc, defined, 0, shape) {
        Ok(Some(t)) => Ok(t),
        Ok(None) => unreachable!(),
        Err(MakeFault::Length) => unreachable!(),
        Err(MakeFault::NoMemory) => Err(AllocError),
    }
}

/// The type that a type name names (6.7.6), whose tag is defined. Err: no memory was left.
pub fn named_shape(
    alloc: Global,
    tables: &Tables<'_>,
    name: &RawTypeName,
) -> Result<CType, AllocError>
    requires right { AreRight tables.now }
    requires plain { HasNoLength name.now.base }
    requires there { IsThere (trees.ctype tables.now.raw.now (named_type name.now)) }
    ensures { IfOk result (λ t. trees.ctype tables.now.raw.now (named_type name.now) ≡ Some t) }
{
    let mut shape = plain_shape(alloc, &tables.defined, &name.base)?;
    for _star in 0..name.stars {
        shape = CType::PointerTo(Boxed::new(alloc, shape)?);
    }
    Ok(shape)
}

/// The type of a function's result, in which no length stands; a void function has none. Err: no memory
/// was left.
pub fn result_shape(
    alloc: Global,
    defined: &Definitions<'_>,
    head: &RawHead,
) -> Result<Option<CType>, AllocError>
    requires text { IsOfText defined.now }
    requires plain { HasNoLengthIf head.now.result }
    requires kept { IsKeptHead defined.now.raw.now head.now }
    ensures { IfOk result (λ t. trees.ctype_if defined.now.raw.now head.now.result ≡ Some t) }
{
    match &head.result {
        None => Ok(None),
        Some(shape) => Ok(Some(plain_shape(alloc, defined, shape)?)),
    }
}

/// The numbers of parameters, from the next one: those with names have numbers. Err: no memory was left,
/// or no number.
pub fn parameter_ids(
    alloc: Global,
    params: &[RawParam],
    next: VarId,
) -> Result<Items<VarId>, AllocError>
    ensures { IfOk result (λ ids. ids ≡ trees.parameter_ids params.now next) }
{
    let mut ids = Items::new(alloc);
    let mut number = next;
    for param in params {
        if param.name.is_some() {
            ids.push(number)?;
            number = number.checked_add(1).ok_or(AllocError)?;
        }
    }
    Ok(ids)
}
