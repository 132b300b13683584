//! Types, as they are declared and as they stand in casts and sizes.
ghost use Rattle.std.specs.Prelude.{◌≡◌, ◌++◌, OnOk};
ghost use Rattle.c_language.specs.Words as spec;

use crate::names::name_of_struct;
use c_language::int_words;
use c_tree::{CType, Program, Text};
use std::alloc::AllocError;

/// Appends the words of a type before its declarators.
#[tactic(auto, using(crate::proofs::Rules::types_of))]
pub(crate) fn base(out: &mut Text, program: &Program, shape: &CType) -> Result<(), AllocError>
    ensures { OnOk result (out.new ≡ out.old ++ spec.base_words program.now shape.now) }
{
    match shape {
        CType::Integer(int_type) => out.append(int_words(*int_type)),
        CType::PointerTo(pointee) => base(out, program, pointee.get()),
        CType::Array(element, _, _) => base(out, program, element.get()),
        CType::Struct(id) => {
            out.append(b"struct ")?;
            out.append(name_of_struct(program, *id))
        }
    }
}

/// Appends the stars of a declarator.
#[tactic(auto, using(crate::proofs::Rules::types_of))]
pub(crate) fn stars(out: &mut Text, shape: &CType) -> Result<(), AllocError>
    ensures { OnOk result (out.new ≡ out.old ++ spec.stars shape.now) }
{
    match shape {
        CType::PointerTo(pointee) => {
            out.append(b"*")?;
            stars(out, pointee.get())
        }
        CType::Array(element, _, _) => stars(out, element.get()),
        CType::Integer(_) | CType::Struct(_) => Ok(()),
    }
}

/// Appends a space and the stars, where there are any.
#[tactic(auto, using(crate::proofs::Rules::types_of))]
fn spaced_stars(out: &mut Text, shape: &CType) -> Result<(), AllocError>
    ensures { OnOk result (out.new ≡ out.old ++ spec.spaced_stars (spec.stars shape.now)) }
{
    match shape {
        CType::PointerTo(pointee) => {
            out.append(b" *")?;
            stars(out, pointee.get())
        }
        CType::Array(element, _, _) => spaced_stars(out, element.get()),
        CType::Integer(_) | CType::Struct(_) => Ok(()),
    }
}

/// Appends the lengths of a declarator, outermost first.
#[tactic(auto, using(crate::proofs::Rules::types_of))]
fn lengths(out: &mut Text, shape: &CType) -> Result<(), AllocError>
    ensures { OnOk result (out.new ≡ out.old ++ spec.lengths shape.now) }
{
    match shape {
        CType::Array(element, _, length) => {
            out.append(b"[")?;
            out.append(length.bytes())?;
            out.append(b"]")?;
            lengths(out, element.get())
        }
        CType::Integer(_) | CType::PointerTo(_) | CType::Struct(_) => Ok(()),
    }
}

/// Appends a name with its type, as it is declared (ISO C99 6.7.5): `int *a[3]`.
#[tactic(auto, using(crate::proofs::Rules::types_of))]
pub(crate) fn declared(
    out: &mut Text,
    program: &Program,
    shape: &CType,
    name: &[u8],
) -> Result<(), AllocError>
    ensures { OnOk result (out.new ≡ out.old ++ spec.declared program.now shape.now name.now) }
{
    base(out, program, shape)?;
    out.append(b" ")?;
    stars(out, shape)?;
    out.append(name)?;
    lengths(out, shape)
}

/// Appends a type without a name (ISO C99 6.7.6): `int *`.
#[tactic(auto, using(crate::proofs::Rules::types_of))]
pub(crate) fn type_words(out: &mut Text, program: &Program, shape: &CType) -> Result<(), AllocError>
    ensures { OnOk result (out.new ≡ out.old ++ spec.type_words program.now shape.now) }
{
    base(out, program, shape)?;
    spaced_stars(out, shape)
}
