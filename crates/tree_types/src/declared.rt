//! The types that a program's tree declares, as expressions have them.
ghost use Rattle.std.specs.Prelude.{◌≡◌, IfOk};
ghost use Rattle.c_language.specs.TreeTypes.{shape_of, type_of_variable, members_of, type_of_member};

use c_language::ExprType;
use c_tree::{CType, IntType, Member, MemberId, Program, StructId, VarId};
use c_types_base::expr_type::{array_of, integer, pointer_to, struct_type};
use std::alloc::{AllocError, Global};

/// A type of the tree. Err: no memory was left.
#[tactic(auto, using(crate::proofs::Rulesets::shapes))]
pub fn declared_type(alloc: Global, t: &CType) -> Result<ExprType, AllocError>
    ensures { IfOk result (λ x. x ≡ shape_of t.now) }
{
    match t {
        CType::Integer(i) => Ok(integer(alloc, *i)),
        CType::PointerTo(inner) => pointer_to(alloc, declared_type(alloc, inner.get())?),
        CType::Array(inner, length, _) => {
            array_of(alloc, declared_type(alloc, inner.get())?, *length as u64)
        }
        CType::Struct(s) => Ok(struct_type(alloc, *s)),
    }
}

/// The type of a variable, int where the program has none of the number. Err: no memory was left.
pub fn variable_type(alloc: Global, p: &Program, x: VarId) -> Result<ExprType, AllocError>
    ensures { IfOk result (λ t. t ≡ type_of_variable p.now x) }
{
    match p.vars.get(x as usize) {
        Some(var) => declared_type(alloc, &var.shape),
        None => Ok(integer(alloc, IntType::Int)),
    }
}

/// The members of a struct type, none where the program has none of the number.
pub fn members(p: &Program, s: StructId) -> &[Member]
    ensures { result.now ≡ members_of p.now s }
{
    match p.structs.get(s as usize) {
        Some(structure) => structure.members.as_slice(),
        None => &[],
    }
}

/// The type of a member, int where the struct type has none at the place. Err: no memory was left.
pub fn member_type(alloc: Global, p: &Program, m: MemberId) -> Result<ExprType, AllocError>
    ensures { IfOk result (λ t. t ≡ type_of_member p.now m) }
{
    match members(p, m.owner).get(m.index as usize) {
        Some(member) => declared_type(alloc, &member.shape),
        None => Ok(integer(alloc, IntType::Int)),
    }
}
