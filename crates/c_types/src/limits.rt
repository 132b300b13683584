//! The quantities of a program that have a greatest number.
//!
//! Cells are counted up to one more than the greatest number that is allowed, so that no product is too large.
ghost use Rattle.std.specs.Prelude.{◌≡◌, ◌≤◌, ℕ, List, [], IfOk};
ghost use Rattle.c_language.specs.Limits as limits;
ghost use Rattle.c_language.specs.Lists as lists;
ghost use Rattle.c_types.specs.Limits as spec;
ghost use Rattle.c_types.specs.Limits.{all_capped};

use c_tree::{CType, Member, Program, StructDef, Var};
use std::alloc::{AllocError, Global};

/// The greatest length that an array may have, in elements.
pub const MAX_ARRAY_LENGTH: u32 = 65_536;

/// How many cells a variable or a struct type may have at most.
pub const MAX_OBJECT_CELLS: u64 = 1_048_576;

/// The greatest length in a type.
#[tactic(auto, using(crate::proofs::Rulesets::types))]
fn longest(t: &CType) -> u32
    ensures { result ≡ limits.longest t.now }
{
    match t {
        CType::Integer(_) => 0,
        CType::PointerTo(inner) => longest(inner.get()),
        CType::Array(inner, length, _) => (*length).max(longest(inner.get())),
        CType::Struct(_) => 0,
    }
}

fn longest_member(members: &[Member]) -> u32
    ensures { result ≡ limits.longest_member members.now }
{
    let mut best = 0;
    for member in members {
        best = best.max(longest(&member.shape));
    }
    best
}

fn longest_in_structs(structs: &[StructDef]) -> u32
    ensures { result ≡ limits.longest_in_structs structs.now }
{
    let mut best = 0;
    for structure in structs {
        best = best.max(longest_member(structure.members.as_slice()));
    }
    best
}

fn longest_in_variables(vars: &[Var]) -> u32
    ensures { result ≡ limits.longest_in_variables vars.now }
{
    let mut best = 0;
    for var in vars {
        best = best.max(longest(&var.shape));
    }
    best
}

/// The greatest array length of a program.
pub fn array_length(p: &Program) -> u32
    ensures { result ≡ limits.array_length p.now }
{
    longest_in_structs(p.structs.as_slice()).max(longest_in_variables(p.vars.as_slice()))
}

/// A number of cells, or 1,048,577 where it is above 1,048,576.
fn capped(cells: u64) -> u64
    ensures { result ≡ spec.capped cells }
{
    if cells > MAX_OBJECT_CELLS {
        MAX_OBJECT_CELLS + 1
    } else {
        cells
    }
}

/// The cells of a type, by those of each struct type.
#[tactic(auto, using(crate::proofs::Rulesets::types))]
fn cells(structs: &[u64], t: &CType) -> u64
    ensures is { (counts : List ℕ) → structs.now ≡ all_capped counts → result ≡ spec.capped (limits.cells counts t.now) }
    ensures small { result ≤ 1048577 }
{
    match t {
        CType::Integer(_) => 1,
        CType::PointerTo(_) => 1,
        CType::Array(inner, length, _) => capped(*length as u64 * cells(structs, inner.get())),
        CType::Struct(s) => capped(structs.get(*s as usize).copied().unwrap_or(0)),
    }
}

fn member_cells(structs: &[u64], members: &[Member]) -> u64
    ensures { (counts : List ℕ) → structs.now ≡ all_capped counts → result ≡ spec.capped (limits.member_cells counts members.now) }
{
    let mut sum = 0;
    for member in members {
        sum = capped(sum + cells(structs, &member.shape));
    }
    sum
}

/// The cells of each struct type. Err: no memory was left.
fn struct_cells(alloc: Global, structs: &[StructDef]) -> Result<Vec<u64>, AllocError>
    ensures { IfOk result (λ found. found.items ≡ all_capped (limits.cells_behind [] structs.now)) }
{
    let mut found = Vec::new(alloc);
    for structure in structs {
        let sum = member_cells(found.as_slice(), structure.members.as_slice());
        found.push(sum)?;
    }
    Ok(found)
}

fn greatest(all: &[u64]) -> u64
    ensures { result ≡ lists.greatest all.now }
{
    let mut best = 0;
    for n in all {
        best = best.max(*n);
    }
    best
}

fn greatest_variable(structs: &[u64], vars: &[Var]) -> u64
    ensures { (counts : List ℕ) → structs.now ≡ all_capped counts → result ≡ spec.capped (limits.greatest_variable counts vars.now) }
{
    let mut best = 0;
    for var in vars {
        best = best.max(cells(structs, &var.shape));
    }
    best
}

/// The greatest number of cells of a variable or a struct type, or 1,048,577 where it is above 1,048,576.
/// Err: no memory was left.
pub fn object_cells(alloc: Global, p: &Program) -> Result<u64, AllocError>
    ensures { IfOk result (λ cells. cells ≡ spec.capped (limits.object_cells p.now)) }
{
    let structs = struct_cells(alloc, p.structs.as_slice())?;
    let of_variables = greatest_variable(structs.as_slice(), p.vars.as_slice());
    Ok(greatest(structs.as_slice()).max(of_variables))
}
