//! How many locations a program has, found without making them.
//!
//! Numbers are counted up to one more than the greatest that is allowed, so that no sum is too large.
ghost use Rattle.std.specs.Prelude.{◌≡◌, ◌≤◌, ℕ, suc, List, IfOk, length};
ghost use Rattle.c_tree.specs.declared.program.Program.{Program};
ghost use Rattle.dep_model.specs.Locations.{Located, parts_with, member_parts};
ghost use Rattle.dep_model.specs.LocationLists.{AreStructsInOrder};
ghost use Rattle.dep_model.specs.LocationObjects as spec;
ghost use Rattle.dep_model.specs.LocationObjects.{AreSizes, all_structs, locations_of};

use crate::locations::objects::Object;
use c_language::{Base, Layer};
use c_tree::{Member, Program};
use std::alloc::{AllocError, Global};
use tree_types::declared_type;

/// How many locations a program may have at most.
pub(crate) const MAX_LOCATIONS: u32 = 4_096;

/// A number of locations, or 4,097 where it is above 4,096.
fn capped(count: u32) -> u32
    ensures { result ≡ spec.capped count }
{
    if count > MAX_LOCATIONS {
        MAX_LOCATIONS + 1
    } else {
        count
    }
}

/// The parts of an object and itself, by the parts of each struct type.
fn part_count(sizes: &[u32], layers: &[Layer], base: Base) -> u32
    ensures is { (inside : ℕ → List Located) → AreSizes sizes.now inside → result ≡ spec.capped (length (parts_with inside layers.now base)) }
    ensures small { result ≤ 4097 }
{
    match layers.split_first() {
        None => match base {
            Base::Struct(s) => capped(capped(sizes.get(s as usize).copied().unwrap_or(0)) + 1),
            Base::Integer(_) | Base::Void => 1,
        },
        Some((Layer::Pointer, _)) => 1,
        Some((Layer::Array(_), inner)) => capped(part_count(sizes, inner, base) + 1),
    }
}

/// The parts of a struct type. Err: no memory was left.
fn member_count(alloc: Global, sizes: &[u32], members: &[Member]) -> Result<u32, AllocError>
    ensures { IfOk result (λ n. (inside : ℕ → List Located) → AreSizes sizes.now inside → n ≡ spec.capped (length (member_parts inside 0 members.now))) }
{
    let mut sum = 0;
    for member in members {
        let shape = declared_type(alloc, &member.shape)?;
        sum = capped(sum + part_count(sizes, shape.layers.as_slice(), shape.base));
    }
    Ok(sum)
}

/// The parts of each struct type. Err: no memory was left.
pub(crate) fn struct_sizes(alloc: Global, p: &Program) -> Result<Vec<u32>, AllocError>
    requires { AreStructsInOrder p.now }
    ensures { IfOk result (λ sizes. AreSizes sizes.items (all_structs p.now)) }
{
    let mut sizes = Vec::new(alloc);
    for structure in p.structs.as_slice() {
        let size = member_count(alloc, sizes.as_slice(), structure.members.as_slice())?;
        sizes.push(size)?;
    }
    Ok(sizes)
}

/// The parts of the objects, and the input.
pub(crate) fn location_count(sizes: &[u32], objects: &[Object]) -> u32
    ensures { (p : Program) → AreSizes sizes.now (all_structs p) → result ≡ spec.capped (suc (length (locations_of p objects.now))) }
{
    let mut sum = 1;
    for object in objects {
        sum = capped(sum + part_count(sizes, object.shape.layers.as_slice(), object.shape.base));
    }
    sum
}
