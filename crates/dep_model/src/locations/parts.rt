//! The parts of objects, listed in their order. A struct may have as many struct types in one another as it has parts,
//! so they are listed without recursion.
ghost use Rattle.std.specs.Prelude.{◌≡◌, ◌≤◌, ◌^◌, ◌++◌, ◌∷◌, IsTrue, IfOk, OnOk, length, map};
ghost use Rattle.c_tree.specs.declared.program.Program.{Program};
ghost use Rattle.c_language.specs.ExprTypes.{is_array};
ghost use Rattle.dep_model.specs.DoingEffects.{the_input};
ghost use Rattle.dep_model.specs.Locations.{member_parts};
ghost use Rattle.dep_model.specs.LocationLists.{AreStructsInOrder};
ghost use Rattle.dep_model.specs.LocationObjects as spec;
ghost use Rattle.dep_model.specs.LocationObjects.{all_structs, inner_parts, object_locations, locations_of, placed_under};
ghost use Rattle.dep_model.specs.declared.location.Root.{Root};

use crate::location::{Location, LocationPath, Part, Root};
use crate::locations::objects::Object;
use c_language::{Base, ExprType, Layer};
use c_tree::{Member, Program};
use c_types_base::expr_type::copy;
use sqlite_items::Items;
use std::alloc::{AllocError, Global};
use tree_types::{declared_type, members};

/// A part that waits to be listed, with its own parts.
#[derive(Debug, Drop)]
struct Waiting {
    /// The steps to it from where its object begins.
    path: LocationPath,
    /// Its type.
    shape: ExprType,
}

/// The input, and then the parts of each object. Err: no memory was left.
pub(crate) fn list_all(
    alloc: Global,
    p: &Program,
    objects: &[Object],
) -> Result<Vec<Location>, AllocError>
    requires ordered { AreStructsInOrder p.now }
    requires few { length (locations_of p.now objects.now) ≤ 2 ^ 32 }
    ensures { IfOk result (λ list. list.items ≡ the_input ∷ locations_of p.now objects.now) }
{
    let mut list = Vec::new(alloc);
    list.push(Location {
        root: Root::Input,
        path: Items::new(alloc),
    })?;
    for object in objects {
        add_object(alloc, p, object, &mut list)?;
    }
    Ok(list)
}

// Adds an object and its parts.
fn add_object(
    alloc: Global,
    p: &Program,
    object: &Object,
    list: &mut Vec<Location>,
) -> Result<(), AllocError>
    requires ordered { AreStructsInOrder p.now }
    requires few { length (object_locations p.now object.now) ≤ 2 ^ 32 }
    ensures { OnOk result (list.new.items ≡ list.old.items ++ object_locations p.now object.now) }
{
    let mut waiting = Vec::new(alloc);
    waiting.push(Waiting {
        path: Items::new(alloc),
        shape: copy(alloc, &object.shape)?,
    })?;
    while let Some(next) = waiting.pop() {
        list.push(Location {
            root: object.root,
            path: Items::from_slice(alloc, next.path.as_slice())?,
        })?;
        add_parts(alloc, p, next, &mut waiting)?;
    }
    Ok(())
}

// Lets the parts of a part wait.
fn add_parts(
    alloc: Global,
    p: &Program,
    of: Waiting,
    waiting: &mut Vec<Waiting>,
) -> Result<(), AllocError>
    requires ordered { AreStructsInOrder p.now }
    requires few { length (inner_parts p.now of.shape.layers of.shape.base) ≤ 2 ^ 32 }
    ensures { (r : Root) → OnOk result (spec.waiting p.now r waiting.new.items ≡ map (placed_under r of.path) (inner_parts p.now of.shape.layers of.shape.base) ++ spec.waiting p.now r waiting.old.items) }
{
    match of.shape.layers.get(0) {
        Some(Layer::Pointer) => Ok(()),
        Some(Layer::Array(_)) => add_element(of, waiting),
        None => match of.shape.base {
            Base::Struct(s) => add_members(alloc, of.path.as_slice(), members(p, s), waiting),
            Base::Integer(_) | Base::Void => Ok(()),
        },
    }
}

// Lets the elements of an array wait.
fn add_element(of: Waiting, waiting: &mut Vec<Waiting>) -> Result<(), AllocError>
    requires { IsTrue (is_array of.shape) }
    ensures { (p : Program) (r : Root) → OnOk result (spec.waiting p r waiting.new.items ≡ map (placed_under r of.path) (inner_parts p of.shape.layers of.shape.base) ++ spec.waiting p r waiting.old.items) }
{
    let Waiting {
        mut path,
        mut shape,
    } = of;
    path.push(Part::Element)?;
    let _array = shape.layers.remove(0);
    waiting.push(Waiting { path, shape })?;
    Ok(())
}

// Lets the members of a struct wait, the first one last.
fn add_members(
    alloc: Global,
    path: &[Part],
    members: &[Member],
    waiting: &mut Vec<Waiting>,
) -> Result<(), AllocError>
    requires { length members.now ≤ 2 ^ 32 }
    ensures { (p : Program) (r : Root) → OnOk result (spec.waiting p r waiting.new.items ≡ map (placed_under r path.now) (member_parts (all_structs p) 0 members.now) ++ spec.waiting p r waiting.old.items) }
{
    let mut number = members.len();
    while number > 0 {
        number -= 1;
        let mut inner = Items::from_slice(alloc, path)?;
        inner.push(Part::Member(number as u32))?;
        let shape = declared_type(alloc, &members[number].shape)?;
        waiting.push(Waiting { path: inner, shape })?;
    }
    Ok(())
}
