//! The values that objects hold, and the places and pointers by which a run names objects.
ghost use Rattle.std.specs.Prelude.{◌≡◌, IfOk};

use sqlite_items::Items;
use std::alloc::{AllocError, Global};

/// One step from an object to a part of it: a member by its place, or an element by its index.
#[derive(Clone, Copy, Debug, PartialEq, Eq)]
pub enum Hop {
    /// The member at this place among those of its struct type, counted from 0.
    Member(u32),
    /// The element with this index, counted from 0.
    Element(u32),
}

/// The way from a block to an object in it.
pub type Path = Items<Hop>;

/// An object: a block, and a way to a part of it.
#[derive(Debug, Drop)]
pub struct Place {
    /// The number of the block: how many blocks began before it.
    pub block: u64,
    /// The way from the whole block to the object.
    pub path: Path,
}

impl Place {
    /// An equal place. Err: no memory was left.
    pub fn copy(&self, alloc: Global) -> Result<Place, AllocError>
        ensures { IfOk result (λ t. t ≡ self.now) }
    {
        let path = copied(alloc, &self.path)?;
        Ok(Place {
            block: self.block,
            path,
        })
    }
}

/// A pointer that isn't null: an array or a single object, and an index from 0 to its length
/// (ISO C99 6.5.6).
#[derive(Debug, Drop)]
pub struct Pointer {
    /// The number of the block: how many blocks began before it.
    pub block: u64,
    /// The way to the array or to the single object.
    pub path: Path,
    /// The element, counted from 0; the length of the array points behind its last.
    pub index: u32,
}

impl Pointer {
    /// An equal pointer. Err: no memory was left.
    pub fn copy(&self, alloc: Global) -> Result<Pointer, AllocError>
        ensures { IfOk result (λ t. t ≡ self.now) }
    {
        let path = copied(alloc, &self.path)?;
        Ok(Pointer {
            block: self.block,
            path,
            index: self.index,
        })
    }
}

/// The value of an object of integer or pointer type.
#[derive(Debug, Drop)]
pub enum Value {
    /// The value of an integer.
    Number(i128),
    /// A null pointer.
    Null,
    /// A pointer that is not null.
    To(Pointer),
}

impl Value {
    /// An equal value. Err: no memory was left.
    pub fn copy(&self, alloc: Global) -> Result<Value, AllocError>
        ensures { IfOk result (λ t. t ≡ self.now) }
    {
        match self {
            Value::Number(number) => Ok(Value::Number(*number)),
            Value::Null => Ok(Value::Null),
            Value::To(pointer) => Ok(Value::To(pointer.copy(alloc)?)),
        }
    }
}

// The hops of a path, in their order. Err: no memory was left.
fn copied(alloc: Global, path: &Path) -> Result<Path, AllocError>
    ensures { IfOk result (λ t. t ≡ path.now) }
{
    let mut all = Items::new(alloc);
    for hop in path.as_slice() {
        all.push(*hop)?;
    }
    Ok(all)
}
