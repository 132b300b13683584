//! Cells of 0 and of null pointers, with which a global begins (ISO C99 6.7.8, paragraph 10). A struct may have as many
//! struct types in one another as a text has, so they are made without recursion.
ghost use Rattle.std.specs.Prelude.{◌≡◌, ◌+◌, ◌<◌, ◌++◌, IfOk, OnOk, map};
ghost use Rattle.c_meaning.specs.Cells.{Structs, cells, cell_count};
ghost use Rattle.c_memory.specs.Zeros as spec;
ghost use Rattle.c_memory.specs.Zeros.{zero_cell, all_zeros, all_turns};

use super::Layouts;
use c_language::{Base, ExprType, Layer};
use c_meaning::Value;
use sqlite_items::Items;
use std::alloc::{AllocError, Global};

/// Objects of one type that wait for their cells.
#[derive(Clone, Copy)]
pub(crate) struct Waiting<'a> {
    /// How many they are.
    pub(crate) times: u64,
    /// The derivations of their type, outermost first.
    pub(crate) layers: &'a [Layer],
    /// What they begin with.
    pub(crate) base: Base,
    /// Which struct types have cells: those with a number below this one.
    pub(crate) limit: usize,
}

impl Layouts {
    /// The cells of an object, each with 0 or a null pointer. Err: no memory was left, or it has more cells than can be
    /// counted.
    pub(crate) fn zeros(
        &self,
        alloc: Global,
        shape: &ExprType,
    ) -> Result<Items<Option<Value>>, AllocError>
        ensures cells { IfOk result (λ all. all ≡ map zero_cell (cells self.now shape.now)) }
        ensures counted { IfOk result (λ all. cell_count self.now shape.now < 18446744073709551615) }
    {
        let count = self.cell_count(shape);
        if count == u64::MAX {
            return Err(AllocError);
        }
        let mut made = Vec::with_capacity(alloc, count as usize)?;
        let mut waiting = Vec::new(alloc);
        waiting.push(Waiting {
            times: 1,
            layers: shape.layers.as_slice(),
            base: shape.base,
            limit: self.members.len(),
        })?;
        while let Some(next) = waiting.pop() {
            self.make_next(next, &mut waiting, &mut made)?;
        }
        Ok(Items::from_vec(made))
    }

    // Makes the first one of objects, or lets its parts wait, and lets the others wait.
    fn make_next<'a>(
        &'a self,
        next: Waiting<'a>,
        waiting: &mut Vec<Waiting<'a>>,
        made: &mut Vec<Option<Value>>,
    ) -> Result<(), AllocError>
        ensures cells { OnOk result (made.new.items ++ all_zeros self.now waiting.new.items
            ≡ made.old.items ++ (spec.waiting_zeros self.now next.entry ++ all_zeros self.now waiting.old.items)) }
        ensures fewer { OnOk result (all_turns self.now waiting.new.items
            < spec.waiting_turns self.now next.entry + all_turns self.now waiting.old.items) }
    {
        if next.times == 0 {
            return Ok(());
        }
        waiting.push(Waiting {
            times: next.times - 1,
            layers: next.layers,
            base: next.base,
            limit: next.limit,
        })?;
        self.make_one(next, waiting, made)?;
        Ok(())
    }

    // Makes the one cell of a scalar object, and lets the parts of another one wait.
    fn make_one<'a>(
        &'a self,
        next: Waiting<'a>,
        waiting: &mut Vec<Waiting<'a>>,
        made: &mut Vec<Option<Value>>,
    ) -> Result<(), AllocError>
        ensures cells { OnOk result (made.new.items ++ all_zeros self.now waiting.new.items
            ≡ made.old.items ++ (spec.object_zeros self.now next.entry ++ all_zeros self.now waiting.old.items)) }
        ensures turns { OnOk result (all_turns self.now waiting.new.items
            ≡ spec.object_turns self.now next.entry + all_turns self.now waiting.old.items) }
    {
        match next.layers.split_first() {
            Some((Layer::Pointer, _)) => made.push(Some(Value::Null))?,
            Some((Layer::Array(length), inner)) => waiting.push(Waiting {
                times: *length,
                layers: inner,
                base: next.base,
                limit: next.limit,
            })?,
            None => match next.base {
                Base::Integer(_) => made.push(Some(Value::Number(0)))?,
                Base::Struct(s) => self.add_members(s as usize, next.limit, waiting)?,
                Base::Void => (),
            },
        }
        Ok(())
    }

    // Lets the members of a struct type wait, the first one last; one that isn't below the limit has none.
    fn add_members<'a>(
        &'a self,
        s: usize,
        limit: usize,
        waiting: &mut Vec<Waiting<'a>>,
    ) -> Result<(), AllocError>
        ensures cells { OnOk result (all_zeros self.now waiting.new.items ≡ spec.struct_zeros self.now limit s ++ all_zeros self.now waiting.old.items) }
        ensures turns { OnOk result (all_turns self.now waiting.new.items ≡ spec.struct_turns self.now limit s + all_turns self.now waiting.old.items) }
    {
        if s >= limit {
            return Ok(());
        }
        match self.members.get(s) {
            Some(members) => add_all(members.as_slice(), s, waiting),
            None => Ok(()),
        }
    }
}

// Lets members wait, the first one last.
fn add_all<'a>(
    members: &'a [ExprType],
    limit: usize,
    waiting: &mut Vec<Waiting<'a>>,
) -> Result<(), AllocError>
    ensures cells { (structs : Structs) → OnOk result (all_zeros structs waiting.new.items ≡ spec.member_zeros structs limit members.now ++ all_zeros structs waiting.old.items) }
    ensures turns { (structs : Structs) → OnOk result (all_turns structs waiting.new.items ≡ spec.member_turns structs limit members.now + all_turns structs waiting.old.items) }
{
    let mut number = members.len();
    while number > 0 {
        number -= 1;
        waiting.push(Waiting {
            times: 1,
            layers: members[number].layers.as_slice(),
            base: members[number].base,
            limit,
        })?;
    }
    Ok(())
}
