//! Lists with which arrays begin (ISO C99 6.7.8, paragraphs 17 to 21).
ghost use Rattle.std.specs.Prelude.{◌≡◌, ◌≤◌, ◌-◌, [], IfOk, OnErr, option_map, length, vec_len};
ghost use Rattle.std.specs.Prelude.{if◌then◌else◌, option_and_then};
ghost use Rattle.c_meaning.specs.Acts.{zero_of, list_stores, stored, all_as};
ghost use Rattle.c_meaning.specs.Values.{whole, eval_all};
ghost use Rattle.c_memory.specs.Lists as spec;
ghost use Rattle.c_memory.specs.Lists.{element_of, items_of};
ghost use Rattle.c_memory.specs.Scenes.{types_in, state_in};

use crate::expressions::value;
use crate::memory::Memory;
use crate::scene::{Scene, converted};
use c_language::ExprType;
use c_meaning::{Hop, Place, Value};
use c_tree::Expr;
use c_types_base::expr_type::is_integer;
use sqlite_items::Items;
use std::alloc::{AllocError, Global};

/// What the items of a list give, from left to right, each as an element of the array has it; None where one is
/// undefined. Err: no memory was left, or an index has more than 32 bits.
pub fn listed_values(
    items: &[Expr],
    element: &ExprType,
    s: Scene,
) -> Result<Option<Vec<Value>>, AllocError>
    ensures { IfOk result (λ o. option_map items_of o ≡ option_and_then (all_as element.now) (eval_all (types_in s.entry) items.now (state_in s.entry))) }
{
    let mut values = Vec::new(s.alloc);
    for item in items {
        match converted(element, value(item, s)?) {
            Some(given) => values.push(given)?,
            None => return Ok(None),
        }
    }
    Ok(Some(values))
}

// What an object of a type begins with, where it doesn't begin unwritten: 0 or a null pointer.
fn zero(shape: &ExprType) -> Value
    ensures { result ≡ zero_of shape.now }
{
    if is_integer(shape) {
        Value::Number(0)
    } else {
        Value::Null
    }
}

// The first element of the array that a block is. Err: no memory was left.
fn first_element(alloc: Global, block: u64) -> Result<Place, AllocError>
    ensures { IfOk result (λ p. p ≡ element_of block 0) }
{
    let path = Items::from_slice(alloc, &[Hop::Element(0)])?;
    Ok(Place { block, path })
}

// Goes on to another element of the array.
fn go_to(element: &mut Place, index: u32)
    requires { length element.old.path ≡ 1 }
    ensures { element.new ≡ element_of element.old.block index }
{
    element.path.set(0, Hop::Element(index));
}

impl Memory {
    /// Whether the items of a list can be stored in an array that is a whole block: exactly where the list isn't longer,
    /// and each element is a cell of a live block. Err: no memory was left, or the length has more than 32 bits.
    pub fn can_store_list(
        &self,
        alloc: Global,
        block: u64,
        length: u64,
        element: &ExprType,
        items: &[Value],
    ) -> Result<bool, AllocError>
        ensures { IfOk result (λ is. is ≡ spec.can_store self.now block element.now length items.now) }
    {
        if length > u32::MAX as u64 {
            return Err(AllocError);
        }
        let mut at = first_element(alloc, block)?;
        let count = items.len() as u64;
        if count > length {
            return Ok(false);
        }
        Ok(self.has_elements(&mut at, length as u32))
    }

    /// Stores the items of a list in an array that is a whole block, and 0 or null pointers behind them up to its length.
    /// False, and nothing is changed, exactly where the list is longer, or an element is no cell of a live block. Err: no
    /// memory was left, or the length has more than 32 bits; nothing is changed.
    pub fn store_list(
        &mut self,
        alloc: Global,
        block: u64,
        length: u64,
        element: &ExprType,
        items: Vec<Value>,
    ) -> Result<bool, AllocError>
        ensures answer { IfOk result (λ is. is ≡ spec.can_store self.old block element.now length items.items) }
        ensures stored { IfOk result (λ is. self.new ≡ (if is then stored (list_stores (whole block) element.now 0 length items.items) self.old else self.old)) }
        ensures refused { OnErr result (self.new ≡ self.old) }
    {
        if length > u32::MAX as u64 {
            return Err(AllocError);
        }
        let mut at = first_element(alloc, block)?;
        let count = items.len() as u64;
        if count > length {
            return Ok(false);
        }
        if !self.has_elements(&mut at, length as u32) {
            return Ok(false);
        }
        self.store_items(&mut at, items);
        self.store_zeros(&mut at, count as u32, length as u32, element);
        Ok(true)
    }

    // Whether so many elements of the array are cells of a live block.
    fn has_elements(&self, at: &mut Place, count: u32) -> bool
        requires { length at.old.path ≡ 1 }
        ensures answer { result ≡ spec.are_cells self.now at.old.block 0 count }
        ensures block { at.new.block ≡ at.old.block }
        ensures path { length at.new.path ≡ 1 }
    {
        for index in 0..count {
            go_to(at, index);
            if !self.has_cell(at) {
                return false;
            }
        }
        true
    }

    // Stores items in the first elements of the array.
    fn store_items(&mut self, at: &mut Place, items: Vec<Value>)
        requires single { length at.old.path ≡ 1 }
        requires few { vec_len items ≤ 4294967295 }
        ensures stored { self.new ≡ stored (spec.item_stores at.old.block 0 items.items) self.old }
        ensures block { at.new.block ≡ at.old.block }
        ensures path { length at.new.path ≡ 1 }
    {
        let mut index = 0u32;
        for item in items {
            go_to(at, index);
            self.write(at, item);
            index += 1;
        }
    }

    // Stores 0 or null pointers in the elements of the array from one on.
    fn store_zeros(&mut self, at: &mut Place, from: u32, to: u32, element: &ExprType)
        requires { length at.old.path ≡ 1 }
        ensures { self.new ≡ stored (list_stores (whole at.old.block) element.now from (to - from) []) self.old }
    {
        for index in from..to {
            go_to(at, index);
            self.write(at, zero(element));
        }
    }
}
