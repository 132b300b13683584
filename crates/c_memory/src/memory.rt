//! Memory while a program runs, by its calls (ISO C99 6.2.4, 6.5.6, 7.20.3).
ghost use Rattle.std.specs.Prelude.{◌≡◌, [], IfOk, option_map, OnOk, OnErr, IsFalse, IsTrue, length};
ghost use Rattle.std.specs.Option.{option_copied};
ghost use Rattle.c_language.specs.TreeTypes.{shape_of};
ghost use Rattle.c_meaning.specs.Activations.{zeros};
ghost use Rattle.c_meaning.specs.Cells.{structs_of};
ghost use Rattle.c_language.specs.ExprTypes as types;
ghost use Rattle.c_language.specs.Lists.{same_all};
ghost use Rattle.c_meaning.specs.Memory as spec;
ghost use Rattle.c_meaning.specs.Pointers as pointers;
ghost use Rattle.c_memory.specs.Parts.{type_in};
ghost use Rattle.c_memory.specs.Whole.{IsWhole, AreWhole};

use crate::block::{Block, Kind};
use crate::layouts::{Layouts, Part};
use c_language::{Base, ExprType, Layer};
use c_meaning::{Hop, Place, Pointer, Value};
use c_tree::{CType, Program};
use c_types_base::expr_type::{array_of, copy};
use std::alloc::{AllocError, Global};
use std::marker::Model;
use tree_types::declared_type;

/// The memory of a run: all blocks there ever were, the number of a block being how many began before it, and the
/// struct types of the program. A live block has as many cells as its type says, and one that is gone has none.
#[derive(Debug, Drop)]
pub struct Memory {
    layouts: Layouts,
    blocks: Vec<Block>,
}

impl Model for Memory {
    ghost use Rattle.c_meaning.specs.Memory.{Memory};

    ghost Value = { Memory };

    ghost use Rattle.c_memory.specs.Whole.{AreWhole};

    ghost view = { λ m. record { structs = m.layouts; blocks = m.blocks.items } };

    ghost invariant = { λ m. AreWhole m.layouts m.blocks.items };
}

impl Memory {
    /// The memory of a program in which no block has begun. Err: no memory was left.
    pub(crate) fn blank(alloc: Global, p: &Program) -> Result<Memory, AllocError>
        ensures { IfOk result (λ m. m ≡ record { structs = structs_of p.now; blocks = [] }) }
    {
        let layouts = Layouts::of(alloc, p)?;
        Ok(Memory {
            layouts,
            blocks: Vec::new(alloc),
        })
    }

    /// How many blocks there ever were, which is the number of the next one.
    pub fn block_count(&self) -> u64
        ensures count { result ≡ length self.now.blocks }
        ensures whole { AreWhole self.now.structs self.now.blocks }
    {
        self.blocks.len() as u64
    }

    /// Begins a block for a variable, in which nothing is written, and answers its number, which no block had before.
    /// Err: no memory was left, or the block has more cells than can be counted; the memory is as before.
    pub fn enter(&mut self, alloc: Global, shape: &CType) -> Result<u64, AllocError>
        ensures number { IfOk result (λ n. n ≡ length self.old.blocks) }
        ensures entered { OnOk result (self.new ≡ spec.enter (shape_of shape.now) self.old) }
        ensures refused { OnErr result (self.new ≡ self.old) }
    {
        let block = Block::unwritten(
            alloc,
            &self.layouts,
            declared_type(alloc, shape)?,
            Kind::Entered,
        )?;
        self.begin(block)
    }

    /// Begins the block of a global, in which each cell is 0 or a null pointer, and answers its number. Err: no memory was
    /// left, or the block has more cells than can be counted; the memory is as before.
    pub(crate) fn begin_global(
        &mut self,
        alloc: Global,
        shape: &ExprType,
    ) -> Result<u64, AllocError>
        ensures number { IfOk result (λ n. n ≡ length self.old.blocks) }
        ensures begun { OnOk result (self.new ≡ spec.with_new (zeros self.old.structs shape.now) self.old) }
        ensures refused { OnErr result (self.new ≡ self.old) }
    {
        let block = Block::zeros(alloc, &self.layouts, copy(alloc, shape)?)?;
        self.begin(block)
    }

    /// Begins a block of `count` objects, in which nothing is written, and answers its number, which no block had
    /// before (7.20.3.3). Err: no memory was left, or the block has more cells than can be counted; the memory is as
    /// before.
    pub fn allocate(&mut self, alloc: Global, shape: &CType, count: u32) -> Result<u64, AllocError>
        ensures number { IfOk result (λ n. n ≡ length self.old.blocks) }
        ensures allocated { OnOk result (self.new ≡ spec.allocate (shape_of shape.now) count self.old) }
        ensures refused { OnErr result (self.new ≡ self.old) }
    {
        let object = declared_type(alloc, shape)?;
        self.allocate_objects(alloc, object, count)
    }

    /// The same for objects of a type that an expression has, as of what the left side of a call of malloc points to.
    pub fn allocate_objects(
        &mut self,
        alloc: Global,
        shape: ExprType,
        count: u32,
    ) -> Result<u64, AllocError>
        ensures number { IfOk result (λ n. n ≡ length self.old.blocks) }
        ensures allocated { OnOk result (self.new ≡ spec.allocate shape count self.old) }
        ensures refused { OnErr result (self.new ≡ self.old) }
    {
        let objects = array_of(alloc, shape, count as u64)?;
        let block = Block::unwritten(alloc, &self.layouts, objects, Kind::Allocated)?;
        self.begin(block)
    }

    /// Ends a block: it keeps its number and its type, and its cells are no more.
    pub fn leave(&mut self, block: u64)
        ensures { self.new ≡ spec.leave block self.old }
    {
        let at = block as usize;
        if at < self.blocks.len() {
            self.blocks[at].end();
        }
    }

    /// Ends the block that malloc made, where the pointer is its start (7.20.3.2). False, and nothing is changed,
    /// exactly where the pointer isn't the start of a live block that malloc made.
    pub fn free(&mut self, at: &Pointer) -> bool
        ensures answer { result ≡ spec.can_free self.old at.now }
        ensures freed { IsTrue result → self.new ≡ spec.leave at.now.block self.old }
        ensures refused { IsFalse result → self.new ≡ self.old }
    {
        let can_free = self.can_free(at);
        if can_free {
            self.leave(at.block);
        }
        can_free
    }

    /// The value at a place; None exactly where the place is no cell of a live block, or nothing is written in it.
    pub fn read(&self, place: &Place) -> Option<&Value>
        ensures { option_copied result ≡ spec.read self.now place.now }
    {
        match self.blocks.get(place.block as usize) {
            Some(block) => match self
                .layouts
                .cell_number(place.path.as_slice(), block.shape())
            {
                Some(number) => block.value(number),
                None => None,
            },
            None => None,
        }
    }

    /// Whether a place is a cell of a live block.
    pub fn has_cell(&self, place: &Place) -> bool
        ensures { result ≡ spec.is_cell self.now place.now }
    {
        match self.blocks.get(place.block as usize) {
            Some(block) => match self
                .layouts
                .cell_number(place.path.as_slice(), block.shape())
            {
                Some(number) => block.has(number),
                None => false,
            },
            None => false,
        }
    }

    /// Writes the cell at a place. False, and nothing is changed, exactly where the place is no cell of a live block.
    pub fn write(&mut self, place: &Place, value: Value) -> bool
        ensures answer { result ≡ spec.is_cell self.old place.now }
        ensures written { self.new ≡ spec.write place.now value self.old }
        ensures refused { IsFalse result → self.new ≡ self.old }
    {
        let at = place.block as usize;
        if at >= self.blocks.len() {
            return false;
        }
        match self
            .layouts
            .cell_number(place.path.as_slice(), self.blocks[at].shape())
        {
            Some(number) => self.blocks[at].set(number, value),
            None => false,
        }
    }

    /// How long the array is in which a pointer is, also in a block that is gone; a single object has length 1. None
    /// where the pointer is in no object.
    pub fn length_at(&self, at: &Pointer) -> Option<u64>
        ensures { result ≡ pointers.length_at self.now at.now }
    {
        match self.part(at.block, at.path.as_slice()) {
            Some(part) => Some(length_in(part.layers)),
            None => None,
        }
    }

    /// Whether the object at a place has a type, also in a block that is gone (6.5, paragraph 7).
    pub fn has_type(&self, shape: &ExprType, place: &Place) -> bool
        ensures { result ≡ pointers.has_type self.now shape.now place.now }
    {
        match self.part(place.block, place.path.as_slice()) {
            Some(part) => is_type(shape, part.layers, part.base),
            None => false,
        }
    }

    /// The object to which a path leads, also in a block that is gone.
    pub(crate) fn part(&self, block: u64, path: &[Hop]) -> Option<Part<'_>>
        ensures { option_map type_in result ≡ pointers.type_at self.now (record { block = block; path = path.now }) }
    {
        match self.blocks.get(block as usize) {
            Some(found) => self.layouts.part(path, found.shape()),
            None => None,
        }
    }

    /// Whether a pointer is the start of a live block that malloc made, which alone can be freed (7.20.3.2).
    pub fn can_free(&self, at: &Pointer) -> bool
        ensures { result ≡ spec.can_free self.now at.now }
    {
        match self.blocks.get(at.block as usize) {
            Some(block) => block.can_be_freed() && at.path.is_empty() && at.index == 0,
            None => false,
        }
    }

    // The memory with one block more, whose number is answered. Err: no memory was left, and nothing is changed.
    fn begin(&mut self, block: Block) -> Result<u64, AllocError>
        requires { IsWhole self.old.structs block }
        ensures number { IfOk result (λ n. n ≡ length self.old.blocks) }
        ensures begun { OnOk result (self.new ≡ spec.with_new block self.old) }
        ensures refused { OnErr result (self.new ≡ self.old) }
    {
        let number = self.blocks.len() as u64;
        self.blocks.push(block)?;
        Ok(number)
    }
}

/// The length of an array; any other object has length 1.
pub(crate) fn length_in(layers: &[Layer]) -> u64
    ensures { result ≡ pointers.length_in layers.now }
{
    match layers.split_first() {
        Some((Layer::Array(length), _)) => *length,
        Some((Layer::Pointer, _)) => 1,
        None => 1,
    }
}

// Whether an object has a type.
fn is_type(shape: &ExprType, layers: &[Layer], base: Base) -> bool
    ensures { result ≡ types.same_type shape.now (record { layers = layers.now; base = base }) }
{
    same_layers(shape.layers.as_slice(), layers) && same_base(shape.base, base)
}

fn same_base(s: Base, t: Base) -> bool
    ensures { result ≡ types.same_base s t }
{
    match (s, t) {
        (Base::Integer(a), Base::Integer(b)) => a == b,
        (Base::Struct(m), Base::Struct(n)) => m == n,
        (Base::Void, Base::Void) => true,
        _ => false,
    }
}

fn same_layer(l: Layer, m: Layer) -> bool
    ensures { result ≡ types.same_layer l m }
{
    match (l, m) {
        (Layer::Pointer, Layer::Pointer) => true,
        (Layer::Array(a), Layer::Array(b)) => a == b,
        _ => false,
    }
}

fn same_layers(s: &[Layer], t: &[Layer]) -> bool
    ensures { result ≡ same_all types.same_layer s.now t.now }
{
    let Some((l, ls)) = s.split_first() else {
        return t.is_empty();
    };
    let Some((m, ms)) = t.split_first() else {
        return false;
    };
    same_layer(*l, *m) && same_layers(ls, ms)
}
