//! A block of memory: the type of the whole, and its cells while it is live.
ghost use Rattle.std.specs.Prelude.{◌≡◌, ◌<◌, ◌&&◌, Option, Some, None, IfOk, is_some, replicate, slice_get, option_and_then};
ghost use Rattle.std.specs.Option.{option_copied};
ghost use Rattle.c_meaning.specs.declared.value.Value.{Value};
ghost use Rattle.c_meaning.specs.Memory as spec;
ghost use Rattle.c_meaning.specs.Memory.{held, changed};
ghost use Rattle.c_meaning.specs.Activations.{zeros};
ghost use Rattle.c_memory.specs.Kinds.{kind_of};
ghost use Rattle.c_memory.specs.Whole.{IsWhole};

use crate::layouts::Layouts;
use c_language::ExprType;
use c_meaning::Value;
use sqlite_items::Items;
use std::alloc::{AllocError, Global};
use std::marker::Model;

/// What made a block.
#[derive(Clone, Copy, Debug, PartialEq, Eq)]
pub(crate) enum Kind {
    /// A variable that began.
    Entered,
    /// A call of malloc.
    Allocated,
}

/// A block: the type of the whole, and its cells, each with a value or nothing. One that is gone keeps its type and
/// has no cells.
#[derive(Debug, Drop)]
pub(crate) struct Block {
    shape: ExprType,
    kind: Kind,
    cells: Option<Items<Option<Value>>>,
}

impl Model for Block {
    ghost use Rattle.std.specs.Prelude.{[], is_some, unwrap_or};
    ghost use Rattle.c_meaning.specs.Memory.{Block};

    ghost Value = { Block };

    ghost use Rattle.c_memory.specs.Kinds.{kind_of};

    ghost view = { λ b. record { shape = b.shape; kind = kind_of b.kind; is_live = is_some b.cells; cells = unwrap_or b.cells [] } };
}

impl Block {
    /// A block in which nothing is written. Err: no memory was left, or it has more cells than can be counted.
    pub(crate) fn unwritten(
        alloc: Global,
        layouts: &Layouts,
        shape: ExprType,
        kind: Kind,
    ) -> Result<Block, AllocError>
        ensures begun { IfOk result (λ b. b ≡ spec.unwritten layouts.now shape (kind_of kind)) }
        ensures whole { IfOk result (λ b. IsWhole layouts.now b) }
    {
        let cells = empty_cells(alloc, layouts.cell_count(&shape))?;
        Ok(Block {
            shape,
            kind,
            cells: Some(cells),
        })
    }

    /// The block of a global, in which each cell is 0 or a null pointer. Err: no memory was left, or it has more cells
    /// than can be counted.
    pub(crate) fn zeros(
        alloc: Global,
        layouts: &Layouts,
        shape: ExprType,
    ) -> Result<Block, AllocError>
        ensures begun { IfOk result (λ b. b ≡ zeros layouts.now shape) }
        ensures whole { IfOk result (λ b. IsWhole layouts.now b) }
    {
        let cells = layouts.zeros(alloc, &shape)?;
        Ok(Block {
            shape,
            kind: Kind::Entered,
            cells: Some(cells),
        })
    }

    /// The type of the whole.
    pub(crate) fn shape(&self) -> &ExprType
        ensures { result.now ≡ self.now.shape }
    {
        &self.shape
    }

    /// Whether the block is live and was made by malloc.
    pub(crate) fn can_be_freed(&self) -> bool
        ensures { result ≡ (self.now.is_live && spec.is_allocated self.now.kind) }
    {
        match self.kind {
            Kind::Entered => false,
            Kind::Allocated => self.cells.is_some(),
        }
    }

    /// Whether there is a cell with a number.
    pub(crate) fn has(&self, number: u64) -> bool
        ensures { result ≡ is_some (slice_get self.now.cells number) }
    {
        match &self.cells {
            Some(cells) => cells.get(number as usize).is_some(),
            None => false,
        }
    }

    /// What is written in the cell with a number; None where there is no such cell, or nothing is written in it.
    pub(crate) fn value(&self, number: u64) -> Option<&Value>
        ensures { option_copied result ≡ option_and_then held (slice_get self.now.cells number) }
    {
        match &self.cells {
            Some(cells) => match cells.get(number as usize) {
                Some(cell) => cell.as_ref(),
                None => None,
            },
            None => None,
        }
    }

    /// Writes the cell with a number, and tells whether there is such a cell.
    pub(crate) fn set(&mut self, number: u64, value: Value) -> bool
        ensures answer { result ≡ is_some (slice_get self.old.cells number) }
        ensures written { self.new ≡ record self.old { cells = changed (λ (o : Option Value). Some value) number self.old.cells } }
    {
        match &mut self.cells {
            Some(cells) => set_cell(cells, number, value),
            None => false,
        }
    }

    /// Ends the block, whose cells are no more.
    pub(crate) fn end(&mut self)
        ensures { self.new ≡ spec.gone self.old }
    {
        self.cells = None;
    }
}

// Writes the cell with a number, and tells whether there is such a cell.
fn set_cell(cells: &mut Items<Option<Value>>, number: u64, value: Value) -> bool
    ensures answer { result ≡ is_some (slice_get cells.old number) }
    ensures written { cells.new ≡ changed (λ (o : Option Value). Some value) number cells.old }
{
    let at = number as usize;
    if at >= cells.len() {
        return false;
    }
    cells.set(at, Some(value));
    true
}

// So many cells in which nothing is written. Err: no memory was left, or they are more than can be counted.
fn empty_cells(alloc: Global, count: u64) -> Result<Items<Option<Value>>, AllocError>
    ensures cells { IfOk result (λ cells. cells ≡ replicate count None) }
    ensures counted { IfOk result (λ cells. count < 18446744073709551615) }
{
    if count == u64::MAX {
        return Err(AllocError);
    }
    let mut cells = Vec::with_capacity(alloc, count as usize)?;
    for _ in 0..count {
        cells.push(None)?;
    }
    Ok(Items::from_vec(cells))
}
