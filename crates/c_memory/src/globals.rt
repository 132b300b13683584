//! The globals of a program as a run begins with them (ISO C99 5.1.2, 6.7.8).
ghost use Rattle.std.specs.Prelude.{◌≡◌, ℕ, List, [], ◌∷◌, Some, IfOk, OnOk};
ghost use Rattle.c_meaning.specs.Acts.{stored};
ghost use Rattle.c_meaning.specs.Activations.{executable, globals_in, all_begun, opening};
ghost use Rattle.c_meaning.specs.Values.{State, bound};
ghost use Rattle.c_memory.specs.GlobalStates as spec;
ghost use Rattle.c_memory.specs.GlobalStates.{IsAt, array_in};
ghost use Rattle.c_memory.specs.Scenes.{frame_of};

use crate::expressions::value;
use crate::lists::listed_values;
use crate::memory::Memory;
use crate::scene::{Scene, converted};
use c_language::{ExprType, Layer};
use c_meaning::{Place, Value};
use c_tree::{Expr, Init, Item, Program, VarId};
use sqlite_items::Items;
use std::alloc::{AllocError, Global};
use tree_types::variable_type;

/// What a run begins with: the memory once all globals have begun, and the block of each.
#[derive(Debug, Drop)]
pub struct Globals {
    /// The memory.
    pub memory: Memory,
    /// For each variable the number of its block, where it has one.
    pub frame: Vec<Option<u64>>,
}

impl Globals {
    /// The globals of a program, in their order. Err: no memory was left, a global has more cells than can be counted, or
    /// an index has more than 32 bits.
    pub fn new(alloc: Global, p: &Program) -> Result<Globals, AllocError>
        ensures memory { (input : List ℕ) → IfOk result (λ g. g.memory ≡ (opening (executable p.now) input).memory) }
        ensures frame { (input : List ℕ) → IfOk result (λ g. frame_of g.frame.items ≡ (opening (executable p.now) input).frame) }
    {
        let mut globals = Globals {
            memory: Memory::blank(alloc, p)?,
            frame: Vec::new(alloc),
        };
        for item in p.items.as_slice() {
            globals.begin_item(alloc, p, item)?;
        }
        Ok(globals)
    }

    // Begins the global that an item defines, where it defines one.
    fn begin_item(&mut self, alloc: Global, p: &Program, item: &Item) -> Result<(), AllocError>
        ensures { (s : State) → IsAt self.old.memory self.old.frame s → OnOk result (IsAt self.new.memory self.new.frame (all_begun (executable p.now) (globals_in (item.now ∷ [])) s)) }
    {
        match item {
            Item::Global(x, init) => self.begin(alloc, p, *x, init),
            Item::Include { .. } => Ok(()),
            Item::Tag(_) => Ok(()),
            Item::Struct(_) => Ok(()),
            Item::Prototype { .. } => Ok(()),
            Item::Define(_) => Ok(()),
        }
    }

    // Begins a global.
    fn begin(&mut self, alloc: Global, p: &Program, x: VarId, init: &Init) -> Result<(), AllocError>
        ensures { (s : State) → IsAt self.old.memory self.old.frame s → OnOk result (IsAt self.new.memory self.new.frame (spec.begun p.now x init.now s)) }
    {
        let shape = variable_type(alloc, p, x)?;
        let block = self.memory.begin_global(alloc, &shape)?;
        bind(&mut self.frame, x, block)?;
        match init {
            Init::None => Ok(()),
            Init::One(e) => self.store_value(alloc, p, block, &shape, e),
            Init::Items(es) => self.store_items(alloc, p, block, &shape, es.as_slice()),
        }
    }

    // Stores what an expression gives in a block.
    fn store_value(
        &mut self,
        alloc: Global,
        p: &Program,
        block: u64,
        shape: &ExprType,
        e: &Expr,
    ) -> Result<(), AllocError>
        ensures memory { (s : State) → IsAt self.old.memory self.old.frame s → OnOk result (self.new.memory ≡ stored (spec.value_stores p.now shape.now block e.now s) self.old.memory) }
        ensures frame { self.new.frame ≡ self.old.frame }
    {
        let given = value(e, self.scene(alloc, p))?;
        self.memory
            .store_whole(alloc, block, converted(shape, given));
        Ok(())
    }

    // Stores what the items of a list give in a block.
    fn store_items(
        &mut self,
        alloc: Global,
        p: &Program,
        block: u64,
        shape: &ExprType,
        items: &[Expr],
    ) -> Result<(), AllocError>
        ensures memory { (s : State) → IsAt self.old.memory self.old.frame s → OnOk result (self.new.memory ≡ stored (spec.list_stores_of p.now shape.now block items.now s) self.old.memory) }
        ensures frame { self.new.frame ≡ self.old.frame }
    {
        match elements(alloc, shape)? {
            Some((length, element)) => {
                self.store_elements(alloc, p, block, length, &element, items)
            }
            None => Ok(()),
        }
    }

    // Stores what the items of a list give in the elements of a block.
    fn store_elements(
        &mut self,
        alloc: Global,
        p: &Program,
        block: u64,
        length: u64,
        element: &ExprType,
        items: &[Expr],
    ) -> Result<(), AllocError>
        ensures memory { (s : State) → IsAt self.old.memory self.old.frame s → OnOk result (self.new.memory ≡ stored (spec.element_stores p.now length element.now block items.now s) self.old.memory) }
        ensures frame { self.new.frame ≡ self.old.frame }
    {
        match listed_values(items, element, self.scene(alloc, p))? {
            Some(values) => {
                self.memory
                    .store_list(alloc, block, length, element, values)?;
                Ok(())
            }
            None => Ok(()),
        }
    }

    // What initialisers are evaluated in.
    fn scene<'p, 's>(&'s self, alloc: Global, p: &'p Program) -> Scene<'p, 's, 's>
        ensures program { result.program.now ≡ p.now }
        ensures frame { result.frame.now ≡ self.now.frame.items }
        ensures memory { result.memory.now ≡ self.now.memory }
    {
        Scene {
            alloc,
            program: p,
            frame: self.frame.as_slice(),
            memory: &self.memory,
        }
    }
}

impl Memory {
    /// The memory in which a run of a program begins: the blocks of the globals, in their order, each cell with its
    /// initialiser's value, or with 0 or a null pointer where there is none (6.7.8, paragraph 10). Err: no memory was
    /// left, a global has more cells than can be counted, or an index has more than 32 bits.
    pub fn new(alloc: Global, p: &Program) -> Result<Memory, AllocError>
        ensures { (input : List ℕ) → IfOk result (λ m. m ≡ (opening (executable p.now) input).memory) }
    {
        let globals = Globals::new(alloc, p)?;
        Ok(globals.memory)
    }

    // Stores a value in the one cell that a block is; nothing where there is no value, or the block isn't one cell.
    fn store_whole(&mut self, alloc: Global, block: u64, value: Option<Value>)
        ensures { self.new ≡ stored (spec.whole_stores self.old block value) self.old }
    {
        match value {
            Some(given) => {
                let path = Items::new(alloc);
                self.write(&Place { block, path }, given);
            }
            None => (),
        }
    }
}

/// The length of an array, and the type of its elements; None of another type. Err: no memory was left.
pub fn elements(alloc: Global, shape: &ExprType) -> Result<Option<(u64, ExprType)>, AllocError>
    ensures { IfOk result (λ o. o ≡ array_in shape.now.layers shape.now.base) }
{
    match shape.layers.as_slice().split_first() {
        Some((Layer::Array(length), inner)) => {
            let layers = Items::from_slice(alloc, inner)?;
            let base = shape.base;
            Ok(Some((*length, ExprType { layers, base })))
        }
        Some((Layer::Pointer, _)) => Ok(None),
        None => Ok(None),
    }
}

/// Lets a variable have a block, in a table of the blocks of all variables. Err: no memory was left, and nothing is said of
/// the table.
pub fn bind(frame: &mut Vec<Option<u64>>, x: VarId, block: u64) -> Result<(), AllocError>
    ensures { OnOk result (frame_of frame.new.items ≡ bound (frame_of frame.old.items) x (Some block)) }
{
    let at = x as usize;
    while frame.len() <= at {
        frame.push(None)?;
    }
    frame[at] = Some(block);
    Ok(())
}
