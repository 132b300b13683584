//! What acts change: the blocks of the variables that the running function can name, what it has returned, the memory,
//! and what is left of the input (ISO C99 6.2.4, 6.5.2.2).
ghost use Rattle.std.specs.Prelude.{◌≡◌, ℕ, OnOk, IfOk, None, length, drop, if◌then◌else◌};
ghost use Rattle.std.specs.Option.{option_or, option_to_list};
ghost use Rattle.c_language.specs.Code.{declared_in};
ghost use Rattle.c_language.specs.TreeTypes.{type_of_variable};
ghost use Rattle.c_meaning.specs.Acts.{Made, after, stored, with_begun};
ghost use Rattle.c_meaning.specs.Activations.{executable, parameter_begun};
ghost use Rattle.c_meaning.specs.Memory as memory;
ghost use Rattle.c_meaning.specs.Values as spec;
ghost use Rattle.c_memory.specs.Scenes.{frame_of};
ghost use Rattle.c_acts.specs.Makings.{IsChange, stores_in, begun_in};
ghost use Rattle.c_machine.specs.Rests.{parts};
ghost use Rattle.c_machine.specs.States.{IsState, opened_in, Keeps};

use crate::rests::declared;
use c_acts::{Change, Request, Stores};
use c_language::ExprType;
use c_meaning::{Place, Value};
use c_memory::{Memory, Scene, bind};
use c_tree::{CType, IntType, Items, Program, Statement, VarId};
use std::alloc::{AllocError, Global};

/// What acts change, besides what is told of them.
#[derive(Drop)]
pub(crate) struct State<'p> {
    /// For each variable the number of its block, where the running function can name it.
    pub(crate) frame: Vec<Option<u64>>,
    /// What the running function has returned.
    pub(crate) returned: Option<Value>,
    /// The memory.
    pub(crate) memory: Memory,
    /// What is left of the input.
    pub(crate) unread: &'p [u8],
}

impl<'p> State<'p> {
    /// What expressions are evaluated in.
    pub(crate) fn scene<'q, 's>(&'s self, alloc: Global, program: &'q Program) -> Scene<'q, 's, 's>
        ensures program { result.program.now ≡ program.now }
        ensures frame { result.frame.now ≡ self.now.frame.items }
        ensures memory { result.memory.now ≡ self.now.memory }
    {
        Scene {
            alloc,
            program,
            frame: self.frame.as_slice(),
            memory: &self.memory,
        }
    }

    /// A variable begins, with nothing written in it, and its block is answered.
    pub(crate) fn open(
        &mut self,
        alloc: Global,
        program: &Program,
        x: VarId,
    ) -> Result<u64, AllocError>
        ensures number { IfOk result (λ b. b ≡ length self.old.memory.blocks) }
        ensures opened { (s : spec.State) → IsState self.old s → OnOk result (IsState self.new (opened_in program.now x s)) }
    {
        let block = self.enter(alloc, program, x)?;
        bind(&mut self.frame, x, block)?;
        Ok(block)
    }

    // Begins the block of a variable, and answers its number.
    #[tactic(auto, using(crate::proofs::Rulesets::shapes))]
    fn enter(&mut self, alloc: Global, program: &Program, x: VarId) -> Result<u64, AllocError>
        ensures number { IfOk result (λ b. b ≡ length self.old.memory.blocks) }
        ensures memory { OnOk result (self.new.memory ≡ memory.enter (type_of_variable program.now x) self.old.memory) }
        ensures same { Keeps self.old self.new }
    {
        match program.vars.get(x as usize) {
            Some(var) => self.memory.enter(alloc, &var.shape),
            None => self.memory.enter(alloc, &CType::Integer(IntType::Int)),
        }
    }

    /// A parameter begins with a value.
    pub(crate) fn open_with(
        &mut self,
        alloc: Global,
        program: &Program,
        x: VarId,
        value: Value,
    ) -> Result<(), AllocError>
        ensures { (s : spec.State) → IsState self.old s → OnOk result (IsState self.new (parameter_begun (executable program.now) x s value)) }
    {
        let block = self.open(alloc, program, x)?;
        let path = Items::new(alloc);
        self.memory.write(&Place { block, path }, value);
        Ok(())
    }

    /// A variable is gone.
    pub(crate) fn close(&mut self, x: VarId)
        ensures { (s : spec.State) → IsState self.old s → IsState self.new (spec.variable_closed x s) }
    {
        match block_of(self.frame.as_slice(), x) {
            Some(block) => {
                self.memory.leave(block);
                unbind(&mut self.frame, x);
            }
            None => (),
        }
    }

    /// Variables are gone, one after another.
    pub(crate) fn close_each(&mut self, variables: &[VarId])
        ensures { (s : spec.State) → IsState self.old s → IsState self.new (spec.all_closed variables.now s) }
    {
        for x in variables {
            self.close(*x);
        }
    }

    /// What statements declare is gone.
    pub(crate) fn close_declared(&mut self, statements: &[Statement])
        ensures { (s : spec.State) → IsState self.old s → IsState self.new (spec.all_closed (declared_in (parts statements.now)) s) }
    {
        for statement in statements {
            self.close_one(declared(statement));
        }
    }

    // A variable is gone, where there is one.
    fn close_one(&mut self, variable: Option<VarId>)
        ensures { (s : spec.State) → IsState self.old s → IsState self.new (spec.all_closed (option_to_list variable) s) }
    {
        if let Some(x) = variable {
            self.close(x);
        }
    }

    /// The state once an act has made this. Err: no memory was left, or it stores a list that can't be stored.
    pub(crate) fn apply(&mut self, alloc: Global, change: Change) -> Result<(), AllocError>
        ensures { (i : ℕ) (x : Made) (s : spec.State) → IsChange change x → IsState self.old s → OnOk result (IsState self.new (after i x s)) }
    {
        let Change {
            stores,
            takes,
            begun,
            freed,
            returned,
        } = change;
        self.begin(alloc, begun)?;
        self.free(freed);
        self.store(alloc, stores)?;
        self.answer(returned);
        self.unread = left_behind(self.unread, takes);
        Ok(())
    }

    // Begins the block that malloc gives.
    fn begin(&mut self, alloc: Global, begun: Option<Request>) -> Result<(), AllocError>
        ensures memory { OnOk result (self.new.memory ≡ with_begun (begun_in begun) self.old.memory) }
        ensures same { Keeps self.old self.new }
    {
        if let Some(Request { shape, count }) = begun {
            self.memory.allocate_objects(alloc, shape, count)?;
        }
        Ok(())
    }

    // Ends the block that is freed.
    fn free(&mut self, freed: Option<u64>)
        ensures memory { self.new.memory ≡ spec.leave_block freed self.old.memory }
        ensures same { Keeps self.old self.new }
    {
        if let Some(block) = freed {
            self.memory.leave(block);
        }
    }

    // Lets what was returned take the place of what was returned before.
    fn answer(&mut self, returned: Option<Value>)
        ensures returned { self.new.returned ≡ option_or returned self.old.returned }
        ensures frame { self.new.frame ≡ self.old.frame }
        ensures memory { self.new.memory ≡ self.old.memory }
        ensures unread { self.new.unread ≡ self.old.unread }
    {
        if let Some(value) = returned {
            self.returned = Some(value);
        }
    }

    // Stores what an act stores. Err: no memory was left, or a list can't be stored.
    fn store(&mut self, alloc: Global, stores: Stores) -> Result<(), AllocError>
        ensures memory { OnOk result (self.new.memory ≡ stored (stores_in stores) self.old.memory) }
        ensures same { Keeps self.old self.new }
    {
        match stores {
            Stores::None => Ok(()),
            Stores::One(place, value) => {
                self.memory.write(&place, value);
                Ok(())
            }
            Stores::List(block, length, element, items) => {
                if self
                    .memory
                    .store_list(alloc, block, length, &element, items)?
                {
                    Ok(())
                } else {
                    Err(AllocError)
                }
            }
        }
    }
}

// The block of a variable, by a table of them all.
fn block_of(frame: &[Option<u64>], x: VarId) -> Option<u64>
    ensures { result ≡ frame_of frame.now x }
{
    match frame.get(x as usize) {
        Some(block) => *block,
        None => None,
    }
}

// Lets a variable have no block, in a table of the blocks of all variables.
fn unbind(frame: &mut Vec<Option<u64>>, x: VarId)
    ensures { frame_of frame.new.items ≡ spec.bound (frame_of frame.old.items) x None }
{
    let at = x as usize;
    if at < frame.len() {
        frame[at] = None;
    }
}

// What is left of the input once a byte is taken, or none; behind the last one there is nothing to take.
fn left_behind(unread: &[u8], takes: bool) -> &[u8]
    ensures { result.now ≡ drop (if takes then 1 else 0) unread.now }
{
    if !takes {
        return unread;
    }
    match unread.split_first() {
        Some((_, rest)) => rest,
        None => unread,
    }
}
