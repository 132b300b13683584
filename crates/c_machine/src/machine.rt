//! The interpreter: one act at a time, each answered by what the program means (ISO C99 5.1.2.3).
ghost use Rattle.std.specs.Prelude.{◌≡◌, ℕ, Some, None, true, IsFalse, IfOk, OnOk, OnErr};
ghost use Rattle.std.specs.Option.{option_copied};
ghost use Rattle.c_machine.specs.declared.runs.Turn.TheVariants as turns;
ghost use Rattle.c_machine.specs.Progress.{begun, meant_with, after_acts, turn_of, halt_of, events_at, output_at, BeginsWith, Failed};

use crate::runs::{Run, Turn};
use c_meaning::Event;
use c_tree::{Program, StatementId};
use std::alloc::{AllocError, Global};
use std::marker::Model;

/// What a run of some acts comes to.
#[derive(Clone, Copy, Debug, PartialEq, Eq)]
pub enum Halt {
    /// The run has ended.
    Ended,
    /// An act of this statement is undefined.
    Undefined(StatementId),
    /// The acts are done, and the run needs a further one.
    Steps,
}

/// A run of a program on an input, one act at a time. Contracts see the program, the input, the statements that are
/// watched, how many acts were asked for, and whether there was no memory for one of them; all that a machine answers
/// is what the program means with so many acts.
#[derive(Drop)]
pub struct Machine<'p> {
    alloc: Global,
    program: &'p Program,
    input: &'p [u8],
    run: Run<'p>,
    // How many acts were asked for.
    acts: u128,
    // What the last one came to.
    turn: Turn,
    // The statements whose events are kept; None keeps all.
    watched: Option<&'p [bool]>,
    // The events and the output of the acts that were answered.
    events: Vec<Event>,
    output: Vec<u8>,
    // There was no memory for an act.
    failed: bool,
}

impl<'p> Model for Machine<'p> {
    ghost use Rattle.std.specs.Coded.{codes};
    ghost use Rattle.std.specs.Option.{option_copied};
    ghost use Rattle.c_tree.specs.contracts.program.Program.{the_row};
    ghost use Rattle.c_machine.specs.Progress.{Progress, IsRight};

    ghost Value = { Progress };

    ghost coded = { Prim.hlevel (codes, the_row.coded) };

    ghost view = { λ m. record { program = m.program.now; input = m.input.now; watched = option_copied m.watched; acts = m.acts; failed = m.failed } };

    ghost invariant = { λ m. IsRight (record { program = m.program.now; input = m.input.now; watched = option_copied m.watched; acts = m.acts; failed = m.failed }) m.events.items m.output.items m.turn m.run };
}

impl<'p> Machine<'p> {
    /// A run that is about to begin, of which all events are kept. Err: no memory was left, or a global has more cells
    /// than can be counted.
    pub fn new(alloc: Global, p: &'p Program, input: &'p [u8]) -> Result<Machine<'p>, AllocError>
        ensures { IfOk result (λ m. m ≡ begun p.entry.now input.entry.now None) }
    {
        Machine::begin(alloc, p, input, None)
    }

    /// The same, but events are kept of those statements alone that are watched: of statement `i` where `watched` has
    /// true at `i`. A number at or past its end isn't watched.
    pub fn watching(
        alloc: Global,
        p: &'p Program,
        input: &'p [u8],
        watched: &'p [bool],
    ) -> Result<Machine<'p>, AllocError>
        ensures { IfOk result (λ m. m ≡ begun p.entry.now input.entry.now (Some watched.entry.now)) }
    {
        Machine::begin(alloc, p, input, Some(watched))
    }

    fn begin(
        alloc: Global,
        p: &'p Program,
        input: &'p [u8],
        watched: Option<&'p [bool]>,
    ) -> Result<Machine<'p>, AllocError>
        ensures { IfOk result (λ m. m ≡ begun p.entry.now input.entry.now (option_copied watched.entry)) }
    {
        let mut run = Run::new(alloc, p, input, watched)?;
        let turn = run.settle(alloc)?;
        let mut events = Vec::new(alloc);
        let mut output = Vec::new(alloc);
        run.trace.move_to(&mut events, &mut output)?;
        Ok(Machine {
            alloc,
            program: p,
            input,
            run,
            acts: 0,
            turn,
            watched,
            events,
            output,
            failed: false,
        })
    }

    /// Does one act, and all that comes before the next one: declarations, ends of blocks and returns, with the store of
    /// a call's result. After j acts the answer is that of the meaning with j + 1: `Going` where the run needs a further
    /// act. Once the run is over each call answers so again, and does nothing.
    ///
    /// Err: no memory was left, or a block has more cells than can be counted. The machine answers this from then on,
    /// and its events and output stay those of the acts before.
    pub fn step(&mut self) -> Result<Turn, AllocError>
        ensures answer { IfOk result (λ t. t ≡ turn_of (meant_with self.old 1)) }
        ensures done { OnOk result (self.new ≡ after_acts self.old 1) }
        ensures sound { OnOk result (IsFalse self.old.failed) }
        ensures failed { OnErr result (self.new ≡ record self.old { failed = true }) }
    {
        if self.failed {
            return Err(AllocError);
        }
        if self.acts == u128::MAX {
            self.failed = true;
            return Err(AllocError);
        }
        match self.turn {
            Turn::Going => {
                self.failed = true;
                self.turn = self.run.act_and_settle(self.alloc)?;
                self.run.trace.move_to(&mut self.events, &mut self.output)?;
                self.failed = false;
                self.acts += 1;
                Ok(self.turn)
            }
            Turn::Ended => {
                self.acts += 1;
                Ok(Turn::Ended)
            }
            Turn::Undefined(statement) => {
                self.acts += 1;
                Ok(Turn::Undefined(statement))
            }
        }
    }

    /// Does at most so many acts. After j acts the answer is that of the meaning with j + `budget`: `Steps` exactly where
    /// the run needs a further act.
    ///
    /// Err: as for [`step`](Machine::step).
    pub fn run(&mut self, budget: u64) -> Result<Halt, AllocError>
        ensures answer { IfOk result (λ h. h ≡ halt_of (meant_with self.old budget)) }
        ensures done { OnOk result (self.new ≡ after_acts self.old budget) }
        ensures sound { OnOk result (IsFalse self.old.failed) }
        ensures failed { OnErr result (Failed budget self.old self.new) }
    {
        if self.failed {
            return Err(AllocError);
        }
        for done in 0..budget {
            match self.step()? {
                Turn::Going => (),
                Turn::Ended => {
                    self.skip(budget - 1 - done)?;
                    return Ok(Halt::Ended);
                }
                Turn::Undefined(statement) => {
                    self.skip(budget - 1 - done)?;
                    return Ok(Halt::Undefined(statement));
                }
            }
        }
        Ok(self.halt())
    }

    /// The events of the acts so far, in order, of the statements that are watched. They are a front of those of any
    /// greater number of acts.
    pub fn events(&self) -> &[Event]
        ensures all { result.now ≡ events_at self.now }
        ensures front { (n : ℕ) → BeginsWith result.now (events_at (after_acts self.now n)) }
    {
        self.events.as_slice()
    }

    /// The output of the acts so far. It is a front of that of any greater number of acts.
    pub fn output(&self) -> &[u8]
        ensures all { result.now ≡ output_at self.now }
        ensures front { (n : ℕ) → BeginsWith result.now (output_at (after_acts self.now n)) }
    {
        self.output.as_slice()
    }

    // What the acts so far have come to.
    fn halt(&self) -> Halt
        requires { IsFalse self.now.failed }
        ensures { result ≡ halt_of (meant_with self.now 0) }
    {
        match self.turn {
            Turn::Going => Halt::Steps,
            Turn::Ended => Halt::Ended,
            Turn::Undefined(statement) => Halt::Undefined(statement),
        }
    }

    // Acts of a run that is over, which do nothing. Err: they are too many, and the machine answers this from then on.
    fn skip(&mut self, acts: u64) -> Result<(), AllocError>
        requires sound { IsFalse self.old.failed }
        requires over { turn_of (meant_with self.old 0) ≡ turns.Going → ⊥ }
        ensures done { OnOk result (self.new ≡ after_acts self.old acts) }
        ensures failed { OnErr result (self.new ≡ record self.old { failed = true }) }
    {
        match self.acts.checked_add(acts as u128) {
            Some(sum) => {
                self.acts = sum;
                Ok(())
            }
            None => {
                self.failed = true;
                Err(AllocError)
            }
        }
    }
}
