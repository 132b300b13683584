//! What is told of a run: events at the statements that are watched, and output.
ghost use Rattle.std.specs.Prelude.{◌≡◌, ◌++◌, [], OnOk, OnErr};
ghost use Rattle.std.specs.Option.{option_copied};
ghost use Rattle.c_meaning.specs.Meaning.{if_in};
ghost use Rattle.c_machine.specs.Traces.{watches};

use c_meaning::{Event, ShownList};
use c_tree::StatementId;
use std::alloc::AllocError;

/// What a run has told.
#[derive(Drop)]
pub(crate) struct Trace<'p> {
    /// The statements whose events are kept: those with true; None keeps all.
    pub(crate) watched: Option<&'p [bool]>,
    /// The events that are kept, in order.
    pub(crate) events: Vec<Event>,
    /// The output.
    pub(crate) output: Vec<u8>,
}

impl<'p> Trace<'p> {
    /// Tells of an act of a statement: the values that it showed, and what it wrote.
    pub(crate) fn tell(
        &mut self,
        statement: StatementId,
        values: ShownList,
        output: &[u8],
    ) -> Result<(), AllocError>
        ensures events { OnOk result (self.new.events.items ≡ self.old.events.items ++ if_in (watches (option_copied self.old.watched) statement) (record { statement = statement; values = values }) []) }
        ensures output { OnOk result (self.new.output.items ≡ self.old.output.items ++ output.now) }
        ensures watched { self.new.watched ≡ self.old.watched }
    {
        self.output.extend_from_slice(output)?;
        if is_watched(self.watched, statement) {
            self.events.push(Event { statement, values })?;
        }
        Ok(())
    }

    /// Puts all that was told behind other events and other output, and nothing is told then. Err: no memory was left,
    /// and nothing is put there.
    pub(crate) fn move_to(
        &mut self,
        events: &mut Vec<Event>,
        output: &mut Vec<u8>,
    ) -> Result<(), AllocError>
        ensures events { OnOk result (events.new.items ≡ events.old.items ++ self.old.events.items) }
        ensures output { OnOk result (output.new.items ≡ output.old.items ++ self.old.output.items) }
        ensures none_told { OnOk result (self.new.events.items ≡ []) }
        ensures none_put { OnOk result (self.new.output.items ≡ []) }
        ensures watched { self.new.watched ≡ self.old.watched }
        ensures refused { OnErr result ((events.new.items ≡ events.old.items) × (output.new.items ≡ output.old.items)) }
    {
        // With room for the events, there is no Err once the output has been moved.
        events.reserve(self.events.len())?;
        output.append(&mut self.output)?;
        events.append(&mut self.events)?;
        Ok(())
    }
}

// Whether the events of a statement are kept; a number at or past the list's end isn't watched.
fn is_watched(watched: Option<&[bool]>, statement: StatementId) -> bool
    ensures { result ≡ watches (option_copied watched.entry) statement }
{
    match watched {
        Some(list) => match list.get(statement as usize) {
            Some(is) => *is,
            None => false,
        },
        None => true,
    }
}
