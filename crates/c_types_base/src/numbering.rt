//! Names with numbers, in the order in which they are given.
ghost use Rattle.std.specs.Prelude.{◌≡◌, List, ℕ, [], ◌∷◌, ◌++◌, OnOk};
ghost use Rattle.c_types_base.specs.Numbering.{Numbers, number_in};

use indexmap::IndexMap;
use std::alloc::{AllocError, Global};

/// The first place of each name among those that were given, counted from 0.
#[derive(Drop)]
pub struct Numbering<'a> {
    /// The first place of each name.
    pub entries: IndexMap<&'a [u8], u32>,
    /// How many names were given.
    pub count: u32,
}

impl<'a> Numbering<'a> {
    /// No names, so that the next one has the number 0.
    pub fn new(alloc: Global) -> Numbering<'a>
        ensures { Numbers [] result }
    {
        Numbering {
            entries: IndexMap::new(alloc),
            count: 0,
        }
    }

    /// Gives one more name. Err: no memory was left, or no number.
    pub fn add(&mut self, name: &'a [u8]) -> Result<(), AllocError>
        ensures { OnOk result ((names : List (List ℕ)) → Numbers names self.old → Numbers (names ++ name.now ∷ []) self.new) }
    {
        let next = self.count.checked_add(1).ok_or(AllocError)?;
        let number = self.count;
        self.count = next;
        if self.entries.get(name).is_some() {
            return Ok(());
        }
        self.entries.insert(name, number)?;
        Ok(())
    }

    /// The number of a name.
    pub fn get(&self, name: &[u8]) -> Option<u32>
        ensures { result ≡ number_in self.now name.now }
    {
        self.entries.get(name).copied()
    }
}
