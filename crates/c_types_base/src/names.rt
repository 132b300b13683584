//! The names that are in scope (ISO C99 6.2.1).
ghost use Rattle.std.specs.Prelude.{◌≡◌, None, [], ◌∷◌, ◌++◌, OnOk, option_map, option_copied, length, take, drop};
ghost use Rattle.c_language.specs.Scopes.{found_in};
ghost use Rattle.c_types_base.specs.Names.{meaning_of, names_of, listed_type};

use c_language::ExprType;
use c_tree::VarId;
use indexmap::IndexMap;
use std::alloc::{AllocError, Global};

/// What an ordinary name stands for.
#[derive(Debug, Drop)]
pub enum Meaning {
    /// A variable, with its number and its type.
    Variable(VarId, ExprType),
    /// A function.
    Function,
}

/// The names that are in scope, in the order of their declarations.
#[derive(Drop)]
pub struct Names<'a> {
    /// What each name stands for, in the order of the declarations.
    pub entries: IndexMap<&'a [u8], Meaning>,
}

impl<'a> Names<'a> {
    /// No names.
    pub fn new(alloc: Global) -> Names<'a>
        ensures { names_of result ≡ [] }
    {
        Names {
            entries: IndexMap::new(alloc),
        }
    }

    /// What a name stands for.
    pub fn get(&self, name: &[u8]) -> Option<&Meaning>
        ensures { option_map meaning_of (option_copied result) ≡ found_in name.now (names_of self.now) }
    {
        self.entries.get(name)
    }

    /// What a name stands for by a declaration behind the first ones.
    pub fn get_behind(&self, count: usize, name: &[u8]) -> Option<&Meaning>
        ensures { option_map meaning_of (option_copied result) ≡ found_in name.now (drop count (names_of self.now)) }
    {
        let index = self.entries.get_index_of(name)?;
        if index < count {
            None
        } else {
            self.entries.get(name)
        }
    }

    /// Declares a name that isn't in scope. Err: no memory was left.
    pub fn add(&mut self, name: &'a [u8], meaning: Meaning) -> Result<(), AllocError>
        requires { found_in name.now (names_of self.now) ≡ None }
        ensures { OnOk result (names_of self.new ≡ names_of self.old ++ record { name = name.now; meaning = meaning_of meaning } ∷ []) }
    {
        self.entries.insert(name, meaning)?;
        Ok(())
    }

    /// Takes the names away behind the first ones.
    pub fn truncate(&mut self, count: usize)
        ensures { names_of self.new ≡ take count (names_of self.old) }
    {
        self.entries.truncate(count);
    }

    /// How many names are in scope.
    pub fn len(&self) -> usize
        ensures { result ≡ length (names_of self.now) }
    {
        self.entries.len()
    }
}

/// A struct type that is complete: its members with their types, in their order.
#[derive(Drop)]
pub struct StructMembers<'a> {
    /// The type of each member, in the order of the members.
    pub entries: IndexMap<&'a [u8], ExprType>,
}

impl<'a> StructMembers<'a> {
    /// The type of the member with a name.
    pub fn get(&self, name: &[u8]) -> Option<&ExprType>
        ensures { option_copied result ≡ listed_type name.now self.now }
    {
        self.entries.get(name)
    }
}
