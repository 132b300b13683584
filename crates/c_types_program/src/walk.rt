//! The walk along a text that makes its program: what stands before a place, and the variables so far.
ghost use Rattle.std.specs.Prelude.{◌≡◌, ◌+◌, None, [], ◌∷◌, IfOk, OnOk};
ghost use Rattle.c_language.specs.DeclaredTypes as types;
ghost use Rattle.c_language.specs.Scopes as scopes;
ghost use Rattle.c_language.specs.ProgramOf as trees;
ghost use Rattle.c_types_base.specs.Tables.{scope_of, AreRight, IsAt};
ghost use Rattle.c_types_program.specs.Statements.{Comes};

use crate::variables::{Declaration, Variables};
use c_tree::{RawInit, StatementId};
use c_types_base::declared_types::type_with;
use c_types_base::tables::Tables;
use std::alloc::{AllocError, Global};

/// The walk along a text, come to a place.
#[derive(Drop)]
pub struct Walk<'a> {
    /// What stands before the place.
    pub tables: Tables<'a>,
    /// The variables that are declared before it.
    pub variables: Variables,
}

impl<'a> Walk<'a> {
    /// Declares a variable. Err: no memory was left, or no number.
    pub fn declare(&mut self, alloc: Global, declaration: Declaration<'a>) -> Result<(), AllocError>
        requires right { AreRight self.now.tables }
        requires fresh { scopes.meaning_in (scope_of self.now.tables) declaration.name.now ≡ None }
        requires typed { types.type_with self.now.tables.raw.now declaration.items declaration.shape.now ≡ None → ⊥ }
        requires shaped { trees.ctype_with self.now.tables.raw.now declaration.items declaration.shape.now ≡ None → ⊥ }
        ensures { OnOk result (Comes self.old self.new
            (scopes.with_entry declaration.entry.name.now (scopes.Meaning.Variable self.old.tables.variables (types.type_with self.old.tables.raw.now declaration.entry.items declaration.entry.shape.now)) (record (scope_of self.old.tables) { variables = self.old.tables.variables + 1 }))
            (trees.variable_with self.old.tables.raw.now declaration.entry.line self.old.tables.owner declaration.entry.is_static declaration.entry.is_parameter declaration.entry.name.now declaration.entry.shape.now declaration.entry.items ∷ [])) }
    {
        let Some(t) = type_with(
            alloc,
            &self.tables.defined,
            declaration.items,
            declaration.shape,
        )?
        else {
            unreachable!();
        };
        self.variables.add(alloc, &self.tables, declaration)?;
        self.tables.declare(declaration.name.bytes(), t)?;
        Ok(())
    }

    /// Numbers a declaration, where it has an initialiser. Err: there is no number.
    pub fn begin(&mut self, init: &RawInit) -> Result<Option<StatementId>, AllocError>
        ensures id { IfOk result (λ id. id ≡ trees.declaration_id init.now self.old.tables.statements) }
        ensures at { OnOk result (IsAt self.old.tables self.new.tables (scopes.begun init.now (scope_of self.old.tables))) }
        ensures variables { OnOk result (self.new.variables ≡ self.old.variables) }
    {
        match init {
            RawInit::None => Ok(None),
            RawInit::One(_) => Ok(Some(self.tables.number()?)),
            RawInit::Items(_) => Ok(Some(self.tables.number()?)),
        }
    }

    /// The number of statements behind the next one. Err: there is none.
    pub fn following(&self) -> Result<StatementId, AllocError>
        ensures { IfOk result (λ n. n ≡ self.now.tables.statements + 1) }
    {
        self.tables.statements.checked_add(1).ok_or(AllocError)
    }

    /// Numbers a statement, once the number behind it is known to be there.
    pub fn pass(&mut self, following: StatementId)
        requires { following ≡ self.now.tables.statements + 1 }
        ensures at { IsAt self.old.tables self.new.tables (scopes.numbered (scope_of self.old.tables)) }
        ensures variables { self.new.variables ≡ self.old.variables }
    {
        self.tables.statements = following;
    }
}
