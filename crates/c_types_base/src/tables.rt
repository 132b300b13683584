//! What stands before a place of the text, as tables.
ghost use Rattle.std.specs.Prelude.{◌≡◌, ◌<◌, Some, None, ◌+◌, IfOk, OnOk, length, take, vec_len};
ghost use Rattle.c_language.specs.DeclaredTypes as types;
ghost use Rattle.c_language.specs.Scopes as scopes;
ghost use Rattle.c_types_base.specs.Tables.{scope_of, AreRight, IsAt, Lists};

use crate::definitions::Definitions;
use crate::names::{Meaning, Names, StructMembers};
use c_language::ExprType;
use c_tree::{FunctionId, RawItem, RawProgram, StatementId};
use std::alloc::{AllocError, Global};

/// What stands before a place of the text.
#[derive(Drop)]
pub struct Tables<'a> {
    /// The tree of the text.
    pub raw: &'a RawProgram,
    /// What the whole text defines.
    pub defined: Definitions<'a>,
    /// The names that are in scope.
    pub names: Names<'a>,
    /// How many of the names are declared outside the innermost block.
    pub outer: usize,
    /// The function in whose definition the place is.
    pub owner: Option<FunctionId>,
    /// The struct types that are complete.
    pub structs: Vec<StructMembers<'a>>,
    /// How many functions are defined before the place.
    pub functions: u32,
    /// How many variables are declared before it.
    pub variables: u32,
    /// How many statements are numbered before it.
    pub statements: u32,
    /// Whether the text includes `stdio.h`.
    pub has_stdio: bool,
    /// Whether the text includes `stdlib.h`.
    pub has_stdlib: bool,
}

/// How many names there are before a block, and where they stand.
#[derive(Clone, Copy, Debug)]
pub struct Before {
    /// How many names are in scope.
    pub names: usize,
    /// How many of them are declared outside the innermost block.
    pub outer: usize,
    /// The function in whose definition the block is.
    pub owner: Option<FunctionId>,
}

/// Whether an item includes `stdlib.h`, or else `stdio.h`.
fn is_include(of_stdlib: bool, item: &RawItem) -> bool
    ensures { result ≡ types.is_include of_stdlib item.now }
{
    match item {
        RawItem::Include { is_stdlib } => *is_stdlib == of_stdlib,
        RawItem::Tag { .. } => false,
        RawItem::Struct { .. } => false,
        RawItem::Global { .. } => false,
        RawItem::Prototype { .. } => false,
        RawItem::Define { .. } => false,
    }
}

/// Whether the text includes `stdio.h`.
fn has_stdio(raw: &RawProgram) -> bool
    ensures { result ≡ types.has_stdio raw.now }
{
    raw.items
        .as_slice()
        .iter()
        .any(|item| is_include(false, item))
}

/// Whether the text includes `stdlib.h`.
fn has_stdlib(raw: &RawProgram) -> bool
    ensures { result ≡ types.has_stdlib raw.now }
{
    raw.items
        .as_slice()
        .iter()
        .any(|item| is_include(true, item))
}

impl<'a> Tables<'a> {
    /// The tables at the beginning of a text. Err: no memory was left.
    pub fn new(alloc: Global, raw: &'a RawProgram) -> Result<Tables<'a>, AllocError>
        ensures text { IfOk result (λ t. t.raw.now ≡ raw.now) }
        ensures scope { IfOk result (λ t. scope_of t ≡ scopes.outset) }
        ensures right { IfOk result AreRight }
    {
        let defined = Definitions::of(alloc, raw)?;
        Ok(Tables {
            raw,
            defined,
            names: Names::new(alloc),
            outer: 0,
            owner: None,
            structs: Vec::new(alloc),
            functions: 0,
            variables: 0,
            statements: 0,
            has_stdio: has_stdio(raw),
            has_stdlib: has_stdlib(raw),
        })
    }

    /// Declares a variable, which has the next number. Err: no memory was left, or no number.
    pub fn declare(&mut self, name: &'a [u8], t: ExprType) -> Result<(), AllocError>
        requires { scopes.meaning_in (scope_of self.now) name.now ≡ None }
        ensures { OnOk result (IsAt self.old self.new (scopes.with_entry name.now (scopes.Meaning.Variable self.old.variables (Some t)) (record (scope_of self.old) { variables = self.old.variables + 1 }))) }
    {
        let next = self.variables.checked_add(1).ok_or(AllocError)?;
        self.names.add(name, Meaning::Variable(self.variables, t))?;
        self.variables = next;
        Ok(())
    }

    /// Declares a function, which may have been declared before. Err: no memory was left.
    pub fn declare_function(&mut self, name: &'a [u8]) -> Result<(), AllocError>
        requires { self.now.outer ≡ 0 }
        ensures { OnOk result (IsAt self.old self.new (scopes.with_function name.now (scope_of self.old))) }
    {
        if self.names.get(name).is_some() {
            return Ok(());
        }
        self.names.add(name, Meaning::Function)
    }

    /// Numbers a statement. Err: there is no number.
    pub fn number(&mut self) -> Result<StatementId, AllocError>
        ensures id { IfOk result (λ id. id ≡ self.old.statements) }
        ensures at { OnOk result (IsAt self.old self.new (scopes.numbered (scope_of self.old))) }
    {
        let id = self.statements;
        self.statements = id.checked_add(1).ok_or(AllocError)?;
        Ok(id)
    }

    /// What a block will be closed by.
    pub fn before(&self) -> Before
        ensures names { result.names ≡ length (scope_of self.now).names }
        ensures outer { result.outer ≡ self.now.outer }
        ensures owner { result.owner ≡ self.now.owner }
    {
        Before {
            names: self.names.len(),
            outer: self.outer,
            owner: self.owner,
        }
    }

    /// Opens a block.
    pub fn open(&mut self)
        ensures { IsAt self.old self.new (scopes.opened (scope_of self.old)) }
    {
        self.outer = self.names.len();
    }

    /// Closes a block: the names that it declared are taken away.
    pub fn close(&mut self, before: Before)
        ensures { IsAt self.old self.new (record (scope_of self.old) { names = take before.names (scope_of self.old).names; outer = before.outer; owner = before.owner }) }
    {
        self.names.truncate(before.names);
        self.outer = before.outer;
        self.owner = before.owner;
    }

    /// Opens the block of the parameters of a function that is defined (6.2.1, paragraph 4). Err: there is no number.
    pub fn enter(&mut self) -> Result<FunctionId, AllocError>
        ensures id { IfOk result (λ id. id ≡ self.old.functions) }
        ensures at { OnOk result (IsAt self.old self.new (record (scopes.opened (scope_of self.old)) { owner = Some self.old.functions; functions = self.old.functions + 1 })) }
    {
        let id = self.functions;
        self.functions = id.checked_add(1).ok_or(AllocError)?;
        self.owner = Some(id);
        self.open();
        Ok(id)
    }

    /// Completes the struct type that is defined next, whose members' types are listed. Err: no memory was left.
    pub fn complete(&mut self, listed: StructMembers<'a>) -> Result<(), AllocError>
        requires { Lists self.now listed }
        ensures { OnOk result (IsAt self.old self.new (record (scope_of self.old) { structs = vec_len self.old.structs + 1 })) }
    {
        self.structs.push(listed)?;
        Ok(())
    }
}
