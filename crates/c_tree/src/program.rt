//! Whole programs of the typed tree: items, variables, struct types, functions and what an object begins with.
ghost use Rattle.std.specs.Prelude.{◌≡◌, IfOk};

use crate::copies::{Copies, copied};
use crate::expr::Expr;
use crate::statement::Statement;
use crate::types::{CType, FunctionId, StructId, VarId};
use edge_io::Text;
use sqlite_items::Items;
use std::alloc::{AllocError, Global};

/// What a declared object begins with (ISO C99 6.7.8).
#[derive(Debug, Drop)]
pub enum Init {
    /// Nothing.
    None,
    /// One expression.
    One(Expr),
    /// The items of a list in braces.
    Items(Items<Expr>),
}

impl Init {
    /// An equal value. Err: no memory was left.
    pub fn copy(&self, alloc: Global) -> Result<Init, AllocError>
        ensures { IfOk result (λ t. t ≡ self.now) }
    {
        match self {
            Init::None => Ok(Init::None),
            Init::One(value) => Ok(Init::One(value.copy(alloc)?)),
            Init::Items(values) => Ok(Init::Items(copied(alloc, values)?)),
        }
    }
}

/// A variable: a global, a parameter or a local.
#[derive(Debug, Drop)]
pub struct Var {
    /// Its name.
    pub name: Text,
    /// Its type.
    pub shape: CType,
    /// The line of its declaration, or of a parameter's first token.
    pub line: u32,
    /// Whether it is declared `static`.
    pub is_static: bool,
    /// The function of a local or a parameter.
    pub owner: Option<FunctionId>,
    /// Whether it is a parameter of its function.
    pub is_parameter: bool,
}

impl Var {
    /// An equal value. Err: no memory was left.
    pub fn copy(&self, alloc: Global) -> Result<Var, AllocError>
        ensures { IfOk result (λ t. t ≡ self.now) }
    {
        Ok(Var {
            name: self.name.copy(alloc)?,
            shape: self.shape.copy(alloc)?,
            line: self.line,
            is_static: self.is_static,
            owner: self.owner,
            is_parameter: self.is_parameter,
        })
    }
}

/// A member of a struct type.
#[derive(Debug, Drop)]
pub struct Member {
    /// Its name.
    pub name: Text,
    /// Its type.
    pub shape: CType,
}

impl Member {
    /// An equal value. Err: no memory was left.
    pub fn copy(&self, alloc: Global) -> Result<Member, AllocError>
        ensures { IfOk result (λ t. t ≡ self.now) }
    {
        Ok(Member {
            name: self.name.copy(alloc)?,
            shape: self.shape.copy(alloc)?,
        })
    }
}

impl Copies for Member {
    fn duplicate(&self, alloc: Global) -> Result<Member, AllocError> {
        self.copy(alloc)
    }
}

/// A struct type with its members.
#[derive(Debug, Drop)]
pub struct StructDef {
    /// Its tag.
    pub name: Text,
    /// Its members, in text order.
    pub members: Items<Member>,
}

impl StructDef {
    /// An equal value. Err: no memory was left.
    pub fn copy(&self, alloc: Global) -> Result<StructDef, AllocError>
        ensures { IfOk result (λ t. t ≡ self.now) }
    {
        Ok(StructDef {
            name: self.name.copy(alloc)?,
            members: copied(alloc, &self.members)?,
        })
    }
}

/// A function with its definition.
#[derive(Debug, Drop)]
pub struct Function {
    /// Its name.
    pub name: Text,
    /// The type of its result; a void function has none.
    pub result: Option<CType>,
    /// Its parameters by their numbers, in order.
    pub params: Items<VarId>,
    /// The statements of its outermost block.
    pub body: Items<Statement>,
    /// Whether it is declared `static`.
    pub is_static: bool,
    /// The line of its first token, counted from 1.
    pub line: u32,
}

/// An item of a translation unit (ISO C99 6.9), in text order.
#[derive(Debug, Drop)]
pub enum Item {
    /// An include of `stdlib.h`, or else of `stdio.h` (7.19, 7.20).
    Include {
        is_stdlib: bool,
    },
    /// `struct s;`
    Tag(StructId),
    /// The definition of a struct type.
    Struct(StructId),
    /// A global variable, and what it begins with.
    Global(VarId, Init),
    /// A prototype, with the names that it gives its parameters.
    Prototype {
        function: FunctionId,
        names: Items<Option<Text>>,
        is_static: bool,
    },
    /// The definition of a function.
    Define(FunctionId),
}

impl Item {
    /// An equal value. Err: no memory was left.
    pub fn copy(&self, alloc: Global) -> Result<Item, AllocError>
        ensures { IfOk result (λ t. t ≡ self.now) }
    {
        match self {
            Item::Include { is_stdlib } => Ok(Item::Include {
                is_stdlib: *is_stdlib,
            }),
            Item::Tag(id) => Ok(Item::Tag(*id)),
            Item::Struct(id) => Ok(Item::Struct(*id)),
            Item::Global(var, init) => Ok(Item::Global(*var, init.copy(alloc)?)),
            Item::Prototype {
                function,
                names,
                is_static,
            } => Ok(Item::Prototype {
                function: *function,
                names: copied(alloc, names)?,
                is_static: *is_static,
            }),
            Item::Define(function) => Ok(Item::Define(*function)),
        }
    }
}

/// A whole program.
#[derive(Debug, Drop)]
pub struct Program {
    /// Its items, in text order.
    pub items: Items<Item>,
    /// Its variables, by their numbers.
    pub vars: Items<Var>,
    /// Its struct types, by their numbers.
    pub structs: Items<StructDef>,
    /// Its functions, by their numbers.
    pub functions: Items<Function>,
    /// How many statements it has.
    pub statements: u32,
}
