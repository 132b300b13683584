//! A whole text as the parser reads it: its items, the heads of functions and what declared objects begin with.
use crate::raw::expr::{RawExpr, RawType, RawVar};
use crate::raw::statement::RawStatement;
use edge_io::Text;
use sqlite_items::Items;

/// What a declared object begins with (ISO C99 6.7.8).
#[derive(Debug, Drop)]
pub enum RawInit {
    /// Nothing.
    None,
    /// One expression.
    One(RawExpr),
    /// The items of a list in braces.
    Items(Items<RawExpr>),
}

/// A member of a struct type.
#[derive(Debug, Drop)]
pub struct RawMember {
    /// The line of its declaration, counted from 1.
    pub line: u32,
    /// Its name.
    pub name: Text,
    /// Its type.
    pub shape: RawType,
}

/// A parameter. One that was written as an array is a pointer, and keeps the length that it was
/// written with (6.7.5.3).
#[derive(Debug, Drop)]
pub struct RawParam {
    /// The line of its first token, counted from 1.
    pub line: u32,
    /// Its name, which a prototype may lack.
    pub name: Option<Text>,
    /// Its type.
    pub shape: RawType,
    /// The length that was written, where it was written as an array with one.
    pub length: Option<RawExpr>,
}

/// The head of a function: its name and its type.
#[derive(Debug, Drop)]
pub struct RawHead {
    /// The name of the function.
    pub name: Text,
    /// The type of its result; a void function has none.
    pub result: Option<RawType>,
    /// Its parameters, in order.
    pub params: Items<RawParam>,
    /// Whether it is declared `static`.
    pub is_static: bool,
}

/// An item of a translation unit (6.9), in text order.
#[derive(Debug, Drop)]
pub enum RawItem {
    /// An include of `stdlib.h`, or else of `stdio.h` (7.19, 7.20).
    Include {
        is_stdlib: bool,
    },
    /// `struct s;`
    Tag {
        line: u32,
        name: Text,
    },
    /// The definition of a struct type, by its tag.
    Struct {
        line: u32,
        name: Text,
        members: Items<RawMember>,
    },
    /// A declarator of global variables, and what its variable begins with.
    Global {
        line: u32,
        var: RawVar,
        init: RawInit,
        is_static: bool,
    },
    /// A prototype.
    Prototype {
        line: u32,
        head: RawHead,
    },
    /// The definition of a function.
    Define {
        line: u32,
        head: RawHead,
        body: Items<RawStatement>,
    },
}

/// A whole text.
#[derive(Debug, Drop)]
pub struct RawProgram {
    /// Its items, in text order.
    pub items: Items<RawItem>,
}
