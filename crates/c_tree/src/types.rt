//! The types of C that a tree has, and the numbers that stand for variables, functions, statements and structs.
ghost use Rattle.std.specs.Prelude.{◌≡◌, IfOk};

use c_arith::IntType;
use edge_io::Text;
use sqlite_items::Boxed;
use std::alloc::{AllocError, Global};

/// The number of a variable, counted from 0 in text order.
pub type VarId = u32;

/// The number of a function, counted from 0 in the order of the definitions.
pub type FunctionId = u32;

/// The number of a statement, counted from 0 in the order of the statements' first tokens.
pub type StatementId = u32;

/// The number of a struct type, counted from 0 in the order of the definitions.
pub type StructId = u32;

/// A type of C (ISO C99 6.2.5), as far as the language has it.
#[derive(Debug, Drop)]
pub enum CType {
    /// An integer type.
    Integer(IntType),
    /// A pointer to this type.
    PointerTo(Boxed<CType>),
    /// The type of an element, the length, and the words of the length as they stand in the text.
    Array(Boxed<CType>, u32, Text),
    /// A struct type by its number.
    Struct(StructId),
}

impl CType {
    /// An equal value. Err: no memory was left.
    pub fn copy(&self, alloc: Global) -> Result<CType, AllocError>
        ensures { IfOk result (λ t. t ≡ self.now) }
    {
        match self {
            CType::Integer(t) => Ok(CType::Integer(*t)),
            CType::PointerTo(inner) => Ok(CType::PointerTo(Boxed::new(
                alloc,
                inner.get().copy(alloc)?,
            )?)),
            CType::Array(inner, len, words) => Ok(CType::Array(
                Boxed::new(alloc, inner.get().copy(alloc)?)?,
                *len,
                words.copy(alloc)?,
            )),
            CType::Struct(id) => Ok(CType::Struct(*id)),
        }
    }
}
