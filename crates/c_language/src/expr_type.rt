//! The types of expressions, as layers of pointers and arrays over a base, and what an operator sees of an operand.
use c_arith::IntType;
use c_tree::StructId;
use sqlite_items::Items;

/// A step of how a type is derived (ISO C99 6.2.5, paragraph 20).
#[derive(Clone, Copy, Debug, PartialEq, Eq)]
pub enum Layer {
    /// A pointer to what the next layers and the base are.
    Pointer,
    /// An array with its length.
    Array(u64),
}

/// The type that all derivations begin with.
#[derive(Clone, Copy, Debug, PartialEq, Eq)]
pub enum Base {
    /// An integer type.
    Integer(IntType),
    /// A struct type by its number.
    Struct(StructId),
    /// That of a function without a result, and of what `NULL` points to.
    Void,
}

/// A type of an expression (6.2.5): what it is of, outermost first, and its base. `int *a[3]` is an
/// array of 3, of pointers, to int.
#[derive(Debug, Drop)]
pub struct ExprType {
    /// The derivations, outermost first.
    pub layers: Items<Layer>,
    /// What all derivations begin with.
    pub base: Base,
}

/// What an operator sees of an operand.
#[derive(Debug, Drop)]
pub struct Operand {
    /// Its type.
    pub shape: ExprType,
    /// Whether it designates an object (6.3.2.1).
    pub is_place: bool,
    /// Whether it is `NULL` or `0`, which stand for a null pointer (6.3.2.3).
    pub is_null: bool,
}
