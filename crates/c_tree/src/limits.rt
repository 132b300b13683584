//! The names of the quantities that are limited, by which a text that is too large is refused.
/// A quantity of a program that has a greatest number.
#[derive(Clone, Copy, Debug, PartialEq, Eq)]
pub enum LimitName {
    /// How deep a text nests: at most 100.
    Nesting,
    /// The length of an array: at most 65,536 elements.
    ArrayLength,
    /// The cells of a variable or of a struct type: at most 1,048,576.
    ObjectCells,
    /// How many locations a program has: at most 4,096.
    Locations,
    /// How many vertices its system graph has: at most 65,536.
    Vertices,
    /// How many words of 64 bits the facts of its system graph take: at most 262,144.
    FactWords,
    /// How many criteria one call has: at most 64.
    Criteria,
}
