//! The text of a generated program is accepted, and isn't long: laws on the texts that `big_programs` writes.
//!
//! Each function is a law, and holds no code: its contract is the law, over the definitions of `specs/Laws`.
#![tactic(auto)]

ghost use Rattle.big_laws.specs.Laws.{GeneratedIsAccepted, GeneratedIsShort};

/// A law: for every seed, and every number of functions from 1 on that has 64 bits, the text of the
/// generated program is in the grammar, keeps all rules, and is within the limits on nesting, on the
/// lengths of arrays and on the cells of objects. So it has a program, and that has a statement.
pub fn generated_is_accepted()
    ensures { GeneratedIsAccepted }
{}

/// A law: for every seed, and at most 1,000 functions, the text of the generated program has at most 1,048,576 bytes.
pub fn generated_is_short()
    ensures { GeneratedIsShort }
{}
