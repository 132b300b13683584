//! The types of a program's tree: what the rules on types ask of a text holds of the tree that it has.
//!
//! Each function is a law, and holds no code: its contract is the law, over the definitions of `specs/`.
#![tactic(auto)]

ghost use Rattle.typed_programs.specs.Laws as law;

/// A law: where an expression of a program is an operand, its type is that of the operand.
pub fn operands_have_types()
    ensures { law.OperandsHaveTypes }
{}

/// A law: in a well-formed program each expression of a statement, and of what a global begins with, is an operand;
/// left sides are places of integer or pointer type; what is assigned, passed, returned, listed, or given by a call or
/// by malloc is assignable; what is tested, switched over, counted, written and freed has a type for that; and each
/// variable that begins has a type.
pub fn programs_are_typed()
    ensures { law.ProgramsAreTyped }
{}
