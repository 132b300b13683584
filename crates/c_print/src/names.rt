//! The names of what a program numbers.
ghost use Rattle.std.specs.Prelude.{◌≡◌};
ghost use Rattle.c_language.specs.Words as spec;

use c_tree::{FunctionId, MemberId, Program, StructId, VarId};

/// The name of a variable; a number that no variable has gives no bytes.
pub(crate) fn name_of_var(program: &Program, var: VarId) -> &[u8]
    ensures { result.now ≡ spec.name_of_var program.now var }
{
    match program.vars.get(var as usize) {
        Some(found) => found.name.bytes(),
        None => b"",
    }
}

/// The name of a function; a number that no function has gives no bytes.
pub(crate) fn name_of_function(program: &Program, function: FunctionId) -> &[u8]
    ensures { result.now ≡ spec.name_of_function program.now function }
{
    match program.functions.get(function as usize) {
        Some(found) => found.name.bytes(),
        None => b"",
    }
}

/// The name of a struct type; a number that no struct type has gives no bytes.
pub(crate) fn name_of_struct(program: &Program, id: StructId) -> &[u8]
    ensures { result.now ≡ spec.name_of_struct program.now id }
{
    match program.structs.get(id as usize) {
        Some(found) => found.name.bytes(),
        None => b"",
    }
}

/// The name of a member; numbers that no member has give no bytes.
pub(crate) fn name_of_member(program: &Program, member: MemberId) -> &[u8]
    ensures { result.now ≡ spec.name_of_member program.now member }
{
    let Some(owner) = program.structs.get(member.owner as usize) else {
        return b"";
    };
    match owner.members.get(member.index as usize) {
        Some(found) => found.name.bytes(),
        None => b"",
    }
}
