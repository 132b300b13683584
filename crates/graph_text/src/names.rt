//! Numbers, and the names of what a program numbers.
ghost use Rattle.std.specs.Prelude.{◌≡◌, ◌++◌, OnOk};
ghost use Rattle.std.specs.Fmt.{decimal};
ghost use Rattle.c_language.specs.Words as spec;

use c_tree::{FunctionId, MemberId, Program};
use dep_model::Text;
use std::alloc::{AllocError, Global};
use tree_types::members;

/// Appends a number in decimal digits.
pub(crate) fn append_number(alloc: Global, number: u64, text: &mut Text) -> Result<(), AllocError>
    ensures { OnOk result (text.new ≡ text.old ++ decimal number) }
{
    let digits = number.to_string(alloc)?;
    text.append(digits.as_bytes())?;
    Ok(())
}

/// The name of a function; a number that no function has gives no bytes.
pub(crate) fn function_name(p: &Program, function: FunctionId) -> &[u8]
    ensures { result.now ≡ spec.name_of_function p.now function }
{
    match p.functions.get(function as usize) {
        Some(found) => found.name.bytes(),
        None => b"",
    }
}

/// The name of a member; numbers that no member has give no bytes.
pub(crate) fn member_name(p: &Program, member: MemberId) -> &[u8]
    ensures { result.now ≡ spec.name_of_member p.now member }
{
    match members(p, member.owner).get(member.index as usize) {
        Some(found) => found.name.bytes(),
        None => b"",
    }
}
