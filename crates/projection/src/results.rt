//! The functions that still give a result, if they gave one.
ghost use Rattle.std.specs.Prelude.{◌≡◌, IfOk, map};
ghost use Rattle.std.specs.List.{list_any};
ghost use Rattle.bit_rows.specs.Sets.{has};
ghost use Rattle.c_tree.specs.declared.statement.Statement.{Statement};
ghost use Rattle.c_language.specs.NameRules as names;
ghost use Rattle.projection.specs.KeptVertices.{returns, still_gives};

use crate::parts::KeptParts;
use c_tree::{Function, Statement};
use std::alloc::{AllocError, Global};

/// For each function, whether it gives a result still, if it gave one: its return is kept, or it is
/// main. Err: no memory was left.
pub(crate) fn giving_functions(
    alloc: Global,
    list: &[Function],
    parts: &KeptParts,
) -> Result<Vec<bool>, AllocError>
    ensures { IfOk result (λ gives. gives.items ≡ map (still_gives (has parts.now.statements.items)) list.now) }
{
    let mut gives = Vec::new(alloc);
    for function in list {
        gives.push(still_gives(function, parts))?;
    }
    Ok(gives)
}

fn still_gives(function: &Function, parts: &KeptParts) -> bool
    ensures { result ≡ still_gives (has parts.now.statements.items) function.now }
{
    is_main(function.name.bytes()) || returns_among(function.body.as_slice(), parts)
}

// The name of the function where a run begins (ISO C99 5.1.2.2.1).
fn is_main(name: &[u8]) -> bool
    ensures { result ≡ names.is_main name.now }
{
    name == b"main".as_slice()
}

fn returns_among(list: &[Statement], parts: &KeptParts) -> bool
    ensures { result ≡ list_any (λ (s : Statement). returns (has parts.now.statements.items) s) list.now }
{
    for statement in list {
        if is_return(statement, parts) {
            return true;
        }
    }
    false
}

// Whether a statement is a return that is kept.
fn is_return(statement: &Statement, parts: &KeptParts) -> bool
    ensures { result ≡ returns (has parts.now.statements.items) statement.now }
{
    match statement {
        Statement::Return { id, .. } => parts.keeps(*id),
        Statement::Declare { .. }
        | Statement::Assign { .. }
        | Statement::Bump { .. }
        | Statement::Invoke { .. }
        | Statement::Fetch { .. }
        | Statement::Write { .. }
        | Statement::Print { .. }
        | Statement::Heap { .. }
        | Statement::Release { .. }
        | Statement::If { .. }
        | Statement::While { .. }
        | Statement::Do { .. }
        | Statement::For { .. }
        | Statement::Switch { .. }
        | Statement::Block { .. } => false,
    }
}
