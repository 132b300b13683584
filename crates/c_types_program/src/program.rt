//! The program of a whole text.
ghost use Rattle.c_language.specs.Programs.{IsTree};
ghost use Rattle.c_language.specs.Rules.{KeepsRules};
ghost use Rattle.c_types_program.specs.Items.{MakesProgram};

use crate::structs::struct_trees;
use crate::variables::Variables;
use crate::walk::Walk;
use c_tree::{Program, RawProgram};
use c_types_base::tables::Tables;
use c_types_trees::make_fault::MakeFault;
use std::alloc::Global;

/// The program of a text that keeps all rules: its names as numbers, and with types (ISO C99 6.5 to 6.9).
///
/// Err: `Length`, an array has 2^32 elements or more, which the tree can't hold; `NoMemory`, no memory was left,
/// or no number for a variable, a statement, a struct type or a function.
pub fn make_program(alloc: Global, raw: &RawProgram) -> Result<Program, MakeFault>
    requires tree { IsTree raw.now }
    requires rules { KeepsRules raw.now }
    ensures { MakesProgram raw.now result }
{
    let tables = Tables::new(alloc, raw)?;
    let variables = Variables::new(alloc);
    let mut walk = Walk { tables, variables };
    let made = walk.items(alloc, raw.items.as_slice())?;
    let (items, functions) = made;
    if walk.variables.is_long {
        return Err(MakeFault::Length);
    }
    let structs = struct_trees(alloc, &walk.tables.defined, raw.items.as_slice())?;
    Ok(Program {
        items,
        vars: walk.variables.made,
        structs,
        functions,
        statements: walk.tables.statements,
    })
}
