//! The rules of a whole text.
ghost use Rattle.std.specs.Prelude.{◌≡◌, OnOk, is_some};
ghost use Rattle.c_language.specs.DeclaredTypes.{definition_of};
ghost use Rattle.c_language.specs.NameRules.{main_name};
ghost use Rattle.c_language.specs.Rules.{KeepsRules};
ghost use Rattle.c_types_base.specs.Tables.{AreRight};
ghost use Rattle.c_types_rules.specs.Walks.{NamesBroken, NamesFirst};

use crate::items::items;
use crate::walk_fault::WalkFault;
use c_tree::RawProgram;
use c_types_base::tables::Tables;
use std::alloc::Global;

/// Whether the text defines main (5.1.2.2.1).
fn has_main(tables: &Tables<'_>) -> bool
    requires { AreRight tables.now }
    ensures { result ≡ is_some (definition_of tables.now.raw.now main_name) }
{
    tables.defined.definition_of(b"main".as_slice()).is_some()
}

/// Checks that a text keeps all rules.
///
/// Err: `Rule`, with the number of a rule that the first phrase of the text with a broken rule breaks, and the line
/// of that phrase; a text without main breaks rule 5 at line 1, which is told where no phrase breaks a rule;
/// `NoMemory`, no memory or no number was left.
pub fn check_rules(alloc: Global, raw: &RawProgram) -> Result<(), WalkFault>
    ensures kept { OnOk result (KeepsRules raw.now) }
    ensures broken { NamesBroken raw.now result }
    ensures first { NamesFirst raw.now result }
{
    let mut tables = Tables::new(alloc, raw)?;
    items(alloc, &mut tables, raw.items.as_slice())?;
    if has_main(&tables) {
        Ok(())
    } else {
        Err(WalkFault::Rule(5, 1))
    }
}
