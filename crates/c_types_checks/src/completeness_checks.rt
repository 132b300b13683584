//! The checks of tags and of complete types: whether a rule is broken.
ghost use Rattle.std.specs.Prelude.{◌≡◌};
ghost use Rattle.c_language.specs.ExprRules as rules;
ghost use Rattle.c_types_checks.specs.Checking.{Decides};
ghost use Rattle.c_types_checks.specs.DeclarationChecks as spec;
ghost use Rattle.c_types_base.specs.Tables.{scope_of, AreRight};

use crate::checking::unless_broken;
use c_language::ExprType;
use c_types_base::fault::Fault;
use c_types_base::judging::complete_in;
use c_types_base::tables::Tables;

/// A tag that is named.
pub fn check_tag(tables: &Tables<'_>, tag: &[u8]) -> Result<(), Fault>
    requires { AreRight tables.now }
    ensures { Decides (spec.check_tag tables.now.raw.now (scope_of tables.now) tag.now) result }
{
    match tables.defined.struct_id(tag) {
        Some(_) => Ok(()),
        None => Err(Fault::Rule(7)),
    }
}

/// Whether the struct type that an object of the type is made of, if it is, has been defined.
pub fn is_complete(tables: &Tables<'_>, t: &ExprType) -> bool
    ensures { result ≡ rules.is_complete (scope_of tables.now) t.now }
{
    complete_in(tables, t.layers.as_slice(), t.base)
}

/// An object of the type is made.
pub fn check_complete(tables: &Tables<'_>, t: &ExprType) -> Result<(), Fault>
    ensures { Decides (spec.check_complete tables.now.raw.now (scope_of tables.now) t.now) result }
{
    unless_broken(is_complete(tables, t), 7)
}
