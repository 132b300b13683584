//! Members of struct types, listed with their types.
ghost use Rattle.std.specs.Prelude.{◌≡◌, ◌++◌, List, [], ◌∷◌, None, IsSome, OnOk};
ghost use Rattle.c_tree.specs.declared.raw.program.RawMember.{RawMember};
ghost use Rattle.c_language.specs.DeclaredTypes as types;
ghost use Rattle.c_types_base.specs.Listing.{HasMembers};
ghost use Rattle.c_types_base.specs.Names.{listed_type};
ghost use Rattle.c_types_base.specs.Tables.{AreRight};

use crate::declared_types::written_type;
use crate::names::StructMembers;
use crate::tables::Tables;
use c_tree::RawMember;
use std::alloc::{AllocError, Global};

/// Lists a member with its type. Err: no memory was left.
pub fn list_member<'a>(
    alloc: Global,
    tables: &Tables<'_>,
    listed: &mut StructMembers<'a>,
    member: &'a RawMember,
) -> Result<(), AllocError>
    requires right { AreRight tables.now }
    requires typed { IsSome (types.written_type tables.now.raw.now member.now.shape) }
    requires fresh { listed_type member.now.name listed.old ≡ None }
    ensures { OnOk result ((before : List RawMember) → HasMembers tables.now.raw.now before listed.old → HasMembers tables.now.raw.now (before ++ member.now ∷ []) listed.new) }
{
    let shape = written_type(alloc, &tables.defined, &member.shape)?.unwrap();
    listed.entries.insert(member.name.bytes(), shape)?;
    Ok(())
}
