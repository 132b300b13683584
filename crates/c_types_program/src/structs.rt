//! Struct types in the tree (ISO C99 6.7.2.1), and the types of their members as the walk lists them.
ghost use Rattle.std.specs.Prelude.{[], ◌∷◌, IfOk};
ghost use Rattle.c_tree.specs.declared.raw.program.RawMember.{RawMember};
ghost use Rattle.c_types_base.specs.Definitions.{IsOfText};
ghost use Rattle.c_types_base.specs.Tables.{AreRight};
ghost use Rattle.c_types_base.specs.Listing.{HasMembers};
ghost use Rattle.c_types_program.specs.Items.{AreFitMembers, AreFitStructs, MakesMembers, MakesStruct, AddsStruct, MakesStructs};

use c_tree::{Items, Member, RawItem, RawMember, StructDef, Text};
use c_types_base::definitions::Definitions;
use c_types_base::listing::list_member;
use c_types_base::names::StructMembers;
use c_types_base::tables::Tables;
use c_types_trees::make_fault::MakeFault;
use c_types_trees::shapes::member_tree;
use indexmap::IndexMap;
use std::alloc::{AllocError, Global};

/// The members of a struct type, with their types. Err: no memory was left.
pub fn listed_members<'a>(
    alloc: Global,
    tables: &Tables<'_>,
    list: &'a [RawMember],
) -> Result<StructMembers<'a>, AllocError>
    requires right { AreRight tables.now }
    requires kept { AreFitMembers tables.now.raw.now list.now }
    ensures { IfOk result (HasMembers tables.now.raw.now list.now) }
{
    let mut listed = StructMembers {
        entries: IndexMap::new(alloc),
    };
    for member in list {
        list_member(alloc, tables, &mut listed, member)?;
    }
    Ok(listed)
}

/// The members of a struct type in the tree. Err: an array has 2^32 elements or more, or no memory was left.
fn member_trees(
    alloc: Global,
    defined: &Definitions<'_>,
    list: &[RawMember],
) -> Result<Items<Member>, MakeFault>
    requires text { IsOfText defined.now }
    requires kept { AreFitMembers defined.now.raw.now list.now }
    ensures { MakesMembers defined.now.raw.now list.now result }
{
    let mut made = Items::new(alloc);
    for member in list {
        let tree = member_tree(alloc, defined, member)?;
        made.push(tree)?;
    }
    Ok(made)
}

/// A struct type in the tree. Err: an array has 2^32 elements or more, or no memory was left.
fn struct_tree(
    alloc: Global,
    defined: &Definitions<'_>,
    tag: &Text,
    list: &[RawMember],
) -> Result<StructDef, MakeFault>
    requires text { IsOfText defined.now }
    requires kept { AreFitMembers defined.now.raw.now list.now }
    ensures { MakesStruct defined.now.raw.now (record { tag = tag.now; members = list.now }) result }
{
    let name = tag.copy(alloc)?;
    let members = member_trees(alloc, defined, list)?;
    Ok(StructDef { name, members })
}

/// Adds the struct type that an item defines, where it defines one. Err: an array has 2^32 elements or
/// more, or no memory was left.
fn add_struct(
    alloc: Global,
    defined: &Definitions<'_>,
    item: &RawItem,
    made: &mut Items<StructDef>,
) -> Result<(), MakeFault>
    requires text { IsOfText defined.now }
    requires kept { AreFitStructs defined.now.raw.now (item.now ∷ []) }
    ensures { AddsStruct defined.now.raw.now item.now made.old made.new result }
{
    match item {
        RawItem::Struct { name, members, .. } => {
            let tree = struct_tree(alloc, defined, name, members.as_slice())?;
            made.push(tree)?;
            Ok(())
        }
        RawItem::Include { .. } => Ok(()),
        RawItem::Tag { .. } => Ok(()),
        RawItem::Global { .. } => Ok(()),
        RawItem::Prototype { .. } => Ok(()),
        RawItem::Define { .. } => Ok(()),
    }
}

/// The struct types that items define, in text order. Err: an array has 2^32 elements or more, or no memory
/// was left.
pub fn struct_trees(
    alloc: Global,
    defined: &Definitions<'_>,
    items: &[RawItem],
) -> Result<Items<StructDef>, MakeFault>
    requires text { IsOfText defined.now }
    requires kept { AreFitStructs defined.now.raw.now items.now }
    ensures { MakesStructs defined.now.raw.now items.now result }
{
    let mut made = Items::new(alloc);
    for item in items {
        add_struct(alloc, defined, item, &mut made)?;
    }
    Ok(made)
}
