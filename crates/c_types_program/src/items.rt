//! The items of a text in the tree (ISO C99 6.9), by one walk in text order.
ghost use Rattle.std.specs.Prelude.{◌≡◌, Some, IfOk, OnOk, map, slice_get, vec_len};
ghost use Rattle.c_tree.specs.declared.raw.program.RawItem.TheVariants as item_of;
ghost use Rattle.c_tree.specs.declared.raw.program.RawParam.{RawParam};
ghost use Rattle.c_language.specs.DeclaredTypes as types;
ghost use Rattle.c_language.specs.Scopes as scopes;
ghost use Rattle.c_types_base.specs.Tables.{scope_of, AreRight};
ghost use Rattle.c_types_base.specs.Listing.{HasPlace};
ghost use Rattle.c_types_base.specs.Stretches.{of_item, of_items};
ghost use Rattle.c_types_program.specs.Items.{FitsStretch, PassesStretch, HasItem, HasItems, AddsFunction, HasFunctions};

use crate::structs::listed_members;
use crate::variables::Declaration;
use crate::walk::Walk;
use c_tree::{Function, Item, Items, RawHead, RawInit, RawItem, RawMember, RawParam, RawVar, Text};
use c_types_base::declared_types::item_count;
use c_types_trees::calls::function_of;
use c_types_trees::parts::init_tree;
use std::alloc::{AllocError, Global};

/// The name of a parameter, where it has one. Err: no memory was left.
fn parameter_name(alloc: Global, param: &RawParam) -> Result<Option<Text>, AllocError>
    ensures { IfOk result (λ name. name ≡ param.now.name) }
{
    match &param.name {
        None => Ok(None),
        Some(name) => Ok(Some(name.copy(alloc)?)),
    }
}

/// The names that a prototype gives its parameters. Err: no memory was left.
fn parameter_names(alloc: Global, params: &[RawParam]) -> Result<Items<Option<Text>>, AllocError>
    ensures { IfOk result (λ names. names ≡ map (λ (p : RawParam). p.name) params.now) }
{
    let mut names = Items::new(alloc);
    for param in params {
        let name = parameter_name(alloc, param)?;
        names.push(name)?;
    }
    Ok(names)
}

impl<'a> Walk<'a> {
    /// `struct s;` (6.7.2.3).
    fn tag(&self, line: u32, name: &[u8]) -> Item
        requires right { AreRight self.now.tables }
        requires fits { FitsStretch (of_item (item_of.Tag line name.now)) self.now }
        ensures { HasItem self.now (item_of.Tag line name.now) result }
    {
        match self.tables.defined.struct_id(name) {
            Some(id) => Item::Tag(id),
            None => unreachable!(),
        }
    }

    /// The definition of a struct type (6.7.2.1), which is the next that the text defines. Err: no memory
    /// was left, or no number.
    fn structure(
        &mut self,
        alloc: Global,
        line: u32,
        tag: &[u8],
        list: &'a [RawMember],
    ) -> Result<Item, AllocError>
        requires right { AreRight self.now.tables }
        requires place { slice_get (types.defined_structs self.now.tables.raw.now) (vec_len self.now.tables.structs) ≡ Some (record { tag = tag.now; members = list.now }) }
        requires fits { FitsStretch (of_item (item_of.Struct line tag.now list.now)) self.now }
        ensures tree { IfOk result (HasItem self.old (item_of.Struct line tag.now list.now)) }
        ensures passes { OnOk result (PassesStretch (of_item (item_of.Struct line tag.now list.now)) self.old self.new) }
    {
        let Ok(id) = u32::try_from(self.tables.structs.len()) else {
            return Err(AllocError);
        };
        let listed = listed_members(alloc, &self.tables, list)?;
        self.tables.complete(listed)?;
        Ok(Item::Struct(id))
    }

    /// A declaration at file scope (6.9.2). Err: no memory was left.
    fn global(
        &mut self,
        alloc: Global,
        line: u32,
        var: &'a RawVar,
        init: &'a RawInit,
        is_static: bool,
    ) -> Result<Item, AllocError>
        requires right { AreRight self.now.tables }
        requires fits { FitsStretch (of_item (item_of.Global line var.now init.now is_static)) self.now }
        ensures tree { IfOk result (HasItem self.old (item_of.Global line var.now init.now is_static)) }
        ensures passes { OnOk result (PassesStretch (of_item (item_of.Global line var.now init.now is_static)) self.old self.new) }
    {
        let number = self.tables.variables;
        let global = Declaration {
            line,
            name: &var.name,
            shape: &var.shape,
            items: item_count(init),
            is_static,
            is_parameter: false,
        };
        self.declare(alloc, global)?;
        let made = init_tree(alloc, &self.tables, init)?;
        Ok(Item::Global(number, made))
    }

    /// A prototype (6.7.5.3). Err: no memory was left.
    fn prototype(&mut self, alloc: Global, line: u32, head: &'a RawHead) -> Result<Item, AllocError>
        requires right { AreRight self.now.tables }
        requires outside { self.now.tables.outer ≡ 0 }
        requires fits { FitsStretch (of_item (item_of.Prototype line head.now)) self.now }
        ensures tree { IfOk result (HasItem self.old (item_of.Prototype line head.now)) }
        ensures passes { OnOk result (PassesStretch (of_item (item_of.Prototype line head.now)) self.old self.new) }
    {
        let function = function_of(&self.tables, head.name.bytes());
        let names = parameter_names(alloc, head.params.as_slice())?;
        self.tables.declare_function(head.name.bytes())?;
        Ok(Item::Prototype {
            function,
            names,
            is_static: head.is_static,
        })
    }

    /// An item; the function that it defines is added. Err: no memory was left.
    fn item(
        &mut self,
        alloc: Global,
        item: &'a RawItem,
        functions: &mut Items<Function>,
    ) -> Result<Item, AllocError>
        requires right { AreRight self.now.tables }
        requires outside { self.now.tables.outer ≡ 0 }
        requires place { HasPlace self.now.tables.raw.now (vec_len self.now.tables.structs) item.now }
        requires fits { FitsStretch (of_item item.now) self.now }
        ensures tree { IfOk result (HasItem self.old item.now) }
        ensures function { OnOk result (AddsFunction self.old item.now functions.old functions.new) }
        ensures passes { OnOk result (PassesStretch (of_item item.now) self.old self.new) }
    {
        match item {
            RawItem::Include { is_stdlib } => Ok(Item::Include {
                is_stdlib: *is_stdlib,
            }),
            RawItem::Tag { line, name } => Ok(self.tag(*line, name.bytes())),
            RawItem::Struct {
                line,
                name,
                members,
            } => self.structure(alloc, *line, name.bytes(), members.as_slice()),
            RawItem::Global {
                line,
                var,
                init,
                is_static,
            } => self.global(alloc, *line, var, init, *is_static),
            RawItem::Prototype { line, head } => self.prototype(alloc, *line, head),
            RawItem::Define { line, head, body } => {
                let id = self.tables.functions;
                let made = self.definition(alloc, *line, head, body.as_slice())?;
                functions.push(made)?;
                Ok(Item::Define(id))
            }
        }
    }

    /// The items of a text, and the functions that they define. Err: no memory was left.
    pub fn items(
        &mut self,
        alloc: Global,
        list: &'a [RawItem],
    ) -> Result<(Items<Item>, Items<Function>), AllocError>
        requires right { AreRight self.now.tables }
        requires whole { list.now ≡ self.now.tables.raw.now.items }
        requires start { scope_of self.now.tables ≡ scopes.outset }
        requires fits { FitsStretch (of_items list.now) self.now }
        ensures items { IfOk result (λ r. HasItems self.old list.now r.0) }
        ensures functions { IfOk result (λ r. HasFunctions self.old list.now r.1) }
        ensures passes { OnOk result (PassesStretch (of_items list.now) self.old self.new) }
    {
        let mut made = Items::new(alloc);
        let mut functions = Items::new(alloc);
        for item in list {
            let tree = self.item(alloc, item, &mut functions)?;
            made.push(tree)?;
        }
        Ok((made, functions))
    }
}
