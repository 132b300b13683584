//! What a text defines, found by names: its struct types with their members, and its functions.
ghost use Rattle.std.specs.Prelude.{◌≡◌, ℕ, List, [], ◌∷◌, ◌++◌, IfOk, OnOk, option_and_then, option_copied, map, slice_get};
ghost use Rattle.std.specs.Borrow.{Bor};
ghost use Rattle.c_tree.specs.declared.raw.program.RawHead.{RawHead};
ghost use Rattle.c_tree.specs.declared.raw.program.RawItem.{RawItem};
ghost use Rattle.c_tree.specs.declared.raw.statement.RawStatement.{RawStatement};
ghost use Rattle.c_language.specs.DeclaredTypes as types;
ghost use Rattle.c_language.specs.ExprTypes as exprs;
ghost use Rattle.c_language.specs.ProgramOf as trees;
ghost use Rattle.c_types_base.specs.Numbering.{Numbers};
ghost use Rattle.c_types_base.specs.Definitions.{Defines, IsOfText, names_of_members};

use crate::expr_type::struct_of;
use crate::numbering::Numbering;
use c_language::ExprType;
use c_tree::{FunctionId, MemberId, RawHead, RawItem, RawMember, RawProgram, StructId};
use sqlite_items::Items;
use std::alloc::{AllocError, Global};

/// The struct types and the functions that a text defines, in text order.
#[derive(Drop)]
pub struct Definitions<'a> {
    /// The tree of the text.
    pub raw: &'a RawProgram,
    /// The struct types by their tags.
    pub tags: Numbering<'a>,
    /// The members of each struct type.
    pub members: Items<Numbering<'a>>,
    /// The functions by their names.
    pub functions: Numbering<'a>,
    /// The heads of the functions.
    pub heads: Vec<&'a RawHead>,
}

/// The places of members. Err: no memory was left.
fn numbered_members<'a>(
    alloc: Global,
    members: &'a [RawMember],
) -> Result<Numbering<'a>, AllocError>
    ensures { IfOk result (Numbers (names_of_members members.now)) }
{
    let mut all = Numbering::new(alloc);
    for member in members {
        all.add(member.name.bytes())?;
    }
    Ok(all)
}

/// The head at a place, where there is one.
fn head_at<'a>(heads: &[&'a RawHead], at: usize) -> Option<&'a RawHead>
    ensures { option_copied result ≡ slice_get (map (λ (h : Bor RawHead). h.now) heads.now) at }
{
    if at < heads.len() {
        Some(heads[at])
    } else {
        None
    }
}

impl<'a> Definitions<'a> {
    fn new(alloc: Global, raw: &'a RawProgram) -> Definitions<'a>
        ensures nothing { Defines [] result }
        ensures text { result.raw.now ≡ raw.now }
    {
        Definitions {
            raw,
            tags: Numbering::new(alloc),
            members: Items::new(alloc),
            functions: Numbering::new(alloc),
            heads: Vec::new(alloc),
        }
    }

    /// Adds a struct type. Err: no memory was left.
    fn add_struct(
        &mut self,
        alloc: Global,
        tag: &'a [u8],
        members: &'a [RawMember],
    ) -> Result<(), AllocError>
        ensures adds { OnOk result ((items : List RawItem) (line : ℕ) → Defines items self.old → Defines (items ++ RawItem.Struct line tag.now members.now ∷ []) self.new) }
        ensures text { OnOk result (self.new.raw.now ≡ self.old.raw.now) }
    {
        let places = numbered_members(alloc, members)?;
        self.tags.add(tag)?;
        self.members.push(places)?;
        Ok(())
    }

    /// Adds a function. Err: no memory was left.
    fn add_function(&mut self, head: &'a RawHead) -> Result<(), AllocError>
        ensures adds { OnOk result ((items : List RawItem) (line : ℕ) (body : List RawStatement) → Defines items self.old → Defines (items ++ RawItem.Define line head.now body ∷ []) self.new) }
        ensures text { OnOk result (self.new.raw.now ≡ self.old.raw.now) }
    {
        self.functions.add(head.name.bytes())?;
        self.heads.push(head)?;
        Ok(())
    }

    /// Adds what an item defines. Err: no memory was left.
    fn add(&mut self, alloc: Global, item: &'a RawItem) -> Result<(), AllocError>
        ensures adds { OnOk result ((items : List RawItem) → Defines items self.old → Defines (items ++ item.now ∷ []) self.new) }
        ensures text { OnOk result (self.new.raw.now ≡ self.old.raw.now) }
    {
        match item {
            RawItem::Struct { name, members, .. } => {
                self.add_struct(alloc, name.bytes(), members.as_slice())
            }
            RawItem::Define { head, .. } => self.add_function(head),
            RawItem::Include { .. } => Ok(()),
            RawItem::Tag { .. } => Ok(()),
            RawItem::Global { .. } => Ok(()),
            RawItem::Prototype { .. } => Ok(()),
        }
    }

    /// What items of a text define. Err: no memory was left.
    fn of_items(
        alloc: Global,
        raw: &'a RawProgram,
        items: &'a [RawItem],
    ) -> Result<Definitions<'a>, AllocError>
        ensures whole { IfOk result (Defines items.now) }
        ensures text { IfOk result (λ d. d.raw.now ≡ raw.now) }
    {
        let mut found = Definitions::new(alloc, raw);
        for item in items {
            found.add(alloc, item)?;
        }
        Ok(found)
    }

    /// What a text defines. Err: no memory was left.
    pub fn of(alloc: Global, raw: &'a RawProgram) -> Result<Definitions<'a>, AllocError>
        ensures whole { IfOk result IsOfText }
        ensures text { IfOk result (λ d. d.raw.now ≡ raw.now) }
    {
        Definitions::of_items(alloc, raw, raw.items.as_slice())
    }

    /// The number of the struct type with a tag.
    pub fn struct_id(&self, tag: &[u8]) -> Option<StructId>
        requires { IsOfText self.now }
        ensures { result ≡ types.struct_id self.now.raw.now tag.now }
    {
        self.tags.get(tag)
    }

    /// The number of the function with a name.
    pub fn function_id(&self, name: &[u8]) -> Option<FunctionId>
        requires { IsOfText self.now }
        ensures { result ≡ types.function_id self.now.raw.now name.now }
    {
        self.functions.get(name)
    }

    /// The head of the definition of the function with a name.
    pub fn definition_of(&self, name: &[u8]) -> Option<&RawHead>
        requires { IsOfText self.now }
        ensures { option_copied result ≡ types.definition_of self.now.raw.now name.now }
    {
        match self.functions.get(name) {
            None => None,
            Some(id) => head_at(self.heads.as_slice(), id as usize),
        }
    }

    /// The head of the function with a number.
    pub fn head(&self, id: FunctionId) -> Option<&RawHead>
        requires { IsOfText self.now }
        ensures { option_copied result ≡ slice_get (types.defined_functions self.now.raw.now) id }
    {
        head_at(self.heads.as_slice(), id as usize)
    }

    /// The place of a member in its struct type.
    fn place_of_member(&self, owner: StructId, name: &[u8]) -> Option<u32>
        requires { IsOfText self.now }
        ensures { result ≡ trees.index_of_member self.now.raw.now name.now owner }
    {
        match self.members.get(owner as usize) {
            None => None,
            Some(places) => places.get(name),
        }
    }

    /// The number of a member of a struct type.
    pub fn member_id(&self, owner: StructId, name: &[u8]) -> Option<MemberId>
        requires { IsOfText self.now }
        ensures { result ≡ trees.member_id self.now.raw.now name.now owner }
    {
        let index = self.place_of_member(owner, name)?;
        Some(MemberId { owner, index })
    }

    /// The number of the member that an object of a type has under a name.
    pub fn member_of(&self, t: &ExprType, name: &[u8]) -> Option<MemberId>
        requires { IsOfText self.now }
        ensures { result ≡ option_and_then (trees.member_id self.now.raw.now name.now) (exprs.struct_of t.now) }
    {
        self.member_id(struct_of(t)?, name)
    }
}
