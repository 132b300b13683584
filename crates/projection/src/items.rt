//! What stays of items, variables and functions.
ghost use Rattle.std.specs.Prelude.{◌≡◌, None, option_map, if◌then◌else◌, IfOk};
ghost use Rattle.std.specs.Option.{option_to_list};
ghost use Rattle.bit_rows.specs.Sets.{has};
ghost use Rattle.projection.specs.Kept.{chosen};
ghost use Rattle.kept_numbers.specs.Pairs.{marked};
ghost use Rattle.projection.specs.Projection as spec;
ghost use Rattle.projection.specs.Selected.{kept_by, numbers, item_left, items_left, vars_left, params_left, function_left, functions_left, program_left};

use crate::renaming::renamed_init;
use crate::statements::{Selection, type_copy};
use c_tree::{CType, Function, FunctionId, Item, Items, Program, StructDef, Text, Var, VarId};
use kept_numbers::is_at;
use std::alloc::{AllocError, Global};

impl Selection<'_> {
    /// The program that is kept. Err: no memory was left.
    pub(crate) fn program(&self, alloc: Global, p: &Program) -> Result<Program, AllocError>
        ensures { IfOk result (λ q. q ≡ program_left self.now p.now) }
    {
        Ok(Program {
            items: self.items(alloc, p.items.as_slice())?,
            vars: self.vars(alloc, p.vars.as_slice())?,
            structs: struct_copies(alloc, p.structs.as_slice())?,
            functions: self.functions(alloc, p.functions.as_slice())?,
            statements: self.statements.rank(p.statements),
        })
    }

    fn items(&self, alloc: Global, list: &[Item]) -> Result<Items<Item>, AllocError>
        ensures { IfOk result (λ all. all ≡ items_left self.now list.now) }
    {
        let mut all = Items::new(alloc);
        for item in list {
            if let Some(left) = self.item(alloc, item)? {
                all.push(left)?;
            }
        }
        Ok(all)
    }

    // What stays of an item: a global where kept text refers to it, and a function where it stays.
    fn item(&self, alloc: Global, item: &Item) -> Result<Option<Item>, AllocError>
        ensures { IfOk result (λ left. option_to_list left ≡ item_left self.now item.now) }
    {
        match item {
            Item::Global(var, init) => match self.variables.number(*var) {
                None => Ok(None),
                Some(var) => Ok(Some(Item::Global(
                    var,
                    renamed_init(alloc, init, &self.variables)?,
                ))),
            },
            Item::Prototype {
                function,
                names,
                is_static,
            } => match self.functions.number(*function) {
                None => Ok(None),
                Some(number) => Ok(Some(Item::Prototype {
                    function: number,
                    names: self.names(alloc, *function, names.as_slice())?,
                    is_static: *is_static,
                })),
            },
            Item::Define(function) => match self.functions.number(*function) {
                None => Ok(None),
                Some(number) => Ok(Some(Item::Define(number))),
            },
            Item::Include { .. } | Item::Tag(_) | Item::Struct(_) => Ok(Some(item.copy(alloc)?)),
        }
    }

    // Of the names that a prototype gives parameters, those of parameters that stay.
    fn names(
        &self,
        alloc: Global,
        function: FunctionId,
        names: &[Option<Text>],
    ) -> Result<Items<Option<Text>>, AllocError>
        ensures { IfOk result (λ all. all ≡ chosen (marked self.now.parts.now.parameters function) 0 names.now) }
    {
        let kept = self.parts.parameters.row(function as usize);
        let mut all = Items::new(alloc);
        for (place, name) in names.iter().enumerate() {
            if is_at(kept, place) {
                all.push(name_copy(alloc, name)?)?;
            }
        }
        Ok(all)
    }

    fn vars(&self, alloc: Global, list: &[Var]) -> Result<Items<Var>, AllocError>
        ensures { IfOk result (λ all. all ≡ vars_left self.now 0 list.now) }
    {
        let mut all = Items::new(alloc);
        for (x, var) in list.iter().enumerate() {
            if self.variables.keeps(x) {
                all.push(self.var(alloc, var)?)?;
            }
        }
        Ok(all)
    }

    // A variable that stays, in a function with its new number.
    fn var(&self, alloc: Global, v: &Var) -> Result<Var, AllocError>
        ensures { IfOk result (λ w. w ≡ spec.projected_var (kept_by self.now) (numbers self.now) v.now) }
    {
        Ok(Var {
            name: v.name.copy(alloc)?,
            shape: v.shape.copy(alloc)?,
            line: v.line,
            is_static: v.is_static,
            owner: self.owner(v.owner),
            is_parameter: v.is_parameter,
        })
    }

    // The new number of the function of a variable, where it has one.
    fn owner(&self, function: Option<FunctionId>) -> Option<FunctionId>
        ensures { result ≡ option_map (numbers self.now) function }
    {
        match function {
            None => None,
            Some(function) => Some(self.functions.rank(function)),
        }
    }

    fn functions(&self, alloc: Global, list: &[Function]) -> Result<Items<Function>, AllocError>
        ensures { IfOk result (λ all. all ≡ functions_left self.now 0 list.now) }
    {
        let mut all = Items::new(alloc);
        for (number, function) in list.iter().enumerate() {
            if self.functions.keeps(number) {
                all.push(self.function(alloc, number, function)?)?;
            }
        }
        Ok(all)
    }

    fn function(&self, alloc: Global, number: usize, f: &Function) -> Result<Function, AllocError>
        ensures { IfOk result (λ g. g ≡ function_left self.now number f.now) }
    {
        Ok(Function {
            name: f.name.copy(alloc)?,
            result: self.result_type(alloc, number, &f.result)?,
            params: self.params(alloc, number, f.params.as_slice())?,
            body: self.body(alloc, f.body.as_slice())?,
            is_static: f.is_static,
            line: f.line,
        })
    }

    // The parameters of a function that stay.
    fn params(
        &self,
        alloc: Global,
        function: usize,
        list: &[VarId],
    ) -> Result<Items<VarId>, AllocError>
        ensures { IfOk result (λ all. all ≡ params_left self.now function list.now) }
    {
        let kept = self.parts.parameters.row(function);
        let mut all = Items::new(alloc);
        for (place, x) in list.iter().enumerate() {
            if is_at(kept, place) {
                all.push(self.variables.rank(*x))?;
            }
        }
        Ok(all)
    }

    // The type of a function's result, where it still gives one.
    fn result_type(
        &self,
        alloc: Global,
        function: usize,
        shape: &Option<CType>,
    ) -> Result<Option<CType>, AllocError>
        ensures { IfOk result (λ t. t ≡ (if has self.now.gives.now function then shape.now else None)) }
    {
        if is_at(self.gives, function) {
            type_copy(alloc, shape)
        } else {
            Ok(None)
        }
    }
}

// Struct types stay as they are.
fn struct_copies(alloc: Global, list: &[StructDef]) -> Result<Items<StructDef>, AllocError>
    ensures { IfOk result (λ all. all ≡ list.now) }
{
    let mut all = Items::new(alloc);
    for structure in list {
        all.push(structure.copy(alloc)?)?;
    }
    Ok(all)
}

// An equal name, where there is one.
fn name_copy(alloc: Global, name: &Option<Text>) -> Result<Option<Text>, AllocError>
    ensures { IfOk result (λ t. t ≡ name.now) }
{
    match name {
        None => Ok(None),
        Some(text) => Ok(Some(text.copy(alloc)?)),
    }
}
