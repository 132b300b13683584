//! The variables of a program, as they are made along its text.
ghost use Rattle.std.specs.Prelude.{◌≡◌, None, [], ◌∷◌, OnOk};
ghost use Rattle.c_language.specs.ProgramOf as trees;
ghost use Rattle.c_types_base.specs.Tables.{AreRight};
ghost use Rattle.c_types_program.specs.Variables.{AreMade, Grow};

use c_tree::{Items, RawType, Text, Var};
use c_types_base::tables::Tables;
use c_types_trees::make_fault::MakeFault;
use c_types_trees::shapes::ctype_with;
use std::alloc::{AllocError, Global};

/// The variables that are declared so far, in text order.
#[derive(Drop)]
pub struct Variables {
    /// The variables, by their numbers.
    pub made: Items<Var>,
    /// Whether one was left out, since it has an array of 2^32 elements or more.
    pub is_long: bool,
}

/// The declaration of a variable.
#[derive(Clone, Copy)]
pub struct Declaration<'a> {
    /// The line of the declaration, counted from 1.
    pub line: u32,
    /// The name that is declared.
    pub name: &'a Text,
    /// Its type as the text has it.
    pub shape: &'a RawType,
    /// How many items its list of initialisers has (ISO C99 6.7.8, paragraph 22).
    pub items: usize,
    /// Whether it is declared `static`.
    pub is_static: bool,
    /// Whether it declares a parameter.
    pub is_parameter: bool,
}

impl Variables {
    /// No variables.
    pub fn new(alloc: Global) -> Variables
        ensures { AreMade result [] }
    {
        Variables {
            made: Items::new(alloc),
            is_long: false,
        }
    }

    /// Makes the variable of a declaration. Err: no memory was left.
    pub fn add(
        &mut self,
        alloc: Global,
        tables: &Tables<'_>,
        declaration: Declaration<'_>,
    ) -> Result<(), AllocError>
        requires right { AreRight tables.now }
        requires shaped { trees.ctype_with tables.now.raw.now declaration.items declaration.shape.now ≡ None → ⊥ }
        ensures { OnOk result (Grow self.old self.new (trees.variable_with tables.now.raw.now declaration.entry.line tables.now.owner declaration.entry.is_static declaration.entry.is_parameter declaration.entry.name.now declaration.entry.shape.now declaration.entry.items ∷ [])) }
    {
        let name = declaration.name.copy(alloc)?;
        match ctype_with(alloc, &tables.defined, declaration.items, declaration.shape) {
            Ok(Some(shape)) => {
                self.made.push(Var {
                    name,
                    shape,
                    line: declaration.line,
                    is_static: declaration.is_static,
                    owner: tables.owner,
                    is_parameter: declaration.is_parameter,
                })?;
                Ok(())
            }
            Ok(None) => unreachable!(),
            Err(MakeFault::Length) => {
                self.is_long = true;
                Ok(())
            }
            Err(MakeFault::NoMemory) => Err(AllocError),
        }
    }
}
