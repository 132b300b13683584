//! Definitions of functions (ISO C99 6.9.1): their parameters and their bodies.
ghost use Rattle.std.specs.Prelude.{◌≡◌, IfOk, OnOk};
ghost use Rattle.c_tree.specs.declared.raw.program.RawItem.TheVariants as item_of;
ghost use Rattle.c_types_base.specs.Tables.{AreRight};
ghost use Rattle.c_types_base.specs.Stretches.{of_parameter, of_parameters, of_function, of_item};
ghost use Rattle.c_types_program.specs.Items.{FitsStretch, PassesStretch, HasBody, HasFunction};

use crate::variables::Declaration;
use crate::walk::Walk;
use c_tree::{Function, Items, RawHead, RawParam, RawStatement, Statement};
use c_types_trees::shapes::{parameter_ids, result_shape};
use std::alloc::{AllocError, Global};

impl<'a> Walk<'a> {
    /// A parameter of a definition, which is a variable where it has a name. Err: no memory was left.
    fn parameter(&mut self, alloc: Global, parameter: &'a RawParam) -> Result<(), AllocError>
        requires right { AreRight self.now.tables }
        requires fits { FitsStretch (of_parameter parameter.now) self.now }
        ensures { OnOk result (PassesStretch (of_parameter parameter.now) self.old self.new) }
    {
        match &parameter.name {
            None => Ok(()),
            Some(name) => {
                let local = Declaration {
                    line: parameter.line,
                    name,
                    shape: &parameter.shape,
                    items: 0,
                    is_static: false,
                    is_parameter: true,
                };
                self.declare(alloc, local)?;
                Ok(())
            }
        }
    }

    /// The parameters of a definition. Err: no memory was left.
    fn parameters(&mut self, alloc: Global, list: &'a [RawParam]) -> Result<(), AllocError>
        requires right { AreRight self.now.tables }
        requires fits { FitsStretch (of_parameters list.now) self.now }
        ensures { OnOk result (PassesStretch (of_parameters list.now) self.old self.new) }
    {
        for parameter in list {
            self.parameter(alloc, parameter)?;
        }
        Ok(())
    }

    /// The parameters and the body of a function, which are one block (6.2.1, paragraph 4). Err: no memory
    /// was left.
    fn function(
        &mut self,
        alloc: Global,
        head: &'a RawHead,
        body: &'a [RawStatement],
    ) -> Result<Items<Statement>, AllocError>
        requires right { AreRight self.now.tables }
        requires fits { FitsStretch (of_function head.now body.now) self.now }
        ensures tree { IfOk result (HasBody self.old head.now body.now) }
        ensures passes { OnOk result (PassesStretch (of_function head.now body.now) self.old self.new) }
    {
        let outside = self.tables.before();
        self.tables.enter()?;
        self.parameters(alloc, head.params.as_slice())?;
        let made = self.statements(alloc, body)?;
        self.tables.close(outside);
        Ok(made)
    }

    /// The definition of a function. Err: no memory was left.
    pub fn definition(
        &mut self,
        alloc: Global,
        line: u32,
        head: &'a RawHead,
        body: &'a [RawStatement],
    ) -> Result<Function, AllocError>
        requires right { AreRight self.now.tables }
        requires outside { self.now.tables.outer ≡ 0 }
        requires fits { FitsStretch (of_item (item_of.Define line head.now body.now)) self.now }
        ensures tree { IfOk result (HasFunction self.old line head.now body.now) }
        ensures passes { OnOk result (PassesStretch (of_item (item_of.Define line head.now body.now)) self.old self.new) }
    {
        let name = head.name.copy(alloc)?;
        let result = result_shape(alloc, &self.tables.defined, head)?;
        let params = parameter_ids(alloc, head.params.as_slice(), self.tables.variables)?;
        self.tables.declare_function(head.name.bytes())?;
        let body = self.function(alloc, head, body)?;
        Ok(Function {
            name,
            result,
            params,
            body,
            is_static: head.is_static,
            line,
        })
    }
}
