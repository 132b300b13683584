//! The objects of a program whose parts are its locations.
ghost use Rattle.std.specs.Prelude.{◌≡◌, ◌≤◌, ◌^◌, ◌++◌, IfOk, OnOk, length};
ghost use Rattle.dep_model.specs.LocationObjects as spec;

use crate::location::Root;
use crate::locations::sites::add_sites;
use c_language::ExprType;
use c_tree::{Function, Program, Var};
use std::alloc::{AllocError, Global};
use tree_types::declared_type;

/// An object that is declared, allocated or returned.
#[derive(Debug, Drop)]
pub(crate) struct Object {
    /// Where its locations begin.
    pub(crate) root: Root,
    /// Its type; of what a statement allocates, that of an element.
    pub(crate) shape: ExprType,
}

/// The variables, what is allocated, and the results, in the order of their locations. Err: no memory was left.
pub(crate) fn objects_of(alloc: Global, p: &Program) -> Result<Vec<Object>, AllocError>
    requires variables { length p.now.vars ≤ 2 ^ 32 }
    requires functions { length p.now.functions ≤ 2 ^ 32 }
    ensures { IfOk result (λ found. found.items ≡ spec.objects p.now) }
{
    let mut objects = Vec::new(alloc);
    add_variables(alloc, p.vars.as_slice(), &mut objects)?;
    add_sites(alloc, p, &mut objects)?;
    add_results(alloc, p.functions.as_slice(), &mut objects)?;
    Ok(objects)
}

fn add_variables(alloc: Global, vars: &[Var], objects: &mut Vec<Object>) -> Result<(), AllocError>
    requires { length vars.now ≤ 2 ^ 32 }
    ensures { OnOk result (objects.new.items ≡ objects.old.items ++ spec.variable_objects 0 vars.now) }
{
    for (x, var) in vars.iter().enumerate() {
        let root = Root::Variable(x as u32);
        let shape = declared_type(alloc, &var.shape)?;
        objects.push(Object { root, shape })?;
    }
    Ok(())
}

fn add_results(
    alloc: Global,
    functions: &[Function],
    objects: &mut Vec<Object>,
) -> Result<(), AllocError>
    requires { length functions.now ≤ 2 ^ 32 }
    ensures { OnOk result (objects.new.items ≡ objects.old.items ++ spec.result_objects 0 functions.now) }
{
    for (f, function) in functions.iter().enumerate() {
        if let Some(result) = &function.result {
            let root = Root::Result(f as u32);
            let shape = declared_type(alloc, result)?;
            objects.push(Object { root, shape })?;
        }
    }
    Ok(())
}
