//! What stands before the body of a function: its type, name and parameters (ISO C99 6.7.5.3).
ghost use Rattle.std.specs.Prelude.{◌≡◌, ◌++◌, ◌<◌, OnOk, codes, map, Some};
ghost use Rattle.c_language.specs.Layout as spec;
ghost use Rattle.c_print.specs.Lists as lists;

use crate::parts::variable;
use crate::types::{base, declared, stars, type_words};
use c_tree::{CType, Function, Program, Text, VarId};
use std::alloc::AllocError;

/// `static ` where it stood in the text.
pub(crate) fn static_words(is_static: bool) -> &'static [u8]
    ensures { result.now ≡ spec.static_words is_static }
{
    if is_static { b"static " } else { b"" }
}

/// Appends the type of a function's result, up to the function's name.
#[tactic(auto, using(crate::proofs::Rules::texts_of))]
fn result_words(out: &mut Text, program: &Program, shape: &Option<CType>) -> Result<(), AllocError>
    ensures { OnOk result (out.new ≡ out.old ++ spec.result_words program.now shape.now) }
{
    match shape {
        None => out.append(b"void "),
        Some(shape) => {
            base(out, program, shape)?;
            out.append(b" ")?;
            stars(out, shape)
        }
    }
}

/// Appends what stands before the parameters of a function.
#[tactic(auto, using(crate::proofs::Rules::texts_of))]
fn opening(
    out: &mut Text,
    program: &Program,
    is_static: bool,
    function: &Function,
) -> Result<(), AllocError>
    ensures { OnOk result (out.new ≡ out.old ++ (spec.static_words is_static ++ (spec.result_words program.now function.now.result ++ (function.now.name ++ codes "(")))) }
{
    out.append(static_words(is_static))?;
    result_words(out, program, &function.result)?;
    out.append(function.name.bytes())?;
    out.append(b"(")
}

/// Appends variables with their types, each behind a comma.
#[tactic(auto, using(crate::proofs::Rules::lists_of))]
fn variables_behind_commas(
    out: &mut Text,
    program: &Program,
    vars: &[VarId],
) -> Result<(), AllocError>
    ensures { OnOk result (out.new ≡ out.old ++ lists.behind_commas (map (spec.var_words program.now) vars.now)) }
{
    for var in vars {
        out.append(b", ")?;
        variable(out, program, *var)?;
    }
    Ok(())
}

/// Appends the parameters of a definition, or `void`.
#[tactic(auto, using(crate::proofs::Rules::lists_of))]
fn parameters(out: &mut Text, program: &Program, params: &[VarId]) -> Result<(), AllocError>
    ensures { OnOk result (out.new ≡ out.old ++ spec.params_words (map (spec.var_words program.now) params.now)) }
{
    let Some((first, rest)) = params.split_first() else {
        return out.append(b"void");
    };
    variable(out, program, *first)?;
    variables_behind_commas(out, program, rest)
}

/// Appends a parameter of a prototype, with the name that it has there, if any.
#[tactic(auto, using(crate::proofs::Rules::texts_of))]
fn parameter(
    out: &mut Text,
    program: &Program,
    name: &Option<Text>,
    var: VarId,
) -> Result<(), AllocError>
    ensures { OnOk result (out.new ≡ out.old ++ spec.param_words program.now name.now var) }
{
    let Some(found) = program.vars.get(var as usize) else {
        return Ok(());
    };
    match name {
        None => type_words(out, program, &found.shape),
        Some(name) => declared(out, program, &found.shape, name.bytes()),
    }
}

/// Appends parameters of a prototype, each behind a comma.
#[tactic(auto, using(crate::proofs::Rules::lists_of))]
fn named_behind_commas(
    out: &mut Text,
    program: &Program,
    names: &[Option<Text>],
    vars: &[VarId],
) -> Result<(), AllocError>
    ensures { OnOk result (out.new ≡ out.old ++ lists.behind_commas (spec.named_params program.now names.now vars.now)) }
{
    let count = names.len().min(vars.len());
    for at in 0..count {
        out.append(b", ")?;
        parameter(out, program, &names[at], vars[at])?;
    }
    Ok(())
}

/// Appends the parameters of a prototype, or `void`.
#[tactic(auto, using(crate::proofs::Rules::lists_of))]
fn named_parameters(
    out: &mut Text,
    program: &Program,
    names: &[Option<Text>],
    vars: &[VarId],
) -> Result<(), AllocError>
    ensures { OnOk result (out.new ≡ out.old ++ spec.params_words (spec.named_params program.now names.now vars.now)) }
{
    let Some((name, names)) = names.split_first() else {
        return out.append(b"void");
    };
    let Some((var, vars)) = vars.split_first() else {
        return out.append(b"void");
    };
    parameter(out, program, name, *var)?;
    named_behind_commas(out, program, names, vars)
}

/// Appends the words of a definition before its body.
#[tactic(auto, using(crate::proofs::Rules::texts_of))]
pub(crate) fn definition_head(
    out: &mut Text,
    program: &Program,
    function: &Function,
) -> Result<(), AllocError>
    ensures { OnOk result (out.new ≡ out.old ++ spec.head_words program.now function.now.is_static function.now (map (spec.var_words program.now) function.now.params)) }
{
    opening(out, program, function.is_static, function)?;
    parameters(out, program, function.params.as_slice())?;
    out.append(b")")
}

/// Appends the words of a prototype before its semicolon.
#[tactic(auto, using(crate::proofs::Rules::texts_of))]
pub(crate) fn prototype_head(
    out: &mut Text,
    program: &Program,
    is_static: bool,
    function: &Function,
    names: &[Option<Text>],
) -> Result<(), AllocError>
    ensures { OnOk result (out.new ≡ out.old ++ spec.head_words program.now is_static function.now (spec.named_params program.now names.now function.now.params)) }
{
    opening(out, program, is_static, function)?;
    named_parameters(out, program, names, function.params.as_slice())?;
    out.append(b")")
}
