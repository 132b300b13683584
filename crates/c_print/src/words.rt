//! The words of statements, without those of their bodies.
ghost use Rattle.std.specs.Prelude.{◌≡◌, ◌++◌, OnOk, codes, map, [], ◌∷◌};
ghost use Rattle.std.specs.Option.{option_map};
ghost use Rattle.c_language.specs.Words as words;
ghost use Rattle.c_language.specs.Layout as spec;
ghost use Rattle.c_language.specs.Layout.{laid, statement_words};

use crate::expressions::{behind_commas, enclosed, expression, joined};
use crate::names::name_of_function;
use crate::parts::{amount, assign_sign, bump, init, pointer_cast, returned, target, variable};
use c_tree::{Amount, BinaryOp, Boxed, CType, Expr, FunctionId, Items, Program, Statement, Text};
use std::alloc::AllocError;

/// Appends an assignment (ISO C99 6.5.16).
#[tactic(auto, using(crate::proofs::Rules::texts_of))]
fn assignment(
    out: &mut Text,
    program: &Program,
    left: &Expr,
    op: Option<BinaryOp>,
    right: &Expr,
) -> Result<(), AllocError>
    ensures { OnOk result (out.new ≡ out.old ++ (words.expr_words program.now left.now ++ (codes " " ++ (words.assign_sign op ++ (codes " " ++ words.expr_words program.now right.now))))) }
{
    expression(out, program, left)?;
    out.append(b" ")?;
    assign_sign(out, op)?;
    out.append(b" ")?;
    expression(out, program, right)
}

/// Appends a call of a function of the program (ISO C99 6.5.2.2).
#[tactic(auto, using(crate::proofs::Rules::texts_of))]
fn call(
    out: &mut Text,
    program: &Program,
    function: FunctionId,
    args: &Items<Expr>,
) -> Result<(), AllocError>
    ensures { OnOk result (out.new ≡ out.old ++ spec.call_words (words.name_of_function program.now function) (map (words.expr_words program.now) args.now)) }
{
    out.append(name_of_function(program, function))?;
    out.append(b"(")?;
    joined(out, program, args.as_slice())?;
    out.append(b")")
}

/// Appends a call of `printf` (ISO C99 7.19.6.3).
#[tactic(auto, using(crate::proofs::Rules::lists_of))]
fn print_call(
    out: &mut Text,
    program: &Program,
    format: &Text,
    args: &Items<Expr>,
) -> Result<(), AllocError>
    ensures { OnOk result (out.new ≡ out.old ++ spec.call_words (codes "printf") (format.now ∷ map (words.expr_words program.now) args.now)) }
{
    out.append(b"printf(")?;
    out.append(format.bytes())?;
    behind_commas(out, program, args.as_slice())?;
    out.append(b")")
}

/// Appends a call of `malloc`, with the type that it is cast to (ISO C99 7.20.3.3).
#[tactic(auto, using(crate::proofs::Rules::texts_of))]
fn allocation(
    out: &mut Text,
    program: &Program,
    cast: &Option<CType>,
    asked: &Amount,
) -> Result<(), AllocError>
    ensures { OnOk result (out.new ≡ out.old ++ (spec.cast_words program.now cast.now ++ spec.call_words (codes "malloc") (spec.amount_words program.now asked.now ∷ []))) }
{
    pointer_cast(out, program, cast)?;
    out.append(b"malloc(")?;
    amount(out, program, asked)?;
    out.append(b")")
}

/// Appends what is done before a loop, if there is anything.
#[cycle(words)]
#[tactic(auto, using(crate::proofs::Rules::texts_of))]
fn first_part(
    out: &mut Text,
    program: &Program,
    first: &Option<Boxed<Statement>>,
) -> Result<(), AllocError>
    ensures { OnOk result (out.new ≡ out.old ++ spec.init_part (option_map (laid program.now) first.now)) }
{
    match first {
        None => Ok(()),
        Some(statement) => words(out, program, statement.get()),
    }
}

/// Appends a space and what is done after each turn of a loop, if there is anything.
#[cycle(words)]
#[tactic(auto, using(crate::proofs::Rules::texts_of))]
fn step_part(
    out: &mut Text,
    program: &Program,
    step: &Option<Boxed<Statement>>,
) -> Result<(), AllocError>
    ensures { OnOk result (out.new ≡ out.old ++ spec.step_part (option_map (laid program.now) step.now)) }
{
    match step {
        None => Ok(()),
        Some(statement) => {
            out.append(b" ")?;
            words(out, program, statement.get())
        }
    }
}

/// Appends the words of a statement, without those of its body.
#[cycle(words)]
#[tactic(auto, using(crate::proofs::StatementWords::words_of))]
pub(crate) fn words(
    out: &mut Text,
    program: &Program,
    statement: &Statement,
) -> Result<(), AllocError>
    ensures { OnOk result (out.new ≡ out.old ++ statement_words program.now statement.now) }
{
    match statement {
        Statement::Declare {
            var,
            init: value,
            ..
        } => {
            variable(out, program, *var)?;
            init(out, program, value)
        }
        Statement::Assign {
            left,
            op,
            right,
            ..
        } => { assignment(out, program, left, *op, right) }
        Statement::Bump {
            left,
            up,
            before,
            ..
        } => bump(out, program, left, *up, *before),
        Statement::Invoke {
            target: to,
            function,
            args,
            ..
        } => {
            target(out, program, to)?;
            call(out, program, *function, args)
        }
        Statement::Fetch { target: to, .. } => {
            target(out, program, to)?;
            out.append(b"getchar()")
        }
        Statement::Write { value, .. } => enclosed(out, program, b"putchar(", value, b")"),
        Statement::Print { format, args, .. } => print_call(out, program, format, args),
        Statement::Heap {
            target: to,
            cast,
            amount: asked,
            ..
        } => {
            target(out, program, to)?;
            allocation(out, program, cast, asked)
        }
        Statement::Release { value, .. } => enclosed(out, program, b"free(", value, b")"),
        Statement::If { test, .. } => enclosed(out, program, b"if (", test, b")"),
        Statement::While { test, .. } => enclosed(out, program, b"while (", test, b")"),
        Statement::Do { test, .. } => enclosed(out, program, b"do while (", test, b")"),
        Statement::For {
            init: first,
            test,
            step,
            ..
        } => {
            out.append(b"for (")?;
            first_part(out, program, first)?;
            enclosed(out, program, b"; ", test, b";")?;
            step_part(out, program, step)?;
            out.append(b")")
        }
        Statement::Switch { test, .. } => enclosed(out, program, b"switch (", test, b")"),
        Statement::Block { .. } => Ok(()),
        Statement::Return { value, .. } => returned(out, program, value),
    }
}
