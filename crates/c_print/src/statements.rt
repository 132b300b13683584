//! The lines of statements and their bodies.
ghost use Rattle.std.specs.Prelude.{◌≡◌, suc, ◌++◌, OnOk, codes, map};
ghost use Rattle.c_language.specs.Words.{expr_words};
ghost use Rattle.c_language.specs.Layout as spec;
ghost use Rattle.c_language.specs.Layout.{laid, arm_laid, statement_words, statement_lines, body_lines};

use crate::expressions::enclosed;
use crate::margin::Margin;
use crate::words::words;
use c_tree::{Arm, Expr, Label, Program, Statement, Text};
use std::alloc::AllocError;

/// Appends a line of these words.
#[tactic(auto, using(crate::proofs::Rules::texts_of))]
fn line(out: &mut Text, margin: &Margin, words: &[u8]) -> Result<(), AllocError>
    ensures { OnOk result (out.new ≡ out.old ++ spec.line margin.now words.now) }
{
    margin.indent(out)?;
    out.append(words)?;
    out.append(b"\n")
}

/// Appends a line of the words of a statement and what ends that line.
#[tactic(auto, using(crate::proofs::Rules::texts_of))]
fn headed(
    out: &mut Text,
    program: &Program,
    margin: &Margin,
    statement: &Statement,
    end: &[u8],
) -> Result<(), AllocError>
    ensures { OnOk result (out.new ≡ out.old ++ spec.line margin.now (statement_words program.now statement.now ++ end.now)) }
{
    margin.indent(out)?;
    words(out, program, statement)?;
    out.append(end)?;
    out.append(b"\n")
}

/// Appends the line that closes a `do`.
#[tactic(auto, using(crate::proofs::Rules::texts_of))]
fn do_end(out: &mut Text, program: &Program, margin: &Margin, test: &Expr) -> Result<(), AllocError>
    ensures { OnOk result (out.new ≡ out.old ++ spec.line margin.now (codes "} while (" ++ (expr_words program.now test.now ++ codes ");"))) }
{
    margin.indent(out)?;
    enclosed(out, program, b"} while (", test, b");")?;
    out.append(b"\n")
}

/// Appends a label of a switch (ISO C99 6.8.1).
#[tactic(auto, using(crate::proofs::Rules::texts_of))]
fn label_words(out: &mut Text, program: &Program, label: &Label) -> Result<(), AllocError>
    ensures { OnOk result (out.new ≡ out.old ++ spec.label_words program.now label.now) }
{
    match label {
        Label::Case(value, _) => enclosed(out, program, b"case ", value, b":"),
        Label::Default => out.append(b"default:"),
    }
}

/// Appends a line for a label.
#[tactic(auto, using(crate::proofs::Rules::texts_of))]
fn label_line(
    out: &mut Text,
    program: &Program,
    margin: &Margin,
    label: &Label,
) -> Result<(), AllocError>
    ensures { OnOk result (out.new ≡ out.old ++ spec.line margin.now (spec.label_words program.now label.now)) }
{
    margin.indent(out)?;
    label_words(out, program, label)?;
    out.append(b"\n")
}

/// Appends a line for each label.
#[tactic(auto, using(crate::proofs::Rules::loops_of))]
fn labels(
    out: &mut Text,
    program: &Program,
    margin: &Margin,
    all: &[Label],
) -> Result<(), AllocError>
    ensures { OnOk result (out.new ≡ out.old ++ spec.label_lines program.now all.now margin.now) }
{
    for label in all {
        label_line(out, program, margin, label)?;
    }
    Ok(())
}

/// Appends the lines of statements.
#[cycle(statement)]
#[tactic(auto, using(crate::proofs::Rules::loops_of))]
pub(crate) fn statements(
    out: &mut Text,
    program: &Program,
    margin: &mut Margin,
    all: &[Statement],
) -> Result<(), AllocError>
    ensures lines { OnOk result (out.new ≡ out.old ++ body_lines program.now margin.old all.now) }
    ensures level { OnOk result (margin.new ≡ margin.old) }
{
    for child in all {
        statement(out, program, margin, child)?;
    }
    Ok(())
}

/// Appends the lines of statements, one level deeper.
#[cycle(statement)]
#[tactic(auto, using(crate::proofs::Rules::loops_of))]
pub(crate) fn body(
    out: &mut Text,
    program: &Program,
    margin: &mut Margin,
    all: &[Statement],
) -> Result<(), AllocError>
    ensures lines { OnOk result (out.new ≡ out.old ++ body_lines program.now (suc margin.old) all.now) }
    ensures level { OnOk result (margin.new ≡ margin.old) }
{
    margin.deepen()?;
    statements(out, program, margin, all)?;
    margin.shorten();
    Ok(())
}

/// Appends an else and its body, where there is one (ISO C99 6.8.4.1).
#[cycle(statement)]
#[tactic(auto, using(crate::proofs::Rules::loops_of))]
fn else_part(
    out: &mut Text,
    program: &Program,
    margin: &mut Margin,
    all: &[Statement],
) -> Result<(), AllocError>
    ensures lines { OnOk result (out.new ≡ out.old ++ spec.else_lines (map (laid program.now) all.now) margin.old) }
    ensures level { OnOk result (margin.new ≡ margin.old) }
{
    if all.is_empty() {
        return Ok(());
    }
    line(out, margin, b"} else {")?;
    body(out, program, margin, all)
}

/// Appends an arm of a switch: its labels, and its statements one level deeper with a break.
#[cycle(statement)]
#[tactic(auto, using(crate::proofs::Rules::loops_of))]
fn arm(out: &mut Text, program: &Program, margin: &mut Margin, arm: &Arm) -> Result<(), AllocError>
    ensures lines { OnOk result (out.new ≡ out.old ++ arm_laid program.now arm.now margin.old) }
    ensures level { OnOk result (margin.new ≡ margin.old) }
{
    labels(out, program, margin, arm.labels.as_slice())?;
    margin.deepen()?;
    statements(out, program, margin, arm.body.as_slice())?;
    line(out, margin, b"break;")?;
    margin.shorten();
    Ok(())
}

/// Appends the arms of a switch, one level deeper.
#[cycle(statement)]
#[tactic(auto, using(crate::proofs::Rules::loops_of))]
fn arms(
    out: &mut Text,
    program: &Program,
    margin: &mut Margin,
    all: &[Arm],
) -> Result<(), AllocError>
    ensures lines { OnOk result (out.new ≡ out.old ++ spec.arms_lines (map (arm_laid program.now) all.now) (suc margin.old)) }
    ensures level { OnOk result (margin.new ≡ margin.old) }
{
    margin.deepen()?;
    for child in all {
        arm(out, program, margin, child)?;
    }
    margin.shorten();
    Ok(())
}

/// Appends the lines of a statement.
#[cycle(statement)]
#[tactic(auto, using(crate::proofs::Rules::statements_of))]
fn statement(
    out: &mut Text,
    program: &Program,
    margin: &mut Margin,
    statement: &Statement,
) -> Result<(), AllocError>
    ensures lines { OnOk result (out.new ≡ out.old ++ statement_lines program.now margin.old statement.now) }
    ensures level { OnOk result (margin.new ≡ margin.old) }
{
    match statement {
        Statement::If { then, other, .. } => {
            headed(out, program, margin, statement, b" {")?;
            body(out, program, margin, then.as_slice())?;
            else_part(out, program, margin, other.as_slice())?;
            line(out, margin, b"}")
        }
        Statement::While { body: repeated, .. } | Statement::For { body: repeated, .. } => {
            headed(out, program, margin, statement, b" {")?;
            body(out, program, margin, repeated.as_slice())?;
            line(out, margin, b"}")
        }
        Statement::Do {
            test,
            body: repeated,
            ..
        } => {
            line(out, margin, b"do {")?;
            body(out, program, margin, repeated.as_slice())?;
            do_end(out, program, margin, test)
        }
        Statement::Switch { arms: all, .. } => {
            headed(out, program, margin, statement, b" {")?;
            arms(out, program, margin, all.as_slice())?;
            line(out, margin, b"}")
        }
        Statement::Block { body: held, .. } => {
            line(out, margin, b"{")?;
            body(out, program, margin, held.as_slice())?;
            line(out, margin, b"}")
        }
        Statement::Declare { .. }
        | Statement::Assign { .. }
        | Statement::Bump { .. }
        | Statement::Invoke { .. }
        | Statement::Fetch { .. }
        | Statement::Write { .. }
        | Statement::Print { .. }
        | Statement::Heap { .. }
        | Statement::Release { .. }
        | Statement::Return { .. } => headed(out, program, margin, statement, b";"),
    }
}
