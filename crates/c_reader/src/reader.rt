//! A text is read in three steps: its tokens, their tree, and the program of the tree.
ghost use Rattle.std.specs.Prelude.{◌<◌, ◌≤◌, ◌^◌, All, length};
ghost use Rattle.c_tree.specs.declared.program.Program.{Program};
ghost use Rattle.c_tree.specs.declared.raw.program.RawProgram.{RawProgram};
ghost use Rattle.c_language.specs.Programs.{IsFormed, IsTree};
ghost use Rattle.c_language.specs.StatementNesting.{program_nesting};
ghost use Rattle.c_reader.specs.Reading.{ReadsProgram, ReadsTree};
ghost use Rattle.c_reader.specs.Refusals.{IsRight, Gives, IsTooDeep, IsChecked, Lexes, Parses, Checks, IsAnswer, IsRuleFault};
ghost use Rattle.c_types.specs.declared.rule_fault.RuleFault.{RuleFault};

use crate::refusal::ReadRefusal;
use c_language::Token;
use c_lex::lex;
use c_parse::parse;
use c_tree::{Program, RawProgram};
use c_types::check;
use std::alloc::Global;

/// The tokens of the text.
fn lexed(alloc: Global, text: &[u8]) -> Result<Vec<Token>, ReadRefusal>
    requires { length text.now < 2 ^ 32 }
    ensures { Lexes text.now result }
{
    Ok(lex(alloc, text)?)
}

/// The tree of the tokens.
fn parsed(alloc: Global, tokens: &[Token]) -> Result<RawProgram, ReadRefusal>
    requires { All IsFormed tokens.now }
    ensures { Parses tokens.now result }
{
    Ok(parse(alloc, tokens)?)
}

/// The program of the tree.
fn checked(alloc: Global, raw: RawProgram) -> Result<Program, ReadRefusal>
    requires tree { IsTree raw }
    requires nesting { program_nesting raw ≤ 100 }
    ensures { Checks raw result }
{
    Ok(check(alloc, raw)?)
}

/// What is answered, with the tokens and the tree that it is answered for.
#[tactic(auto, using(crate::proofs::ReadLaws::tokens_formed))]
fn answered(alloc: Global, text: &[u8]) -> Result<Program, ReadRefusal>
    requires { length text.now < 2 ^ 32 }
    ensures { IsAnswer text.now result }
{
    let tokens = lexed(alloc, text)?;
    let raw = parsed(alloc, tokens.as_slice())?;
    checked(alloc, raw)
}

/// The program of a text, where the text is accepted and within the limits.
///
/// It is given exactly where the text has tokens, these are in the grammar, nest no deeper than 100 and have a
/// tree that breaks no rule, no array length is above 65,536, and no object has more than 1,048,576 cells. The
/// refusals come in this order: `Lex`, `Parse`, `Check`; each is shown by the text.
#[tactic(auto, using(crate::proofs::ReadLaws::right, crate::proofs::ReadLaws::accepted))]
pub fn read_program(alloc: Global, text: &[u8]) -> Result<Program, ReadRefusal>
    requires { length text.now < 2 ^ 32 }
    ensures right { IsRight text.now result }
    ensures accepted { (p : Program) → ReadsProgram text.now p → Gives p result }
    ensures deep { (raw : RawProgram) → ReadsTree text.now raw → 100 < program_nesting raw → IsTooDeep result }
    ensures refused { (raw : RawProgram) (fault : RuleFault) → ReadsTree text.now raw → program_nesting raw ≤ 100 → IsRuleFault raw fault → IsChecked result }
{
    answered(alloc, text)
}
