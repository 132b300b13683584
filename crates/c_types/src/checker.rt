//! The check of a text: its rules, then its program, then the limits.
ghost use Rattle.std.specs.Prelude.{◌≡◌, ℕ, ◌<◌, ◌≤◌, MatchResult};
ghost use Rattle.c_tree.specs.declared.limits.LimitName.{LimitName};
ghost use Rattle.c_tree.specs.declared.program.Program.{Program};
ghost use Rattle.c_language.specs.Limits as limits;
ghost use Rattle.c_language.specs.Programs.{HasProgram, IsTree};
ghost use Rattle.c_language.specs.Rules.{IsBroken, KeepsRules};
ghost use Rattle.c_language.specs.StatementNesting.{program_nesting};
ghost use Rattle.c_types.specs.Checker.{IsAbove, IsWithinNumbers, Answers, Gives, NamesRule, NamesLimit, TellsFirst, Told, Made};

use crate::limits::{MAX_ARRAY_LENGTH, MAX_OBJECT_CELLS, array_length, object_cells};
use crate::rule_fault::RuleFault;
use c_tree::{LimitName, Program, RawProgram};
use c_types_program::make_program;
use c_types_rules::check_rules;
use std::alloc::Global;

/// The rules of the text, one by one.
fn keep_rules(alloc: Global, raw: &RawProgram) -> Result<(), RuleFault>
    ensures told { Told raw.now result }
    ensures first { TellsFirst raw.now result }
{
    Ok(check_rules(alloc, raw)?)
}

/// The program of the text. Where the tree can't hold a length, it is above its limit.
#[tactic(auto, using(crate::proofs::CheckerLaws::made, crate::proofs::CheckerLaws::too_long))]
fn made(alloc: Global, raw: &RawProgram) -> Result<Program, RuleFault>
    requires tree { IsTree raw.now }
    requires rules { KeepsRules raw.now }
    ensures made { Made raw.now result }
    ensures first { TellsFirst raw.now result }
{
    Ok(make_program(alloc, raw)?)
}

/// Err: an array length is above its number. No memory is asked for.
fn lengths_within(program: &Program) -> Result<(), RuleFault>
    ensures { MatchResult result (λ _. limits.array_length program.now ≤ 65536)
        (λ fault. (fault ≡ RuleFault.Limit LimitName.ArrayLength) × (65536 < limits.array_length program.now)) }
{
    if array_length(program) > MAX_ARRAY_LENGTH {
        return Err(RuleFault::Limit(LimitName::ArrayLength));
    }
    Ok(())
}

/// Err: so many object cells are above their number. No memory is asked for.
fn cells_within(cells: u64) -> Result<(), RuleFault>
    ensures { MatchResult result (λ _. cells ≤ 1048576)
        (λ fault. (fault ≡ RuleFault.Limit LimitName.ObjectCells) × (1048576 < cells)) }
{
    if cells > MAX_OBJECT_CELLS {
        return Err(RuleFault::Limit(LimitName::ObjectCells));
    }
    Ok(())
}

/// The program, where its quantities are within their numbers.
#[tactic(auto, using(crate::proofs::CheckerLaws::lengths_above, crate::proofs::CheckerLaws::cells_above, crate::proofs::CheckerLaws::within))]
fn within(alloc: Global, raw: &RawProgram, program: Program) -> Result<Program, RuleFault>
    requires { HasProgram raw.now program }
    ensures right { Answers raw.now result }
    ensures first { TellsFirst raw.now result }
{
    lengths_within(&program)?;
    cells_within(object_cells(alloc, &program)?)?;
    Ok(program)
}

fn checked(alloc: Global, raw: &RawProgram) -> Result<Program, RuleFault>
    requires { IsTree raw.now }
    ensures right { Answers raw.now result }
    ensures first { TellsFirst raw.now result }
{
    keep_rules(alloc, raw)?;
    let program = made(alloc, raw)?;
    within(alloc, raw, program)
}

/// The program of a text's tree: its names as numbers, and with types (ISO C99 6.5 to 6.9).
///
/// It is given exactly where all rules hold and array lengths and object cells are within their numbers.
/// `Rule` names a rule that is broken, at a line where it is: the first one in the order of the text. `Limit` names the array length where one is above
/// 65,536, and else the object cells where a variable or a struct type has more than 1,048,576. `NoMemory`
/// where memory runs out.
#[tactic(auto, using(crate::proofs::CheckerLaws::accepted, crate::proofs::CheckerLaws::broken, crate::proofs::CheckerLaws::above))]
pub fn check(alloc: Global, raw: RawProgram) -> Result<Program, RuleFault>
    requires tree { IsTree raw }
    requires nesting { program_nesting raw ≤ 100 }
    ensures right { Answers raw result }
    ensures accepted { (p : Program) → IsWithinNumbers raw p → Gives p result }
    ensures broken { (number line : ℕ) → IsBroken number line raw → NamesRule result }
    ensures above { (name : LimitName) → IsAbove raw name → NamesLimit name result }
    // Of the rules that are broken, the one is named that the first phrase with a broken rule breaks.
    ensures first { TellsFirst raw result }
{
    checked(alloc, &raw)
}
