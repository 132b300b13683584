//! The checks of functions (ISO C99 6.7.5.3, 6.9.1): whether a head, a parameter or the end of a definition breaks a rule.
ghost use Rattle.std.specs.Prelude.{◌≡◌, IfOk, List, Some, map};
ghost use Rattle.std.specs.List.{list_any};
ghost use Rattle.c_tree.specs.declared.raw.program.RawHead.{RawHead};
ghost use Rattle.c_tree.specs.declared.raw.program.RawProgram.{RawProgram};
ghost use Rattle.c_tree.specs.declared.raw.program.RawParam.{RawParam};
ghost use Rattle.c_language.specs.DeclaredTypes as types;
ghost use Rattle.c_language.specs.HeadTests as tests;
ghost use Rattle.c_language.specs.NameRules as rules;
ghost use Rattle.c_language.specs.Scopes as scopes;
ghost use Rattle.c_language.specs.Scopes.{Scope};
ghost use Rattle.c_language.specs.Uses as uses;
ghost use Rattle.c_language.specs.Words.{Bytes};
ghost use Rattle.c_types_base.specs.Listing as listing;
ghost use Rattle.c_types_base.specs.Tables.{scope_of, AreRight};
ghost use Rattle.c_types_checks.specs.Checking.{Decides, all_kept, given_or, kept, unless_broken};
ghost use Rattle.c_types_checks.specs.DeclarationChecks as checks;
ghost use Rattle.c_types_checks.specs.HeadChecks as spec;

use crate::checking::unless_broken;
use crate::declaration_checks::{check_tags, is_library_name};
use crate::text::{definition_of, is_defined_before, result_type, written_type};
use c_arith::IntType;
use c_language::ExprType;
use c_tree::{RawHead, RawParam, RawStatement, RawType};
use c_types_base::expr_type::same_type;
use c_types_base::fault::Fault;
use c_types_base::names::Meaning;
use c_types_base::tables::Tables;
use std::alloc::{AllocError, Global};

/// Whether a name is that of the function at which a program begins (5.1.2.2.1).
pub fn is_main(name: &[u8]) -> bool
    ensures { result ≡ rules.is_main name.now }
{
    name == b"main".as_slice()
}

/// The tags of a type, where there is one.
pub fn check_tags_if(tables: &Tables<'_>, shape: &Option<RawType>) -> Result<(), Fault>
    requires { AreRight tables.now }
    ensures { Decides (all_kept (checks.check_tag tables.now.raw.now (scope_of tables.now)) (uses.tags_if shape.now)) result }
{
    match shape {
        None => Ok(()),
        Some(shape) => check_tags(tables, shape),
    }
}

/// Whether a name stands for a variable by a declaration of the innermost block.
fn is_variable_here(tables: &Tables<'_>, name: &[u8]) -> bool
    ensures { result ≡ spec.is_variable (scopes.meaning_here (scope_of tables.now) name.now) }
{
    match tables.names.get_behind(tables.outer, name) {
        Some(Meaning::Variable(_, _)) => true,
        Some(Meaning::Function) => false,
        None => false,
    }
}

/// The name of a function that is declared, and the tag of its result.
fn check_head(tables: &Tables<'_>, head: &RawHead) -> Result<(), Fault>
    requires { AreRight tables.now }
    ensures { Decides (spec.check_head tables.now.raw.now (scope_of tables.now) head.now) result }
{
    check_tags_if(tables, &head.result)?;
    if is_variable_here(tables, head.name.bytes()) {
        return Err(Fault::Rule(2));
    }
    unless_broken(!is_library_name(head.name.bytes()), 4)
}

/// Whether two types are the same, where both are known.
fn agree(s: &Option<ExprType>, t: &Option<ExprType>) -> bool
    ensures { result ≡ rules.agree s.now t.now }
{
    match (s, t) {
        (Some(s), Some(t)) => same_type(s, t),
        (None, _) => true,
        (Some(_), None) => true,
    }
}

/// Whether the parameters of two heads have the same types. Err: no memory was left.
fn same_parameters(
    alloc: Global,
    tables: &Tables<'_>,
    left: &[RawParam],
    right: &[RawParam],
) -> Result<bool, AllocError>
    requires { AreRight tables.now }
    ensures { IfOk result (λ same. same ≡ rules.all_agree (map (λ (p : RawParam). types.written_type tables.now.raw.now p.shape) left.now) (map (λ (p : RawParam). types.written_type tables.now.raw.now p.shape) right.now)) }
{
    if left.len() != right.len() {
        return Ok(false);
    }
    for i in 0..left.len() {
        let s = written_type(alloc, tables, &left[i].shape)?;
        if !agree(&s, &written_type(alloc, tables, &right[i].shape)?) {
            return Ok(false);
        }
    }
    Ok(true)
}

/// Whether the results and the parameters of two heads have the same types (6.7.5.3, paragraph 15).
/// Err: no memory was left.
fn same_signature(
    alloc: Global,
    tables: &Tables<'_>,
    left: &RawHead,
    right: &RawHead,
) -> Result<bool, AllocError>
    requires { AreRight tables.now }
    ensures { IfOk result (λ same. same ≡ rules.same_signature tables.now.raw.now left.now right.now) }
{
    let s = result_type(alloc, tables, left)?;
    if !agree(&s, &result_type(alloc, tables, right)?) {
        return Ok(false);
    }
    same_parameters(
        alloc,
        tables,
        left.params.as_slice(),
        right.params.as_slice(),
    )
}

/// A prototype, by the definition of its function.
fn check_defined(alloc: Global, tables: &Tables<'_>, head: &RawHead) -> Result<(), Fault>
    requires { AreRight tables.now }
    ensures { Decides (given_or 6 (λ (f : RawHead). unless_broken (rules.same_signature tables.now.raw.now head.now f) 6 kept) (types.definition_of tables.now.raw.now head.now.name)) result }
{
    let Some(definition) = definition_of(tables, head.name.bytes()) else {
        return Err(Fault::Rule(6));
    };
    unless_broken(same_signature(alloc, tables, head, definition)?, 6)
}

/// The head of a prototype.
pub fn check_prototype(alloc: Global, tables: &Tables<'_>, head: &RawHead) -> Result<(), Fault>
    requires { AreRight tables.now }
    ensures { Decides (spec.check_prototype tables.now.raw.now (scope_of tables.now) head.now) result }
{
    check_head(tables, head)?;
    if is_main(head.name.bytes()) {
        return Err(Fault::Rule(5));
    }
    check_defined(alloc, tables, head)
}

/// Whether a type is written `int`.
#[tactic(auto, using(crate::proofs::UseLemmas::int_types))]
fn is_int_type(shape: &RawType) -> bool
    ensures { result ≡ tests.is_int_type shape.now }
{
    match shape {
        RawType::Integer(t) => *t == IntType::Int,
        RawType::PointerTo(_) => false,
        RawType::Array(_, _) => false,
        RawType::Struct(_) => false,
    }
}

fn gives_int(result_shape: &Option<RawType>) -> bool
    ensures { result ≡ tests.gives_int result_shape.now }
{
    match result_shape {
        None => false,
        Some(shape) => is_int_type(shape),
    }
}

/// The head of main, which is `int main(void)` (5.1.2.2.1).
fn check_main(tables: &Tables<'_>, head: &RawHead) -> Result<(), Fault>
    ensures { Decides (spec.check_main tables.now.raw.now (scope_of tables.now) head.now) result }
{
    if !gives_int(&head.result) {
        return Err(Fault::Rule(5));
    }
    unless_broken(head.params.len() == 0, 5)
}

/// The head of a definition.
pub fn check_definition(tables: &Tables<'_>, head: &RawHead) -> Result<(), Fault>
    requires { AreRight tables.now }
    ensures { Decides (spec.check_definition tables.now.raw.now (scope_of tables.now) head.now) result }
{
    check_head(tables, head)?;
    if is_defined_before(tables, head.name.bytes()) {
        return Err(Fault::Rule(2));
    }
    if is_main(head.name.bytes()) {
        check_main(tables, head)
    } else {
        Ok(())
    }
}

/// The parameter of a prototype, where it is known whether one before it has its name.
pub fn check_parameter(
    tables: &Tables<'_>,
    is_named: bool,
    parameter: &RawParam,
) -> Result<(), Fault>
    requires { AreRight tables.now }
    ensures { (before : List RawParam) → ((name : Bytes) → parameter.now.name ≡ Some name → is_named ≡ list_any (λ (q : RawParam). listing.has_name name q.name) before) → Decides (spec.check_parameter tables.now.raw.now (scope_of tables.now) before parameter.now) result }
{
    check_tags(tables, &parameter.shape)?;
    let Some(name) = &parameter.name else {
        return Ok(());
    };
    if is_named {
        return Err(Fault::Rule(2));
    }
    unless_broken(!is_library_name(name.bytes()), 4)
}

/// Whether a statement returns a value.
#[tactic(auto, using(crate::proofs::ReturnLemmas::returned_values))]
fn returns_value(statement: &RawStatement) -> bool
    ensures { result ≡ tests.returns_value statement.now }
{
    match statement {
        RawStatement::Return { value, .. } => value.is_some(),
        RawStatement::Declare { .. } => false,
        RawStatement::Assign { .. } => false,
        RawStatement::Bump { .. } => false,
        RawStatement::Call { .. } => false,
        RawStatement::Heap { .. } => false,
        RawStatement::If { .. } => false,
        RawStatement::While { .. } => false,
        RawStatement::Do { .. } => false,
        RawStatement::For { .. } => false,
        RawStatement::Switch { .. } => false,
        RawStatement::Block { .. } => false,
    }
}

/// Whether the last of some statements returns a value.
fn ends_with_value(body: &[RawStatement]) -> bool
    ensures { result ≡ tests.ends_with_value body.now }
{
    match body.last() {
        None => false,
        Some(last) => returns_value(last),
    }
}

/// The end of a definition: a function that gives a result ends with a return of it, and main may (5.1.2.2.3).
pub fn check_end(head: &RawHead, body: &[RawStatement]) -> Result<(), Fault>
    ensures { (raw : RawProgram) (scope : Scope) → Decides (spec.check_end raw scope head.now body.now) result }
{
    let ends = is_main(head.name.bytes()) || head.result.is_none() || ends_with_value(body);
    unless_broken(ends, 18)
}
