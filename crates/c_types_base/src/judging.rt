//! The judgement of an expression: its type, or a rule that is broken in it.
ghost use Rattle.std.specs.Prelude.{◌≡◌, Some};
ghost use Rattle.c_tree.specs.declared.raw.expr.RawExpr.TheOpen.{RawExpr-F};
ghost use Rattle.c_language.specs.ExprRules as rules;
ghost use Rattle.c_language.specs.ExprTypes as types;
ghost use Rattle.c_types_base.specs.Judging.{Judges, judge_seen, judged, judge_selected};
ghost use Rattle.c_types_base.specs.Tables.{scope_of, AreRight};

use crate::expr_type::{copy, integer, is_array, pointer_to, struct_of, value_type};
use crate::fault::Fault;
use crate::literal::literal;
use crate::names::Meaning;
use crate::operators::{
    binary_result, cast_result, choose_result, indexed, logical_result, pointed, unary_result,
};
use crate::tables::Tables;
use c_arith::{BinaryOp, IntType, UnaryOp};
use c_language::{Base, ExprType, Layer, Operand};
use c_tree::RawExpr;
use sqlite_items::Items;
use std::alloc::Global;

/// An operand that is no place and no null pointer constant.
pub fn a_value(shape: ExprType) -> Operand
    ensures { result ≡ types.a_value shape }
{
    Operand {
        shape,
        is_place: false,
        is_null: false,
    }
}

fn a_place(shape: ExprType) -> Operand
    ensures { result ≡ types.a_place shape }
{
    Operand {
        shape,
        is_place: true,
        is_null: false,
    }
}

fn constant(alloc: Global, tables: &Tables<'_>, text: &[u8]) -> Result<Operand, Fault>
    ensures { Judges (judge_seen tables.now.raw.now (scope_of tables.now) (RawExpr-F.Constant text.now)) result }
{
    let (t, _value) = literal(text);
    Ok(Operand {
        shape: integer(alloc, t),
        is_place: false,
        is_null: text == b"0".as_slice(),
    })
}

fn null(alloc: Global, tables: &Tables<'_>) -> Result<Operand, Fault>
    requires { AreRight tables.now }
    ensures { Judges (judge_seen tables.now.raw.now (scope_of tables.now) RawExpr-F.Null) result }
{
    if !(tables.has_stdio || tables.has_stdlib) {
        return Err(Fault::Rule(24));
    }
    let mut layers = Items::new(alloc);
    layers.push(Layer::Pointer)?;
    Ok(Operand {
        shape: ExprType {
            layers,
            base: Base::Void,
        },
        is_place: false,
        is_null: true,
    })
}

fn end_of_file(alloc: Global, tables: &Tables<'_>) -> Result<Operand, Fault>
    requires { AreRight tables.now }
    ensures { Judges (judge_seen tables.now.raw.now (scope_of tables.now) RawExpr-F.Eof) result }
{
    if tables.has_stdio {
        Ok(a_value(integer(alloc, IntType::Int)))
    } else {
        Err(Fault::Rule(24))
    }
}

fn variable(alloc: Global, tables: &Tables<'_>, name: &[u8]) -> Result<Operand, Fault>
    ensures { Judges (judge_seen tables.now.raw.now (scope_of tables.now) (RawExpr-F.Variable name.now)) result }
{
    match tables.names.get(name) {
        None => Err(Fault::Rule(1)),
        Some(Meaning::Function) => Err(Fault::Rule(12)),
        Some(Meaning::Variable(_, t)) => Ok(a_place(copy(alloc, t)?)),
    }
}

fn unary(alloc: Global, tables: &Tables<'_>, op: UnaryOp, a: Operand) -> Result<Operand, Fault>
    ensures { Judges (judge_seen tables.now.raw.now (scope_of tables.now) (RawExpr-F.Unary op (Some a))) result }
{
    match unary_result(alloc, op, &value_type(a.shape)) {
        Some(t) => Ok(a_value(t)),
        None => Err(Fault::Rule(12)),
    }
}

fn deref(tables: &Tables<'_>, a: Operand) -> Result<Operand, Fault>
    ensures { Judges (judge_seen tables.now.raw.now (scope_of tables.now) (RawExpr-F.Deref (Some a))) result }
{
    match pointed(a) {
        Some(t) => Ok(a_place(t)),
        None => Err(Fault::Rule(12)),
    }
}

/// `&a`
fn address(alloc: Global, tables: &Tables<'_>, a: Operand) -> Result<Operand, Fault>
    ensures { Judges (judge_seen tables.now.raw.now (scope_of tables.now) (RawExpr-F.AddressOf (Some a))) result }
{
    if !a.is_place || is_array(&a.shape) {
        return Err(Fault::Rule(15));
    }
    Ok(a_value(pointer_to(alloc, a.shape)?))
}

fn complete_base(tables: &Tables<'_>, base: Base) -> bool
    ensures { result ≡ rules.complete_base (scope_of tables.now) base }
{
    match base {
        Base::Struct(s) => (s as usize) < tables.structs.len(),
        Base::Integer(_) | Base::Void => true,
    }
}

/// Whether a type of these layers and this base is complete.
pub fn complete_in(tables: &Tables<'_>, layers: &[Layer], base: Base) -> bool
    ensures { result ≡ rules.complete_in (scope_of tables.now) layers.now base }
{
    let Some((first, rest)) = layers.split_first() else {
        return complete_base(tables, base);
    };
    match first {
        Layer::Pointer => true,
        Layer::Array(_) => complete_in(tables, rest, base),
    }
}

/// Whether an operand is a pointer to objects whose size isn't known.
pub fn points_to_incomplete(tables: &Tables<'_>, a: &Operand) -> bool
    ensures { result ≡ rules.points_to_incomplete (scope_of tables.now) a.now }
{
    match a.shape.layers.as_slice().split_first() {
        None => false,
        Some((_, rest)) => !complete_in(tables, rest, a.shape.base),
    }
}

/// Whether one of two operands is a pointer that the operator moves, to objects of unknown size.
pub fn moves_incomplete(tables: &Tables<'_>, op: BinaryOp, a: &Operand, b: &Operand) -> bool
    ensures { result ≡ rules.moves_incomplete (scope_of tables.now) op (Some a.now) (Some b.now) }
{
    match op {
        BinaryOp::Add | BinaryOp::Sub => {
            points_to_incomplete(tables, a) || points_to_incomplete(tables, b)
        }
        _ => false,
    }
}

fn binary(
    alloc: Global,
    tables: &Tables<'_>,
    op: BinaryOp,
    a: Operand,
    b: Operand,
) -> Result<Operand, Fault>
    ensures { Judges (judge_seen tables.now.raw.now (scope_of tables.now) (RawExpr-F.Binary op (Some a) (Some b))) result }
{
    let is_incomplete = moves_incomplete(tables, op, &a, &b);
    let Some(t) = binary_result(alloc, op, a, b) else {
        return Err(Fault::Rule(12));
    };
    if is_incomplete {
        return Err(Fault::Rule(7));
    }
    Ok(a_value(t))
}

fn conjunction(alloc: Global, tables: &Tables<'_>, a: Operand, b: Operand) -> Result<Operand, Fault>
    ensures { Judges (judge_seen tables.now.raw.now (scope_of tables.now) (RawExpr-F.AndAlso (Some a) (Some b))) result }
{
    match logical_result(alloc, a, b) {
        Some(t) => Ok(a_value(t)),
        None => Err(Fault::Rule(12)),
    }
}

fn disjunction(alloc: Global, tables: &Tables<'_>, a: Operand, b: Operand) -> Result<Operand, Fault>
    ensures { Judges (judge_seen tables.now.raw.now (scope_of tables.now) (RawExpr-F.OrElse (Some a) (Some b))) result }
{
    match logical_result(alloc, a, b) {
        Some(t) => Ok(a_value(t)),
        None => Err(Fault::Rule(12)),
    }
}

fn choice(
    alloc: Global,
    tables: &Tables<'_>,
    c: Operand,
    a: Operand,
    b: Operand,
) -> Result<Operand, Fault>
    ensures { Judges (judge_seen tables.now.raw.now (scope_of tables.now) (RawExpr-F.Choose (Some c) (Some a) (Some b))) result }
{
    match choose_result(alloc, c, a, b) {
        Some(t) => Ok(a_value(t)),
        None => Err(Fault::Rule(12)),
    }
}

fn cast(alloc: Global, tables: &Tables<'_>, t: IntType, a: Operand) -> Result<Operand, Fault>
    ensures { Judges (judge_seen tables.now.raw.now (scope_of tables.now) (RawExpr-F.Cast t (Some a))) result }
{
    match cast_result(alloc, t, &a) {
        Some(t) => Ok(a_value(t)),
        None => Err(Fault::Rule(12)),
    }
}

fn index(tables: &Tables<'_>, a: Operand, i: Operand) -> Result<Operand, Fault>
    ensures { Judges (judge_seen tables.now.raw.now (scope_of tables.now) (RawExpr-F.Index (Some a) (Some i))) result }
{
    let is_incomplete = points_to_incomplete(tables, &a);
    let Some(t) = indexed(a, &i) else {
        return Err(Fault::Rule(12));
    };
    if is_incomplete {
        return Err(Fault::Rule(7));
    }
    Ok(a_place(t))
}

/// A member of a struct type, which is a place.
fn select(alloc: Global, tables: &Tables<'_>, t: &ExprType, name: &[u8]) -> Result<Operand, Fault>
    requires { AreRight tables.now }
    ensures { Judges (judge_selected tables.now.raw.now (scope_of tables.now) name.now t.now) result }
{
    let Some(s) = struct_of(t) else {
        return Err(Fault::Rule(12));
    };
    let Some(members) = tables.structs.get(s as usize) else {
        return Err(Fault::Rule(7));
    };
    match members.get(name) {
        Some(t) => Ok(a_place(copy(alloc, t)?)),
        None => Err(Fault::Rule(8)),
    }
}

/// `a.name`
#[tactic(auto, using(crate::proofs::MemberLaws::member_judged))]
fn member(alloc: Global, tables: &Tables<'_>, a: &Operand, name: &[u8]) -> Result<Operand, Fault>
    requires { AreRight tables.now }
    ensures { Judges (judge_seen tables.now.raw.now (scope_of tables.now) (RawExpr-F.Member (Some a.now) name.now)) result }
{
    select(alloc, tables, &a.shape, name)
}

/// `a->name`
#[tactic(auto, using(crate::proofs::MemberLaws::arrow_judged))]
fn arrow(alloc: Global, tables: &Tables<'_>, a: Operand, name: &[u8]) -> Result<Operand, Fault>
    requires { AreRight tables.now }
    ensures { Judges (judge_seen tables.now.raw.now (scope_of tables.now) (RawExpr-F.Arrow (Some a) name.now)) result }
{
    match pointed(a) {
        Some(t) => select(alloc, tables, &t, name),
        None => Err(Fault::Rule(12)),
    }
}

/// What an expression is as an operand, where no rule is broken in it. Err: a rule that is broken in
/// it, or no memory was left.
#[tactic(auto, using(crate::proofs::Rulesets::judgements))]
pub fn judge(alloc: Global, tables: &Tables<'_>, expr: &RawExpr) -> Result<Operand, Fault>
    requires { AreRight tables.now }
    ensures { Judges (judged tables.now.raw.now (scope_of tables.now) expr.now) result }
{
    match expr {
        RawExpr::Constant(text) => constant(alloc, tables, text.bytes()),
        RawExpr::Null => null(alloc, tables),
        RawExpr::Eof => end_of_file(alloc, tables),
        RawExpr::Variable(name) => variable(alloc, tables, name.bytes()),
        RawExpr::Unary(op, a) => {
            let operand = judge(alloc, tables, a.get())?;
            unary(alloc, tables, *op, operand)
        }
        RawExpr::Deref(a) => {
            let operand = judge(alloc, tables, a.get())?;
            deref(tables, operand)
        }
        RawExpr::AddressOf(a) => {
            let operand = judge(alloc, tables, a.get())?;
            address(alloc, tables, operand)
        }
        RawExpr::Binary(op, a, b) => {
            let left = judge(alloc, tables, a.get())?;
            let right = judge(alloc, tables, b.get())?;
            binary(alloc, tables, *op, left, right)
        }
        RawExpr::AndAlso(a, b) => {
            let left = judge(alloc, tables, a.get())?;
            let right = judge(alloc, tables, b.get())?;
            conjunction(alloc, tables, left, right)
        }
        RawExpr::OrElse(a, b) => {
            let left = judge(alloc, tables, a.get())?;
            let right = judge(alloc, tables, b.get())?;
            disjunction(alloc, tables, left, right)
        }
        RawExpr::Choose(c, a, b) => {
            let test = judge(alloc, tables, c.get())?;
            let left = judge(alloc, tables, a.get())?;
            let right = judge(alloc, tables, b.get())?;
            choice(alloc, tables, test, left, right)
        }
        RawExpr::Cast(t, a) => {
            let operand = judge(alloc, tables, a.get())?;
            cast(alloc, tables, *t, operand)
        }
        RawExpr::Index(a, i) => {
            let array = judge(alloc, tables, a.get())?;
            let at = judge(alloc, tables, i.get())?;
            index(tables, array, at)
        }
        RawExpr::Member(a, name) => {
            let operand = judge(alloc, tables, a.get())?;
            member(alloc, tables, &operand, name.bytes())
        }
        RawExpr::Arrow(a, name) => {
            let operand = judge(alloc, tables, a.get())?;
            arrow(alloc, tables, operand, name.bytes())
        }
        RawExpr::Paren(a) => judge(alloc, tables, a.get()),
    }
}
