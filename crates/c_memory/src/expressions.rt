//! The evaluator of expressions (ISO C99 6.5): what an expression gives, the object that it designates, and the
//! pointer that `&` gives of it.
ghost use Rattle.std.specs.Prelude.{◌≡◌, IfOk};
ghost use Rattle.c_meaning.specs.Values as spec;
ghost use Rattle.c_memory.specs.Scenes.{types_in, state_in};

use crate::objects::start_of;
use crate::scene::{
    Scene, as_type_of, binary_of, converted, item_place, member_behind, member_in, object_of,
    unary_of, value_at, variable_value,
};
use crate::truths::{is_met, is_unmet, number_if, truth_of};
use c_arith::BinaryOp;
use c_meaning::{Place, Value};
use c_tree::Expr;
use c_types_base::expr_type::integer;
use std::alloc::AllocError;

/// The value of an expression; None where that is undefined. Err: no memory was left, or an index has more than 32
/// bits.
#[cycle(evaluation)]
#[tactic(auto, using(crate::proofs::Rulesets::expressions))]
pub fn value(e: &Expr, s: Scene) -> Result<Option<Value>, AllocError>
    ensures { IfOk result (λ o. o ≡ spec.eval (types_in s.entry) e.now (state_in s.entry)) }
{
    match e {
        Expr::Constant(_, _, number) => Ok(Some(Value::Number(*number as i128))),
        Expr::Null => Ok(Some(Value::Null)),
        Expr::Eof => Ok(Some(Value::Number(-1))),
        Expr::Variable(x) => variable_value(s, *x),
        Expr::Unary(op, a) => unary_of(*op, s, a.get(), value(a.get(), s)?),
        Expr::Deref(a) => value_at(s, e, item_place(s, e, value(a.get(), s)?)?),
        Expr::AddressOf(a) => address(a.get(), s),
        Expr::Binary(op, a, b) => {
            let left = value(a.get(), s)?;
            binary_of(*op, s, a.get(), b.get(), left, value(b.get(), s)?)
        }
        Expr::AndAlso(a, b) => {
            let left = value(a.get(), s)?;
            if is_met(&left) {
                Ok(truth_of(&value(b.get(), s)?))
            } else {
                Ok(number_if(0, &left))
            }
        }
        Expr::OrElse(a, b) => {
            let left = value(a.get(), s)?;
            if is_unmet(&left) {
                Ok(truth_of(&value(b.get(), s)?))
            } else {
                Ok(number_if(1, &left))
            }
        }
        Expr::Choose(c, a, b) => {
            let test = value(c.get(), s)?;
            if is_met(&test) {
                as_type_of(s, e, value(a.get(), s)?)
            } else if is_unmet(&test) {
                as_type_of(s, e, value(b.get(), s)?)
            } else {
                Ok(None)
            }
        }
        Expr::Cast(t, a) => Ok(converted(&integer(s.alloc, *t), value(a.get(), s)?)),
        Expr::Index(a, i) => {
            let base = value(a.get(), s)?;
            let pointer = binary_of(BinaryOp::Add, s, a.get(), i.get(), base, value(i.get(), s)?)?;
            value_at(s, e, item_place(s, e, pointer)?)
        }
        Expr::Member(a, m) => value_at(s, e, member_in(s, *m, place(a.get(), s)?)?),
        Expr::Arrow(a, m) => value_at(s, e, member_behind(s, *m, value(a.get(), s)?)?),
        Expr::Paren(a) => value(a.get(), s),
    }
}

/// The object that an expression designates; None where it designates none, or that is undefined. Err: no memory was
/// left, or an index has more than 32 bits.
#[cycle(evaluation)]
#[tactic(auto, using(crate::proofs::Rulesets::expressions))]
pub fn place(e: &Expr, s: Scene) -> Result<Option<Place>, AllocError>
    ensures { IfOk result (λ o. o ≡ spec.place (types_in s.entry) e.now (state_in s.entry)) }
{
    match e {
        Expr::Variable(x) => Ok(object_of(s, *x)),
        Expr::Deref(a) => item_place(s, e, value(a.get(), s)?),
        Expr::Index(a, i) => {
            let base = value(a.get(), s)?;
            let pointer = binary_of(BinaryOp::Add, s, a.get(), i.get(), base, value(i.get(), s)?)?;
            item_place(s, e, pointer)
        }
        Expr::Member(a, m) => member_in(s, *m, place(a.get(), s)?),
        Expr::Arrow(a, m) => member_behind(s, *m, value(a.get(), s)?),
        Expr::Paren(a) => place(a.get(), s),
        Expr::Constant(_, _, _) => Ok(None),
        Expr::Null => Ok(None),
        Expr::Eof => Ok(None),
        Expr::Unary(_, _) => Ok(None),
        Expr::AddressOf(_) => Ok(None),
        Expr::Binary(_, _, _) => Ok(None),
        Expr::AndAlso(_, _) => Ok(None),
        Expr::OrElse(_, _) => Ok(None),
        Expr::Choose(_, _, _) => Ok(None),
        Expr::Cast(_, _) => Ok(None),
    }
}

/// The pointer that `&` gives of an expression, which may point behind the last element; None where that is
/// undefined. Err: no memory was left, or an index has more than 32 bits.
#[cycle(evaluation)]
#[tactic(auto, using(crate::proofs::Rulesets::expressions))]
pub fn address(e: &Expr, s: Scene) -> Result<Option<Value>, AllocError>
    ensures { IfOk result (λ o. o ≡ (spec.meant (types_in s.entry) e.now).address (state_in s.entry)) }
{
    match e {
        Expr::Variable(x) => Ok(start_of(object_of(s, *x))),
        Expr::Deref(a) => value(a.get(), s),
        Expr::Index(a, i) => {
            let base = value(a.get(), s)?;
            binary_of(BinaryOp::Add, s, a.get(), i.get(), base, value(i.get(), s)?)
        }
        Expr::Member(a, m) => Ok(start_of(member_in(s, *m, place(a.get(), s)?)?)),
        Expr::Arrow(a, m) => Ok(start_of(member_behind(s, *m, value(a.get(), s)?)?)),
        Expr::Paren(a) => address(a.get(), s),
        Expr::Constant(_, _, _) => Ok(None),
        Expr::Null => Ok(None),
        Expr::Eof => Ok(None),
        Expr::Unary(_, _) => Ok(None),
        Expr::AddressOf(_) => Ok(None),
        Expr::Binary(_, _, _) => Ok(None),
        Expr::AndAlso(_, _) => Ok(None),
        Expr::OrElse(_, _) => Ok(None),
        Expr::Choose(_, _, _) => Ok(None),
        Expr::Cast(_, _) => Ok(None),
    }
}
