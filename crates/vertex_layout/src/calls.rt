//! Statements that call a function of the program.
ghost use Rattle.std.specs.Prelude.{◌≡◌, false, IfSome, None};
ghost use Rattle.effect_rows.specs.Own.{own_doing};
ghost use Rattle.vertex_layout.specs.CallParts.{IsCall};
ghost use Rattle.vertex_layout.specs.RowWork as rowing;

use c_tree::{Expr, Statement, Target};

/// A call statement: where its value is stored, and its arguments.
#[derive(Drop)]
pub(crate) struct Call<'s> {
    /// Where its value is stored.
    pub(crate) target: &'s Target,
    /// Its arguments.
    pub(crate) args: &'s [Expr],
}

/// What a statement calls a function with, where it does.
#[tactic(auto, using(crate::proofs::Rules::own))]
pub(crate) fn call_of(statement: &Statement) -> Option<Call<'_>>
    ensures none { result ≡ None → rowing.is_call (own_doing statement.now) ≡ false }
    ensures some { IfSome result (λ c. IsCall (own_doing statement.now) c) }
{
    match statement {
        Statement::Invoke { target, args, .. } => Some(Call {
            target,
            args: args.as_slice(),
        }),
        Statement::Declare { id: None, .. } => None,
        Statement::Declare { id: Some(_), .. } => None,
        Statement::Assign { .. } => None,
        Statement::Bump { .. } => None,
        Statement::Fetch { .. } => None,
        Statement::Write { .. } => None,
        Statement::Print { .. } => None,
        Statement::Heap { .. } => None,
        Statement::Release { .. } => None,
        Statement::If { .. } => None,
        Statement::While { .. } => None,
        Statement::Do { .. } => None,
        Statement::For { .. } => None,
        Statement::Switch { .. } => None,
        Statement::Block { .. } => None,
        Statement::Return { .. } => None,
    }
}

/// Whether a statement calls a function.
pub(crate) fn is_call(statement: &Statement) -> bool
    ensures { result ≡ rowing.is_call (own_doing statement.now) }
{
    match call_of(statement) {
        None => false,
        Some(_) => true,
    }
}
