//! The syntax tree of a C program, with names as numbers and with types.
//!
//! Contracts see a tree as plain data: `Boxed` is what it holds, `Items` is its list and `Text`
//! its bytes, so that `≡` is equality of trees.
#![tactic(auto)]

mod copies;
mod expr;
mod limits;
pub mod numbered;
mod program;
mod raw;
mod statement;
mod types;

pub use c_arith::{BinaryOp, IntType, UnaryOp};
pub use edge_io::Text;
pub use expr::{Expr, MemberId};
pub use limits::LimitName;
pub use program::{Function, Init, Item, Member, Program, StructDef, Var};
pub use raw::{
    RawAmount, RawArg, RawArm, RawExpr, RawHead, RawInit, RawItem, RawLabel, RawLength, RawMember,
    RawParam, RawProgram, RawSize, RawStatement, RawTarget, RawType, RawTypeName, RawVar,
};
pub use sqlite_items::{Boxed, Items};
pub use statement::{Amount, Arm, Label, Size, Statement, Target};
pub use types::{CType, FunctionId, StatementId, StructId, VarId};
