//! The types of expressions, as they are seen in the program's tree, so that none takes memory.
ghost use Rattle.std.specs.Prelude.{◌≡◌, ◌≢◌, ◌<◌, ◌⊎◌};
ghost use Rattle.std.specs.Borrow.{Bor};
ghost use Rattle.c_arith.specs.IntType.{promote};
ghost use Rattle.c_arith.specs.Operators.{unary_type};
ghost use Rattle.c_language.specs.DeclaredTypes as types;
ghost use Rattle.c_language.specs.ExprTypes as spec;
ghost use Rattle.c_language.specs.TreeTypes as tree;
ghost use Rattle.effect_rows.specs.SeenTypes.{type_seen};
ghost use Rattle.c_tree.specs.declared.expr.Expr.{Expr, size-Expr};
ghost use Rattle.c_tree.specs.declared.program.Program.{Program};
ghost use Rattle.effect_rows.specs.declared.seen_types.SeenType.TheVariants as seen;

use c_arith::{BinaryOp, IntType, UnaryOp, common, promote};
use c_tree::{CType, Expr, MemberId, Program, VarId};
use c_types_base::constant::{binary_type, operand_type};
use tree_types::members;

/// A type, by where it stands in the tree.
#[derive(Clone, Copy)]
pub enum SeenType<'p> {
    /// An integer type.
    Integer(IntType),
    /// The type without values.
    Void,
    /// The type of `NULL`.
    VoidPointer,
    /// A type that is declared.
    Declared(&'p CType),
    /// The pointers to a type that is declared.
    PointerTo(&'p CType),
    /// The pointers to the type of an expression.
    AddressOf(&'p Expr),
}

/// The type of a variable, int where the program has none of the number.
pub(crate) fn variable_seen(p: &Program, x: VarId) -> SeenType<'_>
    ensures seen { type_seen p.now result ≡ tree.type_of_variable p.now x }
    ensures from { (y : Bor Expr) → result ≢ seen.AddressOf y }
{
    match p.vars.get(x as usize) {
        Some(var) => SeenType::Declared(&var.shape),
        None => SeenType::Integer(IntType::Int),
    }
}

/// The type of a member, int where the struct type has none at the place.
pub(crate) fn member_seen(p: &Program, m: MemberId) -> SeenType<'_>
    ensures seen { type_seen p.now result ≡ tree.type_of_member p.now m }
    ensures from { (y : Bor Expr) → result ≢ seen.AddressOf y }
{
    match members(p, m.owner).get(m.index as usize) {
        Some(member) => SeenType::Declared(&member.shape),
        None => SeenType::Integer(IntType::Int),
    }
}

/// Whether it is an array type.
#[tactic(auto, using(crate::proofs::Rules::shapes))]
pub(crate) fn is_array(t: SeenType<'_>) -> bool
    ensures { (p : Program) → result ≡ spec.is_array (type_seen p t.entry) }
{
    match t {
        SeenType::Declared(CType::Array(_, _, _)) => true,
        _ => false,
    }
}

/// Whether it is a pointer type.
#[tactic(auto, using(crate::proofs::Rules::shapes))]
pub(crate) fn is_pointer(t: SeenType<'_>) -> bool
    ensures { (p : Program) → result ≡ spec.is_pointer (type_seen p t.entry) }
{
    match t {
        SeenType::VoidPointer | SeenType::PointerTo(_) | SeenType::AddressOf(_) => true,
        SeenType::Declared(CType::PointerTo(_)) => true,
        _ => false,
    }
}

/// Whether it is an integer type or a pointer type.
#[tactic(auto, using(crate::proofs::Rules::shapes))]
pub(crate) fn is_scalar(t: SeenType<'_>) -> bool
    ensures { (p : Program) → result ≡ spec.is_scalar (type_seen p t.entry) }
{
    match t {
        SeenType::Integer(_)
        | SeenType::VoidPointer
        | SeenType::PointerTo(_)
        | SeenType::AddressOf(_) => true,
        SeenType::Declared(CType::PointerTo(_) | CType::Integer(_)) => true,
        _ => false,
    }
}

/// The integer type of an operand; that of a pointer is of no meaning.
#[tactic(auto, using(crate::proofs::Rules::shapes))]
fn int_type(t: SeenType<'_>) -> IntType
    ensures { (p : Program) → result ≡ tree.int_type (type_seen p t.entry) }
{
    match t {
        SeenType::Integer(i) => i,
        SeenType::Declared(CType::Integer(i)) => *i,
        _ => IntType::Int,
    }
}

/// The type of a value: an array turns into a pointer to its first element (ISO C99 6.3.2.1).
#[tactic(auto, using(crate::proofs::Rules::shapes))]
fn value_seen<'p>(t: SeenType<'p>) -> SeenType<'p>
    ensures seen { (p : Program) → type_seen p result ≡ spec.value_type (type_seen p t.entry) }
    ensures from { (x : Bor Expr) → result ≡ seen.AddressOf x → t.entry ≡ seen.AddressOf x }
{
    match t {
        SeenType::Declared(CType::Array(inner, _, _)) => SeenType::PointerTo(inner.get()),
        _ => t,
    }
}

/// What a pointer points to, also an array that turns into one, where it is told for the address of an expression.
#[tactic(auto, using(crate::proofs::Rules::shapes))]
fn pointee_seen<'p>(t: SeenType<'p>, target: SeenType<'p>) -> SeenType<'p>
    ensures seen { (p : Program) → ((x : Bor Expr) → t.entry ≡ seen.AddressOf x → type_seen p target.entry ≡ tree.tree_type p x.now)
        → type_seen p result ≡ tree.pointee (type_seen p t.entry) }
    ensures from { (x : Bor Expr) → result ≡ seen.AddressOf x → target.entry ≡ seen.AddressOf x }
{
    match t {
        SeenType::AddressOf(_) => target,
        SeenType::PointerTo(inner) => SeenType::Declared(inner),
        SeenType::Declared(CType::PointerTo(inner)) => SeenType::Declared(inner.get()),
        SeenType::Declared(CType::Array(inner, _, _)) => SeenType::Declared(inner.get()),
        _ => SeenType::Void,
    }
}

/// A unary operator at an operand of the type.
fn unary_seen<'p>(op: UnaryOp, t: SeenType<'_>) -> SeenType<'p>
    ensures seen { (p : Program) → type_seen p result ≡ types.integer (unary_type op (promote (tree.int_type (type_seen p t.entry)))) }
    ensures from { (x : Bor Expr) → result ≢ seen.AddressOf x }
{
    match op {
        UnaryOp::Not => SeenType::Integer(IntType::Int),
        UnaryOp::Plus | UnaryOp::Minus | UnaryOp::Flip => SeenType::Integer(promote(int_type(t))),
    }
}

/// A binary operator at two integers.
fn combined<'p>(op: BinaryOp, s: SeenType<'_>, t: SeenType<'_>) -> SeenType<'p>
    ensures seen { (p : Program) → type_seen p result ≡ tree.combined op (type_seen p s.entry) (type_seen p t.entry) }
    ensures from { (x : Bor Expr) → result ≢ seen.AddressOf x }
{
    SeenType::Integer(binary_type(op, operand_type(op, int_type(s), int_type(t))))
}

/// `a + b`: a pointer where one of both is one (6.5.6).
fn sum<'p>(s: SeenType<'p>, t: SeenType<'p>) -> SeenType<'p>
    ensures seen { (p : Program) → type_seen p result ≡ tree.binary_tree_type BinaryOp.Add (type_seen p s.entry) (type_seen p t.entry) }
    ensures from { (x : Bor Expr) → result ≡ seen.AddressOf x → (s.entry ≡ seen.AddressOf x) ⊎ (t.entry ≡ seen.AddressOf x) }
{
    let left = value_seen(s);
    if is_pointer(left) {
        return left;
    }
    let right = value_seen(t);
    if is_pointer(right) {
        right
    } else {
        combined(BinaryOp::Add, s, t)
    }
}

/// `a - b`: a pointer moved by an integer, or the distance of two pointers (6.5.6).
fn difference<'p>(s: SeenType<'p>, t: SeenType<'p>) -> SeenType<'p>
    ensures seen { (p : Program) → type_seen p result ≡ tree.binary_tree_type BinaryOp.Sub (type_seen p s.entry) (type_seen p t.entry) }
    ensures from { (x : Bor Expr) → result ≡ seen.AddressOf x → s.entry ≡ seen.AddressOf x }
{
    let left = value_seen(s);
    if !is_pointer(left) {
        return combined(BinaryOp::Sub, s, t);
    }
    if is_pointer(value_seen(t)) {
        SeenType::Integer(IntType::Long)
    } else {
        left
    }
}

/// A binary operator at two operands.
fn binary_seen<'p>(op: BinaryOp, s: SeenType<'p>, t: SeenType<'p>) -> SeenType<'p>
    ensures seen { (p : Program) → type_seen p result ≡ tree.binary_tree_type op (type_seen p s.entry) (type_seen p t.entry) }
    ensures from { (x : Bor Expr) → result ≡ seen.AddressOf x → (s.entry ≡ seen.AddressOf x) ⊎ (t.entry ≡ seen.AddressOf x) }
{
    match op {
        BinaryOp::Add => sum(s, t),
        BinaryOp::Sub => difference(s, t),
        BinaryOp::Less
        | BinaryOp::Greater
        | BinaryOp::AtMost
        | BinaryOp::AtLeast
        | BinaryOp::Equal
        | BinaryOp::Unequal
        | BinaryOp::Mul
        | BinaryOp::Div
        | BinaryOp::Rem
        | BinaryOp::Shl
        | BinaryOp::Shr
        | BinaryOp::And
        | BinaryOp::Xor
        | BinaryOp::Or => combined(op, s, t),
    }
}

/// Whether it is the type without values.
#[tactic(auto, using(crate::proofs::Rules::shapes))]
fn is_void(t: SeenType<'_>) -> bool
    ensures { (p : Program) → result ≡ spec.is_void (type_seen p t.entry) }
{
    match t {
        SeenType::Void => true,
        SeenType::Declared(CType::Integer(_)) => false,
        SeenType::Declared(CType::PointerTo(_)) => false,
        SeenType::Declared(CType::Array(_, _, _)) => false,
        SeenType::Declared(CType::Struct(_)) => false,
        SeenType::Integer(_) => false,
        SeenType::VoidPointer => false,
        SeenType::PointerTo(_) => false,
        SeenType::AddressOf(_) => false,
    }
}

/// Whether it is a pointer to objects, where it is told to what the address of an expression points; that of `NULL` is none.
#[tactic(auto, using(crate::proofs::Rules::shapes))]
fn is_object_pointer(t: SeenType<'_>, target: SeenType<'_>) -> bool
    ensures { (p : Program) → ((x : Bor Expr) → t.entry ≡ seen.AddressOf x → type_seen p target.entry ≡ tree.tree_type p x.now)
        → result ≡ spec.is_object_pointer (spec.value_type (type_seen p t.entry)) }
{
    match t {
        SeenType::AddressOf(_) => !is_void(target),
        SeenType::PointerTo(_) => true,
        SeenType::Declared(CType::PointerTo(_)) => true,
        SeenType::Declared(CType::Array(_, _, _)) => true,
        SeenType::Declared(CType::Integer(_)) => false,
        SeenType::Declared(CType::Struct(_)) => false,
        SeenType::Integer(_) => false,
        SeenType::VoidPointer => false,
        SeenType::Void => false,
    }
}

/// The integer type that it is.
#[tactic(auto, using(crate::proofs::Rules::shapes))]
fn integer_of(t: SeenType<'_>) -> Option<IntType>
    ensures { (p : Program) → result ≡ spec.integer_of (type_seen p t.entry) }
{
    match t {
        SeenType::Integer(i) => Some(i),
        SeenType::Declared(CType::Integer(i)) => Some(*i),
        SeenType::Declared(CType::PointerTo(_)) => None,
        SeenType::Declared(CType::Array(_, _, _)) => None,
        SeenType::Declared(CType::Struct(_)) => None,
        SeenType::Void => None,
        SeenType::VoidPointer => None,
        SeenType::PointerTo(_) => None,
        SeenType::AddressOf(_) => None,
    }
}

/// `c ? a : b`, by the types of a and b (6.5.15), where it is told to what a points if it is the address of an expression.
fn chosen_seen<'p>(s: SeenType<'p>, target: SeenType<'p>, t: SeenType<'p>) -> SeenType<'p>
    ensures seen { (p : Program) → ((x : Bor Expr) → s.entry ≡ seen.AddressOf x → type_seen p target.entry ≡ tree.tree_type p x.now)
        → type_seen p result ≡ tree.chosen_type (type_seen p s.entry) (type_seen p t.entry) }
    ensures from { (x : Bor Expr) → result ≡ seen.AddressOf x → (s.entry ≡ seen.AddressOf x) ⊎ (t.entry ≡ seen.AddressOf x) }
{
    if let (Some(i), Some(j)) = (integer_of(s), integer_of(t)) {
        return SeenType::Integer(common(i, j));
    }
    if is_object_pointer(s, target) {
        value_seen(s)
    } else {
        value_seen(t)
    }
}

/// The type of an expression.
#[tactic(auto, using(crate::proofs::Rules::expressions))]
pub(crate) fn type_of<'p>(p: &'p Program, e: &'p Expr) -> SeenType<'p>
    ensures seen { type_seen p.now result ≡ tree.tree_type p.now e.now }
    ensures inside { (x : Bor Expr) → result ≡ seen.AddressOf x → size-Expr x.now < size-Expr e.now }
{
    match e {
        Expr::Constant(_, t, _) => SeenType::Integer(*t),
        Expr::Null => SeenType::VoidPointer,
        Expr::Eof => SeenType::Integer(IntType::Int),
        Expr::Variable(x) => variable_seen(p, *x),
        Expr::Unary(op, a) => unary_seen(*op, type_of(p, a.get())),
        Expr::Deref(a) => {
            let inner = type_of(p, a.get());
            let target = match inner {
                SeenType::AddressOf(x) => type_of(p, x),
                _ => SeenType::Void,
            };
            pointee_seen(inner, target)
        }
        Expr::AddressOf(a) => SeenType::AddressOf(a.get()),
        Expr::Binary(op, a, b) => binary_seen(*op, type_of(p, a.get()), type_of(p, b.get())),
        Expr::AndAlso(_, _) => SeenType::Integer(IntType::Int),
        Expr::OrElse(_, _) => SeenType::Integer(IntType::Int),
        Expr::Choose(_, a, b) => {
            let left = type_of(p, a.get());
            let target = match left {
                SeenType::AddressOf(x) => type_of(p, x),
                _ => SeenType::Void,
            };
            chosen_seen(left, target, type_of(p, b.get()))
        }
        Expr::Cast(t, _) => SeenType::Integer(*t),
        Expr::Index(a, _) => {
            let inner = type_of(p, a.get());
            let target = match inner {
                SeenType::AddressOf(x) => type_of(p, x),
                _ => SeenType::Void,
            };
            pointee_seen(inner, target)
        }
        Expr::Member(_, m) => member_seen(p, *m),
        Expr::Arrow(_, m) => member_seen(p, *m),
        Expr::Paren(a) => type_of(p, a.get()),
    }
}
