//! Trees of expressions, types and parameters as texts.
use c_tree::{
    BinaryOp, IntType, RawExpr, RawLength, RawParam, RawType, RawTypeName, Text, UnaryOp,
};
use std::alloc::AllocError;

fn binary_sign(op: BinaryOp) -> &'static [u8] {
    match op {
        BinaryOp::Mul => b"(* ",
        BinaryOp::Div => b"(/ ",
        BinaryOp::Rem => b"(% ",
        BinaryOp::Add => b"(+ ",
        BinaryOp::Sub => b"(- ",
        BinaryOp::Shl => b"(<< ",
        BinaryOp::Shr => b"(>> ",
        BinaryOp::Less => b"(< ",
        BinaryOp::Greater => b"(> ",
        BinaryOp::AtMost => b"(<= ",
        BinaryOp::AtLeast => b"(>= ",
        BinaryOp::Equal => b"(== ",
        BinaryOp::Unequal => b"(!= ",
        BinaryOp::And => b"(& ",
        BinaryOp::Xor => b"(^ ",
        BinaryOp::Or => b"(| ",
    }
}

fn unary_sign(op: UnaryOp) -> &'static [u8] {
    match op {
        UnaryOp::Plus => b"(+ ",
        UnaryOp::Minus => b"(- ",
        UnaryOp::Flip => b"(~ ",
        UnaryOp::Not => b"(! ",
    }
}

fn int_words(of: IntType) -> &'static [u8] {
    match of {
        IntType::Char => b"char",
        IntType::UChar => b"uchar",
        IntType::Short => b"short",
        IntType::UShort => b"ushort",
        IntType::Int => b"int",
        IntType::UInt => b"uint",
        IntType::Long => b"long",
        IntType::ULong => b"ulong",
    }
}

/// An expression with its operators in front.
pub fn show_expr(expr: &RawExpr, out: &mut Text) -> Result<(), AllocError> {
    match expr {
        RawExpr::Constant(text) => out.append(text.bytes()),
        RawExpr::Variable(name) => out.append(name.bytes()),
        RawExpr::Null => out.append(b"<null>"),
        RawExpr::Eof => out.append(b"<eof>"),
        RawExpr::Unary(op, a) => {
            out.append(unary_sign(*op))?;
            show_expr(a.get(), out)?;
            out.append(b")")
        }
        RawExpr::Deref(a) => {
            out.append(b"(* ")?;
            show_expr(a.get(), out)?;
            out.append(b")")
        }
        RawExpr::AddressOf(a) => {
            out.append(b"(& ")?;
            show_expr(a.get(), out)?;
            out.append(b")")
        }
        RawExpr::Binary(op, a, b) => {
            out.append(binary_sign(*op))?;
            show_expr(a.get(), out)?;
            out.append(b" ")?;
            show_expr(b.get(), out)?;
            out.append(b")")
        }
        RawExpr::AndAlso(a, b) => {
            out.append(b"(&& ")?;
            show_expr(a.get(), out)?;
            out.append(b" ")?;
            show_expr(b.get(), out)?;
            out.append(b")")
        }
        RawExpr::OrElse(a, b) => {
            out.append(b"(|| ")?;
            show_expr(a.get(), out)?;
            out.append(b" ")?;
            show_expr(b.get(), out)?;
            out.append(b")")
        }
        RawExpr::Choose(c, a, b) => {
            out.append(b"(? ")?;
            show_expr(c.get(), out)?;
            out.append(b" ")?;
            show_expr(a.get(), out)?;
            out.append(b" ")?;
            show_expr(b.get(), out)?;
            out.append(b")")
        }
        RawExpr::Cast(to, a) => {
            out.append(b"(")?;
            out.append(int_words(*to))?;
            out.append(b" ")?;
            show_expr(a.get(), out)?;
            out.append(b")")
        }
        RawExpr::Index(a, i) => {
            out.append(b"([] ")?;
            show_expr(a.get(), out)?;
            out.append(b" ")?;
            show_expr(i.get(), out)?;
            out.append(b")")
        }
        RawExpr::Member(a, m) => {
            out.append(b"(. ")?;
            show_expr(a.get(), out)?;
            out.append(b" ")?;
            out.append(m.bytes())?;
            out.append(b")")
        }
        RawExpr::Arrow(a, m) => {
            out.append(b"(-> ")?;
            show_expr(a.get(), out)?;
            out.append(b" ")?;
            out.append(m.bytes())?;
            out.append(b")")
        }
        RawExpr::Paren(a) => {
            out.append(b"<")?;
            show_expr(a.get(), out)?;
            out.append(b">")
        }
    }
}

fn show_length(length: &RawLength, out: &mut Text) -> Result<(), AllocError> {
    match length {
        RawLength::Written(n) => show_expr(n, out),
        RawLength::Listed => out.append(b"?"),
    }
}

/// A type with what it is made of behind it.
pub fn show_type(shape: &RawType, out: &mut Text) -> Result<(), AllocError> {
    match shape {
        RawType::Integer(to) => out.append(int_words(*to)),
        RawType::Struct(tag) => {
            out.append(b"struct ")?;
            out.append(tag.bytes())
        }
        RawType::PointerTo(a) => {
            out.append(b"* ")?;
            show_type(a.get(), out)
        }
        RawType::Array(a, n) => {
            out.append(b"[")?;
            show_length(n, out)?;
            out.append(b"] ")?;
            show_type(a.get(), out)
        }
    }
}

/// A type name: its stars, and its base behind them.
pub fn show_type_name(name: &RawTypeName, out: &mut Text) -> Result<(), AllocError> {
    for _star in 0..name.stars {
        out.append(b"* ")?;
    }
    show_type(&name.base, out)
}

/// A parameter: its name, its type and the length that it was written with.
pub fn show_param(param: &RawParam, out: &mut Text) -> Result<(), AllocError> {
    if let Some(name) = &param.name {
        out.append(name.bytes())?;
    }
    out.append(b": ")?;
    show_type(&param.shape, out)?;
    if let Some(n) = &param.length {
        out.append(b" of ")?;
        show_expr(n, out)?;
    }
    out.append(b"; ")
}
