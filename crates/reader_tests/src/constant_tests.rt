//! Rows worked out from C99: spellings, constant expressions, and what operators give.
use c_arith::{BinaryOp, IntType, UnaryOp};
use c_language::{Base, Constant, ExprType, Layer, Operand};
use c_tree::{RawExpr, Text};
use c_types_base::constant::constant;
use c_types_base::literal::literal;
use c_types_base::operators::binary_result;
use sqlite_items::{Boxed, Items};
use std::process::Abort;

const INT: IntType = IntType::Int;

const UINT: IntType = IntType::UInt;

const LONG: IntType = IntType::Long;

const ULONG: IntType = IntType::ULong;

/// A row: a spelling, its type and its value.
type LiteralRow<'a> = (&'a [u8], IntType, u64);

fn spells(rt: &impl Abort, row: LiteralRow<'_>) {
    let (text, t, value) = row;
    let (found_type, found) = literal(text);
    assert_eq!(rt; found_type, t, "{value}");
    assert_eq!(rt; found, value);
}

fn spell_all(rt: &impl Abort, rows: &[LiteralRow<'_>]) {
    for row in rows.iter() {
        spells(rt, *row);
    }
}

#[test]
fn decimal_constants(rt: HostRuntime) {
    let rows: [LiteralRow<'_>; 10] = [
        (b"0", INT, 0),
        (b"2147483647", INT, 2147483647),
        (b"2147483648", LONG, 2147483648),
        (b"4294967295u", UINT, 4294967295),
        (b"4294967296U", ULONG, 4294967296),
        (b"9223372036854775807", LONG, 9223372036854775807),
        (b"18446744073709551615u", ULONG, 18446744073709551615),
        (b"1l", LONG, 1),
        (b"1ul", ULONG, 1),
        (b"1UL", ULONG, 1),
    ];
    spell_all(&rt, &rows);
}

#[test]
fn octal_and_hexadecimal_constants(rt: HostRuntime) {
    let rows: [LiteralRow<'_>; 8] = [
        (b"017", INT, 15),
        (b"020000000000", UINT, 2147483648),
        (b"0x7fffffff", INT, 2147483647),
        (b"0x80000000", UINT, 2147483648),
        (b"0xffffffff", UINT, 4294967295),
        (b"0X100000000", LONG, 4294967296),
        (b"0x8000000000000000", ULONG, 9223372036854775808),
        (b"0xaBlU", ULONG, 171),
    ];
    spell_all(&rt, &rows);
}

#[test]
fn character_constants(rt: HostRuntime) {
    let rows: [LiteralRow<'_>; 6] = [
        (b"'a'", INT, 97),
        (b"'0'", INT, 48),
        (b"'\\n'", INT, 10),
        (b"'\\0'", INT, 0),
        (b"'\\''", INT, 39),
        (b"'\\\\'", INT, 92),
    ];
    spell_all(&rt, &rows);
}

fn boxed<R: Abort + AllocGlobal>(rt: &R, value: RawExpr) -> Boxed<RawExpr> {
    Boxed::new(rt.alloc(), value).expect(rt, "memory")
}

fn text<R: Abort + AllocGlobal>(rt: &R, bytes: &[u8]) -> Text {
    Text::from_slice(rt.alloc(), bytes).expect(rt, "memory")
}

fn number<R: Abort + AllocGlobal>(rt: &R, spelling: &[u8]) -> RawExpr {
    RawExpr::Constant(text(rt, spelling))
}

fn name<R: Abort + AllocGlobal>(rt: &R) -> RawExpr {
    RawExpr::Variable(text(rt, b"x"))
}

fn unary<R: Abort + AllocGlobal>(rt: &R, op: UnaryOp, a: RawExpr) -> RawExpr {
    RawExpr::Unary(op, boxed(rt, a))
}

fn binary<R: Abort + AllocGlobal>(rt: &R, op: BinaryOp, a: RawExpr, b: RawExpr) -> RawExpr {
    let left = boxed(rt, a);
    RawExpr::Binary(op, left, boxed(rt, b))
}

fn and<R: Abort + AllocGlobal>(rt: &R, a: RawExpr, b: RawExpr) -> RawExpr {
    let left = boxed(rt, a);
    RawExpr::AndAlso(left, boxed(rt, b))
}

fn or<R: Abort + AllocGlobal>(rt: &R, a: RawExpr, b: RawExpr) -> RawExpr {
    let left = boxed(rt, a);
    RawExpr::OrElse(left, boxed(rt, b))
}

/// The test of a choice is a constant of this spelling.
fn choose<R: Abort + AllocGlobal>(rt: &R, test: &[u8], a: RawExpr, b: RawExpr) -> RawExpr {
    let test = boxed(rt, number(rt, test));
    let left = boxed(rt, a);
    RawExpr::Choose(test, left, boxed(rt, b))
}

/// `1 / 0`
fn undefined<R: Abort + AllocGlobal>(rt: &R) -> RawExpr {
    let one = number(rt, b"1");
    binary(rt, BinaryOp::Div, one, number(rt, b"0"))
}

/// The expression is a constant expression of the type, with the value or with none.
fn is_worth(rt: &impl Abort, expr: &RawExpr, integer: IntType, value: Option<i128>) {
    assert_eq!(rt; constant(expr), Some(Constant { integer, value }));
}

fn is_no_constant(rt: &impl Abort, expr: &RawExpr) {
    assert_eq!(rt; constant(expr), None);
}

/// A row: an operator with the spellings of its operands, and the type and value of what it gives.
type BinaryRow<'a> = (&'a [u8], BinaryOp, &'a [u8], IntType, Option<i128>);

fn computes<R: Abort + AllocGlobal>(rt: &R, row: BinaryRow<'_>) {
    let (a, op, b, t, value) = row;
    let left = number(rt, a);
    let expr = binary(rt, op, left, number(rt, b));
    is_worth(rt, &expr, t, value);
}

#[test]
fn operators_of_constants(rt: HostRuntime) {
    let rows: [BinaryRow<'_>; 11] = [
        (b"1", BinaryOp::Add, b"2", INT, Some(3)),
        (b"2147483647", BinaryOp::Add, b"1", INT, None),
        (b"2147483648", BinaryOp::Add, b"1u", LONG, Some(2147483649)),
        (b"4294967295u", BinaryOp::Add, b"1", UINT, Some(0)),
        (b"7", BinaryOp::Div, b"2", INT, Some(3)),
        (b"7", BinaryOp::Div, b"0", INT, None),
        (b"1", BinaryOp::Shl, b"30", INT, Some(1073741824)),
        (b"1", BinaryOp::Shl, b"31", INT, None),
        (b"1u", BinaryOp::Shl, b"31l", UINT, Some(2147483648)),
        (b"1ul", BinaryOp::Less, b"2", INT, Some(1)),
        (b"'a'", BinaryOp::Equal, b"0x61u", INT, Some(1)),
    ];
    for row in rows.iter() {
        computes(&rt, *row);
    }
}

/// `-1`
fn minus_one<R: Abort + AllocGlobal>(rt: &R) -> RawExpr {
    unary(rt, UnaryOp::Minus, number(rt, b"1"))
}

#[test]
fn conversions_of_constants(rt: HostRuntime) {
    is_worth(&rt, &minus_one(&rt), INT, Some(-1));
    let left = minus_one(&rt);
    let compared = binary(&rt, BinaryOp::Less, left, number(&rt, b"1u"));
    is_worth(&rt, &compared, INT, Some(0));
    let cast = RawExpr::Cast(IntType::Char, boxed(&rt, number(&rt, b"200")));
    is_worth(&rt, &cast, IntType::Char, Some(-56));
    is_worth(&rt, &unary(&rt, UnaryOp::Plus, cast), INT, Some(-56));
    is_worth(&rt, &RawExpr::Eof, INT, Some(-1));
}

#[test]
fn conjunctions_of_constants(rt: HostRuntime) {
    let no = and(&rt, number(&rt, b"0"), undefined(&rt));
    is_worth(&rt, &no, INT, Some(0));
    let unknown = and(&rt, number(&rt, b"2"), undefined(&rt));
    is_worth(&rt, &unknown, INT, None);
    let yes = and(&rt, number(&rt, b"2"), number(&rt, b"3"));
    is_worth(&rt, &yes, INT, Some(1));
    is_no_constant(&rt, &and(&rt, number(&rt, b"0"), name(&rt)));
}

#[test]
fn disjunctions_of_constants(rt: HostRuntime) {
    let yes = or(&rt, number(&rt, b"2"), undefined(&rt));
    is_worth(&rt, &yes, INT, Some(1));
    let unknown = or(&rt, number(&rt, b"0"), undefined(&rt));
    is_worth(&rt, &unknown, INT, None);
    let no = or(&rt, number(&rt, b"0"), number(&rt, b"0"));
    is_worth(&rt, &no, INT, Some(0));
}

#[test]
fn choices_of_constants(rt: HostRuntime) {
    let first = choose(&rt, b"2", number(&rt, b"7"), undefined(&rt));
    is_worth(&rt, &first, INT, Some(7));
    let second = choose(&rt, b"0", number(&rt, b"1u"), minus_one(&rt));
    is_worth(&rt, &second, UINT, Some(4294967295));
    let unknown = choose(&rt, b"0", number(&rt, b"7"), undefined(&rt));
    is_worth(&rt, &unknown, INT, None);
}

#[test]
fn no_constants(rt: HostRuntime) {
    is_no_constant(&rt, &name(&rt));
    is_no_constant(&rt, &RawExpr::Null);
    is_no_constant(&rt, &RawExpr::AddressOf(boxed(&rt, name(&rt))));
    let sum = binary(&rt, BinaryOp::Add, number(&rt, b"1"), name(&rt));
    is_no_constant(&rt, &sum);
}

/// A type: its layers, and their base.
type Shape<'a> = (&'a [Layer], Base);

fn operand<R: Abort + AllocGlobal>(rt: &R, shape: Shape<'_>, is_null: bool) -> Operand {
    let layers = Items::from_slice(rt.alloc(), shape.0).expect(rt, "memory");
    Operand {
        shape: ExprType {
            layers,
            base: shape.1,
        },
        is_place: false,
        is_null,
    }
}

fn is_of_shape(rt: &impl Abort, found: Option<ExprType>, expected: Option<Shape<'_>>) {
    match (found, expected) {
        (None, None) => {}
        (Some(t), Some((layers, base))) => {
            assert!(rt; t.layers.as_slice() == layers);
            assert_eq!(rt; t.base, base);
        }
        _ => panic!(rt; "one of the two has no type"),
    }
}

/// A row: an operator with the types of its operands, whether the right one is a null pointer
/// constant, and the type of what it gives.
type TypeRow<'a> = (Shape<'a>, BinaryOp, Shape<'a>, bool, Option<Shape<'a>>);

fn gives<R: Abort + AllocGlobal>(rt: &R, row: TypeRow<'_>) {
    let (a, op, b, is_null, expected) = row;
    let left = operand(rt, a, false);
    let right = operand(rt, b, is_null);
    is_of_shape(rt, binary_result(rt.alloc(), op, left, right), expected);
}

const PLAIN: &[Layer] = &[];

const POINTER: &[Layer] = &[Layer::Pointer];

const ARRAY: &[Layer] = &[Layer::Array(3)];

const CHAR: Shape<'static> = (PLAIN, Base::Integer(IntType::Char));

const SIGNED: Shape<'static> = (PLAIN, Base::Integer(IntType::Int));

const UNSIGNED: Shape<'static> = (PLAIN, Base::Integer(IntType::UInt));

const WIDE: Shape<'static> = (PLAIN, Base::Integer(IntType::Long));

const TO_CHAR: Shape<'static> = (POINTER, Base::Integer(IntType::Char));

const TO_INT: Shape<'static> = (POINTER, Base::Integer(IntType::Int));

const INTS: Shape<'static> = (ARRAY, Base::Integer(IntType::Int));

const NULL: Shape<'static> = (POINTER, Base::Void);

const STRUCT: Shape<'static> = (PLAIN, Base::Struct(0));

#[test]
fn types_of_integers(rt: HostRuntime) {
    let rows: [TypeRow<'_>; 6] = [
        (CHAR, BinaryOp::Mul, CHAR, false, Some(SIGNED)),
        (SIGNED, BinaryOp::Add, UNSIGNED, false, Some(UNSIGNED)),
        (UNSIGNED, BinaryOp::Or, WIDE, false, Some(WIDE)),
        (CHAR, BinaryOp::Shl, WIDE, false, Some(SIGNED)),
        (WIDE, BinaryOp::Less, UNSIGNED, false, Some(SIGNED)),
        (STRUCT, BinaryOp::Add, SIGNED, false, None),
    ];
    for row in rows.iter() {
        gives(&rt, *row);
    }
}

#[test]
fn types_of_pointers(rt: HostRuntime) {
    let rows: [TypeRow<'_>; 12] = [
        (TO_INT, BinaryOp::Add, CHAR, false, Some(TO_INT)),
        (CHAR, BinaryOp::Add, INTS, false, Some(TO_INT)),
        (TO_INT, BinaryOp::Add, TO_INT, false, None),
        (INTS, BinaryOp::Sub, TO_INT, false, Some(WIDE)),
        (SIGNED, BinaryOp::Sub, TO_INT, false, None),
        (TO_INT, BinaryOp::Sub, TO_CHAR, false, None),
        (TO_INT, BinaryOp::Less, INTS, false, Some(SIGNED)),
        (NULL, BinaryOp::Less, NULL, true, None),
        (TO_INT, BinaryOp::Equal, NULL, true, Some(SIGNED)),
        (TO_INT, BinaryOp::Equal, SIGNED, true, Some(SIGNED)),
        (TO_INT, BinaryOp::Unequal, SIGNED, false, None),
        (TO_INT, BinaryOp::Unequal, TO_CHAR, false, None),
    ];
    for row in rows.iter() {
        gives(&rt, *row);
    }
}
