//! What each act makes (ISO C99 6.5.16, 6.7.8, 6.8.6.4, 7.19, 7.20).
ghost use Rattle.std.specs.Prelude.{◌≡◌, Some, map, option_map, option_and_then, IfOk};
ghost use Rattle.std.specs.Option.{option_copied};
ghost use Rattle.c_tree.specs.declared.statement.Statement.{out-Statement};
ghost use Rattle.c_language.specs.ExprTypes as types;
ghost use Rattle.c_language.specs.TreeTypes.{shape_of, type_of_variable};
ghost use Rattle.c_meaning.specs.Acts as spec;
ghost use Rattle.c_language.specs.Code.{Sets, Bumps, Fetches, Writes, Prints, Allocates, Frees};
ghost use Rattle.c_meaning.specs.Values as values;
ghost use Rattle.c_memory.specs.Lists.{items_of};
ghost use Rattle.c_memory.specs.Scenes.{types_in, state_in};
ghost use Rattle.c_acts.specs.Makings.{own_act, made_in, seen, types_for, made_by, list_shown, list_made};

use crate::formats::{Printed, as_byte, print};
use crate::makings::{Change, Made, Request, Stores, showing, shown_of};
use c_arith::{BinaryOp, IntType, convert};
use c_language::ExprType;
use c_meaning::{Place, Pointer, Shown, Value};
use c_memory::{
    Scene, as_type, binary_of, binary_value, converted, elements, listed_values, object_of, place,
    tested, value,
};
use c_tree::{Amount, CType, Expr, Init, Items, Statement, Target, VarId};
use c_types_base::expr_type::{integer, target_of};
use std::alloc::{AllocError, Global};
use tree_types::{declared_type, expr_type, variable_type};

/// What the act of a statement makes in a function that returns this type, with this input left; None where it is
/// undefined. A test and a call of a function make nothing here. Err: no memory was left, or an index or the length of
/// an array has more than 32 bits.
pub fn made(
    statement: &Statement,
    s: Scene,
    unread: &[u8],
    returns: Option<&CType>,
) -> Result<Option<Made>, AllocError>
    ensures { IfOk result (λ o. option_map made_in o ≡ option_map seen (made_by (types_for s.entry.program.now (option_copied returns.entry)) unread.now (state_in s.entry) (own_act (out-Statement statement.now)))) }
{
    match statement {
        Statement::Declare { var, init, .. } => begun(*var, init, s),
        Statement::Assign {
            left,
            op,
            right,
            ..
        } => assigned(left, *op, right, s),
        Statement::Bump { left, up, .. } => bumped(left, *up, s),
        Statement::Fetch { target, .. } => fetched(target, unread, s),
        Statement::Write { value, .. } => written(value, s),
        Statement::Print { format, args, .. } => printed(format.bytes(), args.as_slice(), s),
        Statement::Heap { target, amount, .. } => allocated(target, amount, s),
        Statement::Release { value, .. } => freed(value, s),
        Statement::Return { value, .. } => returned(value, returns, s),
        Statement::Invoke { .. } => Ok(None),
        Statement::If { .. } => Ok(None),
        Statement::While { .. } => Ok(None),
        Statement::Do { .. } => Ok(None),
        Statement::For { .. } => Ok(None),
        Statement::Switch { .. } => Ok(None),
        Statement::Block { .. } => Ok(None),
    }
}

/// The value of a test; None where it is undefined.
pub fn test_value(e: &Expr, s: Scene) -> Result<Option<i128>, AllocError>
    ensures { IfOk result (λ o. o ≡ option_map values.tested (values.eval (types_in s.entry) e.now (state_in s.entry))) }
{
    match value(e, s)? {
        Some(given) => Ok(Some(tested(&given))),
        None => Ok(None),
    }
}

/// What a target makes of a value; None where that is undefined. Without a target the value is only shown.
pub fn given(to: &Target, v: Value, s: Scene) -> Result<Option<Made>, AllocError>
    ensures { IfOk result (λ o. option_map made_in o ≡ option_map seen (spec.given (types_in s.entry) to.now v (state_in s.entry))) }
{
    match to {
        Target::None => {
            let made = showing(s.alloc, shown_of(&v), Change::none())?;
            Ok(Some(made))
        }
        Target::Place(e) => set(e, Some(v), s),
        Target::Declared(x) => begun_by(*x, Some(v), s),
    }
}

/// What several expressions give, from left to right; None where one is undefined.
pub fn values_of(args: &[Expr], s: Scene) -> Result<Option<Vec<Value>>, AllocError>
    ensures { IfOk result (λ o. option_map items_of o ≡ values.eval_all (types_in s.entry) args.now (state_in s.entry)) }
{
    let mut values = Vec::new(s.alloc);
    for arg in args {
        match value(arg, s)? {
            Some(v) => values.push(v)?,
            None => return Ok(None),
        }
    }
    Ok(Some(values))
}

// ---- assignments

// A place where it can be written.
fn writable(s: Scene, place: Option<Place>) -> Option<Place>
    ensures { result ≡ spec.writable (state_in s.entry) place }
{
    match place {
        Some(at) => {
            if s.memory.has_cell(&at) {
                Some(at)
            } else {
                None
            }
        }
        None => None,
    }
}

// The store of a value, as the type has it, at a place.
fn storing(
    shape: &ExprType,
    at: Option<Place>,
    given: Option<Value>,
    alloc: Global,
) -> Result<Option<Made>, AllocError>
    ensures { IfOk result (λ o. option_map made_in o ≡ option_map seen (spec.assigned shape.now at given)) }
{
    match at {
        Some(place) => match converted(shape, given) {
            Some(v) => {
                let shown = shown_of(&v);
                let made = showing(alloc, shown, Change::store(place, v))?;
                Ok(Some(made))
            }
            None => Ok(None),
        },
        None => Ok(None),
    }
}

// A value goes to the object that a left side designates.
fn set(left: &Expr, given: Option<Value>, s: Scene) -> Result<Option<Made>, AllocError>
    ensures { IfOk result (λ o. option_map made_in o ≡ option_map seen (spec.set_by (types_in s.entry) left.now given (state_in s.entry))) }
{
    let at = writable(s, place(left, s)?);
    let shape = expr_type(s.alloc, s.program, left)?;
    storing(&shape, at, given, s.alloc)
}

// A variable begins with a value.
fn begun_by(x: VarId, given: Option<Value>, s: Scene) -> Result<Option<Made>, AllocError>
    ensures { IfOk result (λ o. option_map made_in o ≡ option_map seen (spec.begun_by (types_in s.entry) x given (state_in s.entry))) }
{
    let at = writable(s, object_of(s, x));
    let shape = variable_type(s.alloc, s.program, x)?;
    storing(&shape, at, given, s.alloc)
}

// What is assigned: the right side, or what the operator gives at both.
fn right_of(
    op: Option<BinaryOp>,
    left: &Expr,
    right: &Expr,
    s: Scene,
) -> Result<Option<Value>, AllocError>
    ensures { IfOk result (λ o. o ≡ spec.right_of (types_in s.entry) op left.now right.now (state_in s.entry)) }
{
    match op {
        None => value(right, s),
        Some(op) => {
            let first = value(left, s)?;
            let second = value(right, s)?;
            binary_of(op, s, left, right, first, second)
        }
    }
}

// An assignment.
fn assigned(
    left: &Expr,
    op: Option<BinaryOp>,
    right: &Expr,
    s: Scene,
) -> Result<Option<Made>, AllocError>
    ensures { IfOk result (λ o. option_map made_in o ≡ option_map seen (spec.made (types_in s.entry) (Sets left.now op right.now) (state_in s.entry))) }
{
    let given = right_of(op, left, right, s)?;
    set(left, given, s)
}

// `++` adds 1, and `--` takes it away.
fn bumped(left: &Expr, up: bool, s: Scene) -> Result<Option<Made>, AllocError>
    ensures { IfOk result (λ o. option_map made_in o ≡ option_map seen (spec.made (types_in s.entry) (Bumps left.now up) (state_in s.entry))) }
{
    let given = next_value(left, up, s)?;
    set(left, given, s)
}

fn next_value(left: &Expr, up: bool, s: Scene) -> Result<Option<Value>, AllocError>
    ensures { IfOk result (λ o. o ≡ spec.bumped (types_in s.entry) left.now up (state_in s.entry)) }
{
    let op = bump(up);
    let shape = expr_type(s.alloc, s.program, left)?;
    let one = integer(s.alloc, IntType::Int);
    let old = value(left, s)?;
    binary_value(
        s.alloc,
        op,
        &shape,
        &one,
        s.memory,
        &old,
        &Some(Value::Number(1)),
    )
}

fn bump(up: bool) -> BinaryOp
    ensures { result ≡ spec.bump up }
{
    if up { BinaryOp::Add } else { BinaryOp::Sub }
}

// ---- declarations

// What a declaration makes.
fn begun(x: VarId, init: &Init, s: Scene) -> Result<Option<Made>, AllocError>
    ensures { IfOk result (λ o. option_map made_in o ≡ option_map seen (spec.begun_with (types_in s.entry) x init.now (state_in s.entry))) }
{
    match init {
        Init::None => Ok(None),
        Init::One(e) => {
            let given = value(e, s)?;
            begun_by(x, given, s)
        }
        Init::Items(items) => listed(x, items.as_slice(), s),
    }
}

// What a list makes of the array that a variable is.
fn listed(x: VarId, items: &[Expr], s: Scene) -> Result<Option<Made>, AllocError>
    ensures { IfOk result (λ o. option_map made_in o ≡ option_map seen (spec.listed (type_of_variable s.entry.program.now x) (state_in s.entry) (values.variable_place x (state_in s.entry)) (values.eval_all (types_in s.entry) items.now (state_in s.entry)))) }
{
    let shape = variable_type(s.alloc, s.program, x)?;
    match elements(s.alloc, &shape)? {
        Some((length, element)) => match object_of(s, x) {
            Some(place) => list_in(place.block, length, element, items, s),
            None => Ok(None),
        },
        None => Ok(None),
    }
}

// What a list makes of the array that a block is.
fn list_in(
    block: u64,
    length: u64,
    element: ExprType,
    items: &[Expr],
    s: Scene,
) -> Result<Option<Made>, AllocError>
    ensures { IfOk result (λ o. option_map made_in o ≡ option_map seen (option_and_then (list_made s.entry.memory.now block length element) (values.eval_all (types_in s.entry) items.now (state_in s.entry)))) }
{
    match listed_values(items, &element, s)? {
        Some(values) => {
            if s.memory
                .can_store_list(s.alloc, block, length, &element, values.as_slice())?
            {
                let made = storing_list(block, length, element, values, s.alloc)?;
                Ok(Some(made))
            } else {
                Ok(None)
            }
        }
        None => Ok(None),
    }
}

fn storing_list(
    block: u64,
    length: u64,
    element: ExprType,
    items: Vec<Value>,
    alloc: Global,
) -> Result<Made, AllocError>
    ensures { IfOk result (λ m. made_in m ≡ seen (list_shown block length element items.items)) }
{
    let values = shown_all(items.as_slice(), alloc)?;
    Ok(Made {
        values,
        output: Vec::new(alloc),
        change: Change {
            stores: Stores::List(block, length, element, items),
            takes: false,
            begun: None,
            freed: None,
            returned: None,
        },
    })
}

// Values as an event shows them.
fn shown_all(list: &[Value], alloc: Global) -> Result<Items<Shown>, AllocError>
    ensures { IfOk result (λ all. all ≡ map values.shown_of list.now) }
{
    let mut shown = Items::new(alloc);
    for v in list {
        shown.push(shown_of(v))?;
    }
    Ok(shown)
}

// ---- calls of the library

// The next byte of the input, and -1 behind the last.
fn next_byte(unread: &[u8]) -> i128
    ensures { result ≡ spec.next_byte unread.now }
{
    match unread.first() {
        Some(byte) => *byte as i128,
        None => -1,
    }
}

// A call of getchar.
fn fetched(to: &Target, unread: &[u8], s: Scene) -> Result<Option<Made>, AllocError>
    ensures { IfOk result (λ o. option_map made_in o ≡ option_map seen (made_by (types_in s.entry) unread.now (state_in s.entry) (Some (Fetches to.now)))) }
{
    match given(to, Value::Number(next_byte(unread)), s)? {
        Some(made) => Ok(Some(taking(made))),
        None => Ok(None),
    }
}

// The same, and a byte is taken from the input.
fn taking(made: Made) -> Made
    ensures { made_in result ≡ record (made_in made) { taken = 1 } }
{
    let mut made = made;
    made.change.takes = true;
    made
}

// A call of putchar.
fn written(e: &Expr, s: Scene) -> Result<Option<Made>, AllocError>
    ensures { IfOk result (λ o. option_map made_in o ≡ option_map seen (spec.made (types_in s.entry) (Writes e.now) (state_in s.entry))) }
{
    match value(e, s)? {
        Some(v) => {
            let byte = convert(tested(&v), IntType::UChar);
            let mut made = showing(s.alloc, Shown::Number(byte), Change::none())?;
            made.output = as_byte(s.alloc, byte)?;
            Ok(Some(made))
        }
        None => Ok(None),
    }
}

// A call of printf.
fn printed(format: &[u8], args: &[Expr], s: Scene) -> Result<Option<Made>, AllocError>
    ensures { IfOk result (λ o. option_map made_in o ≡ option_map seen (spec.made (types_in s.entry) (Prints format.now args.now) (state_in s.entry))) }
{
    match values_of(args, s)? {
        Some(values) => {
            let Printed { values, output } = print(s.alloc, format, values.as_slice())?;
            Ok(Some(Made {
                values,
                output,
                change: Change::none(),
            }))
        }
        None => Ok(None),
    }
}

// The number that an expression gives.
fn number_of(e: &Expr, s: Scene) -> Result<Option<i128>, AllocError>
    ensures { IfOk result (λ o. o ≡ option_and_then values.number_in (values.eval (types_in s.entry) e.now (state_in s.entry))) }
{
    match value(e, s)? {
        Some(Value::Number(number)) => Ok(Some(number)),
        Some(Value::Null) => Ok(None),
        Some(Value::To(_)) => Ok(None),
        None => Ok(None),
    }
}

// How many objects malloc is asked for.
fn asked_count(amount: &Amount, s: Scene) -> Result<Option<i128>, AllocError>
    ensures { IfOk result (λ o. o ≡ spec.asked_count (types_in s.entry) amount.now (state_in s.entry)) }
{
    match amount {
        Amount::Size(_) => Ok(Some(1)),
        Amount::CountSize(e, _) => number_of(e, s),
        Amount::SizeCount(_, e) => number_of(e, s),
        Amount::Count(e) => number_of(e, s),
    }
}

// A count that malloc gives, from 1 to 1,048,576.
fn granted(count: Option<i128>) -> Option<u32>
    ensures { result ≡ option_and_then spec.granted count }
{
    match count {
        Some(number) => {
            if number >= 1 && number <= 1_048_576 {
                Some(number as u32)
            } else {
                None
            }
        }
        None => None,
    }
}

// The type of what a target points to.
fn pointed_type(to: &Target, s: Scene) -> Result<Option<ExprType>, AllocError>
    ensures { IfOk result (λ o. o ≡ option_and_then types.target_of (spec.target_type (types_in s.entry) to.now)) }
{
    match to {
        Target::None => Ok(None),
        Target::Place(e) => {
            let shape = expr_type(s.alloc, s.program, e)?;
            Ok(target_of(shape))
        }
        Target::Declared(x) => {
            let shape = variable_type(s.alloc, s.program, *x)?;
            Ok(target_of(shape))
        }
    }
}

// The pointer to the first object of the block that begins next.
fn next_block(s: Scene) -> Value
    ensures { result ≡ spec.next_block (state_in s.entry) }
{
    Value::To(Pointer {
        block: s.memory.block_count(),
        path: Items::new(s.alloc),
        index: 0,
    })
}

// A call of malloc.
fn allocated(to: &Target, amount: &Amount, s: Scene) -> Result<Option<Made>, AllocError>
    ensures { IfOk result (λ o. option_map made_in o ≡ option_map seen (spec.made (types_in s.entry) (Allocates to.now amount.now) (state_in s.entry))) }
{
    match pointed_type(to, s)? {
        Some(shape) => match granted(asked_count(amount, s)?) {
            Some(count) => match given(to, next_block(s), s)? {
                Some(made) => Ok(Some(beginning(shape, count, made))),
                None => Ok(None),
            },
            None => Ok(None),
        },
        None => Ok(None),
    }
}

// The same, and a block begins.
fn beginning(shape: ExprType, count: u32, made: Made) -> Made
    ensures { made_in result ≡ record (made_in made) { begun = Some (record { shape = shape; count = count }) } }
{
    let mut made = made;
    made.change.begun = Some(Request { shape, count });
    made
}

// A call of free.
fn freed(e: &Expr, s: Scene) -> Result<Option<Made>, AllocError>
    ensures { IfOk result (λ o. option_map made_in o ≡ option_map seen (spec.made (types_in s.entry) (Frees e.now) (state_in s.entry))) }
{
    match value(e, s)? {
        Some(v) => freed_at(v, s),
        None => Ok(None),
    }
}

fn freed_at(v: Value, s: Scene) -> Result<Option<Made>, AllocError>
    ensures { IfOk result (λ o. option_map made_in o ≡ option_map seen (spec.freed_at s.entry.memory.now v)) }
{
    match v {
        Value::Number(_) => Ok(None),
        Value::Null => {
            let made = showing(s.alloc, Shown::Null, Change::none())?;
            Ok(Some(made))
        }
        Value::To(at) => {
            if s.memory.can_free(&at) {
                let mut made = showing(s.alloc, Shown::Index(at.index), Change::none())?;
                made.change.freed = Some(at.block);
                Ok(Some(made))
            } else {
                Ok(None)
            }
        }
    }
}

// ---- returns

// A value as the result of a function has it.
fn as_result(
    v: Option<Value>,
    returns: Option<&CType>,
    alloc: Global,
) -> Result<Option<Value>, AllocError>
    ensures { IfOk result (λ o. o ≡ option_and_then (spec.as_result (option_map shape_of (option_copied returns.entry))) v) }
{
    match returns {
        Some(shape) => {
            let to = declared_type(alloc, shape)?;
            Ok(converted(&to, v))
        }
        None => Ok(v),
    }
}

// A return from a function.
fn returned(
    given: &Option<Expr>,
    returns: Option<&CType>,
    s: Scene,
) -> Result<Option<Made>, AllocError>
    ensures { IfOk result (λ o. option_map made_in o ≡ option_map seen (spec.shown_result (types_for s.entry.program.now (option_copied returns.entry)) given.now (state_in s.entry))) }
{
    match given {
        None => Ok(Some(Made {
            values: Items::new(s.alloc),
            output: Vec::new(s.alloc),
            change: Change::none(),
        })),
        Some(e) => match as_result(value(e, s)?, returns, s.alloc)? {
            Some(v) => {
                let mut made = showing(s.alloc, shown_of(&v), Change::none())?;
                made.change.returned = Some(v);
                Ok(Some(made))
            }
            None => Ok(None),
        },
    }
}
