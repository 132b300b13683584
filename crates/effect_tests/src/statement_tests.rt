//! What the statements of worked programs use, define and kill, and the variables whose addresses are taken.
ghost use Rattle.std.specs.Prelude.{◌≡◌, length};
ghost use Rattle.bit_rows.specs.Tables.{IsSized};
ghost use Rattle.c_language.specs.Programs.{IsWellFormed};
ghost use Rattle.dep_model.specs.LocationRows.{HasPointsRows};
ghost use Rattle.dep_model.specs.Locations.{locations};

use crate::programs::{ADD, INTEGERS, LIST, OVERWRITTEN, PARTS, READS, UPWARD};
use crate::reading::{Placed, Pointing, SHORT, is_word, points_to, read, statements_of};
use bit_rows::Rows;
use c_tree::Program;
use dep_model::{Locations, PointsTo};
use effect_rows::LocationEffects;
use std::process::Abort;

/// A statement by the line at which it begins, and the locations that it uses, defines and kills: of each row the word,
/// which has bit `k` for the location at place `k`.
type Row = (u32, u64, u64, u64);

const INPUT: u64 = 1;

/// Rows 0, 1 and 2 are what the statement uses, defines and kills.
fn rows_of<'p, R: Abort + AllocGlobal>(
    rt: &R,
    effects: &mut LocationEffects<'p>,
    points: &PointsTo,
    count: u32,
    placed: &Placed<'_>,
) -> Rows
    requires points_are { HasPointsRows effects.old points.now }
    requires count_is { count ≡ length (locations effects.old) }
    ensures size { IsSized 3 count result }
    ensures kept { effects.new ≡ effects.old }
{
    let mut rows = Rows::new(rt.alloc(), 3, count).expect(rt, "memory");
    effects.add_uses(points, placed.statement, &mut rows, 0);
    effects.add_defines(points, placed.function, placed.statement, &mut rows, 1);
    effects.add_kills(points, placed.function, placed.statement, &mut rows, 2);
    rows
}

/// The statements of the program do what the table says.
fn do_so<'p, R: Abort + AllocGlobal>(
    rt: &R,
    effects: &mut LocationEffects<'p>,
    points: &PointsTo,
    count: u32,
    statements: &[Placed<'_>],
    table: &[Row],
)
    requires points_are { HasPointsRows effects.old points.now }
    requires count_is { count ≡ length (locations effects.old) }
{
    assert_eq!(rt; statements.len(), table.len());
    for (placed, (line, uses, defines, kills)) in statements.iter().zip(table) {
        assert_eq!(rt; placed.line, *line);
        let rows = rows_of(rt, effects, points, count, placed);
        is_word(rt, &rows, 0, *uses, *line);
        is_word(rt, &rows, 1, *defines, *line);
        is_word(rt, &rows, 2, *kills, *line);
    }
}

/// The variables whose addresses are taken are those of the table.
fn are_taken<'p, R: Abort>(rt: &R, effects: &LocationEffects<'p>, wanted: &[bool]) {
    let mut x = 0u32;
    for is_taken in wanted {
        assert_eq!(rt; effects.is_taken(x), *is_taken, "variable {x}");
        x = x.wrapping_add(1);
    }
}

fn program_does<R: Abort + AllocGlobal>(
    rt: &R,
    p: &Program,
    points: &[Pointing],
    taken: &[bool],
    table: &[Row],
)
    requires { IsWellFormed p.now }
{
    assert!(rt; p.functions.len() <= SHORT);
    let list = Locations::of(rt.alloc(), p).expect(rt, "few locations");
    let mut effects = LocationEffects::new(rt.alloc(), p, &list).expect(rt, "memory");
    assert_eq!(rt; p.vars.len(), taken.len());
    are_taken(rt, &effects, taken);
    let points = points_to(rt, list.len(), points);
    let statements = statements_of(rt.alloc(), p).expect(rt, "memory");
    do_so(
        rt,
        &mut effects,
        &points,
        list.len(),
        statements.as_slice(),
        table,
    );
}

/// Where the locations of a text's program may point so, the addresses of these of its variables are taken, and its
/// statements do what the table says.
fn text_does<R: Abort + AllocGlobal>(
    rt: &R,
    text: &str,
    points: &[Pointing],
    taken: &[bool],
    table: &[Row],
) {
    let p = read(rt, text);
    program_does(rt, &p, points, taken, table);
}

// The locations are the input, `g`, `a`, `x` and main's result.
#[test]
fn overwritten_parameter(rt: HostRuntime) {
    let (g, a, x) = (1 << 1, 1 << 2, 1 << 3);
    let table = [
        (4, 0, a, a),
        (5, a, g, g),
        (8, 0, x, x),
        (9, x, 0, 0),
        (10, g, 0, 0),
    ];
    text_does(&rt, OVERWRITTEN, &[], &[false, false, false], &table);
}

// The locations are the input, `a`, `b`, `c` and main's result.
#[test]
fn reads_go_on(rt: HostRuntime) {
    let (a, b, c) = (1 << 1, 1 << 2, 1 << 3);
    let table = [
        (3, INPUT, INPUT | a, INPUT | a),
        (4, INPUT, INPUT | b, INPUT | b),
        (5, INPUT, INPUT | c, INPUT | c),
        (6, a, 0, 0),
        (7, c, 0, 0),
    ];
    text_does(&rt, READS, &[], &[false, false, false], &table);
}

// The locations are the input, the five variables, and the results of `add`, `increment` and main.
#[test]
fn calls_and_results(rt: HostRuntime) {
    let (a, b, z, sum, i) = (1 << 1, 1 << 2, 1 << 3, 1 << 4, 1 << 5);
    let (of_add, of_increment) = (1 << 6, 1 << 7);
    let table = [
        (3, a | b, of_add, of_add),
        (6, z, z, z),
        (7, z, of_increment, of_increment),
        (10, 0, sum, sum),
        (11, 0, i, i),
        (12, i, 0, 0),
        (13, sum | i, sum, sum),
        (14, i, i, i),
        (16, sum, 0, 0),
        (17, i, 0, 0),
    ];
    text_does(&rt, ADD, &[], &[false, false, false, false, false], &table);
}

// The locations are the input, the five variables, the blocks of line 12 with their members, and main's result.
#[test]
fn list_of_blocks(rt: HostRuntime) {
    let (head, n, c, sum, len) = (1 << 1, 1 << 2, 1 << 3, 1 << 4, 1 << 5);
    let (block, val, next, result) = (1 << 6, 1 << 7, 1 << 8, 1 << 9);
    let points = [(head, block), (n, block), (next, block)];
    let table = [
        (8, 0, head, head),
        (10, INPUT, INPUT | c, INPUT | c),
        (11, c, 0, 0),
        (12, 0, n, n),
        (13, n | c, val, 0),
        (14, n | head, next, 0),
        (15, n, head, head),
        (16, INPUT, INPUT | c, INPUT | c),
        (18, 0, sum, sum),
        (19, 0, len, len),
        (20, n, 0, 0),
        (20, head, n, n),
        (20, n | next, n, n),
        (21, sum | n | val, sum, sum),
        (22, len, len, len),
        (24, sum, 0, 0),
        (25, len, 0, 0),
        (26, 0, result, result),
    ];
    text_does(
        &rt,
        LIST,
        &points,
        &[false, false, false, false, false],
        &table,
    );
}

// The locations are the input, the variables, and the results of `f` and main. Of `x` there is one object for each call.
#[test]
fn object_of_a_call_before(rt: HostRuntime) {
    let (k, up, r, x, t, of_f) = (1 << 1, 1 << 2, 1 << 3, 1 << 4, 1 << 5, 1 << 6);
    let table = [
        (3, 0, r, r),
        (4, up, 0, 0),
        (5, up, x, 0),
        (7, k, x, 0),
        (8, k, 0, 0),
        (9, k, r, r),
        (10, x, r, r),
        (12, r, of_f, of_f),
        (15, 0, t, t),
        (16, t, 0, 0),
    ];
    let taken = [false, false, false, true, false];
    text_does(&rt, UPWARD, &[(up, x)], &taken, &table);
}

// The locations are the input, `g`, `i`, `a` with its elements, `b` with its elements, `p`, `q` with its members,
// `s` with its members, `t`, `h` and main's result.
#[test]
fn parts_of_objects(rt: HostRuntime) {
    let (g, i, in_a, in_b, p) = (1 << 1, 1 << 2, 1 << 4, 1 << 6, 1 << 7);
    let (q_left, s, s_left, s_right) = (1 << 9, 1 << 11, 1 << 12, 1 << 13);
    let (t, h) = (1 << 14, 1 << 15);
    let table = [
        (7, 0, i, i),
        (8, i, in_a, in_a),
        // The address of `b` is taken where it turns into a pointer.
        (9, 0, in_b, 0),
        (10, 0, p, p),
        (13, 0, t, t),
        (14, 0, h, h),
        // One element of several.
        (15, i, in_a, 0),
        (16, i | in_a, in_a, 0),
        // A name in parentheses kills nothing.
        (17, 0, i, 0),
        (18, i | in_a, i, i),
        (19, i, i, i),
        (20, p | i | in_b, in_b, 0),
        (21, p | in_b, q_left, q_left),
        // The address of `s` is taken.
        (22, q_left, s_right, 0),
        (23, t | s_right, s_left, 0),
        // A global has one object, though its address is taken.
        (24, h | g, g, g),
        (25, q_left, q_left, 0),
    ];
    // Of `g`, `b` and `s`.
    let taken = [true, false, false, true, false, false, true, false, false];
    text_does(&rt, PARTS, &[(p, in_b), (t, s), (h, g)], &taken, &table);
}

// The locations are the input, `i`, `s` and main's result.
#[test]
fn integers_alone(rt: HostRuntime) {
    let (i, s, result) = (1 << 1, 1 << 2, 1 << 3);
    let table = [
        (3, 0, i, i),
        (4, i, s, s),
        // A name in parentheses kills nothing.
        (5, i | s, s, 0),
        (6, i, 0, 0),
        (7, s | i, s, s),
        (8, i, i, i),
        (10, s, result, result),
    ];
    text_does(&rt, INTEGERS, &[], &[false, false], &table);
}
