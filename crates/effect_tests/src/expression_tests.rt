//! What the sides of assignments may be, read and point to, and what is read to find where a call's value goes.
ghost use Rattle.std.specs.Prelude.{◌≡◌, length};
ghost use Rattle.bit_rows.specs.Tables.{IsSized};
ghost use Rattle.c_language.specs.Programs.{IsWellFormed};
ghost use Rattle.dep_model.specs.LocationRows.{HasPointsRows};
ghost use Rattle.dep_model.specs.Locations.{locations};

use crate::reading::{Placed, Pointing, SHORT, is_word, points_to, read, statements_of};
use bit_rows::Rows;
use c_tree::{Init, Program, Statement};
use dep_model::{Locations, PointsTo};
use effect_rows::LocationEffects;
use std::process::Abort;

/// A statement by the line at which it begins: of an assignment the locations that its left side may be, those that are
/// read to find it, those that are read for its right side, and those to which that may point. A declaration has a right
/// side alone, and of a call stands what is read to find where its value goes. Of each row this is the word, with bit `k`
/// for the location at place `k`.
type Row = (u32, u64, u64, u64, u64);

const SIDES: &str = "struct pair {
    int left;
    struct pair *other;
};
int same(int k) {
    return k;
}
int main(void) {
    int i = 0;
    int a[2];
    struct pair s;
    struct pair *t = &s;
    int *p;
    p = a;
    p = &a[i];
    p = p + i;
    *p = a[0];
    a[i] = same(1);
    t->other = t;
    t = t->other;
    t->left = same(2);
}
";

/// Row 0 is what the left side may be, row 1 what is read to find it, row 2 what is read for the right side, and row 3
/// where that may point.
fn rows_of<'p, R: Abort + AllocGlobal>(
    rt: &R,
    effects: &mut LocationEffects<'p>,
    points: &PointsTo,
    count: u32,
    statement: &Statement,
) -> Rows
    requires points_are { HasPointsRows effects.old points.now }
    requires count_is { count ≡ length (locations effects.old) }
    ensures size { IsSized 4 count result }
    ensures kept { effects.new ≡ effects.old }
{
    let mut rows = Rows::new(rt.alloc(), 4, count).expect(rt, "memory");
    match statement {
        Statement::Assign { left, right, .. } => {
            effects.add_places(points, left, &mut rows, 0);
            effects.add_left_reads(points, left, &mut rows, 1);
            effects.add_reads(points, right, &mut rows, 2);
            effects.add_points(points, right, &mut rows, 3);
        }
        Statement::Declare {
            init: Init::One(right),
            ..
        } => {
            effects.add_reads(points, right, &mut rows, 2);
            effects.add_points(points, right, &mut rows, 3);
        }
        Statement::Invoke { target, .. } => {
            effects.add_target_reads(points, target, &mut rows, 1);
        }
        _ => {}
    }
    rows
}

/// The statements of the program have these rows.
fn have_rows<'p, R: Abort + AllocGlobal>(
    rt: &R,
    effects: &mut LocationEffects<'p>,
    points: &PointsTo,
    count: u32,
    statements: &[Placed<'_>],
    table: &[Row],
)
    requires points_are { HasPointsRows effects.old points.now }
    requires count_is { count ≡ length (locations effects.old) }
{
    assert_eq!(rt; statements.len(), table.len());
    for (placed, (line, places, found, reads, pointed)) in statements.iter().zip(table) {
        assert_eq!(rt; placed.line, *line);
        let rows = rows_of(rt, effects, points, count, placed.statement);
        is_word(rt, &rows, 0, *places, *line);
        is_word(rt, &rows, 1, *found, *line);
        is_word(rt, &rows, 2, *reads, *line);
        is_word(rt, &rows, 3, *pointed, *line);
    }
}

fn program_has<R: Abort + AllocGlobal>(rt: &R, p: &Program, points: &[Pointing], table: &[Row])
    requires { IsWellFormed p.now }
{
    assert!(rt; p.functions.len() <= SHORT);
    let list = Locations::of(rt.alloc(), p).expect(rt, "few locations");
    let mut effects = LocationEffects::new(rt.alloc(), p, &list).expect(rt, "memory");
    let points = points_to(rt, list.len(), points);
    let statements = statements_of(rt.alloc(), p).expect(rt, "memory");
    have_rows(
        rt,
        &mut effects,
        &points,
        list.len(),
        statements.as_slice(),
        table,
    );
}

// The locations are the input, `k`, `i`, `a` with its elements, `s` with its members, `t`, `p`, and the results of `same`
// and main.
#[test]
fn sides_of_assignments(rt: HostRuntime) {
    let (i, in_a, s, other) = (1 << 2, 1 << 4, 1 << 5, 1 << 7);
    let (t, p) = (1 << 8, 1 << 9);
    let table = [
        (6, 0, 0, 0, 0),
        (9, 0, 0, 0, 0),
        (12, 0, 0, 0, s),
        // An array isn't read, and points to its elements.
        (14, p, 0, 0, in_a),
        (15, p, 0, i, in_a),
        (16, p, 0, p | i, in_a),
        (17, in_a, p, in_a, 0),
        (18, 0, i, 0, 0),
        (19, other, t, t, s),
        (20, t, 0, t | other, s),
        (21, 0, t, 0, 0),
    ];
    let program = read(&rt, SIDES);
    program_has(&rt, &program, &[(p, in_a), (t, s), (other, s)], &table);
}
