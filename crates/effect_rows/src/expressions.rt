//! What an expression reads, which locations its object may be, and where its value may point.
ghost use Rattle.std.specs.Prelude.{◌≡◌, ◌<◌, ◌&&◌, length};
ghost use Rattle.bit_rows.specs.Tables.{IsSized};
ghost use Rattle.c_tree.specs.declared.program.Program.{Program};
ghost use Rattle.c_language.specs.ExprTypes as types;
ghost use Rattle.c_language.specs.TreeTypes.{tree_type};
ghost use Rattle.dep_model.specs.Designated as form;
ghost use Rattle.dep_model.specs.Designated.{designated};
ghost use Rattle.dep_model.specs.Denoted.{TargetsOf, Denoted, denoted, value_points, expr_reads, expr_places, left_reads};
ghost use Rattle.dep_model.specs.Locations.{locations};
ghost use Rattle.effect_rows.specs.Gains.{with_places};
ghost use Rattle.effect_rows.specs.Named.{named, named_by};
ghost use Rattle.effect_rows.specs.Pointed.{points_in};
ghost use Rattle.effect_rows.specs.SeenTypes.{type_seen};
ghost use Rattle.effect_rows.specs.Steps.{taken};

use crate::pointed::Pointed;
use crate::seen_types::{SeenType, is_array, is_pointer, is_scalar, type_of};
use crate::steps::{Step, Steps};
use bit_rows::Rows;
use c_tree::{Expr, Program};
use dep_model::Part;

/// Whether an expression designates an object.
#[tactic(auto, using(crate::proofs::Rules::denoted_forms))]
pub(crate) fn is_place(e: &Expr) -> bool
    ensures { (p : Program) (points : TargetsOf) → result ≡ (denoted p points e.now).form.is_place }
{
    match e {
        Expr::Variable(_) | Expr::Deref(_) | Expr::Index(_, _) | Expr::Arrow(_, _) => true,
        Expr::Member(a, _) | Expr::Paren(a) => is_place(a.get()),
        Expr::Constant(_, _, _)
        | Expr::Null
        | Expr::Eof
        | Expr::Unary(_, _)
        | Expr::AddressOf(_)
        | Expr::Binary(_, _, _)
        | Expr::AndAlso(_, _)
        | Expr::OrElse(_, _)
        | Expr::Choose(_, _, _)
        | Expr::Cast(_, _) => false,
    }
}

/// The steps from what an expression names to where its value may point, and then the others.
pub(crate) fn value_steps<'a>(is_place: bool, seen: SeenType<'_>, then: &'a Steps<'a>) -> Steps<'a>
    ensures { (p : Program) (points : TargetsOf) (d : Denoted) → d.form.is_place ≡ is_place → d.form.type ≡ type_seen p seen.entry
        → taken p points result (named_by d) ≡ taken p points then.now (value_points p points d) }
{
    if !is_place {
        return *then;
    }
    if is_array(seen) {
        return Steps::Then(Step::Part(Part::Element), then);
    }
    if is_pointer(seen) {
        Steps::Then(Step::Targets, then)
    } else {
        Steps::Nowhere
    }
}

/// The steps from what an expression names to where its value may point, and then the others.
pub(crate) fn steps_of_value<'a>(
    g: &Pointed<'_, '_, '_>,
    e: &Expr,
    then: &'a Steps<'a>,
) -> Steps<'a>
    ensures { (points : TargetsOf) → taken g.now.program points result (named g.now.program points e.now)
        ≡ taken g.now.program points then.now (value_points g.now.program points (denoted g.now.program points e.now)) }
{
    value_steps(is_place(e), type_of(g.program(), e), then)
}

/// Whether the value of an expression is a pointer, where no array turns into one.
fn points(g: &Pointed<'_, '_, '_>, e: &Expr) -> bool
    ensures { result ≡ types.is_pointer (tree_type g.now.program e.now) }
{
    is_pointer(type_of(g.program(), e))
}

/// Adds the locations to which the steps lead from what an expression names.
#[cycle(named)]
pub(crate) fn add_named(
    g: &Pointed<'_, '_, '_>,
    e: &Expr,
    steps: &Steps<'_>,
    scratch: &mut Rows,
    rows: &mut Rows,
    row: u32,
)
    requires scratch_sized { IsSized 2 (length (locations g.now.program)) scratch.old }
    requires sized { IsSized (length rows.old.sets) (length (locations g.now.program)) rows.old }
    requires row_in { row < length rows.old.sets }
    ensures gained { rows.new ≡ with_places g.now.program row (taken g.now.program (points_in g.now) steps.now (named g.now.program (points_in g.now) e.now)) rows.old }
    ensures size { IsSized (length rows.old.sets) (length (locations g.now.program)) rows.new }
    ensures scratch_size { IsSized 2 (length (locations g.now.program)) scratch.new }
{
    match e {
        Expr::Variable(x) => {
            g.seed(*x, scratch);
            g.follow(steps, scratch, 0, rows, row);
        }
        Expr::Deref(a) => {
            add_value(g, a.get(), &*steps, scratch, rows, row);
        }
        Expr::AddressOf(a) => {
            if is_place(a.get()) {
                add_named(g, a.get(), steps, scratch, rows, row);
            }
        }
        Expr::Binary(_, a, b) => {
            if points(g, e) {
                add_value(g, a.get(), steps, scratch, rows, row);
                add_value(g, b.get(), steps, scratch, rows, row);
            }
        }
        Expr::Choose(_, a, b) => {
            if points(g, e) {
                add_value(g, a.get(), steps, scratch, rows, row);
                add_value(g, b.get(), steps, scratch, rows, row);
            }
        }
        Expr::Index(a, _) => {
            add_value(g, a.get(), &*steps, scratch, rows, row);
        }
        Expr::Member(a, m) => {
            if is_place(a.get()) {
                let inner = Steps::Then(Step::Part(Part::Member(m.index)), &*steps);
                add_named(g, a.get(), &inner, scratch, rows, row);
            }
        }
        Expr::Arrow(a, m) => {
            let part = Steps::Then(Step::Part(Part::Member(m.index)), &*steps);
            add_value(g, a.get(), &part, scratch, rows, row);
        }
        Expr::Paren(a) => add_named(g, a.get(), steps, scratch, rows, row),
        Expr::Constant(_, _, _) => {}
        Expr::Null => {}
        Expr::Eof => {}
        Expr::Unary(_, _) => {}
        Expr::AndAlso(_, _) => {}
        Expr::OrElse(_, _) => {}
        Expr::Cast(_, _) => {}
    }
}

/// Adds the locations to which the steps lead from where the value of an expression may point.
#[cycle(named)]
pub(crate) fn add_value(
    g: &Pointed<'_, '_, '_>,
    e: &Expr,
    steps: &Steps<'_>,
    scratch: &mut Rows,
    rows: &mut Rows,
    row: u32,
)
    requires scratch_sized { IsSized 2 (length (locations g.now.program)) scratch.old }
    requires sized { IsSized (length rows.old.sets) (length (locations g.now.program)) rows.old }
    requires row_in { row < length rows.old.sets }
    ensures gained { rows.new ≡ with_places g.now.program row (taken g.now.program (points_in g.now) steps.now (value_points g.now.program (points_in g.now) (denoted g.now.program (points_in g.now) e.now))) rows.old }
    ensures size { IsSized (length rows.old.sets) (length (locations g.now.program)) rows.new }
    ensures scratch_size { IsSized 2 (length (locations g.now.program)) scratch.new }
{
    let inner = steps_of_value(g, e, &*steps);
    add_named(g, e, &inner, scratch, rows, row);
}

/// Adds the locations that the object of an expression may be, none where it designates none.
pub(crate) fn add_places(
    g: &Pointed<'_, '_, '_>,
    e: &Expr,
    scratch: &mut Rows,
    rows: &mut Rows,
    row: u32,
)
    requires scratch_sized { IsSized 2 (length (locations g.now.program)) scratch.old }
    requires sized { IsSized (length rows.old.sets) (length (locations g.now.program)) rows.old }
    requires row_in { row < length rows.old.sets }
    ensures gained { rows.new ≡ with_places g.now.program row (expr_places g.now.program (points_in g.now) e.now) rows.old }
    ensures size { IsSized (length rows.old.sets) (length (locations g.now.program)) rows.new }
    ensures scratch_size { IsSized 2 (length (locations g.now.program)) scratch.new }
{
    if is_place(e) {
        add_named(g, e, &Steps::Done, scratch, rows, row);
    }
}

/// Whether the object of an expression is read for its value: an array isn't read, nor is a struct.
fn reads_object(g: &Pointed<'_, '_, '_>, e: &Expr) -> bool
    ensures { (points : TargetsOf) → result ≡ ((denoted g.now.program points e.now).form.is_place && types.is_scalar (tree_type g.now.program e.now)) }
{
    is_place(e) && is_scalar(type_of(g.program(), e))
}

/// Whether an expression designates an array.
pub(crate) fn is_array_object(p: &Program, e: &Expr) -> bool
    ensures denoted { (points : TargetsOf) → result ≡ ((denoted p.now points e.now).form.is_place && types.is_array (tree_type p.now e.now)) }
    ensures designated { result ≡ form.is_array_place (designated p.now e.now) }
{
    is_place(e) && is_array(type_of(p, e))
}

/// Whether an expression of the program designates an array.
fn is_array_place(g: &Pointed<'_, '_, '_>, e: &Expr) -> bool
    ensures { (points : TargetsOf) → result ≡ ((denoted g.now.program points e.now).form.is_place && types.is_array (tree_type g.now.program e.now)) }
{
    is_array_object(g.program(), e)
}

/// Adds what is read for the value of an expression.
#[cycle(read)]
pub(crate) fn add_read(
    g: &Pointed<'_, '_, '_>,
    e: &Expr,
    scratch: &mut Rows,
    rows: &mut Rows,
    row: u32,
)
    requires scratch_sized { IsSized 2 (length (locations g.now.program)) scratch.old }
    requires sized { IsSized (length rows.old.sets) (length (locations g.now.program)) rows.old }
    requires row_in { row < length rows.old.sets }
    ensures gained { rows.new ≡ with_places g.now.program row (expr_reads g.now.program (points_in g.now) e.now) rows.old }
    ensures size { IsSized (length rows.old.sets) (length (locations g.now.program)) rows.new }
    ensures scratch_size { IsSized 2 (length (locations g.now.program)) scratch.new }
{
    add_found(g, e, scratch, rows, row);
    if reads_object(g, e) {
        add_named(g, e, &Steps::Done, scratch, rows, row);
    }
}

/// Adds what is read to find the object of an expression, or else for its value.
#[cycle(read)]
pub(crate) fn add_found(
    g: &Pointed<'_, '_, '_>,
    e: &Expr,
    scratch: &mut Rows,
    rows: &mut Rows,
    row: u32,
)
    requires scratch_sized { IsSized 2 (length (locations g.now.program)) scratch.old }
    requires sized { IsSized (length rows.old.sets) (length (locations g.now.program)) rows.old }
    requires row_in { row < length rows.old.sets }
    ensures gained { rows.new ≡ with_places g.now.program row (left_reads g.now.program (points_in g.now) e.now) rows.old }
    ensures size { IsSized (length rows.old.sets) (length (locations g.now.program)) rows.new }
    ensures scratch_size { IsSized 2 (length (locations g.now.program)) scratch.new }
{
    match e {
        Expr::Constant(_, _, _) => {}
        Expr::Null => {}
        Expr::Eof => {}
        Expr::Variable(_) => {}
        Expr::Unary(_, a) => add_read(g, a.get(), scratch, rows, row),
        Expr::Deref(a) => add_read(g, a.get(), scratch, rows, row),
        Expr::AddressOf(a) => add_found(g, a.get(), scratch, rows, row),
        Expr::Binary(_, a, b) => {
            add_read(g, a.get(), scratch, rows, row);
            add_read(g, b.get(), scratch, rows, row);
        }
        Expr::AndAlso(a, b) => {
            add_read(g, a.get(), scratch, rows, row);
            add_read(g, b.get(), scratch, rows, row);
        }
        Expr::OrElse(a, b) => {
            add_read(g, a.get(), scratch, rows, row);
            add_read(g, b.get(), scratch, rows, row);
        }
        Expr::Choose(c, a, b) => {
            add_read(g, c.get(), scratch, rows, row);
            add_read(g, a.get(), scratch, rows, row);
            add_read(g, b.get(), scratch, rows, row);
        }
        Expr::Cast(_, a) => add_read(g, a.get(), scratch, rows, row),
        Expr::Index(a, i) => {
            if is_array_place(g, a.get()) {
                add_found(g, a.get(), scratch, rows, row);
            } else {
                add_read(g, a.get(), scratch, rows, row);
            }
            add_read(g, i.get(), scratch, rows, row);
        }
        Expr::Member(a, _) => add_found(g, a.get(), scratch, rows, row),
        Expr::Arrow(a, _) => add_read(g, a.get(), scratch, rows, row),
        Expr::Paren(a) => add_found(g, a.get(), scratch, rows, row),
    }
}
