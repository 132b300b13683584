//! What a statement itself may use, may define and kills, as rows of a program's locations.
ghost use Rattle.std.specs.Prelude.{◌≡◌, ◌<◌, length};
ghost use Rattle.bit_rows.specs.Tables.{IsSized};
ghost use Rattle.dep_model.specs.DoingEffects as spec;
ghost use Rattle.dep_model.specs.Locations.{locations};
ghost use Rattle.effect_rows.specs.Gains.{with_places};
ghost use Rattle.effect_rows.specs.Own.{own_uses, own_defines, own_kills, init_kills};
ghost use Rattle.effect_rows.specs.Pointed.{points_in};

use crate::expressions::{add_found, add_places, add_read};
use crate::pointed::Pointed;
use crate::steps::{Step, Steps};
use crate::taken::name_of;
use bit_rows::Rows;
use c_arith::BinaryOp;
use c_tree::{Amount, Expr, FunctionId, Init, Statement, Target, VarId};
use dep_model::Part;

// ---- what is used

/// Adds what each of some expressions reads.
fn add_all_reads(
    g: &Pointed<'_, '_, '_>,
    list: &[Expr],
    scratch: &mut Rows,
    rows: &mut Rows,
    row: u32,
)
    requires scratch_sized { IsSized 2 (length (locations g.now.program)) scratch.old }
    requires sized { IsSized (length rows.old.sets) (length (locations g.now.program)) rows.old }
    requires row_in { row < length rows.old.sets }
    ensures gained { rows.new ≡ with_places g.now.program row (spec.any_reads g.now.program (points_in g.now) list.now) rows.old }
    ensures size { IsSized (length rows.old.sets) (length (locations g.now.program)) rows.new }
    ensures scratch_size { IsSized 2 (length (locations g.now.program)) scratch.new }
{
    for e in list {
        add_read(g, e, scratch, rows, row);
    }
}

/// Adds what an expression reads, where there is one.
fn add_maybe_reads(
    g: &Pointed<'_, '_, '_>,
    value: &Option<Expr>,
    scratch: &mut Rows,
    rows: &mut Rows,
    row: u32,
)
    requires scratch_sized { IsSized 2 (length (locations g.now.program)) scratch.old }
    requires sized { IsSized (length rows.old.sets) (length (locations g.now.program)) rows.old }
    requires row_in { row < length rows.old.sets }
    ensures gained { rows.new ≡ with_places g.now.program row (spec.maybe_reads g.now.program (points_in g.now) value.now) rows.old }
    ensures size { IsSized (length rows.old.sets) (length (locations g.now.program)) rows.new }
    ensures scratch_size { IsSized 2 (length (locations g.now.program)) scratch.new }
{
    match value {
        None => {}
        Some(e) => add_read(g, e, scratch, rows, row),
    }
}

/// Adds what is read for what an object begins with.
fn add_init_reads(
    g: &Pointed<'_, '_, '_>,
    init: &Init,
    scratch: &mut Rows,
    rows: &mut Rows,
    row: u32,
)
    requires scratch_sized { IsSized 2 (length (locations g.now.program)) scratch.old }
    requires sized { IsSized (length rows.old.sets) (length (locations g.now.program)) rows.old }
    requires row_in { row < length rows.old.sets }
    ensures gained { rows.new ≡ with_places g.now.program row (spec.init_reads g.now.program (points_in g.now) init.now) rows.old }
    ensures size { IsSized (length rows.old.sets) (length (locations g.now.program)) rows.new }
    ensures scratch_size { IsSized 2 (length (locations g.now.program)) scratch.new }
{
    match init {
        Init::None => {}
        Init::One(e) => add_read(g, e, scratch, rows, row),
        Init::Items(list) => add_all_reads(g, list.as_slice(), scratch, rows, row),
    }
}

/// Adds what is read to find the object in which a call's value is stored.
pub(crate) fn add_target_reads(
    g: &Pointed<'_, '_, '_>,
    to: &Target,
    scratch: &mut Rows,
    rows: &mut Rows,
    row: u32,
)
    requires scratch_sized { IsSized 2 (length (locations g.now.program)) scratch.old }
    requires sized { IsSized (length rows.old.sets) (length (locations g.now.program)) rows.old }
    requires row_in { row < length rows.old.sets }
    ensures gained { rows.new ≡ with_places g.now.program row (spec.target_reads g.now.program (points_in g.now) to.now) rows.old }
    ensures size { IsSized (length rows.old.sets) (length (locations g.now.program)) rows.new }
    ensures scratch_size { IsSized 2 (length (locations g.now.program)) scratch.new }
{
    match to {
        Target::None => {}
        Target::Place(e) => add_found(g, e, scratch, rows, row),
        Target::Declared(_) => {}
    }
}

/// Adds what is read for how much memory an allocation asks for.
fn add_amount_reads(
    g: &Pointed<'_, '_, '_>,
    amount: &Amount,
    scratch: &mut Rows,
    rows: &mut Rows,
    row: u32,
)
    requires scratch_sized { IsSized 2 (length (locations g.now.program)) scratch.old }
    requires sized { IsSized (length rows.old.sets) (length (locations g.now.program)) rows.old }
    requires row_in { row < length rows.old.sets }
    ensures gained { rows.new ≡ with_places g.now.program row (spec.amount_reads g.now.program (points_in g.now) amount.now) rows.old }
    ensures size { IsSized (length rows.old.sets) (length (locations g.now.program)) rows.new }
    ensures scratch_size { IsSized 2 (length (locations g.now.program)) scratch.new }
{
    match amount {
        Amount::Size(_) => {}
        Amount::CountSize(e, _) => add_read(g, e, scratch, rows, row),
        Amount::SizeCount(_, e) => add_read(g, e, scratch, rows, row),
        Amount::Count(e) => add_read(g, e, scratch, rows, row),
    }
}

/// Adds the old value of a left side, which a compound assignment uses.
fn add_compound_reads(
    g: &Pointed<'_, '_, '_>,
    op: &Option<BinaryOp>,
    left: &Expr,
    scratch: &mut Rows,
    rows: &mut Rows,
    row: u32,
)
    requires scratch_sized { IsSized 2 (length (locations g.now.program)) scratch.old }
    requires sized { IsSized (length rows.old.sets) (length (locations g.now.program)) rows.old }
    requires row_in { row < length rows.old.sets }
    ensures gained { rows.new ≡ with_places g.now.program row (spec.compound_reads g.now.program (points_in g.now) op.now left.now) rows.old }
    ensures size { IsSized (length rows.old.sets) (length (locations g.now.program)) rows.new }
    ensures scratch_size { IsSized 2 (length (locations g.now.program)) scratch.new }
{
    match op {
        None => {}
        Some(_) => add_places(g, left, scratch, rows, row),
    }
}

/// Adds what a statement itself may use.
#[tactic(auto, using(crate::proofs::Rules::own))]
pub(crate) fn add_uses(
    g: &Pointed<'_, '_, '_>,
    statement: &Statement,
    scratch: &mut Rows,
    rows: &mut Rows,
    row: u32,
)
    requires scratch_sized { IsSized 2 (length (locations g.now.program)) scratch.old }
    requires sized { IsSized (length rows.old.sets) (length (locations g.now.program)) rows.old }
    requires row_in { row < length rows.old.sets }
    ensures gained { rows.new ≡ with_places g.now.program row (own_uses g.now.program (points_in g.now) statement.now) rows.old }
    ensures size { IsSized (length rows.old.sets) (length (locations g.now.program)) rows.new }
    ensures scratch_size { IsSized 2 (length (locations g.now.program)) scratch.new }
{
    match statement {
        Statement::Declare { id, init, .. } => match id {
            None => {}
            Some(_) => add_init_reads(g, init, scratch, rows, row),
        },
        Statement::Assign {
            left,
            op,
            right,
            ..
        } => {
            add_found(g, left, scratch, rows, row);
            add_compound_reads(g, op, left, scratch, rows, row);
            add_read(g, right, scratch, rows, row);
        }
        Statement::Bump { left, .. } => {
            add_found(g, left, scratch, rows, row);
            add_places(g, left, scratch, rows, row);
        }
        Statement::Invoke { target, args, .. } => {
            add_all_reads(g, args.as_slice(), scratch, rows, row);
            add_target_reads(g, target, scratch, rows, row);
        }
        Statement::Fetch { target, .. } => {
            g.add_input(rows, row);
            add_target_reads(g, target, scratch, rows, row);
        }
        Statement::Write { value, .. } => add_read(g, value, scratch, rows, row),
        Statement::Print { args, .. } => add_all_reads(g, args.as_slice(), scratch, rows, row),
        Statement::Heap { target, amount, .. } => {
            add_target_reads(g, target, scratch, rows, row);
            add_amount_reads(g, amount, scratch, rows, row);
        }
        Statement::Release { value, .. } => add_read(g, value, scratch, rows, row),
        Statement::If { test, .. } => add_read(g, test, scratch, rows, row),
        Statement::While { test, .. } => add_read(g, test, scratch, rows, row),
        Statement::Do { test, .. } => add_read(g, test, scratch, rows, row),
        Statement::For { test, .. } => add_read(g, test, scratch, rows, row),
        Statement::Switch { test, .. } => add_read(g, test, scratch, rows, row),
        Statement::Block { .. } => {}
        Statement::Return { value, .. } => add_maybe_reads(g, value, scratch, rows, row),
    }
}

// ---- what is defined

/// Adds the locations that an initialiser sets: a list sets the elements of its array.
fn add_init_places(
    g: &Pointed<'_, '_, '_>,
    x: VarId,
    init: &Init,
    scratch: &mut Rows,
    rows: &mut Rows,
    row: u32,
)
    requires scratch_sized { IsSized 2 (length (locations g.now.program)) scratch.old }
    requires sized { IsSized (length rows.old.sets) (length (locations g.now.program)) rows.old }
    requires row_in { row < length rows.old.sets }
    ensures gained { rows.new ≡ with_places g.now.program row (spec.init_places g.now.program (points_in g.now) x init.now) rows.old }
    ensures size { IsSized (length rows.old.sets) (length (locations g.now.program)) rows.new }
    ensures scratch_size { IsSized 2 (length (locations g.now.program)) scratch.new }
{
    match init {
        Init::None => {}
        Init::One(_) => g.add_variable(x, &Steps::Done, scratch, rows, row),
        Init::Items(_) => {
            let elements = Steps::Then(Step::Part(Part::Element), &Steps::Done);
            g.add_variable(x, &elements, scratch, rows, row);
        }
    }
}

/// Adds the locations in which a call's value may be stored.
pub(crate) fn add_target_places(
    g: &Pointed<'_, '_, '_>,
    to: &Target,
    scratch: &mut Rows,
    rows: &mut Rows,
    row: u32,
)
    requires scratch_sized { IsSized 2 (length (locations g.now.program)) scratch.old }
    requires sized { IsSized (length rows.old.sets) (length (locations g.now.program)) rows.old }
    requires row_in { row < length rows.old.sets }
    ensures gained { rows.new ≡ with_places g.now.program row (spec.target_places g.now.program (points_in g.now) to.now) rows.old }
    ensures size { IsSized (length rows.old.sets) (length (locations g.now.program)) rows.new }
    ensures scratch_size { IsSized 2 (length (locations g.now.program)) scratch.new }
{
    match to {
        Target::None => {}
        Target::Place(e) => add_places(g, e, scratch, rows, row),
        Target::Declared(x) => g.add_variable(*x, &Steps::Done, scratch, rows, row),
    }
}

/// Adds the result of a function, where a return gives one.
fn add_returned(
    g: &Pointed<'_, '_, '_>,
    f: FunctionId,
    value: &Option<Expr>,
    rows: &mut Rows,
    row: u32,
)
    requires sized { IsSized (length rows.old.sets) (length (locations g.now.program)) rows.old }
    requires row_in { row < length rows.old.sets }
    ensures gained { rows.new ≡ with_places g.now.program row (spec.returned_places g.now.program (points_in g.now) f value.now) rows.old }
    ensures size { IsSized (length rows.old.sets) (length (locations g.now.program)) rows.new }
{
    match value {
        None => {}
        Some(_) => g.add_result(f, rows, row),
    }
}

/// Adds what a statement of function `f` itself may define.
#[tactic(auto, using(crate::proofs::Rules::own))]
pub(crate) fn add_defines(
    g: &Pointed<'_, '_, '_>,
    f: FunctionId,
    statement: &Statement,
    scratch: &mut Rows,
    rows: &mut Rows,
    row: u32,
)
    requires scratch_sized { IsSized 2 (length (locations g.now.program)) scratch.old }
    requires sized { IsSized (length rows.old.sets) (length (locations g.now.program)) rows.old }
    requires row_in { row < length rows.old.sets }
    ensures gained { rows.new ≡ with_places g.now.program row (own_defines g.now.program (points_in g.now) f statement.now) rows.old }
    ensures size { IsSized (length rows.old.sets) (length (locations g.now.program)) rows.new }
    ensures scratch_size { IsSized 2 (length (locations g.now.program)) scratch.new }
{
    match statement {
        Statement::Declare { id, var, init, .. } => match id {
            None => {}
            Some(_) => add_init_places(g, *var, init, scratch, rows, row),
        },
        Statement::Assign { left, .. } => add_places(g, left, scratch, rows, row),
        Statement::Bump { left, .. } => add_places(g, left, scratch, rows, row),
        Statement::Invoke { target, .. } => add_target_places(g, target, scratch, rows, row),
        Statement::Fetch { target, .. } => {
            g.add_input(rows, row);
            add_target_places(g, target, scratch, rows, row);
        }
        Statement::Heap { target, .. } => add_target_places(g, target, scratch, rows, row),
        Statement::Return { value, .. } => add_returned(g, f, value, rows, row),
        Statement::Write { .. } => {}
        Statement::Print { .. } => {}
        Statement::Release { .. } => {}
        Statement::If { .. } => {}
        Statement::While { .. } => {}
        Statement::Do { .. } => {}
        Statement::For { .. } => {}
        Statement::Switch { .. } => {}
        Statement::Block { .. } => {}
    }
}

// ---- what is killed

/// Adds what a left side kills: the object of a name with `.` selections alone behind it.
fn add_left_kills(g: &Pointed<'_, '_, '_>, e: &Expr, scratch: &mut Rows, rows: &mut Rows, row: u32)
    requires scratch_sized { IsSized 2 (length (locations g.now.program)) scratch.old }
    requires sized { IsSized (length rows.old.sets) (length (locations g.now.program)) rows.old }
    requires row_in { row < length rows.old.sets }
    ensures gained { rows.new ≡ with_places g.now.program row (spec.left_kills g.now.program (points_in g.now) e.now) rows.old }
    ensures size { IsSized (length rows.old.sets) (length (locations g.now.program)) rows.new }
    ensures scratch_size { IsSized 2 (length (locations g.now.program)) scratch.new }
{
    match name_of(e) {
        None => {}
        Some(x) => {
            if g.is_killable(x) {
                add_places(g, e, scratch, rows, row);
            }
        }
    }
}

/// Adds what an initialiser kills.
fn add_init_kills(
    g: &Pointed<'_, '_, '_>,
    var: VarId,
    init: &Init,
    scratch: &mut Rows,
    rows: &mut Rows,
    row: u32,
)
    requires scratch_sized { IsSized 2 (length (locations g.now.program)) scratch.old }
    requires sized { IsSized (length rows.old.sets) (length (locations g.now.program)) rows.old }
    requires row_in { row < length rows.old.sets }
    ensures gained { rows.new ≡ with_places g.now.program row (init_kills g.now.program (points_in g.now) var init.now) rows.old }
    ensures size { IsSized (length rows.old.sets) (length (locations g.now.program)) rows.new }
    ensures scratch_size { IsSized 2 (length (locations g.now.program)) scratch.new }
{
    if g.is_killable(var) {
        add_init_places(g, var, init, scratch, rows, row);
    }
}

/// Adds what the storing of a call's value kills.
pub(crate) fn add_target_kills(
    g: &Pointed<'_, '_, '_>,
    to: &Target,
    scratch: &mut Rows,
    rows: &mut Rows,
    row: u32,
)
    requires scratch_sized { IsSized 2 (length (locations g.now.program)) scratch.old }
    requires sized { IsSized (length rows.old.sets) (length (locations g.now.program)) rows.old }
    requires row_in { row < length rows.old.sets }
    ensures gained { rows.new ≡ with_places g.now.program row (spec.target_kills g.now.program (points_in g.now) to.now) rows.old }
    ensures size { IsSized (length rows.old.sets) (length (locations g.now.program)) rows.new }
    ensures scratch_size { IsSized 2 (length (locations g.now.program)) scratch.new }
{
    match to {
        Target::None => {}
        Target::Place(e) => add_left_kills(g, e, scratch, rows, row),
        Target::Declared(x) => {
            if g.is_killable(*x) {
                g.add_variable(*x, &Steps::Done, scratch, rows, row);
            }
        }
    }
}

/// Adds what a statement of function `f` itself kills.
#[tactic(auto, using(crate::proofs::Rules::own))]
pub(crate) fn add_kills(
    g: &Pointed<'_, '_, '_>,
    f: FunctionId,
    statement: &Statement,
    scratch: &mut Rows,
    rows: &mut Rows,
    row: u32,
)
    requires scratch_sized { IsSized 2 (length (locations g.now.program)) scratch.old }
    requires sized { IsSized (length rows.old.sets) (length (locations g.now.program)) rows.old }
    requires row_in { row < length rows.old.sets }
    ensures gained { rows.new ≡ with_places g.now.program row (own_kills g.now.program (points_in g.now) f statement.now) rows.old }
    ensures size { IsSized (length rows.old.sets) (length (locations g.now.program)) rows.new }
    ensures scratch_size { IsSized 2 (length (locations g.now.program)) scratch.new }
{
    match statement {
        Statement::Declare { id, var, init, .. } => match id {
            None => {}
            Some(_) => add_init_kills(g, *var, init, scratch, rows, row),
        },
        Statement::Assign { left, .. } => add_left_kills(g, left, scratch, rows, row),
        Statement::Bump { left, .. } => add_left_kills(g, left, scratch, rows, row),
        Statement::Invoke { target, .. } => add_target_kills(g, target, scratch, rows, row),
        Statement::Fetch { target, .. } => {
            g.add_input(rows, row);
            add_target_kills(g, target, scratch, rows, row);
        }
        Statement::Heap { target, .. } => add_target_kills(g, target, scratch, rows, row),
        Statement::Return { value, .. } => add_returned(g, f, value, rows, row),
        Statement::Write { .. } => {}
        Statement::Print { .. } => {}
        Statement::Release { .. } => {}
        Statement::If { .. } => {}
        Statement::While { .. } => {}
        Statement::Do { .. } => {}
        Statement::For { .. } => {}
        Statement::Switch { .. } => {}
        Statement::Block { .. } => {}
    }
}
