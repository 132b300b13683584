//! What a program's statements and expressions do to its locations, as rows that gain these.
ghost use Rattle.std.specs.Prelude.{◌≡◌, ◌<◌, ◌||◌, IfOk, length};
ghost use Rattle.bit_rows.specs.Tables.{IsSized};
ghost use Rattle.c_language.specs.ExprTypes.{is_array, is_pointer};
ghost use Rattle.c_language.specs.TreeTypes.{tree_type};
ghost use Rattle.dep_model.specs.Denoted.{expr_reads, expr_places, expr_points, left_reads, whole};
ghost use Rattle.dep_model.specs.DoingEffects.{is_taken, result_of, target_reads};
ghost use Rattle.dep_model.specs.LocationLists.{location_list, AreListedOnce};
ghost use Rattle.dep_model.specs.LocationRows.{points_of, HasPointsRows};
ghost use Rattle.dep_model.specs.Locations.{locations, same_location};
ghost use Rattle.effect_rows.specs.Gains.{with_places};
ghost use Rattle.effect_rows.specs.Own.{own_uses, own_defines, own_kills};

use crate::doings;
use crate::expressions::{add_found, add_places, add_read, add_value};
use crate::pointed::Pointed;
use crate::seen_types::{is_array, is_pointer, type_of};
use crate::steps::Steps;
use crate::tables::Tables;
use bit_rows::Rows;
use c_tree::{Expr, FunctionId, Program, Statement, Target, VarId};
use dep_model::{Locations, PointsTo};
use std::alloc::{AllocError, Global};
use std::marker::Model;

/// What the statements and expressions of a program do to its locations, as rows that gain these. All
/// memory is taken when it is made. Contracts see the program.
#[derive(Drop)]
pub struct LocationEffects<'p> {
    program: &'p Program,
    tables: Tables,
    // Two rows of locations.
    scratch: Rows,
}

impl<'p> Model for LocationEffects<'p> {
    ghost use Rattle.std.specs.Prelude.{length};
    ghost use Rattle.std.specs.Coded.{codes};
    ghost use Rattle.c_tree.specs.contracts.expr.Expr as expr;
    ghost use Rattle.c_tree.specs.contracts.statement.Statement as statement;
    ghost use Rattle.c_tree.specs.contracts.types.CType as shape;
    ghost use Rattle.c_tree.specs.declared.program.Program.{Program};
    ghost use Rattle.bit_rows.specs.Tables.{IsSized};
    ghost use Rattle.dep_model.specs.Locations.{locations};
    ghost use Rattle.effect_rows.specs.Pointed.{AreTables};

    ghost Value = { Program };

    ghost coded = { Prim.hlevel (codes, expr.the_row.coded, statement.the_row.coded, shape.the_row.coded) };

    ghost view = { λ e. e.program.now };

    ghost invariant = { λ e. record {
      tables_are : AreTables e.program.now e.tables;
      scratch_is : IsSized 2 (length (locations e.program.now)) e.scratch;
    } };
}

impl<'p> LocationEffects<'p> {
    /// What the statements of a program do to its locations, by the list of these. Err: no memory was left.
    pub fn new(
        alloc: Global,
        program: &'p Program,
        list: &Locations,
    ) -> Result<LocationEffects<'p>, AllocError>
        requires list_is { list.now ≡ location_list program.now }
        requires once { AreListedOnce program.now }
        ensures { IfOk result (λ e. e ≡ program.now) }
    {
        let tables = Tables::of(alloc, program, list)?;
        let scratch = Rows::new(alloc, 2, list.len())?;
        Ok(LocationEffects {
            program,
            tables,
            scratch,
        })
    }

    /// Adds what is read for the value of an expression to a row of locations, where `points` tells to
    /// what each location may point.
    pub fn add_reads(&mut self, points: &PointsTo, e: &Expr, rows: &mut Rows, row: u32)
        requires points_are { HasPointsRows self.old points.now }
        requires sized { IsSized (length rows.old.sets) (length (locations self.old)) rows.old }
        requires row_in { row < length rows.old.sets }
        ensures gained { rows.new ≡ with_places self.old row (expr_reads self.old (points_of self.old points.now) e.now) rows.old }
        ensures size { IsSized (length rows.old.sets) (length (locations self.old)) rows.new }
        ensures kept { self.new ≡ self.old }
    {
        let g = Pointed::of(self.program, &self.tables, points);
        add_read(&g, e, &mut self.scratch, rows, row);
    }

    /// Adds the locations that the object of an expression may be, none where it designates none.
    pub fn add_places(&mut self, points: &PointsTo, e: &Expr, rows: &mut Rows, row: u32)
        requires points_are { HasPointsRows self.old points.now }
        requires sized { IsSized (length rows.old.sets) (length (locations self.old)) rows.old }
        requires row_in { row < length rows.old.sets }
        ensures gained { rows.new ≡ with_places self.old row (expr_places self.old (points_of self.old points.now) e.now) rows.old }
        ensures size { IsSized (length rows.old.sets) (length (locations self.old)) rows.new }
        ensures kept { self.new ≡ self.old }
    {
        let g = Pointed::of(self.program, &self.tables, points);
        add_places(&g, e, &mut self.scratch, rows, row);
    }

    /// Adds the locations to which the value of an expression may point.
    pub fn add_points(&mut self, points: &PointsTo, e: &Expr, rows: &mut Rows, row: u32)
        requires points_are { HasPointsRows self.old points.now }
        requires sized { IsSized (length rows.old.sets) (length (locations self.old)) rows.old }
        requires row_in { row < length rows.old.sets }
        ensures gained { rows.new ≡ with_places self.old row (expr_points self.old (points_of self.old points.now) e.now) rows.old }
        ensures size { IsSized (length rows.old.sets) (length (locations self.old)) rows.new }
        ensures kept { self.new ≡ self.old }
    {
        let g = Pointed::of(self.program, &self.tables, points);
        add_value(&g, e, &Steps::Done, &mut self.scratch, rows, row);
    }

    /// Adds what is read to find the object of a left side.
    pub fn add_left_reads(&mut self, points: &PointsTo, e: &Expr, rows: &mut Rows, row: u32)
        requires points_are { HasPointsRows self.old points.now }
        requires sized { IsSized (length rows.old.sets) (length (locations self.old)) rows.old }
        requires row_in { row < length rows.old.sets }
        ensures gained { rows.new ≡ with_places self.old row (left_reads self.old (points_of self.old points.now) e.now) rows.old }
        ensures size { IsSized (length rows.old.sets) (length (locations self.old)) rows.new }
        ensures kept { self.new ≡ self.old }
    {
        let g = Pointed::of(self.program, &self.tables, points);
        add_found(&g, e, &mut self.scratch, rows, row);
    }

    /// Adds what a statement itself may use, without the statements in it: what its test reads, or its act, or the
    /// arguments and the target of a call.
    pub fn add_uses(&mut self, points: &PointsTo, statement: &Statement, rows: &mut Rows, row: u32)
        requires points_are { HasPointsRows self.old points.now }
        requires sized { IsSized (length rows.old.sets) (length (locations self.old)) rows.old }
        requires row_in { row < length rows.old.sets }
        ensures gained { rows.new ≡ with_places self.old row (own_uses self.old (points_of self.old points.now) statement.now) rows.old }
        ensures size { IsSized (length rows.old.sets) (length (locations self.old)) rows.new }
        ensures kept { self.new ≡ self.old }
    {
        let g = Pointed::of(self.program, &self.tables, points);
        doings::add_uses(&g, statement, &mut self.scratch, rows, row);
    }

    /// Adds what a statement of function `f` itself may define; of a call that in which its value is stored.
    pub fn add_defines(
        &mut self,
        points: &PointsTo,
        f: FunctionId,
        statement: &Statement,
        rows: &mut Rows,
        row: u32,
    )
        requires points_are { HasPointsRows self.old points.now }
        requires sized { IsSized (length rows.old.sets) (length (locations self.old)) rows.old }
        requires row_in { row < length rows.old.sets }
        ensures gained { rows.new ≡ with_places self.old row (own_defines self.old (points_of self.old points.now) f statement.now) rows.old }
        ensures size { IsSized (length rows.old.sets) (length (locations self.old)) rows.new }
        ensures kept { self.new ≡ self.old }
    {
        let g = Pointed::of(self.program, &self.tables, points);
        doings::add_defines(&g, f, statement, &mut self.scratch, rows, row);
    }

    /// Adds what a statement of function `f` itself kills.
    pub fn add_kills(
        &mut self,
        points: &PointsTo,
        f: FunctionId,
        statement: &Statement,
        rows: &mut Rows,
        row: u32,
    )
        requires points_are { HasPointsRows self.old points.now }
        requires sized { IsSized (length rows.old.sets) (length (locations self.old)) rows.old }
        requires row_in { row < length rows.old.sets }
        ensures gained { rows.new ≡ with_places self.old row (own_kills self.old (points_of self.old points.now) f statement.now) rows.old }
        ensures size { IsSized (length rows.old.sets) (length (locations self.old)) rows.new }
        ensures kept { self.new ≡ self.old }
    {
        let g = Pointed::of(self.program, &self.tables, points);
        doings::add_kills(&g, f, statement, &mut self.scratch, rows, row);
    }

    /// Adds what is read to find the object in which a call's value is stored.
    pub fn add_target_reads(&mut self, points: &PointsTo, to: &Target, rows: &mut Rows, row: u32)
        requires points_are { HasPointsRows self.old points.now }
        requires sized { IsSized (length rows.old.sets) (length (locations self.old)) rows.old }
        requires row_in { row < length rows.old.sets }
        ensures gained { rows.new ≡ with_places self.old row (target_reads self.old (points_of self.old points.now) to.now) rows.old }
        ensures size { IsSized (length rows.old.sets) (length (locations self.old)) rows.new }
        ensures kept { self.new ≡ self.old }
    {
        let g = Pointed::of(self.program, &self.tables, points);
        doings::add_target_reads(&g, to, &mut self.scratch, rows, row);
    }

    /// Adds the whole object of a variable.
    pub fn add_variable(&mut self, points: &PointsTo, x: VarId, rows: &mut Rows, row: u32)
        requires points_are { HasPointsRows self.old points.now }
        requires sized { IsSized (length rows.old.sets) (length (locations self.old)) rows.old }
        requires row_in { row < length rows.old.sets }
        ensures gained { rows.new ≡ with_places self.old row (whole x) rows.old }
        ensures size { IsSized (length rows.old.sets) (length (locations self.old)) rows.new }
        ensures kept { self.new ≡ self.old }
    {
        let g = Pointed::of(self.program, &self.tables, points);
        g.add_variable(x, &Steps::Done, &mut self.scratch, rows, row);
    }

    /// Adds what a function returns.
    pub fn add_result(&mut self, points: &PointsTo, f: FunctionId, rows: &mut Rows, row: u32)
        requires points_are { HasPointsRows self.old points.now }
        requires sized { IsSized (length rows.old.sets) (length (locations self.old)) rows.old }
        requires row_in { row < length rows.old.sets }
        ensures gained { rows.new ≡ with_places self.old row (same_location (result_of f)) rows.old }
        ensures size { IsSized (length rows.old.sets) (length (locations self.old)) rows.new }
        ensures kept { self.new ≡ self.old }
    {
        let g = Pointed::of(self.program, &self.tables, points);
        g.add_result(f, rows, row);
    }

    /// Whether the address of a variable is taken somewhere in the program.
    pub fn is_taken(&self, x: VarId) -> bool
        ensures { result ≡ is_taken self.now x }
    {
        self.tables.taken.get(x as usize).copied().unwrap_or(false)
    }

    /// Whether the value of an expression is a pointer by its type, or an array, which turns into one.
    pub fn is_pointer(&self, e: &Expr) -> bool
        ensures { result ≡ (is_pointer (tree_type self.now e.now) || is_array (tree_type self.now e.now)) }
    {
        let seen = type_of(self.program, e);
        is_pointer(seen) || is_array(seen)
    }
}
