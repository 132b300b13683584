//! A program with the places of its locations, and with rows that say to what these may point.
ghost use Rattle.std.specs.Prelude.{◌≡◌, ◌<◌, ◌≢◌, Some, length, slice_get};
ghost use Rattle.bit_rows.specs.Tables.{IsSized, the_set};
ghost use Rattle.dep_model.specs.Denoted.{Places, whole, inside, part_of, targets};
ghost use Rattle.dep_model.specs.DoingEffects as spec;
ghost use Rattle.dep_model.specs.DoingEffects.{result_of, the_input};
ghost use Rattle.dep_model.specs.LocationLists.{location_list};
ghost use Rattle.dep_model.specs.declared.location.Location.{Location};
ghost use Rattle.dep_model.specs.Locations.{locations, same_location};
ghost use Rattle.effect_rows.specs.Gains.{row_of, with_places};
ghost use Rattle.dep_model.specs.LocationRows.{HasPointsRows};
ghost use Rattle.effect_rows.specs.Pointed.{points_in, AreTables};
ghost use Rattle.effect_rows.specs.Steps.{stepped, taken};
ghost use Rattle.effect_rows.specs.Tables.{IsPlaceOf};

use crate::steps::{Step, Steps};
use crate::tables::{Tables, place_at, row_at};
use bit_rows::Rows;
use c_tree::{FunctionId, Program, VarId};
use dep_model::{LocationId, Part, PointsTo};
use std::marker::Model;

/// A program with the places of its locations, and with rows that say to what these may point.
#[derive(Drop)]
pub(crate) struct Pointed<'p, 't, 'r> {
    program: &'p Program,
    tables: &'t Tables,
    points: &'r PointsTo,
}

impl<'p, 't, 'r> Model for Pointed<'p, 't, 'r> {
    ghost use Rattle.dep_model.specs.LocationRows.{HasPointsRows};
    ghost use Rattle.effect_rows.specs.Pointed.{PointedProgram, AreTables};
    ghost use Rattle.std.specs.Coded.{codes};
    ghost use Rattle.c_tree.specs.contracts.expr.Expr as expr;
    ghost use Rattle.c_tree.specs.contracts.statement.Statement as statement;
    ghost use Rattle.c_tree.specs.contracts.types.CType as shape;

    ghost Value = { PointedProgram };

    ghost coded = { Prim.hlevel (codes, expr.the_row.coded, statement.the_row.coded, shape.the_row.coded) };

    ghost view = { λ g. record { program = g.program.now; rows = g.points.now } };

    ghost invariant = { λ g. record {
      tables_are : AreTables g.program.now g.tables.now;
      points_are : HasPointsRows g.program.now g.points.now;
    } };
}

impl<'p, 't, 'r> Pointed<'p, 't, 'r> {
    /// A program with its tables and rows.
    pub(crate) fn of(
        program: &'p Program,
        tables: &'t Tables,
        points: &'r PointsTo,
    ) -> Pointed<'p, 't, 'r>
        requires tables_are { AreTables program.now tables.now }
        requires points_are { HasPointsRows program.now points.now }
        ensures { result ≡ record { program = program.now; rows = points.now } }
    {
        Pointed {
            program,
            tables,
            points,
        }
    }

    /// The program.
    pub(crate) fn program(&self) -> &'p Program
        ensures { result.now ≡ self.now.program }
    {
        self.program
    }

    /// Makes the first scratch row that of a variable.
    pub(crate) fn seed(&self, x: VarId, scratch: &mut Rows)
        requires { IsSized 2 (length (locations self.now.program)) scratch.old }
        ensures has { the_set scratch.new 0 ≡ row_of self.now.program (whole x) }
        ensures size { IsSized 2 (length (locations self.now.program)) scratch.new }
    {
        scratch.clear(0);
        match place_at(self.tables.variables.as_slice(), x) {
            Some(k) => scratch.set(0, k),
            None => {}
        }
    }

    /// Adds the locations to which the steps lead from those of a scratch row.
    pub(crate) fn follow(
        &self,
        steps: &Steps<'_>,
        scratch: &mut Rows,
        from: u32,
        rows: &mut Rows,
        row: u32,
    )
        requires from_in { from < 2 }
        requires scratch_sized { IsSized 2 (length (locations self.now.program)) scratch.old }
        requires sized { IsSized (length rows.old.sets) (length (locations self.now.program)) rows.old }
        requires row_in { row < length rows.old.sets }
        ensures gained { (a : Places) → the_set scratch.old from ≡ row_of self.now.program a
            → rows.new ≡ with_places self.now.program row (taken self.now.program (points_in self.now) steps.now a) rows.old }
        ensures size { IsSized (length rows.old.sets) (length (locations self.now.program)) rows.new }
        ensures scratch_size { IsSized 2 (length (locations self.now.program)) scratch.new }
    {
        match steps {
            Steps::Done => {
                rows.join_words(row, scratch.words(from));
            }
            Steps::Nowhere => {}
            Steps::Then(step, rest) => {
                let to = 1 - from;
                self.step(*step, scratch, from, to);
                self.follow(rest, scratch, to, rows, row);
            }
        }
    }

    /// Adds the locations to which the steps lead from a variable.
    pub(crate) fn add_variable(
        &self,
        x: VarId,
        steps: &Steps<'_>,
        scratch: &mut Rows,
        rows: &mut Rows,
        row: u32,
    )
        requires scratch_sized { IsSized 2 (length (locations self.now.program)) scratch.old }
        requires sized { IsSized (length rows.old.sets) (length (locations self.now.program)) rows.old }
        requires row_in { row < length rows.old.sets }
        ensures gained { rows.new ≡ with_places self.now.program row (taken self.now.program (points_in self.now) steps.now (whole x)) rows.old }
        ensures size { IsSized (length rows.old.sets) (length (locations self.now.program)) rows.new }
        ensures scratch_size { IsSized 2 (length (locations self.now.program)) scratch.new }
    {
        self.seed(x, scratch);
        self.follow(steps, scratch, 0, rows, row);
    }

    /// Adds what a function returns.
    pub(crate) fn add_result(&self, f: FunctionId, rows: &mut Rows, row: u32)
        requires sized { IsSized (length rows.old.sets) (length (locations self.now.program)) rows.old }
        requires row_in { row < length rows.old.sets }
        ensures gained { rows.new ≡ with_places self.now.program row (same_location (result_of f)) rows.old }
        ensures size { IsSized (length rows.old.sets) (length (locations self.now.program)) rows.new }
    {
        match place_at(self.tables.results.as_slice(), f) {
            Some(k) => rows.set(row, k),
            None => {}
        }
    }

    /// Adds the input, which is the first location.
    pub(crate) fn add_input(&self, rows: &mut Rows, row: u32)
        requires sized { IsSized (length rows.old.sets) (length (locations self.now.program)) rows.old }
        requires row_in { row < length rows.old.sets }
        ensures gained { rows.new ≡ with_places self.now.program row (same_location the_input) rows.old }
        ensures size { IsSized (length rows.old.sets) (length (locations self.now.program)) rows.new }
    {
        if self.tables.count > 0 {
            rows.set(row, 0);
        }
    }

    /// Whether an assignment to the name of a variable kills.
    pub(crate) fn is_killable(&self, x: VarId) -> bool
        ensures { result ≡ spec.is_killable self.now.program x }
    {
        self.is_global(x) || !self.is_taken(x)
    }

    fn is_global(&self, x: VarId) -> bool
        ensures { result ≡ spec.is_global self.now.program x }
    {
        match self.program.vars.get(x as usize) {
            Some(var) => var.owner.is_none(),
            None => false,
        }
    }

    fn is_taken(&self, x: VarId) -> bool
        ensures { result ≡ spec.is_taken self.now.program x }
    {
        self.tables.taken.get(x as usize).copied().unwrap_or(false)
    }

    // Makes a scratch row that to which the step leads from another.
    fn step(&self, step: Step, scratch: &mut Rows, from: u32, to: u32)
        requires from_in { from < 2 }
        requires to_in { to < 2 }
        requires apart { from ≢ to }
        requires scratch_sized { IsSized 2 (length (locations self.now.program)) scratch.old }
        ensures led { (a : Places) → the_set scratch.old from ≡ row_of self.now.program a
            → the_set scratch.new to ≡ row_of self.now.program (stepped self.now.program (points_in self.now) step a) }
        ensures scratch_size { IsSized 2 (length (locations self.now.program)) scratch.new }
    {
        match step {
            Step::Part(part) => self.parts_into(part, scratch, from, to),
            Step::Targets => self.targets_into(scratch, from, to),
        }
    }

    // Makes a scratch row that of a part of each location of another.
    fn parts_into(&self, part: Part, scratch: &mut Rows, from: u32, to: u32)
        requires from_in { from < 2 }
        requires to_in { to < 2 }
        requires apart { from ≢ to }
        requires scratch_sized { IsSized 2 (length (locations self.now.program)) scratch.old }
        ensures led { (a : Places) → the_set scratch.old from ≡ row_of self.now.program a
            → the_set scratch.new to ≡ row_of self.now.program (part_of self.now.program part a) }
        ensures scratch_size { IsSized 2 (length (locations self.now.program)) scratch.new }
    {
        scratch.clear(to);
        for k in 0..self.tables.count {
            if scratch.has(from, k) {
                match self.part_at(k, part) {
                    Some(j) => scratch.set(to, j),
                    None => {}
                }
            }
        }
    }

    // Makes a scratch row that of the locations to which some of another may point.
    fn targets_into(&self, scratch: &mut Rows, from: u32, to: u32)
        requires from_in { from < 2 }
        requires to_in { to < 2 }
        requires apart { from ≢ to }
        requires scratch_sized { IsSized 2 (length (locations self.now.program)) scratch.old }
        ensures led { (a : Places) → the_set scratch.old from ≡ row_of self.now.program a
            → the_set scratch.new to ≡ row_of self.now.program (targets self.now.program (points_in self.now) a) }
        ensures scratch_size { IsSized 2 (length (locations self.now.program)) scratch.new }
    {
        scratch.clear(to);
        for k in 0..self.tables.count {
            if scratch.has(from, k) {
                scratch.join_words(to, self.points.rows.words(k));
            }
        }
    }

    // The place of a part of the location at a place.
    fn part_at(&self, k: LocationId, part: Part) -> Option<LocationId>
        ensures { (l : Location) → slice_get (location_list self.now.program) k ≡ Some l → IsPlaceOf (location_list self.now.program) (inside l part) result }
    {
        match part {
            Part::Element => place_at(self.tables.elements.as_slice(), k),
            Part::Member(m) => place_at(row_at(self.tables.members.as_slice(), k), m),
        }
    }
}
