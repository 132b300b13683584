//! What the rows of vertices are made from: a program, where its locations may point, and its statements by number.
ghost use Rattle.std.specs.Prelude.{◌≡◌, ◌<◌, ℕ, false, IfOk, IfSome, Some, None, length, slice_get};
ghost use Rattle.bit_rows.specs.Tables.{IsSized};
ghost use Rattle.dep_model.specs.LocationLists.{location_list, AreListedOnce};
ghost use Rattle.dep_model.specs.LocationRows.{HasPointsRows};
ghost use Rattle.dep_model.specs.Locations.{locations};
ghost use Rattle.dep_model.specs.MayPoint.{parameters};
ghost use Rattle.dep_model.specs.VertexOrder as spec;
ghost use Rattle.dep_model.specs.declared.vertex.Slot.TheVariants as slot;
ghost use Rattle.effect_rows.specs.Gains.{with_places};
ghost use Rattle.effect_rows.specs.Own.{own_doing};
ghost use Rattle.vertex_layout.specs.RowWork as rowing;
ghost use Rattle.vertex_layout.specs.RowWork.{work_on, points_for, own_at, defines_where, kills_where, IsFound};
ghost use Rattle.vertex_layout.specs.CallParts.{IsCall};

use crate::calls::{Call, call_of, is_call};
use crate::statements;
use bit_rows::Rows;
use c_tree::{FunctionId, Program, Statement, StatementId, VarId};
use dep_model::{LocationId, Locations, PointsTo, Slot, VertexKind};
use effect_rows::LocationEffects;
use std::alloc::{AllocError, Global};
use std::marker::Model;

/// What the rows are made from. Contracts see the program, where its locations may point, and what its
/// statements do by their numbers.
#[derive(Drop)]
pub(crate) struct RowWork<'p, 't> {
    program: &'p Program,
    points: &'t PointsTo,
    statements: Vec<&'p Statement>,
    effects: LocationEffects<'p>,
    locations: u32,
}

impl<'p, 't> Model for RowWork<'p, 't> {
    ghost use Rattle.std.specs.Coded.{codes};
    ghost use Rattle.std.specs.Prelude.{◌≡◌};
    ghost use Rattle.c_tree.specs.contracts.expr.Expr as expr;
    ghost use Rattle.c_tree.specs.contracts.statement.Statement as statement;
    ghost use Rattle.c_tree.specs.contracts.types.CType as shape;
    ghost use Rattle.vertex_layout.specs.OwnStatements.{own_doings};
    ghost use Rattle.vertex_layout.specs.RowWork as work;
    ghost use Rattle.vertex_layout.specs.RowWork.{IsWork};

    ghost Value = { work.RowWork };

    ghost coded = { Prim.hlevel (codes, expr.the_row.coded, statement.the_row.coded, shape.the_row.coded) };

    ghost view = { λ w. record { program = w.program.now; rows = w.points.now; doings = own_doings w.statements.items } };

    ghost invariant = { λ w. record {
      is : IsWork w.program.now w.points.now w.locations;
      same : w.effects ≡ w.program.now;
    } };
}

// A parameter of a function, by its place.
fn parameter(p: &Program, f: FunctionId, k: u32) -> Option<VarId>
    ensures { result ≡ slice_get (parameters p.now f) k }
{
    match p.functions.get(f as usize) {
        None => None,
        Some(function) => function.params.get(k as usize).copied(),
    }
}

impl<'p, 't> RowWork<'p, 't> {
    /// What the rows of a program's vertices are made from. Err: no memory was left.
    pub(crate) fn of(
        alloc: Global,
        p: &'p Program,
        l: &Locations,
        t: &'t PointsTo,
    ) -> Result<RowWork<'p, 't>, AllocError>
        requires list_is { l.now ≡ location_list p.now }
        requires once { AreListedOnce p.now }
        requires points_are { HasPointsRows p.now t.now }
        ensures { IfOk result (λ w. w ≡ work_on p.now t.now) }
    {
        let statements = statements::of_program(alloc, p)?;
        let effects = LocationEffects::new(alloc, p, l)?;
        Ok(RowWork {
            program: p,
            points: t,
            statements,
            effects,
            locations: l.len(),
        })
    }

    // The statement with a number.
    fn statement(&self, i: StatementId) -> Option<&'p Statement>
        ensures none { result ≡ None → own_at self.now i ≡ None }
        ensures some { IfSome result (λ s. own_at self.now i ≡ own_doing s.now) }
    {
        self.statements.get(i as usize).copied()
    }

    // What the statement with a number calls a function with, where it does.
    fn call(&self, i: StatementId) -> Option<Call<'p>>
        ensures none { result ≡ None → rowing.is_call (own_at self.now i) ≡ false }
        ensures some { IfSome result (λ c. IsCall (own_at self.now i) c) }
    {
        call_of(self.statement(i)?)
    }

    // Adds the location at a place.
    fn add_location(&self, k: LocationId, rows: &mut Rows, row: u32)
        requires sized { IsSized (length rows.old.sets) (length (locations self.now.program)) rows.old }
        requires row_in { row < length rows.old.sets }
        ensures gained { rows.new ≡ with_places self.now.program row (spec.of_location self.now.program (points_for self.now) (slice_get (locations self.now.program) k)) rows.old }
        ensures size { IsSized (length rows.old.sets) (length (locations self.now.program)) rows.new }
    {
        if k < self.locations {
            rows.set(row, k);
        }
    }

    // Adds the locations of a slot of a function.
    fn add_slot(&mut self, f: FunctionId, slot: Slot, rows: &mut Rows, row: u32)
        requires sized { IsSized (length rows.old.sets) (length (locations self.old.program)) rows.old }
        requires row_in { row < length rows.old.sets }
        ensures gained { rows.new ≡ with_places self.old.program row (spec.slot_places self.old.program (points_for self.old) f slot) rows.old }
        ensures size { IsSized (length rows.old.sets) (length (locations self.old.program)) rows.new }
        ensures kept { self.new ≡ self.old }
    {
        match slot {
            Slot::Argument(k) => {
                if let Some(x) = parameter(self.program, f, k) {
                    self.effects.add_variable(self.points, x, rows, row);
                }
            }
            Slot::Result => self.effects.add_result(self.points, f, rows, row),
            Slot::At(k) => self.add_location(k, rows, row),
        }
    }

    // Adds what the actual-in of an argument reads.
    fn add_argument(&mut self, i: StatementId, k: u32, rows: &mut Rows, row: u32)
        requires sized { IsSized (length rows.old.sets) (length (locations self.old.program)) rows.old }
        requires row_in { row < length rows.old.sets }
        ensures gained { (f : ℕ) → rows.new ≡ with_places self.old.program row (spec.actual_uses self.old.program (points_for self.old) f (own_at self.old i) (slot.Argument k)) rows.old }
        ensures size { IsSized (length rows.old.sets) (length (locations self.old.program)) rows.new }
        ensures kept { self.new ≡ self.old }
    {
        if let Some(call) = self.call(i) {
            if let Some(argument) = call.args.get(k as usize) {
                self.effects.add_reads(self.points, argument, rows, row);
            }
        }
    }

    // Adds what the actual-out of a result reads to find where it is stored.
    fn add_out_uses(&mut self, i: StatementId, rows: &mut Rows, row: u32)
        requires sized { IsSized (length rows.old.sets) (length (locations self.old.program)) rows.old }
        requires row_in { row < length rows.old.sets }
        ensures gained { rows.new ≡ with_places self.old.program row (spec.out_uses self.old.program (points_for self.old) (own_at self.old i) slot.Result) rows.old }
        ensures size { IsSized (length rows.old.sets) (length (locations self.old.program)) rows.new }
        ensures kept { self.new ≡ self.old }
    {
        if let Some(call) = self.call(i) {
            self.effects
                .add_target_reads(self.points, call.target, rows, row);
        }
    }

    // Adds what a vertex may use.
    pub(crate) fn add_uses(&mut self, f: FunctionId, kind: VertexKind, rows: &mut Rows, row: u32)
        requires found { IsFound self.old.program self.old.doings f kind }
        requires sized { IsSized (length rows.old.sets) (length (locations self.old.program)) rows.old }
        requires row_in { row < length rows.old.sets }
        ensures gained { rows.new ≡ with_places self.old.program row (spec.kind_uses self.old.program (points_for self.old) f kind) rows.old }
        ensures size { IsSized (length rows.old.sets) (length (locations self.old.program)) rows.new }
        ensures kept { self.new ≡ self.old }
    {
        match kind {
            VertexKind::Entry => {}
            VertexKind::FormalIn(_) => {}
            VertexKind::Call(_) => {}
            VertexKind::FormalOut(slot) => self.add_slot(f, slot, rows, row),
            VertexKind::Statement(i) => self.add_statement_uses(i, rows, row),
            VertexKind::ActualIn(_, Slot::Result) => {}
            VertexKind::ActualIn(i, Slot::Argument(k)) => self.add_argument(i, k, rows, row),
            VertexKind::ActualIn(_, Slot::At(k)) => self.add_location(k, rows, row),
            VertexKind::ActualOut(i, Slot::Result) => self.add_out_uses(i, rows, row),
            VertexKind::ActualOut(_, Slot::Argument(_)) => {}
            VertexKind::ActualOut(_, Slot::At(_)) => {}
        }
    }

    // Adds what the vertex of a statement that isn't a call may use.
    fn add_statement_uses(&mut self, i: StatementId, rows: &mut Rows, row: u32)
        requires sized { IsSized (length rows.old.sets) (length (locations self.old.program)) rows.old }
        requires row_in { row < length rows.old.sets }
        ensures gained { rows.new ≡ with_places self.old.program row (spec.statement_uses self.old.program (points_for self.old) (own_at self.old i)) rows.old }
        ensures size { IsSized (length rows.old.sets) (length (locations self.old.program)) rows.new }
        ensures kept { self.new ≡ self.old }
    {
        if let Some(statement) = self.statement(i) {
            if !is_call(statement) {
                self.effects.add_uses(self.points, statement, rows, row);
            }
        }
    }

    // Adds what a vertex may define. The vertex of a call statement's stored result defines what the statement does.
    pub(crate) fn add_defines(&mut self, f: FunctionId, kind: VertexKind, rows: &mut Rows, row: u32)
        requires found { IsFound self.old.program self.old.doings f kind }
        requires sized { IsSized (length rows.old.sets) (length (locations self.old.program)) rows.old }
        requires row_in { row < length rows.old.sets }
        ensures gained { rows.new ≡ with_places self.old.program row (spec.kind_defines self.old.program (points_for self.old) f kind) rows.old }
        ensures size { IsSized (length rows.old.sets) (length (locations self.old.program)) rows.new }
        ensures kept { self.new ≡ self.old }
    {
        match kind {
            VertexKind::Entry => {}
            VertexKind::FormalOut(_) => {}
            VertexKind::Call(_) => {}
            VertexKind::ActualIn(_, _) => {}
            VertexKind::FormalIn(slot) => self.add_slot(f, slot, rows, row),
            VertexKind::Statement(i) => self.add_own_defines(f, i, false, rows, row),
            VertexKind::ActualOut(_, Slot::Argument(_)) => {}
            VertexKind::ActualOut(_, Slot::At(k)) => self.add_location(k, rows, row),
            VertexKind::ActualOut(i, Slot::Result) => self.add_own_defines(f, i, true, rows, row),
        }
    }

    // Adds what a statement itself may define, where it is a call or else where it is none.
    fn add_own_defines(
        &mut self,
        f: FunctionId,
        i: StatementId,
        of_call: bool,
        rows: &mut Rows,
        row: u32,
    )
        requires sized { IsSized (length rows.old.sets) (length (locations self.old.program)) rows.old }
        requires row_in { row < length rows.old.sets }
        ensures gained { rows.new ≡ with_places self.old.program row (defines_where self.old f (own_at self.old i) of_call) rows.old }
        ensures size { IsSized (length rows.old.sets) (length (locations self.old.program)) rows.new }
        ensures kept { self.new ≡ self.old }
    {
        if let Some(statement) = self.statement(i) {
            if is_call(statement) == of_call {
                self.effects
                    .add_defines(self.points, f, statement, rows, row);
            }
        }
    }

    // Adds what a vertex kills.
    pub(crate) fn add_kills(&mut self, f: FunctionId, kind: VertexKind, rows: &mut Rows, row: u32)
        requires found { IsFound self.old.program self.old.doings f kind }
        requires sized { IsSized (length rows.old.sets) (length (locations self.old.program)) rows.old }
        requires row_in { row < length rows.old.sets }
        ensures gained { rows.new ≡ with_places self.old.program row (spec.kind_kills self.old.program (points_for self.old) f kind) rows.old }
        ensures size { IsSized (length rows.old.sets) (length (locations self.old.program)) rows.new }
        ensures kept { self.new ≡ self.old }
    {
        match kind {
            VertexKind::Entry => {}
            VertexKind::FormalIn(_) => {}
            VertexKind::FormalOut(_) => {}
            VertexKind::Call(_) => {}
            VertexKind::ActualIn(_, _) => {}
            VertexKind::Statement(i) => self.add_own_kills(f, i, false, rows, row),
            VertexKind::ActualOut(_, Slot::Argument(_)) => {}
            VertexKind::ActualOut(_, Slot::At(k)) => self.add_location(k, rows, row),
            VertexKind::ActualOut(i, Slot::Result) => self.add_own_kills(f, i, true, rows, row),
        }
    }

    // Adds what a statement itself kills, where it is a call or else where it is none.
    fn add_own_kills(
        &mut self,
        f: FunctionId,
        i: StatementId,
        of_call: bool,
        rows: &mut Rows,
        row: u32,
    )
        requires sized { IsSized (length rows.old.sets) (length (locations self.old.program)) rows.old }
        requires row_in { row < length rows.old.sets }
        ensures gained { rows.new ≡ with_places self.old.program row (kills_where self.old f (own_at self.old i) of_call) rows.old }
        ensures size { IsSized (length rows.old.sets) (length (locations self.old.program)) rows.new }
        ensures kept { self.new ≡ self.old }
    {
        if let Some(statement) = self.statement(i) {
            if is_call(statement) == of_call {
                self.effects.add_kills(self.points, f, statement, rows, row);
            }
        }
    }
}
