//! Rows that say to what locations may point, as far as rounds have come, and single uses of pointings.
ghost use Rattle.std.specs.Prelude.{◌≡◌, ◌<◌, ◌+◌, ℕ, List, Some, false, slice_get, IfOk, length};
ghost use Rattle.bit_rows.specs.Tables.{the_set, empty_table};
ghost use Rattle.dep_model.specs.Denoted.{Places, whole, expr_points};
ghost use Rattle.dep_model.specs.DoingEffects.{result_of};
ghost use Rattle.dep_model.specs.LocationLists.{location_list, AreListedOnce};
ghost use Rattle.dep_model.specs.LocationRows.{points_of};
ghost use Rattle.dep_model.specs.Locations.{locations, same_location};
ghost use Rattle.dep_model.specs.MayPoint.{pointing, site, passed, parameters};
ghost use Rattle.effect_rows.specs.Gains.{row_of, with_places};
ghost use Rattle.effect_rows.specs.Own.{own_defines};
ghost use Rattle.effect_rows.specs.Tables.{IsPlaceOf};
ghost use Rattle.mod_ref.specs.Own.{own_doings};
ghost use Rattle.points_to.specs.declared.moves.Move.{Move};
ghost use Rattle.points_to.specs.Agendas.{is_settled};
ghost use Rattle.points_to.specs.Rounds.{IsRound, own_pointing_reads, own_called, returned_by};
ghost use Rattle.points_to.specs.Sweeps.{IsReady, IsFilled, IsGrownAt, IsJoinedAt, IsJoined, IsUsed, IsSwept, at_root, standing, stored, given_by, init_given, returned_given};

use crate::agenda::Agenda;
use crate::blocks::next_place;
use crate::moves::Move;
use bit_rows::Rows;
use c_tree::{Expr, FunctionId, Init, Program, Statement, StatementId, VarId};
use dep_model::{Location, LocationId, Locations, PointsTo, Root};
use effect_rows::LocationEffects;
use sqlite_items::Items;
use std::alloc::{AllocError, Global};

/// To what the locations of a program may point, as far as rounds have come.
#[derive(Drop)]
pub(crate) struct Solver<'p, 'l> {
    /// The program.
    pub(crate) program: &'p Program,
    /// What its statements and expressions do to its locations.
    pub(crate) effects: LocationEffects<'p>,
    /// Its locations.
    pub(crate) list: &'l Locations,
    /// For each of them those to which it may point.
    pub(crate) points: PointsTo,
    /// The left side of a pointing, its right side, and what is read for both.
    pub(crate) sides: Rows,
    /// The statements that are to be used.
    pub(crate) agenda: Agenda,
}

impl<'p, 'l> Solver<'p, 'l> {
    /// No location points anywhere yet. Err: no memory was left.
    pub(crate) fn new(
        alloc: Global,
        program: &'p Program,
        list: &'l Locations,
        effects: LocationEffects<'p>,
        statements: u32,
    ) -> Result<Solver<'p, 'l>, AllocError>
        requires list_is { list.now ≡ location_list program.now }
        requires once { AreListedOnce program.now }
        requires effects { effects ≡ program.now }
        ensures ready { IfOk result (λ w. IsReady w) }
        ensures program { IfOk result (λ w. w.effects ≡ program.now) }
        ensures nowhere { IfOk result (λ w. w.points.rows ≡ empty_table (length (location_list program.now)) (length (location_list program.now))) }
        ensures statements { IfOk result (λ w. w.agenda.readers.bits ≡ statements) }
        ensures none { IfOk result (λ w. (k : ℕ) → is_settled w.agenda k ≡ false) }
    {
        let rows = Rows::new(alloc, list.len(), list.len())?;
        let sides = Rows::new(alloc, 3, list.len())?;
        let agenda = Agenda::new(alloc, list.len(), statements)?;
        Ok(Solver {
            program,
            effects,
            list,
            points: PointsTo { rows },
            sides,
            agenda,
        })
    }

    // Adds the right side to the row of a location. Where the row grows, what has read it is used again. Tells whether it grew.
    fn grow(&mut self, place: LocationId) -> bool
        requires ready { IsReady self.old }
        requires place_in { place < length (location_list self.old.effects) }
        ensures { IsGrownAt place self.old self.new result }
    {
        if self.points.rows.join_words(place, self.sides.words(1)) {
            self.agenda.tell(place);
            true
        } else {
            false
        }
    }

    /// Adds the right side to the row of a location, where that is on the left. Tells whether the row changed.
    fn join_at(&mut self, place: LocationId) -> bool
        requires ready { IsReady self.old }
        requires place_in { place < length (location_list self.old.effects) }
        ensures { IsJoinedAt place self.old self.new result }
    {
        if self.sides.has(0, place) {
            self.grow(place)
        } else {
            false
        }
    }

    /// Uses the pointing of the two sides: each location on the left may point to all those on the right. Tells whether
    /// a row changed.
    fn join(&mut self) -> bool
        requires ready { IsReady self.old }
        ensures { IsJoined self.old self.new result }
    {
        let count = self.list.len();
        let mut changed = false;
        let mut place = next_place(&self.sides, 0, 0, count);
        while place < count {
            let more = self.join_at(place);
            changed |= more;
            place = next_place(&self.sides, 0, place + 1, count);
        }
        changed
    }

    /// Makes the left side what a statement of function `f` itself may define.
    fn define(&mut self, f: FunctionId, statement: &Statement)
        requires ready { IsReady self.old }
        ensures ready { IsReady self.new }
        ensures rows { standing self.new ≡ standing self.old }
        ensures program { self.new.effects ≡ self.old.effects }
        ensures left { the_set self.new.sides 0 ≡ row_of self.old.effects (own_defines self.old.effects (points_of self.old.effects self.old.points) f statement.now) }
    {
        self.sides.clear(0);
        self.effects
            .add_defines(&self.points, f, statement, &mut self.sides, 0);
    }

    /// Makes the right side where a value may point.
    fn fill_value(&mut self, value: &Expr)
        requires ready { IsReady self.old }
        ensures { IsFilled (expr_points self.old.effects (points_of self.old.effects self.old.points) value.now) self.old self.new }
    {
        self.sides.clear(1);
        self.effects
            .add_points(&self.points, value, &mut self.sides, 1);
    }

    /// Stores a value in what is on the left. Tells whether a row changed.
    fn store(&mut self, value: &Expr) -> bool
        requires ready { IsReady self.old }
        ensures used { (into : Places) → the_set self.old.sides 0 ≡ row_of self.old.effects into
            → IsUsed self.old.effects (pointing into (expr_points self.old.effects (points_of self.old.effects self.old.points) value.now)) (standing self.old) self.new result }
        ensures left { the_set self.new.sides 0 ≡ the_set self.old.sides 0 }
        ensures ready { IsReady self.new }
        ensures program { self.new.effects ≡ self.old.effects }
    {
        self.fill_value(value);
        self.join()
    }

    /// Stores each of some values there.
    fn store_all(&mut self, values: &[Expr]) -> bool
        requires ready { IsReady self.old }
        ensures { (into : Places) → the_set self.old.sides 0 ≡ row_of self.old.effects into
            → IsSwept self.old.effects (stored self.old.effects into values.now) (standing self.old) self.new result }
    {
        let mut changed = false;
        for value in values {
            let more = self.store(value);
            changed |= more;
        }
        changed
    }

    /// Stores there what an object begins with.
    fn store_init(&mut self, init: &Init) -> bool
        requires ready { IsReady self.old }
        ensures { (into : Places) → the_set self.old.sides 0 ≡ row_of self.old.effects into
            → IsSwept self.old.effects (init_given self.old.effects into init.now) (standing self.old) self.new result }
    {
        match init {
            Init::None => false,
            Init::One(value) => self.store(value),
            Init::Items(values) => self.store_all(values.as_slice()),
        }
    }

    /// Stores there what a return gives, where it gives a value.
    fn store_returned(&mut self, value: &Option<Expr>) -> bool
        requires ready { IsReady self.old }
        ensures { (into : Places) → the_set self.old.sides 0 ≡ row_of self.old.effects into
            → IsSwept self.old.effects (returned_given self.old.effects into value.now) (standing self.old) self.new result }
    {
        match value {
            None => false,
            Some(value) => self.store(value),
        }
    }

    /// The place of a whole object in the list of locations, where it stands there.
    fn place_of(&self, alloc: Global, root: Root) -> Option<LocationId>
        requires { self.now.list.now ≡ location_list self.now.effects }
        ensures { IsPlaceOf (location_list self.now.effects) (at_root root) result }
    {
        self.list.id(&Location {
            root,
            path: Items::new(alloc),
        })
    }

    /// Makes the right side what a statement allocates.
    fn fill_site(&mut self, alloc: Global, id: StatementId)
        requires ready { IsReady self.old }
        ensures { IsFilled (same_location (site id)) self.old self.new }
    {
        self.sides.clear(1);
        match self.place_of(alloc, Root::Site(id)) {
            Some(place) => self.sides.set(1, place),
            None => {}
        }
    }

    /// Stores the address of what a statement allocates in what is on the left. Tells whether a row changed.
    fn store_site(&mut self, alloc: Global, id: StatementId) -> bool
        requires ready { IsReady self.old }
        ensures { (into : Places) → the_set self.old.sides 0 ≡ row_of self.old.effects into
            → IsUsed self.old.effects (pointing into (same_location (site id))) (standing self.old) self.new result }
    {
        self.fill_site(alloc, id);
        self.join()
    }

    /// Makes the right side where the result of a function may point.
    fn fill_result(&mut self, alloc: Global, f: FunctionId)
        requires ready { IsReady self.old }
        ensures { IsFilled (points_of self.old.effects self.old.points (result_of f)) self.old self.new }
    {
        self.sides.clear(1);
        match self.place_of(alloc, Root::Result(f)) {
            Some(place) => {
                self.sides.join_words(1, self.points.rows.words(place));
            }
            None => {}
        }
    }

    /// Stores the result of a function in what is on the left. Tells whether a row changed.
    fn store_result(&mut self, alloc: Global, f: FunctionId) -> bool
        requires ready { IsReady self.old }
        ensures { (into : Places) → the_set self.old.sides 0 ≡ row_of self.old.effects into
            → IsUsed self.old.effects (pointing into (points_of self.old.effects self.old.points (result_of f))) (standing self.old) self.new result }
    {
        self.fill_result(alloc, f);
        self.join()
    }

    /// Passes an argument to a parameter.
    fn pass_one(&mut self, parameter: VarId, value: &Expr) -> bool
        requires ready { IsReady self.old }
        ensures { IsUsed self.old.effects (pointing (whole parameter) (expr_points self.old.effects (points_of self.old.effects self.old.points) value.now)) (standing self.old) self.new result }
    {
        self.sides.clear(0);
        self.effects
            .add_variable(&self.points, parameter, &mut self.sides, 0);
        self.store(value)
    }

    /// Passes arguments to parameters, as many as there are of both.
    fn pass(&mut self, parameters: &[VarId], values: &[Expr]) -> bool
        requires ready { IsReady self.old }
        ensures { IsSwept self.old.effects (λ points. passed self.old.effects points parameters.now values.now) (standing self.old) self.new result }
    {
        match parameters.split_first() {
            None => false,
            Some((parameter, parameters)) => match values.split_first() {
                None => false,
                Some((value, values)) => {
                    let first = self.pass_one(*parameter, value);
                    let more = self.pass(parameters, values);
                    first | more
                }
            },
        }
    }

    /// The parameters of a function, none where the program lacks it.
    fn parameters(&self, f: FunctionId) -> &'p [VarId]
        requires { IsReady self.now }
        ensures { result.now ≡ parameters self.now.effects f }
    {
        match self.program.functions.as_slice().get(f as usize) {
            Some(function) => function.params.as_slice(),
            None => &[],
        }
    }

    /// Uses the pointings of a statement of function `f` itself, without the statements in it. Tells whether a row
    /// changed.
    pub(crate) fn alone(&mut self, alloc: Global, f: FunctionId, statement: &Statement) -> bool
        requires ready { IsReady self.old }
        ensures { IsSwept self.old.effects (given_by self.old.effects f (own_doings statement.now)) (standing self.old) self.new result }
    {
        self.define(f, statement);
        match statement {
            Statement::Declare { id, init, .. } => match id {
                None => false,
                Some(_) => self.store_init(init),
            },
            Statement::Assign { right, .. } => self.store(right),
            Statement::Invoke { function, args, .. } => {
                let stored = self.store_result(alloc, *function);
                let parameters = self.parameters(*function);
                let passed = self.pass(parameters, args.as_slice());
                stored | passed
            }
            Statement::Heap { id, .. } => self.store_site(alloc, *id),
            Statement::Return { value, .. } => self.store_returned(value),
            Statement::Bump { .. } => false,
            Statement::Fetch { .. } => false,
            Statement::Write { .. } => false,
            Statement::Print { .. } => false,
            Statement::Release { .. } => false,
            Statement::If { .. } => false,
            Statement::While { .. } => false,
            Statement::Do { .. } => false,
            Statement::For { .. } => false,
            Statement::Switch { .. } => false,
            Statement::Block { .. } => false,
        }
    }

    // Makes the last row what is read for the pointings of a statement: what it may use, and of a call what the function returns.
    fn find_reads(&mut self, statement: &Statement)
        requires ready { IsReady self.old }
        ensures ready { IsReady self.new }
        ensures rows { standing self.new ≡ standing self.old }
        ensures program { self.new.effects ≡ self.old.effects }
        ensures read { the_set self.new.sides 2 ≡ row_of self.old.effects (own_pointing_reads self.old.effects (points_of self.old.effects self.old.points) statement.now) }
    {
        self.sides.clear(2);
        self.effects
            .add_uses(&self.points, statement, &mut self.sides, 2);
        self.add_returned(called(statement));
    }

    // Adds what a function returns, where one is called.
    fn add_returned(&mut self, called: Option<FunctionId>)
        requires ready { IsReady self.old }
        ensures ready { IsReady self.new }
        ensures rows { standing self.new ≡ standing self.old }
        ensures program { self.new.effects ≡ self.old.effects }
        ensures gained { self.new.sides ≡ with_places self.old.effects 2 (returned_by called) self.old.sides }
    {
        match called {
            None => {}
            Some(f) => self.effects.add_result(&self.points, f, &mut self.sides, 2),
        }
    }

    /// Uses the pointings of statement number `k` of a list. Tells whether a row changed.
    pub(crate) fn take(&mut self, alloc: Global, k: u32, step: &Move<'_>) -> bool
        requires ready { IsReady self.old }
        requires inside { k < self.old.agenda.readers.bits }
        ensures { (moves : List Move) → slice_get moves k ≡ Some step.now → IsRound self.old.effects moves k (k + 1) self.old self.new result }
    {
        self.find_reads(step.statement);
        self.agenda.settle(k);
        self.agenda.note(k, &self.sides, 2, self.list.len());
        self.alone(alloc, step.function, step.statement)
    }
}

// The function that a statement calls.
#[tactic(auto, using(crate::proofs::Rules::own))]
fn called(statement: &Statement) -> Option<FunctionId>
    ensures { result ≡ own_called statement.now }
{
    match statement {
        Statement::Declare { id, .. } => match id {
            None => None,
            Some(_) => None,
        },
        Statement::Invoke { function, .. } => Some(*function),
        Statement::Assign { .. } => None,
        Statement::Bump { .. } => None,
        Statement::Fetch { .. } => None,
        Statement::Write { .. } => None,
        Statement::Print { .. } => None,
        Statement::Heap { .. } => None,
        Statement::Release { .. } => None,
        Statement::Return { .. } => None,
        Statement::If { .. } => None,
        Statement::While { .. } => None,
        Statement::Do { .. } => None,
        Statement::For { .. } => None,
        Statement::Switch { .. } => None,
        Statement::Block { .. } => None,
    }
}
