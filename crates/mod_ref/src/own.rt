//! What each function does itself, and which functions it calls, by one walk down the tree.
ghost use Rattle.std.specs.Prelude.{◌≡◌, ◌<◌, ◌^◌, OnOk, IfOk, length};
ghost use Rattle.dep_model.specs.Doings.{doings, body_doings};
ghost use Rattle.dep_model.specs.LocationLists.{location_list, AreListedOnce};
ghost use Rattle.dep_model.specs.LocationRows.{HasPointsRows};
ghost use Rattle.effect_rows.specs.Own.{own_doing};
ghost use Rattle.mod_ref.specs.Own.{HasOwnRows, IsAdded, IsCalled, IsOwn, own_doings, inside_doings, last_doings, arms_doings, part_doings, callee_of};

use bit_rows::Rows;
use c_tree::{Arm, Boxed, FunctionId, Program, Statement};
use dep_model::{Locations, PointsTo, Rule};
use effect_rows::LocationEffects;
use std::alloc::{AllocError, Global};

/// What the functions of a program do themselves, as far as the walk has come.
#[derive(Drop)]
pub(crate) struct Own<'p, 't> {
    /// What statements do to the program's locations.
    pub(crate) effects: LocationEffects<'p>,
    /// To what these may point.
    pub(crate) points: &'t PointsTo,
    /// How many functions there are.
    pub(crate) functions: u32,
    /// For each function the locations that a statement of it may define.
    pub(crate) modified: Rows,
    /// For each function those that a statement of it may use.
    pub(crate) used: Rows,
    /// The calls: what holds of the function called holds of the calling one.
    pub(crate) calls: Vec<Rule>,
}

/// What the functions of a program do themselves. Err: no memory was left.
pub(crate) fn find<'p, 't>(
    alloc: Global,
    p: &'p Program,
    l: &Locations,
    t: &'t PointsTo,
) -> Result<Own<'p, 't>, AllocError>
    requires few { length p.now.functions < 2 ^ 32 }
    requires list_is { l.now ≡ location_list p.now }
    requires once { AreListedOnce p.now }
    requires points_are { HasPointsRows p.now t.now }
    ensures { IfOk result (λ own. IsOwn p.now t.now (length p.now.functions) own) }
{
    let mut own = Own::of_none(alloc, p, l, t)?;
    for (f, function) in p.functions.as_slice().iter().enumerate() {
        own.statements(f as FunctionId, function.body.as_slice())?;
    }
    Ok(own)
}

/// The function that a statement calls.
#[tactic(auto, using(crate::proofs::Rules::own))]
fn callee(statement: &Statement) -> Option<FunctionId>
    ensures { result ≡ callee_of (own_doing statement.now) }
{
    match statement {
        Statement::Invoke { function, .. } => Some(*function),
        Statement::Declare { id: None, .. } => None,
        Statement::Declare { id: Some(_), .. } => None,
        Statement::Assign { .. } => None,
        Statement::Bump { .. } => None,
        Statement::Fetch { .. } => None,
        Statement::Write { .. } => None,
        Statement::Print { .. } => None,
        Statement::Heap { .. } => None,
        Statement::Release { .. } => None,
        Statement::If { .. } => None,
        Statement::While { .. } => None,
        Statement::Do { .. } => None,
        Statement::For { .. } => None,
        Statement::Switch { .. } => None,
        Statement::Block { .. } => None,
        Statement::Return { .. } => None,
    }
}

impl<'p, 't> Own<'p, 't> {
    // What no function does yet.
    fn of_none(
        alloc: Global,
        p: &'p Program,
        l: &Locations,
        t: &'t PointsTo,
    ) -> Result<Own<'p, 't>, AllocError>
        requires few { length p.now.functions < 2 ^ 32 }
        requires list_is { l.now ≡ location_list p.now }
        requires once { AreListedOnce p.now }
        requires points_are { HasPointsRows p.now t.now }
        ensures { IfOk result (λ own. IsOwn p.now t.now 0 own) }
    {
        let functions = p.functions.len() as u32;
        let effects = LocationEffects::new(alloc, p, l)?;
        let modified = Rows::new(alloc, functions, l.len())?;
        let used = Rows::new(alloc, functions, l.len())?;
        Ok(Own {
            effects,
            points: t,
            functions,
            modified,
            used,
            calls: Vec::new(alloc),
        })
    }

    // Adds a call, where the program has the function called.
    fn call(&mut self, f: FunctionId, g: Option<FunctionId>) -> Result<(), AllocError>
        requires rows { HasOwnRows self.old }
        requires f_in { f < self.old.functions }
        ensures { OnOk result (IsCalled f g self.old self.new) }
    {
        match g {
            None => Ok(()),
            Some(g) => {
                if g < self.functions {
                    self.calls.push(Rule {
                        first: g,
                        second: g,
                        gives: f,
                    })?;
                }
                Ok(())
            }
        }
    }

    // Adds what a statement of function `f` does itself, without the statements in it.
    fn alone(&mut self, f: FunctionId, statement: &Statement) -> Result<(), AllocError>
        requires rows { HasOwnRows self.old }
        requires f_in { f < self.old.functions }
        ensures { OnOk result (IsAdded f (own_doings statement.now) self.old self.new) }
    {
        self.effects
            .add_defines(self.points, f, statement, &mut self.modified, f);
        self.effects
            .add_uses(self.points, statement, &mut self.used, f);
        self.call(f, callee(statement))?;
        Ok(())
    }

    // Adds what statements of function `f` do, one after another.
    #[cycle(statement)]
    fn statements(&mut self, f: FunctionId, list: &[Statement]) -> Result<(), AllocError>
        requires rows { HasOwnRows self.old }
        requires f_in { f < self.old.functions }
        ensures added { OnOk result (IsAdded f (body_doings list.now) self.old self.new) }
        ensures rows { OnOk result (HasOwnRows self.new) }
        ensures f_in { OnOk result (f < self.new.functions) }
    {
        for statement in list {
            self.statement(f, statement)?;
        }
        Ok(())
    }

    // Adds what the statements of the arms of a switch do.
    #[cycle(statement)]
    fn arms(&mut self, f: FunctionId, list: &[Arm]) -> Result<(), AllocError>
        requires rows { HasOwnRows self.old }
        requires f_in { f < self.old.functions }
        ensures added { OnOk result (IsAdded f (arms_doings list.now) self.old self.new) }
        ensures rows { OnOk result (HasOwnRows self.new) }
        ensures f_in { OnOk result (f < self.new.functions) }
    {
        for arm in list {
            self.statements(f, arm.body.as_slice())?;
        }
        Ok(())
    }

    // Adds what a part of the head of a for does, where it has one.
    #[cycle(statement)]
    fn part(&mut self, f: FunctionId, part: &Option<Boxed<Statement>>) -> Result<(), AllocError>
        requires rows { HasOwnRows self.old }
        requires f_in { f < self.old.functions }
        ensures added { OnOk result (IsAdded f (part_doings part.now) self.old self.new) }
        ensures rows { OnOk result (HasOwnRows self.new) }
        ensures f_in { OnOk result (f < self.new.functions) }
    {
        match part {
            None => Ok(()),
            Some(statement) => {
                self.statement(f, statement.get())?;
                Ok(())
            }
        }
    }

    // Adds what a statement does, and what those in it do.
    #[cycle(statement)]
    fn statement(&mut self, f: FunctionId, statement: &Statement) -> Result<(), AllocError>
        requires rows { HasOwnRows self.old }
        requires f_in { f < self.old.functions }
        ensures added { OnOk result (IsAdded f (doings statement.now) self.old self.new) }
        ensures rows { OnOk result (HasOwnRows self.new) }
        ensures f_in { OnOk result (f < self.new.functions) }
    {
        self.alone(f, statement)?;
        self.inside(f, statement)?;
        Ok(())
    }

    // Adds what the statements in a statement do.
    #[cycle(statement)]
    fn inside(&mut self, f: FunctionId, statement: &Statement) -> Result<(), AllocError>
        requires rows { HasOwnRows self.old }
        requires f_in { f < self.old.functions }
        ensures added { OnOk result (IsAdded f (inside_doings statement.now) self.old self.new) }
        ensures rows { OnOk result (HasOwnRows self.new) }
        ensures f_in { OnOk result (f < self.new.functions) }
    {
        match statement {
            Statement::If { then, .. } => {
                self.statements(f, then.as_slice())?;
                self.last(f, statement)?;
                Ok(())
            }
            Statement::While { body, .. } => {
                self.statements(f, body.as_slice())?;
                Ok(())
            }
            Statement::Do { body, .. } => {
                self.statements(f, body.as_slice())?;
                Ok(())
            }
            Statement::For { init, step, .. } => {
                self.part(f, init)?;
                self.part(f, step)?;
                self.last(f, statement)?;
                Ok(())
            }
            Statement::Switch { arms, .. } => {
                self.arms(f, arms.as_slice())?;
                Ok(())
            }
            Statement::Block { body, .. } => {
                self.statements(f, body.as_slice())?;
                Ok(())
            }
            Statement::Declare { .. } => Ok(()),
            Statement::Assign { .. } => Ok(()),
            Statement::Bump { .. } => Ok(()),
            Statement::Invoke { .. } => Ok(()),
            Statement::Fetch { .. } => Ok(()),
            Statement::Write { .. } => Ok(()),
            Statement::Print { .. } => Ok(()),
            Statement::Heap { .. } => Ok(()),
            Statement::Release { .. } => Ok(()),
            Statement::Return { .. } => Ok(()),
        }
    }

    // Adds what the last part of a statement of several parts does: an else, or the body of a for.
    #[cycle(statement)]
    fn last(&mut self, f: FunctionId, statement: &Statement) -> Result<(), AllocError>
        requires rows { HasOwnRows self.old }
        requires f_in { f < self.old.functions }
        ensures added { OnOk result (IsAdded f (last_doings statement.now) self.old self.new) }
        ensures rows { OnOk result (HasOwnRows self.new) }
        ensures f_in { OnOk result (f < self.new.functions) }
    {
        match statement {
            Statement::If { other, .. } => {
                self.statements(f, other.as_slice())?;
                Ok(())
            }
            Statement::For { body, .. } => {
                self.statements(f, body.as_slice())?;
                Ok(())
            }
            Statement::Declare { .. } => Ok(()),
            Statement::Assign { .. } => Ok(()),
            Statement::Bump { .. } => Ok(()),
            Statement::Invoke { .. } => Ok(()),
            Statement::Fetch { .. } => Ok(()),
            Statement::Write { .. } => Ok(()),
            Statement::Print { .. } => Ok(()),
            Statement::Heap { .. } => Ok(()),
            Statement::Release { .. } => Ok(()),
            Statement::While { .. } => Ok(()),
            Statement::Do { .. } => Ok(()),
            Statement::Switch { .. } => Ok(()),
            Statement::Block { .. } => Ok(()),
            Statement::Return { .. } => Ok(()),
        }
    }
}
