//! What stays of statements, by one walk down the tree.
ghost use Rattle.std.specs.Prelude.{◌≡◌, ◌++◌, IfOk, OnOk};
ghost use Rattle.std.specs.Option.{option_to_list};
ghost use Rattle.projection.specs.Selected.{AreSelected, numbers, kept_by, left as left_of, all_left, part_left, arguments_left, arm_left, arms_left, if_left, while_left, do_left, for_left, switch_left};
ghost use Rattle.projection.specs.Projection as spec;
ghost use Rattle.c_tree.specs.declared.statement.Statement.TheVariants as s;

use crate::parts::KeptParts;
use crate::renaming::{
    all_renamed, labels_renamed, renamed, renamed_amount, renamed_init, renamed_target,
    renamed_value,
};
use c_arith::BinaryOp;
use c_tree::{
    Amount, Arm, Boxed, CType, Expr, FunctionId, Init, Items, Statement, StatementId, Target, Text,
    VarId,
};
use kept_numbers::{Renumbering, is_at};
use std::alloc::{AllocError, Global};

/// What a projection keeps, and the new numbers of statements, variables and functions.
#[derive(Drop)]
pub(crate) struct Selection<'a> {
    /// The parts that are kept.
    pub(crate) parts: &'a KeptParts,
    pub(crate) statements: Renumbering<'a>,
    /// The variables whose declarations stay.
    pub(crate) variables: Renumbering<'a>,
    pub(crate) functions: Renumbering<'a>,
    /// For each function whether it still gives a result, if it gave one.
    pub(crate) gives: &'a [bool],
}

impl<'a> Selection<'a> {
    /// What these parts keep, with these variables and these functions that still give a result. Err:
    /// no memory was left.
    pub(crate) fn new(
        alloc: Global,
        parts: &'a KeptParts,
        variables: &'a [bool],
        gives: &'a [bool],
    ) -> Result<Selection<'a>, AllocError>
        ensures { IfOk result (λ c. AreSelected parts.now variables.now gives.now c) }
    {
        Ok(Selection {
            parts,
            statements: Renumbering::new(alloc, parts.statements.as_slice())?,
            variables: Renumbering::new(alloc, variables)?,
            functions: Renumbering::new(alloc, parts.functions.as_slice())?,
            gives,
        })
    }
}

impl Selection<'_> {
    /// What stays of statements that stand one after another. Err: no memory was left.
    #[cycle(statement)]
    pub(crate) fn body(
        &self,
        alloc: Global,
        list: &[Statement],
    ) -> Result<Items<Statement>, AllocError>
        ensures { IfOk result (λ all. all ≡ all_left self.now list.now) }
    {
        let mut all = Items::new(alloc);
        for statement in list {
            self.statement(alloc, statement, &mut all)?;
        }
        Ok(all)
    }

    // Adds what stays of a statement.
    #[cycle(statement)]
    fn statement(
        &self,
        alloc: Global,
        statement: &Statement,
        all: &mut Items<Statement>,
    ) -> Result<(), AllocError>
        ensures { OnOk result (all.new ≡ all.old ++ left_of self.now statement.now) }
    {
        match statement {
            Statement::Declare {
                id,
                line,
                var,
                init,
            } => {
                put(all, self.declaration(alloc, *id, *line, *var, init)?)?;
                Ok(())
            }
            Statement::Assign {
                id,
                line,
                left,
                op,
                right,
            } => {
                put(all, self.assignment(alloc, *id, *line, left, *op, right)?)?;
                Ok(())
            }
            Statement::Bump {
                id,
                line,
                left,
                up,
                before,
            } => {
                put(all, self.bump(alloc, *id, *line, left, *up, *before)?)?;
                Ok(())
            }
            Statement::Invoke {
                id,
                line,
                target,
                function,
                args,
            } => {
                self.call(alloc, all, *id, *line, target, *function, args.as_slice())?;
                Ok(())
            }
            Statement::Fetch { id, line, target } => {
                put(all, self.fetch(alloc, *id, *line, target)?)?;
                Ok(())
            }
            Statement::Write { id, line, value } => {
                put(all, self.write(alloc, *id, *line, value)?)?;
                Ok(())
            }
            Statement::Print {
                id,
                line,
                format,
                args,
            } => {
                put(all, self.print(alloc, *id, *line, format, args.as_slice())?)?;
                Ok(())
            }
            Statement::Heap {
                id,
                line,
                target,
                cast,
                amount,
            } => {
                put(
                    all,
                    self.allocation(alloc, *id, *line, target, cast, amount)?,
                )?;
                Ok(())
            }
            Statement::Release { id, line, value } => {
                put(all, self.release(alloc, *id, *line, value)?)?;
                Ok(())
            }
            Statement::If {
                id,
                line,
                test,
                then,
                other,
            } => {
                let then = self.body(alloc, then.as_slice())?;
                let other = self.body(alloc, other.as_slice())?;
                put(all, self.conditional(alloc, *id, *line, test, then, other)?)?;
                Ok(())
            }
            Statement::While {
                id,
                line,
                test,
                body,
            } => {
                let body = self.body(alloc, body.as_slice())?;
                put(all, self.while_loop(alloc, *id, *line, test, body)?)?;
                Ok(())
            }
            Statement::Do {
                id,
                line,
                test,
                body,
            } => {
                let body = self.body(alloc, body.as_slice())?;
                put(all, self.do_loop(alloc, *id, *line, test, body)?)?;
                Ok(())
            }
            Statement::For {
                id,
                line,
                init,
                test,
                step,
                body,
            } => {
                let init = self.part(alloc, init)?;
                let step = self.part(alloc, step)?;
                let body = self.body(alloc, body.as_slice())?;
                put(
                    all,
                    self.for_loop(alloc, *id, *line, init, test, step, body)?,
                )?;
                Ok(())
            }
            Statement::Switch {
                id,
                line,
                test,
                arms,
            } => {
                let arms = self.arms(alloc, arms.as_slice())?;
                put(all, self.switch(alloc, *id, *line, test, arms)?)?;
                Ok(())
            }
            Statement::Block { line, body } => {
                let body = self.body(alloc, body.as_slice())?;
                put(all, block_of(*line, body))?;
                Ok(())
            }
            Statement::Return { id, line, value } => {
                put(all, self.returned(alloc, *id, *line, value)?)?;
                Ok(())
            }
        }
    }

    // ---- declarations, and what stays of one without its initialiser

    fn bare(&self, line: u32, var: VarId) -> Option<Statement>
        ensures { option_to_list result ≡ spec.bare (kept_by self.now) (numbers self.now) line var }
    {
        match self.variables.number(var) {
            None => None,
            Some(var) => Some(Statement::Declare {
                id: None,
                line,
                var,
                init: Init::None,
            }),
        }
    }

    fn bare_target(&self, line: u32, to: &Target) -> Option<Statement>
        ensures { option_to_list result ≡ spec.bare_target (kept_by self.now) (numbers self.now) line to.now }
    {
        match to {
            Target::None => None,
            Target::Place(_) => None,
            Target::Declared(var) => self.bare(line, *var),
        }
    }

    fn declaration(
        &self,
        alloc: Global,
        id: Option<StatementId>,
        line: u32,
        var: VarId,
        init: &Init,
    ) -> Result<Option<Statement>, AllocError>
        ensures { IfOk result (λ left. option_to_list left ≡ spec.projected_declaration (kept_by self.now) (numbers self.now) id line var init.now) }
    {
        let id = match id {
            None => return Ok(self.bare(line, var)),
            Some(id) => id,
        };
        match self.statements.number(id) {
            None => Ok(self.bare(line, var)),
            Some(id) => Ok(Some(Statement::Declare {
                id: Some(id),
                line,
                var: self.variables.rank(var),
                init: renamed_init(alloc, init, &self.variables)?,
            })),
        }
    }

    // ---- statements that hold no others

    fn assignment(
        &self,
        alloc: Global,
        id: StatementId,
        line: u32,
        left: &Expr,
        op: Option<BinaryOp>,
        right: &Expr,
    ) -> Result<Option<Statement>, AllocError>
        ensures { IfOk result (λ kept. option_to_list kept ≡ left_of self.now (s.Assign id line left.now op right.now)) }
    {
        match self.statements.number(id) {
            None => Ok(None),
            Some(id) => Ok(Some(Statement::Assign {
                id,
                line,
                left: renamed(alloc, left, &self.variables)?,
                op,
                right: renamed(alloc, right, &self.variables)?,
            })),
        }
    }

    fn bump(
        &self,
        alloc: Global,
        id: StatementId,
        line: u32,
        left: &Expr,
        up: bool,
        before: bool,
    ) -> Result<Option<Statement>, AllocError>
        ensures { IfOk result (λ kept. option_to_list kept ≡ left_of self.now (s.Bump id line left.now up before)) }
    {
        match self.statements.number(id) {
            None => Ok(None),
            Some(id) => Ok(Some(Statement::Bump {
                id,
                line,
                left: renamed(alloc, left, &self.variables)?,
                up,
                before,
            })),
        }
    }

    // Adds what stays of a call: with its left side, or behind the variable that it declared, where that stays.
    fn call(
        &self,
        alloc: Global,
        all: &mut Items<Statement>,
        id: StatementId,
        line: u32,
        to: &Target,
        function: FunctionId,
        args: &[Expr],
    ) -> Result<(), AllocError>
        ensures { OnOk result (all.new ≡ all.old ++ left_of self.now (s.Invoke id line to.now function args.now)) }
    {
        if !self.statements.keeps(id as usize) {
            let declared = self.bare_target(line, to);
            put(all, declared)?;
            return Ok(());
        }
        if self.parts.keeps_result(id) {
            let target = renamed_target(alloc, to, &self.variables)?;
            let call = self.called(alloc, id, line, target, function, args)?;
            put(all, Some(call))?;
            return Ok(());
        }
        put(all, self.bare_target(line, to))?;
        let call = self.called(alloc, id, line, Target::None, function, args)?;
        put(all, Some(call))?;
        Ok(())
    }

    // A call that is kept, with the arguments that it keeps.
    fn called(
        &self,
        alloc: Global,
        id: StatementId,
        line: u32,
        target: Target,
        function: FunctionId,
        args: &[Expr],
    ) -> Result<Statement, AllocError>
        ensures { IfOk result (λ call. call ≡ spec.called (kept_by self.now) (numbers self.now) id line target function args.now) }
    {
        Ok(Statement::Invoke {
            id: self.statements.rank(id),
            line,
            target,
            function: self.functions.rank(function),
            args: self.arguments(alloc, id, args)?,
        })
    }

    // The arguments of a call that are kept.
    fn arguments(
        &self,
        alloc: Global,
        id: StatementId,
        args: &[Expr],
    ) -> Result<Items<Expr>, AllocError>
        ensures { IfOk result (λ all. all ≡ arguments_left self.now id args.now) }
    {
        let kept = self.parts.arguments.row(id as usize);
        let mut all = Items::new(alloc);
        for (place, argument) in args.iter().enumerate() {
            if is_at(kept, place) {
                all.push(renamed(alloc, argument, &self.variables)?)?;
            }
        }
        Ok(all)
    }

    fn fetch(
        &self,
        alloc: Global,
        id: StatementId,
        line: u32,
        to: &Target,
    ) -> Result<Option<Statement>, AllocError>
        ensures { IfOk result (λ kept. option_to_list kept ≡ left_of self.now (s.Fetch id line to.now)) }
    {
        match self.statements.number(id) {
            None => Ok(self.bare_target(line, to)),
            Some(id) => Ok(Some(Statement::Fetch {
                id,
                line,
                target: renamed_target(alloc, to, &self.variables)?,
            })),
        }
    }

    fn write(
        &self,
        alloc: Global,
        id: StatementId,
        line: u32,
        value: &Expr,
    ) -> Result<Option<Statement>, AllocError>
        ensures { IfOk result (λ kept. option_to_list kept ≡ left_of self.now (s.Write id line value.now)) }
    {
        match self.statements.number(id) {
            None => Ok(None),
            Some(id) => Ok(Some(Statement::Write {
                id,
                line,
                value: renamed(alloc, value, &self.variables)?,
            })),
        }
    }

    fn print(
        &self,
        alloc: Global,
        id: StatementId,
        line: u32,
        format: &Text,
        args: &[Expr],
    ) -> Result<Option<Statement>, AllocError>
        ensures { IfOk result (λ kept. option_to_list kept ≡ left_of self.now (s.Print id line format.now args.now)) }
    {
        match self.statements.number(id) {
            None => Ok(None),
            Some(id) => Ok(Some(Statement::Print {
                id,
                line,
                format: format.copy(alloc)?,
                args: all_renamed(alloc, args, &self.variables)?,
            })),
        }
    }

    fn allocation(
        &self,
        alloc: Global,
        id: StatementId,
        line: u32,
        to: &Target,
        cast: &Option<CType>,
        amount: &Amount,
    ) -> Result<Option<Statement>, AllocError>
        ensures { IfOk result (λ kept. option_to_list kept ≡ left_of self.now (s.Heap id line to.now cast.now amount.now)) }
    {
        match self.statements.number(id) {
            None => Ok(self.bare_target(line, to)),
            Some(id) => Ok(Some(Statement::Heap {
                id,
                line,
                target: renamed_target(alloc, to, &self.variables)?,
                cast: type_copy(alloc, cast)?,
                amount: renamed_amount(alloc, amount, &self.variables)?,
            })),
        }
    }

    fn release(
        &self,
        alloc: Global,
        id: StatementId,
        line: u32,
        value: &Expr,
    ) -> Result<Option<Statement>, AllocError>
        ensures { IfOk result (λ kept. option_to_list kept ≡ left_of self.now (s.Release id line value.now)) }
    {
        match self.statements.number(id) {
            None => Ok(None),
            Some(id) => Ok(Some(Statement::Release {
                id,
                line,
                value: renamed(alloc, value, &self.variables)?,
            })),
        }
    }

    fn returned(
        &self,
        alloc: Global,
        id: StatementId,
        line: u32,
        value: &Option<Expr>,
    ) -> Result<Option<Statement>, AllocError>
        ensures { IfOk result (λ kept. option_to_list kept ≡ left_of self.now (s.Return id line value.now)) }
    {
        match self.statements.number(id) {
            None => Ok(None),
            Some(id) => Ok(Some(Statement::Return {
                id,
                line,
                value: renamed_value(alloc, value, &self.variables)?,
            })),
        }
    }

    // ---- statements that hold others, with what stays of these

    fn conditional(
        &self,
        alloc: Global,
        id: StatementId,
        line: u32,
        test: &Expr,
        then: Items<Statement>,
        other: Items<Statement>,
    ) -> Result<Option<Statement>, AllocError>
        ensures { IfOk result (λ kept. option_to_list kept ≡ if_left self.now id line test.now then other) }
    {
        match self.statements.number(id) {
            None => Ok(None),
            Some(id) => Ok(Some(Statement::If {
                id,
                line,
                test: renamed(alloc, test, &self.variables)?,
                then,
                other,
            })),
        }
    }

    fn while_loop(
        &self,
        alloc: Global,
        id: StatementId,
        line: u32,
        test: &Expr,
        body: Items<Statement>,
    ) -> Result<Option<Statement>, AllocError>
        ensures { IfOk result (λ kept. option_to_list kept ≡ while_left self.now id line test.now body) }
    {
        match self.statements.number(id) {
            None => Ok(None),
            Some(id) => Ok(Some(Statement::While {
                id,
                line,
                test: renamed(alloc, test, &self.variables)?,
                body,
            })),
        }
    }

    fn do_loop(
        &self,
        alloc: Global,
        id: StatementId,
        line: u32,
        test: &Expr,
        body: Items<Statement>,
    ) -> Result<Option<Statement>, AllocError>
        ensures { IfOk result (λ kept. option_to_list kept ≡ do_left self.now id line test.now body) }
    {
        match self.statements.number(id) {
            None => Ok(None),
            Some(id) => Ok(Some(Statement::Do {
                id,
                line,
                test: renamed(alloc, test, &self.variables)?,
                body,
            })),
        }
    }

    // Without the for, what it begins with stays.
    fn for_loop(
        &self,
        alloc: Global,
        id: StatementId,
        line: u32,
        init: Option<Statement>,
        test: &Expr,
        step: Option<Statement>,
        body: Items<Statement>,
    ) -> Result<Option<Statement>, AllocError>
        ensures { IfOk result (λ kept. option_to_list kept ≡ for_left self.now id line init test.now step body) }
    {
        match self.statements.number(id) {
            None => alone(alloc, line, init),
            Some(id) => {
                let test = renamed(alloc, test, &self.variables)?;
                let made = for_of(alloc, id, line, init, test, step, body)?;
                Ok(Some(made))
            }
        }
    }

    fn switch(
        &self,
        alloc: Global,
        id: StatementId,
        line: u32,
        test: &Expr,
        arms: Items<Arm>,
    ) -> Result<Option<Statement>, AllocError>
        ensures { IfOk result (λ kept. option_to_list kept ≡ switch_left self.now id line test.now arms) }
    {
        match self.statements.number(id) {
            None => Ok(None),
            Some(id) => Ok(Some(Statement::Switch {
                id,
                line,
                test: renamed(alloc, test, &self.variables)?,
                arms,
            })),
        }
    }

    // What stays of a part of the head of a for, where it has one.
    #[cycle(statement)]
    fn part(
        &self,
        alloc: Global,
        part: &Option<Boxed<Statement>>,
    ) -> Result<Option<Statement>, AllocError>
        ensures { IfOk result (λ left. left ≡ part_left self.now part.now) }
    {
        match part {
            None => Ok(None),
            Some(statement) => {
                let mut left = Items::new(alloc);
                self.statement(alloc, statement.get(), &mut left)?;
                Ok(first_of(left))
            }
        }
    }

    // What stays of the arms of a switch that is kept: all their labels.
    #[cycle(statement)]
    fn arms(&self, alloc: Global, list: &[Arm]) -> Result<Items<Arm>, AllocError>
        ensures { IfOk result (λ all. all ≡ arms_left self.now list.now) }
    {
        let mut all = Items::new(alloc);
        for arm in list {
            all.push(self.arm(alloc, arm)?)?;
        }
        Ok(all)
    }

    #[cycle(statement)]
    fn arm(&self, alloc: Global, arm: &Arm) -> Result<Arm, AllocError>
        ensures { IfOk result (λ kept. kept ≡ arm_left self.now arm.now) }
    {
        Ok(Arm {
            labels: labels_renamed(alloc, arm.labels.as_slice(), &self.variables)?,
            body: self.body(alloc, arm.body.as_slice())?,
        })
    }
}

// ---- pieces

// Adds a statement, where there is one.
fn put(all: &mut Items<Statement>, left: Option<Statement>) -> Result<(), AllocError>
    ensures { OnOk result (all.new ≡ all.old ++ option_to_list left) }
{
    match left {
        None => Ok(()),
        Some(statement) => {
            all.push(statement)?;
            Ok(())
        }
    }
}

// The first of some statements.
fn first_of(mut list: Items<Statement>) -> Option<Statement>
    ensures { result ≡ spec.first_statement list }
{
    if list.is_empty() {
        None
    } else {
        Some(list.remove(0))
    }
}

// A block that isn't empty.
fn block_of(line: u32, body: Items<Statement>) -> Option<Statement>
    ensures { option_to_list result ≡ spec.block_of line body }
{
    if body.is_empty() {
        None
    } else {
        Some(Statement::Block { line, body })
    }
}

fn declares_target(to: &Target) -> bool
    ensures { result ≡ spec.declares_target to.now }
{
    match to {
        Target::None => false,
        Target::Place(_) => false,
        Target::Declared(_) => true,
    }
}

// Whether a statement declares a variable.
fn is_declaring(statement: &Statement) -> bool
    ensures { result ≡ spec.is_declaring statement.now }
{
    match statement {
        Statement::Declare { .. } => true,
        Statement::Invoke { target, .. }
        | Statement::Fetch { target, .. }
        | Statement::Heap { target, .. } => declares_target(target),
        Statement::Assign { .. }
        | Statement::Bump { .. }
        | Statement::Write { .. }
        | Statement::Print { .. }
        | Statement::Release { .. }
        | Statement::If { .. }
        | Statement::While { .. }
        | Statement::Do { .. }
        | Statement::For { .. }
        | Statement::Switch { .. }
        | Statement::Block { .. }
        | Statement::Return { .. } => false,
    }
}

// What a for begins with, without the for: where it declares, in a block of its own.
fn alone(
    alloc: Global,
    line: u32,
    first: Option<Statement>,
) -> Result<Option<Statement>, AllocError>
    ensures { IfOk result (λ left. option_to_list left ≡ spec.alone line first) }
{
    match first {
        None => Ok(None),
        Some(statement) => {
            if !is_declaring(&statement) {
                return Ok(Some(statement));
            }
            let mut body = Items::new(alloc);
            body.push(statement)?;
            Ok(Some(Statement::Block { line, body }))
        }
    }
}

// A for that is kept.
fn for_of(
    alloc: Global,
    id: StatementId,
    line: u32,
    init: Option<Statement>,
    test: Expr,
    step: Option<Statement>,
    body: Items<Statement>,
) -> Result<Statement, AllocError>
    ensures { IfOk result (λ made. made ≡ Statement.For id line init test step body) }
{
    Ok(Statement::For {
        id,
        line,
        init: boxed(alloc, init)?,
        test,
        step: boxed(alloc, step)?,
        body,
    })
}

fn boxed(alloc: Global, part: Option<Statement>) -> Result<Option<Boxed<Statement>>, AllocError>
    ensures { IfOk result (λ b. b ≡ part) }
{
    match part {
        None => Ok(None),
        Some(statement) => Ok(Some(Boxed::new(alloc, statement)?)),
    }
}

/// An equal type, where there is one. Err: no memory was left.
pub(crate) fn type_copy(alloc: Global, shape: &Option<CType>) -> Result<Option<CType>, AllocError>
    ensures { IfOk result (λ t. t ≡ shape.now) }
{
    match shape {
        None => Ok(None),
        Some(t) => Ok(Some(t.copy(alloc)?)),
    }
}
