//! Statements that hold others, by one walk down the tree of the text.
ghost use Rattle.std.specs.Prelude.{◌≡◌, Some, IfOk, OnOk, map};
ghost use Rattle.c_tree.specs.declared.raw.statement.RawStatement.TheVariants as s;
ghost use Rattle.c_language.specs.Phrases.{labels_of, phrases_of_arms};
ghost use Rattle.c_language.specs.ProgramOf as trees;
ghost use Rattle.c_types_base.specs.Tables.{scope_of, AreRight};
ghost use Rattle.c_types_trees.specs.FitPhrases.{AreFit};
ghost use Rattle.c_types_program.specs.Statements.{Fits, HasTree, Passes, FitAll, HaveTrees, PassesAll, FitsBlock, HasBlock, PassesBlock, FitsPart, HasPart, PassesPart, AreLabels, arm_text, arm_texts, HasArm, PassesArm, HaveArms, PassesArms};

use crate::walk::Walk;
use c_arith::IntType;
use c_tree::{Arm, Boxed, Items, Label, RawArm, RawExpr, RawLabel, RawStatement, Statement};
use c_types_base::tables::Tables;
use c_types_trees::parts::{label_tree, switch_tree, test_tree};
use std::alloc::{AllocError, Global};

/// The labels of an arm, by the promoted type of the switch. Err: no memory was left.
fn labels(
    alloc: Global,
    tables: &Tables<'_>,
    t: IntType,
    list: &[RawLabel],
) -> Result<Items<Label>, AllocError>
    requires right { AreRight tables.now }
    requires labels { AreLabels tables.now.raw.now list.now }
    ensures { IfOk result (λ ls. trees.collected (map (trees.label_tree tables.now.raw.now (scope_of tables.now) t) list.now) ≡ Some ls) }
{
    let mut made = Items::new(alloc);
    for label in list {
        let tree = label_tree(alloc, tables, t, label)?;
        made.push(tree)?;
    }
    Ok(made)
}

impl<'a> Walk<'a> {
    /// A statement with its declarations. Err: no memory was left.
    #[cycle(statement)]
    pub fn statement(
        &mut self,
        alloc: Global,
        statement: &'a RawStatement,
    ) -> Result<Statement, AllocError>
        requires right { AreRight self.now.tables }
        requires fits { Fits self.now statement.now }
        ensures tree { IfOk result (HasTree self.old statement.now) }
        ensures passes { OnOk result (Passes self.old self.new statement.now) }
    {
        match statement {
            RawStatement::Declare { line, var, init } => self.declaration(alloc, *line, var, init),
            RawStatement::Assign {
                line,
                left,
                op,
                right,
            } => self.assignment(alloc, *line, left, *op, right),
            RawStatement::Bump {
                line,
                left,
                up,
                before,
            } => self.bump(alloc, *line, left, *up, *before),
            RawStatement::Call {
                line,
                target,
                function,
                args,
            } => self.call(alloc, *line, target, function, args),
            RawStatement::Heap {
                line,
                target,
                cast,
                amount,
            } => self.allocation(alloc, *line, target, cast, amount),
            RawStatement::If {
                line,
                test,
                then,
                other,
            } => self.conditional(alloc, *line, test, then, other),
            RawStatement::While { line, test, body } => self.while_loop(alloc, *line, test, body),
            RawStatement::Do { line, test, body } => self.do_loop(alloc, *line, test, body),
            RawStatement::For {
                line,
                init,
                test,
                step,
                body,
            } => self.for_loop(alloc, *line, init, test, step, body),
            RawStatement::Switch { line, test, arms } => self.switch(alloc, *line, test, arms),
            RawStatement::Block { line, body } => self.bare_block(alloc, *line, body),
            RawStatement::Return { line, value } => self.returned(alloc, *line, value),
        }
    }

    /// Statements one after another. Err: no memory was left.
    #[cycle(statement)]
    pub fn statements(
        &mut self,
        alloc: Global,
        list: &'a [RawStatement],
    ) -> Result<Items<Statement>, AllocError>
        requires right { AreRight self.now.tables }
        requires fits { FitAll self.now list.now }
        ensures tree { IfOk result (HaveTrees self.old list.now) }
        ensures passes { OnOk result (PassesAll self.old self.new list.now) }
    {
        let mut made = Items::new(alloc);
        for statement in list {
            let tree = self.statement(alloc, statement)?;
            made.push(tree)?;
        }
        Ok(made)
    }

    /// The statements of a block (6.8.2). Err: no memory was left.
    #[cycle(statement)]
    fn block(
        &mut self,
        alloc: Global,
        body: &'a Items<RawStatement>,
    ) -> Result<Items<Statement>, AllocError>
        requires right { AreRight self.now.tables }
        requires fits { FitsBlock self.now body.now }
        ensures tree { IfOk result (HasBlock self.old body.now) }
        ensures passes { OnOk result (PassesBlock self.old self.new body.now) }
    {
        let outside = self.tables.before();
        self.tables.open();
        let made = self.statements(alloc, body.as_slice())?;
        self.tables.close(outside);
        Ok(made)
    }

    /// A block that stands by itself. Err: no memory was left.
    #[cycle(statement)]
    fn bare_block(
        &mut self,
        alloc: Global,
        line: u32,
        body: &'a Items<RawStatement>,
    ) -> Result<Statement, AllocError>
        requires right { AreRight self.now.tables }
        requires fits { Fits self.now (s.Block line body.now) }
        ensures tree { IfOk result (HasTree self.old (s.Block line body.now)) }
        ensures passes { OnOk result (Passes self.old self.new (s.Block line body.now)) }
    {
        let body = self.block(alloc, body)?;
        Ok(Statement::Block { line, body })
    }

    /// An if with what is done otherwise (6.8.4.1). Err: no memory was left.
    #[cycle(statement)]
    fn conditional(
        &mut self,
        alloc: Global,
        line: u32,
        test: &RawExpr,
        chosen: &'a Items<RawStatement>,
        other: &'a Items<RawStatement>,
    ) -> Result<Statement, AllocError>
        requires right { AreRight self.now.tables }
        requires fits { Fits self.now (s.If line test.now chosen.now other.now) }
        ensures tree { IfOk result (HasTree self.old (s.If line test.now chosen.now other.now)) }
        ensures passes { OnOk result (Passes self.old self.new (s.If line test.now chosen.now other.now)) }
    {
        let test = test_tree(alloc, &self.tables, test)?;
        let id = self.tables.number()?;
        let then = self.block(alloc, chosen)?;
        let other = self.block(alloc, other)?;
        Ok(Statement::If {
            id,
            line,
            test,
            then,
            other,
        })
    }

    /// A while (6.8.5.1). Err: no memory was left.
    #[cycle(statement)]
    fn while_loop(
        &mut self,
        alloc: Global,
        line: u32,
        test: &RawExpr,
        body: &'a Items<RawStatement>,
    ) -> Result<Statement, AllocError>
        requires right { AreRight self.now.tables }
        requires fits { Fits self.now (s.While line test.now body.now) }
        ensures tree { IfOk result (HasTree self.old (s.While line test.now body.now)) }
        ensures passes { OnOk result (Passes self.old self.new (s.While line test.now body.now)) }
    {
        let test = test_tree(alloc, &self.tables, test)?;
        let id = self.tables.number()?;
        let body = self.block(alloc, body)?;
        Ok(Statement::While {
            id,
            line,
            test,
            body,
        })
    }

    /// A do (6.8.5.2). Err: no memory was left.
    #[cycle(statement)]
    fn do_loop(
        &mut self,
        alloc: Global,
        line: u32,
        test: &RawExpr,
        body: &'a Items<RawStatement>,
    ) -> Result<Statement, AllocError>
        requires right { AreRight self.now.tables }
        requires fits { Fits self.now (s.Do line test.now body.now) }
        ensures tree { IfOk result (HasTree self.old (s.Do line test.now body.now)) }
        ensures passes { OnOk result (Passes self.old self.new (s.Do line test.now body.now)) }
    {
        let test = test_tree(alloc, &self.tables, test)?;
        let id = self.tables.number()?;
        let body = self.block(alloc, body)?;
        Ok(Statement::Do {
            id,
            line,
            test,
            body,
        })
    }

    /// A part of the head of a for, where it has one. Err: no memory was left.
    #[cycle(statement)]
    fn part(
        &mut self,
        alloc: Global,
        part: &'a Option<Boxed<RawStatement>>,
    ) -> Result<Option<Boxed<Statement>>, AllocError>
        requires right { AreRight self.now.tables }
        requires fits { FitsPart self.now part.now }
        ensures tree { IfOk result (HasPart self.old part.now) }
        ensures passes { OnOk result (PassesPart self.old self.new part.now) }
    {
        match part {
            None => Ok(None),
            Some(statement) => {
                let made = self.statement(alloc, statement.get())?;
                Ok(Some(Boxed::new(alloc, made)?))
            }
        }
    }

    /// A for (6.8.5.3). Err: no memory was left.
    #[cycle(statement)]
    fn for_loop(
        &mut self,
        alloc: Global,
        line: u32,
        init: &'a Option<Boxed<RawStatement>>,
        test: &RawExpr,
        step: &'a Option<Boxed<RawStatement>>,
        body: &'a Items<RawStatement>,
    ) -> Result<Statement, AllocError>
        requires right { AreRight self.now.tables }
        requires fits { Fits self.now (s.For line init.now test.now step.now body.now) }
        ensures tree { IfOk result (HasTree self.old (s.For line init.now test.now step.now body.now)) }
        ensures passes { OnOk result (Passes self.old self.new (s.For line init.now test.now step.now body.now)) }
    {
        let outside = self.tables.before();
        let id = self.tables.number()?;
        self.tables.open();
        let init = self.part(alloc, init)?;
        let test = test_tree(alloc, &self.tables, test)?;
        let step = self.part(alloc, step)?;
        let body = self.block(alloc, body)?;
        self.tables.close(outside);
        Ok(Statement::For {
            id,
            line,
            init,
            test,
            step,
            body,
        })
    }

    /// A switch (6.8.4.2). Err: no memory was left.
    #[cycle(statement)]
    fn switch(
        &mut self,
        alloc: Global,
        line: u32,
        test: &RawExpr,
        arms: &'a Items<RawArm>,
    ) -> Result<Statement, AllocError>
        requires right { AreRight self.now.tables }
        requires fits { Fits self.now (s.Switch line test.now arms.now) }
        ensures tree { IfOk result (HasTree self.old (s.Switch line test.now arms.now)) }
        ensures passes { OnOk result (Passes self.old self.new (s.Switch line test.now arms.now)) }
    {
        let made = switch_tree(alloc, &self.tables, test)?;
        let (test, t) = made;
        let id = self.tables.number()?;
        let outside = self.tables.before();
        self.tables.open();
        let arms = self.arms(alloc, t, arms.as_slice())?;
        self.tables.close(outside);
        Ok(Statement::Switch {
            id,
            line,
            test,
            arms,
        })
    }

    /// The arms of a switch, by its promoted type. Err: no memory was left.
    #[cycle(statement)]
    fn arms(
        &mut self,
        alloc: Global,
        t: IntType,
        list: &'a [RawArm],
    ) -> Result<Items<Arm>, AllocError>
        requires right { AreRight self.now.tables }
        requires fits { AreFit self.now.tables.raw.now (phrases_of_arms (arm_texts self.now list.now)) }
        requires labels { AreLabels self.now.tables.raw.now (labels_of (arm_texts self.now list.now)) }
        ensures tree { IfOk result (HaveArms self.old t list.now) }
        ensures passes { OnOk result (PassesArms self.old self.new list.now) }
    {
        let mut made = Items::new(alloc);
        for arm in list {
            let tree = self.arm(alloc, t, arm)?;
            made.push(tree)?;
        }
        Ok(made)
    }

    /// An arm of a switch. Err: no memory was left.
    #[cycle(statement)]
    fn arm(&mut self, alloc: Global, t: IntType, arm: &'a RawArm) -> Result<Arm, AllocError>
        requires right { AreRight self.now.tables }
        requires fits { AreFit self.now.tables.raw.now (arm_text self.now arm.now).phrases }
        requires labels { AreLabels self.now.tables.raw.now (arm_text self.now arm.now).labels }
        ensures tree { IfOk result (HasArm self.old t arm.now) }
        ensures passes { OnOk result (PassesArm self.old self.new arm.now) }
    {
        let labels = labels(alloc, &self.tables, t, arm.labels.as_slice())?;
        let body = self.statements(alloc, arm.body.as_slice())?;
        Ok(Arm { labels, body })
    }
}
