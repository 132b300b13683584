//! Declarations and statements that hold no other statements.
ghost use Rattle.std.specs.Prelude.{◌≡◌, Some, IfOk, OnOk};
ghost use Rattle.c_tree.specs.declared.raw.statement.RawStatement.TheVariants as s;
ghost use Rattle.c_language.specs.Phrases.{IsInside, Stand, target_phrases};
ghost use Rattle.c_language.specs.ProgramOf as trees;
ghost use Rattle.c_language.specs.Scopes as scopes;
ghost use Rattle.c_types_base.specs.Tables.{scope_of, AreRight};
ghost use Rattle.c_types_trees.specs.FitPhrases.{AreFitTarget};
ghost use Rattle.c_types_trees.specs.KeptPhrases.{IsMeantTarget};
ghost use Rattle.c_types_program.specs.Statements.{Comes, Fits, HasTree, Passes};

use crate::variables::Declaration;
use crate::walk::Walk;
use c_arith::BinaryOp;
use c_tree::{
    Items, RawAmount, RawArg, RawExpr, RawInit, RawTarget, RawTypeName, RawVar, Statement, Target,
    Text,
};
use c_types_base::declared_types::item_count;
use c_types_trees::allocations::heap_tree;
use c_types_trees::calls::call_tree;
use c_types_trees::parts::{assign_tree, bump_tree, init_tree, return_tree, target_tree};
use std::alloc::{AllocError, Global};

impl<'a> Walk<'a> {
    /// A declaration (ISO C99 6.7). Err: no memory was left.
    pub fn declaration(
        &mut self,
        alloc: Global,
        line: u32,
        var: &'a RawVar,
        init: &'a RawInit,
    ) -> Result<Statement, AllocError>
        requires right { AreRight self.now.tables }
        requires fits { Fits self.now (s.Declare line var.now init.now) }
        ensures tree { IfOk result (HasTree self.old (s.Declare line var.now init.now)) }
        ensures passes { OnOk result (Passes self.old self.new (s.Declare line var.now init.now)) }
    {
        let number = self.tables.variables;
        let local = Declaration {
            line,
            name: &var.name,
            shape: &var.shape,
            items: item_count(init),
            is_static: false,
            is_parameter: false,
        };
        self.declare(alloc, local)?;
        let made = init_tree(alloc, &self.tables, init)?;
        let id = self.begin(init)?;
        Ok(Statement::Declare {
            id,
            line,
            var: number,
            init: made,
        })
    }

    /// An assignment (6.5.16). Err: no memory was left.
    pub fn assignment(
        &mut self,
        alloc: Global,
        line: u32,
        left: &RawExpr,
        op: Option<BinaryOp>,
        right: &RawExpr,
    ) -> Result<Statement, AllocError>
        requires right { AreRight self.now.tables }
        requires fits { Fits self.now (s.Assign line left.now op right.now) }
        ensures tree { IfOk result (HasTree self.old (s.Assign line left.now op right.now)) }
        ensures passes { OnOk result (Passes self.old self.new (s.Assign line left.now op right.now)) }
    {
        let following = self.following()?;
        let id = self.tables.statements;
        let made = assign_tree(alloc, &self.tables, id, line, left, op, right)?;
        self.pass(following);
        Ok(made)
    }

    /// `++` or `--` (6.5.2.4, 6.5.3.1). Err: no memory was left.
    pub fn bump(
        &mut self,
        alloc: Global,
        line: u32,
        left: &RawExpr,
        up: bool,
        before: bool,
    ) -> Result<Statement, AllocError>
        requires right { AreRight self.now.tables }
        requires fits { Fits self.now (s.Bump line left.now up before) }
        ensures tree { IfOk result (HasTree self.old (s.Bump line left.now up before)) }
        ensures passes { OnOk result (Passes self.old self.new (s.Bump line left.now up before)) }
    {
        let following = self.following()?;
        let id = self.tables.statements;
        let made = bump_tree(alloc, &self.tables, id, line, left, up, before)?;
        self.pass(following);
        Ok(made)
    }

    /// A return (6.8.6.4). Err: no memory was left.
    pub fn returned(
        &mut self,
        alloc: Global,
        line: u32,
        value: &Option<RawExpr>,
    ) -> Result<Statement, AllocError>
        requires right { AreRight self.now.tables }
        requires fits { Fits self.now (s.Return line value.now) }
        ensures tree { IfOk result (HasTree self.old (s.Return line value.now)) }
        ensures passes { OnOk result (Passes self.old self.new (s.Return line value.now)) }
    {
        let following = self.following()?;
        let id = self.tables.statements;
        let made = return_tree(alloc, &self.tables, id, line, value)?;
        self.pass(following);
        Ok(made)
    }

    /// A target, whose variable is declared where it declares one. Err: no memory was left.
    fn target(
        &mut self,
        alloc: Global,
        line: u32,
        target: &'a RawTarget,
    ) -> Result<Target, AllocError>
        requires right { AreRight self.now.tables }
        requires meant { IsMeantTarget self.now.tables.raw.now (scope_of self.now.tables) target.now }
        requires fits { AreFitTarget self.now.tables.raw.now line (scope_of self.now.tables) target.now }
        ensures tree { IfOk result (λ t. trees.target_tree self.old.tables.raw.now (scope_of self.old.tables) target.now ≡ Some t) }
        ensures comes { OnOk result ((stand : Stand) → IsInside stand → Comes self.old self.new (scopes.with_target self.old.tables.raw.now target.now (scope_of self.old.tables)) (trees.variables_in self.old.tables.raw.now (target_phrases self.old.tables.raw.now line (scope_of self.old.tables) stand target.now))) }
    {
        let made = target_tree(alloc, &self.tables, target)?;
        match target {
            RawTarget::None => Ok(made),
            RawTarget::Place(_) => Ok(made),
            RawTarget::Declared(var) => {
                let local = Declaration {
                    line,
                    name: &var.name,
                    shape: &var.shape,
                    items: 0,
                    is_static: false,
                    is_parameter: false,
                };
                self.declare(alloc, local)?;
                Ok(made)
            }
        }
    }

    /// A call of a function by its name (6.5.2.2). Err: no memory was left.
    pub fn call(
        &mut self,
        alloc: Global,
        line: u32,
        target: &'a RawTarget,
        function: &Text,
        args: &Items<RawArg>,
    ) -> Result<Statement, AllocError>
        requires right { AreRight self.now.tables }
        requires fits { Fits self.now (s.Call line target.now function.now args.now) }
        ensures tree { IfOk result (HasTree self.old (s.Call line target.now function.now args.now)) }
        ensures passes { OnOk result (Passes self.old self.new (s.Call line target.now function.now args.now)) }
    {
        let following = self.following()?;
        let id = self.tables.statements;
        let target = self.target(alloc, line, target)?;
        let made = call_tree(
            alloc,
            &self.tables,
            id,
            line,
            target,
            function.bytes(),
            args.as_slice(),
        )?;
        self.pass(following);
        Ok(made)
    }

    /// A call of `malloc` (7.20.3.3). Err: no memory was left.
    pub fn allocation(
        &mut self,
        alloc: Global,
        line: u32,
        target: &'a RawTarget,
        cast: &Option<RawTypeName>,
        amount: &RawAmount,
    ) -> Result<Statement, AllocError>
        requires right { AreRight self.now.tables }
        requires fits { Fits self.now (s.Heap line target.now cast.now amount.now) }
        ensures tree { IfOk result (HasTree self.old (s.Heap line target.now cast.now amount.now)) }
        ensures passes { OnOk result (Passes self.old self.new (s.Heap line target.now cast.now amount.now)) }
    {
        let following = self.following()?;
        let id = self.tables.statements;
        let target = self.target(alloc, line, target)?;
        let made = heap_tree(alloc, &self.tables, id, line, target, cast, amount)?;
        self.pass(following);
        Ok(made)
    }
}
