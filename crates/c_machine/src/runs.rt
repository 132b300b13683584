//! A run of a program: acts, and what follows each of them without a further act.
ghost use Rattle.std.specs.Prelude.{◌≡◌, ◌∷◌, List, Bool, Option, Some, [], ◌<◌, ◌+◌, map, IfOk, OnOk, IsNone, drop, slice_get, option_map, option_and_then};
ghost use Rattle.std.specs.Option.{option_copied};
ghost use Rattle.c_tree.specs.Numbered.{own_id};
ghost use Rattle.c_tree.specs.declared.program.Program.{Program};
ghost use Rattle.c_tree.specs.declared.statement.Statement.{out-Statement};
ghost use Rattle.c_language.specs.Code.{Act, Code, End, Plain, Fork, Loop, Call, ◌⨟◌, is_true, either, taken_arm};
ghost use Rattle.c_language.specs.Mains as mains;
ghost use Rattle.c_language.specs.NameRules as names;
ghost use Rattle.c_language.specs.TreeTypes.{shape_of};
ghost use Rattle.c_meaning.specs.Activations.{executable, code_at, result_at, variables_at, fresh, received, types_in};
ghost use Rattle.c_meaning.specs.Acts.{Made as MadeOf, after};
ghost use Rattle.c_meaning.specs.Meaning.{told, announced};
ghost use Rattle.c_meaning.specs.Steps.{Point, beginning, waiting};
ghost use Rattle.c_meaning.specs.Values as values;
ghost use Rattle.c_meaning.specs.Values.{State as StateOf};
ghost use Rattle.c_meaning.specs.declared.value.Value.{Value as ValueOf};
ghost use Rattle.c_memory.specs.Lists.{items_of};
ghost use Rattle.c_memory.specs.Scenes.{types_of, scene};
ghost use Rattle.c_acts.specs.Makings.{own_act, made_in, seen};
ghost use Rattle.c_machine.specs.Rests.{act_code, arm_part, block_in, block_before, list_before, left_code};
ghost use Rattle.c_machine.specs.Runs as spec;
ghost use Rattle.c_machine.specs.Runs.{IsAt, Acted, GoneOn, Settled};
ghost use Rattle.c_machine.specs.Sizes.{run_size, left_size, list_size};
ghost use Rattle.c_machine.specs.States.{as_parameters, all_passed};
ghost use Rattle.c_machine.specs.Traces.{Before, nothing_before};

use crate::rests::{Rest, add_block, add_statement, as_list, taken_body};
use crate::states::State;
use crate::traces::Trace;
use c_acts::{Made, given, made, test_value, values_of};
use c_meaning::{Shown, Value};
use c_memory::{Globals, Scene, as_type};
use c_tree::numbered::own_start;
use c_tree::{
    Arm, CType, Expr, Function, FunctionId, Items, Program, Statement, StatementId, Target, VarId,
};
use std::alloc::{AllocError, Global};
use std::mem;
use tree_types::variable_type;

/// What an act comes to.
#[derive(Clone, Copy, Debug, PartialEq, Eq)]
pub enum Turn {
    /// A further act comes next.
    Going,
    /// The run has ended.
    Ended,
    /// An act of this statement is undefined.
    Undefined(StatementId),
}

/// A caller that waits: its call with the target, and what is left to do, the blocks of its variables and what it has
/// returned.
#[derive(Drop)]
pub(crate) struct Caller<'p> {
    pub(crate) call: StatementId,
    pub(crate) target: &'p Target,
    pub(crate) function: usize,
    pub(crate) left: Vec<Rest<'p>>,
    pub(crate) frame: Vec<Option<u64>>,
    pub(crate) returned: Option<Value>,
}

/// A run, where it stands.
#[derive(Drop)]
pub(crate) struct Run<'p> {
    /// The program.
    pub(crate) program: &'p Program,
    /// The blocks of the globals, by the variables.
    pub(crate) globals: Vec<Option<u64>>,
    /// The number of the function that runs.
    pub(crate) function: usize,
    /// What is left to do in it; the last piece is done next.
    pub(crate) left: Vec<Rest<'p>>,
    /// The callers that wait, the last one at the end.
    pub(crate) callers: Vec<Caller<'p>>,
    /// What acts change.
    pub(crate) state: State<'p>,
    /// What was told since that was taken last.
    pub(crate) trace: Trace<'p>,
}

impl<'p> Run<'p> {
    /// A run that is about to begin.
    pub(crate) fn new(
        alloc: Global,
        program: &'p Program,
        input: &'p [u8],
        watched: Option<&'p [bool]>,
    ) -> Result<Run<'p>, AllocError>
        ensures { IfOk result (λ r. IsAt program.entry.now (nothing_before (option_copied watched.entry)) r (beginning (executable program.entry.now) input.entry.now)) }
    {
        let Globals { memory, frame } = Globals::new(alloc, program)?;
        let globals = copied(alloc, frame.as_slice())?;
        let function = main_of(program);
        let left = body_left(alloc, program, function)?;
        Ok(Run {
            program,
            globals,
            function,
            left,
            callers: Vec::new(alloc),
            state: State {
                frame,
                returned: None,
                memory,
                unread: input,
            },
            trace: Trace {
                watched,
                events: Vec::new(alloc),
                output: Vec::new(alloc),
            },
        })
    }

    // What expressions are evaluated in.
    fn scene<'s>(&'s self, alloc: Global) -> Scene<'p, 's, 's>
        ensures program { result.program.now ≡ self.now.program.now }
        ensures frame { result.frame.now ≡ self.now.state.frame.items }
        ensures memory { result.memory.now ≡ self.now.state.memory }
    {
        self.state.scene(alloc, self.program)
    }

    /// Does the act that comes next, and all that comes before the one behind it.
    pub(crate) fn act_and_settle(&mut self, alloc: Global) -> Result<Turn, AllocError>
        ensures { (p : Program) (before : Before) (x : Point) → IsAt p before self.old x → IfOk result (λ t. spec.Turned p before t self.new x) }
    {
        match self.act(alloc)? {
            Some(statement) => Ok(Turn::Undefined(statement)),
            None => self.settle(alloc),
        }
    }

    // ---- acts

    /// Does the act that comes next. Some: it is undefined, and this is its statement.
    pub(crate) fn act(&mut self, alloc: Global) -> Result<Option<StatementId>, AllocError>
        ensures { (p : Program) (before : Before) (x : Point) → IsAt p before self.old x → IfOk result (λ o. Acted p before o self.new x) }
    {
        match self.left.pop() {
            Some(Rest::Act(statement)) => self.act_numbered(alloc, statement),
            Some(Rest::List(_)) => Err(AllocError),
            Some(Rest::Opens(_)) => Err(AllocError),
            Some(Rest::Leaves(_)) => Err(AllocError),
            None => Err(AllocError),
        }
    }

    // The act of a statement, by its number.
    fn act_numbered(
        &mut self,
        alloc: Global,
        statement: &'p Statement,
    ) -> Result<Option<StatementId>, AllocError>
        ensures { (p : Program) (before : Before) (x : Point) → IsAt p before self.old (record x { rest = left_code self.old.left.items }) → x.rest ≡ act_code statement.entry.now (left_code self.old.left.items) → IfOk result (λ o. Acted p before o self.new x) }
    {
        match own_start(statement) {
            Some(start) => self.act_of(alloc, start.id, statement),
            None => Err(AllocError),
        }
    }

    // The act of a statement.
    fn act_of(
        &mut self,
        alloc: Global,
        id: StatementId,
        statement: &'p Statement,
    ) -> Result<Option<StatementId>, AllocError>
        requires { own_id statement.now ≡ Some id }
        ensures { (p : Program) (before : Before) (x : Point) → IsAt p before self.old (record x { rest = left_code self.old.left.items }) → x.rest ≡ act_code statement.entry.now (left_code self.old.left.items) → IfOk result (λ o. Acted p before o self.new x) }
    {
        match statement {
            Statement::If {
                test,
                then,
                other,
                ..
            } => { self.fork(alloc, id, test, then.as_slice(), other.as_slice()) }
            Statement::Switch { test, arms, .. } => self.switch(alloc, id, test, arms.as_slice()),
            Statement::While { test, body, .. } => {
                self.turn(alloc, id, statement, test, body.as_slice(), &[])
            }
            Statement::Do { test, body, .. } => {
                self.turn(alloc, id, statement, test, body.as_slice(), &[])
            }
            Statement::For {
                test,
                body,
                step,
                ..
            } => { self.turn(alloc, id, statement, test, body.as_slice(), as_list(step)) }
            Statement::Invoke {
                target,
                function,
                args,
                ..
            } => { self.call(alloc, id, target, *function, args.as_slice()) }
            Statement::Declare { .. } => self.plain(alloc, id, statement),
            Statement::Assign { .. } => self.plain(alloc, id, statement),
            Statement::Bump { .. } => self.plain(alloc, id, statement),
            Statement::Fetch { .. } => self.plain(alloc, id, statement),
            Statement::Write { .. } => self.plain(alloc, id, statement),
            Statement::Print { .. } => self.plain(alloc, id, statement),
            Statement::Heap { .. } => self.plain(alloc, id, statement),
            Statement::Release { .. } => self.plain(alloc, id, statement),
            Statement::Return { .. } => self.plain(alloc, id, statement),
            Statement::Block { .. } => Err(AllocError),
        }
    }

    // The act of a statement that goes on with what stands behind it.
    fn plain(
        &mut self,
        alloc: Global,
        id: StatementId,
        statement: &Statement,
    ) -> Result<Option<StatementId>, AllocError>
        ensures { (p : Program) (before : Before) (x : Point) (a : Act) → IsAt p before self.old (record x { rest = left_code self.old.left.items }) → own_act (out-Statement statement.now) ≡ Some a → x.rest ≡ Plain id a (left_code self.old.left.items) → IfOk result (λ o. Acted p before o self.new x) }
    {
        let returns = result_of(self.program, self.function);
        match made(statement, self.scene(alloc), self.state.unread, returns)? {
            Some(made) => {
                self.perform(alloc, id, made)?;
                Ok(None)
            }
            None => Ok(Some(id)),
        }
    }

    // Changes what an act changes, and tells of it.
    fn perform(&mut self, alloc: Global, id: StatementId, made: Made) -> Result<(), AllocError>
        ensures stands { (p : Program) (before : Before) (x : Point) (m : MadeOf) → made_in made ≡ seen m → IsAt p before self.old x → OnOk result (IsAt p before self.new (record x { state = after id m x.state; trace = told id m x.trace })) }
        ensures left { self.new.left ≡ self.old.left }
        ensures callers { self.new.callers ≡ self.old.callers }
    {
        let Made {
            values,
            output,
            change,
        } = made;
        self.state.apply(alloc, change)?;
        self.trace.tell(id, values, output.as_slice())?;
        Ok(())
    }

    // The act of a test; None where it is undefined.
    fn test(
        &mut self,
        alloc: Global,
        id: StatementId,
        test: &Expr,
    ) -> Result<Option<i128>, AllocError>
        ensures { (p : Program) (before : Before) (x : Point) → IsAt p before self.old x → IfOk result (λ o. spec.Tested p before id test.now o self.new x) }
    {
        match test_value(test, self.scene(alloc))? {
            Some(value) => {
                let values = Items::from_slice(alloc, &[Shown::Number(value)])?;
                self.trace.tell(id, values, &[])?;
                Ok(Some(value))
            }
            None => Ok(None),
        }
    }

    // The test of an if, and the list that it leads to.
    fn fork(
        &mut self,
        alloc: Global,
        id: StatementId,
        test: &Expr,
        then: &'p [Statement],
        other: &'p [Statement],
    ) -> Result<Option<StatementId>, AllocError>
        ensures { (p : Program) (before : Before) (x : Point) → IsAt p before self.old (record x { rest = left_code self.old.left.items }) → x.rest ≡ Fork id test.now (λ v. either (is_true v) (block_in then.entry.now) (block_in other.entry.now)) (left_code self.old.left.items) → IfOk result (λ o. Acted p before o self.new x) }
    {
        match self.test(alloc, id, test)? {
            Some(value) => {
                add_block(&mut self.left, chosen(value, then, other))?;
                Ok(None)
            }
            None => Ok(Some(id)),
        }
    }

    // The test of a switch, and the arm that it leads to.
    fn switch(
        &mut self,
        alloc: Global,
        id: StatementId,
        test: &Expr,
        arms: &'p [Arm],
    ) -> Result<Option<StatementId>, AllocError>
        ensures { (p : Program) (before : Before) (x : Point) → IsAt p before self.old (record x { rest = left_code self.old.left.items }) → x.rest ≡ Fork id test.now (taken_arm (map arm_part arms.entry.now)) (left_code self.old.left.items) → IfOk result (λ o. Acted p before o self.new x) }
    {
        match self.test(alloc, id, test)? {
            Some(value) => {
                add_block(&mut self.left, taken_body(arms, value))?;
                Ok(None)
            }
            None => Ok(Some(id)),
        }
    }

    // The test of a loop, and its body and its step where it is met, behind which the test comes again.
    fn turn(
        &mut self,
        alloc: Global,
        id: StatementId,
        statement: &'p Statement,
        test: &Expr,
        body: &'p [Statement],
        step: &'p [Statement],
    ) -> Result<Option<StatementId>, AllocError>
        ensures { (p : Program) (before : Before) (x : Point) (b : Code) → IsAt p before self.old (record x { rest = left_code self.old.left.items }) → x.rest ≡ Loop id test.now b (left_code self.old.left.items)
            → act_code statement.entry.now (left_code self.old.left.items) ≡ x.rest → ((k : Code) → b ⨟ k ≡ block_before body.entry.now (list_before step.entry.now k)) → IfOk result (λ o. Acted p before o self.new x) }
    {
        match self.test(alloc, id, test)? {
            Some(value) => {
                if is_met(value) {
                    self.left.push(Rest::Act(statement))?;
                    self.left.push(Rest::List(step))?;
                    add_block(&mut self.left, body)?;
                    Ok(None)
                } else {
                    Ok(None)
                }
            }
            None => Ok(Some(id)),
        }
    }

    // ---- calls

    // The act of a call: the callee begins with the arguments, and the caller waits.
    fn call(
        &mut self,
        alloc: Global,
        id: StatementId,
        target: &'p Target,
        function: FunctionId,
        args: &'p [Expr],
    ) -> Result<Option<StatementId>, AllocError>
        ensures { (p : Program) (before : Before) (x : Point) → IsAt p before self.old (record x { rest = left_code self.old.left.items }) → x.rest ≡ Call id target.entry.now function args.entry.now (left_code self.old.left.items) → IfOk result (λ o. Acted p before o self.new x) }
    {
        match self.program.functions.get(function as usize) {
            Some(callee) => self.call_of(alloc, id, target, function as usize, callee, args),
            None => Ok(Some(id)),
        }
    }

    // The same, of the function with this number.
    fn call_of(
        &mut self,
        alloc: Global,
        id: StatementId,
        target: &'p Target,
        function: usize,
        callee: &Function,
        args: &[Expr],
    ) -> Result<Option<StatementId>, AllocError>
        requires { Some callee.now ≡ slice_get self.old.program.now.functions function }
        ensures { (p : Program) (before : Before) (x : Point) → IsAt p before self.old (record x { rest = left_code self.old.left.items }) → x.rest ≡ Call id target.entry.now function args.now (left_code self.old.left.items) → IfOk result (λ o. Acted p before o self.new x) }
    {
        match self.arguments(alloc, callee, args)? {
            Some(values) => {
                self.enter(alloc, id, target, function)?;
                self.pass(alloc, callee.params.as_slice(), values)?;
                self.announce(alloc, id, target)?;
                Ok(None)
            }
            None => Ok(Some(id)),
        }
    }

    // The arguments of a call as the parameters have them; None where one is undefined.
    fn arguments(
        &self,
        alloc: Global,
        callee: &Function,
        args: &[Expr],
    ) -> Result<Option<Vec<Value>>, AllocError>
        ensures { IfOk result (λ o. option_map items_of o ≡ option_and_then (as_parameters self.now.program.now callee.now.params) (values.eval_all (types_of self.now.program.now) args.now (scene self.now.state.frame.items self.now.state.memory))) }
    {
        match values_of(args, self.scene(alloc))? {
            Some(values) => as_params(alloc, self.program, callee.params.as_slice(), values),
            None => Ok(None),
        }
    }

    // The caller waits, and the callee can name the globals alone.
    fn enter(
        &mut self,
        alloc: Global,
        id: StatementId,
        target: &'p Target,
        function: usize,
    ) -> Result<(), AllocError>
        ensures { (p : Program) (before : Before) (x : Point) → IsAt p before self.old x → OnOk result (IsAt p before self.new (record x {
          function = function;
          rest = code_at (executable p) function;
          state = fresh (executable p) x.state;
          callers = waiting id target.entry.now x.function x.rest x.state ∷ x.callers;
        })) }
    {
        let fresh = copied(alloc, self.globals.as_slice())?;
        let body = body_left(alloc, self.program, function)?;
        let left = mem::replace(&mut self.left, body);
        let frame = mem::replace(&mut self.state.frame, fresh);
        let returned = mem::replace(&mut self.state.returned, None);
        self.callers.push(Caller {
            call: id,
            target,
            function: self.function,
            left,
            frame,
            returned,
        })?;
        self.function = function;
        Ok(())
    }

    // The parameters begin with their values.
    fn pass(
        &mut self,
        alloc: Global,
        params: &[VarId],
        values: Vec<Value>,
    ) -> Result<(), AllocError>
        ensures { (p : Program) (before : Before) (x : Point) → IsAt p before self.old x → OnOk result (IsAt p before self.new (record x { state = all_passed p params.now values.items x.state })) }
    {
        let mut next = 0usize;
        for value in values {
            next = self.pass_one(alloc, params, next, value)?;
        }
        Ok(())
    }

    // The parameter with this number begins with a value, and the next number is answered. A value without a parameter
    // is left out.
    fn pass_one(
        &mut self,
        alloc: Global,
        params: &[VarId],
        next: usize,
        value: Value,
    ) -> Result<usize, AllocError>
        ensures { (p : Program) (before : Before) (x : Point) (vs : List ValueOf) (all : StateOf) → IsAt p before self.old x → all_passed p (drop next params.now) (value ∷ vs) x.state ≡ all → IfOk result (λ n. spec.PassedOn p before self.new x (λ s. all_passed p (drop n params.now) vs s ≡ all)) }
    {
        if next < params.len() {
            self.state
                .open_with(alloc, self.program, params[next], value)?;
            Ok(next + 1)
        } else {
            Ok(next)
        }
    }

    // A call without a target is told when it begins.
    fn announce(
        &mut self,
        alloc: Global,
        id: StatementId,
        target: &Target,
    ) -> Result<(), AllocError>
        ensures { (p : Program) (before : Before) (x : Point) → IsAt p before self.old x → OnOk result (IsAt p before self.new (record x { trace = announced id target.now x.trace })) }
    {
        match target {
            Target::None => {
                self.trace.tell(id, Items::new(alloc), &[])?;
                Ok(())
            }
            Target::Place(_) => Ok(()),
            Target::Declared(_) => Ok(()),
        }
    }

    // ---- what follows an act

    /// Does all that comes before the next act, and tells what the run has come to.
    pub(crate) fn settle(&mut self, alloc: Global) -> Result<Turn, AllocError>
        ensures { (p : Program) (before : Before) (x : Point) → IsAt p before self.old x → IfOk result (λ t. Settled p before t self.new x) }
    {
        'pieces: loop {
            match self.go_on(alloc)? {
                Some(turn) => return Ok(turn),
                None => (),
            }
        }
    }

    // Does the next piece, unless it is an act. Some: there is nothing to do before the next act, or the run is over.
    fn go_on(&mut self, alloc: Global) -> Result<Option<Turn>, AllocError>
        ensures stands { (p : Program) (before : Before) (x : Point) → IsAt p before self.old x → IfOk result (λ o. GoneOn p before o self.new x) }
        ensures fewer { IfOk result (λ o. IsNone o → run_size self.new < run_size self.old) }
    {
        match self.left.pop() {
            Some(Rest::List(list)) => {
                add_first(&mut self.left, list)?;
                Ok(None)
            }
            Some(Rest::Opens(x)) => {
                self.state.open(alloc, self.program, x)?;
                Ok(None)
            }
            Some(Rest::Leaves(list)) => {
                self.state.close_declared(list);
                Ok(None)
            }
            Some(Rest::Act(statement)) => self.stop_at(statement),
            None => self.come_back(alloc),
        }
    }

    // The act of a statement is left for later; a statement without an act is done.
    fn stop_at(&mut self, statement: &'p Statement) -> Result<Option<Turn>, AllocError>
        ensures stands { (p : Program) (before : Before) (x : Point) → IsAt p before self.old (record x { rest = left_code self.old.left.items }) → x.rest ≡ act_code statement.entry.now (left_code self.old.left.items) → IfOk result (λ o. GoneOn p before o self.new x) }
        ensures same { IfOk result (λ o. IsNone o → self.new ≡ self.old) }
    {
        match own_start(statement) {
            Some(_) => {
                self.left.push(Rest::Act(statement))?;
                Ok(Some(Turn::Going))
            }
            None => Ok(None),
        }
    }

    // The end of a function: of the run, or of a call.
    fn come_back(&mut self, alloc: Global) -> Result<Option<Turn>, AllocError>
        ensures stands { (p : Program) (before : Before) (x : Point) → IsAt p before self.old x → x.rest ≡ End → IfOk result (λ o. GoneOn p before o self.new x) }
        ensures fewer { self.old.left.items ≡ [] → IfOk result (λ o. IsNone o → run_size self.new < run_size self.old) }
    {
        match self.callers.pop() {
            Some(
                Caller {
                    call,
                    target,
                    function,
                    left,
                    frame,
                    returned,
                },
            ) => {
                self.end_function();
                self.function = function;
                self.left = left;
                self.state.frame = frame;
                let given = mem::replace(&mut self.state.returned, returned);
                self.receive(alloc, call, target, given)
            }
            None => Ok(Some(Turn::Ended)),
        }
    }

    // The variables of the function that ends are gone.
    fn end_function(&mut self)
        ensures stands { (p : Program) (before : Before) (x : Point) → IsAt p before self.old x → IsAt p before self.new (record x { state = values.all_closed (variables_at (executable p) x.function) x.state }) }
        ensures left { self.new.left ≡ self.old.left }
        ensures callers { self.new.callers ≡ self.old.callers }
    {
        match self.program.functions.get(self.function) {
            Some(function) => {
                self.state.close_each(function.params.as_slice());
                self.state.close_declared(function.body.as_slice());
            }
            None => (),
        }
    }

    // The target of a call gets what the callee has returned.
    fn receive(
        &mut self,
        alloc: Global,
        call: StatementId,
        target: &Target,
        value: Option<Value>,
    ) -> Result<Option<Turn>, AllocError>
        ensures stands { (p : Program) (before : Before) (x : Point) → IsAt p before self.old x → IfOk result (λ o. spec.Received p before call target.now value o self.new x) }
        ensures left { self.new.left ≡ self.old.left }
        ensures callers { self.new.callers ≡ self.old.callers }
    {
        match target {
            Target::None => Ok(None),
            Target::Place(_) => self.store_result(alloc, call, target, value),
            Target::Declared(_) => self.store_result(alloc, call, target, value),
        }
    }

    fn store_result(
        &mut self,
        alloc: Global,
        call: StatementId,
        target: &Target,
        value: Option<Value>,
    ) -> Result<Option<Turn>, AllocError>
        ensures stands { (p : Program) (before : Before) (x : Point) → IsAt p before self.old x → IfOk result (λ o. spec.Stored p before call (received (types_in (executable p) x.function) target.now value x.state) o self.new x) }
        ensures left { self.new.left ≡ self.old.left }
        ensures callers { self.new.callers ≡ self.old.callers }
    {
        match value {
            Some(v) => self.store_value(alloc, call, target, v),
            None => Ok(Some(Turn::Undefined(call))),
        }
    }

    fn store_value(
        &mut self,
        alloc: Global,
        call: StatementId,
        target: &Target,
        value: Value,
    ) -> Result<Option<Turn>, AllocError>
        ensures stands { (p : Program) (before : Before) (x : Point) → IsAt p before self.old x → IfOk result (λ o. spec.Stored p before call (received (types_in (executable p) x.function) target.now (Some value) x.state) o self.new x) }
        ensures left { self.new.left ≡ self.old.left }
        ensures callers { self.new.callers ≡ self.old.callers }
    {
        match given(target, value, self.scene(alloc))? {
            Some(made) => {
                self.perform(alloc, call, made)?;
                Ok(None)
            }
            None => Ok(Some(Turn::Undefined(call))),
        }
    }
}

// Lets the first statement of a list be done next, and then the others.
fn add_first<'p>(left: &mut Vec<Rest<'p>>, list: &'p [Statement]) -> Result<(), AllocError>
    ensures code { OnOk result (left_code left.new.items ≡ list_before list.now (left_code left.old.items)) }
    ensures size { OnOk result (left_size left.new.items < left_size left.old.items + list_size list.now) }
{
    match list.split_first() {
        Some((first, behind)) => {
            left.push(Rest::List(behind))?;
            add_statement(left, first)?;
            Ok(())
        }
        None => Ok(()),
    }
}

// The list that an if goes on with, by the value of its test.
fn chosen<'p>(value: i128, then: &'p [Statement], other: &'p [Statement]) -> &'p [Statement]
    ensures { block_in result.now ≡ either (is_true value) (block_in then.now) (block_in other.now) }
{
    if is_met(value) { then } else { other }
}

// Whether a test of this value is met (ISO C99 6.8.4.1, 6.8.5).
fn is_met(value: i128) -> bool
    ensures { result ≡ is_true value }
{
    value != 0
}

// Values as parameters have them; None where there are more or less, or one can't be had.
fn as_params(
    alloc: Global,
    program: &Program,
    params: &[VarId],
    values: Vec<Value>,
) -> Result<Option<Vec<Value>>, AllocError>
    ensures { IfOk result (λ o. option_map items_of o ≡ as_parameters program.now params.now values.items) }
{
    if values.len() != params.len() {
        return Ok(None);
    }
    let mut passed = Vec::new(alloc);
    let mut next = 0usize;
    for value in values {
        let shape = variable_type(alloc, program, params[next])?;
        next += 1;
        match as_type(&shape, value) {
            Some(v) => passed.push(v)?,
            None => return Ok(None),
        }
    }
    Ok(Some(passed))
}

// The number of main, and that of no function where there is none.
fn main_of(program: &Program) -> usize
    ensures { result ≡ (executable program.now).main }
{
    match found_main(program) {
        Some(number) => number,
        None => program.functions.as_slice().len(),
    }
}

fn found_main(program: &Program) -> Option<usize>
    ensures { result ≡ mains.main_of program.now }
{
    program
        .functions
        .as_slice()
        .iter()
        .position(|f| is_main(f.name.bytes()))
}

fn is_main(name: &[u8]) -> bool
    ensures { result ≡ names.is_main name.now }
{
    name == b"main".as_slice()
}

// The type of what a function returns.
fn result_of(program: &Program, function: usize) -> Option<&CType>
    ensures { option_map shape_of (option_copied result) ≡ result_at (executable program.now) function }
{
    match program.functions.get(function) {
        Some(found) => match &found.result {
            Some(shape) => Some(shape),
            None => None,
        },
        None => None,
    }
}

// What is left to do at the start of a function.
fn body_left<'p>(
    alloc: Global,
    program: &'p Program,
    function: usize,
) -> Result<Vec<Rest<'p>>, AllocError>
    ensures { IfOk result (λ left. left_code left.items ≡ code_at (executable program.entry.now) function) }
{
    let mut left = Vec::new(alloc);
    match program.functions.get(function) {
        Some(found) => {
            left.push(Rest::List(found.body.as_slice()))?;
            Ok(left)
        }
        None => Ok(left),
    }
}

// A table of blocks again.
fn copied(alloc: Global, table: &[Option<u64>]) -> Result<Vec<Option<u64>>, AllocError>
    ensures { IfOk result (λ all. all.items ≡ table.now) }
{
    Vec::from_slice(alloc, table)
}
