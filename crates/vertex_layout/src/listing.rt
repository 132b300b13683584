//! The list of a program's vertices, function by function, which ends at the largest number of them.
ghost use Rattle.std.specs.Prelude.{◌≡◌, ◌≤◌, ◌<◌, ◌^◌, ◌+◌, ◌++◌, ◌∷◌, [], IfOk, OnOk, Some, length, map, slice_get};
ghost use Rattle.std.specs.Borrow.{Bor};
ghost use Rattle.std.specs.Result.{IfErr};
ghost use Rattle.c_tree.specs.declared.program.Function.{Function};
ghost use Rattle.dep_model.specs.Doings.{body_doings};
ghost use Rattle.dep_model.specs.VertexOrder.{in_function, all_vertices, formal_ins, formal_outs, function_kinds, vertices_from, program_vertices};
ghost use Rattle.effect_rows.specs.Own.{own_doing};
ghost use Rattle.vertex_layout.specs.Listing as spec;
ghost use Rattle.vertex_layout.specs.Listing.{IsAbove, through, vertices_in, argument_slots, result_if, touched_slots, in_kinds, out_kinds, call_kinds, part_kinds, own_kinds, all_own_kinds};
ghost use Rattle.vertex_layout.specs.OwnStatements.{own_doings};
ghost use Rattle.vertex_layout.specs.Seen.{effects_in};

use crate::seen::{Seen, Touch};
use crate::statements;
use c_tree::{Function, FunctionId, LimitName, Statement, StatementId, Target};
use dep_model::{GraphFault, Slot, Vertex, VertexKind};
use std::alloc::{AllocError, Global};
use std::marker::Model;

/// The largest number of vertices.
const MAX_VERTICES: usize = 65_536;

/// Which formals or actuals are listed.
#[derive(Clone, Copy, Debug, PartialEq, Eq)]
pub(crate) enum Port {
    /// What a function is given.
    FormalIn,
    /// What a function gives back.
    FormalOut,
    /// What a call statement gives.
    ActualIn(StatementId),
    /// What a call statement gets back.
    ActualOut(StatementId),
}

// The formal or the actual of a slot.
fn kind_of(port: Port, slot: Slot) -> VertexKind
    ensures { result ≡ through port slot }
{
    match port {
        Port::FormalIn => VertexKind::FormalIn(slot),
        Port::FormalOut => VertexKind::FormalOut(slot),
        Port::ActualIn(id) => VertexKind::ActualIn(id, slot),
        Port::ActualOut(id) => VertexKind::ActualOut(id, slot),
    }
}

/// Vertices, at most as many as a graph may have. Contracts see their list.
#[derive(Drop)]
pub(crate) struct Listing {
    list: Vec<Vertex>,
}

impl Model for Listing {
    ghost use Rattle.std.specs.Prelude.{List, length, ◌≤◌};
    ghost use Rattle.dep_model.specs.declared.vertex.Vertex.{Vertex};

    ghost Value = { List Vertex };

    ghost view = { λ l. l.list.items };

    ghost invariant = { λ l. length l.list.items ≤ 65536 };
}

impl Listing {
    fn new(alloc: Global) -> Listing
        ensures { result ≡ [] }
    {
        Listing {
            list: Vec::new(alloc),
        }
    }

    // Appends a vertex.
    fn add(&mut self, f: FunctionId, kind: VertexKind) -> Result<(), GraphFault>
        ensures added { OnOk result (self.new ≡ self.old ++ in_function f kind ∷ []) }
        ensures above { IfErr result (IsAbove (length self.old + 1)) }
        ensures few { OnOk result (length self.old < 65536) }
    {
        if self.list.len() >= MAX_VERTICES {
            return Err(GraphFault::Limit(LimitName::Vertices));
        }
        self.push(Vertex { function: f, kind })?;
        Ok(())
    }

    fn push(&mut self, vertex: Vertex) -> Result<(), AllocError>
        requires { length self.old < 65536 }
        ensures { OnOk result (self.new ≡ self.old ++ vertex ∷ []) }
    {
        self.list.push(vertex)?;
        Ok(())
    }

    /// The list.
    pub(crate) fn into_list(self) -> Vec<Vertex>
        ensures items { result.items ≡ self }
        ensures few { length result.items ≤ 65536 }
    {
        self.list
    }
}

/// Lists the vertices of a program. Err: there are more than 65,536, or no memory was left.
pub(crate) fn find(alloc: Global, seen: &Seen<'_, '_>) -> Result<Listing, GraphFault>
    requires few_functions { length seen.now.program.functions < 2 ^ 32 }
    ensures added { IfOk result (λ list. list ≡ program_vertices seen.now.program (effects_in seen.now)) }
    ensures above { IfErr result (IsAbove (length (program_vertices seen.now.program (effects_in seen.now)))) }
{
    let mut list = Listing::new(alloc);
    add_functions(alloc, &mut list, seen, seen.program().functions.as_slice())?;
    Ok(list)
}

// Appends the vertices of functions, of which the first has the number 0.
fn add_functions(
    alloc: Global,
    list: &mut Listing,
    seen: &Seen<'_, '_>,
    functions: &[Function],
) -> Result<(), GraphFault>
    requires functions_are { functions.now ≡ seen.now.program.functions }
    requires few_functions { length functions.now < 2 ^ 32 }
    ensures added { OnOk result (list.new ≡ list.old ++ vertices_from seen.now.program (effects_in seen.now) 0 functions.now) }
    ensures above { IfErr result (IsAbove (length list.old + length (vertices_from seen.now.program (effects_in seen.now) 0 functions.now))) }
{
    for (f, function) in functions.iter().enumerate() {
        add_function(alloc, list, seen, f as FunctionId, function)?;
    }
    Ok(())
}

// Appends the vertices of a function: its entry, its formal-ins, those of its statements and its formal-outs.
fn add_function(
    alloc: Global,
    list: &mut Listing,
    seen: &Seen<'_, '_>,
    f: FunctionId,
    function: &Function,
) -> Result<(), GraphFault>
    requires at { slice_get seen.now.program.functions f ≡ Some function.now }
    ensures added { OnOk result (list.new ≡ list.old ++ vertices_in f (function_kinds seen.now.program (effects_in seen.now) f)) }
    ensures above { IfErr result (IsAbove (length list.old + length (vertices_in f (function_kinds seen.now.program (effects_in seen.now) f)))) }
{
    add_parts(
        alloc,
        list,
        seen,
        f,
        function.params.len(),
        function.body.as_slice(),
    )
}

// Appends the vertices of a function with so many parameters and this body.
fn add_parts(
    alloc: Global,
    list: &mut Listing,
    seen: &Seen<'_, '_>,
    f: FunctionId,
    parameters: usize,
    body: &[Statement],
) -> Result<(), GraphFault>
    ensures added { OnOk result (list.new ≡ list.old ++ vertices_in f (part_kinds seen.now f parameters body.now)) }
    ensures above { IfErr result (IsAbove (length list.old + length (vertices_in f (part_kinds seen.now f parameters body.now)))) }
{
    list.add(f, VertexKind::Entry)?;
    add_ins(list, seen, f, Port::FormalIn, parameters, f)?;
    add_body(alloc, list, seen, f, body)?;
    add_outs(list, seen, f, Port::FormalOut, f, seen.gives_result(f))
}

// Appends the vertices of the statements of a body.
fn add_body(
    alloc: Global,
    list: &mut Listing,
    seen: &Seen<'_, '_>,
    f: FunctionId,
    body: &[Statement],
) -> Result<(), GraphFault>
    ensures added { OnOk result (list.new ≡ list.old ++ vertices_in f (all_vertices seen.now.program (effects_in seen.now) (body_doings body.now))) }
    ensures above { IfErr result (IsAbove (length list.old + length (vertices_in f (all_vertices seen.now.program (effects_in seen.now) (body_doings body.now))))) }
{
    let statements = statements::of_body(alloc, body)?;
    add_statements(list, seen, f, statements.as_slice())
}

// Appends the vertices of what some statements do themselves.
fn add_statements(
    list: &mut Listing,
    seen: &Seen<'_, '_>,
    f: FunctionId,
    statements: &[&Statement],
) -> Result<(), GraphFault>
    ensures added { OnOk result (list.new ≡ list.old ++ vertices_in f (all_own_kinds seen.now (own_doings statements.now))) }
    ensures above { IfErr result (IsAbove (length list.old + length (vertices_in f (all_own_kinds seen.now (own_doings statements.now))))) }
{
    for statement in statements {
        add_statement(list, seen, f, statement)?;
    }
    Ok(())
}

// Appends the vertices of what a statement does itself.
#[tactic(auto, using(crate::proofs::Rules::own))]
fn add_statement(
    list: &mut Listing,
    seen: &Seen<'_, '_>,
    f: FunctionId,
    statement: &Statement,
) -> Result<(), GraphFault>
    ensures added { OnOk result (list.new ≡ list.old ++ vertices_in f (own_kinds seen.now (own_doing statement.now))) }
    ensures above { IfErr result (IsAbove (length list.old + length (vertices_in f (own_kinds seen.now (own_doing statement.now))))) }
{
    match statement {
        Statement::Declare { id, .. } => match id {
            None => Ok(()),
            Some(id) => list.add(f, VertexKind::Statement(*id)),
        },
        Statement::Assign { id, .. } => list.add(f, VertexKind::Statement(*id)),
        Statement::Bump { id, .. } => list.add(f, VertexKind::Statement(*id)),
        Statement::Fetch { id, .. } => list.add(f, VertexKind::Statement(*id)),
        Statement::Write { id, .. } => list.add(f, VertexKind::Statement(*id)),
        Statement::Print { id, .. } => list.add(f, VertexKind::Statement(*id)),
        Statement::Heap { id, .. } => list.add(f, VertexKind::Statement(*id)),
        Statement::Release { id, .. } => list.add(f, VertexKind::Statement(*id)),
        Statement::If { id, .. } => list.add(f, VertexKind::Statement(*id)),
        Statement::While { id, .. } => list.add(f, VertexKind::Statement(*id)),
        Statement::Do { id, .. } => list.add(f, VertexKind::Statement(*id)),
        Statement::For { id, .. } => list.add(f, VertexKind::Statement(*id)),
        Statement::Switch { id, .. } => list.add(f, VertexKind::Statement(*id)),
        Statement::Return { id, .. } => list.add(f, VertexKind::Statement(*id)),
        Statement::Block { .. } => Ok(()),
        Statement::Invoke {
            id,
            target,
            function,
            args,
            ..
        } => add_call(list, seen, f, *id, *function, args.len(), is_stored(target)),
    }
}

// Whether the value of a call is stored.
fn is_stored(to: &Target) -> bool
    ensures { result ≡ spec.is_stored to.now }
{
    match to {
        Target::None => false,
        Target::Place(_) => true,
        Target::Declared(_) => true,
    }
}

// Appends the vertices of a call of function g: its call vertex, what goes in and what comes out.
fn add_call(
    list: &mut Listing,
    seen: &Seen<'_, '_>,
    f: FunctionId,
    id: StatementId,
    g: FunctionId,
    arguments: usize,
    stores: bool,
) -> Result<(), GraphFault>
    ensures added { OnOk result (list.new ≡ list.old ++ vertices_in f (call_kinds seen.now id g arguments stores)) }
    ensures above { IfErr result (IsAbove (length list.old + length (vertices_in f (call_kinds seen.now id g arguments stores)))) }
{
    list.add(f, VertexKind::Call(id))?;
    add_ins(list, seen, f, Port::ActualIn(id), arguments, g)?;
    add_outs(list, seen, f, Port::ActualOut(id), g, stores)
}

// Appends what goes into function g: so many arguments, and each location that it modifies or uses.
fn add_ins(
    list: &mut Listing,
    seen: &Seen<'_, '_>,
    f: FunctionId,
    port: Port,
    arguments: usize,
    g: FunctionId,
) -> Result<(), GraphFault>
    ensures added { OnOk result (list.new ≡ list.old ++ vertices_in f (in_kinds seen.now port arguments g)) }
    ensures above { IfErr result (IsAbove (length list.old + length (vertices_in f (in_kinds seen.now port arguments g)))) }
{
    add_arguments(list, f, port, arguments)?;
    add_locations(list, seen, f, port, Touch::Either, g)
}

// Appends what comes out of function g: each location that it modifies, and the result or not.
fn add_outs(
    list: &mut Listing,
    seen: &Seen<'_, '_>,
    f: FunctionId,
    port: Port,
    g: FunctionId,
    with_result: bool,
) -> Result<(), GraphFault>
    ensures added { OnOk result (list.new ≡ list.old ++ vertices_in f (out_kinds seen.now port g with_result)) }
    ensures above { IfErr result (IsAbove (length list.old + length (vertices_in f (out_kinds seen.now port g with_result)))) }
{
    add_locations(list, seen, f, port, Touch::Modified, g)?;
    add_result(list, f, port, with_result)
}

// Appends so many arguments.
fn add_arguments(
    list: &mut Listing,
    f: FunctionId,
    port: Port,
    arguments: usize,
) -> Result<(), GraphFault>
    ensures added { OnOk result (list.new ≡ list.old ++ vertices_in f (map (through port) (argument_slots 0 arguments))) }
    ensures above { IfErr result (IsAbove (length list.old + length (vertices_in f (map (through port) (argument_slots 0 arguments))))) }
{
    for k in 0..arguments {
        list.add(f, kind_of(port, Slot::Argument(k as u32)))?;
    }
    Ok(())
}

// Appends the locations of function g that are meant.
fn add_locations(
    list: &mut Listing,
    seen: &Seen<'_, '_>,
    f: FunctionId,
    port: Port,
    touch: Touch,
    g: FunctionId,
) -> Result<(), GraphFault>
    ensures added { OnOk result (list.new ≡ list.old ++ vertices_in f (map (through port) (touched_slots seen.now touch g))) }
    ensures above { IfErr result (IsAbove (length list.old + length (vertices_in f (map (through port) (touched_slots seen.now touch g))))) }
{
    for k in 0..seen.locations() {
        if seen.touches(touch, g, k) {
            list.add(f, kind_of(port, Slot::At(k)))?;
        }
    }
    Ok(())
}

// Appends the result, where there is one.
fn add_result(
    list: &mut Listing,
    f: FunctionId,
    port: Port,
    with_result: bool,
) -> Result<(), GraphFault>
    ensures added { OnOk result (list.new ≡ list.old ++ vertices_in f (map (through port) (result_if with_result))) }
    ensures above { IfErr result (IsAbove (length list.old + length (vertices_in f (map (through port) (result_if with_result))))) }
{
    if with_result {
        list.add(f, kind_of(port, Slot::Result))
    } else {
        Ok(())
    }
}
