//! The memory for completions, and the completion.
ghost use Rattle.std.specs.Prelude.{◌≡◌, ℕ, ◌<◌, ◌^◌, true, Some, IfOk, length, slice_set};
ghost use Rattle.std.specs.List.{position};
ghost use Rattle.c_tree.specs.declared.program.Program.{Program};
ghost use Rattle.c_language.specs.Mains.{main_of};
ghost use Rattle.c_language.specs.NameRules as names;
ghost use Rattle.dep_model.specs.declared.graph.Graph.{Graph};
ghost use Rattle.dep_model.specs.ClosedSets.{IsMainEntry};
ghost use Rattle.dep_model.specs.Completion.{IsCompletion};
ghost use Rattle.dep_model.specs.FunctionVertices.{is_entry, passes};
ghost use Rattle.dep_model.specs.Graphs.{IsGraphOf};
ghost use Rattle.dep_model.specs.NamedParameters.{NamesParameter};
ghost use Rattle.completion.specs.Closing.{Closes, IsInside, main_entry};

use crate::rules::{add_names, rules_of};
use c_tree::Program;
use dep_model::{Closure, Graph, Vertex, VertexId, VertexKind, VertexSet};
use std::alloc::{AllocError, Global};
use std::marker::Model;

/// The closures of a program's graph, ready to complete sets of its vertices, and the memory that this takes.
#[derive(Drop)]
pub struct Closer {
    main: Option<VertexId>,
    closure: Closure,
}

impl Model for Closer {
    ghost use Rattle.completion.specs.Closing.{Closing, IsInside};

    ghost Value = { Closing };

    ghost view = { λ c. record { size = c.closure.size; main = c.main; rules = c.closure.rules } };

    ghost invariant = { λ c. IsInside c.main c.closure.size };
}

// The number of the function named main (ISO C99 5.1.2.2.1).
fn main_of(p: &Program) -> Option<usize>
    ensures { result ≡ main_of p.now }
{
    p.functions
        .as_slice()
        .iter()
        .position(|f| is_main(f.name.bytes()))
}

fn is_main(name: &[u8]) -> bool
    ensures { result ≡ names.is_main name.now }
{
    name == b"main".as_slice()
}

// Whether a vertex is the entry of the function.
fn is_entry(vertex: &Vertex, function: usize) -> bool
    ensures { result ≡ passes is_entry function vertex.now }
{
    vertex.function as usize == function && vertex.kind == VertexKind::Entry
}

// The place of the function's entry.
fn entry_place(vertices: &[Vertex], function: usize) -> Option<usize>
    ensures { result ≡ position (passes is_entry function) vertices.now }
{
    vertices.iter().position(|v| is_entry(v, function))
}

// The entry of the function.
fn entry_of(vertices: &[Vertex], function: usize) -> Option<VertexId>
    requires few { length vertices.now < 2 ^ 32 }
    ensures { result ≡ position (passes is_entry function) vertices.now }
{
    match entry_place(vertices, function) {
        None => None,
        Some(at) => Some(at as u32),
    }
}

// The entry of main.
fn main_entry(p: &Program, vertices: &[Vertex]) -> Option<VertexId>
    requires few { length vertices.now < 2 ^ 32 }
    ensures { result ≡ main_entry p.now vertices.now }
{
    match main_of(p) {
        None => None,
        Some(function) => entry_of(vertices, function),
    }
}

// Adds the entry of main, where there is one.
fn add_main(main: Option<VertexId>, set: &mut VertexSet)
    requires { IsInside main (length set.old) }
    ensures adds { (m : ℕ) → main ≡ Some m → set.new ≡ slice_set set.old m true }
    ensures size { length set.new ≡ length set.old }
{
    match main {
        None => {}
        Some(main) => set.add(main),
    }
}

impl Closer {
    /// Takes all the memory that completing sets needs, for the graph of a program. Err: no memory was left.
    pub fn prepare(alloc: Global, p: &Program, g: &Graph) -> Result<Closer, AllocError>
        requires graph { IsGraphOf p.now g.now }
        requires few { length g.now.vertices < 2 ^ 32 }
        ensures { IfOk result (Closes p.now g.now) }
    {
        let size = g.vertices.len() as u32;
        let mut rules = rules_of(alloc, g.edges.as_slice())?;
        add_names(alloc, &mut rules, p, g.vertices.as_slice())?;
        let main = main_entry(p, g.vertices.as_slice());
        let closure = Closure::prepare(alloc, size, rules)?;
        Ok(Closer { main, closure })
    }

    /// Makes the set its completion (after Binkley 1993), the least closed set that holds it, and takes no memory. It then has
    /// the control and the flow predecessors of its members, the formal-out of each actual-out, the entry of each function that
    /// a member calls, the actual-in of each formal-in at each call, the formal-in of each parameter that a member names, and
    /// the entry of main.
    pub fn close_up(&mut self, set: &mut VertexSet)
        requires { length set.old ≡ self.old.size }
        ensures completes { (p : Program) (g : Graph) (m : ℕ) → Closes p g self.old → IsMainEntry p g.vertices m
            → IsCompletion g.edges (NamesParameter p g.vertices) m set.old set.new }
        ensures size { length set.new ≡ length set.old }
        ensures kept { self.new ≡ self.old }
    {
        add_main(self.main, set);
        self.closure.close(set);
    }
}
