//! A program with what its functions modify and use, as the listing of its vertices sees it.
ghost use Rattle.std.specs.Prelude.{◌≡◌, ◌<◌, Some, length, slice_get};
ghost use Rattle.std.specs.List.{position};
ghost use Rattle.c_language.specs.Mains.{main_of, is_main_of};
ghost use Rattle.c_language.specs.NameRules as names;
ghost use Rattle.dep_model.specs.LocationLists.{location_list, AreListedOnce};
ghost use Rattle.dep_model.specs.LocationRows.{HasEffectRows};
ghost use Rattle.dep_model.specs.Locations.{TypedLocation, locations};
ghost use Rattle.vertex_layout.specs.Seen as spec;
ghost use Rattle.vertex_layout.specs.Seen.{effects_in};

use c_tree::{FunctionId, Program};
use dep_model::{Effects, LocationId, Locations};
use std::marker::Model;

/// Which locations of a function are meant.
#[derive(Clone, Copy, Debug, PartialEq, Eq)]
pub(crate) enum Touch {
    /// Those that it modifies.
    Modified,
    /// Those that it modifies or uses.
    Either,
}

/// A program with what its functions modify and use, the count of its locations and the number of main.
#[derive(Drop)]
pub(crate) struct Seen<'p, 'e> {
    program: &'p Program,
    effects: &'e Effects,
    locations: u32,
    main: Option<usize>,
}

impl<'p, 'e> Model for Seen<'p, 'e> {
    ghost use Rattle.std.specs.Coded.{codes};
    ghost use Rattle.c_tree.specs.contracts.expr.Expr as expr;
    ghost use Rattle.c_tree.specs.contracts.statement.Statement as statement;
    ghost use Rattle.c_tree.specs.contracts.types.CType as shape;
    ghost use Rattle.vertex_layout.specs.Seen.{SeenProgram, IsSeen};

    ghost Value = { SeenProgram };

    ghost coded = { Prim.hlevel (codes, expr.the_row.coded, statement.the_row.coded, shape.the_row.coded) };

    ghost view = { λ s. record { program = s.program.now; rows = s.effects.now } };

    ghost invariant = { λ s. IsSeen s.program.now s.effects.now s.locations s.main };
}

// The number of the function named main (ISO C99 5.1.2.2.1).
fn main_of(p: &Program) -> Option<usize>
    ensures { result ≡ main_of p.now }
{
    p.functions
        .as_slice()
        .iter()
        .position(|f| is_main(f.name.bytes()))
}

fn is_main(name: &[u8]) -> bool
    ensures { result ≡ names.is_main name.now }
{
    name == b"main".as_slice()
}

impl<'p, 'e> Seen<'p, 'e> {
    /// A program with its locations and with what its functions modify and use.
    pub(crate) fn of(program: &'p Program, list: &Locations, effects: &'e Effects) -> Seen<'p, 'e>
        requires list_is { list.now ≡ location_list program.now }
        requires once { AreListedOnce program.now }
        requires rows_are { HasEffectRows program.now effects.now }
        ensures { result ≡ record { program = program.now; rows = effects.now } }
    {
        Seen {
            program,
            effects,
            locations: list.len(),
            main: main_of(program),
        }
    }

    /// The program.
    pub(crate) fn program(&self) -> &'p Program
        ensures { result.now ≡ self.now.program }
    {
        self.program
    }

    /// How many locations it has.
    pub(crate) fn locations(&self) -> u32
        ensures { result ≡ length (locations self.now.program) }
    {
        self.locations
    }

    // Whether a function modifies the location at a place.
    fn modifies(&self, f: FunctionId, k: LocationId) -> bool
        requires { k < length (locations self.now.program) }
        ensures { (o : TypedLocation) → slice_get (locations self.now.program) k ≡ Some o → result ≡ (effects_in self.now).modified f o.location }
    {
        if (f as usize) < self.program.functions.len() {
            self.effects.modified.has(f, k)
        } else {
            false
        }
    }

    // Whether a function uses the location at a place.
    fn uses(&self, f: FunctionId, k: LocationId) -> bool
        requires { k < length (locations self.now.program) }
        ensures { (o : TypedLocation) → slice_get (locations self.now.program) k ≡ Some o → result ≡ (effects_in self.now).used f o.location }
    {
        if (f as usize) < self.program.functions.len() {
            self.effects.used.has(f, k)
        } else {
            false
        }
    }

    /// Whether a function modifies the location at a place, or uses it where that is meant too.
    pub(crate) fn touches(&self, touch: Touch, f: FunctionId, k: LocationId) -> bool
        requires { k < length (locations self.now.program) }
        ensures { (o : TypedLocation) → slice_get (locations self.now.program) k ≡ Some o → result ≡ spec.touches (effects_in self.now) touch f o.location }
    {
        match touch {
            Touch::Modified => self.modifies(f, k),
            Touch::Either => self.modifies(f, k) || self.uses(f, k),
        }
    }

    fn is_main(&self, f: FunctionId) -> bool
        ensures { result ≡ is_main_of self.now.program f }
    {
        match self.main {
            Some(main) => main == f as usize,
            None => false,
        }
    }

    /// Whether a function gives its calls a result: void functions and main don't.
    pub(crate) fn gives_result(&self, f: FunctionId) -> bool
        ensures { result ≡ spec.gives_result self.now.program f }
    {
        match self.program.functions.get(f as usize) {
            Some(function) => function.result.is_some() && !self.is_main(f),
            None => false,
        }
    }
}
