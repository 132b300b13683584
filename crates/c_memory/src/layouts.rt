//! The struct types of a program, and where the parts of an object lie among its cells (ISO C99 6.7.2.1).
ghost use Rattle.std.specs.Prelude.{◌≡◌, List, [], Some, None, if◌then◌else◌, IfOk, length, map, option_map};
ghost use Rattle.c_tree.specs.declared.program.Member.{Member};
ghost use Rattle.c_language.specs.declared.expr_type.ExprType.{ExprType};
ghost use Rattle.c_language.specs.ExprTypes as types;
ghost use Rattle.c_language.specs.TreeTypes.{shape_of};
ghost use Rattle.c_meaning.specs.Cells as spec;
ghost use Rattle.c_meaning.specs.Cells.{layered_cells, member_cells, structs_of};
ghost use Rattle.c_memory.specs.Counts.{saturated, AreCounts, members_at, element_offset};
ghost use Rattle.c_memory.specs.Parts.{object_of, placed};

mod zeros;

use c_language::{Base, ExprType, Layer};
use c_meaning::Hop;
use c_tree::{Member, Program};
use sqlite_items::{Items, at};
use std::alloc::{AllocError, Global};
use std::marker::Model;
use tree_types::declared_type;

/// The struct types of a program, each with the types of its members and how many cells it has. Contracts see the
/// types of the members.
#[derive(Debug, Drop)]
pub(crate) struct Layouts {
    members: Items<Items<ExprType>>,
    counts: Vec<u64>,
}

impl Model for Layouts {
    ghost use Rattle.std.specs.Prelude.{List, []};
    ghost use Rattle.c_language.specs.declared.expr_type.ExprType.{ExprType};

    ghost Value = { List (List ExprType) };

    ghost use Rattle.c_meaning.specs.Cells.{cells_behind};
    ghost use Rattle.c_memory.specs.Counts.{AreCounts};

    ghost view = { λ l. l.members };

    ghost invariant = { λ l. AreCounts l.counts.items (cells_behind [] l.members) };
}

/// A part of an object.
#[derive(Clone, Copy)]
pub(crate) struct Part<'a> {
    /// The derivations of its type, outermost first.
    pub(crate) layers: &'a [Layer],
    /// What they begin with.
    pub(crate) base: Base,
    /// How many cells of the whole stand before it; 2^64 - 1 where there are more.
    pub(crate) before: u64,
}

impl Layouts {
    /// The struct types of a program. Err: no memory was left.
    pub(crate) fn of(alloc: Global, p: &Program) -> Result<Layouts, AllocError>
        ensures { IfOk result (λ l. l ≡ structs_of p.now) }
    {
        let mut members = Items::new(alloc);
        let mut counts = Vec::new(alloc);
        for structure in p.structs.as_slice() {
            let types = member_types(alloc, structure.members.as_slice())?;
            let count = member_count(counts.as_slice(), types.as_slice());
            counts.push(count)?;
            members.push(types)?;
        }
        Ok(Layouts { members, counts })
    }

    /// How many cells an object of the type has; 2^64 - 1 where it has more.
    pub(crate) fn cell_count(&self, shape: &ExprType) -> u64
        ensures { result ≡ saturated (spec.cell_count self.now shape.now) }
    {
        count(self.counts.as_slice(), shape.layers.as_slice(), shape.base)
    }

    /// The number of the cell at the end of a path, 2^64 - 1 where it is higher; None where there is no integer and
    /// no pointer.
    pub(crate) fn cell_number(&self, path: &[Hop], shape: &ExprType) -> Option<u64>
        ensures { result ≡ option_map saturated (spec.cell_number self.now path.now shape.now) }
    {
        match self.part(path, shape) {
            Some(part) => number_of_scalar(part.before, part.layers, part.base),
            None => None,
        }
    }

    /// The part of an object to which a path leads; None where it leads to none.
    pub(crate) fn part<'a>(&'a self, path: &[Hop], shape: &'a ExprType) -> Option<Part<'a>>
        ensures { option_map object_of result ≡ option_map (placed 0) (spec.subobject self.now path.now shape.now) }
    {
        self.part_behind(0, path, shape.layers.as_slice(), shape.base)
    }

    // The part to which a path leads, in an object with so many cells before it.
    fn part_behind<'a>(
        &'a self,
        before: u64,
        path: &[Hop],
        layers: &'a [Layer],
        base: Base,
    ) -> Option<Part<'a>>
        ensures { option_map object_of result ≡ option_map (placed before)
            (spec.subobject self.now path.now (record { layers = layers.now; base = base })) }
    {
        let counts = self.counts.as_slice();
        match path.split_first() {
            None => Some(Part {
                layers,
                base,
                before,
            }),
            Some((Hop::Element(index), rest)) => match element_before(
                counts, *index, layers, base,
            ) {
                Some(inside) => {
                    self.part_behind(before.saturating_add(inside), rest, &layers[1..], base)
                }
                None => None,
            },
            Some((Hop::Member(index), rest)) => {
                let members = self.members_of(layers, base);
                match at(members, *index as usize) {
                    Some(member) => {
                        let inside = member_count(counts, &members[..*index as usize]);
                        let sum = before.saturating_add(inside);
                        self.part_behind(sum, rest, member.layers.as_slice(), member.base)
                    }
                    None => None,
                }
            }
        }
    }

    // The types of the members of a struct type; none of another type.
    fn members_of(&self, layers: &[Layer], base: Base) -> &[ExprType]
        ensures { result.now ≡ members_at self.now (record { layers = layers.now; base = base }) }
    {
        if !layers.is_empty() {
            return &[];
        }
        match base {
            Base::Struct(s) => match self.members.get(s as usize) {
                Some(members) => members.as_slice(),
                None => &[],
            },
            Base::Integer(_) | Base::Void => &[],
        }
    }
}

// The types of members. Err: no memory was left.
fn member_types(alloc: Global, members: &[Member]) -> Result<Items<ExprType>, AllocError>
    ensures { IfOk result (λ ts. ts ≡ map (λ (m : Member). shape_of m.shape) members.now) }
{
    let mut types = Items::new(alloc);
    for member in members {
        types.push(declared_type(alloc, &member.shape)?)?;
    }
    Ok(types)
}

// How many cells an object has, by the counts of the struct types.
fn count(counts: &[u64], layers: &[Layer], base: Base) -> u64
    ensures { (known : List (List ExprType)) → AreCounts counts.now known
        → result ≡ saturated (length (layered_cells known layers.now base)) }
{
    match layers.split_first() {
        None => match base {
            Base::Integer(_) => 1,
            Base::Struct(s) => counts.get(s as usize).copied().unwrap_or(0),
            Base::Void => 0,
        },
        Some((Layer::Pointer, _)) => 1,
        Some((Layer::Array(n), inner)) => n.saturating_mul(count(counts, inner, base)),
    }
}

// How many cells members have together, by the counts of the struct types.
fn member_count(counts: &[u64], members: &[ExprType]) -> u64
    ensures { (known : List (List ExprType)) → AreCounts counts.now known
        → result ≡ saturated (length (member_cells known members.now)) }
{
    let mut sum: u64 = 0;
    for member in members {
        sum = sum.saturating_add(count(counts, member.layers.as_slice(), member.base));
    }
    sum
}

// How many cells stand before an element of an array; None where there is no such element.
fn element_before(counts: &[u64], index: u32, layers: &[Layer], base: Base) -> Option<u64>
    ensures { (known : List (List ExprType)) → AreCounts counts.now known
        → result ≡ option_map saturated (element_offset known index layers.now base) }
{
    match layers.split_first() {
        Some((Layer::Array(length), inner)) => {
            if (index as u64) < *length {
                Some((index as u64).saturating_mul(count(counts, inner, base)))
            } else {
                None
            }
        }
        Some((Layer::Pointer, _)) => None,
        None => None,
    }
}

// The number of a scalar object's one cell, with so many cells before it; None where the object isn't scalar.
fn number_of_scalar(before: u64, layers: &[Layer], base: Base) -> Option<u64>
    ensures { result ≡ if types.is_scalar (record { layers = layers.now; base = base }) then Some before else None }
{
    match layers.split_first() {
        Some((Layer::Pointer, _)) => Some(before),
        Some((Layer::Array(_), _)) => None,
        None => match base {
            Base::Integer(_) => Some(before),
            Base::Struct(_) => None,
            Base::Void => None,
        },
    }
}
