//! The functions that a round takes: those that call one whose facts grew.
ghost use Rattle.std.specs.Prelude.{◌≡◌, ◌↔◌, ℕ, ◌^◌, ◌<◌, ◌≤◌, ◌⊎◌, All, true, false, OnOk, IfOk, Contains, length, map, flat_map};
ghost use Rattle.std.specs.List.{AllPairs};
ghost use Rattle.bit_rows.specs.Sets.{has};
ghost use Rattle.crew.specs.SharedWords.{AreWithin};
ghost use Rattle.dep_model.specs.Facts.{AreFactWords};
ghost use Rattle.dep_model.specs.Shapes.{IsShaped};
ghost use Rattle.matched_paths.specs.EdgeGroups.{group_at, calling};
ghost use Rattle.summary_edges.specs.Agendas.{IsAgenda, IsCaller, IsCallerOfChanged, IsDue, HaveWordsChanged, HasGainedBit, number_at};
ghost use Rattle.summary_edges.specs.FactMachine.{IsFirstAgenda, IsLaterAgenda};
ghost use Rattle.summary_edges.specs.FunctionParts.{IsPart, AreParts};

use crate::function_parts::{FunctionPart, FunctionParts};
use dep_model::{Facts, Graph};
use matched_paths::EdgeGroups;
use std::alloc::{AllocError, Global};

/// Functions, by their places in a list of all.
#[derive(Drop)]
pub(crate) struct Agenda {
    /// Whether it has the function at a place.
    pub(crate) marks: Vec<bool>,
    /// The places of those that it has, each once.
    pub(crate) places: Vec<u32>,
}

impl Agenda {
    /// Without a function, of so many. Err: no memory was left.
    pub(crate) fn new(alloc: Global, functions: usize) -> Result<Agenda, AllocError>
        ensures agenda { IfOk result (IsAgenda functions) }
        ensures none { IfOk result (λ a. (p : ℕ) → has a.marks.items p ≡ false) }
    {
        let marks = vec![in alloc; false; functions]?;
        let places = Vec::new(alloc);
        Ok(Agenda { marks, places })
    }

    // Adds the function at a place. Err: no memory was left.
    fn add(&mut self, place: u32) -> Result<(), AllocError>
        requires agenda { IsAgenda (length self.old.marks.items) self.old }
        requires inside { place < length self.old.marks.items }
        ensures agenda { OnOk result (IsAgenda (length self.old.marks.items) self.new) }
        ensures added { OnOk result ((p : ℕ) → (has self.new.marks.items p ≡ true) ↔ ((has self.old.marks.items p ≡ true) ⊎ (p ≡ place))) }
    {
        if !self.marks[place as usize] {
            self.places.push(place)?;
            self.marks[place as usize] = true;
        }
        Ok(())
    }

    /// Adds the functions that call one. Err: no memory was left.
    pub(crate) fn add_callers(
        &mut self,
        g: &Graph,
        parts: &FunctionParts,
        calls: &EdgeGroups,
        part: FunctionPart,
    ) -> Result<(), AllocError>
        requires shaped { IsShaped g.now }
        requires parts { AreParts g.now parts.now }
        requires calls { (h : ℕ) → group_at calls.now h ≡ flat_map (calling g.now.vertices h) g.now.edges }
        requires part { IsPart g.now part }
        requires agenda { IsAgenda (length parts.now.list.items) self.old }
        ensures agenda { OnOk result (IsAgenda (length parts.now.list.items) self.new) }
        ensures added { OnOk result ((p : ℕ) → (has self.new.marks.items p ≡ true) ↔ ((has self.old.marks.items p ≡ true) ⊎ IsCaller g.now parts.now part p)) }
    {
        let function = g.vertices.as_slice()[part.range.first as usize].function;
        let callers = calls.of(function);
        for call in callers {
            self.add(parts.of_vertex[call.from as usize])?;
        }
        Ok(())
    }
}

// Whether the words of a function's rows differ.
fn has_changed(part: FunctionPart, before: &[u64], after: &[u64]) -> bool
    requires before { part.last_word ≤ length before.now }
    requires after { part.last_word ≤ length after.now }
    requires order { part.first_word ≤ part.last_word }
    ensures { (result ≡ true) ↔ HaveWordsChanged part before.now after.now }
{
    let first = part.first_word as usize;
    let last = part.last_word as usize;
    before[first..last] != after[first..last]
}

// The functions that call one whose rows differ. Err: no memory was left.
fn callers_of_changed(
    alloc: Global,
    g: &Graph,
    parts: &FunctionParts,
    calls: &EdgeGroups,
    before: &[u64],
    after: &[u64],
) -> Result<Agenda, AllocError>
    requires shaped { IsShaped g.now }
    requires parts { AreParts g.now parts.now }
    requires calls { (h : ℕ) → group_at calls.now h ≡ flat_map (calling g.now.vertices h) g.now.edges }
    requires before { AreFactWords g.now before.now }
    requires after { AreFactWords g.now after.now }
    ensures agenda { IfOk result (IsAgenda (length parts.now.list.items)) }
    ensures exact { IfOk result (λ a. (p : ℕ) → (has a.marks.items p ≡ true) ↔ IsCallerOfChanged g.now parts.now before.now after.now p) }
{
    let mut agenda = Agenda::new(alloc, parts.list.len())?;
    for part in &parts.list {
        if has_changed(*part, before, after) {
            agenda.add_callers(g, parts, calls, *part)?;
        }
    }
    Ok(agenda)
}

// The numbers of the functions at some places. Err: no memory was left.
fn numbers_of(
    alloc: Global,
    g: &Graph,
    parts: &FunctionParts,
    places: &[u32],
) -> Result<Vec<u32>, AllocError>
    requires parts { AreParts g.now parts.now }
    requires places { All (λ p. p < length parts.now.list.items) places.now }
    ensures { IfOk result (λ ns. ns.items ≡ map (number_at g.now parts.now) places.now) }
{
    let mut numbers = Vec::new(alloc);
    for place in places {
        let part = parts.list[*place as usize];
        numbers.push(g.vertices.as_slice()[part.range.first as usize].function)?;
    }
    Ok(numbers)
}

// Puts numbers into ascending order, each once.
fn ascend(numbers: &mut Vec<u32>)
    ensures ascending { AllPairs (λ f h. f < h) numbers.new.items }
    ensures same { (f : ℕ) → Contains numbers.new.items f ↔ Contains numbers.old.items f }
{
    numbers.sort_unstable();
    numbers.dedup();
}

// All places of a list so long. Err: no memory was left.
fn all_places(alloc: Global, functions: usize) -> Result<Vec<u32>, AllocError>
    requires few { functions < 2 ^ 32 }
    ensures inside { IfOk result (λ ps. All (λ p. p < functions) ps.items) }
    ensures all { IfOk result (λ ps. (p : ℕ) → p < functions → Contains ps.items p) }
{
    let mut places = Vec::new(alloc);
    for place in 0..functions {
        places.push(place as u32)?;
    }
    Ok(places)
}

/// The functions that the first round takes: all, by their numbers, ascending and each once. Err: no memory was left.
pub(crate) fn first_agenda(
    alloc: Global,
    g: &Graph,
    parts: &FunctionParts,
) -> Result<Vec<u32>, AllocError>
    requires shaped { IsShaped g.now }
    requires parts { AreParts g.now parts.now }
    ensures { IfOk result (λ agenda. IsFirstAgenda g.now agenda.items) }
{
    let places = all_places(alloc, parts.list.len())?;
    let mut numbers = numbers_of(alloc, g, parts, places.as_slice())?;
    ascend(&mut numbers);
    Ok(numbers)
}

/// The functions that a further round takes where words of facts grew: those that hold a call of a function one of whose rows differs, by
/// their numbers, ascending and each once. Err: no memory was left.
pub(crate) fn later_agenda(
    alloc: Global,
    g: &Graph,
    parts: &FunctionParts,
    calls: &EdgeGroups,
    before: &[u64],
    after: &[u64],
) -> Result<Vec<u32>, AllocError>
    requires shaped { IsShaped g.now }
    requires parts { AreParts g.now parts.now }
    requires calls { (h : ℕ) → group_at calls.now h ≡ flat_map (calling g.now.vertices h) g.now.edges }
    requires before { AreFactWords g.now before.now }
    requires after { AreFactWords g.now after.now }
    ensures agenda { IfOk result (λ agenda. IsLaterAgenda g.now before.now after.now agenda.items) }
    ensures gained { IfOk result (λ agenda. (f : ℕ) → Contains agenda.items f → AreWithin before.now after.now → HasGainedBit before.now after.now) }
{
    let agenda = callers_of_changed(alloc, g, parts, calls, before, after)?;
    let mut numbers = numbers_of(alloc, g, parts, agenda.places.as_slice())?;
    ascend(&mut numbers);
    Ok(numbers)
}

/// The functions that a further round has to take where facts grew from `before` to `after`: those that hold a call of a function
/// one of whose rows differs, by their numbers, ascending and each once. Err: no memory was left.
pub fn next_agenda(
    alloc: Global,
    g: &Graph,
    before: &Facts,
    after: &Facts,
) -> Result<Vec<u32>, AllocError>
    requires shaped { IsShaped g.now }
    requires before { AreFactWords g.now before.now.words }
    requires after { AreFactWords g.now after.now.words }
    ensures ascending { IfOk result (λ agenda. AllPairs (λ f h. f < h) agenda.items) }
    ensures exact { IfOk result (λ agenda. (f : ℕ) → Contains agenda.items f ↔ IsDue g.now before.now.words after.now.words f) }
{
    let parts = FunctionParts::find(alloc, g)?;
    let calls = EdgeGroups::by_callee(alloc, g.vertices.as_slice(), g.edges.as_slice())?;
    let agenda = later_agenda(
        alloc,
        g,
        &parts,
        &calls,
        before.words.as_slice(),
        after.words.as_slice(),
    )?;
    Ok(agenda)
}
