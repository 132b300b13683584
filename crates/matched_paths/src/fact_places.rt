//! Where the facts of a graph stand among its words.
ghost use Rattle.std.specs.Prelude.{◌≡◌, ◌≢◌, ℕ, ◌+◌, ◌*◌, ◌/◌, ◌^◌, ◌<◌, IfOk, length, get_or, All, AllPairs};
ghost use Rattle.bit_rows.specs.Words.{word_bit};
ghost use Rattle.dep_model.specs.FunctionVertices.{is_formal_in};
ghost use Rattle.dep_model.specs.Shapes.{IsShaped, AreConsecutive};
ghost use Rattle.dep_model.specs.declared.graph.OutRow.{OutRow};
ghost use Rattle.matched_paths.specs.Places.{ArePlaces, AreFormalNumbers, AreRowWords, HasOneMore, bit_of, holds_fact};

use dep_model::{Graph, OutRow, Vertex, VertexId, VertexKind};
use std::alloc::{AllocError, Global};
use std::marker::Model;

/// Where the facts of a graph stand among its words.
#[derive(Drop)]
pub struct FactPlaces {
    numbers: Vec<u32>,
    rows: Vec<u32>,
}

impl Model for FactPlaces {
    ghost use Rattle.matched_paths.specs.Places.{Places};

    ghost Value = { Places };

    ghost view = { λ t. record { numbers = t.numbers.items; rows = t.rows.items } };
}

impl FactPlaces {
    /// Finds the places of all facts. Err: no memory was left.
    pub fn find(alloc: Global, g: &Graph) -> Result<FactPlaces, AllocError>
        requires { IsShaped g.now }
        ensures { IfOk result (λ t. ArePlaces g.now t) }
    {
        let numbers = formal_numbers(alloc, g.vertices.as_slice())?;
        let rows = row_words(alloc, g.vertices.len(), g.outs.as_slice())?;
        Ok(FactPlaces { numbers, rows })
    }

    /// Whether the words have the bit of a formal-in and a formal-out of one function.
    pub fn holds(&self, words: &[u64], formal_in: VertexId, formal_out: VertexId) -> bool
        requires in_range { formal_in < length self.now.numbers }
        requires out_range { formal_out < length self.now.rows }
        ensures { result ≡ holds_fact self.now words.now formal_in formal_out }
    {
        let first = self.rows[formal_out as usize] as usize;
        let number = self.numbers[formal_in as usize] as usize;
        has_bit(words, 64 * first + number)
    }

    /// Sets the bit of a formal-in and a formal-out of one function.
    pub fn set(&self, words: &mut [u64], formal_in: VertexId, formal_out: VertexId)
        requires in_range { formal_in < length self.now.numbers }
        requires out_range { formal_out < length self.now.rows }
        requires room { bit_of self.now formal_in formal_out < 64 * length words.old }
        ensures size { length words.new ≡ length words.old }
        ensures exact { HasOneMore (bit_of self.now formal_in formal_out) words.old words.new }
        ensures others { (w : ℕ) → w ≢ bit_of self.now formal_in formal_out / 64 → get_or words.new w 0 ≡ get_or words.old w 0 }
    {
        let first = self.rows[formal_out as usize] as usize;
        let number = self.numbers[formal_in as usize] as usize;
        set_bit(words, 64 * first + number);
    }
}

// Sets a bit, counted from the first word.
fn set_bit(words: &mut [u64], bit: usize)
    requires { bit < 64 * length words.old }
    ensures size { length words.new ≡ length words.old }
    ensures exact { HasOneMore bit words.old words.new }
    ensures others { (w : ℕ) → w ≢ bit / 64 → get_or words.new w 0 ≡ get_or words.old w 0 }
{
    words[bit / 64] |= 1u64 << (bit % 64);
}

// Whether a bit is set, counted from the first word.
fn has_bit(words: &[u64], bit: usize) -> bool
    ensures { result ≡ word_bit words.now bit }
{
    if bit / 64 < words.len() {
        (words[bit / 64] >> (bit % 64)) & 1 == 1
    } else {
        false
    }
}

fn is_formal_in(kind: VertexKind) -> bool
    ensures { result ≡ is_formal_in kind }
{
    matches!(kind, VertexKind::FormalIn(_))
}

// How many formal-ins of its function stand before each vertex.
fn formal_numbers(alloc: Global, vertices: &[Vertex]) -> Result<Vec<u32>, AllocError>
    requires consecutive { AreConsecutive vertices.now }
    requires few { length vertices.now < 2 ^ 32 }
    ensures long { IfOk result (λ ns. length ns.items ≡ length vertices.now) }
    ensures exact { IfOk result (λ ns. AreFormalNumbers vertices.now ns.items) }
{
    let mut numbers = Vec::new(alloc);
    let mut function = 0;
    let mut number = 0u32;
    for vertex in vertices {
        if vertex.function != function {
            function = vertex.function;
            number = 0;
        }
        numbers.push(number)?;
        if is_formal_in(vertex.kind) {
            number += 1;
        }
    }
    Ok(numbers)
}

// The first word of each row, by its vertex.
fn row_words(alloc: Global, size: usize, outs: &[OutRow]) -> Result<Vec<u32>, AllocError>
    requires inside { All (λ (r : OutRow). r.vertex < size) outs.now }
    requires apart { AllPairs (λ (r : OutRow) (s : OutRow). r.vertex < s.vertex) outs.now }
    ensures long { IfOk result (λ ws. length ws.items ≡ size) }
    ensures exact { IfOk result (λ ws. AreRowWords outs.now ws.items) }
{
    let mut words = vec![in alloc; 0u32; size]?;
    for row in outs {
        words[row.vertex as usize] = row.word;
    }
    Ok(words)
}
