//! One step of one function: which of its formal-outs depend on which of its formal-ins, by the facts that are known.
ghost use Rattle.std.specs.Prelude.{◌≡◌, ℕ, ◌-◌, ◌*◌, ◌<◌, length};
ghost use Rattle.dep_model.specs.Facts.{AreFormals, HoldsFact};
ghost use Rattle.dep_model.specs.FunctionVertices.{is_formal_in};
ghost use Rattle.matched_paths.specs.VertexRanges.{IsInRange};
ghost use Rattle.summary_edges.specs.ExitRows.{HasRoom, HaveOneShape, IsFilled, LacksNews};
ghost use Rattle.summary_edges.specs.FactIndexes.{IsIndex};
ghost use Rattle.summary_edges.specs.FunctionParts.{IsPart};
ghost use Rattle.summary_edges.specs.Steps.{HasAdded, IsFormalInAt, IsReadOff, IsReadAt, IsReadIn, IsStepTaken};

use crate::exit_rows::ExitRows;
use crate::fact_index::FactIndex;
use crate::function_parts::FunctionPart;
use dep_model::{Graph, VertexId, VertexKind};
use matched_paths::FactPlaces;

fn is_formal_in(kind: VertexKind) -> bool
    ensures { result ≡ is_formal_in kind }
{
    matches!(kind, VertexKind::FormalIn(_))
}

// Makes a fact of a formal-in and a formal-out of a function, where the words don't hold it, and tells whether it is new.
fn add_fact(
    g: &Graph,
    index: &FactIndex,
    part: FunctionPart,
    formal_in: VertexId,
    formal_out: VertexId,
    words: &mut [u64],
) -> bool
    requires index { IsIndex g.now index.now }
    requires part { IsPart g.now part }
    requires out_in { IsInRange part.range formal_out }
    requires formals { (f : ℕ) × AreFormals g.now.vertices f formal_in formal_out }
    requires long { length words.old ≡ g.now.fact_words }
    ensures { HasAdded g.now part (λ a b. (a ≡ formal_in) × (b ≡ formal_out)) words.old words.new result }
{
    if index.places.holds(words, formal_in, formal_out) {
        return false;
    }
    index.places.set(words, formal_in, formal_out);
    true
}

// Makes a fact of a formal-in and one formal-out of its function, where the rows say so, and tells whether it is new.
fn read_exit(
    g: &Graph,
    index: &FactIndex,
    part: FunctionPart,
    table: &ExitRows,
    formal_in: VertexId,
    exit: u32,
    words: &mut [u64],
) -> bool
    requires index { IsIndex g.now index.now }
    requires part { IsPart g.now part }
    requires room { HasRoom part table.now }
    requires in_in { IsInRange part.range formal_in }
    requires kind { IsFormalInAt g.now.vertices formal_in }
    requires exit { exit < part.last_row - part.first_row }
    requires long { length words.old ≡ g.now.fact_words }
    ensures { HasAdded g.now part (IsReadAt g.now part table.now formal_in exit) words.old words.new result }
{
    let formal_out = g.outs.as_slice()[(part.first_row + exit) as usize].vertex;
    if table.rows.has(formal_in - part.range.first, exit) {
        add_fact(g, index, part, formal_in, formal_out, words)
    } else {
        false
    }
}

// Makes the facts of a formal-in and the formal-outs of one word of its row, and tells whether one is new. A word without a bit costs
// nothing.
fn read_word(
    g: &Graph,
    index: &FactIndex,
    part: FunctionPart,
    table: &ExitRows,
    formal_in: VertexId,
    word: u32,
    words: &mut [u64],
) -> bool
    requires index { IsIndex g.now index.now }
    requires part { IsPart g.now part }
    requires room { HasRoom part table.now }
    requires in_in { IsInRange part.range formal_in }
    requires kind { IsFormalInAt g.now.vertices formal_in }
    requires inside { 64 * word < part.last_row - part.first_row }
    requires long { length words.old ≡ g.now.fact_words }
    ensures { HasAdded g.now part (IsReadIn g.now part table.now formal_in word) words.old words.new result }
{
    let row = table.rows.words(formal_in - part.range.first);
    let bits = row[word as usize];
    if bits == 0 {
        return false;
    }
    let first = 64 * word;
    let count = (part.last_row - part.first_row - first).min(64);
    let mut grows = false;
    for exit in first..first + count {
        let more = read_exit(g, index, part, table, formal_in, exit, words);
        grows = grows | more;
    }
    grows
}

// Makes the facts of one vertex of a function, where it is a formal-in, and tells whether one is new.
fn read_vertex(
    g: &Graph,
    index: &FactIndex,
    part: FunctionPart,
    table: &ExitRows,
    vertex: VertexId,
    words: &mut [u64],
) -> bool
    requires index { IsIndex g.now index.now }
    requires part { IsPart g.now part }
    requires room { HasRoom part table.now }
    requires vertex_in { IsInRange part.range vertex }
    requires long { length words.old ≡ g.now.fact_words }
    ensures { HasAdded g.now part (λ a b. (a ≡ vertex) × IsReadOff g.now part table.now a b) words.old words.new result }
{
    if !is_formal_in(g.vertices.as_slice()[vertex as usize].kind) {
        return false;
    }
    let count = (part.last_row - part.first_row).div_ceil(64);
    let mut grows = false;
    for word in 0..count {
        let more = read_word(g, index, part, table, vertex, word, words);
        grows = grows | more;
    }
    grows
}

// Makes the facts of a function that its rows say, and tells whether one is new.
fn read_off(
    g: &Graph,
    index: &FactIndex,
    part: FunctionPart,
    table: &ExitRows,
    words: &mut [u64],
) -> bool
    requires index { IsIndex g.now index.now }
    requires part { IsPart g.now part }
    requires room { HasRoom part table.now }
    requires long { length words.old ≡ g.now.fact_words }
    ensures { HasAdded g.now part (IsReadOff g.now part table.now) words.old words.new result }
{
    let mut grows = false;
    for vertex in part.range.first..part.range.last {
        let more = read_vertex(g, index, part, table, vertex, words);
        grows = grows | more;
    }
    grows
}

/// Adds to the words exactly the facts of a function that one step gives from the facts that they hold, and tells whether one of
/// them is new. Only words of the function's own rows change.
pub(crate) fn step(
    g: &Graph,
    index: &FactIndex,
    part: FunctionPart,
    table: &mut ExitRows,
    words: &mut [u64],
) -> bool
    requires index { IsIndex g.now index.now }
    requires part { IsPart g.now part }
    requires room { HasRoom part table.old }
    requires long { length words.old ≡ g.now.fact_words }
    ensures exact { IsStepTaken g.now part words.old words.old words.new result }
    ensures room { HaveOneShape table.old table.new }
    ensures filled { IsFilled g.now (HoldsFact g.now words.old) part table.new }
{
    table.fill(g, index, words, part);
    read_off(g, index, part, table, words)
}

/// The same of a function whose rows are filled already, but for news of the facts: those that the words have gained since.
pub(crate) fn step_again(
    g: &Graph,
    index: &FactIndex,
    part: FunctionPart,
    table: &mut ExitRows,
    news: &[u64],
    words: &mut [u64],
) -> bool
    requires index { IsIndex g.now index.now }
    requires lacks { LacksNews g.now part news.now words.old table.old }
    requires long { length words.old ≡ g.now.fact_words }
    ensures exact { IsStepTaken g.now part words.old words.old words.new result }
    ensures room { HaveOneShape table.old table.new }
    ensures filled { IsFilled g.now (HoldsFact g.now words.old) part table.new }
{
    table.refill(g, index, news, words, part);
    read_off(g, index, part, table, words)
}
