//! What one worker does with a function that it drew: it looks at the facts of the functions called, takes a step, and publishes what
//! is new.
ghost use Rattle.std.specs.Prelude.{◌≡◌, ◌≢◌, ◌↔◌, ℕ, ◌+◌, ◌-◌, ◌*◌, ◌<◌, ◌≤◌, true, IfOk, OnOk, Contains, length, slice_index};
ghost use Rattle.std.specs.Int.{bit_at};
ghost use Rattle.std.specs.List.{between};
ghost use Rattle.crew.specs.Counts.{Has};
ghost use Rattle.crew.specs.Rounds.{MayPut};
ghost use Rattle.crew.specs.Seats.{view, board_of, id_of};
ghost use Rattle.crew.specs.SharedWords.{Holds, bit};
ghost use Rattle.dep_model.specs.Shapes.{IsShaped};
ghost use Rattle.matched_paths.specs.EdgeGroups.{group_at};
ghost use Rattle.summary_edges.specs.Agendas.{HoldsCall};
ghost use Rattle.summary_edges.specs.ExitRows.{HasRoom, HaveOneShape};
ghost use Rattle.summary_edges.specs.FactIndexes.{IsIndex};
ghost use Rattle.summary_edges.specs.FactMachine.{IsStepBit};
ghost use Rattle.summary_edges.specs.FunctionParts.{IsPart};
ghost use Rattle.summary_edges.specs.Steps.{HaveGrown};
ghost use Rattle.summary_edges.specs.Workers.{HasLearned, HasLooked, HasNoted, IsBehind, IsCopy, IsGoingOn, IsOpened, IsPartOf, IsReadAlong, IsReadAmong, IsReadBefore, KnowsStep};

use crate::exit_rows::ExitRows;
use crate::fact_index::FactIndex;
use crate::fact_truth::FactTruth;
use crate::function_parts::{FunctionPart, rows_before, word_of};
use crate::step::{step, step_again};
use crew::{Board, BoardSeat};
use dep_model::{Edge, Graph, Label, VertexId};
use std::alloc::{AllocError, Global};

// Looks at some words.
fn look_at<'a>(
    t: &FactTruth<'a>,
    board: &Board<FactTruth<'a>>,
    seat: &mut BoardSeat<FactTruth<'a>>,
    first: u32,
    last: u32,
    known: &mut [u64],
)
    requires board { board_of seat.old ≡ id_of board.now }
    requires opened { IsOpened t.now (view seat.old) }
    requires long { length known.old ≡ t.now.graph.now.fact_words }
    requires inside { last ≤ t.now.graph.now.fact_words }
    ensures board { board_of seat.new ≡ board_of seat.old }
    ensures long { length known.new ≡ length known.old }
    ensures looked { HasLooked t.now.graph.now (λ w. (first ≤ w) × (w < last)) known.old known.new (view seat.old) (view seat.new) }
{
    for word in first..last {
        known[word as usize] = board.look(seat, word);
    }
}

// Looks at the row of the formal-out from which an edge leads, where the edge leaves a call.
fn look_along<'a>(
    t: &FactTruth<'a>,
    board: &Board<FactTruth<'a>>,
    seat: &mut BoardSeat<FactTruth<'a>>,
    edge: Edge,
    known: &mut [u64],
)
    requires board { board_of seat.old ≡ id_of board.now }
    requires opened { IsOpened t.now (view seat.old) }
    requires long { length known.old ≡ t.now.graph.now.fact_words }
    requires shaped { IsShaped t.now.graph.now }
    requires edge { Contains t.now.graph.now.edges edge }
    ensures board { board_of seat.new ≡ board_of seat.old }
    ensures long { length known.new ≡ length known.old }
    ensures looked { HasLooked t.now.graph.now (IsReadAlong t.now.graph.now edge) known.old known.new (view seat.old) (view seat.new) }
{
    if let Label::Out(_) = edge.label {
        let low = rows_before(t.graph.outs.as_slice(), edge.from);
        let high = rows_before(t.graph.outs.as_slice(), edge.from + 1);
        let first = word_of(t.graph, low);
        let last = word_of(t.graph, high);
        look_at(t, board, seat, first, last, known);
    }
}

// Looks at the rows of all formal-outs from which edges lead to a vertex.
fn look_before<'a>(
    t: &FactTruth<'a>,
    index: &FactIndex,
    board: &Board<FactTruth<'a>>,
    seat: &mut BoardSeat<FactTruth<'a>>,
    vertex: VertexId,
    known: &mut [u64],
)
    requires index { IsIndex t.now.graph.now index.now }
    requires board { board_of seat.old ≡ id_of board.now }
    requires opened { IsOpened t.now (view seat.old) }
    requires long { length known.old ≡ t.now.graph.now.fact_words }
    ensures board { board_of seat.new ≡ board_of seat.old }
    ensures long { length known.new ≡ length known.old }
    ensures looked { HasLooked t.now.graph.now (IsReadAmong t.now.graph.now (group_at index.now.ends vertex)) known.old known.new (view seat.old) (view seat.new) }
{
    let edges = index.ends.of(vertex);
    for edge in edges {
        look_along(t, board, seat, *edge, known);
    }
}

// Looks at all that a step of a function reads.
fn look_for<'a>(
    t: &FactTruth<'a>,
    index: &FactIndex,
    board: &Board<FactTruth<'a>>,
    seat: &mut BoardSeat<FactTruth<'a>>,
    part: FunctionPart,
    known: &mut [u64],
)
    requires index { IsIndex t.now.graph.now index.now }
    requires board { board_of seat.old ≡ id_of board.now }
    requires opened { IsOpened t.now (view seat.old) }
    requires long { length known.old ≡ t.now.graph.now.fact_words }
    ensures board { board_of seat.new ≡ board_of seat.old }
    ensures long { length known.new ≡ length known.old }
    ensures looked { HasLooked t.now.graph.now (IsReadBefore t.now.graph.now part.range.first part.range.last) known.old known.new (view seat.old) (view seat.new) }
{
    for vertex in part.range.first..part.range.last {
        look_before(t, index, board, seat, vertex, known);
    }
}

// Publishes those bits of a word that are new to the worker.
fn publish_word<'a>(
    t: &FactTruth<'a>,
    board: &Board<FactTruth<'a>>,
    seat: &mut BoardSeat<FactTruth<'a>>,
    word: u32,
    bits: u64,
)
    requires board { board_of seat.old ≡ id_of board.now }
    requires opened { IsOpened t.now (view seat.old) }
    requires inside { word < t.now.graph.now.fact_words }
    requires may { (i : ℕ) → i < 64 → bit_at bits i ≡ 1 → MayPut (IsStepBit t.now.graph.now) t.now.agenda.now (view seat.old).drawn (view seat.old).seen (64 * word + i) }
    ensures board { board_of seat.new ≡ board_of seat.old }
    ensures learned { HasLearned (view seat.old) (view seat.new) }
    ensures knows { (i : ℕ) → i < 64 → bit_at bits i ≡ 1 → Holds (view seat.new).seen (64 * word + i) }
{
    if bits != 0 {
        board.publish(seat, word, bits);
    }
}

// Publishes what the words of a function have gained.
fn publish_gain<'a>(
    t: &FactTruth<'a>,
    board: &Board<FactTruth<'a>>,
    seat: &mut BoardSeat<FactTruth<'a>>,
    part: FunctionPart,
    before: &[u64],
    known: &[u64],
)
    requires board { board_of seat.old ≡ id_of board.now }
    requires opened { IsOpened t.now (view seat.old) }
    requires inside { part.last_word ≤ t.now.graph.now.fact_words }
    requires long { length known.now ≡ t.now.graph.now.fact_words }
    requires shaped { IsShaped t.now.graph.now }
    requires before { length before.now ≡ part.last_word - part.first_word }
    requires order { part.first_word ≤ part.last_word }
    requires may { (w i : ℕ) → part.first_word ≤ w → w < part.last_word → i < 64 → bit known.now w i ≡ 1 → bit before.now (w - part.first_word) i ≢ 1
        → MayPut (IsStepBit t.now.graph.now) t.now.agenda.now (view seat.old).drawn (view seat.old).seen (64 * w + i) }
    ensures board { board_of seat.new ≡ board_of seat.old }
    ensures learned { HasLearned (view seat.old) (view seat.new) }
    ensures knows { (w i : ℕ) → part.first_word ≤ w → w < part.last_word → i < 64 → bit known.now w i ≡ 1 → bit before.now (w - part.first_word) i ≢ 1
        → Holds (view seat.new).seen (64 * w + i) }
{
    for word in part.first_word..part.last_word {
        let bits = known[word as usize] & !before[(word - part.first_word) as usize];
        publish_word(t, board, seat, word, bits);
    }
}

// A copy of the words of a function's rows. Err: no memory was left.
fn own_words(alloc: Global, part: FunctionPart, words: &[u64]) -> Result<Vec<u64>, AllocError>
    requires order { part.first_word ≤ part.last_word }
    requires inside { part.last_word ≤ length words.now }
    ensures { IfOk result (λ v. v.items ≡ between part.first_word part.last_word words.now) }
{
    let mut own = Vec::new(alloc);
    own.extend_from_slice(&words[part.first_word as usize..part.last_word as usize])?;
    Ok(own)
}

// Whether a function calls itself.
fn calls_itself(g: &Graph, index: &FactIndex, part: FunctionPart) -> bool
    requires index { IsIndex g.now index.now }
    requires part { IsPart g.now part }
    ensures { (f : ℕ) → IsPartOf g.now f part → (result ≡ true) ↔ HoldsCall g.now f f }
{
    let function = g.vertices.as_slice()[part.range.first as usize].function;
    let calls = index.calls.of(function);
    let mut found = false;
    for call in calls {
        let more = part.range.has(call.from);
        found = found | more;
    }
    found
}

// Notes which bits of a function's own words are new beside a copy of them.
fn note_news(part: FunctionPart, own: &[u64], known: &[u64], news: &mut [u64])
    requires order { part.first_word ≤ part.last_word }
    requires own { length own.now ≡ part.last_word - part.first_word }
    requires known { part.last_word ≤ length known.now }
    requires news { length news.old ≡ part.last_word }
    ensures { HasNoted part own.now known.now news.old news.new }
{
    for word in part.first_word..part.last_word {
        news[word as usize] = known[word as usize] & !own[(word - part.first_word) as usize];
    }
}

// Copies a function's own words.
fn copy_own(part: FunctionPart, known: &[u64], own: &mut [u64])
    requires order { part.first_word ≤ part.last_word }
    requires own { length own.old ≡ part.last_word - part.first_word }
    requires known { part.last_word ≤ length known.now }
    ensures { own.new ≡ between part.first_word part.last_word known.now }
{
    own.copy_from_slice(&known[part.first_word as usize..part.last_word as usize]);
}

// Takes a step of a function again, whose own facts have grown since, and publishes what is new. Tells whether something is.
fn go_once<'a>(
    t: &FactTruth<'a>,
    index: &FactIndex,
    board: &Board<FactTruth<'a>>,
    seat: &mut BoardSeat<FactTruth<'a>>,
    part: FunctionPart,
    table: &mut ExitRows,
    own: &mut [u64],
    news: &mut [u64],
    known: &mut [u64],
) -> bool
    requires index { IsIndex t.now.graph.now index.now }
    requires board { board_of seat.old ≡ id_of board.now }
    requires opened { IsOpened t.now (view seat.old) }
    requires drawn { (k : ℕ) × (k < length t.now.agenda.now) × Has (view seat.old).drawn k × IsPartOf t.now.graph.now (slice_index t.now.agenda.now k) part }
    requires going { IsGoingOn t.now.graph.now part table.old own.old news.old known.old (view seat.old) }
    ensures board { board_of seat.new ≡ board_of seat.old }
    ensures learned { HasLearned (view seat.old) (view seat.new) }
    ensures room { HaveOneShape table.old table.new }
    ensures going { IsGoingOn t.now.graph.now part table.new own.new news.new known.new (view seat.new) }
    ensures grown { HaveGrown known.old known.new result }
{
    note_news(part, own, known, news);
    copy_own(part, known, own);
    let grows = step_again(t.graph, index, part, table, news, known);
    publish_gain(t, board, seat, part, own, known);
    grows
}

// Takes steps of a function until one gives nothing new.
fn go_to_end<'a>(
    t: &FactTruth<'a>,
    index: &FactIndex,
    board: &Board<FactTruth<'a>>,
    seat: &mut BoardSeat<FactTruth<'a>>,
    part: FunctionPart,
    table: &mut ExitRows,
    own: &mut [u64],
    news: &mut [u64],
    known: &mut [u64],
)
    requires index { IsIndex t.now.graph.now index.now }
    requires board { board_of seat.old ≡ id_of board.now }
    requires opened { IsOpened t.now (view seat.old) }
    requires drawn { (k : ℕ) × (k < length t.now.agenda.now) × Has (view seat.old).drawn k × IsPartOf t.now.graph.now (slice_index t.now.agenda.now k) part }
    requires going { IsGoingOn t.now.graph.now part table.old own.old news.old known.old (view seat.old) }
    ensures board { board_of seat.new ≡ board_of seat.old }
    ensures learned { HasLearned (view seat.old) (view seat.new) }
    ensures room { HaveOneShape table.old table.new }
    ensures copy { IsCopy t.now.graph.now known.new (view seat.new) }
{
    while go_once(t, index, board, seat, part, table, own, news, known) {}
}

// Goes on with a function that calls itself, after a step of it: takes steps until one gives nothing new, since its own facts are
// among those from which they come. Err: no memory was left.
fn go_on<'a>(
    alloc: Global,
    t: &FactTruth<'a>,
    index: &FactIndex,
    board: &Board<FactTruth<'a>>,
    seat: &mut BoardSeat<FactTruth<'a>>,
    part: FunctionPart,
    table: &mut ExitRows,
    own: &mut [u64],
    known: &mut [u64],
) -> Result<(), AllocError>
    requires index { IsIndex t.now.graph.now index.now }
    requires board { board_of seat.old ≡ id_of board.now }
    requires opened { IsOpened t.now (view seat.old) }
    requires drawn { (k : ℕ) × (k < length t.now.agenda.now) × Has (view seat.old).drawn k × IsPartOf t.now.graph.now (slice_index t.now.agenda.now k) part }
    requires copy { IsCopy t.now.graph.now known.old (view seat.old) }
    requires behind { IsBehind t.now.graph.now part table.old own.old known.old }
    requires own { length own.old ≡ part.last_word - part.first_word }
    ensures board { board_of seat.new ≡ board_of seat.old }
    ensures learned { HasLearned (view seat.old) (view seat.new) }
    ensures room { HaveOneShape table.old table.new }
    ensures copy { IsCopy t.now.graph.now known.new (view seat.new) }
{
    if !calls_itself(t.graph, index, part) {
        return Ok(());
    }
    let mut news = vec![in alloc; 0u64; part.last_word as usize]?;
    go_to_end(
        t,
        index,
        board,
        seat,
        part,
        table,
        own,
        news.as_mut_slice(),
        known,
    );
    Ok(())
}

/// Takes a function that was drawn: looks at what its step reads, takes the step, and publishes what is new. Where the
/// function calls itself, this goes on until a step gives nothing new. Err: no memory was left.
pub(crate) fn take<'a>(
    alloc: Global,
    t: &FactTruth<'a>,
    index: &FactIndex,
    board: &Board<FactTruth<'a>>,
    seat: &mut BoardSeat<FactTruth<'a>>,
    part: FunctionPart,
    table: &mut ExitRows,
    known: &mut [u64],
) -> Result<(), AllocError>
    requires index { IsIndex t.now.graph.now index.now }
    requires board { board_of seat.old ≡ id_of board.now }
    requires opened { IsOpened t.now (view seat.old) }
    requires drawn { (k : ℕ) × (k < length t.now.agenda.now) × Has (view seat.old).drawn k × IsPartOf t.now.graph.now (slice_index t.now.agenda.now k) part }
    requires room { HasRoom part table.old }
    requires copy { IsCopy t.now.graph.now known.old (view seat.old) }
    ensures board { board_of seat.new ≡ board_of seat.old }
    ensures learned { HasLearned (view seat.old) (view seat.new) }
    ensures room { HaveOneShape table.old table.new }
    ensures copy { OnOk result (IsCopy t.now.graph.now known.new (view seat.new)) }
    ensures knows { OnOk result ((f : ℕ) → IsPartOf t.now.graph.now f part → KnowsStep t.now.graph.now f (view seat.new)) }
{
    look_for(t, index, board, seat, part, known);
    let mut before = own_words(alloc, part, known)?;
    let grows = step(t.graph, index, part, table, known);
    publish_gain(t, board, seat, part, before.as_slice(), known);
    if !grows {
        return Ok(());
    }
    go_on(
        alloc,
        t,
        index,
        board,
        seat,
        part,
        table,
        before.as_mut_slice(),
        known,
    )?;
    Ok(())
}
