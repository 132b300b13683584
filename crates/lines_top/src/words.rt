//! What the words of a call ask for.
ghost use Rattle.std.specs.Prelude.{◌≡◌, IfOk, MatchResult, Some};
ghost use Rattle.call_words.specs.Requests.{AreWorkers, IsBounded, IsRead, asked_by, file_in, lines_in};
ghost use Rattle.lines_top.specs.Words.{AskForLines, IsForSlices, as_slice};

use call_words::{Request, WordsFault, read_words};
use slicer_top::Text;
use std::alloc::{AllocError, Global};

/// The request for slices that the words make behind the name of its command.
///
/// Err: `Usage` where they are outside the grammar, and `NoMemory`, which may come at any time.
pub(crate) fn request_of(alloc: Global, words: &[Text]) -> Result<Request, WordsFault>
    ensures { MatchResult result (IsRead (as_slice words.now)) (λ fault. fault ≡ WordsFault.Usage → AskForLines words.now → ⊥) }
{
    let whole = behind_slice(alloc, words)?;
    read_words(alloc, whole.as_slice())
}

// The words behind the name of the command `slice`. Err: no memory was left.
fn behind_slice(alloc: Global, words: &[Text]) -> Result<Vec<Text>, AllocError>
    ensures { IfOk result (λ whole. whole.items ≡ as_slice words.now) }
{
    let mut whole = Vec::new(alloc);
    whole.push(Text::from_slice(alloc, b"slice")?)?;
    for word in words {
        whole.push(word.copy(alloc)?)?;
    }
    Ok(whole)
}

/// The file, the lines and the number of workers of a request for slices.
pub(crate) fn named(request: &Request) -> (&str, &[u64], u32)
    requires slices { IsForSlices (asked_by request.now) }
    requires bounded { IsBounded (asked_by request.now) }
    ensures file { Some result.0.now ≡ file_in (asked_by request.now) }
    ensures lines { result.1.now ≡ lines_in (asked_by request.now) }
    ensures workers { AreWorkers result.2 }
{
    match request {
        Request::Slice {
            file,
            lines,
            workers,
        } => (file.as_str(), lines.as_slice(), *workers as u32),
        _ => unreachable!(),
    }
}
