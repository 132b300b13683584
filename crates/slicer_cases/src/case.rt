//! A case: a call of the slicer or of slice_lines, by its words, the status that it must end with, and the line that it must write to err.
use anyhow::{Context, ensure};
use slicer_top::Text;
use std::alloc::{AllocError, Global};

/// A line of the index.
#[derive(Drop)]
pub struct Case {
    name: String,
    code: u8,
    words: Vec<Text>,
    err: Text,
}

// A line of text with its end.
fn ended_line(alloc: Global, line: &str) -> Result<Text, AllocError> {
    let line = format!(in alloc; "{line}\n")?;
    Text::from_slice(alloc, line.as_bytes())
}

impl Case {
    /// The case of this line: a name, the code of a status and the words of the call, and behind ` => ` what must stand on
    /// err. An error where the line has no name or no code, where a status other than 0 has no line for err, and where no
    /// memory was left.
    pub fn read(alloc: Global, line: &str) -> anyhow::Result<Case> {
        let (call, err) = match line.split_once(" => ") {
            Some((call, err)) => (call, Some(ended_line(alloc, err)?)),
            None => (line, None),
        };
        let mut parts = call.split(' ');
        let name = parts.next().context("it has no name")?;
        ensure!(!name.is_empty(), "it has no name");
        let name = String::from_str(alloc, name)?;
        let code = parts.next().context("it has no status")?;
        let code = code.parse::<u8>().context("its status is no number")?;
        ensure!(
            code == 0 || err.is_some(),
            "it has a status other than 0, and no line for err"
        );
        let mut words = Vec::new(alloc);
        for word in parts {
            words.push(Text::from_slice(alloc, word.as_bytes())?)?;
        }
        let err = err.unwrap_or(Text::new(alloc));
        Ok(Case {
            name,
            code,
            words,
            err,
        })
    }

    /// Its name, which begins the name of the file with the text that it must write to out.
    pub fn name(&self) -> &str {
        self.name.as_str()
    }

    /// The code of the status that it must end with.
    pub fn code(&self) -> u8 {
        self.code
    }

    /// The words of the call.
    pub fn words(&self) -> &[Text] {
        self.words.as_slice()
    }

    /// The words of a call of slice_lines, where the first word names that program; otherwise it is one of the slicer.
    pub fn words_for_lines(&self) -> Option<&[Text]> {
        match self.words().split_first() {
            Some((first, rest)) if first.bytes() == b"slice_lines".as_slice() => Some(rest),
            _ => None,
        }
    }

    /// What it must write to err: a line with its end, or nothing.
    pub fn err(&self) -> &Text {
        &self.err
    }
}
