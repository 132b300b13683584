//! The files of a case: those that its words name, and the one with the text that it must write.
use crate::case::Case;
use crate::ended::Ended;
use slicer_top::Text;
use std::fs::Files;
use std::{fs, io, str};

/// The bytes of the file with this name, or none where there is no such file.
fn read_if_there<R: Files + AllocGlobal>(rt: &R, name: &str) -> io::Result<Option<Text>> {
    if !fs::exists(rt, name)? {
        return Ok(None);
    }
    let bytes = fs::read(rt, name)?;
    Ok(Some(Text::from_slice(rt.alloc(), bytes.as_slice())?))
}

/// How the case must end: what must stand on out is its file, and nothing where there is no such file.
pub fn expected<R: Files + AllocGlobal>(rt: &R, case: &Case) -> io::Result<Ended> {
    let name = case.name();
    let name = format!(in rt.alloc(); "{name}.out")?;
    let out = read_if_there(rt, name.as_str())?.unwrap_or(Text::new(rt.alloc()));
    let err = case.err().copy(rt.alloc())?;
    Ok(Ended {
        code: case.code(),
        out,
        err,
    })
}

/// The files of this folder whose names are among the words of the case.
pub fn files_named<R: Files + AllocGlobal>(
    rt: &R,
    case: &Case,
) -> anyhow::Result<Vec<(Text, Text)>> {
    let mut files = Vec::new(rt.alloc());
    for word in case.words() {
        if let Some(bytes) = read_if_there(rt, str::from_utf8(word.bytes())?)? {
            files.push((word.copy(rt.alloc())?, bytes))?;
        }
    }
    Ok(files)
}
