//! Where the locations of texts may point.
ghost use Rattle.std.specs.Prelude.{◌≡◌, ◌<◌, length};
ghost use Rattle.bit_rows.specs.Tables.{IsSized};
ghost use Rattle.c_language.specs.Programs.{IsWellFormed};
ghost use Rattle.dep_model.specs.LocationLists.{location_list};

use bit_rows::Rows;
use c_reader::read_program;
use c_tree::Program;
use dep_model::{Locations, PointsTo};
use points_to::solve;
use std::process::Abort;

const SHORT: usize = 65536;

/// A location and those to which it may point: of each the bit of its place.
pub(crate) type Pointing = (u64, u64);

/// The program of the text.
fn read<R: Abort + AllocGlobal>(rt: &R, text: &str) -> Program
    ensures { IsWellFormed result }
{
    let bytes = text.as_bytes();
    assert!(rt; bytes.len() < SHORT);
    read_program(rt.alloc(), bytes).expect(rt, "a program")
}

/// Where the locations of a list may point.
fn solved<R: Abort + AllocGlobal>(rt: &R, p: &Program, list: &Locations) -> PointsTo
    requires well_formed { IsWellFormed p.now }
    requires list_is { list.now ≡ location_list p.now }
    ensures { IsSized (length list.now) (length list.now) result.rows }
{
    solve(rt.alloc(), p, list).expect(rt, "memory")
}

// The bits of those to which the location at a place may point by the pairs.
fn wanted(pairs: &[Pointing], place: u32) -> u64 {
    let mut word = 0u64;
    for (from, to) in pairs {
        if from.trailing_zeros() == place {
            word |= *to;
        }
    }
    word
}

fn are_rows<R: Abort>(rt: &R, rows: &Rows, count: u32, pairs: &[Pointing])
    requires { IsSized count count rows.now }
{
    for place in 0..count {
        assert_eq!(rt;
            rows.words(place),
            [wanted(pairs, place)].as_slice(),
            "the location at place {place}"
        );
    }
}

// The locations of the program, of which there are so many, may point where the pairs say, and nowhere else.
fn program_points<R: Abort + AllocGlobal>(rt: &R, p: &Program, count: u32, pairs: &[Pointing])
    requires { IsWellFormed p.now }
{
    assert!(rt; p.functions.len() <= SHORT);
    let list = Locations::of(rt.alloc(), p).expect(rt, "few locations");
    assert_eq!(rt; list.len(), count);
    let points = solved(rt, p, &list);
    are_rows(rt, &points.rows, list.len(), pairs);
}

/// The locations of the text, of which there are so many, may point where the pairs say, and nowhere else.
pub(crate) fn point_to<R: Abort + AllocGlobal>(rt: &R, text: &str, count: u32, pairs: &[Pointing]) {
    let p = read(rt, text);
    program_points(rt, &p, count, pairs);
}
