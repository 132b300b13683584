//! Texts that end too early: fronts of a program, of which the one that lacks its last line feed alone is a program, and texts
//! that open far more than they close.
use crate::answer_tests::LIST;
use c_reader::{ParseFault, ReadRefusal, read_program};
use edge_io::Text;
use std::process::Abort;

const SHORT: usize = 4096;

const LONG: usize = 2_000_000;

/// Whether the text is a program, or nothing where memory ran out.
fn is_program<R: Abort + AllocGlobal>(rt: &R, text: &[u8]) -> Option<bool> {
    assert!(rt; text.len() < SHORT);
    match read_program(rt.alloc(), text) {
        Ok(_) => Some(true),
        Err(ReadRefusal::NoMemory) => None,
        Err(_) => Some(false),
    }
}

#[test]
fn a_front_of_a_text_is_refused(rt: HostRuntime) {
    let length = LIST.len();
    for end in 0..length {
        let wanted = Some(end + 1 == length);
        assert_eq!(&rt; is_program(&rt, &LIST[..end]), wanted, "{end}");
    }
}

/// What stands in front, the byte that is put behind it so many times, the line of the fault, and whether marks that can nest too
/// deep may be told in its place.
type Row<'a> = (&'a [u8], u8, usize, u32, bool);

#[test]
fn what_is_left_open_is_refused(rt: HostRuntime) {
    let rows: [Row<'_>; 2] = [
        (b"int main(void) {\n", b'{', 100_000, 2, true),
        (b"", b'(', 1_048_576, 1, false),
    ];
    for (front, byte, count, line, may_nest) in rows {
        let mut text = Text::from_slice(rt.alloc(), front).expect(&rt, "memory");
        let bytes = vec![in rt.alloc(); byte; count].expect(&rt, "memory");
        text.append(bytes.as_slice()).expect(&rt, "memory");
        assert!(&rt; text.bytes().len() < LONG);
        let is_told = match read_program(rt.alloc(), text.bytes()) {
            Err(ReadRefusal::Parse(ParseFault::Syntax(at))) => at == line,
            Err(ReadRefusal::Parse(ParseFault::Nesting(_))) => may_nest,
            _ => false,
        };
        assert!(&rt; is_told, "{line}");
    }
}
