// A few pairs of dictionary and value read, a line each: the number of the refusal, or 0; where the field "a" lies; the first integer, by its
// stored id and its number, none of them negative. The file `stdout` was not made by this program but by a model of document 02 written apart from this code.
#![tactic(auto)]

use reader::{IntegerField, Part, ReadError, field, find_field, first_integer, read_pair};
use std::io;
use std::io::Write;

// Kept (1d; no plainer): a line begins with 0 where a pair is read, as the model prints it.
fn main(rt: HostRuntime) -> io::Result<()> {
    let to = &mut io::writer(&rt);
    let object = b"\x02\x02\x01\x00\x02\x00\x04\x0c\x01\x0c\x02";
    case(to, "fields b, a", b"\x01\x02\x00\x01\x02ba", object)?;
    case(to, "equal names", b"\x01\x02\x00\x01\x02aa", object)?;
    case(to, "mark without order", b"\x11\x02\x00\x01\x02ba", object)?;
    let dated = b"\x02\x02\x00\x01\x00\x05\x07\x2c\x01\x00\x00\x00\x0c\x05";
    case(to, "a date, then an int8", b"\x11\x02\x00\x01\x02ab", dated)?;
    case(
        to,
        "a value that no offset names",
        b"\x01\x00\x00",
        b"\x02\x00\x01\x00",
    )?;
    case(
        to,
        "an offset inside a value",
        b"\x11\x01\x00\x01a",
        b"\x02\x01\x00\x01\x02\x0c\x01",
    )?;
    case(to, "no object", b"\x01\x00\x00", b"\x0c\x05")?;
    case(to, "bit 5, and no value", b"\x21\x00\x00", b"")?;
    case(to, "no value", b"\x01\x00\x00", b"")
}

// Kept (5b; C interface): the reader takes the two apart, as its exported calls are lent them.
fn case<W: Write>(to: &mut W, label: &str, d: &[u8], v: &[u8]) -> io::Result<()> {
    let refusal = match read_pair(d, v) {
        Ok(_) => 0,
        Err(error) => error.number(),
    };
    write!(to, "{label}: {refusal}")?;
    named(to, v, find_field(d, v, b"a"))?;
    number(to, first_integer(d, v))?;
    writeln!(to)
}

fn named<W: Write>(to: &mut W, v: &[u8], place: Result<Option<Part>, ReadError>) -> io::Result<()> {
    match place {
        Ok(Some(part)) => {
            let Part { start, end } = part;
            write!(to, ", a from {start} to {end} is ")?;
            let bytes = field(v, Some(part));
            print::hex(to, bytes, bytes.len())
        }
        Ok(None) => write!(to, ", no a"),
        Err(_) => Ok(()),
    }
}

fn number<W: Write>(to: &mut W, first: Result<Option<IntegerField>, ReadError>) -> io::Result<()> {
    match first {
        Ok(Some(IntegerField { id, number })) => write!(to, ", id {id} has {number}"),
        Ok(None) => write!(to, ", no integer"),
        Err(_) => Ok(()),
    }
}
