// The sample, from standard input: bytes in hexadecimal, in fields with a comma or a line end behind each.
// Kept (1b; project rule): the number that is expected of a call stands in the input, as the table of refusals numbers it.
// Kept (1c; no plainer): a byte of the input each, one the argument of the maker, the other beside bytes that a finish or a dump reads otherwise.
use crate::parse::words;
use std::io;
use std::io::{ErrorKind, Read};

// The input is not as it must be, or it cannot be read or an answer not be written.
#[derive(Debug, Drop)]
pub enum Fail {
    Malformed,
    Io(io::Error),
}

impl From<io::Error> for Fail {
    fn from(e: io::Error) -> Fail {
        Fail::Io(e)
    }
}

// A script's first line: its mark, the number expected of its maker, how many lines it has, the storage that it is lent, and its floor.
#[derive(Clone, Copy)]
pub struct Start {
    pub unique: bool,
    pub number: u8,
    pub lines: usize,
    pub value: usize,
    pub text: usize,
    pub ends: usize,
    pub entries: usize,
    pub undo: usize,
    pub floor: usize,
}

// A line's first field: the call, its argument, the number expected, whether a name is given, the size of the output or the place
// that is altered, and the sizes of the name and the operand, which are the next two fields.
#[derive(Clone, Copy)]
pub struct Header {
    pub call: u8,
    pub argument: u8,
    pub number: u8,
    pub named: bool,
    pub size: usize,
    pub name: usize,
    pub operand: usize,
}

// How many scripts there are; where that is missing, one, which is not there.
pub fn read_count<R: Read>(from: &mut R) -> io::Result<usize> {
    let mut b = [0u8, 1];
    let _whole = is_there(from, &mut b)?;
    Ok(size(b))
}

// Where a byte is missing, too large a storage.
pub fn read_start<R: Read>(from: &mut R) -> io::Result<Start> {
    let mut b = [0u8; 22];
    if !is_there(from, &mut b)? {
        b[4] = 255;
    }
    let [floor] = words::<1>(&b[14..]);
    Ok(Start {
        unique: b[0] == 1,
        number: b[1],
        lines: size([b[2], b[3]]),
        value: size([b[4], b[5]]),
        text: size([b[6], b[7]]),
        ends: size([b[8], b[9]]),
        entries: size([b[10], b[11]]),
        undo: size([b[12], b[13]]),
        floor: floor as usize,
    })
}

// An output or a place of 1280 or more is too large.
pub fn read_header<R: Read>(from: &mut R) -> Result<Header, Fail> {
    let mut b = [0u8; 10];
    field(from, &mut b)?;
    if 4 < b[4] {
        return Err(Fail::Malformed);
    }
    Ok(Header {
        call: b[0],
        argument: b[1],
        number: b[2],
        named: b[3] == 1,
        size: size([b[4], b[5]]),
        name: size([b[6], b[7]]),
        operand: size([b[8], b[9]]),
    })
}

// Two bytes, highest first.
fn size(bytes: [u8; 2]) -> usize {
    u16::from_be_bytes(bytes) as usize
}

// Is the next field there, with as many bytes as `out` has? Where it is not, these are filled as far as it goes.
fn is_there<R: Read>(from: &mut R, out: &mut [u8]) -> io::Result<bool> {
    match field(from, out) {
        Ok(()) => Ok(true),
        Err(Fail::Malformed) => Ok(false),
        Err(Fail::Io(e)) => Err(e),
    }
}

// The next bytes, as many as `out` has, with a comma or a line end behind them.
pub fn field<R: Read>(from: &mut R, out: &mut [u8]) -> Result<(), Fail> {
    for b in out {
        *b = byte(from)?;
    }
    match next::<R, 1>(from)? {
        [b',' | b'\n'] => Ok(()),
        _ => Err(Fail::Malformed),
    }
}

fn byte<R: Read>(from: &mut R) -> Result<u8, Fail> {
    let [high, low] = next::<R, 2>(from)?;
    Ok(digit(high)? << 4 | digit(low)?)
}

fn digit(c: u8) -> Result<u8, Fail> {
    match c {
        b'0'..=b'9' => Ok(c - b'0'),
        b'a'..=b'f' => Ok(c - b'a' + 10),
        _ => Err(Fail::Malformed),
    }
}

// The next characters, by one read.
fn next<R: Read, const N: usize>(from: &mut R) -> Result<[u8; N], Fail> {
    let mut characters = [0; N];
    match from.read_exact(&mut characters) {
        Ok(()) => Ok(characters),
        Err(e) if e.kind() == ErrorKind::UnexpectedEof => Err(Fail::Malformed),
        Err(e) => Err(Fail::Io(e)),
    }
}
