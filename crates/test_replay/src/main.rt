// Scripts with their answers, run by the calls of builder_mut, which make the calls by value: a line for each difference, and the counts. Two
// sets: a sample with the answers that the real Rust gave, and edges with those of a model of document 01 written apart from this
// code, some over a record or storage altered between the calls. Standard input is both as tools/replay.py writes them; that script
// says what its bytes are.
// Each script is lent as much storage as it names, of one storage for all of them, which is not blank and never cleared.
#![tactic(auto)]

mod compare;
mod input;
mod parse;
mod poke;

use builder::with_floor;
use builder_mut::{Call, VariantBuilder};
use compare::Tally;
use input::{Fail, Header, Start, field, read_count, read_header, read_start};
use marks::NUMBERS;
use parse::{Line, array, line_of};
use poke::alter;
use semantics::Builder;
use std::io;
use std::io::{Read, Write};

// The storage of all scripts.
#[derive(Drop)]
struct Storage {
    value: [u8; 2048],
    text: [u8; 512],
    ends: [usize; 64],
    entries: [usize; 256],
    undo: [usize; 64],
    marks: [usize; NUMBERS],
}

// A line, with its name and its operand.
#[derive(Clone, Copy)]
struct Given<'a> {
    header: Header,
    name: &'a [u8],
    operand: &'a [u8],
}

impl<'a> Given<'a> {
    // The name of the value that a call enters, where one is given; a register's is given without a mark.
    fn field_name(self) -> Option<&'a [u8]> {
        let register = self.header.call == 1;
        (register || self.header.named).then_some(self.name)
    }
}

fn main(rt: HostRuntime) -> io::Result<()> {
    let from = &mut rt.reader();
    let to = &mut io::writer(&rt);
    let mut storage = Storage {
        value: [0xEE; 2048],
        text: [0xEE; 512],
        ends: [99; 64],
        entries: [99; 256],
        undo: [99; 64],
        marks: [99; NUMBERS],
    };
    let mut tally = Tally::default();
    match scripts(from, to, &mut tally, &mut storage) {
        Ok(()) => {}
        Err(Fail::Malformed) => writeln!(to, "{tally}: what follows is malformed")?,
        Err(Fail::Io(e)) => return Err(e),
    }
    writeln!(
        to,
        "{} scripts, {} calls, {} differences",
        tally.script, tally.calls, tally.differences
    )
}

// Kept (3; no plainer): how many scripts follow is the input's first number; nothing is walked by it.
fn scripts<R: Read, W: Write>(
    from: &mut R,
    to: &mut W,
    tally: &mut Tally,
    storage: &mut Storage,
) -> Result<(), Fail> {
    for _ in 0..read_count(from)? {
        script(from, to, tally, storage)?;
    }
    Ok(())
}

fn script<R: Read, W: Write>(
    from: &mut R,
    to: &mut W,
    tally: &mut Tally,
    storage: &mut Storage,
) -> Result<(), Fail> {
    let s = read_start(from)?;
    let mut b = begun(to, tally, s)?;
    let mut v = VariantBuilder {
        marks: &mut storage.marks,
        value: storage.value.get_mut(..s.value).ok_or(Fail::Malformed)?,
        text: storage.text.get_mut(..s.text).ok_or(Fail::Malformed)?,
        ends: storage.ends.get_mut(..s.ends).ok_or(Fail::Malformed)?,
        entries: storage.entries.get_mut(..s.entries).ok_or(Fail::Malformed)?,
        undo: storage.undo.get_mut(..s.undo).ok_or(Fail::Malformed)?,
        builder: &mut b,
    };
    lines(from, to, tally, &mut v, s.lines)
}

// Kept (3; no plainer): how many lines follow is a number of the script's first; each is read as it comes.
fn lines<R: Read, W: Write>(
    from: &mut R,
    to: &mut W,
    tally: &mut Tally,
    v: &mut VariantBuilder,
    count: usize,
) -> Result<(), Fail> {
    for _ in 0..count {
        next(from, to, tally, v)?;
    }
    Ok(())
}

fn begun<W: Write>(to: &mut W, tally: &mut Tally, s: Start) -> io::Result<Builder> {
    let (number, builder) = match with_floor(s.unique, s.floor) {
        Ok(b) => (0, b),
        Err(e) => (e.refused.number(), e.builder),
    };
    tally.start();
    tally.answered(to, s.number, number)?;
    Ok(builder)
}

// The next line: a poke, a look at the record, or a call.
fn next<R: Read, W: Write>(
    from: &mut R,
    to: &mut W,
    tally: &mut Tally,
    v: &mut VariantBuilder,
) -> Result<(), Fail> {
    let mut names = [0u8; 512];
    let mut operands = [0u8; 2048];
    let header = read_header(from)?;
    let name = names.get_mut(..header.name).ok_or(Fail::Malformed)?;
    field(from, name)?;
    let operand = operands.get_mut(..header.operand).ok_or(Fail::Malformed)?;
    field(from, operand)?;
    let given = Given {
        header,
        name,
        operand,
    };
    match line_of(header, given.operand)? {
        Line::Poke(poke) => {
            tally.pass();
            if let Some(poke) = poke {
                alter(v, poke);
            }
        }
        Line::Dump => looked(to, tally, v, given)?,
        Line::Call(call) => called(to, tally, v, call, given)?,
    }
    Ok(())
}

// The expected counts stand in the name's place, and the expected value in the operand's.
fn looked<W: Write>(
    to: &mut W,
    tally: &mut Tally,
    v: &VariantBuilder,
    given: Given,
) -> io::Result<()> {
    tally.pass();
    let counts = v.builder.counts;
    tally.used(to, counts, given.name)?;
    if given.header.argument == 0 {
        return Ok(());
    }
    tally.compared(to, "value", given.operand, v.value, counts.value)
}

// Of a finish that must be carried out, the expected dictionary stands in the name's place, and the expected value in the operand's.
fn called<W: Write>(
    to: &mut W,
    tally: &mut Tally,
    v: &mut VariantBuilder,
    call: Call,
    given: Given,
) -> io::Result<()> {
    let mut space = [0xEEu8; 1024];
    let out = &mut space[..given.header.size.min(1024)];
    let operand = given.operand;
    let made = v.lend(call, given.field_name(), operand, array(operand), out);
    let number = made.err().map_or(0, |e| e.number());
    tally.count();
    tally.answered(to, given.header.number, number)?;
    if let Call::Finish = call
        && given.header.number == 0
    {
        let used = v.builder.counts.value;
        tally.compared(to, "value", operand, v.value, used)?;
        tally.compared(to, "dictionary", given.name, out, made.unwrap_or(0))?;
    }
    Ok(())
}
