// The finished dictionaries of a few lists of names: for each its size and its first 16 bytes. Of the last three it is told from
// their bytes whether they were ever used.
// The file `stdout` was not made by this program. The same names were registered, or given to fields of an object that was
// rolled back where the list says "cut", and finished, in a model of documents 01 and 02 written apart from this code and in
// parquet-variant 60.1.0 itself, with equal bytes, but for the sorted mark where names were cut: there the model alone has it so.
#![tactic(auto)]

use metadata::{FinishError, MetadataBuilder, Names, is_never_used};
use std::io;
use std::io::Write;

// The counts, and the storage that they are of.
#[derive(Drop)]
struct Dictionary<const TEXT: usize, const ENDS: usize> {
    counts: MetadataBuilder,
    text: [u8; TEXT],
    ends: [usize; ENDS],
}

fn main(rt: HostRuntime) -> io::Result<()> {
    let to = &mut io::writer(&rt);
    few(to)?;
    cut(to)?;
    many(to, "255 names", 255)?;
    many(to, "256 names", 256)?;
    long(to, 255)?;
    long(to, 256)?;
    long(to, 65535)?;
    long(to, 65536)?;
    unnamed(to)
}

fn few<W: Write>(to: &mut W) -> io::Result<()> {
    let mut d = Dictionary::<16, 4>::new();
    d.line(to, "none")?;
    d.add(b"");
    d.line(to, "one empty name")?;
    d.counts = MetadataBuilder::new();
    d.add(b"b");
    d.line(to, "b")?;
    d.add(b"a");
    d.line(to, "b, a")?;
    d.counts = MetadataBuilder::new();
    d.add(b"a");
    let a = d.counts;
    d.add(b"b");
    d.add(b"c");
    d.line(to, "a, b, c")?;
    d.counts = a;
    d.add(b"");
    d.line(to, "a, the empty name")
}

fn cut<W: Write>(to: &mut W) -> io::Result<()> {
    let mut d = Dictionary::<16, 4>::new();
    d.add(b"b");
    d.add(b"a");
    d.counts = MetadataBuilder::from_parts(1, 1);
    d.add(b"c");
    d.line(to, "b, a, cut to b, c")?;
    d.counts = MetadataBuilder::from_parts(0, 0);
    d.line(to, "b, cut to none")?;
    d.add(b"a");
    d.line(to, "b, cut to none, a")
}

// n names of two bytes, ascending.
// Kept (3; no plainer): each name is made of its number; no slice is walked by it.
fn many<W: Write>(to: &mut W, label: &str, n: usize) -> io::Result<()> {
    let mut d = Dictionary::<512, 256>::new();
    for i in 0..n {
        d.add(&[48 + (i / 64 % 64) as u8, 48 + (i % 64) as u8]);
    }
    d.line(to, label)
}

// One name of n bytes.
fn long<W: Write>(to: &mut W, n: usize) -> io::Result<()> {
    let name = [0x61; 65536];
    let mut d = Dictionary::<65536, 1>::new();
    d.add(&name[..n.min(65536)]);
    write!(to, "a name of {n} bytes")?;
    d.line(to, "")
}

// A fresh dictionary, one whose only name was cut, and one of the empty name.
fn unnamed<W: Write>(to: &mut W) -> io::Result<()> {
    let mut d = Dictionary::<1, 1>::new();
    d.told(to)?;
    d.add(b"b");
    d.counts = MetadataBuilder::from_parts(0, 0);
    d.told(to)?;
    d.counts = MetadataBuilder::new();
    d.add(b"");
    d.told(to)
}

impl<const TEXT: usize, const ENDS: usize> Dictionary<TEXT, ENDS> {
    fn new() -> Self {
        Dictionary {
            counts: MetadataBuilder::new(),
            text: [0; TEXT],
            ends: [0; ENDS],
        }
    }

    fn add(&mut self, name: &[u8]) {
        let _ = self
            .counts
            .add_field_name(&mut self.text, &mut self.ends, name);
    }

    fn finish(&self, out: &mut [u8]) -> Result<usize, FinishError> {
        let names = Names {
            counts: self.counts,
            text: &self.text,
            ends: &self.ends,
        };
        names.finish(1, out)
    }

    // "never used" where the bytes written are those of such a dictionary, else "used".
    fn told<W: Write>(&self, to: &mut W) -> io::Result<()> {
        let mut out = [0u8; 4];
        match self.finish(&mut out) {
            Ok(n) if is_never_used(&out[..n.min(4)]) => self.line(to, "never used"),
            Ok(_) => self.line(to, "used"),
            Err(_) => writeln!(to, "refused"),
        }
    }

    fn line<W: Write>(&self, to: &mut W, label: &str) -> io::Result<()> {
        let mut out = [0u8; 65600];
        match self.finish(&mut out) {
            Ok(n) => {
                write!(to, "{label}: {n} bytes, ")?;
                print::front(to, &out, n)?;
                writeln!(to)
            }
            Err(FinishError::Damaged) => writeln!(to, "{label} refused 1"),
            Err(FinishError::NoRoom) => writeln!(to, "{label} refused 16"),
        }
    }
}
