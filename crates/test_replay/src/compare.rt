// What was expected against what came, and the counts.
use crate::parse::words;
use semantics::Counts;
use std::io::Write;
use std::{fmt, io};

// The script at hand and its line, and the calls and differences so far.
#[derive(Clone, Copy, Default)]
pub struct Tally {
    pub script: usize,
    pub line: usize,
    pub calls: usize,
    pub differences: usize,
}

impl fmt::Display for Tally {
    fn fmt<W: fmt::Write>(&self, f: &mut fmt::Formatter<W>) -> fmt::Result {
        write!(f, "script {}, call {}", self.script, self.line)
    }
}

impl Tally {
    pub fn start(&mut self) {
        self.script = more(self.script);
        self.line = 0;
    }

    // A line that is no call.
    pub fn pass(&mut self) {
        self.line = more(self.line);
    }

    pub fn count(&mut self) {
        self.pass();
        self.calls = more(self.calls);
    }

    // A number: 0 for a call carried out, or the refusal's.
    pub fn answered<W: Write>(&mut self, to: &mut W, expected: u8, got: u8) -> io::Result<()> {
        self.same(to, "number", u64::from(expected), u64::from(got))
    }

    // The six used counts, each expected in eight bytes.
    pub fn used<W: Write>(&mut self, to: &mut W, c: Counts, expected: &[u8]) -> io::Result<()> {
        let m = c.dictionary;
        let [value, names, text, entries, depth, undo] = words::<6>(expected);
        self.same(to, "used value bytes", value, c.value as u64)?;
        self.same(to, "used names", names, m.num_field_names() as u64)?;
        self.same(to, "used name bytes", text, m.metadata_size() as u64)?;
        self.same(to, "used entries", entries, c.entries as u64)?;
        self.same(to, "open containers", depth, c.depth as u64)?;
        self.same(to, "used undo records", undo, c.undo as u64)
    }

    // Kept (4; no plainer): a difference is counted and told, a line each.
    fn same<W: Write>(
        &mut self,
        to: &mut W,
        what: &str,
        expected: u64,
        got: u64,
    ) -> io::Result<()> {
        if expected == got {
            return Ok(());
        }
        self.differences = more(self.differences);
        let place = *self;
        writeln!(to, "{place}: {what} expected {expected}, got {got}")
    }

    // The first n of the bytes that came; where there are fewer, these differ, and are told.
    // Kept (6; no plainer): n is a count that a call answered or the record holds, which need not lie in what was lent.
    pub fn compared<W: Write>(
        &mut self,
        to: &mut W,
        what: &str,
        expected: &[u8],
        bytes: &[u8],
        n: usize,
    ) -> io::Result<()> {
        if let Some(got) = bytes.get(..n)
            && got == expected
        {
            return Ok(());
        }
        self.differences = more(self.differences);
        let place = *self;
        write!(to, "{place}: {what} expected ")?;
        print::hex(to, expected, expected.len())?;
        write!(to, ", got ")?;
        print::hex(to, bytes, n)?;
        writeln!(to)
    }
}

// One more, up to a million.
fn more(n: usize) -> usize {
    n.saturating_add(1).min(1_000_000)
}
