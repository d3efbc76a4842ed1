// Document 01's twelve marked outcomes, one line a case: case number, value, dictionary. A refused call prints its number.
// The storage and the table of marks are not blank; the storage of the objects with fields has room for the calls and no more. No mark is
// set, so that no undo record is taken: none is lent.
// The file `stdout` was typed from document 01, not made by this program.
#![tactic(auto)]

use builder::{Scalar, append, close, finish, new, new_list, new_object, rollback};
use semantics::{Builder, Refusal};
use std::io;
use std::io::Write;
use value::variant::{OfKind, Variant, VariantBytes};

// The builder, and the storage that it is lent: value bytes, name bytes, name ends, numbers of entries.
// Kept (2, 5b; no plainer): the one program of the calls by value, which take each slice for itself; the others go by `VariantBuilder`.
#[derive(Drop)]
struct Case<const VALUE: usize, const TEXT: usize, const ENDS: usize, const ENTRIES: usize> {
    builder: Builder,
    marks: [usize; 7168],
    value: [u8; VALUE],
    text: [u8; TEXT],
    ends: [usize; ENDS],
    entries: [usize; ENTRIES],
}

fn main(rt: HostRuntime) -> io::Result<()> {
    let to = &mut io::writer(&rt);
    scalar(to, 1, Variant::Null)?;
    scalar(to, 2, Variant::Int8(5))?;
    scalar(to, 3, Variant::Int16(-2))?;
    plain_text(to)?;
    empty_list(to)?;
    empty_object(to)?;
    list_in_list(to)?;
    two_fields(to, 8, Case::<11, 2, 2, 4>::new(true), [b"b", b"a"])?;
    two_fields(to, 9, Case::<9, 1, 1, 2>::new(false), [b"a", b"a"])?;
    replaced_rolled_back(to)?;
    all_rolled_back(to)?;
    new_rolled_back(to)
}

fn scalar<W: Write>(to: &mut W, number: usize, x: Variant) -> io::Result<()> {
    let mut case = Case::<3, 1, 1, 2>::new(true);
    case.top(to, x)?;
    case.line(to, number)
}

fn plain_text<W: Write>(to: &mut W) -> io::Result<()> {
    let mut case = Case::<3, 1, 1, 2>::new(true);
    case.text(to, b"hi")?;
    case.line(to, 4)
}

fn empty_list<W: Write>(to: &mut W) -> io::Result<()> {
    let mut case = Case::<3, 1, 1, 1>::new(true);
    case.list(to, None)?;
    case.closed(to)?;
    case.line(to, 5)
}

fn empty_object<W: Write>(to: &mut W) -> io::Result<()> {
    let mut case = Case::<3, 1, 1, 1>::new(true);
    case.object(to)?;
    case.closed(to)?;
    case.line(to, 6)
}

fn list_in_list<W: Write>(to: &mut W) -> io::Result<()> {
    let mut case = Case::<7, 1, 1, 2>::new(true);
    case.list(to, None)?;
    case.list(to, None)?;
    case.closed(to)?;
    case.closed(to)?;
    case.line(to, 7)
}

// Two int8 fields, the second of which may take the first one's place.
fn two_fields<
    const VALUE: usize,
    const TEXT: usize,
    const ENDS: usize,
    const ENTRIES: usize,
    W: Write,
>(
    to: &mut W,
    number: usize,
    mut case: Case<VALUE, TEXT, ENDS, ENTRIES>,
    names: [&[u8]; 2],
) -> io::Result<()> {
    let [first, second] = names;
    case.object(to)?;
    case.field(to, first, 1)?;
    case.field(to, second, 2)?;
    case.closed(to)?;
    case.line(to, number)
}

fn replaced_rolled_back<W: Write>(to: &mut W) -> io::Result<()> {
    let mut case = Case::<7, 1, 1, 2>::new(false);
    case.object(to)?;
    case.field(to, b"a", 1)?;
    case.list(to, Some(b"a"))?;
    case.rolled_back(to)?;
    case.closed(to)?;
    case.line(to, 10)
}

fn all_rolled_back<W: Write>(to: &mut W) -> io::Result<()> {
    let mut case = Case::<2, 1, 1, 2>::new(true);
    case.object(to)?;
    case.field(to, b"b", 1)?;
    case.rolled_back(to)?;
    case.top(to, Variant::Null)?;
    case.line(to, 11)
}

fn new_rolled_back<W: Write>(to: &mut W) -> io::Result<()> {
    let mut case = Case::<11, 2, 2, 4>::new(true);
    case.object(to)?;
    case.field(to, b"b", 1)?;
    case.list(to, Some(b"a"))?;
    case.rolled_back(to)?;
    case.field(to, b"c", 2)?;
    case.closed(to)?;
    case.line(to, 12)
}

impl<const VALUE: usize, const TEXT: usize, const ENDS: usize, const ENTRIES: usize> Case<
    VALUE,
    TEXT,
    ENDS,
    ENTRIES,
> {
    // Kept (1c; no plainer): handed on as it is to the builder's maker, which takes it so.
    fn new(unique: bool) -> Self {
        Case {
            builder: new(unique),
            marks: [99; 7168],
            value: [0xEE; VALUE],
            text: [0xEE; TEXT],
            ends: [99; ENDS],
            entries: [99; ENTRIES],
        }
    }

    fn top<W: Write>(&mut self, to: &mut W, x: Variant) -> io::Result<()> {
        self.append(to, None, x)
    }

    // An int8 field.
    fn field<W: Write>(&mut self, to: &mut W, name: &[u8], n: i8) -> io::Result<()> {
        self.append(to, Some(name), Variant::Int8(n))
    }

    fn append<X: Scalar, W: Write>(
        &mut self,
        to: &mut W,
        name: Option<&[u8]>,
        x: X,
    ) -> io::Result<()> {
        let called = append(
            self.builder,
            &self.marks,
            &mut self.value,
            &mut self.text,
            &mut self.ends,
            &mut self.entries,
            &mut [],
            name,
            x,
        );
        self.after(to, called)
    }

    fn text<W: Write>(&mut self, to: &mut W, bytes: &[u8]) -> io::Result<()> {
        let kind = VariantBytes::Text;
        self.append(to, None, OfKind { kind, bytes })
    }

    fn list<W: Write>(&mut self, to: &mut W, name: Option<&[u8]>) -> io::Result<()> {
        let called = new_list(
            self.builder,
            &self.marks,
            &self.value,
            &mut self.text,
            &mut self.ends,
            &mut self.entries,
            &mut [],
            name,
        );
        self.after(to, called)
    }

    // Kept (2; no plainer): a list and an object are opened by a call of their own each.
    fn object<W: Write>(&mut self, to: &mut W) -> io::Result<()> {
        let called = new_object(
            self.builder,
            &self.marks,
            &self.value,
            &mut self.text,
            &mut self.ends,
            &mut self.entries,
            &mut [],
            None,
        );
        self.after(to, called)
    }

    fn closed<W: Write>(&mut self, to: &mut W) -> io::Result<()> {
        let called = close(
            self.builder,
            &self.marks,
            &mut self.value,
            &self.text,
            &self.ends,
            &mut self.entries,
            &[],
        );
        self.after(to, called)
    }

    fn rolled_back<W: Write>(&mut self, to: &mut W) -> io::Result<()> {
        let called = rollback(
            self.builder,
            &self.marks,
            &self.value,
            &self.text,
            &self.ends,
            &mut self.entries,
            &[],
        );
        self.after(to, called)
    }

    // The builder after a call, which a refused one leaves as it was.
    fn after<W: Write>(&mut self, to: &mut W, called: Result<Builder, Refusal>) -> io::Result<()> {
        match called {
            Ok(builder) => {
                self.builder = builder;
                Ok(())
            }
            Err(e) => writeln!(to, "refused {}", e.number()),
        }
    }

    fn line<W: Write>(&mut self, to: &mut W, number: usize) -> io::Result<()> {
        let mut out = [0xEEu8; 7];
        let done = finish(
            self.builder,
            &self.marks,
            &self.value,
            &self.text,
            &self.ends,
            &self.entries,
            &[],
            &mut out,
        );
        match done {
            Ok(f) => {
                write!(to, "{number} ")?;
                print::hex(to, &self.value, f.builder.counts.value)?;
                write!(to, " ")?;
                print::hex(to, &out, f.written)?;
                writeln!(to)
            }
            Err(e) => writeln!(to, "refused {}", e.number()),
        }
    }
}
