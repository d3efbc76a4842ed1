// Document 01's named edges, one line a case: its name; the answers of its first calls and of its last, each 0 or the number of the
// first call refused; names and value bytes then used; the first 16 of these bytes; where the last calls finish, the
// dictionary. Calls are written as bytes: see `made`. Other edges are data of the program `test_replay`.
// The file `stdout` was not made by this program but by a model of document 01 written apart from this code.
#![tactic(auto)]

use builder::new;
use builder_mut::VariantBuilder;
use semantics::Refusal;
use std::io;
use std::io::Write;
use value::variant::{OfKind, Variant, VariantBytes};

fn main(rt: HostRuntime) -> io::Result<()> {
    let to = &mut io::writer(&rt);
    lists(to)?;
    case(to, "text of 63 bytes", b"", b"t.")?;
    case(to, "text of 64 bytes", b"", b"T.")?;
    depths(to)
}

fn lists<W: Write>(to: &mut W) -> io::Result<()> {
    let mut n255 = [b'n'; 256];
    n255[0] = b'[';
    case(to, "list of 255 nulls", &n255, b"].")?;
    let mut n256 = [b'n'; 257];
    n256[0] = b'[';
    case(to, "list of 256 nulls", &n256, b"].")
}

fn depths<W: Write>(to: &mut W) -> io::Result<()> {
    let opened = [b'['; 64];
    let mut closed = [b']'; 65];
    closed[64] = b'.';
    case(to, "depth 64", &opened, &closed)?;
    case(to, "depth 65", &opened, b"[")
}

fn case<W: Write>(to: &mut W, label: &str, before: &[u8], last: &[u8]) -> io::Result<()> {
    let mut b = VariantBuilder {
        builder: &mut new(false),
        marks: &mut [0; 7168],
        value: &mut [0; 1024],
        text: &mut [],
        ends: &mut [],
        entries: &mut [0; 512],
        undo: &mut [],
    };
    let mut out = [0; 3];
    let first = run(&mut b, before, &mut out);
    let then = first.and_then(|_| run(&mut b, last, &mut out));
    write!(to, "{label}: {} ", number_of(first))?;
    line(to, &b, then, &out)
}

fn number_of(answer: Result<Option<usize>, Refusal>) -> u8 {
    answer.err().map_or(0, |e| e.number())
}

// The calls in order, up to the first one refused: what the last one answers.
fn run(b: &mut VariantBuilder, calls: &[u8], out: &mut [u8]) -> Result<Option<usize>, Refusal> {
    let mut written = None;
    for c in calls {
        written = made(b, *c, out)?;
    }
    Ok(written)
}

// A list opened, a null, a close, a finish; `t` is a plain text of 63 bytes, any other byte one of 64. A finish answers the bytes of its dictionary.
fn made(b: &mut VariantBuilder, c: u8, out: &mut [u8]) -> Result<Option<usize>, Refusal> {
    match c {
        b'[' => b.new_list(None)?,
        b'n' => b.append(None, Variant::Null)?,
        b']' => b.close()?,
        b'.' => return b.finish(out).map(Some),
        b't' => b.append(None, text(&[b'a'; 63]))?,
        _ => b.append(None, text(&[b'a'; 64]))?,
    }
    Ok(None)
}

fn text(bytes: &[u8]) -> OfKind<'_> {
    OfKind {
        kind: VariantBytes::Text,
        bytes,
    }
}

fn line<W: Write>(
    to: &mut W,
    b: &VariantBuilder,
    last: Result<Option<usize>, Refusal>,
    out: &[u8],
) -> io::Result<()> {
    let counts = b.builder.counts;
    let names = counts.dictionary.num_field_names();
    let used = counts.value;
    write!(to, "{}, {names} names, {used} bytes", number_of(last))?;
    if 0 < used {
        write!(to, ", ")?;
        print::front(to, b.value, used)?;
    }
    if let Ok(Some(written)) = last {
        write!(to, ", dictionary ")?;
        print::hex(to, out, written)?;
    }
    writeln!(to)
}
