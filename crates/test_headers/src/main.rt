// The headers of a few lists and objects: for each its size and its first 16 bytes.
// The file `stdout` was not made by this program but by the model, written apart from this code.
#![tactic(auto)]

use container::{CloseError, Entry, Frame, close_object, put_entry, search_entries};
use encoding::slices::write_slice;
use list::{ListFrame, close_list};
use metadata::{MetadataBuilder, Names};
use std::io;
use std::io::Write;

fn main(rt: HostRuntime) -> io::Result<()> {
    let to = &mut io::writer(&rt);
    list(to, "list of 0 nulls", 0)?;
    list(to, "list of 1 nulls", 1)?;
    list(to, "list of 255 nulls", 255)?;
    list(to, "list of 256 nulls", 256)?;
    lists(to)?;
    no_lists(to)?;
    no_fields(to, "object of no fields")?;
    object(to, "object of one null, id 0", 0)?;
    object(to, "object of one null, id 255", 255)?;
    object(to, "object of one null, id 256", 256)?;
    object(to, "object of one null, id 65536", 65536)?;
    two_fields(to, "object of b = int8 1, a = int8 2")
}

// Lists of other values.
fn lists<W: Write>(to: &mut W) -> io::Result<()> {
    values(
        to,
        "list of a null, int8 7, text ab",
        b"\x00\x0c\x07\x09ab",
        3,
        1,
    )?;
    values(
        to,
        "list of a list, an object, a large list",
        b"\x03\x01\x00\x01\x00\x02\x01\x00\x00\x01\x00\x13\x01\x00\x00\x00\x00\x01\x00",
        3,
        1,
    )?;
    values(to, "list of one null, floor 3", b"\x00", 1, 3)
}

// Data that is not as many values as counted.
fn no_lists<W: Write>(to: &mut W) -> io::Result<()> {
    values(to, "list of a type code 21", b"\x54", 1, 1)?;
    values(to, "list of two nulls, counted one", b"\x00\x00", 1, 1)?;
    values(
        to,
        "list of a count that overflows",
        b"\x42\xff\xff\xff\xff\x00",
        1,
        1,
    )
}

// n nulls: each is one byte, 00.
fn list<W: Write>(to: &mut W, label: &str, n: usize) -> io::Result<()> {
    let mut value = [0u8; 1024];
    let f = ListFrame {
        start: 0,
        used: n,
        count: n,
        floor: 1,
    };
    let closed = close_list(f, &mut value);
    line(to, label, closed, n, &value)
}

// A list with this data and count.
// Kept (6; no plainer): how many values the data is said to be, which need not be so many.
fn values<W: Write>(
    to: &mut W,
    label: &str,
    data: &[u8],
    count: usize,
    floor: usize,
) -> io::Result<()> {
    let mut value = [0u8; 64];
    let _ = write_slice(&mut value, 0, data);
    let size = data.len();
    let f = ListFrame {
        start: 0,
        used: size,
        count,
        floor,
    };
    let closed = close_list(f, &mut value);
    line(to, label, closed, size, &value)
}

fn no_names() -> Names<'static> {
    Names {
        counts: MetadataBuilder::new(),
        text: b"",
        ends: &[],
    }
}

fn no_fields<W: Write>(to: &mut W, label: &str) -> io::Result<()> {
    let mut value = [0u8; 64];
    let mut entries = [0usize; 4];
    let most = largest(&entries, 0);
    let closed = close_object(frame(0, 0), most, no_names(), &mut value, &mut entries);
    line(to, label, closed, 0, &value)
}

fn object<W: Write>(to: &mut W, label: &str, id: usize) -> io::Result<()> {
    let mut value = [0u8; 64];
    let mut entries = [0usize; 4];
    let _ = put_entry(&mut entries, 0, Entry { id, offset: 0 });
    let most = largest(&entries, 1);
    let closed = close_object(frame(1, 1), most, no_names(), &mut value, &mut entries);
    line(to, label, closed, 1, &value)
}

fn two_fields<W: Write>(to: &mut W, label: &str) -> io::Result<()> {
    let mut text = [0u8; 2];
    let mut ends = [0usize; 2];
    let mut counts = MetadataBuilder::new();
    let _ = counts.add_field_name(&mut text, &mut ends, b"b");
    let _ = counts.add_field_name(&mut text, &mut ends, b"a");
    let mut value = [0u8; 64];
    let mut entries = [0usize; 4];
    let _ = put_entry(&mut entries, 0, Entry { id: 0, offset: 0 });
    let _ = put_entry(&mut entries, 1, Entry { id: 1, offset: 2 });
    let most = largest(&entries, 2);
    let names = Names {
        counts,
        text: &text,
        ends: &ends,
    };
    let closed = close_object(frame(4, 2), most, names, &mut value, &mut entries);
    line(to, label, closed, 4, &value)
}

// The largest id of the first n entries.
// Kept (6; no plainer): the call takes the entries by their numbers in the slice that is lent.
fn largest(entries: &[usize], n: usize) -> usize {
    search_entries(entries, 0, n, true, 0, 0, 0).largest
}

fn frame(used: usize, to: usize) -> Frame {
    Frame {
        start: 0,
        used,
        from: 0,
        to,
        floor: 1,
    }
}

// The bytes before `size` bytes of data.
// Kept (6; no plainer): `value` is all that was lent; how much of it is the header comes of both sizes, where the call is carried out.
fn line<W: Write>(
    to: &mut W,
    label: &str,
    closed: Result<usize, CloseError>,
    size: usize,
    value: &[u8],
) -> io::Result<()> {
    match closed {
        Ok(used) => {
            let n = used.saturating_sub(size);
            write!(to, "{label}: {n} bytes, ")?;
            print::front(to, value, n)?;
            writeln!(to)
        }
        Err(CloseError::Damaged) => writeln!(to, "{label} refused 1"),
        Err(CloseError::NoRoom) => writeln!(to, "{label} refused 14"),
    }
}
