// One scan at a tag reader, as one Variant: an object of eight fields, the last one a list. One line a call: the field's name or
// what the call does, and the answer, 0 or the refusal's number; then the fields' count, the value and the dictionary.
// The lent storage (value bytes, name bytes, name ends, entries of two numbers) has room for this scan and no more. No mark is set, so that
// no undo record is taken: none is lent.
// The file `stdout` was not made by this program but by a model of document 01 written apart from this code.
#![tactic(auto)]

use builder::{Scalar, new};
use builder_mut::VariantBuilder;
use semantics::Refusal;
use std::io;
use std::io::Write;
use value::decimal::VariantDecimal4;
use value::variant::{OfKind, Variant, VariantBytes};

fn main(rt: HostRuntime) -> io::Result<()> {
    let to = &mut io::writer(&rt);
    let mut scan = VariantBuilder {
        builder: &mut new(true),
        marks: &mut [0; 7168],
        value: &mut [0; 78],
        text: &mut [0; 52],
        ends: &mut [0; 8],
        entries: &mut [0; 16],
        undo: &mut [],
    };
    told(to, "object", scan.new_object(None))?;
    fields(to, &mut scan)?;
    readings(to, &mut scan)?;
    let fields = scan.builder.counts.entries;
    told(to, "close", scan.close())?;
    finished(to, &mut scan, fields)
}

fn fields<W: Write>(to: &mut W, scan: &mut VariantBuilder) -> io::Result<()> {
    // Plain text, stored as short text up to 63 bytes.
    let tag = OfKind {
        kind: VariantBytes::Text,
        bytes: b"999000000012345",
    };
    // 412.5 kg.
    let weight = VariantDecimal4 {
        integer: 4125,
        scale: 1,
    };
    let sex = OfKind {
        kind: VariantBytes::ShortString,
        bytes: b"F",
    };
    // On 14 August 2024, in days since 1970.
    let born = 19_949;
    // On 5 March 2026 at 07:42:18.25 UTC, in microseconds since 1970.
    let scanned = 1_772_696_538_250_000;
    // 38.6 degrees Celsius, as the bits of a float.
    let temperature = 0x421A_6666;
    field(to, scan, "tag", tag)?;
    field(to, scan, "weight", Variant::Decimal4(weight))?;
    field(to, scan, "sex", sex)?;
    field(to, scan, "born", Variant::Date(born))?;
    field(to, scan, "scanned", Variant::TimestampMicros(scanned))?;
    field(to, scan, "temperature", Variant::Float(temperature))?;
    field(to, scan, "vaccinated", Variant::BooleanTrue)
}

fn field<X: Scalar, W: Write>(
    to: &mut W,
    scan: &mut VariantBuilder,
    name: &str,
    x: X,
) -> io::Result<()> {
    told(to, name, scan.append(Some(name.as_bytes()), x))
}

// The weights of the last three readings, in tenths of a kilogram: a list, open until it is closed.
fn readings<W: Write>(to: &mut W, scan: &mut VariantBuilder) -> io::Result<()> {
    told(to, "readings", scan.new_list(Some(b"readings")))?;
    for n in [4131, 4128, 4125] {
        told(to, "reading", scan.append(None, Variant::Int16(n)))?;
    }
    told(to, "close", scan.close())
}

// The call's line.
fn told<W: Write>(to: &mut W, what: &str, called: Result<(), Refusal>) -> io::Result<()> {
    let number = called.err().map_or(0, |e| e.number());
    writeln!(to, "{what} {number}")
}

fn finished<W: Write>(to: &mut W, scan: &mut VariantBuilder, fields: usize) -> io::Result<()> {
    let mut dictionary = [0u8; 63];
    match scan.finish(&mut dictionary) {
        Ok(written) => {
            write!(to, "finish 0\nfields {fields}\nvalue ")?;
            let used = scan.builder.counts.value;
            print::hex(to, scan.value, used)?;
            write!(to, "\ndictionary ")?;
            print::hex(to, &dictionary, written)?;
            writeln!(to)
        }
        Err(e) => writeln!(to, "finish {}", e.number()),
    }
}
