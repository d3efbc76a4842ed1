// One line a scalar, as `KIND ARGUMENTS BYTES` or `KIND ARGUMENTS refused NUMBER`: each of the 21 codes and short text at its
// edges, then what is out of range (7) or ill-formed (8). NxHH is the byte HH, N times.
// The file `stdout` was not made by this program. Each scalar was appended to a new builder and finished, in a model of
// document 01 written apart from this code, and, where the Rust's types hold it (78 of the 114), in parquet-variant 60.1.0
// itself, with equal bytes; both give the dictionary [1, 0, 0] beside each of these values.
// Kept (5a; no plainer): a function that calls what it is given says that it may, and three do.
#![tactic(auto)]

use encoding::slices::NoRoom;
use std::fmt::Display;
use std::io;
use std::io::Write;
use value::decimal::{VariantDecimal4, VariantDecimal8, VariantDecimal16};
use value::stored::Stored;
use value::variant::{OfKind, Variant, VariantBytes};

fn main(rt: HostRuntime) -> io::Result<()> {
    let to = &mut io::writer(&rt);
    constants(to)?;
    integers(to)?;
    floats(to)?;
    decimals(to)?;
    decimals16(to)?;
    moments(to)?;
    uuids(to)?;
    bytes(to)?;
    texts(to)?;
    decimals_refused(to)?;
    decimals16_refused(to)?;
    each(to, "time", &[-1, 86400000000], Variant::Time)?;
    texts_refused(to)
}

fn constants<W: Write>(to: &mut W) -> io::Result<()> {
    let values = [
        ("null", Variant::Null),
        ("true", Variant::BooleanTrue),
        ("false", Variant::BooleanFalse),
    ];
    named(to, &values, |v| v)
}

fn integers<W: Write>(to: &mut W) -> io::Result<()> {
    let edges = [0, -1, -9223372036854775808, 9223372036854775807];
    each(to, "int8", &[0, -1, -128, 127], Variant::Int8)?;
    each(to, "int16", &[0, -1, -32768, 32767], Variant::Int16)?;
    each(
        to,
        "int32",
        &[0, -1, -2147483648, 2147483647],
        Variant::Int32,
    )?;
    each(to, "int64", &edges, Variant::Int64)?;
    each(to, "int8", &[42, 5], Variant::Int8)?;
    each(to, "int16", &[-2], Variant::Int16)
}

fn floats<W: Write>(to: &mut W) -> io::Result<()> {
    let doubles = [
        ("double 0000000000000000", 0x0000000000000000),
        ("double 3ff0000000000000", 0x3ff0000000000000),
        ("double ffffffffffffffff", 0xffffffffffffffff),
    ];
    let floats = [
        ("float 00000000", 0x00000000),
        ("float 3f800000", 0x3f800000),
        ("float ffffffff", 0xffffffff),
    ];
    named(to, &doubles, Variant::Double)?;
    named(to, &floats, Variant::Float)
}

fn decimals<W: Write>(to: &mut W) -> io::Result<()> {
    let edges4 = [
        (0, 0),
        (2, 12345),
        (0, -1),
        (38, 999999999),
        (38, -999999999),
    ];
    let edges8 = [
        (0, 0),
        (2, 12345),
        (0, -1),
        (38, 999999999999999999),
        (38, -999999999999999999),
    ];
    scaled(to, "dec4", &edges4, decimal4)?;
    scaled(to, "dec8", &edges8, decimal8)
}

fn decimals_refused<W: Write>(to: &mut W) -> io::Result<()> {
    let edges4 = [(39, 0), (0, 1000000000), (0, -1000000000)];
    let edges8 = [(39, 0), (0, 1000000000000000000), (0, -1000000000000000000)];
    scaled(to, "dec4", &edges4, decimal4)?;
    scaled(to, "dec8", &edges8, decimal8)
}

fn decimals16<W: Write>(to: &mut W) -> io::Result<()> {
    let edges = [
        ("dec16 0 0", (0, 0, 0)),
        ("dec16 2 12345", (2, 0, 12345)),
        ("dec16 0 -1", (0, -1, 18446744073709551615)),
        (
            "dec16 38 99999999999999999999999999999999999999",
            (38, 5421010862427522170, 687399551400673279),
        ),
        (
            "dec16 38 -99999999999999999999999999999999999999",
            (38, -5421010862427522171, 17759344522308878337),
        ),
        ("dec16 0 18446744073709551616", (0, 1, 0)),
        ("dec16 0 -18446744073709551616", (0, -1, 0)),
        ("dec16 0 18446744073709551615", (0, 0, 18446744073709551615)),
    ];
    named(to, &edges, decimal16)
}

fn decimals16_refused<W: Write>(to: &mut W) -> io::Result<()> {
    let edges = [
        ("dec16 39 0", (39, 0, 0)),
        (
            "dec16 0 100000000000000000000000000000000000000",
            (0, 5421010862427522170, 687399551400673280),
        ),
        (
            "dec16 0 -100000000000000000000000000000000000000",
            (0, -5421010862427522171, 17759344522308878336),
        ),
        (
            "dec16 0 170141183460469231731687303715884105727",
            (0, 9223372036854775807, 18446744073709551615),
        ),
        (
            "dec16 0 -170141183460469231731687303715884105728",
            (0, -9223372036854775808, 0),
        ),
    ];
    named(to, &edges, decimal16)
}

// Days, and microseconds or nanoseconds: of a day, or since 1970.
fn moments<W: Write>(to: &mut W) -> io::Result<()> {
    let edges = [0, -1, -9223372036854775808, 9223372036854775807];
    each(to, "date", &[0, -1, -2147483648, 2147483647], Variant::Date)?;
    each(to, "tsmicros", &edges, Variant::TimestampMicros)?;
    each(to, "tsntzmicros", &edges, Variant::TimestampNtzMicros)?;
    each(to, "tsnanos", &edges, Variant::TimestampNanos)?;
    each(to, "tsntznanos", &edges, Variant::TimestampNtzNanos)?;
    each(to, "time", &[0, 1, 86399999999], Variant::Time)
}

fn uuids<W: Write>(to: &mut W) -> io::Result<()> {
    let id: [u8; 16] = [0, 1, 2, 3, 4, 5, 6, 7, 8, 9, 10, 11, 12, 13, 14, 15];
    write!(to, "uuid 000102030405060708090a0b0c0d0e0f")?;
    answer(to, id, None)?;
    write!(to, "uuid 16xff")?;
    answer(to, [0xFFu8; 16], None)
}

fn bytes<W: Write>(to: &mut W) -> io::Result<()> {
    let a63 = [0x61u8; 63];
    let a64 = [0x61u8; 64];
    of_kind(to, "binary", VariantBytes::Binary, b"")?;
    of_kind(to, "binary 00ff80", VariantBytes::Binary, b"\x00\xff\x80")?;
    of_kind(to, "binary 64x61", VariantBytes::Binary, &a64)?;
    of_kind(to, "string", VariantBytes::String, b"")?;
    of_kind(to, "string 6869", VariantBytes::String, b"\x68\x69")?;
    of_kind(to, "string 64x61", VariantBytes::String, &a64)?;
    of_kind(to, "short", VariantBytes::ShortString, b"")?;
    of_kind(to, "short 6869", VariantBytes::ShortString, b"\x68\x69")?;
    of_kind(to, "short 63x61", VariantBytes::ShortString, &a63)
}

fn texts<W: Write>(to: &mut W) -> io::Result<()> {
    let a63 = [0x61u8; 63];
    let a64 = [0x61u8; 64];
    of_kind(to, "text", VariantBytes::Text, b"")?;
    of_kind(to, "text 6869", VariantBytes::Text, b"\x68\x69")?;
    of_kind(to, "text 4849", VariantBytes::Text, b"\x48\x49")?;
    of_kind(to, "text c3a9", VariantBytes::Text, b"\xc3\xa9")?;
    of_kind(to, "text e282ac", VariantBytes::Text, b"\xe2\x82\xac")?;
    of_kind(to, "text f09f9880", VariantBytes::Text, b"\xf0\x9f\x98\x80")?;
    of_kind(to, "text 63x61", VariantBytes::Text, &a63)?;
    of_kind(to, "text 64x61", VariantBytes::Text, &a64)
}

fn texts_refused<W: Write>(to: &mut W) -> io::Result<()> {
    let a64 = [0x61u8; 64];
    of_kind(to, "text 80", VariantBytes::Text, b"\x80")?;
    of_kind(to, "text c080", VariantBytes::Text, b"\xc0\x80")?;
    of_kind(to, "text c3", VariantBytes::Text, b"\xc3")?;
    of_kind(to, "text e08080", VariantBytes::Text, b"\xe0\x80\x80")?;
    of_kind(to, "text eda080", VariantBytes::Text, b"\xed\xa0\x80")?;
    of_kind(to, "text e282", VariantBytes::Text, b"\xe2\x82")?;
    of_kind(to, "text f08080af", VariantBytes::Text, b"\xf0\x80\x80\xaf")?;
    of_kind(to, "text f4908080", VariantBytes::Text, b"\xf4\x90\x80\x80")?;
    of_kind(to, "text f5808080", VariantBytes::Text, b"\xf5\x80\x80\x80")?;
    of_kind(to, "text 61ff", VariantBytes::Text, b"\x61\xff")?;
    of_kind(to, "string eda080", VariantBytes::String, b"\xed\xa0\x80")?;
    of_kind(to, "short 64x61", VariantBytes::ShortString, &a64)?;
    of_kind(to, "short ff", VariantBytes::ShortString, b"\xff")
}

fn each<T: Copy + Display, W: Write, F: Fn(T) -> Variant>(
    to: &mut W,
    kind: &str,
    edges: &[T],
    of: F,
) -> io::Result<()>
    requires { F.IsAlwaysCallable of }
{
    for x in edges {
        write!(to, "{kind} {x}")?;
        scalar(to, of(*x))?;
    }
    Ok(())
}

fn scaled<T: Copy + Display, W: Write, F: Fn(u8, T) -> Variant>(
    to: &mut W,
    kind: &str,
    edges: &[(u8, T)],
    of: F,
) -> io::Result<()>
    requires { F.IsAlwaysCallable of }
{
    for (scale, x) in edges {
        write!(to, "{kind} {scale} {x}")?;
        scalar(to, of(*scale, *x))?;
    }
    Ok(())
}

fn named<T: Copy, W: Write, F: Fn(T) -> Variant>(
    to: &mut W,
    edges: &[(&str, T)],
    of: F,
) -> io::Result<()>
    requires { F.IsAlwaysCallable of }
{
    for (label, x) in edges {
        write!(to, "{label}")?;
        scalar(to, of(*x))?;
    }
    Ok(())
}

fn decimal4(scale: u8, integer: i32) -> Variant {
    Variant::Decimal4(VariantDecimal4 { integer, scale })
}

// Kept (2; no plainer): each of the two makes another type, of another integer.
fn decimal8(scale: u8, integer: i64) -> Variant {
    Variant::Decimal8(VariantDecimal8 { integer, scale })
}

fn decimal16((scale, high, low): (u8, i64, u64)) -> Variant {
    Variant::Decimal16(VariantDecimal16 { high, low, scale })
}

fn scalar<W: Write>(to: &mut W, v: Variant) -> io::Result<()> {
    answer(to, v, v.out_of_range().then_some(7))
}

fn of_kind<W: Write>(to: &mut W, label: &str, kind: VariantBytes, bytes: &[u8]) -> io::Result<()> {
    let x = OfKind { kind, bytes };
    write!(to, "{label}")?;
    answer(to, x, x.ill_formed().then_some(8))
}

// The bytes of x, or the refusal's number.
fn answer<S: Stored + Copy, W: Write>(to: &mut W, x: S, refused: Option<u8>) -> io::Result<()> {
    let mut buf = [0u8; 128];
    if let Some(number) = refused {
        return writeln!(to, " refused {number}");
    }
    match x.write(&mut buf, 0) {
        Ok(()) => {
            write!(to, " ")?;
            print::hex(to, &buf, x.size())?;
            writeln!(to)
        }
        Err(NoRoom) => writeln!(to, " refused 14"),
    }
}
