// One line's call. The numbers are those of the input, which tools/replay.py names.
use crate::input::{Fail, Header};
use crate::poke::{Poke, poke_of};
use builder_mut::Call;
use calendar::civil::Civil;
use calendar::date::Date;
use value::decimal::{VariantDecimal4, VariantDecimal8, VariantDecimal16};
use value::variant::{Variant, VariantBytes};

pub enum Line<'a> {
    Poke(Option<Poke<'a>>),
    Dump,
    Call(Call),
}

pub fn line_of(h: Header, operand: &[u8]) -> Result<Line<'_>, Fail> {
    let argument = h.argument;
    let call = match h.call {
        1 => Call::AddFieldName,
        2 => Call::NewList,
        3 => Call::NewObject,
        4 => Call::Close,
        5 => Call::Rollback,
        6 => Call::WithValidateUniqueFields(argument == 1),
        7 => Call::AppendBytes(kind(argument)),
        8 => Call::AppendUuid,
        9 => Call::AppendValue(scalar(argument, operand)),
        10 => Call::Finish,
        11 => return Ok(Line::Poke(poke_of(h, operand))),
        12 => return Ok(Line::Dump),
        13 => Call::AppendCivil(civil(argument, operand)),
        14 => Call::AppendPacked(argument),
        15 => Call::Mark,
        16 => {
            let [mark] = words::<1>(operand);
            Call::ReturnTo(mark as usize)
        }
        _ => return Err(Fail::Malformed),
    };
    Ok(Line::Call(call))
}

fn kind(code: u8) -> VariantBytes {
    match code {
        0 => VariantBytes::Binary,
        1 => VariantBytes::String,
        2 => VariantBytes::ShortString,
        _ => VariantBytes::Text,
    }
}

// The scalars of fixed size: an integer of 16 bytes, highest first, and a scale. A number that its type does not hold is taken as
// 0.
fn scalar(code: u8, operand: &[u8]) -> Variant {
    let [_, n] = words::<2>(operand);
    let x = n.cast_signed();
    match code {
        0 => Variant::Null,
        1 => Variant::BooleanTrue,
        2 => Variant::BooleanFalse,
        3 => Variant::Int8(i8::try_from(x).unwrap_or(0)),
        4 => Variant::Int16(i16::try_from(x).unwrap_or(0)),
        5 => Variant::Int32(i32::try_from(x).unwrap_or(0)),
        6 => Variant::Int64(x),
        7 => Variant::Float(u32::try_from(n).unwrap_or(0)),
        8 => Variant::Double(n),
        9..=14 => moment(code, x),
        _ => decimal(code, operand),
    }
}

fn moment(code: u8, x: i64) -> Variant {
    match code {
        9 => Variant::Date(i32::try_from(x).unwrap_or(0)),
        10 => Variant::Time(x),
        11 => Variant::TimestampMicros(x),
        12 => Variant::TimestampNtzMicros(x),
        13 => Variant::TimestampNanos(x),
        _ => Variant::TimestampNtzNanos(x),
    }
}

fn decimal(code: u8, operand: &[u8]) -> Variant {
    let [high, low] = words::<2>(operand);
    let high = high.cast_signed();
    let integer = low.cast_signed();
    let scale = operand.get(16).copied().unwrap_or(0);
    match code {
        15 => Variant::Decimal4(VariantDecimal4 {
            integer: i32::try_from(integer).unwrap_or(0),
            scale,
        }),
        16 => Variant::Decimal8(VariantDecimal8 { integer, scale }),
        _ => Variant::Decimal16(VariantDecimal16 { high, low, scale }),
    }
}

// A date, or a date and a time: four numbers of eight bytes each.
fn civil(code: u8, operand: &[u8]) -> Civil {
    let [year, month, day, time] = words::<4>(operand).map(u64::cast_signed);
    let date = Date { year, month, day };
    match code {
        0 => Civil::Date(date),
        1 => Civil::TimestampMicros(date, time),
        _ => Civil::TimestampNtzMicros(date, time),
    }
}

// The first N numbers, of eight bytes each, highest first; 0 where there is none.
// Kept (1d; no plainer): the input leaves out what a line does not take, and missing bytes count as 0.
pub fn words<const N: usize>(bytes: &[u8]) -> [u64; N] {
    let mut numbers = [0; N];
    for (n, eight) in numbers.iter_mut().zip(bytes.chunks(8)) {
        *n = u64::from_be_bytes(array(eight));
    }
    numbers
}

// The first N bytes, 0 where there is none.
// Kept (1d; no plainer): as for the numbers above.
pub fn array<const N: usize>(bytes: &[u8]) -> [u8; N] {
    let mut first = [0; N];
    for (b, x) in first.iter_mut().zip(bytes) {
        *b = *x;
    }
    first
}
