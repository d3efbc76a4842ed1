// A date, or a date and a time of day, as the scalar that is stored for it.
ghost use Rattle.std.specs.Prelude.{◌≡◌};
ghost use Rattle.calendar.specs.Gregorian.{timestamp};
ghost use Rattle.calendar.specs.Answers.{answer, civil_rows, civil_variant, moment_rows, told};

use crate::date::{Date, OutOfCalendar};
use value::decimal::time_out_of_range;
use value::variant::Variant;

// The time is in microseconds since midnight.
#[derive(Clone, Copy, PartialEq, Eq, Debug)]
pub enum Civil {
    Date(Date),
    TimestampMicros(Date, i64),
    TimestampNtzMicros(Date, i64),
}

pub fn variant_of(x: Civil) -> Result<Variant, OutOfCalendar>
    ensures { told result ≡ answer (civil_rows x) (civil_variant x) }
{
    match x {
        Civil::Date(date) => Ok(Variant::Date(date.in_calendar()?.day_number())),
        Civil::TimestampMicros(date, time) => {
            let micros = micros_of(date, time)?;
            Ok(Variant::TimestampMicros(micros))
        }
        Civil::TimestampNtzMicros(date, time) => {
            let micros = micros_of(date, time)?;
            Ok(Variant::TimestampNtzMicros(micros))
        }
    }
}

// Microseconds since 1970-01-01.
fn micros_of(date: Date, time: i64) -> Result<i64, OutOfCalendar>
    ensures { told result ≡ answer (moment_rows date time) (timestamp date time) }
{
    let days = date.in_calendar()?.day_number();
    if time_out_of_range(time) {
        return Err(OutOfCalendar);
    }
    Ok(i64::from(days) * 86_400_000_000 + time)
}
