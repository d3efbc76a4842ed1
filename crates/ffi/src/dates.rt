// Dates as numbers: a date to its day number, a day number to its date, and the scalar that is stored for one.
ghost use Rattle.std.specs.Prelude.{◌≡◌, ◌≤◌, MatchOption};
ghost use Rattle.value.specs.Scalar.{scalar_bytes, stored_variant};
ghost use Rattle.actions.specs.Append.{OwnBytes};
ghost use Rattle.ffi.specs.Dates.{TellsDate, TellsDays, civil_by, civil_of, date_of};

use actions::Scalar;
use calendar::civil::Civil;
use calendar::date::{Date, OutOfCalendar, date_of, days_of};
use semantics::Refusal;
use value::variant::Variant;

// The day number of a date, into `days`; 17 where the date is not in the calendar, and `days` is then as it was.
#[unsafe(no_mangle)]
pub extern "C" fn variant_days_of(year: i64, month: i64, day: i64, days: &mut i32) -> u8
    ensures { TellsDays result (date_of year month day) days.old days.new }
{
    match days_of(Date { year, month, day }) {
        Ok(n) => {
            *days = n;
            0
        }
        Err(OutOfCalendar) => 17,
    }
}

// The date of a day number, into `year`, `month` and `day`; 17 where the day is outside the span, and they are then as they were.
#[unsafe(no_mangle)]
pub extern "C" fn variant_date_of(days: i64, year: &mut i64, month: &mut i64, day: &mut i64) -> u8
    ensures { TellsDate result days (date_of year.old month.old day.old)
        (date_of year.new month.new day.new) }
{
    let Ok(date) = date_of(days) else {
        return 17;
    };
    *year = date.year;
    *month = date.month;
    *day = date.day;
    0
}

// A date, or a date and a time of day, by the code of its type, or its own refusal; those of any other code are out of range.
pub(crate) fn civil_by(code: u8, date: Date, time: i64) -> Result<Variant, Refusal>
    ensures { OwnBytes (λ x. scalar_bytes (stored_variant x)) (civil_by code date time) result }
{
    civil_of(code, date, time).ok_or(Refusal::OutOfRange)?.own()
}

fn civil_of(code: u8, date: Date, time: i64) -> Option<Civil>
    ensures { MatchOption result (¬ ((11 ≤ code) × (code ≤ 13))) (λ x. (11 ≤ code) × (code ≤ 13) × (x ≡ civil_of code date time)) }
{
    match code {
        11 => Some(Civil::Date(date)),
        12 => Some(Civil::TimestampMicros(date, time)),
        13 => Some(Civil::TimestampNtzMicros(date, time)),
        _ => None,
    }
}
