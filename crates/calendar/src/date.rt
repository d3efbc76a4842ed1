// Dates to day numbers, and back. 1970-01-01 is day 0.
ghost use Rattle.std.specs.Prelude.{◌≡◌, false, true, ◌<◌, MatchResult};
ghost use Rattle.calendar.specs.Gregorian.{date_at, date_of_day, day_number, days_before, in_calendar};
ghost use Rattle.calendar.specs.Answers.{answer, date_rows, day_rows, told};

use crate::gregorian::{month_length, month_of, months_before, years_before, years_to};

// Any three numbers; `days_of` says whether they are a date.
#[derive(Clone, Copy, PartialEq, Eq, PartialOrd, Ord, Debug)]
pub struct Date {
    pub year: i64,
    pub month: i64,
    pub day: i64,
}

// A date of the calendar.
#[derive(Clone, Copy)]
pub(crate) struct CalendarDate {
    date: Date,
    ghost known: { in_calendar date ≡ true },
}

// Number 17.
#[derive(Clone, Copy, PartialEq, Eq, Debug)]
pub struct OutOfCalendar;

// The day number of a date.
pub fn days_of(date: Date) -> Result<i32, OutOfCalendar>
    ensures { told result ≡ answer (date_rows date) (day_number date) }
{
    Ok(date.in_calendar()?.day_number())
}

// The date of a day number.
pub fn date_of(days: i64) -> Result<Date, OutOfCalendar>
    ensures { told result ≡ answer (day_rows days) (date_of_day days) }
{
    if (-719_162..=2_932_896).contains(&days) {
        Ok(date_at((days + 719_162) as usize))
    } else {
        Err(OutOfCalendar)
    }
}

impl Date {
    pub(crate) fn in_calendar(self) -> Result<CalendarDate, OutOfCalendar>
        ensures { MatchResult result (λ d. d.date ≡ self) (λ _. in_calendar self ≡ false) }
    {
        let last = month_length(
            self.year.unsigned_abs() as usize,
            self.month.unsigned_abs() as usize,
        );
        if (1..=9999).contains(&self.year)
            && (1..=12).contains(&self.month)
            && (1..=last as i64).contains(&self.day)
        {
            Ok(CalendarDate { date: self })
        } else {
            Err(OutOfCalendar)
        }
    }
}

impl CalendarDate {
    pub(crate) fn day_number(self) -> i32
        ensures { result ≡ day_number self.date }
    {
        self.days_before() as i32 - 719_162
    }

    // Days since 0001-01-01.
    pub(crate) fn days_before(self) -> usize
        ensures { result ≡ days_before self.date }
    {
        let date = self.date;
        let year = date.year.unsigned_abs() as usize;
        let month = date.month.unsigned_abs() as usize;
        let day = date.day.unsigned_abs() as usize;
        years_to(year - 1) + (months_before(year, month) + (day - 1))
    }
}

// The date of a day counted from 0001-01-01.
fn date_at(n: usize) -> Date
    requires { n < 3652059 }
    ensures { result ≡ date_at n }
{
    let k = years_before(n);
    let at = month_of(k + 1, n - years_to(k));
    Date {
        year: (k + 1) as i64,
        month: at.month as i64,
        day: (at.day + 1) as i64,
    }
}
