// The calendar's own numbers: leap years, months, days counted from 0001-01-01. No loop goes over years.
ghost use Rattle.std.specs.Prelude.{◌≡◌, ◌-◌, ◌≤◌, ◌<◌};
ghost use Rattle.calendar.specs.Gregorian.{leap, month_length, months, year_length, years};
ghost use Rattle.calendar.specs.Gregorian.{MonthOf, YearOf};

// A month, and a day of it from 0 on.
#[derive(Clone, Copy, PartialEq, Eq, PartialOrd, Ord, Debug)]
pub(crate) struct MonthDay {
    pub month: usize,
    pub day: usize,
}

#[tactic(auto, unfolding(crate::specs::Gregorian::leap))]
fn is_leap(year: usize) -> bool
    ensures { result ≡ leap year }
{
    year % 4 == 0 && (year % 100 != 0 || year % 400 == 0)
}

#[tactic(auto, unfolding(crate::specs::Gregorian::month_length))]
pub(crate) fn month_length(year: usize, month: usize) -> usize
    ensures { result ≡ month_length (leap year) month }
{
    match month {
        2 if is_leap(year) => 29,
        2 => 28,
        4 | 6 | 9 | 11 => 30,
        _ => 31,
    }
}

// Days of the years 1 to k.
pub(crate) fn years_to(k: usize) -> usize
    requires { k ≤ 9999 }
    ensures { result ≡ years k }
{
    365 * k + k / 4 + k / 400 - k / 100
}

// Days of the months before this one.
// Kept (3; proof): as `(1..month).map(..).sum()`, that the sum fits and that it is the definition's stayed open.
pub(crate) fn months_before(year: usize, month: usize) -> usize
    requires { (0 < month) × (month < 13) }
    ensures { result ≡ months (leap year) (month - 1) }
{
    let mut sum = 0;
    for m in 1..month {
        sum += month_length(year, m);
    }
    sum
}

// The whole years before day n: those of the mean year, or one more.
pub(crate) fn years_before(n: usize) -> usize
    requires { n < 3652059 }
    ensures { YearOf n result }
{
    let guess = n * 400 / 146_097;
    if years_to(guess + 1) <= n {
        guess + 1
    } else {
        guess
    }
}

// The month and the day of day n of a year.
// Kept (3; no plainer): the months are numbers, and the one in which the days run out is the answer.
pub(crate) fn month_of(year: usize, n: usize) -> MonthDay
    requires { n < year_length (leap year) }
    ensures { MonthOf (leap year) n result.month result.day }
{
    let mut rest = n;
    for month in 1..12 {
        let length = month_length(year, month);
        if rest < length {
            return MonthDay { month, day: rest };
        }
        rest -= length;
    }
    MonthDay {
        month: 12,
        day: rest,
    }
}
