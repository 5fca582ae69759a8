// Dates, day numbers and settlement terms (02: Slip 7), by value and in constant time: no loop and no table.
#![tactic(auto)]

ghost use Rattle.std.specs.Prelude.{◌≡◌, ◌+◌, ◌≤◌, ◌<◌, cond};
ghost use Rattle.model.specs.Bounds.{most_day};
ghost use Rattle.model.specs.Calendar.{first_year, is_leap, month_days, days_before_month, days_before_year};
ghost use Rattle.dates.specs.DateCalls.{day_call, date_call, term_call, day_answer_of, date_answer_of, term_answer_of};
ghost use Rattle.dates.specs.Parts.{MonthAt, Parted};
ghost use Rattle.dates.specs.DateLaws.{ExactEachWay, NumbersRise, OneTerm, TermSize, NoGap};

use model::{DaySpan, MOST_DAY, Refusal};

// The years that day numbers reach, and where the first term of a month ends and the second begins (02).
const FIRST_YEAR: u32 = 2000;

const LAST_YEAR: u32 = 2099;

const FIRST_TERM_END: u32 = 15;

const SECOND_TERM: u32 = FIRST_TERM_END + 1;

// A date of these years.
#[derive(Clone, Copy)]
pub struct Date {
    pub year: u32,
    pub month: u32,
    pub day: u32,
}

// What C is answered for the conversion of a date.
#[repr(C)]
#[derive(Clone, Copy)]
pub struct DayAnswer {
    pub refusal: u32,
    pub day: u32,
}

impl From<Result<u32, Refusal>> for DayAnswer {
    ghost from_gives = { λ r x. x ≡ day_answer_of r };

    fn from(outcome: Result<u32, Refusal>) -> DayAnswer {
        match outcome {
            Ok(day) => DayAnswer { refusal: 0, day },
            Err(refusal) => DayAnswer {
                refusal: refusal.number(),
                day: 0,
            },
        }
    }
}

// The same for the conversion of a day number.
#[repr(C)]
#[derive(Clone, Copy)]
pub struct DateAnswer {
    pub refusal: u32,
    pub year: u32,
    pub month: u32,
    pub day: u32,
}

impl From<Result<Date, Refusal>> for DateAnswer {
    ghost from_gives = { λ r x. x ≡ date_answer_of r };

    fn from(outcome: Result<Date, Refusal>) -> DateAnswer {
        match outcome {
            Ok(date) => DateAnswer {
                refusal: 0,
                year: date.year,
                month: date.month,
                day: date.day,
            },
            Err(refusal) => DateAnswer {
                refusal: refusal.number(),
                year: 0,
                month: 0,
                day: 0,
            },
        }
    }
}

// The same for a term: its first and its last day.
#[repr(C)]
#[derive(Clone, Copy)]
pub struct TermAnswer {
    pub refusal: u32,
    pub first: u32,
    pub last: u32,
}

impl From<Result<DaySpan, Refusal>> for TermAnswer {
    ghost from_gives = { λ r x. x ≡ term_answer_of r };

    fn from(outcome: Result<DaySpan, Refusal>) -> TermAnswer {
        match outcome {
            Ok(days) => TermAnswer {
                refusal: 0,
                first: days.first,
                last: days.last,
            },
            Err(refusal) => TermAnswer {
                refusal: refusal.number(),
                first: 0,
                last: 0,
            },
        }
    }
}

// A day number taken apart: its date, and whether the year is a leap year.
#[derive(Clone, Copy)]
struct Parts {
    date: Date,
    leap: bool,
}

// Whether year 2000 + k is a leap year: from 2000 to 2099 it is every fourth.
fn leap(k: u32) -> bool
    requires { k < 100 }
    ensures { result ≡ is_leap (first_year + k) }
{
    k % 4 == 0
}

// The days of the k years from 2000 on.
fn before_year(k: u32) -> u32
    requires { k < 100 }
    ensures value { result ≡ days_before_year (first_year + k) }
    ensures small { result ≤ 36525 }
{
    (1461 * k + 3) / 4
}

// How many days February lacks of 30.
fn lacking(leap: bool) -> u32
    ensures value { result ≡ cond leap 1 2 }
    ensures small { result ≤ 2 }
{
    if leap { 1 } else { 2 }
}

// The days before month m, and at 13 the year's: as if February had 30, less those that it lacks.
fn before_month(leap: bool, m: u32) -> u32
    requires { (1 ≤ m) × (m ≤ 13) }
    ensures value { result ≡ days_before_month leap m }
    ensures small { result ≤ 366 }
{
    let n = (367 * m - 362) / 12;
    if m <= 2 { n } else { n - lacking(leap) }
}

// The days of month m.
fn month_days(leap: bool, m: u32) -> u32
    requires { (1 ≤ m) × (m ≤ 12) }
    ensures value { result ≡ month_days leap m }
    ensures small { result ≤ 31 }
{
    before_month(leap, m + 1) - before_month(leap, m)
}

// The month of day n of a year, counted from 0: as if February had 30, the days after it later by those that it lacks.
fn month_at(leap: bool, n: u32) -> u32
    requires { n < days_before_month leap 13 }
    ensures { MonthAt leap n result }
{
    let shift = if n + lacking(leap) < 61 {
        0
    } else {
        lacking(leap)
    };
    (12 * (n + shift) + 373) / 367
}

// A day number taken apart: 1,461 days are four years, the first of them a leap year.
fn apart(day: u32) -> Parts
    requires { day ≤ most_day }
    ensures { Parted day result }
{
    let k = 4 * day / 1461;
    let leap = leap(k);
    let n = day - before_year(k);
    let month = month_at(leap, n);
    Parts {
        date: Date {
            year: FIRST_YEAR + k,
            month,
            day: n - before_month(leap, month) + 1,
        },
        leap,
    }
}

// The day number of a date.
pub fn day_of(year: u32, month: u32, day: u32) -> Result<u32, Refusal>
    ensures { day_answer_of result ≡ day_call year month day }
{
    if !(FIRST_YEAR..=LAST_YEAR).contains(&year) || !(1..=12).contains(&month) || day < 1 {
        return Err(Refusal::Days);
    }
    let k = year - FIRST_YEAR;
    let leap = leap(k);
    if month_days(leap, month) < day {
        return Err(Refusal::Days);
    }
    Ok(before_year(k) + before_month(leap, month) + (day - 1))
}

// The date of a day number.
pub fn date_of(day: u32) -> Result<Date, Refusal>
    ensures { date_answer_of result ≡ date_call day }
{
    if MOST_DAY < day {
        return Err(Refusal::Days);
    }
    Ok(apart(day).date)
}

// The term that holds a day.
pub fn term_of(day: u32) -> Result<DaySpan, Refusal>
    ensures { term_answer_of result ≡ term_call day }
{
    if MOST_DAY < day {
        return Err(Refusal::Days);
    }
    let p = apart(day);
    let d = p.date.day;
    let (first, last) = if d <= FIRST_TERM_END {
        (1, FIRST_TERM_END)
    } else {
        (SECOND_TERM, month_days(p.leap, p.date.month))
    };
    Ok(DaySpan {
        first: day + first - d,
        last: day + last - d,
    })
}

// Does nothing: its contract is that the laws of dates and terms hold, so that they stand in the list of what is proved.
pub fn conversions_exact()
    ensures { ExactEachWay × NumbersRise × OneTerm × TermSize × NoGap }
{}
