// Days and the dates that write them.
#![tactic(auto)]

ghost use Rattle.std.specs.Prelude.{◌≡◌, ◌+◌, ◌-◌, ◌*◌, ◌<◌, ◌≤◌, true, length, Some};
ghost use Rattle.fields.specs.Runs.{is_digit};
ghost use Rattle.calendar.specs.Calendar.{day_of, days_in, first_of, is_day, length_of, month_of, year_of};
ghost use Rattle.calendar.specs.Dates.{date_text, day_in, entry_day_of, is_date, numbered, two, Stands};

use crate::table::first_days;
use domain::day::Day;
use fields::is_digits;

mod table;

fn year_of(yy: u8) -> u16
    ensures { result ≡ year_of yy }
{
    if 80 <= yy {
        1900 + yy as u16
    } else {
        2000 + yy as u16
    }
}

// The days of a month, 1 to 12, of a year.
fn days_in(year: u16, month: u8) -> u8
    ensures { result ≡ days_in year month }
{
    match month {
        2 if year % 4 == 0 => 29,
        2 => 28,
        4 | 6 | 9 | 11 => 30,
        _ => 31,
    }
}

fn is_day(yy: u8, mm: u8, dd: u8) -> bool
    ensures { result ≡ is_day yy mm dd }
{
    // Comparisons and no ranges with `contains`, which were tried: the check proves these only near its limits.
    yy <= 99 && 1 <= mm && mm <= 12 && 1 <= dd && dd <= days_in(year_of(yy), mm)
}

// The day that a two-digit year, a month and a day of the month name.
#[tactic(auto, using(crate::proofs::Steps::first_most))]
fn day_of(yy: u8, mm: u8, dd: u8) -> Option<Day>
    ensures { result ≡ numbered (day_of yy mm dd) }
{
    // A guard and no `then`, whose closure's sums the check proves only near its limits.
    if !is_day(yy, mm, dd) {
        return None;
    }
    let month = 12 * (year_of(yy) as usize - 1980) + (mm as usize - 1);
    Day::try_from(first_days()[month] + (dd as u16 - 1)).ok()
}

// Whether these are six digits.
pub fn is_date(date: &[u8]) -> bool
    ensures { result ≡ is_date date.now }
{
    date.len() == 6 && is_digits(date)
}

// The number that two digits write.
fn number(tens: u8, ones: u8) -> u8
    requires first { is_digit tens ≡ true }
    requires second { is_digit ones ≡ true }
    ensures { result ≡ (tens - 48) * 10 + (ones - 48) }
{
    (tens - b'0') * 10 + (ones - b'0')
}

// The day of a date YYMMDD.
#[tactic(auto, unfolding(crate::specs::Dates::day_in))]
pub fn day_in(date: &[u8]) -> Option<Day>
    ensures { result ≡ day_in date.now }
{
    match date {
        &[y1, y2, m1, m2, d1, d2] if is_digits(date) => {
            let (yy, mm, dd) = (number(y1, y2), number(m1, m2), number(d1, d2));
            day_of(yy, mm, dd)
        }
        _ => None,
    }
}

// The day of MMDD in the year of the value date YYMMDD.
#[tactic(auto, unfolding(crate::specs::Dates::day_in, crate::specs::Dates::entry_day_of))]
pub fn entry_day(value_date: &[u8], month_day: &[u8]) -> Option<Day>
    ensures { result ≡ entry_day_of value_date.now month_day.now }
{
    match (value_date, month_day) {
        (&[y1, y2, ..], &[m1, m2, d1, d2]) => day_in(&[y1, y2, m1, m2, d1, d2]),
        _ => None,
    }
}

// The month in which a day lies: the last one that begins on it or before it.
fn month_of(day: Day) -> usize
    ensures is { result ≡ month_of day.number }
    ensures within { result < 1200 }
    ensures from { first_of result ≤ day.number }
    ensures before { day.number < first_of result + length_of result }
{
    let n = day.number();
    first_days().partition_point(|first| *first <= n) - 1
}

// The two digits of a number below 100; the kit's `itoa` writes 7 as one digit, and a date has 07.
fn two(n: u8) -> [u8; 2]
    requires { n < 100 }
    ensures { result ≡ two n }
{
    [b'0' + n / 10, b'0' + n % 10]
}

// The six digits YYMMDD of a day.
#[tactic(auto, using(crate::proofs::Inverse::back), unfolding(crate::specs::Dates::date_text))]
pub fn written(day: Day) -> [u8; 6]
    ensures is { result ≡ date_text day.number }
    ensures back { day_in result ≡ Some day }
    ensures six { length result ≡ 6 }
{
    let n = day.number();
    let k = month_of(day);
    let yy = ((1980 + k / 12) % 100) as u8;
    let mm = (k % 12 + 1) as u8;
    let dd = (n - first_days()[k] + 1) as u8;
    let ([y1, y2], [m1, m2], [d1, d2]) = (two(yy), two(mm), two(dd));
    [y1, y2, m1, m2, d1, d2]
}

// The worked figures hold, and each day has one date, each date one day.
pub fn calendar_stands()
    ensures { Stands }
{}
