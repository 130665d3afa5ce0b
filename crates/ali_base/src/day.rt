//! Civil days.
ghost use Rattle.std.specs.Prelude.{◌≡◌, ◌≤◌, ◌<◌, length, pos};
ghost use Rattle.ali_base.specs.Numbers.{zero_padded};
ghost use Rattle.ali_base.specs.CivilDay.{IsDay, day_of, day_text, days_between, written_day, day_in_century, is_civil_date};
ghost use Rattle.jiff_core.specs.Date.{IsYmd};

use crate::fields::{columns, digits_number};
use crate::numbers::write_zero_padded;
use jiff_core::civil::Date;
use std::marker::Model;

/// A civil day of the years 2000 to 2099. Days are ordered as the calendar has them.
#[derive(Clone, Copy, Debug, PartialEq, Eq, PartialOrd, Ord)]
pub struct Day {
    year: u16,
    month: u8,
    day: u8,
}

impl Model for Day {
    ghost use Rattle.std.specs.Prelude.{◌<◌, ◌≤◌, ◌≡◌, true};
    ghost use Rattle.ali_base.specs.CivilDay.{CivilDay, is_civil_date};

    ghost Value = { CivilDay };

    ghost view = { λ d. record { year = d.year; month = d.month; day = d.day } };

    ghost invariant = { λ d. (2000 ≤ d.year) × (d.year ≤ 2099) × (d.month < 100) × (d.day < 100)
        × (is_civil_date d.year d.month d.day ≡ true) };

    ghost inverse = { λ d. record { year = d.year; month = d.month; day = d.day } };
}

impl Day {
    /// The day that six bytes write as MMDDYY, where the calendar has it.
    pub fn read(bytes: &[u8]) -> Option<Self>
        ensures { result ≡ day_of bytes.now }
    {
        if bytes.len() != 6 {
            return None;
        }
        written_day(bytes)
    }

    /// The day as MMDDYY.
    pub fn text(self) -> [u8; 6]
        ensures text { result ≡ day_text self }
        ensures day { IsDay self }
    {
        let [m1, m2] = two_digits(self.month);
        let [d1, d2] = two_digits(self.day);
        let [y1, y2] = two_digits((self.year - 2000) as u8);
        [m1, m2, d1, d2, y1, y2]
    }

    /// The days from the other day to this one; negative where this one lies before the other.
    pub fn days_from(self, other: Day) -> i64
        ensures { result ≡ days_between other self }
    {
        i64::from(other.date().until(self.date()))
    }

    // The day in the calendar.
    fn date(self) -> Date
        ensures { IsYmd (pos self.year) (pos self.month) (pos self.day) result }
    {
        Date::new(self.year as i16, self.month as i8, self.day as i8).unwrap()
    }
}

// The two digits of a number.
fn two_digits(number: u8) -> [u8; 2]
    requires { number < 100 }
    ensures { result ≡ zero_padded 2 number }
{
    let mut text = [0; 2];
    write_zero_padded(&mut text, u32::from(number));
    text
}

// The day that six digits write.
#[tactic(auto, unfolding(crate::specs::CivilDay::written_day))]
fn written_day(bytes: &[u8]) -> Option<Day>
    requires { length bytes.now ≡ 6 }
    ensures { result ≡ written_day bytes.now }
{
    let month = digits_number(columns(bytes, 1, 2))?;
    let day = digits_number(columns(bytes, 3, 4))?;
    let year = digits_number(columns(bytes, 5, 6))?;
    day_in_century(year as u16, month as u8, day as u8)
}

// The day of these numbers, where the calendar has it.
fn day_in_century(year: u16, month: u8, day: u8) -> Option<Day>
    requires { (year < 100) × (month < 100) × (day < 100) }
    ensures { result ≡ day_in_century year month day }
{
    let year = 2000 + year;
    if is_civil_date(year, month, day) {
        Some(Day { year, month, day })
    } else {
        None
    }
}

// Whether the calendar has this day.
fn is_civil_date(year: u16, month: u8, day: u8) -> bool
    requires { (2000 ≤ year) × (year ≤ 2099) × (month < 100) × (day < 100) }
    ensures { result ≡ is_civil_date year month day }
{
    Date::new(year as i16, month as i8, day as i8).is_ok()
}
