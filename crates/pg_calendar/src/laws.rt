//! What equality means, and that each day has one number and each number is that of one day, each as
//! a function whose contract states it.
ghost use Rattle.std.specs.Prelude.{◌≡◌, ◌↔◌, ℕ, ℤ, IsTrue};
ghost use Rattle.jiff_core.specs.Calendar.{IsCivilDate, days_from_civil};
ghost use Rattle.pg_calendar.specs.Calendar.{IsDay, civil_day, civil_month, civil_year, day_number};

use crate::civil::Civil;
use crate::date_time::{Clock, DateTime};

/// Whether two dates are equal: of the same year, month and day.
pub fn same_civil(a: &Civil, b: &Civil) -> bool
    ensures { IsTrue result ↔ (a.now ≡ b.now) }
{
    *a == *b
}

/// Whether two times of day are equal: in hours, minutes, seconds and microseconds.
pub fn same_clock(a: &Clock, b: &Clock) -> bool
    ensures { IsTrue result ↔ (a.now ≡ b.now) }
{
    *a == *b
}

/// Whether two timestamps are equal: of the same date and time of day.
pub fn same_date_time(a: &DateTime, b: &DateTime) -> bool
    ensures { IsTrue result ↔ (a.now ≡ b.now) }
{
    *a == *b
}

/// The number of a day is the one that the calendar of `jiff` defines, for each day of that
/// calendar.
pub fn days_are_numbered()
    ensures { (year : ℤ) (month day : ℕ) → IsCivilDate year month day
        → day_number year month day ≡ days_from_civil year month day }
{}

/// Different days have different numbers, so a timestamp has one text.
pub fn a_number_is_of_one_day()
    ensures { (y₁ y₂ : ℤ) (m₁ d₁ m₂ d₂ : ℕ) → IsDay y₁ m₁ d₁ → IsDay y₂ m₂ d₂
        → day_number y₁ m₁ d₁ ≡ day_number y₂ m₂ d₂ → (y₁ ≡ y₂) × (m₁ ≡ m₂) × (d₁ ≡ d₂) }
{}

/// Each number is that of a day.
pub fn a_number_is_a_day()
    ensures { (n : ℤ) → IsDay (civil_year n) (civil_month n) (civil_day n)
        × (day_number (civil_year n) (civil_month n) (civil_day n) ≡ n) }
{}
