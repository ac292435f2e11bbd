//! A month as a text, and when it begins and ends.
ghost use Rattle.std.specs.Prelude.{◌≡◌, ◌+◌, ◌*◌, ◌/◌, ◌%◌, ◌<◌, ◌↔◌, ℕ, ℤ, pos, ◌+ℤ◌, ◌*ℤ◌, IfSome, IsNone};
ghost use Rattle.std.specs.Int.{IsInRange};
ghost use Rattle.duty_core.specs.Range.{IsStart};
ghost use Rattle.jiff.specs.Words.{IsYmd, days_in_month, epoch_day};
ghost use Rattle.desk_engine.specs.Months.{BeginsAt, IsMonth, day_length, month_text};

use jiff::civil::{Date, date};

/// The microseconds of a day.
const DAY: i64 = 86_400_000_000;

/// When a month begins and when the next one does, in microseconds since 1970 UTC.
#[derive(Clone, Copy)]
pub(crate) struct Month {
    pub from: i64,
    pub to: i64,
}

/// Returns the number of two decimal digits.
fn two_digits(tens: u8, ones: u8) -> Option<u8>
    ensures some { IfSome result (λ n. (n < 100) × (tens ≡ 48 + n / 10) × (ones ≡ 48 + n % 10)) }
    ensures back { (n : ℕ) → n < 100 → tens ≡ 48 + n / 10 → ones ≡ 48 + n % 10 → result ≡ Some n }
{
    if tens.is_ascii_digit() && ones.is_ascii_digit() {
        Some((tens - b'0') * 10 + (ones - b'0'))
    } else {
        None
    }
}

/// Returns the year and the month of a text YYYY-MM, from 2000-01 to 2099-12.
fn year_and_month(text: &[u8]) -> Option<(u16, u8)>
    ensures some { IfSome result (λ m. IsInRange 2000 2099 m.0 × IsInRange 1 12 m.1 × (text.now ≡ month_text m.0 m.1)) }
    ensures back { (year month : ℕ) → IsInRange 2000 2099 year → IsInRange 1 12 month → text.now ≡ month_text year month
        → result ≡ Some (year, month) }
{
    let [b'2', b'0', decade, year, b'-', tens, ones] = *text else {
        return None;
    };
    let year = 2000 + u16::from(two_digits(decade, year)?);
    let month = two_digits(tens, ones)?;
    if month < 1 || month > 12 {
        return None;
    }
    Some((year, month))
}

/// Returns the month's first day.
fn first_day(year: u16, month: u8) -> Date
    requires in_years { IsInRange 2000 2099 year }
    requires in_months { IsInRange 1 12 month }
    ensures { IsYmd (pos year) (pos month) (pos 1) result }
{
    date(year as i16, month as i8, 1)
}

/// Returns when the day begins, in microseconds since 1970 UTC.
fn start_of(day: Date) -> i64
    ensures value { result ≡ epoch_day day *ℤ pos day_length }
    ensures range { IsStart result }
{
    i64::from(day.to_plain().to_unix_epoch_day()) * DAY
}

/// Returns when the month begins and when the next one does.
fn month_at(year: u16, month: u8) -> Month
    requires in_years { IsInRange 2000 2099 year }
    requires in_months { IsInRange 1 12 month }
    ensures begins { BeginsAt year month result.from }
    ensures ends { result.to ≡ result.from +ℤ pos (days_in_month (pos year) month * day_length) }
{
    let first = first_day(year, month);
    let from = start_of(first);
    let days = i64::from(first.days_in_month());
    Month {
        from,
        to: from + days * DAY,
    }
}

/// Returns the month of a text, `None` if and only if the text is not a month.
pub(crate) fn month_of(text: &str) -> Option<Month>
    ensures none { IsNone result ↔ ((from to : ℤ) → ¬ (IsMonth text.now from to)) }
    ensures some { (from to : ℤ) → IsMonth text.now from to → IfSome result (λ m. (m.from ≡ from) × (m.to ≡ to)) }
{
    let (year, month) = year_and_month(text.as_bytes())?;
    Some(month_at(year, month))
}
