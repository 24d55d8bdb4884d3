//! A date and a time of day, moved together by a duration.
ghost use Rattle.std.specs.Prelude.{pos, ◌+ℤ◌, ◌-ℤ◌, SomeIff};
ghost use Rattle.cal_clock.specs.Time.{carry};
ghost use Rattle.cal_date.specs.Date.{IsDate};
ghost use Rattle.cal_date.specs.Arithmetic.{IsDateNumber, clamped_date};
ghost use Rattle.cal_time.specs.Pair.{pair_number, IsPairWithNumber};

use cal_clock::Time;
use cal_date::Date;
use cal_span::SignedDuration;
use cal_units::util::DateAdjustment;

/// Adds a duration to a date and a time of day. Returns `None` if the date of the result is out of
/// range.
///
/// The number of a pair is its Julian day times a day, plus its time, in nanoseconds. The result is
/// the pair whose number is the old number plus the duration. 23:00 on 2020-12-31 plus two hours is
/// 1:00 on 2021-01-01. The last nanosecond of [`Date::MAX`] plus 1 ns is `None`.
pub fn add_to_pair(date: Date, time: Time, duration: SignedDuration) -> Option<(Date, Time)>
    ensures { IsPairWithNumber (pair_number date time +ℤ duration) result }
{
    let (adjustment, time) = time.adjusting_add(duration);
    let date = adjust_date(date.checked_add(duration)?, adjustment)?;
    Some((date, time))
}

/// Subtracts a duration from a date and a time of day. Returns `None` if the date of the result is
/// out of range.
///
/// The result is the pair whose number, as in [`add_to_pair`], is the old number minus the
/// duration. 1:00 on 2021-01-01 minus two hours is 23:00 on 2020-12-31. Midnight of [`Date::MIN`]
/// minus 1 ns is `None`.
pub fn sub_from_pair(date: Date, time: Time, duration: SignedDuration) -> Option<(Date, Time)>
    ensures { IsPairWithNumber (pair_number date time -ℤ duration) result }
{
    let (adjustment, time) = time.adjusting_sub(duration);
    let date = adjust_date(date.checked_sub(duration)?, adjustment)?;
    Some((date, time))
}

/// Moves a date to the previous or the next day, as the adjustment says. Returns `None` if that is
/// out of range.
fn adjust_date(date: Date, adjustment: DateAdjustment) -> Option<Date>
    requires { IsDate date }
    ensures { SomeIff result (IsDateNumber (pos date +ℤ carry adjustment))
        (clamped_date (pos date +ℤ carry adjustment)) }
{
    match adjustment {
        DateAdjustment::Previous => date.previous_day(),
        DateAdjustment::Next => date.next_day(),
        DateAdjustment::None => Some(date),
    }
}
