//! Callers of `cal_date` that know only a condition.
ghost use Rattle.std.specs.Prelude.{pos, ◌+ℤ◌, ◌-ℤ◌, IsSome};
ghost use Rattle.cal_span.specs.SignedDuration.{whole_days};
ghost use Rattle.cal_units.specs.Weekday.{index};
ghost use Rattle.cal_date.specs.Arithmetic.{IsDateNumber};
ghost use Rattle.cal_date.specs.Occurrences.{next_occurrences, prev_occurrences, kth};

use cal_date::Date;
use cal_span::SignedDuration;
use cal_units::Weekday;

pub mod kernels;

pub fn later(date: Date, duration: SignedDuration) -> [Date; 2]
    requires { IsDateNumber (pos date +ℤ whole_days duration) }
{
    let mut moved = date;
    moved += duration;
    [date + duration, moved]
}

pub fn earlier(date: Date, duration: SignedDuration) -> [Date; 2]
    requires { IsDateNumber (pos date -ℤ whole_days duration) }
{
    let mut moved = date;
    moved -= duration;
    [date - duration, moved]
}

pub fn occurrences(date: Date, weekday: Weekday, n: u8) -> [Date; 4]
    requires next { IsSome (kth 1 (next_occurrences (index weekday) date)) }
    requires prev { IsSome (kth 1 (prev_occurrences (index weekday) date)) }
    requires nth_next { IsSome (kth n (next_occurrences (index weekday) date)) }
    requires nth_prev { IsSome (kth n (prev_occurrences (index weekday) date)) }
{
    [
        date.next_occurrence(weekday),
        date.prev_occurrence(weekday),
        date.nth_next_occurrence(weekday, n),
        date.nth_prev_occurrence(weekday, n),
    ]
}
