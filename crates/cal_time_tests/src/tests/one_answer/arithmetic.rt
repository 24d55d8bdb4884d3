//! Dates moved, with and without a time.
ghost use Rattle.std.specs.Prelude.{◌≡◌, pos, ◌+ℤ◌, ◌-ℤ◌, IsSome};
ghost use Rattle.cal_units.specs.Weekday.{index};
ghost use Rattle.cal_span.specs.SignedDuration.{whole_days};
ghost use Rattle.cal_date.specs.Arithmetic.{IsDateNumber};
ghost use Rattle.cal_date.specs.Occurrences.{next_occurrences, prev_occurrences, kth};

use crate::tests::one_answer::Twice;
use cal_time::{Date, SignedDuration, Time, Weekday};

fn next_day(date: Date) -> Twice<Option<Date>>
    ensures { result.0 ≡ result.1 }
{
    twice!(date.next_day())
}

fn previous_day(date: Date) -> Twice<Option<Date>>
    ensures { result.0 ≡ result.1 }
{
    twice!(date.previous_day())
}

fn checked_add(date: Date, duration: SignedDuration) -> Twice<Option<Date>>
    ensures { result.0 ≡ result.1 }
{
    twice!(date.checked_add(duration))
}

fn checked_sub(date: Date, duration: SignedDuration) -> Twice<Option<Date>>
    ensures { result.0 ≡ result.1 }
{
    twice!(date.checked_sub(duration))
}

fn sum(date: Date, duration: SignedDuration) -> Twice<Date>
    requires { IsDateNumber (pos date +ℤ whole_days duration) }
    ensures { result.0 ≡ result.1 }
{
    twice!(date + duration)
}

fn difference(date: Date, duration: SignedDuration) -> Twice<Date>
    requires { IsDateNumber (pos date -ℤ whole_days duration) }
    ensures { result.0 ≡ result.1 }
{
    twice!(date - duration)
}

fn add_assign(date: Date, duration: SignedDuration) -> Twice<Date>
    requires { IsDateNumber (pos date +ℤ whole_days duration) }
    ensures { result.0 ≡ result.1 }
{
    twice!({
        let mut moved = date;
        moved += duration;
        moved
    })
}

fn sub_assign(date: Date, duration: SignedDuration) -> Twice<Date>
    requires { IsDateNumber (pos date -ℤ whole_days duration) }
    ensures { result.0 ≡ result.1 }
{
    twice!({
        let mut moved = date;
        moved -= duration;
        moved
    })
}

fn next_occurrence(date: Date, weekday: Weekday) -> Twice<Date>
    requires { IsSome (kth 1 (next_occurrences (index weekday) date)) }
    ensures { result.0 ≡ result.1 }
{
    twice!(date.next_occurrence(weekday))
}

fn prev_occurrence(date: Date, weekday: Weekday) -> Twice<Date>
    requires { IsSome (kth 1 (prev_occurrences (index weekday) date)) }
    ensures { result.0 ≡ result.1 }
{
    twice!(date.prev_occurrence(weekday))
}

fn nth_next_occurrence(date: Date, weekday: Weekday, n: u8) -> Twice<Date>
    requires { IsSome (kth n (next_occurrences (index weekday) date)) }
    ensures { result.0 ≡ result.1 }
{
    twice!(date.nth_next_occurrence(weekday, n))
}

fn nth_prev_occurrence(date: Date, weekday: Weekday, n: u8) -> Twice<Date>
    requires { IsSome (kth n (prev_occurrences (index weekday) date)) }
    ensures { result.0 ≡ result.1 }
{
    twice!(date.nth_prev_occurrence(weekday, n))
}

fn add_to_pair(date: Date, time: Time, duration: SignedDuration) -> Twice<Option<(Date, Time)>>
    ensures { result.0 ≡ result.1 }
{
    twice!(cal_time::add_to_pair(date, time, duration))
}

fn sub_from_pair(date: Date, time: Time, duration: SignedDuration) -> Twice<Option<(Date, Time)>>
    ensures { result.0 ≡ result.1 }
{
    twice!(cal_time::sub_from_pair(date, time, duration))
}
